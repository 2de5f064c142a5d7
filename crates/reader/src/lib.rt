// The reader: the tables long enough and cleared, then the lines, and the tables cleared again after a refusal. Promised: what the statement says of a reading.
#![tactic(auto)]

ghost use Rattle.tables.specs.Lent.{before, after};
ghost use Rattle.reader.specs.Core.{CoreReads};

use lines_read::CoreAnswer;
use tables::{ClosingMut, ColumnsMut, SettledMut};
use types::{Fault, MOST_ACCELERATIONS, MOST_FILE, Refusal};

// A reading: the file, the nine lent tables of numbers, and how many acceleration records are lent.
pub fn read_core(
    file: &[u8],
    starts: &mut [u32],
    points: &mut [u32],
    ranks: &mut [u32],
    kept: &mut [u8],
    opponents: &mut [u32],
    colours: &mut [u8],
    results: &mut [u8],
    text: &mut [u8],
    lines: &mut [u32],
    accelerations: usize,
) -> CoreAnswer
    ensures { CoreReads file.now (before starts points ranks kept opponents colours results text lines) accelerations result (after starts points ranks kept opponents colours results text lines) }
{
    let numbered = tables::enough_lines(lines.len());
    let long = tables::enough(
        starts.len(),
        points.len(),
        ranks.len(),
        kept.len(),
        opponents.len(),
        colours.len(),
        results.len(),
        text.len(),
        accelerations,
    );
    if !(numbered & long) {
        return lines_read::refused_by(Refusal::from(Fault::TableShort), 0);
    }
    let mut settled = SettledMut {
        starts,
        points,
        opponents,
        lines,
    };
    let mut closing = ClosingMut { colours, results };
    let mut columns = ColumnsMut { ranks, kept };
    tables::clear(&mut settled, &mut closing, &mut columns, text);
    if MOST_FILE < file.len() {
        return lines_read::refused_by(Refusal::from(Fault::FileBig), MOST_ACCELERATIONS);
    }
    let done = lines_read::read_lines(file, &mut settled, &mut closing, &mut columns, text);
    let is_refused = done.answer.number != 0;
    if is_refused {
        tables::clear(&mut settled, &mut closing, &mut columns, text);
    }
    done
}
