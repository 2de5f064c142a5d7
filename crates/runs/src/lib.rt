// The run over the lines of a file: each line is passed over, stored or refused. Promised: the run over the statement's lines, and where it stops.
#![tactic(auto)]

ghost use Rattle.std.specs.Prelude.{◌≡◌, true, false, ℕ, ◌+◌, ◌≤◌, length, IfErr};
ghost use Rattle.law.specs.Sizes.{most_file, most_text};
ghost use Rattle.kit.specs.Lists.{all};
ghost use Rattle.law.specs.Lines.{allowed, End};
ghost use Rattle.law.proofs.Cut.{cut};
ghost use Rattle.join.specs.Run.{run_all};
ghost use Rattle.join.specs.Store.{state, step_line};
ghost use Rattle.tables.specs.Lent.{nine_of, SameSettled, SameClosing, SameColumns};
ghost use Rattle.index.specs.Index.{Indexed};
ghost use Rattle.steps.specs.Counts.{as_count, Small, went};
ghost use Rattle.runs.specs.Lined.{line_of, Skipped, ran};

use index::START_CELLS;
use lines::Cursor;
use records::Kind;
use steps::Counts;
use tables::{ClosingMut, ColumnsMut, SettledMut};
use types::{Fault, LineNumber, MOST_LINE, Refusal};

// Whether a line is passed over and not too long. This is asked first, so that a file of blank lines and comments costs little.
fn is_skipped(line: &[u8]) -> bool
    ensures { result ≡ true → Skipped line.now }
{
    line.len() == 0 || records::is_passed(line) && line.len() <= MOST_LINE
}

// One line of allowed bytes that has its terminator.
fn step(
    line: &[u8],
    number: LineNumber,
    counts: &mut Counts,
    index: &mut [u8; START_CELLS],
    settled: &mut SettledMut<'_>,
    closing: &mut ClosingMut<'_>,
    columns: &mut ColumnsMut<'_>,
    text: &mut [u8],
) -> Result<(), Fault>
    requires indexed { Indexed settled.old.starts.now counts.old.players index.old }
    requires numbered { 1 ≤ number.0 }
    requires small { Small counts.old }
    requires text { most_text ≤ length text.old }
    requires clean { all allowed line.now ≡ true }
    ensures same_settled { SameSettled settled.old settled.new }
    ensures same_closing { SameClosing closing.old closing.new }
    ensures same_columns { SameColumns columns.old columns.new }
    ensures step { (ln : ℕ) (end : End) → number.0 ≡ ln + 1 → went ln result counts.new (nine_of settled.new closing.new columns.new text.new) ≡ step_line (line_of line.now end) (state ln (as_count counts.old) (nine_of settled.old closing.old columns.old text.old)) }
    ensures indexed { Indexed settled.new.starts.now counts.new.players index.new }
    ensures small { Small counts.new }
{
    if is_skipped(line) {
        return Ok(());
    }
    if MOST_LINE < line.len() {
        return Err(Fault::LineLong);
    }
    match records::kind_of(line)? {
        Kind::PassedOver => Ok(()),
        Kind::KeptText => steps::step_text(line, counts, text),
        Kind::Rounds => steps::step_rounds(line, counts),
        Kind::Colour => steps::step_colour(line, counts),
        Kind::Scoring => steps::step_scoring(line, counts),
        Kind::Acceleration => steps::step_acceleration(line, number, counts, settled.lines),
        Kind::Player => {
            players::step_player(line, number, counts, index, settled, closing, columns)
        }
    }
}

// The refusal of a line.
fn refused_at(number: u32, fault: Fault) -> Refusal
    ensures { result ≡ record { fault = fault; line = record { 0 = number }; round = 0 } }
{
    Refusal {
        fault,
        line: LineNumber(number),
        round: 0,
    }
}

// The lines of a file, one after the other: how many there are, or the first that is refused. The counts and the tables are then those of the lines before it.
// A `loop`, since the cursor says where the next line starts, and whether there is one.
pub fn run(
    file: &[u8],
    counts: &mut Counts,
    index: &mut [u8; START_CELLS],
    settled: &mut SettledMut<'_>,
    closing: &mut ClosingMut<'_>,
    columns: &mut ColumnsMut<'_>,
    text: &mut [u8],
) -> Result<u32, Refusal>
    requires file { length file.now ≤ most_file }
    requires indexed { Indexed settled.old.starts.now counts.old.players index.old }
    requires small { Small counts.old }
    requires text { most_text ≤ length text.old }
    ensures same_settled { SameSettled settled.old settled.new }
    ensures same_closing { SameClosing closing.old closing.new }
    ensures same_columns { SameColumns columns.old columns.new }
    ensures run { ran result counts.new (nine_of settled.new closing.new columns.new text.new) ≡ run_all step_line (cut false file.now) 0 (state 0 (as_count counts.old) (nine_of settled.old closing.old columns.old text.old)) }
    ensures no_round { IfErr result (λ refusal. refusal.round ≡ 0) }
    ensures indexed { Indexed settled.new.starts.now counts.new.players index.new }
    ensures small { Small counts.new }
{
    let mut cursor = Cursor::new();
    let mut number: u32 = 0;
    loop {
        let found = match cursor.next_line(file) {
            Ok(Some(line)) => line,
            Ok(None) => return Ok(number),
            Err(fault) => return Err(refused_at(number + 1, fault)),
        };
        number += 1;
        let line = &file[found.from..found.to];
        if let Err(fault) = step(
            line,
            LineNumber(number),
            counts,
            index,
            settled,
            closing,
            columns,
            text,
        ) {
            return Err(refused_at(number, fault));
        }
        cursor = found.next;
    }
}
