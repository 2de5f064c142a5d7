// The lines of a file read into cleared tables: the run over them, the checks of the whole file, the answer. Promised: the statement's outcome, with its
// answer and what it leaves in the tables.
#![tactic(auto)]

ghost use Rattle.std.specs.Prelude.{◌≡◌, ◌≤◌, length};
ghost use Rattle.law.specs.Sizes.{most_file, most_players, most_text};
ghost use Rattle.law.specs.Refusals.{refusal};
ghost use Rattle.join.specs.Kept.{Zeroed};
ghost use Rattle.tables.specs.Lent.{nine_of, SameSettled, SameClosing, SameColumns};
ghost use Rattle.steps.specs.Counts.{as_count, Small};
ghost use Rattle.verdicts.specs.Verdict.{stated};
ghost use Rattle.lines_read.specs.Core.{refused_core, accepted_core, LinesRead};

use index::START_CELLS;
use steps::Counts;
use tables::{ClosingMut, ColumnsMut, SettledMut};
use types::{
    Acceleration, Answer, LineNumber, MOST_ACCELERATIONS, NO_ACCELERATION, Refusal, VALUES,
};

// What the core of a reading answers: the answer, the acceleration records, and how many of them are to be filled into the lent list: all, or none where a
// table is too short.
#[derive(Drop)]
pub struct CoreAnswer {
    pub answer: Answer,
    pub records: [Acceleration; MOST_ACCELERATIONS],
    pub fill: usize,
}

// The answer of a refusal by its number, with its line and round.
pub fn refused(number: u32, line: LineNumber, round: u32, fill: usize) -> CoreAnswer
    ensures { result ≡ refused_core (refusal number line.0 round) fill }
{
    CoreAnswer {
        answer: Answer {
            number,
            line,
            round,
            players: 0,
            rounds: 0,
            accelerations: 0,
            text: 0,
            colour: 0,
            values: [0; VALUES],
        },
        records: [NO_ACCELERATION; MOST_ACCELERATIONS],
        fill,
    }
}

// The same by what is refused, and why.
pub fn refused_by(refusal: Refusal, fill: usize) -> CoreAnswer
    ensures { result ≡ refused_core (stated refusal) fill }
{
    refused(refusal.fault.number(), refusal.line, refusal.round, fill)
}

// The answer of an acceptance.
fn accepted(counts: &Counts, rounds: u32) -> CoreAnswer
    requires players { counts.now.players ≤ most_players }
    requires room { Small counts.now }
    ensures { result ≡ accepted_core (as_count counts.now) rounds }
{
    CoreAnswer {
        answer: Answer {
            number: 0,
            line: LineNumber(0),
            round: 0,
            players: counts.players as u32,
            rounds,
            accelerations: counts.accelerations as u32,
            text: counts.text,
            colour: counts.colour,
            values: judges::values_of(counts),
        },
        records: counts.records,
        fill: MOST_ACCELERATIONS,
    }
}

// A file that is not too large, into cleared tables. After a refusal they hold what stood before the fault.
pub fn read_lines(
    file: &[u8],
    settled: &mut SettledMut<'_>,
    closing: &mut ClosingMut<'_>,
    columns: &mut ColumnsMut<'_>,
    text: &mut [u8],
) -> CoreAnswer
    requires file { length file.now ≤ most_file }
    requires text { most_text ≤ length text.old }
    requires zeroed { Zeroed (nine_of settled.old closing.old columns.old text.old) (nine_of settled.old closing.old columns.old text.old) }
    ensures same_settled { SameSettled settled.old settled.new }
    ensures same_closing { SameClosing closing.old closing.new }
    ensures same_columns { SameColumns columns.old columns.new }
    ensures read { LinesRead file.now (nine_of settled.old closing.old columns.old text.old) result (nine_of settled.new closing.new columns.new text.new) }
{
    let mut counts = Counts::new();
    let mut index = [0u8; START_CELLS];
    match runs::run(
        file,
        &mut counts,
        &mut index,
        settled,
        closing,
        columns,
        text,
    ) {
        Ok(_) => {
            let finished = judges::finish(&counts, &index, &settled.shared(), closing);
            match finished.verdict {
                Ok(()) => accepted(&counts, finished.rounds),
                Err(refusal) => refused_by(refusal, MOST_ACCELERATIONS),
            }
        }
        Err(refusal) => refused_by(refusal, MOST_ACCELERATIONS),
    }
}
