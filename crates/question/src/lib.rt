// The question: what a player earned before a round, and the acceleration for it. Promised: what the statement says of a question, for every input.
#![tactic(auto)]

ghost use Rattle.std.specs.Prelude.{◌≡◌, ◌&&◌, leb, ltb};
ghost use Rattle.kit.specs.Lists.{first};
ghost use Rattle.law.specs.Accelerations as law;
ghost use Rattle.law.specs.Refusals.{refusal};
ghost use Rattle.law.specs.Writing.{points_or0};
ghost use Rattle.law.specs.Calls.{score_answer, Asks};
ghost use Rattle.types.specs.Faults.{number_of};
ghost use Rattle.lawful.specs.Given.{tables_of};

use tables::Tables;
use types::{Acceleration, Answer, Fault, LineNumber, Place, Score, StartNumber};

// Whether a record covers a start number in a round.
fn covers(a: Acceleration, start: StartNumber, round: u32) -> bool
    ensures { result ≡ law.covers start.0 round a }
{
    let rounds = (a.first_round <= round) & (round <= a.last_round);
    let starts = (a.first_start <= start.0) & (start.0 <= a.last_start);
    rounds & starts
}

// The points that records add for a start number in a round: those of the first that covers it, 0 if none does.
fn acceleration_for(records: &[Acceleration], start: StartNumber, round: u32) -> u32
    ensures { result ≡ points_or0 (first (law.covers start.0 round) records.now) }
{
    for a in records {
        if covers(*a, start, round) {
            return a.points;
        }
    }
    0
}

// Whether a reading has such a place, and such a round.
fn is_inside(answer: Answer, place: Place, round: u32) -> bool
    ensures { result ≡ ltb place.0 answer.players && (leb 1 round && leb round answer.rounds) }
{
    (place.0 < answer.players) & ((1 <= round) & (round <= answer.rounds))
}

// The answer of a refusal.
fn refused(fault: Fault) -> Score
    ensures { result ≡ score_answer (refusal (number_of fault) 0 0) 0 0 }
{
    Score {
        number: fault.number(),
        line: LineNumber(0),
        round: 0,
        points: 0,
        acceleration: 0,
    }
}

// The question: of a reading, a place in its tables and a round. C lends each table by itself, and of no length that is known, so that they come one by one.
pub fn ask_core(
    answer: Answer,
    starts: &[u32],
    points: &[u32],
    ranks: &[u32],
    kept: &[u8],
    opponents: &[u32],
    colours: &[u8],
    results: &[u8],
    text: &[u8],
    accelerations: &[Acceleration],
    place: Place,
    round: u32,
) -> Score
    ensures { Asks answer (tables_of starts.now points.now ranks.now kept.now opponents.now colours.now results.now text.now accelerations.now) place round result }
{
    if !tables::enough(
        starts.len(),
        points.len(),
        ranks.len(),
        kept.len(),
        opponents.len(),
        colours.len(),
        results.len(),
        text.len(),
        accelerations.len(),
    ) {
        return refused(Fault::TableShort);
    }
    let tables = Tables {
        starts,
        points,
        ranks,
        kept,
        opponents,
        colours,
        results,
        text,
    };
    let records = lent_records::carried(accelerations);
    if !lawful::is_reading(answer, &tables, &records) {
        return refused(Fault::NoReading);
    }
    if !is_inside(answer, place, round) {
        return refused(Fault::NoPlace);
    }
    let start = tables.start_at(place);
    let records = &records[..answer.accelerations as usize];
    Score {
        number: 0,
        line: LineNumber(0),
        round: 0,
        points: closings::sum_of(tables.results, answer.values, place, round - 1),
        acceleration: acceleration_for(records, start, round),
    }
}
