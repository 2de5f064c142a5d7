// The face of the box: the public calls, for Rust to link; `face_c` has them for C. They are lent every table, the acceleration records as a list of structs, and ask
// nothing of what they are lent. Each takes the records by value to the core of its work, or fills in what the core found. Promised: the statement's relations, for every input.
#![tactic(auto)]

ghost use Rattle.law.specs.Calls.{Reads, end_of, Writes, Asks};
ghost use Rattle.face.specs.Lent.{before, after, given};

use types::{Acceleration, Answer, Place, Score, Written};

// Reads a file into the tables.
pub fn trf_read(
    file: &[u8],
    starts: &mut [u32],
    points: &mut [u32],
    ranks: &mut [u32],
    kept: &mut [u8],
    opponents: &mut [u32],
    colours: &mut [u8],
    results: &mut [u8],
    text: &mut [u8],
    accelerations: &mut [Acceleration],
    lines: &mut [u32],
) -> Answer
    ensures { Reads file.now (before starts points ranks kept opponents colours results text accelerations lines) result (after starts points ranks kept opponents colours results text accelerations lines) }
{
    let found = reader::read_core(
        file,
        starts,
        points,
        ranks,
        kept,
        opponents,
        colours,
        results,
        text,
        lines,
        accelerations.len(),
    );
    lent_records::fill(accelerations, found.records, found.fill);
    found.answer
}

// Writes the tournament of a reading into the output, each line ended with CR LF, or with CR alone where the caller asks for that.
pub fn trf_write(
    answer: Answer,
    starts: &[u32],
    points: &[u32],
    ranks: &[u32],
    kept: &[u8],
    opponents: &[u32],
    colours: &[u8],
    results: &[u8],
    text: &[u8],
    accelerations: &[Acceleration],
    cr_alone: bool,
    out: &mut [u8],
) -> Written
    ensures { Writes (end_of cr_alone) answer (given starts points ranks kept opponents colours results text accelerations) out.old result out.new }
{
    writer::write_core(
        answer,
        starts,
        points,
        ranks,
        kept,
        opponents,
        colours,
        results,
        text,
        accelerations,
        cr_alone,
        out,
    )
}

// Asks a reading for the sum that the player at a place has earned before a round, and the acceleration for that round.
pub fn trf_ask(
    answer: Answer,
    starts: &[u32],
    points: &[u32],
    ranks: &[u32],
    kept: &[u8],
    opponents: &[u32],
    colours: &[u8],
    results: &[u8],
    text: &[u8],
    accelerations: &[Acceleration],
    place: Place,
    round: u32,
) -> Score
    ensures { Asks answer (given starts points ranks kept opponents colours results text accelerations) place round result }
{
    question::ask_core(
        answer,
        starts,
        points,
        ranks,
        kept,
        opponents,
        colours,
        results,
        text,
        accelerations,
        place,
        round,
    )
}
