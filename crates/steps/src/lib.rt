// What one line of the file does: its record is read, and stored in the lent tables and the counts beside them, or the line is refused, as a bad field, a record that stands again, or one too many. Promised:
// each step is join's, on every content of the tables; a line that is refused changes nothing.
#![tactic(auto)]

mod counts;

ghost use Rattle.std.specs.Prelude.{◌≡◌, ℕ, ◌+◌, ◌≤◌, ◌<◌, length};
ghost use Rattle.law.specs.Sizes.{most_line, most_accelerations, most_text};
ghost use Rattle.law.specs.Columns.{part, code_field};
ghost use Rattle.law.specs.Text.{text_codes};
ghost use Rattle.law.specs.Items as items;
ghost use Rattle.law.specs.Tables.{line_cells};
ghost use Rattle.law.proofs.RecordsRead.{text_of, rounds_of_row, colour_of, given_of, acceleration_of};
ghost use Rattle.join.specs.Store.{Nine, no_count, state, code_place, step_text, step_rounds, step_colour, step_scoring, step_acceleration};
ghost use Rattle.steps.specs.Counts.{as_count, Small, went, place_of_code, place_in0, place_in1, place_in2, with_text, with_lines};

pub use counts::{Counts, REPEATED, TEXT_CODES};
use scorings::Scoring;
use types::{Fault, LineNumber, MOST_ACCELERATIONS, MOST_TEXT, NO_ACCELERATION};

impl Counts {
    // Before the first line.
    pub fn new() -> Counts
        ensures { as_count result ≡ no_count }
    {
        Counts {
            players: 0,
            accelerations: 0,
            text: 0,
            records: [NO_ACCELERATION; MOST_ACCELERATIONS],
            seen: [false; TEXT_CODES],
            rounds: None,
            colour: 0,
            scoring: None,
        }
    }
}

// The place of a text code among the sixteen, by its second byte: of those that begin with 0, with 1, with 2.
fn place_in_0(b: u8) -> usize
    ensures { result ≡ place_in0 b }
{
    match b {
        b'1' => 0,
        b'2' => 1,
        b'3' => 2,
        b'4' => 3,
        b'5' => 4,
        b'6' => 5,
        b'7' => 6,
        b'9' => 7,
        _ => TEXT_CODES,
    }
}

fn place_in_1(b: u8) -> usize
    ensures { result ≡ place_in1 b }
{
    match b {
        b'0' => 8,
        b'1' => REPEATED,
        b'2' => 10,
        b'3' => 11,
        b'9' => 12,
        _ => TEXT_CODES,
    }
}

fn place_in_2(b: u8) -> usize
    ensures { result ≡ place_in2 b }
{
    match b {
        b'0' => 13,
        b'1' => 14,
        b'2' => 15,
        _ => TEXT_CODES,
    }
}

// The same of all sixteen: each ends with 2, so that two bytes tell it.
fn place_of_code(a: u8, b: u8) -> usize
    ensures { result ≡ place_of_code a b }
{
    match a {
        b'0' => place_in_0(b),
        b'1' => place_in_1(b),
        b'2' => place_in_2(b),
        _ => TEXT_CODES,
    }
}

// The place of the code of a kept text line.
pub fn text_place(line: &[u8]) -> usize
    requires { items.kind_of line.now ≡ items.kept-text }
    ensures { (result ≡ code_place (part code_field line.now) 0 text_codes) × (result < 16) }
{
    let a = fields::column(line, 0);
    let b = fields::column(line, 1);
    place_of_code(a, b)
}

// A line of kept text.
pub fn step_text(line: &[u8], counts: &mut Counts, text: &mut [u8]) -> Result<(), Fault>
    requires kept { items.kind_of line.now ≡ items.kept-text }
    requires short { length line.now ≤ most_line }
    requires fits { counts.old.text ≤ most_text }
    requires long { most_text ≤ length text.old }
    ensures step { (ln : ℕ) (t : Nine) → went ln result counts.new (with_text t text.new) ≡ step_text (text_of line.now) (code_place (part code_field line.now) 0 text_codes) (state ln (as_count counts.old) (with_text t text.old)) }
    ensures small { Small counts.old → Small counts.new }
    ensures players { counts.new.players ≡ counts.old.players }
{
    let n = records::text_of(line)?;
    let place = text_place(line);
    if (place != REPEATED) & counts.seen[place] {
        return Err(Fault::Again);
    }
    let end = counts.text + (n + 1);
    if MOST_TEXT < end {
        return Err(Fault::TooMany);
    }
    tables::store_text(text, counts.text, &line[..n]);
    counts.seen[place] = true;
    counts.text = end;
    Ok(())
}

// A 142 line.
pub fn step_rounds(line: &[u8], counts: &mut Counts) -> Result<(), Fault>
    ensures step { (ln : ℕ) (t : Nine) → went ln result counts.new t ≡ step_rounds (rounds_of_row line.now) (state ln (as_count counts.old) t) }
    ensures small { Small counts.old → Small counts.new }
    ensures players { counts.new.players ≡ counts.old.players }
{
    let rounds = records::rounds_of(line)?;
    if counts.rounds.is_some() {
        return Err(Fault::Again);
    }
    counts.rounds = Some(rounds);
    Ok(())
}

// A 152 line.
pub fn step_colour(line: &[u8], counts: &mut Counts) -> Result<(), Fault>
    ensures step { (ln : ℕ) (t : Nine) → went ln result counts.new t ≡ step_colour (colour_of line.now) (state ln (as_count counts.old) t) }
    ensures small { Small counts.old → Small counts.new }
    ensures players { counts.new.players ≡ counts.old.players }
{
    let colour = records::colour_of(line)?;
    if counts.colour != 0 {
        return Err(Fault::Again);
    }
    counts.colour = colour;
    Ok(())
}

// A 162 line. Of `step_rounds` it has another reader and another field; one function for both would be given each as a closure.
pub fn step_scoring(line: &[u8], counts: &mut Counts) -> Result<(), Fault>
    ensures step { (ln : ℕ) (t : Nine) → went ln result counts.new t ≡ step_scoring (given_of line.now) (state ln (as_count counts.old) t) }
    ensures small { Small counts.old → Small counts.new }
    ensures players { counts.new.players ≡ counts.old.players }
{
    let scoring = Scoring::from_line(line)?;
    if counts.scoring.is_some() {
        return Err(Fault::Again);
    }
    counts.scoring = Some(scoring);
    Ok(())
}

// A 250 line.
pub fn step_acceleration(
    line: &[u8],
    number: LineNumber,
    counts: &mut Counts,
    lines: &mut [u32],
) -> Result<(), Fault>
    requires few { counts.old.accelerations ≤ most_accelerations }
    requires long { line_cells ≤ length lines.old }
    ensures step { (ln : ℕ) (t : Nine) → number.0 ≡ ln + 1 → went ln result counts.new (with_lines t lines.new) ≡ step_acceleration (acceleration_of line.now) (state ln (as_count counts.old) (with_lines t lines.old)) }
    ensures small { Small counts.old → Small counts.new }
    ensures players { counts.new.players ≡ counts.old.players }
{
    let record = records::acceleration_of(line)?;
    let n = counts.accelerations;
    if n == MOST_ACCELERATIONS {
        return Err(Fault::TooMany);
    }
    tables::store_record_line(lines, n, number);
    counts.records[n] = record;
    counts.accelerations = n + 1;
    Ok(())
}

#[cfg(test)]
mod tests {
    use super::*;
    use types::LINES;

    // The first line of each kind is stored, and the second refused but for the 250, of which more may stand; here these are of line 0. No line changes the players.
    #[test]
    fn players_stay(rt: HostRuntime) {
        let mut counts = Counts::new();
        counts.players = 3;
        let mut text = [0; MOST_TEXT];
        let mut lines = [0; LINES];
        for first in [true, false] {
            assert!(rt; counts.text <= MOST_TEXT);
            assert!(rt; counts.accelerations <= MOST_ACCELERATIONS);
            let name = step_text(b"012 Open", &mut counts, &mut text);
            let rounds = step_rounds(b"142 9", &mut counts);
            let colour = step_colour(b"152 W", &mut counts);
            let scoring = step_scoring(b"162  W 3.0    D 1.0", &mut counts);
            let record = b"250      01.0 001 002 0001 0009";
            let acceleration = step_acceleration(record, LineNumber(0), &mut counts, &mut lines);
            assert_eq!(rt; name.is_ok(), first);
            assert_eq!(rt; rounds.is_ok(), first);
            assert_eq!(rt; colour.is_ok(), first);
            assert_eq!(rt; scoring.is_ok(), first);
            assert!(rt; acceleration.is_ok());
            assert_eq!(rt; counts.players, 3);
        }
    }
}
