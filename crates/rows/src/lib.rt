// A 001 line, by value: its player's numbers, its kept columns and its rounds. A line against its rule is Fault::BadField.
#![tactic(auto)]

ghost use Rattle.std.specs.Prelude.{◌≡◌, true, cond, not, ◌&&◌, [], ◌∷◌, ℕ, ◌+◌, ◌≤◌, ◌<◌, length};
ghost use Rattle.kit.specs.Lists.{all, among};
ghost use Rattle.kit.specs.Decides.{to};
ghost use Rattle.law.specs.Sizes.{most_rounds};
ghost use Rattle.law.specs.Columns.{is_blank, cells, part};
ghost use Rattle.law.specs.Players.{unknown_result, slot_colours, slot_results, capital as capitalOf, kept_field};
ghost use Rattle.law.specs.Tournament.{blank_as, normal};
ghost use Rattle.law.proofs.RecordsRead.{slot_of, player_of};
ghost use Rattle.fields.specs.Said.{said, or_bad_field};
ghost use Rattle.results.specs.Order.{is_unknown};
ghost use Rattle.rows.specs.Rows.{rounds_end, Reaches, rounds_in, head_else_blank, round_else_blank, result_in, as_slot, stored, bye, the_slots, the_row};

use kept_columns::widened;
use results::{BLANK_BYE, UNKNOWN_RESULT};
use types::{Fault, KEPT_COLUMNS, MOST_RANK, MOST_ROUNDS, MOST_START, Rank, StartNumber};

// The columns up to the last round's result.
const COLUMNS: usize = 89 + 10 * MOST_ROUNDS;

// A round as it is stored: opponent, colour, result; zeros where no byte of its columns is other than blank.
#[derive(Clone, Copy)]
struct Slot {
    id: u32,
    colour: u8,
    result: u8,
}

// The rounds of a 001 line as they are stored, the r-th in cell r - 1.
#[derive(Drop)]
struct Slots {
    ids: [u32; MOST_ROUNDS],
    colours: [u8; MOST_ROUNDS],
    results: [u8; MOST_ROUNDS],
}

// A 001 line. What it says of the rounds is in three arrays, since C lends three tables, each stored by itself.
#[derive(Drop)]
pub struct Row {
    pub start: StartNumber,
    pub rank: Rank,
    pub points: u32,
    pub kept: [u8; KEPT_COLUMNS],
    pub ids: [u32; MOST_ROUNDS],
    pub colours: [u8; MOST_ROUNDS],
    pub results: [u8; MOST_ROUNDS],
}

fn capital(c: u8) -> u8
    ensures { result ≡ capitalOf c }
{
    c.to_ascii_uppercase()
}

fn is_slot_colour(c: u8) -> bool
    ensures { result ≡ among c slot_colours }
{
    matches!(c, b'w' | b'b' | b'-' | b' ')
}

// The result of a round as it is held beside an opponent: a letter as a capital, a blank as the unknown one. Most stand as capitals or signs, so that this is asked first.
fn result_of(code: u8) -> Result<u8, Fault>
    ensures { said result ≡ or_bad_field (result_in code) }
{
    if results::is_result(code) {
        return Ok(code);
    }
    if code == b' ' {
        return Ok(UNKNOWN_RESULT);
    }
    let result = capital(code);
    if results::is_result(result) {
        Ok(result)
    } else {
        Err(Fault::BadField)
    }
}

// Whether a round whose id is blank has a byte that is not.
fn is_used(colour: u8, code: u8) -> bool
    ensures { result ≡ not (all is_blank (colour ∷ code ∷ [])) }
{
    !((colour == b' ') & (code == b' '))
}

// A letter: other stands for a blank one.
fn blank_as(other: u8, letter: u8) -> u8
    ensures { result ≡ blank_as other letter }
{
    if letter == b' ' { other } else { letter }
}

// A result: other stands for an unknown one.
fn unknown_as(other: u8, res: u8) -> u8
    ensures { result ≡ cond (is_unknown res) other res }
{
    if results::is_unknown(res) { other } else { res }
}

// A round without an opponent, of which a byte is not blank. res: what would be held beside one.
fn bye_of(colour: u8, res: u8) -> Slot
    ensures { (letter : ℕ) → among letter slot_results ≡ true → res ≡ blank_as unknown_result letter → result ≡ as_slot (normal (bye colour letter)) }
{
    Slot {
        id: 0,
        colour: blank_as(b'-', colour),
        result: unknown_as(BLANK_BYE, res),
    }
}

fn slot_of(line: &[u8], round: usize) -> Result<Slot, Fault>
    requires { (1 ≤ round) × (round ≤ most_rounds) × (rounds_end round ≤ length line.now) }
    ensures { said result ≡ or_bad_field (to stored (slot_of line.now round)) }
{
    let at = 81 + 10 * round;
    let colour = line[at + 5];
    if !is_slot_colour(colour) {
        return Err(Fault::BadField);
    }
    let code = line[at + 7];
    let result = result_of(code)?;
    match fields::number_of(line[at], line[at + 1], line[at + 2], line[at + 3])? {
        Some(0) => Ok(bye_of(colour, result)),
        Some(id) => Ok(Slot { id, colour, result }),
        None if is_used(colour, code) => Ok(bye_of(colour, result)),
        None => Ok(Slot {
            id: 0,
            colour: 0,
            result: 0,
        }),
    }
}

fn blank_column(line: &[u8], i: usize) -> bool
    requires { i < length line.now }
    ensures { result ≡ all is_blank (cells line.now i 1) }
{
    line[i] == b' '
}

// Two blanks as one number.
const TWO_BLANKS: u16 = 0x2020;

fn are_blank(a: u8, b: u8) -> bool
    ensures { result ≡ is_blank a && is_blank b }
{
    u16::from_le_bytes([a, b]) == TWO_BLANKS
}

// The same of two columns.
fn blank_pair(line: &[u8], i: usize) -> bool
    requires { i + 1 < length line.now }
    ensures { result ≡ all is_blank (cells line.now i 2) }
{
    are_blank(line[i], line[i + 1])
}

// Whether a round's columns between its fields, and those before it, are blank.
fn round_else_blank(line: &[u8], at: usize) -> bool
    requires { at + 8 < length line.now }
    ensures { result ≡ round_else_blank line.now at }
{
    blank_pair(line, at) && blank_column(line, at + 6) && blank_column(line, at + 8)
}

// The rounds, and the columns between them and after the last.
fn slots_of(line: &[u8], reach: usize) -> Result<Slots, Fault>
    requires { Reaches line.now reach }
    ensures { said result ≡ or_bad_field (to the_slots (rounds_in line.now)) }
{
    let mut ids = [0; MOST_ROUNDS];
    let mut colours = [0; MOST_ROUNDS];
    let mut results = [0; MOST_ROUNDS];
    for i in 0..reach {
        if !round_else_blank(line, 89 + 10 * i) {
            return Err(Fault::BadField);
        }
        let slot = slot_of(line, i + 1)?;
        ids[i] = slot.id;
        colours[i] = slot.colour;
        results[i] = slot.result;
    }
    if !fields::blank_from(line, COLUMNS) {
        return Err(Fault::BadField);
    }
    Ok(Slots {
        ids,
        colours,
        results,
    })
}

// Whether the columns between the fields before the rounds are blank.
fn player_else_blank(line: &[u8]) -> bool
    requires { rounds_end 0 ≤ length line.now }
    ensures { result ≡ head_else_blank line.now }
{
    blank_column(line, 3)
        && blank_column(line, 8)
        && blank_column(line, 79)
        && blank_column(line, 84)
}

// A line that has the columns of all rounds that it reaches: these are taken without a test. kept: its kept columns.
fn wide_player(line: &[u8], reach: usize, kept: [u8; KEPT_COLUMNS]) -> Result<Row, Fault>
    requires { Reaches line.now reach × (kept ≡ part kept_field line.now) }
    ensures { said result ≡ or_bad_field (to the_row (player_of line.now)) }
{
    if !player_else_blank(line) || !kept_columns::is_kept(kept) {
        return Err(Fault::BadField);
    }
    let start = fields::counted_at(line, 4, MOST_START)?;
    let points = fields::points_at(line, 80)?;
    let rank = fields::counted_at(line, 85, MOST_RANK)?;
    let Slots {
        ids,
        colours,
        results,
    } = slots_of(line, reach)?;
    Ok(Row {
        start: StartNumber(start),
        rank: Rank(rank),
        points,
        kept,
        ids,
        colours,
        results,
    })
}

// How many rounds a line of n columns reaches: those of which it has a column.
fn reach_of(n: usize) -> usize
    ensures { (result ≤ most_rounds) × (result < most_rounds → n ≤ rounds_end result) × (1 ≤ result → rounds_end result < n + 10) }
{
    if COLUMNS <= n {
        MOST_ROUNDS
    } else if n < 90 {
        0
    } else {
        (n - 80) / 10
    }
}

// A line that ends within a round that it reaches is read with blanks after it.
pub fn player_of(line: &[u8]) -> Result<Row, Fault>
    ensures { said result ≡ or_bad_field (to the_row (player_of line.now)) }
{
    let reach = reach_of(line.len());
    let kept = kept_columns::kept_of(line);
    if line.len() < 89 + 10 * reach {
        let wide: [u8; COLUMNS] = widened(line);
        return wide_player(&wide, reach, kept);
    }
    wide_player(line, reach, kept)
}
