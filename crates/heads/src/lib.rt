// The lines before the players': 142, 152, 162 and 250, each put into the lent output from a position on, which is answered moved past it. Promised: the bytes
// are the statement's line, and every byte outside them, and the output's length, are as before. `records` and `scorings` read what is put here.
#![tactic(auto)]

ghost use Rattle.std.specs.Prelude.{map, ◌+◌, ◌*◌, ◌≤◌, length};
ghost use Rattle.kit.specs.Lists.{flat};
ghost use Rattle.law.specs.Sizes.{most_rounds};
ghost use Rattle.law.specs.Writing.{rounds_line, colour_line, scoring_line, acceleration_line};
ghost use Rattle.puts.specs.Puts.{Puts};
ghost use Rattle.puts.specs.Ends.{end_wide, ended_by};
ghost use Rattle.heads.specs.Lines.{span_text, span_wide, round_wide, start_wide, acceleration_wide, value_text, slot_wide, scoring_in, scoring_wide};

use puts::{BETWEEN, START_COLUMNS, Terminator};
use types::{ABSENT, Acceleration, DRAW, LOSS, PAIRING, StartNumber, UNKNOWN, VALUES, WIN};

// How many columns the rounds of a 250 line have.
const ROUND_COLUMNS: usize = 3;

// The blanks before a field, from the column after what stands before it to the field's first: 250's points after the code; 162's first slot after the code,
// and its other slots.
const BEFORE_ADDED: usize = 10 - 4;

const BEFORE_SLOTS: usize = 6 - 4;

const BETWEEN_SLOTS: usize = 15 - 11;

// 142; `records::rounds_of` reads it.
pub fn put_rounds(out: &mut [u8], at: usize, rounds: u32) -> usize
    requires { (rounds ≤ most_rounds) × (at + length (rounds_line rounds) ≤ length out.old) }
    ensures { Puts (rounds_line rounds) (length (rounds_line rounds)) at out.old out.new result }
{
    let at = puts::put_code(out, at, b"142");
    let at = puts::put_blanks(out, at, BETWEEN);
    puts::put_leading(out, at, rounds)
}

// 152; `records::colour_of` reads it.
pub fn put_colour(out: &mut [u8], at: usize, colour: u8) -> usize
    requires { at + length (colour_line colour) ≤ length out.old }
    ensures { Puts (colour_line colour) (length (colour_line colour)) at out.old out.new result }
{
    let at = puts::put_code(out, at, b"152");
    puts::put_letter(out, at, colour)
}

// Two number fields of one width with a column between them, filled with zeros; `records::span_at` reads them.
fn put_span(out: &mut [u8], at: usize, width: usize, first: u32, last: u32) -> usize
    requires { (1 ≤ width) × (at + span_wide width ≤ length out.old) }
    ensures { Puts (span_text width first last) (span_wide width) at out.old out.new result }
{
    let at = puts::put_number(out, at, width, first, b'0');
    let at = puts::put_blanks(out, at, BETWEEN);
    puts::put_number(out, at, width, last, b'0')
}

// First and last round; `records::round_span_at` reads them.
fn put_round_span(out: &mut [u8], at: usize, first: u32, last: u32) -> usize
    requires { at + span_wide round_wide ≤ length out.old }
    ensures { Puts (span_text round_wide first last) (span_wide round_wide) at out.old out.new result }
{
    put_span(out, at, ROUND_COLUMNS, first, last)
}

// First and last start number; `records::start_span_at` reads them.
fn put_start_span(out: &mut [u8], at: usize, first: StartNumber, last: StartNumber) -> usize
    requires { at + span_wide start_wide ≤ length out.old }
    ensures { Puts (span_text start_wide first.0 last.0) (span_wide start_wide) at out.old out.new result }
{
    put_span(out, at, START_COLUMNS, first.0, last.0)
}

// 250; `records::acceleration_of` reads it.
fn put_acceleration(out: &mut [u8], at: usize, a: Acceleration) -> usize
    requires { at + acceleration_wide ≤ length out.old }
    ensures { Puts (acceleration_line a) acceleration_wide at out.old out.new result }
{
    let at = puts::put_code(out, at, b"250");
    let at = puts::put_blanks(out, at, BEFORE_ADDED);
    let at = puts::put_points(out, at, a.points, b'0');
    let at = puts::put_blanks(out, at, BETWEEN);
    let at = put_round_span(out, at, a.first_round, a.last_round);
    let at = puts::put_blanks(out, at, BETWEEN);
    let first = StartNumber(a.first_start);
    put_start_span(out, at, first, StartNumber(a.last_start))
}

// The acceleration records, each with its terminator.
pub fn put_accelerations(
    out: &mut [u8],
    at: usize,
    records: &[Acceleration],
    end: Terminator,
) -> usize
    requires { at + length records.now * (acceleration_wide + end_wide end) ≤ length out.old }
    ensures { Puts (flat (ended_by end) (map acceleration_line records.now)) (length records.now * (acceleration_wide + end_wide end)) at out.old out.new result }
{
    let mut next = at;
    for a in records {
        let ended = put_acceleration(out, next, *a);
        next = puts::put_end(out, ended, end);
    }
    next
}

// A slot of a 162 line after some blanks; `scorings::value_at` reads it.
fn put_value(out: &mut [u8], at: usize, gap: usize, letter: u8, points: u32) -> usize
    requires { at + (gap + slot_wide) ≤ length out.old }
    ensures { Puts (value_text gap letter points) (gap + slot_wide) at out.old out.new result }
{
    let at = puts::put_blanks(out, at, gap);
    let at = puts::put(out, at, &[letter]);
    puts::put_points(out, at, points, b' ')
}

// 162 with the values of W D L A P X; `scorings::Scoring::from_line` reads it.
pub fn put_scoring(out: &mut [u8], at: usize, values: [u32; VALUES]) -> usize
    requires { at + scoring_wide ≤ length out.old }
    ensures { Puts (scoring_line (scoring_in values)) scoring_wide at out.old out.new result }
{
    let at = puts::put_code(out, at, b"162");
    let at = put_value(out, at, BEFORE_SLOTS, b'W', values[WIN]);
    let at = put_value(out, at, BETWEEN_SLOTS, b'D', values[DRAW]);
    let at = put_value(out, at, BETWEEN_SLOTS, b'L', values[LOSS]);
    let at = put_value(out, at, BETWEEN_SLOTS, b'A', values[ABSENT]);
    let at = put_value(out, at, BETWEEN_SLOTS, b'P', values[PAIRING]);
    put_value(out, at, BETWEEN_SLOTS, b'X', values[UNKNOWN])
}
