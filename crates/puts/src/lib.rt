// What the lines of the report file are made of: blanks, a code, a letter, numbers, points, bytes of a table and a terminator, each put into the lent output
// from a position on, which is answered moved past it. Promised: the bytes are the statement's, and every byte outside them, and the output's length, are as
// before. `fields` and `lines` read what is put here. Output and position stay two arguments: a struct that holds the `&mut` needs a clause in each function that it
// keeps the same reference.
#![tactic(auto)]

ghost use Rattle.std.specs.Prelude.{◌≡◌, cond, [], ◌∷◌, ◌+◌, ◌≤◌, ◌<◌, eqb, length};
ghost use Rattle.law.specs.Columns.{blank, width, code_field};
ghost use Rattle.law.specs.Players.{points_field};
ghost use Rattle.law.specs.Writing.{blanks, digit as digitOf, filled, points_text};
ghost use Rattle.puts.specs.Puts.{Puts, run};
ghost use Rattle.puts.specs.Numbers.{rest, leading};
ghost use Rattle.puts.specs.Ends.{end_text, end_wide, kept_text, relined};

use types::CR;

// What ends a line.
#[derive(Clone, Copy)]
pub enum Terminator {
    CrLf,
    Cr,
}

// How many columns a start number has, in a 250 line and in a 001 line.
pub const START_COLUMNS: usize = 4;

// The blanks between most fields.
pub const BETWEEN: usize = 1;

// The last digit of a number; and the same, or else what fills where nothing is left of it.
pub fn digit(n: u32) -> u8
    ensures { result ≡ digitOf n }
{
    b'0' + (n % 10) as u8
}

fn digit_or(n: u32, fill: u8) -> u8
    ensures { result ≡ cond (eqb n 0) fill (digitOf n) }
{
    if n == 0 { fill } else { digit(n) }
}

// Some bytes as they are.
pub fn put(out: &mut [u8], at: usize, bytes: &[u8]) -> usize
    requires { at + length bytes.now ≤ length out.old }
    ensures { Puts bytes.now (length bytes.now) at out.old out.new result }
{
    cells::put(out, at, bytes);
    at + bytes.len()
}

// A run of blanks; `fields::blank_at` looks for one.
pub fn put_blanks(out: &mut [u8], at: usize, n: usize) -> usize
    requires { at + n ≤ length out.old }
    ensures { Puts (blanks n) n at out.old out.new result }
{
    out[at..at + n].fill(b' ');
    at + n
}

// A record's code; `fields::has_code` looks for one.
pub fn put_code(out: &mut [u8], at: usize, code: &[u8; 3]) -> usize
    requires { at + width code_field ≤ length out.old }
    ensures { Puts code.now (width code_field) at out.old out.new result }
{
    put(out, at, code)
}

// A blank and a byte after it; `fields::column` reads one.
pub fn put_letter(out: &mut [u8], at: usize, c: u8) -> usize
    requires { at + 2 ≤ length out.old }
    ensures { Puts (blank ∷ c ∷ []) 2 at out.old out.new result }
{
    put(out, at, &[b' ', c])
}

// What stands before the last digit of a number, where n is the number without that digit: its digits, and one byte in the columns that they leave.
fn put_upper(out: &mut [u8], at: usize, width: usize, n: u32, fill: u8) -> usize
    requires { at + width ≤ length out.old }
    ensures { Puts (rest (run fill) width n) width at out.old out.new result }
{
    let mut left = n;
    for i in (0..width).rev() {
        out[at + i] = digit_or(left, fill);
        left /= 10;
    }
    at + width
}

// A number in some columns, those that are left filled with one byte; `fields::number_at` reads it.
pub fn put_number(out: &mut [u8], at: usize, width: usize, n: u32, fill: u8) -> usize
    requires { (1 ≤ width) × (at + width ≤ length out.old) }
    ensures { Puts (filled (run fill) width n) width at out.old out.new result }
{
    let last = put_upper(out, at, width - 1, n / 10, fill);
    put(out, last, &[digit(n)])
}

// A number of one or two digits with no filling; `fields::leading_at` reads it.
pub fn put_leading(out: &mut [u8], at: usize, n: u32) -> usize
    requires { (n < 100) × (at + length (leading n) ≤ length out.old) }
    ensures { Puts (leading n) (length (leading n)) at out.old out.new result }
{
    let width = if n < 10 { 1 } else { 2 };
    put_number(out, at, width, n, b'0')
}

// Points, with a byte for a zero tens digit; `fields::points_at` reads them.
pub fn put_points(out: &mut [u8], at: usize, points: u32, fill: u8) -> usize
    requires { at + width points_field ≤ length out.old }
    ensures { Puts (points_text fill points) (width points_field) at out.old out.new result }
{
    let text = [
        digit_or(points / 100, fill),
        digit(points / 10),
        b'.',
        digit(points),
    ];
    put(out, at, &text)
}

// A terminator, each of bytes that the compiler can count; `lines::Cursor::next_line` reads it.
pub fn put_end(out: &mut [u8], at: usize, end: Terminator) -> usize
    requires { at + end_wide end ≤ length out.old }
    ensures { Puts (end_text end) (end_wide end) at out.old out.new result }
{
    match end {
        Terminator::CrLf => put(out, at, b"\r\n"),
        Terminator::Cr => put(out, at, b"\r"),
    }
}

// A byte of the kept text, whose table has a CR after each line: a terminator where it is CR.
fn put_kept(out: &mut [u8], at: usize, c: u8, end: Terminator) -> usize
    requires { at + length (kept_text end c) ≤ length out.old }
    ensures { Puts (kept_text end c) (length (kept_text end c)) at out.old out.new result }
{
    if c == CR {
        return put_end(out, at, end);
    }
    put(out, at, &[c])
}

// The kept text, each line with a terminator.
pub fn put_text(out: &mut [u8], at: usize, text: &[u8], end: Terminator) -> usize
    requires { at + length (relined end text.now) ≤ length out.old }
    ensures { Puts (relined end text.now) (length (relined end text.now)) at out.old out.new result }
{
    let mut next = at;
    for c in text {
        next = put_kept(out, next, *c, end);
    }
    next
}
