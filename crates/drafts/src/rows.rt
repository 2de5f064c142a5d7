// Rows and what stands in them.
ghost use Rattle.std.specs.Prelude.{◌≤◌, length};
ghost use Rattle.io.specs.Counts.{IsPrefixLen};

use crate::Draft;
use std::io::Read;

// The bytes of rows that are read.
pub const MOST_ROWS: usize = 65536;

// What one read gives; a read that fails gives nothing.
fn read_some(input: &mut impl Read, room: &mut [u8]) -> usize
    ensures { IsPrefixLen result room.new }
{
    input.read(room).unwrap_or(0)
}

// Reads until there is no room, the input ends or a read fails. Answers how many bytes were read.
pub fn read_rows(input: &mut impl Read, rows: &mut [u8]) -> usize
    ensures { IsPrefixLen result rows.new }
{
    let mut n = 0;
    // A `for` is no plainer: a read gives any number of bytes.
    while n < rows.len() {
        let more = read_some(input, &mut rows[n..]);
        if more == 0 {
            break;
        }
        n += more;
    }
    n
}

// A line without the byte that ends it, which the last may lack.
pub(crate) fn without_end(line: &[u8], last: u8) -> &[u8] {
    line.strip_suffix(&[last]).unwrap_or(line)
}

// Reads rows, and does so with each and with the draft that the rows before it made.
pub fn take_rows<F: FnMut(&mut Draft, &[u8])>(input: &mut impl Read, mut take: F)
    requires { F.IsAlwaysCallable take }
{
    let mut rows = [0; MOST_ROWS];
    let n = read_rows(input, &mut rows);
    let mut draft = Draft::new();
    for row in rows[..n].split_inclusive(|byte| *byte == b'\n') {
        take(&mut draft, without_end(row, b'\n'));
    }
}

// The row without the blanks that it begins with.
pub fn without_blanks(row: &[u8]) -> &[u8]
    ensures { length result.now ≤ length row.now }
{
    let blanks = row
        .iter()
        .position(|byte| *byte != b' ')
        .unwrap_or(row.len());
    &row[blanks..]
}

// The number with a digit more; of a long one the last six digits.
fn with_digit(value: u32, digit: u8) -> u32 {
    value % 100000 * 10 + u32::from(digit % 16)
}

// The number that comes next in a row, after blanks, and the rest of the row.
pub fn number(row: &[u8]) -> (u32, &[u8]) {
    let row = without_blanks(row);
    let digits = row
        .iter()
        .position(|byte| !byte.is_ascii_digit())
        .unwrap_or(row.len());
    let value = row[..digits]
        .iter()
        .fold(0, |value, digit| with_digit(value, *digit));
    (value, &row[digits..])
}

pub fn low_byte(value: u32) -> u8 {
    (value % 256) as u8
}
