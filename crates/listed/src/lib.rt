// A file's listing: the file is read into tables of the listed sizes, and what was read is listed; from a reader, and to the two outputs.
#![tactic(auto)]

mod room;

ghost use Rattle.std.specs.Prelude.{◌≤◌, IfOk, length};
ghost use Rattle.io.specs.Counts.{IsPrefixLen};
ghost use Rattle.listing.specs.Outcomes.{Lists};
ghost use Rattle.listed.specs.Printed.{Numbered, Says};

use listing::{ANSWER_LINE, LISTING, ListedTables};
pub use room::Room;
use std::io;
use std::io::{Cursor, Read, Write};
use types::Answer;

// One byte more than the largest file, so that a larger one is seen to be larger: no more is read of it.
pub const MOST_READ: usize = types::MOST_FILE + 1;

// What the reading of a file answered, and how many bytes were made of it.
#[derive(Clone, Copy)]
pub struct Made {
    pub answer: Answer,
    pub length: usize,
}

// The bytes of a file's listing, from the first byte of `out` on.
pub fn list_file(file: &[u8], out: &mut [u8; LISTING]) -> Made
    ensures prefix_len { IsPrefixLen result.length out.new }
    ensures lists { Lists file.now out.old result.length out.new }
    ensures numbered { Numbered file.now result.answer.number }
{
    let mut room = Room::new();
    let answer = room.read(file).answer;
    let tables = ListedTables::of(&room.tables());
    let length = listing::put_listing(out, answer, &tables);
    Made { answer, length }
}

// What came of a file of which all that is printed was written.
#[derive(Clone, Copy)]
pub enum Printed {
    Accepted,
    Refused,
}

// Why a file's bytes are not printed: it could not be read, or some of what is printed is lost.
#[derive(Clone, Copy)]
pub enum Failure {
    Unread(io::Error),
    Lost(io::Error),
}

// The listing of a file, to an output. The line of a refused one goes to the output for errors too.
pub fn print_listing(out: &impl Print, err: &impl Print, file: &[u8]) -> io::Result<Printed>
    ensures { IfOk result (λ p. Says p file.now) }
{
    let mut bytes = [0u8; LISTING];
    let made = list_file(file, &mut bytes);
    let listing = &bytes[..made.length];
    out.write_all(listing)?;
    if made.answer.number == 0 {
        return Ok(Printed::Accepted);
    }
    err.write_all(listing)?;
    Ok(Printed::Refused)
}

// The line of a refusal, to an output; or why it was not written whole.
pub fn print_refused(err: &impl Print, answer: Answer) -> io::Result<()> {
    let mut bytes = [0u8; ANSWER_LINE];
    let n = listing::put_refused(&mut bytes, answer);
    err.write_all(&bytes[..n])
}

// Reads to the end of a file, or until there is no room, and answers how many bytes that are. A read that fails is not the end. A `while`,
// since a read gives any number of bytes.
pub fn read_input(input: &mut impl Read, file: &mut [u8]) -> io::Result<usize>
    ensures { IfOk result (λ n. n ≤ length file.old) }
{
    let mut n = 0;
    while n < file.len() {
        match input.read(&mut file[n..])? {
            0 => break,
            more => n += more,
        }
    }
    Ok(n)
}

// What a reader gives, printed by `print`. Where it cannot be read, nothing is written.
pub fn print_read<F: FnOnce(&[u8]) -> io::Result<Printed>>(
    input: &mut impl Read,
    print: F,
) -> Result<Printed, Failure>
    requires { F.IsAlwaysCallable print }
{
    let mut file = [0u8; MOST_READ];
    let n = read_input(input, &mut file).map_err(Failure::Unread)?;
    print(&file[..n]).map_err(Failure::Lost)
}

// The listing of what a reader gives, as `print_listing` prints it.
pub fn print_input(
    input: &mut impl Read,
    out: &impl Print,
    err: &impl Print,
) -> Result<Printed, Failure> {
    print_read(input, |file| print_listing(out, err, file))
}

// The one line of a program that prints what its standard input makes: `accepted`, or what could not be read or written. A refusal has its line already.
pub fn tell(err: &impl Print, done: Result<Printed, Failure>) {
    match done {
        Ok(Printed::Accepted) => {
            let _ = err.write_all(b"accepted\n");
        }
        Ok(Printed::Refused) => {}
        Err(Failure::Unread(e)) => print_failure(err, b"standard input", e),
        Err(Failure::Lost(e)) => print_failure(err, b"standard output", e),
    }
}

// More bytes than the text of any error has.
const MOST_WORDS: usize = 512;

// What stands in the text of a system's error before its number.
const NUMBERED: &[u8] = b" (os error ";

// Where an error's words end in its text: before the number, or with all.
fn words_end(text: &[u8]) -> usize
    ensures { result ≤ length text.now }
{
    text.windows(NUMBERED.len())
        .position(|part| part == NUMBERED)
        .unwrap_or(text.len())
}

// A line: what could not be read or written, a colon, and the words for why.
pub fn print_failure(err: &impl Print, what: &[u8], error: io::Error) {
    let mut text = Cursor::new([0u8; MOST_WORDS]);
    let _ = write!(text, "{error}");
    let n = (text.position() as usize).min(MOST_WORDS);
    let bytes = text.into_inner();
    let end = words_end(&bytes[..n]);
    let _ = err.write_all(what);
    let _ = err.write_all(b": ");
    let _ = err.write_all(&bytes[..end]);
    let _ = err.write_all(b"\n");
}
