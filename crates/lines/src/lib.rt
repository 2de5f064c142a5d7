// The lines of a file, one after the other, and the bytes that a line may hold. A cursor is a place in the file; a step from it finds the first line of
// what is left and the cursor after it. Promised: the lines found are those that the statement cuts the file into, with their terminators; a line is
// found exactly where it is ended and each of its bytes is allowed.
#![tactic(auto)]

ghost use Rattle.std.specs.Prelude.{◌≡◌, true, not, ◌-◌, ◌≤◌, ◌<◌, length, take, drop};
ghost use Rattle.kit.specs.Lists.{all};
ghost use Rattle.law.specs.Sizes.{most_file};
ghost use Rattle.law.specs.Lines.{allowed};
ghost use Rattle.lines.specs.Step.{CRFrom, Clean, Stop, WholeAt, StepMeans};

use types::{CR, Fault, LF};

// How many bytes are tested one by one at first, how many at once then, and how many at once where those are too many.
const NEAR: usize = 4;

const BLOCK: usize = 32;

const SMALL_BLOCK: usize = 8;

// How many bytes mark a comment.
const MARK: usize = 3;

// The place where the next line starts.
#[derive(Drop)]
pub struct Cursor {
    pub at: usize,
}

// A line with its terminator, of allowed bytes: its text is file[from..to], and next is the cursor past its terminator.
#[derive(Drop)]
pub struct Line {
    pub from: usize,
    pub to: usize,
    pub next: Cursor,
}

// The place of the first CR from a place on, or the file's length.
pub fn cr_from(file: &[u8], at: usize) -> usize
    requires { at ≤ length file.now }
    ensures { CRFrom file.now at result }
{
    for i in at..file.len() {
        if file[i] == CR {
            return i;
        }
    }
    file.len()
}

fn is_allowed(c: u8) -> bool
    ensures { result ≡ allowed c }
{
    (32 <= c) & (c != 127)
}

// Whether each byte of a line is allowed. The loop has no exit of its own, so that it can be compiled to take many bytes at a time.
pub fn all_allowed(line: &[u8]) -> bool
    ensures { result ≡ all allowed line.now }
{
    let mut good = true;
    for c in line {
        good = good & is_allowed(*c);
    }
    good
}

// Past whole blocks of allowed bytes. A `while`, since a step is a block and the loop ends where less than one is left.
fn past_blocks(file: &[u8], at: usize, block: usize) -> usize
    requires { (at ≤ length file.now) × (1 ≤ block) }
    ensures { (at ≤ result) × (result ≤ length file.now) × Clean file.now at result }
{
    let mut i = at;
    while block <= file.len() - i {
        if !all_allowed(&file[i..i + block]) {
            return i;
        }
        i += block;
    }
    i
}

// Whether a byte is not allowed: the same test with an exit, for bytes that are taken one by one.
fn is_stop(c: u8) -> bool
    ensures { not result ≡ allowed c }
{
    c < 32 || c == 127
}

// The first of some bytes that is not allowed, or their end.
fn stop_within(file: &[u8], at: usize, to: usize) -> usize
    requires { (at ≤ to) × (to ≤ length file.now) }
    ensures { Stop file.now at to result }
{
    for i in at..to {
        if is_stop(file[i]) {
            return i;
        }
    }
    to
}

// The place of the first byte from a place on that is not allowed, or the file's length: a few bytes one by one, since a file may be made of the shortest lines,
// then block by block, since most are long, and by small blocks in the last.
fn stop_from(file: &[u8], at: usize) -> usize
    requires { (at ≤ length file.now) × (length file.now ≤ most_file) }
    ensures { Stop file.now at (length file.now) result }
{
    if at + NEAR < file.len() {
        let near = stop_within(file, at, at + NEAR);
        if near < at + NEAR {
            return near;
        }
        let far = past_blocks(file, near, BLOCK);
        let close = past_blocks(file, far, SMALL_BLOCK);
        return stop_within(file, close, file.len());
    }
    stop_within(file, at, file.len())
}

// Past the mark of a comment where a byte stands after it, else the place itself: a file may be made of the shortest comments.
fn past_mark(file: &[u8], at: usize) -> usize
    requires { (at < length file.now) × (length file.now ≤ most_file) }
    ensures { (at ≤ result) × (result < length file.now) × Clean file.now at result }
{
    let is_marked = at + MARK < file.len()
        && file[at] == b'#'
        && file[at + 1] == b'#'
        && file[at + 2] == b'#';
    if is_marked { at + MARK } else { at }
}

// The line of allowed bytes from a place up to its CR, with the LF after that if there is one.
fn whole(file: &[u8], from: usize, to: usize) -> Line
    requires { (to < length file.now) × (length file.now ≤ most_file) × CRFrom file.now from to × (all allowed (take (to - from) (drop from file.now)) ≡ true) }
    ensures { WholeAt file.now from result.from result.to result.next.at }
{
    let after = to + 1;
    let has_lf = after < file.len() && file[after] == LF;
    let at = if has_lf { after + 1 } else { after };
    Line {
        from,
        to,
        next: Cursor { at },
    }
}

impl Cursor {
    // The start of a file.
    pub fn new() -> Cursor
        ensures { result.at ≡ 0 }
    {
        Cursor { at: 0 }
    }

    // The line at the cursor, or none at the end of the file. A last line without a terminator is Fault::NoCr, and a line with a byte that is not allowed
    // Fault::BadByte, with or without its terminator. An empty line, or an empty comment, is told at once, since a file may have many.
    pub fn next_line(self, file: &[u8]) -> Result<Option<Line>, Fault>
        requires { length file.now ≤ most_file }
        ensures { StepMeans file.now self.at result }
    {
        let at = self.at;
        if file.len() <= at {
            return Ok(None);
        }
        let start = past_mark(file, at);
        if file[start] == CR {
            return Ok(Some(whole(file, at, start)));
        }
        let to = stop_from(file, start);
        if file.len() <= to {
            return Err(Fault::NoCr);
        }
        if file[to] != CR {
            return Err(Fault::BadByte);
        }
        Ok(Some(whole(file, at, to)))
    }
}
