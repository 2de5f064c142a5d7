// What the test programs read from standard input: rows that make a report file, and a program's own, which say what is done with it. A row ends with LF.
// The rows that make a file:
//
//     =            a new file, empty
//     TEXT         a line: the text, and CR
//     *N W TEXT    N lines: the text, blanks up to column W, and CR
//     +N B         the byte of value B, N times
//     -            the last byte is taken away
//     /            the file ends here: what comes next is another text for its reading
//     ;            a remark
//
// In a text `%` stands for the line's count in four digits: 0001 in the first of N lines, 0002 in the second. What has no room is left out, so that few
// functions here ask anything of their caller.
#![tactic(auto)]

mod prints;
mod rows;
mod tables;

ghost use Rattle.std.specs.Prelude.{◌≤◌, length};
ghost use Rattle.std.specs.Option.{ForSome};
ghost use Rattle.drafts.specs.declared.TheConstants.{ROOM};

pub use prints::{MARK, count, print_counts, print_lines, print_name, print_text};
pub use rows::{MOST_ROWS, low_byte, number, read_rows, take_rows, without_blanks};
pub use tables::{ENTRIES, KEPT, LINES, Lent, PLAYERS, RECORDS, TEXT, Tables};

// One byte more than a file may have.
pub const ROOM: usize = types::MOST_FILE + 1;

// What rows have made: the bytes, where they end, and where the file ends before that, once it is closed and another text stands after it.
#[derive(Clone, Copy)]
pub struct Draft {
    bytes: [u8; ROOM],
    end: usize,
    closed: Option<usize>,
    ghost end_within: { end ≤ ROOM },
    ghost closed_within: { ForSome closed (λ at. at ≤ ROOM) },
}

impl Draft {
    pub const fn new() -> Draft {
        Draft {
            bytes: [0; ROOM],
            end: 0,
            closed: None,
        }
    }

    // Where the file ends.
    fn file_end(&self) -> usize
        ensures { result ≤ ROOM }
    {
        self.closed.unwrap_or(self.end)
    }

    pub fn file(&self) -> &[u8]
        ensures { length result.now ≤ ROOM }
    {
        &self.bytes[..self.file_end()]
    }

    // The other text, which starts where the file ends.
    pub fn other(&self) -> &[u8]
        ensures { length result.now ≤ ROOM }
    {
        let start = self.file_end();
        &self.bytes[start..self.end.max(start)]
    }

    // A row that makes a file.
    pub fn put_row(&mut self, row: &[u8]) {
        match row {
            [b';', ..] => {}
            [b'=', ..] => self.clear(),
            [b'/', ..] => self.close(),
            [b'-', ..] => self.shorten(),
            [b'+', rest @ ..] => self.put_run(rest),
            [b'*', rest @ ..] => self.put_counted(rest),
            _ => self.put_line(0, row, 1),
        }
    }

    fn clear(&mut self) {
        self.end = 0;
        self.closed = None;
    }

    fn close(&mut self) {
        let end = self.file_end();
        self.end = end;
        self.closed = Some(end);
    }

    fn shorten(&mut self) {
        self.end = self.end.saturating_sub(1);
    }

    // A byte so many times.
    fn put(&mut self, byte: u8, times: usize) {
        let start = self.end;
        let end = start.saturating_add(times).min(ROOM);
        self.bytes[start..end].fill(byte);
        self.end = end;
    }

    // The last four digits of a number.
    fn put_count(&mut self, n: u32) {
        for digit in [n / 1000 % 10, n / 100 % 10, n / 10 % 10, n % 10] {
            self.put(b'0' + digit as u8, 1);
        }
    }

    // A text in which `%` stands for a count.
    fn put_text(&mut self, text: &[u8], count: u32) {
        for byte in text {
            match byte {
                b'%' => self.put_count(count),
                _ => self.put(*byte, 1),
            }
        }
    }

    // A text, blanks up to a width, and CR.
    fn put_line(&mut self, width: usize, text: &[u8], count: u32) {
        let start = self.end;
        self.put_text(text, count);
        let done = self.end.saturating_sub(start);
        self.put(b' ', width.saturating_sub(done));
        self.put(b'\r', 1);
    }

    // The row `*N W TEXT`, from N on.
    fn put_counted(&mut self, row: &[u8]) {
        let (times, row) = number(row);
        let (width, row) = number(row);
        let text = without_blanks(row);
        for count in 1..=times {
            self.put_line(width as usize, text, count);
        }
    }

    // The row `+N B`, from N on.
    fn put_run(&mut self, row: &[u8]) {
        let (times, row) = number(row);
        let (byte, _) = number(row);
        self.put(low_byte(byte), times as usize);
    }
}
