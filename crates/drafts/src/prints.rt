// What the test programs print: a name, a text with CR shown as LF; of a table how many cells hold zero and how many hold the mark. Whether it was written is
// not asked: the output of a test program is compared whole.
ghost use Rattle.std.specs.Prelude.{◌≤◌, length};

// What cells hold before a call that may write them. No cell that is written holds it.
pub const MARK: u8 = 7;

// Bytes as they are.
pub fn print_text(rt: &impl Print, text: &[u8]) {
    let _ = rt.write_all(text);
}

// A line with a name.
pub fn print_name(rt: &impl Print, name: &[u8]) {
    print_text(rt, name);
    print_text(rt, b"\n");
}

// Lines that end with CR.
pub fn print_lines(rt: &impl Print, bytes: &[u8]) {
    for line in bytes.split_inclusive(|byte| *byte == b'\r') {
        print_name(rt, crate::rows::without_end(line, b'\r'));
    }
}

// How many cells hold a value: no branch, so that many cells are compared at a time.
pub fn count<T: Copy + PartialEq>(cells: &[T], value: T) -> usize
    ensures { result ≤ length cells.now }
{
    let mut n = 0;
    for cell in cells {
        n += usize::from(*cell == value);
    }
    n
}

// Of one table: the cells that hold zero, and those that hold the mark.
pub fn print_counts<T: Copy + PartialEq + From<u8>>(rt: &impl Print, cells: &[T]) {
    let _ = print!(rt;
        " {} {}",
        count(cells, T::from(0)),
        count(cells, T::from(MARK))
    );
}
