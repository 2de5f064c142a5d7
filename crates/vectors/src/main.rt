// Lists report files, each after a line with its name. Rows of standard input make files, as `drafts` says; this program's own rows are
//
//     !NAME        the listing of the file that was made
//     <NAME        the listing of the file that has the name
#![tactic(auto)]

use drafts::Draft;
use listed::Failure;
use std::fs::File;
use std::{io, str};

fn list_draft(rt: &HostRuntime, name: &[u8], file: &[u8]) {
    drafts::print_name(rt, name);
    let _ = listed::print_listing(&rt.stdout(), &rt.stderr(), file);
}

// A name that is no text is no file's.
fn open_named(rt: &HostRuntime, name: &[u8]) -> io::Result<File> {
    let name = str::from_utf8(name).map_err(|_| io::Error::from(io::ErrorKind::InvalidFilename))?;
    File::open(rt, name)
}

// The listing of a file, or why it cannot be read.
fn list_opened(rt: &HostRuntime, name: &[u8]) -> io::Result<()> {
    let mut file = open_named(rt, name)?;
    match listed::print_input(&mut file, &rt.stdout(), &rt.stderr()) {
        Err(Failure::Unread(e)) => Err(e),
        _ => Ok(()),
    }
}

fn list_named(rt: &HostRuntime, name: &[u8]) {
    drafts::print_name(rt, name);
    if let Err(e) = list_opened(rt, name) {
        listed::print_failure(&rt.stderr(), name, e);
    }
}

// What a row does.
fn take_row(rt: &HostRuntime, draft: &mut Draft, row: &[u8]) {
    match row {
        [b'!', name @ ..] => list_draft(rt, drafts::without_blanks(name), draft.file()),
        [b'<', name @ ..] => list_named(rt, drafts::without_blanks(name)),
        _ => draft.put_row(row),
    }
}

fn main(rt: HostRuntime) {
    drafts::take_rows(&mut rt.stdin(), |draft, row| take_row(&rt, draft, row));
}
