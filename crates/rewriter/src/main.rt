// Writes the report file that stands on standard input in the writer's spelling, with CR LF, or with CR alone where the program's only word is `--cr`.
// Standard error has one line: `accepted`, the line of a refusal, or what could not be read or written, or was asked.
#![tactic(auto)]

use std::env::{Env, FillError};
use types::{CR_ALONE, CR_LF};

// How the lines shall end, by the program's words, if it takes them. A word that is longer than the buffer is another word.
fn ends_asked(rt: &impl Env) -> Option<bool> {
    let mut word = [0u8; 4];
    match rt.arg(1, &mut word) {
        Err(FillError::NotPresent) => Some(CR_LF),
        Ok(4) if word == *b"--cr" && !has_word(rt, 2) => Some(CR_ALONE),
        _ => None,
    }
}

fn has_word(rt: &impl Env, i: usize) -> bool {
    let mut word = [0u8; 1];
    !matches!(rt.arg(i, &mut word), Err(FillError::NotPresent))
}

fn main(rt: HostRuntime) {
    let err = rt.stderr();
    let Some(cr_alone) = ends_asked(&rt) else {
        let _ = err.write_all(b"the program takes no word but --cr\n");
        return;
    };
    let done = rewritten::print_input(&mut rt.stdin(), &rt.stdout(), &err, cr_alone);
    listed::tell(&err, done);
}
