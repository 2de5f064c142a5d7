// A file in the writer's spelling: the file is read into tables of the listed sizes, and what was read is written; from a reader, and to the two
// outputs.
#![tactic(auto)]

ghost use Rattle.std.specs.Prelude.{IfOk};
ghost use Rattle.io.specs.Counts.{IsPrefixLen};
ghost use Rattle.listed.specs.Printed.{Says};
ghost use Rattle.law.specs.Calls.{end_of};
ghost use Rattle.rewritten.specs.Rewrites.{Rewrites};

use listed::{Failure, Made, Printed, Room};
use std::io;
use std::io::Read;

// The longest file that the writer can produce, with CR LF.
pub const MOST_WRITTEN: usize = 61887;

// The bytes of a file in the writer's spelling, with CR LF or with CR alone, from the first byte of `out` on. The answer of a refusal is no reading, so that
// nothing is written of it.
pub fn rewrite_file(file: &[u8], cr_alone: bool, out: &mut [u8; MOST_WRITTEN]) -> Made
    ensures prefix_len { IsPrefixLen result.length out.new }
    ensures rewrites { Rewrites (end_of cr_alone) file.now out.old result out.new }
{
    let mut room = Room::new();
    let core = room.read(file);
    let answer = core.answer;
    let written = writer::write_core(
        answer,
        &room.starts,
        &room.points,
        &room.ranks,
        &room.kept,
        &room.opponents,
        &room.colours,
        &room.results,
        &room.text,
        &core.records,
        cr_alone,
        out,
    );
    Made {
        answer,
        length: written.length,
    }
}

// A file in the writer's spelling, with CR LF or with CR alone, to an output. A refusal's line goes to the output for errors.
pub fn print_rewritten(
    out: &impl Print,
    err: &impl Print,
    file: &[u8],
    cr_alone: bool,
) -> io::Result<Printed>
    ensures { IfOk result (λ p. Says p file.now) }
{
    let mut bytes = [0u8; MOST_WRITTEN];
    let made = rewrite_file(file, cr_alone, &mut bytes);
    if made.answer.number == 0 {
        out.write_all(&bytes[..made.length])?;
        return Ok(Printed::Accepted);
    }
    listed::print_refused(err, made.answer)?;
    Ok(Printed::Refused)
}

// The same, of what a reader gives.
pub fn print_input(
    input: &mut impl Read,
    out: &impl Print,
    err: &impl Print,
    cr_alone: bool,
) -> Result<Printed, Failure> {
    listed::print_read(input, |file| print_rewritten(out, err, file, cr_alone))
}
