// The writer: whether answer and tables are a reading, whether the output has room, and then the report file, record by record. Promised: what the statement
// says of a writing.
#![tactic(auto)]

ghost use Rattle.std.specs.Prelude.{◌≡◌, List, ◌+◌, ◌*◌, ◌≤◌, length, take};
ghost use Rattle.law.specs.Sizes.{most_line, most_players, most_rounds, most_text};
ghost use Rattle.law.specs.Writing.{rounds_line};
ghost use Rattle.law.specs.Refusals.{refusal, no_refusal};
ghost use Rattle.law.specs.Calls.{written_answer, end_of, Writes};
ghost use Rattle.types.specs.Faults.{number_of};
ghost use Rattle.lawful.specs.Given.{tables_of, tables_in};
ghost use Rattle.puts.specs.Puts.{Puts};
ghost use Rattle.puts.specs.Ends.{as_end, end_wide, kept_text, relined};
ghost use Rattle.writer.specs.Report.{Fit, colour_text, heads_text, heads_wide, report_text, report_wide};

use puts::Terminator;
use tables::Tables;
use types::{Acceleration, Answer, CR, Fault, LineNumber, MOST_ACCELERATIONS, VALUES, Written};

// How many bytes the lines have: 142 up to its number, 152, 162, 250, 001 up to the rank, and a round of it.
const BEFORE_ROUNDS: usize = 4;

const COLOUR_LINE: usize = 5;

const SCORING_LINE: usize = 55;

const ACCELERATION_LINE: usize = 31;

const PLAYER_HEAD: usize = 89;

const PLAYER_ROUND: usize = 10;

// How the lines end: with CR LF, or with CR alone where the caller asks for that.
fn ending(cr_alone: bool) -> Terminator
    ensures { as_end result ≡ end_of cr_alone }
{
    if cr_alone {
        Terminator::Cr
    } else {
        Terminator::CrLf
    }
}

// How many bytes end a line; `puts::put_end` puts them.
fn end_wide(end: Terminator) -> usize
    ensures { (result ≡ end_wide end) × (result ≤ most_line) }
{
    match end {
        Terminator::CrLf => 2,
        Terminator::Cr => 1,
    }
}

// How many bytes a byte of the kept text is written in; `puts::put_text` puts it.
fn kept_wide(c: u8, end: Terminator) -> u16
    ensures { (result ≡ length (kept_text end c)) × (result ≤ 2) }
{
    if c == CR { end_wide(end) as u16 } else { 1 }
}

// How many bytes a kept text is written in. Added up in sixteen bits, so that the compiler takes eight bytes at a time.
fn text_wide(text: &[u8], end: Terminator) -> usize
    requires { length text.now ≤ most_text }
    ensures { (result ≡ length (relined end text.now)) × (result ≤ most_text + most_text) }
{
    let mut wide: u16 = 0;
    for c in text {
        wide += kept_wide(*c, end);
    }
    wide as usize
}

// How many bytes 142 has.
fn rounds_wide(rounds: u32) -> usize
    requires { rounds ≤ most_rounds }
    ensures { (result ≡ length (rounds_line rounds)) × (result ≤ most_line) }
{
    if rounds < 10 {
        BEFORE_ROUNDS + 1
    } else {
        BEFORE_ROUNDS + 2
    }
}

// How many bytes 152 has with its terminator, if the colour is known.
fn colour_wide(colour: u8, end: Terminator) -> usize
    ensures { (result ≡ length (colour_text colour end)) × (result ≤ most_line + most_line) }
{
    if colour == 0 {
        return 0;
    }
    COLOUR_LINE + end_wide(end)
}

// How many bytes some lines of one width have with their terminators.
fn lines_wide(n: u32, wide: usize, end: Terminator) -> usize
    requires { (n ≤ most_players) × (wide ≤ most_line) }
    ensures { (result ≡ n * (wide + end_wide end)) × (result ≤ most_players * (most_line + most_line)) }
{
    n as usize * (wide + end_wide(end))
}

// How many bytes a reading is written in.
fn written_length(answer: Answer, tables: &Tables<'_>, end: Terminator) -> usize
    requires { Fit answer }
    ensures { result ≡ report_wide answer tables.now.text.now end }
{
    let kept = text_wide(&tables.text[..answer.text], end);
    let rounds = rounds_wide(answer.rounds) + end_wide(end);
    let colour = colour_wide(answer.colour, end);
    let scoring = SCORING_LINE + end_wide(end);
    let accelerations = lines_wide(answer.accelerations, ACCELERATION_LINE, end);
    let player = PLAYER_HEAD + answer.rounds as usize * PLAYER_ROUND;
    let players = lines_wide(answer.players, player, end);
    kept + (rounds + (colour + scoring)) + (accelerations + players)
}

// 152 with its terminator, if the colour is known.
fn put_known(out: &mut [u8], at: usize, colour: u8, end: Terminator) -> usize
    requires { at + length (colour_text colour end) ≤ length out.old }
    ensures { Puts (colour_text colour end) (length (colour_text colour end)) at out.old out.new result }
{
    if colour == 0 {
        return at;
    }
    let at = heads::put_colour(out, at, colour);
    puts::put_end(out, at, end)
}

// 142, 152 if the colour is known, and 162.
fn put_heads(
    out: &mut [u8],
    at: usize,
    rounds: u32,
    colour: u8,
    values: [u32; VALUES],
    end: Terminator,
) -> usize
    requires { (rounds ≤ most_rounds) × (at + heads_wide rounds colour end ≤ length out.old) }
    ensures { Puts (heads_text rounds colour values end) (heads_wide rounds colour end) at out.old out.new result }
{
    let at = heads::put_rounds(out, at, rounds);
    let at = puts::put_end(out, at, end);
    let at = put_known(out, at, colour, end);
    let at = heads::put_scoring(out, at, values);
    puts::put_end(out, at, end)
}

// The report file of a reading. records: the acceleration records, of which the answer says how many there are.
fn put_report(
    answer: Answer,
    tables: &Tables<'_>,
    records: &[Acceleration; MOST_ACCELERATIONS],
    end: Terminator,
    out: &mut [u8],
) -> usize
    requires fit { Fit answer }
    requires room { report_wide answer tables.now.text.now end ≤ length out.old }
    ensures { Puts (report_text answer (tables_in tables.now records.now) end) (report_wide answer tables.now.text.now end) 0 out.old out.new result }
{
    let at = puts::put_text(out, 0, &tables.text[..answer.text], end);
    let at = put_heads(out, at, answer.rounds, answer.colour, answer.values, end);
    let records = &records[..answer.accelerations as usize];
    let at = heads::put_accelerations(out, at, records, end);
    let rows = tables.of_players();
    player_lines::put_players(out, at, &rows, answer.players, answer.rounds, end)
}

// The answer of a refusal; and of a writing.
fn refused(fault: Fault) -> Written
    ensures { result ≡ written_answer (refusal (number_of fault) 0 0) 0 }
{
    Written {
        number: fault.number(),
        line: LineNumber(0),
        round: 0,
        length: 0,
    }
}

fn done(length: usize) -> Written
    ensures { result ≡ written_answer no_refusal length }
{
    Written {
        number: 0,
        line: LineNumber(0),
        round: 0,
        length,
    }
}

// A writing: the answer and tables of a reading into the output, each line ended with CR LF, or with CR alone. C lends each table by itself, and of no length that is known, so that they come one by one.
pub fn write_core(
    answer: Answer,
    starts: &[u32],
    points: &[u32],
    ranks: &[u32],
    kept: &[u8],
    opponents: &[u32],
    colours: &[u8],
    results: &[u8],
    text: &[u8],
    accelerations: &[Acceleration],
    cr_alone: bool,
    out: &mut [u8],
) -> Written
    ensures { Writes (end_of cr_alone) answer (tables_of starts.now points.now ranks.now kept.now opponents.now colours.now results.now text.now accelerations.now) out.old result out.new }
{
    if !tables::enough(
        starts.len(),
        points.len(),
        ranks.len(),
        kept.len(),
        opponents.len(),
        colours.len(),
        results.len(),
        text.len(),
        accelerations.len(),
    ) {
        return refused(Fault::TableShort);
    }
    let tables = Tables {
        starts,
        points,
        ranks,
        kept,
        opponents,
        colours,
        results,
        text,
    };
    let records = lent_records::carried(accelerations);
    if !lawful::is_reading(answer, &tables, &records) {
        return refused(Fault::NoReading);
    }
    let end = ending(cr_alone);
    if out.len() < written_length(answer, &tables, end) {
        return refused(Fault::OutShort);
    }
    done(put_report(answer, &tables, &records, end, out))
}
