// What the writer and the question do. Rows of standard input make files, as `drafts` says; this program's own rows are
//
//     >NAME        the file that was made, in the writer's spelling with CR LF
//     <NAME        the same with CR alone; each CR is shown as LF
//     &NAME        the same written, with CR LF and with CR alone, and what was written read and written again: the lengths, how many CRs and LFs there are,
//                  and whether the bytes are the same
//     !PART CELL VALUE SHORT ROOM PLACE ROUND NAME
//                  the file read, that cell of that part changed, and a writing with CR LF and a question over the reading: SHORT is the table that is lent a
//                  cell short, ROOM is the output's length, PLACE and ROUND are asked about. Where other text was made, it stands in place of the file's own
//     ?PART CELL VALUE SHORT ROOM PLACE ROUND NAME
//                  the same with CR alone
//
// Part 0 changes nothing, and 0 is no table: `changes` has the others.
#![tactic(auto)]

ghost use Rattle.std.specs.Prelude.{◌≤◌};

use changes::{Case, Part};
use drafts::{Draft, MARK, Tables};
use rewritten::MOST_WRITTEN;
use types::{Acceleration, Answer, CR_ALONE, CR_LF, MOST_ACCELERATIONS, Score, Written};

// The output's bytes.
const OUT: usize = types::MOST_FILE;

// How many acceleration records are lent.
fn records_lent(case: Case) -> usize
    ensures { result ≤ 32 }
{
    if case.short == Some(Part::Records) {
        MOST_ACCELERATIONS - 1
    } else {
        MOST_ACCELERATIONS
    }
}

// Of a writing: number, length, and the output's changed bytes.
fn print_written(rt: &impl Print, written: Written, out: &[u8; OUT]) {
    let _ = print!(rt; ": write {} {}", written.number, written.length);
    let _ = match OUT - drafts::count(out, MARK) {
        0 => print!(rt; " untouched"),
        touched => print!(rt; " touched {touched}"),
    };
}

// Of a question: number, sum and acceleration.
fn print_score(rt: &impl Print, score: Score) {
    let _ = println!(rt;
        "; ask {} {} {}",
        score.number, score.points, score.acceleration
    );
}

// A writing and a question over parts of the tables.
fn judge(
    rt: &impl Print,
    case: Case,
    cr_alone: bool,
    answer: Answer,
    tables: &Tables,
    records: &[Acceleration; MOST_ACCELERATIONS],
) {
    let mut out = [MARK; OUT];
    let starts = &tables.starts[..case.lent(Part::Starts).cells(drafts::PLAYERS)];
    let points = &tables.points[..case.lent(Part::Points).cells(drafts::PLAYERS)];
    let ranks = &tables.ranks[..case.lent(Part::Ranks).cells(drafts::PLAYERS)];
    let kept = &tables.kept[..case.lent(Part::Kept).cells(drafts::KEPT)];
    let opponents = &tables.opponents[..case.lent(Part::Opponents).cells(drafts::ENTRIES)];
    let colours = &tables.colours[..case.lent(Part::Colours).cells(drafts::ENTRIES)];
    let results = &tables.results[..case.lent(Part::Results).cells(drafts::ENTRIES)];
    let text = &tables.text[..case.lent(Part::Text).cells(drafts::TEXT)];
    let records = &records[..records_lent(case)];
    let written = writer::write_core(
        answer,
        starts,
        points,
        ranks,
        kept,
        opponents,
        colours,
        results,
        text,
        records,
        cr_alone,
        &mut out[..case.room.min(OUT)],
    );
    let score = question::ask_core(
        answer, starts, points, ranks, kept, opponents, colours, results, text, records,
        case.place, case.round,
    );
    print_written(rt, written, &out);
    print_score(rt, score);
}

// A file read, one thing changed, and the reading judged.
fn run(rt: &impl Print, case: Case, cr_alone: bool, file: &[u8], other: &[u8]) {
    let mut tables = Tables::filled(0);
    let core = reader::read_core(
        file,
        &mut tables.starts,
        &mut tables.points,
        &mut tables.ranks,
        &mut tables.kept,
        &mut tables.opponents,
        &mut tables.colours,
        &mut tables.results,
        &mut tables.text,
        &mut tables.lines,
        MOST_ACCELERATIONS,
    );
    let mut answer = core.answer;
    let mut records = core.records;
    changes::replace_text(&mut tables, &mut answer, other);
    if let Some(change) = case.change {
        change.apply_to_tables(&mut tables);
        change.apply_to_records(&mut records);
        change.apply_to_answer(&mut answer);
    }
    judge(rt, case, cr_alone, answer, &tables, &records);
}

fn run_case(rt: &impl Print, row: &[u8], draft: &Draft, cr_alone: bool) {
    let case = Case::of_row(row);
    drafts::print_text(rt, case.name);
    run(rt, case, cr_alone, draft.file(), draft.other());
}

fn show(rt: &impl Print, row: &[u8], file: &[u8], cr_alone: bool) {
    let mut out = [0u8; MOST_WRITTEN];
    let done = rewritten::rewrite_file(file, cr_alone, &mut out);
    let written = &out[..done.length];
    drafts::print_name(rt, drafts::without_blanks(row));
    if cr_alone {
        drafts::print_lines(rt, written);
    } else {
        drafts::print_text(rt, written);
    }
}

// Written, and what was written read and written again.
fn print_twice(rt: &impl Print, file: &[u8], cr_alone: bool) {
    let mut out = [0u8; MOST_WRITTEN];
    let mut again = [0u8; MOST_WRITTEN];
    let first = rewritten::rewrite_file(file, cr_alone, &mut out);
    let written = &out[..first.length];
    let second = rewritten::rewrite_file(written, cr_alone, &mut again);
    let written_again = &again[..second.length];
    let verdict = if written == written_again {
        "the same"
    } else {
        "others"
    };
    let _ = println!(rt;
        ": {} bytes, CR {}, LF {}, written again {}, {verdict}",
        written.len(),
        drafts::count(written, b'\r'),
        drafts::count(written, b'\n'),
        written_again.len()
    );
}

fn write_twice(rt: &impl Print, row: &[u8], file: &[u8]) {
    let name = drafts::without_blanks(row);
    drafts::print_text(rt, name);
    drafts::print_text(rt, b", CR LF");
    print_twice(rt, file, CR_LF);
    drafts::print_text(rt, name);
    drafts::print_text(rt, b", CR alone");
    print_twice(rt, file, CR_ALONE);
}

// What a row does.
fn take_row(rt: &impl Print, draft: &mut Draft, row: &[u8]) {
    match row {
        [b'>', rest @ ..] => show(rt, rest, draft.file(), CR_LF),
        [b'<', rest @ ..] => show(rt, rest, draft.file(), CR_ALONE),
        [b'&', rest @ ..] => write_twice(rt, rest, draft.file()),
        [b'!', rest @ ..] => run_case(rt, rest, draft, CR_LF),
        [b'?', rest @ ..] => run_case(rt, rest, draft, CR_ALONE),
        _ => draft.put_row(row),
    }
}

fn main(rt: HostRuntime) {
    drafts::take_rows(&mut rt.stdin(), |draft, row| take_row(&rt, draft, row));
}
