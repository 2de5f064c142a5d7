// Reads into tables of other lengths than the listed ones. A table one cell short: refusal 1, and no cell of any table changed. Longer tables: the cells
// past the listed sizes stay, after an acceptance and after refusals. Of each reading: the answer's parts, and of each table how many cells hold zero and how
// many hold the mark that all held before. Rows of standard input make files, as `drafts` says; this program's own row is
//
//     !SHORT NAME  a reading of the file that was made; SHORT is the table that is a cell short, 0 where all are longer, 11 where all are as listed
#![tactic(auto)]

ghost use Rattle.std.specs.Prelude.{◌≤◌};

use drafts::{Draft, Lent, MARK, Tables};
use lines_read::CoreAnswer;

// The tables in the order of the reader's parameters, and the acceleration records.
#[derive(Clone, Copy, PartialEq)]
enum Table {
    Starts,
    Points,
    Ranks,
    Kept,
    Opponents,
    Colours,
    Results,
    Text,
    Lines,
    Records,
}

// All tables longer than listed, all as listed, or as listed but for one that is a cell short.
#[derive(Clone, Copy)]
enum Lending {
    Longer,
    Listed,
    Short(Table),
}

impl Lending {
    // As a row says it: the tables count from 1.
    fn from_number(short: u32) -> Lending {
        match short {
            0 => Lending::Longer,
            1 => Lending::Short(Table::Starts),
            2 => Lending::Short(Table::Points),
            3 => Lending::Short(Table::Ranks),
            4 => Lending::Short(Table::Kept),
            5 => Lending::Short(Table::Opponents),
            6 => Lending::Short(Table::Colours),
            7 => Lending::Short(Table::Results),
            8 => Lending::Short(Table::Text),
            9 => Lending::Short(Table::Lines),
            10 => Lending::Short(Table::Records),
            _ => Lending::Listed,
        }
    }

    // How much of a table is lent that has so many cells.
    fn cells(self, table: Table, all: usize) -> usize
        ensures { result ≤ all }
    {
        let lent = match self {
            Lending::Longer => Lent::Longer,
            Lending::Short(short) if short == table => Lent::Short,
            _ => Lent::Listed,
        };
        lent.cells(all)
    }
}

// Of each table, in the order of the reader's parameters.
fn print_cells(rt: &impl Print, tables: &Tables) {
    let _ = print!(rt; "cells");
    drafts::print_counts(rt, &tables.starts);
    drafts::print_counts(rt, &tables.points);
    drafts::print_counts(rt, &tables.ranks);
    drafts::print_counts(rt, &tables.kept);
    drafts::print_counts(rt, &tables.opponents);
    drafts::print_counts(rt, &tables.colours);
    drafts::print_counts(rt, &tables.results);
    drafts::print_counts(rt, &tables.text);
    drafts::print_counts(rt, &tables.lines);
    let _ = println!(rt; "");
}

// Number, line and round; players, rounds, acceleration records and bytes of text; and how many records are to be filled in.
fn print_answer(rt: &impl Print, core: CoreAnswer) {
    let answer = core.answer;
    let _ = println!(rt;
        "answer {} {} {} {} {} {} {} {}",
        answer.number,
        answer.line.0,
        answer.round,
        answer.players,
        answer.rounds,
        answer.accelerations,
        answer.text,
        core.fill
    );
}

// A reading into tables of which one may be short, and what it left.
fn read_case(rt: &impl Print, file: &[u8], lending: Lending) {
    let mut tables = Tables::filled(MARK);
    let core = reader::read_core(
        file,
        &mut tables.starts[..lending.cells(Table::Starts, drafts::PLAYERS)],
        &mut tables.points[..lending.cells(Table::Points, drafts::PLAYERS)],
        &mut tables.ranks[..lending.cells(Table::Ranks, drafts::PLAYERS)],
        &mut tables.kept[..lending.cells(Table::Kept, drafts::KEPT)],
        &mut tables.opponents[..lending.cells(Table::Opponents, drafts::ENTRIES)],
        &mut tables.colours[..lending.cells(Table::Colours, drafts::ENTRIES)],
        &mut tables.results[..lending.cells(Table::Results, drafts::ENTRIES)],
        &mut tables.text[..lending.cells(Table::Text, drafts::TEXT)],
        &mut tables.lines[..lending.cells(Table::Lines, drafts::LINES)],
        lending.cells(Table::Records, drafts::RECORDS),
    );
    print_answer(rt, core);
    print_cells(rt, &tables);
}

// What a row does.
fn take_row(rt: &impl Print, draft: &mut Draft, row: &[u8]) {
    match row {
        [b'!', rest @ ..] => {
            let (short, name) = drafts::number(rest);
            drafts::print_name(rt, drafts::without_blanks(name));
            read_case(rt, draft.file(), Lending::from_number(short));
        }
        _ => draft.put_row(row),
    }
}

fn main(rt: HostRuntime) {
    drafts::take_rows(&mut rt.stdin(), |draft, row| take_row(&rt, draft, row));
}
