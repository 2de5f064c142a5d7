// The players' lines: 001 with its rounds, put into the lent output from a position on, which is answered moved past it. Promised: the bytes are the
// statement's line of the player that the cells say, and every byte outside them, and the output's length, are as before. `rows` reads what is put here.
#![tactic(auto)]

ghost use Rattle.std.specs.Prelude.{[], ◌∷◌, map, suc, ◌+◌, ◌*◌, ◌≤◌, ◌<◌, length, take, drop};
ghost use Rattle.kit.specs.Lists.{flat};
ghost use Rattle.law.specs.Sizes.{most_players, most_rounds};
ghost use Rattle.law.specs.Columns.{blank, width};
ghost use Rattle.law.specs.Players.{kept_field, id_field};
ghost use Rattle.law.specs.Tables.{entry_cells};
ghost use Rattle.law.specs.Writing.{id_text, result_text, entries_from, player_line, laid};
ghost use Rattle.puts.specs.Puts.{Puts};
ghost use Rattle.puts.specs.Ends.{end_wide, ended_by};
ghost use Rattle.player_lines.specs.Lines.{head_text, head_wide, entry, entry_text, entry_wide, player_wide};
ghost use Rattle.player_lines.specs.Rows.{seven_in, entries_in, player_in, players_in};

use puts::{BETWEEN, START_COLUMNS, Terminator};
use tables::PlayerTables;
use types::{KEPT_COLUMNS, Place, Rank, StartNumber};

// How many columns a rank has.
const RANK_COLUMNS: usize = 4;

// The blanks before a round, from the column after what stands before it.
const BEFORE_ROUND: usize = 92 - 90;

// A round's result and the blank before it, from the column after its colour.
const RESULT_COLUMNS: usize = 100 - 98;

// An opponent's start number, or zeros for a bye; `fields::number_of` reads it.
fn put_id(out: &mut [u8], at: usize, id: StartNumber) -> usize
    requires { at + width (id_field 1) ≤ length out.old }
    ensures { Puts (id_text (width (id_field 1)) id.0) (width (id_field 1)) at out.old out.new result }
{
    if id.0 == 0 {
        return puts::put_number(out, at, START_COLUMNS, id.0, b'0');
    }
    puts::put_number(out, at, START_COLUMNS, id.0, b' ')
}

// A round's result, with the blank before it: of an unknown one nothing but blanks.
fn put_result(out: &mut [u8], at: usize, res: u8) -> usize
    requires { at + 2 ≤ length out.old }
    ensures { Puts (blank ∷ result_text res ∷ []) 2 at out.old out.new result }
{
    if results::is_unknown(res) {
        return puts::put_blanks(out, at, RESULT_COLUMNS);
    }
    puts::put_letter(out, at, res)
}

// One round of a 001 line; `rows::slot_of` reads it.
fn put_entry(out: &mut [u8], at: usize, id: StartNumber, colour: u8, res: u8) -> usize
    requires { at + entry_wide ≤ length out.old }
    ensures { Puts (entry_text (entry id.0 colour res)) entry_wide at out.old out.new result }
{
    let at = puts::put_blanks(out, at, BEFORE_ROUND);
    let at = put_id(out, at, id);
    let at = puts::put_letter(out, at, colour);
    put_result(out, at, res)
}

// The first rounds of the player in a place; `rows::slots_of` reads them.
fn put_entries(
    out: &mut [u8],
    at: usize,
    tables: &PlayerTables<'_>,
    place: Place,
    rounds: u32,
) -> usize
    requires place { place.0 < most_players }
    requires rounds { rounds ≤ most_rounds }
    requires room { at + rounds * entry_wide ≤ length out.old }
    ensures { Puts (laid (suc head_wide) (entries_from 1 (entries_in tables.now.opponents.now tables.now.colours.now tables.now.results.now place.0 rounds))) (rounds * entry_wide) at out.old out.new result }
{
    let mut next = at;
    for done in 0..rounds {
        let round = done + 1;
        let id = tables::opponent_at(tables.opponents, place, round);
        let colour = tables::letter_at(tables.colours, place, round);
        let res = tables::letter_at(tables.results, place, round);
        next = put_entry(out, next, id, colour, res);
    }
    next
}

// A 001 line up to the rank, with the kept columns; `rows::player_of` reads it.
fn put_head(
    out: &mut [u8],
    at: usize,
    start: StartNumber,
    kept: [u8; KEPT_COLUMNS],
    points: u32,
    rank: Rank,
) -> usize
    requires { at + head_wide ≤ length out.old }
    ensures { Puts (head_text start.0 kept points rank.0) head_wide at out.old out.new result }
{
    let at = puts::put_code(out, at, b"001");
    let at = puts::put_blanks(out, at, BETWEEN);
    let at = puts::put_number(out, at, START_COLUMNS, start.0, b' ');
    let at = puts::put_blanks(out, at, BETWEEN);
    let at = puts::put(out, at, &kept);
    let at = puts::put_blanks(out, at, BETWEEN);
    let at = puts::put_points(out, at, points, b' ');
    let at = puts::put_blanks(out, at, BETWEEN);
    puts::put_number(out, at, RANK_COLUMNS, rank.0, b' ')
}

// The 001 line of the player in a place; `rows::player_of` reads it.
fn put_player(
    out: &mut [u8],
    at: usize,
    tables: &PlayerTables<'_>,
    place: Place,
    rounds: u32,
) -> usize
    requires place { place.0 < most_players }
    requires rounds { rounds ≤ most_rounds }
    requires room { at + player_wide rounds ≤ length out.old }
    ensures { Puts (player_line (player_in (seven_in tables.now) rounds place.0)) (player_wide rounds) at out.old out.new result }
{
    let start = tables::start_at(tables.starts, place);
    let kept = tables::kept_at(tables.kept, place);
    let points = tables::points_at(tables.points, place);
    let rank = tables::rank_at(tables.ranks, place);
    let at = put_head(out, at, start, kept, points, rank);
    put_entries(out, at, tables, place, rounds)
}

// The first players, each with its terminator.
pub fn put_players(
    out: &mut [u8],
    at: usize,
    tables: &PlayerTables<'_>,
    players: u32,
    rounds: u32,
    end: Terminator,
) -> usize
    requires players { players ≤ most_players }
    requires rounds { rounds ≤ most_rounds }
    requires room { at + players * (player_wide rounds + end_wide end) ≤ length out.old }
    ensures { Puts (flat (ended_by end) (map player_line (players_in (seven_in tables.now) rounds players))) (players * (player_wide rounds + end_wide end)) at out.old out.new result }
{
    let mut next = at;
    for i in 0..players {
        let ended = put_player(out, next, tables, Place(i), rounds);
        next = puts::put_end(out, ended, end);
    }
    next
}
