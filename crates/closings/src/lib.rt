// What is asked of the cells after the last line without looking a start number up: the number of rounds, the first cell past them, the closing pass, what a player earned and
// the first whose points are not that sum; and the first acceleration record that shares with an earlier one. Promised: each answers what the pure definition
// of join says. A search is one loop over its cells, player by player and each round by round; the closing pass has a function for one player.
#![tactic(auto)]

ghost use Rattle.std.specs.Prelude.{◌≡◌, true, cond, ◌&&◌, ◌*◌, ◌≤◌, ◌<◌, eqb, leb, length, get_or};
ghost use Rattle.kit.specs.Table.{Holds};
ghost use Rattle.law.specs.Sizes.{most_players, most_rounds};
ghost use Rattle.law.specs.Accelerations as accelerations;
ghost use Rattle.law.specs.Tables.{entry_cells};
ghost use Rattle.join.specs.Grid.{first_from};
ghost use Rattle.join.specs.Check.{is_seen, round_seen, rounds_seen, past_cell, shared_record, closing, sum_at, wrong_sum};
ghost use Rattle.index.specs.Index.{as_placed};
ghost use Rattle.turns.specs.Found.{as_found_turn, as_found_record};
ghost use Rattle.closings.specs.Values.{are_small};
ghost use Rattle.closings.specs.Closing.{ClosesRow};

use results::Worths;
use turns::{RecordNumber, Turn};
use types::{Acceleration, MOST_ROUNDS, Place, VALUES};

// Whether the cell of a turn holds anything.
fn is_seen(colours: &[u8], turn: Turn) -> bool
    requires turn { turn.0 < entry_cells }
    requires long { entry_cells ≤ length colours.now }
    ensures { result ≡ is_seen colours.now turn.0 }
{
    tables::letter_at(colours, turn.place(), turn.round()) != 0
}

// The round of a turn whose cell holds anything, or 0.
fn round_seen(colours: &[u8], turn: Turn) -> u32
    requires turn { turn.0 < entry_cells }
    requires long { entry_cells ≤ length colours.now }
    ensures { result ≡ round_seen colours.now turn.0 }
{
    if is_seen(colours, turn) {
        return turn.round();
    }
    0
}

// The highest round in which a player has a cell that is not zero, or 0.
pub fn rounds_seen(colours: &[u8], n: usize) -> u32
    requires players { n ≤ most_players }
    requires long { entry_cells ≤ length colours.now }
    ensures { result ≡ rounds_seen colours.now n }
{
    let mut most = 0;
    for k in 0..n * MOST_ROUNDS {
        most = round_seen(colours, Turn(k)).max(most);
    }
    most
}

// Whether a turn is past the rounds that there are and its cell holds anything.
fn is_past(rounds: u32, colours: &[u8], turn: Turn) -> bool
    requires turn { turn.0 < entry_cells }
    requires long { entry_cells ≤ length colours.now }
    ensures { result ≡ past_cell rounds colours.now turn.0 }
{
    let seen = is_seen(colours, turn);
    let round = turn.round();
    (rounds < round) & seen
}

// The first such turn of n players.
pub fn first_past(colours: &[u8], n: usize, rounds: u32) -> Option<Turn>
    requires players { n ≤ most_players }
    requires long { entry_cells ≤ length colours.now }
    ensures { result ≡ as_found_turn (first_from (past_cell rounds colours.now) 0 (n * most_rounds)) }
{
    for k in 0..n * MOST_ROUNDS {
        if is_past(rounds, colours, Turn(k)) {
            return Some(Turn(k));
        }
    }
    None
}

// Whether two ranges have a number in common.
fn overlap(first: u32, last: u32, first_other: u32, last_other: u32) -> bool
    ensures { result ≡ accelerations.overlap first last first_other last_other }
{
    (first <= last_other) & (first_other <= last)
}

// Whether two records share a round and a start number.
fn shares(a: Acceleration, b: Acceleration) -> bool
    ensures { result ≡ accelerations.shares a b }
{
    let rounds = overlap(a.first_round, a.last_round, b.first_round, b.last_round);
    let starts = overlap(a.first_start, a.last_start, b.first_start, b.last_start);
    rounds & starts
}

// Whether a record shares with an earlier one: no exit, so that several records are compared at a time.
fn shares_earlier(records: &[Acceleration], number: RecordNumber) -> bool
    requires { number.0 < length records.now }
    ensures { result ≡ shared_record records.now number.0 }
{
    let mut found = false;
    for i in 0..number.0 {
        found = found | shares(records[number.0], records[i]);
    }
    found
}

// The first record that shares with an earlier one.
pub fn first_shared(records: &[Acceleration]) -> Option<RecordNumber>
    ensures { result ≡ as_found_record (first_from (shared_record records.now) 0 (length records.now)) }
{
    for j in 0..records.len() {
        if shares_earlier(records, RecordNumber(j)) {
            return Some(RecordNumber(j));
        }
    }
    None
}

// What a cell of a round becomes.
fn closed(cell: u8, round: u32, rounds: u32, letter: u8) -> u8
    ensures { result ≡ cond (leb round rounds && eqb cell 0) letter cell }
{
    if rounds < round {
        return cell;
    }
    if cell == 0 {
        return letter;
    }
    cell
}

// The closing pass on the cells of one player.
fn close_row(t: &mut [u8], place: Place, rounds: u32, letter: u8)
    requires place { place.0 < most_players }
    requires long { entry_cells ≤ length t.old }
    ensures { ClosesRow rounds letter place.0 t.old t.new }
{
    for j in 0..MOST_ROUNDS {
        let round = j as u32 + 1;
        let i = tables::cell_of(place, round);
        t[i] = closed(t[i], round, rounds, letter);
    }
}

// The closing pass on colours or results: a zero cell of one of n players, up to the last round, becomes the letter.
pub fn close(t: &mut [u8], n: usize, rounds: u32, letter: u8)
    requires players { n ≤ most_players }
    requires long { entry_cells ≤ length t.old }
    ensures { Holds 0 entry_cells (λ i. closing n rounds letter i (get_or t.old i 0)) t.old t.new }
{
    for p in 0..n {
        close_row(t, Place(p as u32), rounds, letter);
    }
}

// What a player earned in the first rounds.
fn sum_by(results: &[u8], worths: &Worths, place: Place, rounds: u32) -> u32
    requires place { place.0 < most_players }
    requires rounds { rounds ≤ most_rounds }
    requires long { entry_cells ≤ length results.now }
    requires small { are_small worths.now.values ≡ true }
    ensures { result ≡ sum_at worths.now.values results.now place.0 rounds }
{
    let mut sum = 0;
    for j in 0..rounds {
        sum += worths.of(tables::letter_at(results, place, j + 1));
    }
    sum
}

// The same by the values of W D L A P X.
pub fn sum_of(results: &[u8], values: [u32; VALUES], place: Place, rounds: u32) -> u32
    requires place { place.0 < most_players }
    requires rounds { rounds ≤ most_rounds }
    requires long { entry_cells ≤ length results.now }
    requires small { are_small values ≡ true }
    ensures { result ≡ sum_at values results.now place.0 rounds }
{
    sum_by(results, &Worths::new(values), place, rounds)
}

// Whether a player's stated points are not the sum.
fn is_wrong_sum(points: &[u32], results: &[u8], worths: &Worths, place: Place, rounds: u32) -> bool
    requires place { place.0 < most_players }
    requires rounds { rounds ≤ most_rounds }
    requires points_long { most_players ≤ length points.now }
    requires results_long { entry_cells ≤ length results.now }
    requires small { are_small worths.now.values ≡ true }
    ensures { result ≡ wrong_sum worths.now.values points.now results.now rounds place.0 }
{
    tables::points_at(points, place) != sum_by(results, worths, place, rounds)
}

// The first player whose stated points are not the sum.
pub fn first_wrong_sum(
    points: &[u32],
    results: &[u8],
    values: [u32; VALUES],
    n: usize,
    rounds: u32,
) -> Option<Place>
    requires players { n ≤ most_players }
    requires rounds { rounds ≤ most_rounds }
    requires points_long { most_players ≤ length points.now }
    requires results_long { entry_cells ≤ length results.now }
    requires small { are_small values ≡ true }
    ensures { result ≡ as_placed (first_from (wrong_sum values points.now results.now rounds) 0 n) }
{
    let worths = Worths::new(values);
    for p in 0..n {
        let place = Place(p as u32);
        if is_wrong_sum(points, results, &worths, place, rounds) {
            return Some(place);
        }
    }
    None
}
