// What the tables hold, asked cell by cell: that each used cell keeps to its rule, and that unused ones hold zero. Promised: true exactly where it is so, and
// no table is changed.
#![tactic(auto)]

ghost use Rattle.std.specs.Prelude.{◌≡◌, true, ℕ, ◌+◌, ◌≤◌, ◌<◌, length, get_or};
ghost use Rattle.std.proofs.Math.Option.{none};
ghost use Rattle.kit.specs.Lists.{between};
ghost use Rattle.law.specs.Sizes.{most_players, most_rounds, most_accelerations, most_points, is_start, is_rank};
ghost use Rattle.law.specs.Accelerations.{is_acceleration};
ghost use Rattle.law.specs.Lawful.{no_acceleration};
ghost use Rattle.law.specs.Tables.{kept_cells, entry_cells, cell_of};
ghost use Rattle.join.specs.Store.{place_of};
ghost use Rattle.index.specs.Index.{IndexOf, Indexed};
ghost use Rattle.texts.specs.Kept.{Told};
ghost use Rattle.readings.specs.Good.{Unused, UnusedCells};
ghost use Rattle.held.specs.Rows.{HasKept, unused_from, UnusedRow};
ghost use Rattle.held.specs.Runs.{Anywhere, Every};

use index::START_CELLS;
use types::{
    Acceleration, MOST_ACCELERATIONS, MOST_PLAYERS, MOST_POINTS, MOST_RANK, MOST_ROUNDS,
    MOST_START, Place,
};

// What a cell of a table holds: a number, a letter or a record. An unused one holds zero.
pub trait Cell: Copy {
    ghost zero: { Self };

    // Whether it is zero.
    fn is_zero(self) -> bool
        ensures { Told (self ≡ zero) result };
}

impl Cell for u32 {
    ghost zero = { 0 };

    fn is_zero(self) -> bool {
        self == 0
    }
}

impl Cell for u8 {
    ghost zero = { 0 };

    fn is_zero(self) -> bool {
        self == 0
    }
}

impl Cell for Acceleration {
    ghost zero = { no_acceleration };

    // Field by field: the struct is C's, and has no comparison.
    fn is_zero(self) -> bool {
        (self.points == 0)
            & ((self.first_round == 0)
                & ((self.last_round == 0) & ((self.first_start == 0) & (self.last_start == 0))))
    }
}

// Whether each of the numbers from one up to another passes a test. The loop has no exit of its own, so that it can be compiled to take many cells at a time.
fn every<F: Fn(usize) -> bool>(from: usize, to: usize, passes: F) -> bool
    requires { Anywhere (F.pre passes) from to }
    ensures { Every (F.post passes) from to result }
{
    let mut good = true;
    for i in from..to {
        good &= passes(i);
    }
    good
}

// Whether a cell holds zero.
fn is_unused<T: Cell>(t: &[T], i: usize) -> bool
    requires { i < length t.now }
    ensures { Told (get_or t.now i T.zero ≡ T.zero) result }
{
    t[i].is_zero()
}

// Whether the cells from one up to another hold zero.
pub fn cells_unused<T: Cell>(t: &[T], from: usize, to: usize) -> bool
    requires { to ≤ length t.now }
    ensures { Told (Unused T.zero from to t.now) result }
{
    every(from, to, |i| is_unused(t, i))
}

// Whether the first n numbers lie between two others.
fn numbers_within(t: &[u32], n: usize, least: u32, most: u32) -> bool
    requires { n ≤ length t.now }
    ensures { Told ((i : ℕ) → i < n → between least most (get_or t.now i 0) ≡ true) result }
{
    every(0, n, |i| (least <= t[i]) & (t[i] <= most))
}

// Whether the first n players have start numbers, points and ranks within their ranges.
pub fn starts_are(starts: &[u32], n: usize) -> bool
    requires { n ≤ length starts.now }
    ensures { Told ((p : ℕ) → p < n → is_start (get_or starts.now p 0) ≡ true) result }
{
    numbers_within(starts, n, 1, MOST_START)
}

pub fn points_are(points: &[u32], n: usize) -> bool
    requires { n ≤ length points.now }
    ensures { Told ((p : ℕ) → p < n → get_or points.now p 0 ≤ most_points) result }
{
    numbers_within(points, n, 0, MOST_POINTS)
}

pub fn ranks_are(ranks: &[u32], n: usize) -> bool
    requires { n ≤ length ranks.now }
    ensures { Told ((p : ℕ) → p < n → is_rank (get_or ranks.now p 0) ≡ true) result }
{
    numbers_within(ranks, n, 1, MOST_RANK)
}

// From which round on, counted from 0, a place's cells are unused: past the rounds of a player, all of a place that no player has.
fn unused_from(place: Place, players: usize, rounds: u32) -> usize
    ensures { result ≡ unused_from players rounds place.0 }
{
    if (place.0 as usize) < players {
        rounds as usize
    } else {
        0
    }
}

// Whether the cell of a place and a round, counted from 0, holds zero.
fn entry_unused<T: Cell>(t: &[T], place: Place, j: usize) -> bool
    requires { (place.0 < most_players) × (j < most_rounds) × (entry_cells ≤ length t.now) }
    ensures { Told (get_or t.now (cell_of place.0 (j + 1)) T.zero ≡ T.zero) result }
{
    is_unused(t, tables::cell_of(place, j as u32 + 1))
}

// Whether the unused cells of a place in an entry table hold zero.
fn row_unused<T: Cell>(t: &[T], place: Place, players: usize, rounds: u32) -> bool
    requires { (place.0 < most_players) × (entry_cells ≤ length t.now) }
    ensures { Told (UnusedRow T.zero t.now place.0 (unused_from players rounds place.0)) result }
{
    let from = unused_from(place, players, rounds);
    every(from, MOST_ROUNDS, |j| entry_unused(t, place, j))
}

// Whether the unused cells of an entry table hold zero.
pub fn entries_unused<T: Cell>(t: &[T], players: usize, rounds: u32) -> bool
    requires { (players ≤ most_players) × (rounds ≤ most_rounds) × (entry_cells ≤ length t.now) }
    ensures { Told (UnusedCells T.zero players rounds t.now) result }
{
    every(
        0,
        MOST_PLAYERS,
        |p| row_unused(t, Place(p as u32), players, rounds),
    )
}

// Whether the first n records are 250 records.
pub fn accelerations_are(records: &[Acceleration; MOST_ACCELERATIONS], n: usize) -> bool
    requires { n ≤ most_accelerations }
    ensures { Told ((j : ℕ) → j < n → is_acceleration (get_or records.now j no_acceleration) ≡ true) result }
{
    every(0, n, |j| records::is_acceleration(records[j]))
}

// Whether a place has a player's kept columns.
fn has_kept(kept: &[u8], place: Place) -> bool
    requires place { place.0 < most_players }
    requires long { kept_cells ≤ length kept.now }
    ensures { Told (HasKept kept.now place.0) result }
{
    let columns = tables::kept_at(kept, place);
    lines::all_allowed(&columns) && kept_columns::is_kept(columns)
}

// Whether the first n players have kept columns.
pub fn kept_are(kept: &[u8], n: usize) -> bool
    requires players { n ≤ most_players }
    requires long { kept_cells ≤ length kept.now }
    ensures { Told ((p : ℕ) → p < n → HasKept kept.now p) result }
{
    every(0, n, |p| has_kept(kept, Place(p as u32)))
}

// Whether the first n start numbers differ. The index comes in as that of no player; if they do, it is theirs.
pub fn starts_differ(starts: &[u32], n: usize, index: &mut [u8; START_CELLS]) -> bool
    requires players { n ≤ most_players }
    requires long { n ≤ length starts.now }
    requires starts { (p : ℕ) → p < n → is_start (get_or starts.now p 0) ≡ true }
    requires empty { IndexOf starts.now 0 index.old }
    ensures told { Told ((p : ℕ) → p < n → place_of starts.now p (get_or starts.now p 0) ≡ none) result }
    ensures theirs { result ≡ true → Indexed starts.now n index.new }
{
    for p in 0..n {
        let place = Place(p as u32);
        let start = tables::start_at(starts, place);
        if index::place_of(index, start).is_some() {
            return false;
        }
        index::index_start(index, start, place);
    }
    true
}
