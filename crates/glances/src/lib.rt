// One look at each entry: whether all of them keep the four laws, and whether none is past the rounds that there are. Most files are so, and then no search
// for the first that is not is needed. Promised: a yes is right; after a no the searches of closings and checks tell what is wrong, and where.
#![tactic(auto)]

ghost use Rattle.std.specs.Prelude.{◌≡◌, true, ◌*◌, ◌≤◌, ◌<◌, length, get_or};
ghost use Rattle.std.proofs.Math.Option.{none};
ghost use Rattle.law.specs.Sizes.{most_players, most_rounds};
ghost use Rattle.law.specs.Entries.{Law};
ghost use Rattle.law.specs.Tables.{entry_cells};
ghost use Rattle.join.specs.Grid.{first_from};
ghost use Rattle.join.specs.Check.{past_cell, broken_cell};
ghost use Rattle.checks.specs.Laws.{four_of};
ghost use Rattle.glances.specs.Glance.{Opposite, KeepsEntry, KeepsRow, KeepsRows, Noted, OnceU, BlankRow};

use index::Entries;
use results::Grid;
use types::{MOST_ROUNDS, Place, StartNumber};

// Whether two colours are those of one game.
fn are_opposite(colour: u8, theirs: u8) -> bool
    ensures { result ≡ true → Opposite colour theirs }
{
    match colour {
        b'w' => theirs == b'b',
        b'b' => theirs == b'w',
        _ => false,
    }
}

// Whether an entry is a bye or a game, and a game mutual with results that fit. start: the player's own, read once for all rounds.
fn keeps_entry(
    entries: &Entries<'_, '_>,
    grid: &Grid,
    place: Place,
    start: StartNumber,
    round: u32,
) -> bool
    requires place { place.0 < most_players }
    requires first { 1 ≤ round }
    requires last { round ≤ most_rounds }
    ensures { result ≡ true → get_or entries.now.starts.now place.0 0 ≡ start.0 → KeepsEntry entries.now.players (four_of entries.now) place.0 round }
{
    let id = entries.opponent_at(place, round);
    let colour = entries.colour_at(place, round);
    let result = entries.result_at(place, round);
    let Some(other) = checks::player_of(entries, id) else {
        return checks::is_bye(id, colour, result);
    };
    let named = entries.opponent_at(other, round);
    let mutual = (id.0 != start.0) & (named.0 == start.0);
    mutual
        && are_opposite(colour, entries.colour_at(other, round))
        && grid.fits(result, entries.result_at(other, round))
}

// Whether a player's entries do, up to a round.
fn keeps_row(entries: &Entries<'_, '_>, grid: &Grid, place: Place) -> bool
    requires place { place.0 < most_players }
    requires rounds { entries.now.rounds ≤ most_rounds }
    ensures { result ≡ true → KeepsRow entries.now.players (four_of entries.now) place.0 entries.now.rounds }
{
    let start = entries.start_at(place);
    (0..entries.rounds).all(|j| keeps_entry(entries, grid, place, start, j + 1))
}

// Whether those of all players do.
fn keeps_rows(entries: &Entries<'_, '_>, grid: &Grid) -> bool
    requires { entries.now.rounds ≤ most_rounds }
    ensures { result ≡ true → KeepsRows entries.now.players (four_of entries.now) entries.now.players entries.now.rounds }
{
    (0..entries.players).all(|p| keeps_row(entries, grid, Place(p as u32)))
}

// Notes the rounds in which a player has U. Whether an earlier player had it in one of them: no exit, so that many rounds are compared at a time.
fn note_u(results: &[u8], place: Place, seen: &mut [bool; MOST_ROUNDS]) -> bool
    requires place { place.0 < most_players }
    requires long { entry_cells ≤ length results.now }
    requires flags { length seen.old ≡ most_rounds }
    ensures { Noted results.now place.0 seen.old seen.new result }
{
    let mut again = false;
    for j in 0..MOST_ROUNDS {
        let here = results::is_allocated(tables::letter_at(results, place, j as u32 + 1));
        let earlier = seen[j];
        again = again | (here & earlier);
        seen[j] = earlier | here;
    }
    again
}

// Whether no two players have U in one round.
fn keeps_one_u(entries: &Entries<'_, '_>) -> bool
    ensures { result ≡ true → OnceU entries.now.results.now entries.now.players }
{
    let mut seen = [false; MOST_ROUNDS];
    for p in 0..entries.players {
        if note_u(entries.results, Place(p as u32), &mut seen) {
            return false;
        }
    }
    true
}

// Whether the colours of a place hold zero from a round on, counted from 0: no exit, so that many rounds are compared at a time.
fn is_row_blank(colours: &[u8], place: Place, from: u32) -> bool
    requires place { place.0 < most_players }
    requires long { entry_cells ≤ length colours.now }
    ensures { result ≡ true → BlankRow colours.now place.0 from }
{
    let mut good = true;
    for j in from as usize..MOST_ROUNDS {
        good = good & (tables::letter_at(colours, place, j as u32 + 1) == 0);
    }
    good
}

// Whether no cell of the players past the rounds that there are holds anything.
pub fn none_past(colours: &[u8], players: usize, rounds: u32) -> bool
    requires players { players ≤ most_players }
    requires long { entry_cells ≤ length colours.now }
    ensures { result ≡ true → first_from (past_cell rounds colours.now) 0 (players * most_rounds) ≡ none }
{
    (0..players).all(|p| is_row_blank(colours, Place(p as u32), rounds))
}

// Whether every entry of the players, up to a round, keeps the four laws.
pub fn all_lawful(entries: &Entries<'_, '_>) -> bool
    ensures { result ≡ true → (law : Law) → first_from (broken_cell law entries.now.players entries.now.rounds (four_of entries.now)) 0 (entries.now.players * most_rounds) ≡ none }
{
    if MOST_ROUNDS < entries.rounds as usize {
        return false;
    }
    keeps_rows(entries, &Grid::new()) && keeps_one_u(entries)
}
