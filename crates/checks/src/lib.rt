// The four laws that each entry keeps, 12 to 15: the first entry that breaks one. Promised: what the pure definition of join says. A search is one loop over the
// turns, player by player and each round by round.
#![tactic(auto)]

ghost use Rattle.std.specs.Prelude.{◌≡◌, ℕ, ◌*◌, ◌≤◌, ◌<◌, IfSome};
ghost use Rattle.std.proofs.Math.Option.{Option};
ghost use Rattle.kit.specs.Lists.{among};
ghost use Rattle.law.specs.Sizes.{most_players, most_rounds};
ghost use Rattle.law.specs.Players.{game_colours};
ghost use Rattle.law.specs.Entries as entries;
ghost use Rattle.law.specs.Entries.{Law, bye-or-game, mutual_pairing, fitting_results, one_U};
ghost use Rattle.law.specs.Tables.{entry_cells};
ghost use Rattle.join.specs.Grid.{first_from};
ghost use Rattle.join.specs.Store.{place_of};
ghost use Rattle.join.specs.Check.{place_at, round_at, is_game_by, has_uat, keeps_cell, broken_cell};
ghost use Rattle.turns.specs.Found.{as_found_turn};
ghost use Rattle.index.specs.Index.{as_placed};
ghost use Rattle.checks.specs.Results.{entry};
ghost use Rattle.checks.specs.Laws.{as_law, fault_of, four_of, Anywhere, Tells};

use index::Entries;
use results::Grid;
use turns::Turn;
use types::{Fault, MOST_ROUNDS, Place, StartNumber};

// Whether an entry is a bye. id: the opponent's start number, 0 if there is none.
pub fn is_bye(id: StartNumber, colour: u8, res: u8) -> bool
    ensures { result ≡ entries.is_bye (entry id.0 colour res) }
{
    let of_bye = results::is_bye_result(res);
    (id.0 == 0) & (colour == b'-') & of_bye
}

// What is asked of each entry: a bye or a game, the opponent's entry names this player, the two results fit, one U a round.
#[derive(Clone, Copy)]
pub enum LawKind {
    ByeOrGame,
    Mutual,
    Fitting,
    OneU,
}

// Why an entry that breaks a law is refused.
impl From<LawKind> for Fault {
    ghost from_gives = { λ kind fault. fault ≡ fault_of kind };

    fn from(kind: LawKind) -> Fault {
        match kind {
            LawKind::ByeOrGame => Fault::NoEntry,
            LawKind::Mutual => Fault::NotMutual,
            LawKind::Fitting => Fault::Misfit,
            LawKind::OneU => Fault::SecondU,
        }
    }
}

fn is_game_colour(colour: u8) -> bool
    ensures { result ≡ among colour game_colours }
{
    (colour == b'w') | (colour == b'b')
}

// Whether an entry of the player with a start number is a game. opponent: whom its id names.
fn is_game(
    id: StartNumber,
    colour: u8,
    res: u8,
    start: StartNumber,
    opponent: Option<Place>,
) -> bool
    ensures { (o : Option ℕ) → opponent ≡ as_placed o → result ≡ is_game_by (entry id.0 colour res) start.0 o }
{
    let of_colour = is_game_colour(colour);
    let of_result = results::is_held_game_result(res);
    (id.0 != start.0) & opponent.is_some() & of_colour & of_result
}

// Who has a start number, of the players whose entries are looked at.
pub fn player_of(entries: &Entries<'_, '_>, id: StartNumber) -> Option<Place>
    ensures found { result ≡ as_placed (place_of entries.now.starts.now entries.now.players id.0) }
    ensures place { IfSome result (λ place. place.0 < most_players) }
{
    index::place_of(entries.index, id)
}

// Whether an entry is a bye or a game.
fn keeps_bye_or_game(entries: &Entries<'_, '_>, place: Place, round: u32) -> bool
    requires place { place.0 < most_players }
    requires first { 1 ≤ round }
    requires last { round ≤ most_rounds }
    ensures { result ≡ keeps_cell bye-or-game entries.now.players (four_of entries.now) place.0 round }
{
    let id = entries.opponent_at(place, round);
    let colour = entries.colour_at(place, round);
    let result = entries.result_at(place, round);
    let start = entries.start_at(place);
    is_bye(id, colour, result) || is_game(id, colour, result, start, player_of(entries, id))
}

// Whether the opponent's entry of that round names this player and has the other colour.
fn keeps_mutual(entries: &Entries<'_, '_>, place: Place, round: u32) -> bool
    requires place { place.0 < most_players }
    requires first { 1 ≤ round }
    requires last { round ≤ most_rounds }
    ensures { result ≡ keeps_cell mutual_pairing entries.now.players (four_of entries.now) place.0 round }
{
    let id = entries.opponent_at(place, round);
    let Some(other) = player_of(entries, id) else {
        return true;
    };
    let start = entries.start_at(place);
    let named = entries.opponent_at(other, round);
    let colour = entries.colour_at(place, round);
    let theirs = entries.colour_at(other, round);
    (named.0 == start.0) & (theirs != colour)
}

// Whether the result and the opponent's of that round fit. With `keeps_mutual` it shares the opponent's look-up alone.
fn keeps_fitting(entries: &Entries<'_, '_>, grid: &Grid, place: Place, round: u32) -> bool
    requires place { place.0 < most_players }
    requires first { 1 ≤ round }
    requires last { round ≤ most_rounds }
    ensures { result ≡ keeps_cell fitting_results entries.now.players (four_of entries.now) place.0 round }
{
    let id = entries.opponent_at(place, round);
    let Some(other) = player_of(entries, id) else {
        return true;
    };
    let result = entries.result_at(place, round);
    let theirs = entries.result_at(other, round);
    grid.fits(result, theirs)
}

// The first turn whose entry breaks a law. keeps: whether an entry keeps it, by the entry and its opponent's alone.
fn first_unkept<F: Fn(Place, u32) -> bool>(entries: &Entries<'_, '_>, keeps: F) -> Option<Turn>
    requires { Anywhere (F.pre keeps) }
    ensures { (law : Law) → Tells (F.post keeps) law entries.now.players (four_of entries.now) → result ≡ as_found_turn (first_from (broken_cell law entries.now.players entries.now.rounds (four_of entries.now)) 0 (entries.now.players * most_rounds)) }
{
    for k in 0..entries.players * MOST_ROUNDS {
        let turn = Turn(k);
        let round = turn.round();
        if round <= entries.rounds && !keeps(turn.place(), round) {
            return Some(turn);
        }
    }
    None
}

// Whether the result of a turn is U.
fn has_u(entries: &Entries<'_, '_>, turn: Turn) -> bool
    requires { turn.0 < entry_cells }
    ensures { result ≡ has_uat entries.now.results.now (place_at turn.0) (round_at turn.0) }
{
    results::is_allocated(entries.result_at(turn.place(), turn.round()))
}

// The first turn with a U in a round in which an earlier player has one: a flag for each round says whether one had.
fn first_second_u(entries: &Entries<'_, '_>) -> Option<Turn>
    ensures { result ≡ as_found_turn (first_from (broken_cell one_U entries.now.players entries.now.rounds (four_of entries.now)) 0 (entries.now.players * most_rounds)) }
{
    let mut seen = [false; MOST_ROUNDS];
    for k in 0..entries.players * MOST_ROUNDS {
        let turn = Turn(k);
        let here = has_u(entries, turn);
        let flag = k % MOST_ROUNDS;
        let earlier = seen[flag];
        if (turn.round() <= entries.rounds) & (here & earlier) {
            return Some(turn);
        }
        seen[flag] = earlier | here;
    }
    None
}

// The first turn, player by player and each round by round, whose entry breaks a law.
pub fn first_broken(kind: LawKind, entries: &Entries<'_, '_>) -> Option<Turn>
    ensures { result ≡ as_found_turn (first_from (broken_cell (as_law kind) entries.now.players entries.now.rounds (four_of entries.now)) 0 (entries.now.players * most_rounds)) }
{
    match kind {
        LawKind::ByeOrGame => {
            first_unkept(
                entries,
                |place, round| keeps_bye_or_game(entries, place, round),
            )
        }
        LawKind::Mutual => {
            first_unkept(entries, |place, round| keeps_mutual(entries, place, round))
        }
        LawKind::Fitting => {
            let grid = Grid::new();
            first_unkept(
                entries,
                |place, round| keeps_fitting(entries, &grid, place, round),
            )
        }
        LawKind::OneU => first_second_u(entries),
    }
}
