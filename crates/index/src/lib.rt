// The index of start numbers: a cell for each number, which says whose it is; and the entries of some players with it, which most checks look at. Promised: a look-up answers what join's search through
// the start numbers answers, and one player more in the index is one cell changed.
#![tactic(auto)]

ghost use Rattle.std.specs.Prelude.{◌≡◌, List, ℕ, ◌+◌, ◌≤◌, ◌<◌, length, get_or, set};
ghost use Rattle.law.specs.Sizes.{most_players, most_rounds, most_start};
ghost use Rattle.law.specs.Tables.{entry_cells, cell_of};
ghost use Rattle.join.specs.Store.{place_of};
ghost use Rattle.index.specs.Index.{IndexOf, LowStarts, Indexed, as_placed};

use types::{MOST_START, Place, StartNumber};

// The index of the start numbers has a cell for each: the place of its player plus one, or 0.
pub const START_CELLS: usize = MOST_START as usize + 1;

// The entries of some players up to a round, and the index of these players' start numbers: the tables that the four laws look at, each long enough.
#[derive(Clone, Copy)]
pub struct Entries<'t, 'i> {
    pub starts: &'t [u32],
    pub opponents: &'t [u32],
    pub colours: &'t [u8],
    pub results: &'t [u8],
    pub index: &'i [u8; START_CELLS],
    pub players: usize,
    pub rounds: u32,
    pub ghost starts_long: { most_players ≤ length starts.now },
    pub ghost opponents_long: { entry_cells ≤ length opponents.now },
    pub ghost colours_long: { entry_cells ≤ length colours.now },
    pub ghost results_long: { entry_cells ≤ length results.now },
    pub ghost indexed: { Indexed starts.now players index.now },
}

impl Entries<'_, '_> {
    // What a player has: the start number, and in a round the opponent's, the colour and the result.
    pub fn start_at(&self, place: Place) -> StartNumber
        requires { place.0 < most_players }
        ensures { result.0 ≡ get_or self.now.starts.now place.0 0 }
    {
        tables::start_at(self.starts, place)
    }

    pub fn opponent_at(&self, place: Place, round: u32) -> StartNumber
        requires place { place.0 < most_players }
        requires first { 1 ≤ round }
        requires last { round ≤ most_rounds }
        ensures { result.0 ≡ get_or self.now.opponents.now (cell_of place.0 round) 0 }
    {
        tables::opponent_at(self.opponents, place, round)
    }

    pub fn colour_at(&self, place: Place, round: u32) -> u8
        requires place { place.0 < most_players }
        requires first { 1 ≤ round }
        requires last { round ≤ most_rounds }
        ensures { result ≡ get_or self.now.colours.now (cell_of place.0 round) 0 }
    {
        tables::letter_at(self.colours, place, round)
    }

    pub fn result_at(&self, place: Place, round: u32) -> u8
        requires place { place.0 < most_players }
        requires first { 1 ≤ round }
        requires last { round ≤ most_rounds }
        ensures { result ≡ get_or self.now.results.now (cell_of place.0 round) 0 }
    {
        tables::letter_at(self.results, place, round)
    }
}

// One player more in the index.
pub fn index_start(index: &mut [u8; START_CELLS], start: StartNumber, place: Place)
    requires { (start.0 ≤ most_start) × (place.0 < most_players) }
    ensures { index.new ≡ set index.old start.0 (place.0 + 1) }
{
    let i = start.0 as usize;
    index[i] = (place.0 + 1) as u8;
}

// The player with a start number, by the index. No player has a number that the index has no cell for.
pub fn place_of(index: &[u8; START_CELLS], start: StartNumber) -> Option<Place>
    ensures { (starts : List ℕ) (n : ℕ) → IndexOf starts n index.now → LowStarts starts n → result ≡ as_placed (place_of starts n start.0) }
{
    let id = start.0;
    if MOST_START < id {
        return None;
    }
    let place = u32::from(index[id as usize]);
    if place == 0 {
        return None;
    }
    Some(Place(place - 1))
}
