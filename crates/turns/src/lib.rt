// Turns: a search looks at the entries player by player and each round by round. Here are the place and the round of a turn. What a search finds is a turn or a record, or None. Promised:
// the order is join's.
#![tactic(auto)]

ghost use Rattle.std.specs.Prelude.{◌≡◌, ◌<◌};
ghost use Rattle.law.specs.Tables.{entry_cells};
ghost use Rattle.join.specs.Check.{place_at, round_at};

use types::{MOST_ROUNDS, Place};

// A turn of a search, from 0. It is no place, and which cell it looks at tables alone knows.
#[derive(Clone, Copy)]
pub struct Turn(pub usize);

// An acceleration record's number in file order, from 0.
#[derive(Clone, Copy)]
pub struct RecordNumber(pub usize);

impl Turn {
    // The place and the round of a turn.
    pub fn place(self) -> Place
        requires { self.0 < entry_cells }
        ensures { result.0 ≡ place_at self.0 }
    {
        Place((self.0 / MOST_ROUNDS) as u32)
    }

    pub fn round(self) -> u32
        ensures { result ≡ round_at self.0 }
    {
        (self.0 % MOST_ROUNDS) as u32 + 1
    }
}
