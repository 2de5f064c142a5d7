// The tables of results that are lent to a look at all entries, with what is so of each of them.
ghost use Rattle.results.specs.Order.{IsGrid, IsOrder, AreWorths};

use crate::{BYTES, GAMES, WORTHS};
use types::VALUES;

// Which two results fit, and the place of each byte in that grid.
#[derive(Clone, Copy)]
pub struct Grid {
    pub cells: [[bool; GAMES]; GAMES],
    pub order: [u8; BYTES],
    pub ghost is_grid: { IsGrid cells },
    pub ghost is_order: { IsOrder order },
}

// What each result earns by some values, and the place of each byte among them.
#[derive(Clone, Copy)]
pub struct Worths {
    pub values: [u32; VALUES],
    pub cells: [u32; WORTHS],
    pub order: [u8; BYTES],
    pub ghost are_worths: { AreWorths values cells },
    pub ghost is_order: { IsOrder order },
}
