// What a result byte is: the results of games and of byes and the unknown one, which two are those of one game, and what each earns. docs/RESULTS.md shows the grid and the worths of this
// file. The tables are made once, as structs, and lent for all entries: a constant array that is read in a loop would be made anew at each turn. Promised: what the statement says of each byte.
#![tactic(auto)]

mod lent;

ghost use Rattle.std.specs.Prelude.{◌≡◌, List, ℕ};
ghost use Rattle.kit.specs.Lists.{among};
ghost use Rattle.law.specs.Players.{bye_results, held_game_results};
ghost use Rattle.law.specs.Entries as entries;
ghost use Rattle.join.specs.Check.{worth_by};
ghost use Rattle.results.specs.Order.{known_results, IsGrid, IsOrder, AreWorths, is_allocated, is_unknown};

pub use lent::{Grid, Worths};
use types::{ABSENT, DRAW, LOSS, PAIRING, UNKNOWN, VALUES, WIN};

// The order of results: the eight of games, then those of byes, then the unknown one.
pub const GAMES: usize = 8;

const RESULTS: usize = 13;

// A worth for each of them, and after these one for every other byte.
pub const WORTHS: usize = RESULTS + 1;

// A cell for each byte.
pub const BYTES: usize = 256;

// The place of a byte that is no result: past the last.
const NOWHERE: u8 = RESULTS as u8;

// What a blank result stands for where there is no opponent.
pub const BLANK_BYE: u8 = b'Z';

// And beside one: a game whose result is not known yet. A line has a blank for it and never this byte.
pub const UNKNOWN_RESULT: u8 = b'?';

// Fits or not, in one letter each, so that rows and columns stand under one another.
const Y: bool = true;

const N: bool = false;

// Whether two results are those of one game: own result down, the opponent's across.
const FITS: [[bool; GAMES]; GAMES] = [
    //1 =  0  W  D  L  +  -
    [N, N, Y, N, N, N, N, N], // 1
    [N, Y, Y, N, N, N, N, N], // =
    [Y, Y, Y, N, N, N, N, N], // 0
    [N, N, N, N, N, Y, N, N], // W
    [N, N, N, N, Y, N, N, N], // D
    [N, N, N, Y, N, N, N, N], // L
    [N, N, N, N, N, N, N, Y], // +
    [N, N, N, N, N, N, Y, Y], // -
];

// The place of each byte in the order of results.
fn order() -> [u8; BYTES]
    ensures { IsOrder result }
{
    let mut cells = [NOWHERE; BYTES];
    cells[b'1' as usize] = 0;
    cells[b'=' as usize] = 1;
    cells[b'0' as usize] = 2;
    cells[b'W' as usize] = 3;
    cells[b'D' as usize] = 4;
    cells[b'L' as usize] = 5;
    cells[b'+' as usize] = 6;
    cells[b'-' as usize] = 7;
    cells[b'H' as usize] = 8;
    cells[b'F' as usize] = 9;
    cells[b'U' as usize] = 10;
    cells[b'Z' as usize] = 11;
    cells[UNKNOWN_RESULT as usize] = 12;
    cells
}

impl Grid {
    // The grid of this file.
    pub fn new() -> Grid {
        Grid {
            cells: FITS,
            order: order(),
        }
    }

    // Whether two results are those of one game. An unknown one stands beside the grid: it fits only another.
    pub fn fits(&self, a: u8, b: u8) -> bool
        ensures { result ≡ entries.fits a b }
    {
        let own = self.order[a as usize] as usize;
        if GAMES <= own {
            return (a == UNKNOWN_RESULT) & (b == UNKNOWN_RESULT);
        }
        let theirs = self.order[b as usize] as usize;
        if GAMES <= theirs {
            return false;
        }
        self.cells[own][theirs]
    }
}

// What each result earns by the values of W D L A P X, at its place, and after them what any other byte does.
fn worths(values: [u32; VALUES]) -> [u32; WORTHS]
    ensures { AreWorths values result }
{
    let win = values[WIN];
    let draw = values[DRAW];
    let loss = values[LOSS];
    let absent = values[ABSENT];
    let pairing = values[PAIRING];
    let unknown = values[UNKNOWN];
    [
        win, // 1
        draw, // =
        loss, // 0
        win, // W
        draw, // D
        loss, // L
        win, // +
        absent, // -
        draw, // H
        win, // F
        pairing, // U
        absent, // Z
        unknown, // ?
        0,
    ]
}

impl Worths {
    // By the values of W D L A P X.
    pub fn new(values: [u32; VALUES]) -> Worths
        ensures { result.values ≡ values }
    {
        Worths {
            values,
            cells: worths(values),
            order: order(),
        }
    }

    // What a result earns.
    pub fn of(&self, res: u8) -> u32
        ensures { result ≡ worth_by self.now.values res }
    {
        let place = self.order[res as usize] as usize;
        self.cells[place]
    }
}

// The letters once more, as tests: asked where no table is lent. A game of a reading has one of the eight, or the unknown result.
pub fn is_held_game_result(res: u8) -> bool
    ensures { result ≡ among res held_game_results }
{
    (res == UNKNOWN_RESULT)
        | (res == b'1')
        | (res == b'=')
        | (res == b'0')
        | (res == b'W')
        | (res == b'D')
        | (res == b'L')
        | (res == b'+')
        | (res == b'-')
}

pub fn is_bye_result(res: u8) -> bool
    ensures { result ≡ among res bye_results }
{
    (res == b'H') | (res == b'F') | (res == b'U') | (res == b'Z')
}

// Whether a bye is the one that the pairing allocates, of which a round has at most one.
pub fn is_allocated(res: u8) -> bool
    ensures { result ≡ is_allocated res }
{
    res == b'U'
}

pub fn is_unknown(res: u8) -> bool
    ensures { result ≡ is_unknown res }
{
    res == UNKNOWN_RESULT
}

// Whether a byte is a result of a game or of a bye, as a capital. 0 has an arm of its own: in one arm with 1 the two would be tested as a run, apart from the other
// bytes.
pub fn is_result(c: u8) -> bool
    ensures { result ≡ among c known_results }
{
    match c {
        b'0' => true,
        b'1' | b'=' | b'W' | b'D' | b'L' | b'+' | b'-' | b'H' | b'F' | b'U' | b'Z' => true,
        _ => false,
    }
}
