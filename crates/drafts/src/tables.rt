// The tables that a call is lent, each with cells past the listed size.
ghost use Rattle.std.specs.Prelude.{◌≤◌};

// The cells past each listed size.
const MORE: usize = 3;

pub const PLAYERS: usize = types::MOST_PLAYERS + MORE;

pub const KEPT: usize = types::KEPT + MORE;

pub const ENTRIES: usize = types::ENTRIES + MORE;

pub const TEXT: usize = types::MOST_TEXT + MORE;

pub const LINES: usize = types::LINES + MORE;

pub const RECORDS: usize = types::MOST_ACCELERATIONS + MORE;

#[derive(Drop)]
pub struct Tables {
    pub starts: [u32; PLAYERS],
    pub points: [u32; PLAYERS],
    pub ranks: [u32; PLAYERS],
    pub kept: [u8; KEPT],
    pub opponents: [u32; ENTRIES],
    pub colours: [u8; ENTRIES],
    pub results: [u8; ENTRIES],
    pub text: [u8; TEXT],
    pub lines: [u32; LINES],
}

impl Tables {
    // A byte's value in each cell.
    pub fn filled(byte: u8) -> Tables {
        let number = u32::from(byte);
        Tables {
            starts: [number; PLAYERS],
            points: [number; PLAYERS],
            ranks: [number; PLAYERS],
            kept: [byte; KEPT],
            opponents: [number; ENTRIES],
            colours: [byte; ENTRIES],
            results: [byte; ENTRIES],
            text: [byte; TEXT],
            lines: [number; LINES],
        }
    }
}

// How much of a table is lent: all of it, what is listed, or a cell less.
#[derive(Clone, Copy)]
pub enum Lent {
    Longer,
    Listed,
    Short,
}

impl Lent {
    pub fn cells(self, all: usize) -> usize
        ensures { result ≤ all }
    {
        match self {
            Lent::Longer => all,
            Lent::Listed => all.saturating_sub(MORE),
            Lent::Short => all.saturating_sub(MORE + 1),
        }
    }
}
