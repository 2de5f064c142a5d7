// The four counts that must not be taken for one another, why a call refuses, what the public calls answer, and the sizes that the box carries, each named here once. An acceptance has 0
// in number, line and round, a refusal 0 in everything else.
#![tactic(auto)]

ghost use Rattle.std.specs.Prelude.{◌≡◌};
ghost use Rattle.types.specs.Faults.{number_of, nowhere};

// A player's number in the event, 1 to 9999: what an entry names its opponent by.
#[repr(C)]
#[derive(Clone, Copy)]
pub struct StartNumber(pub u32);

// A player's place in the tables, from 0.
#[repr(C)]
#[derive(Clone, Copy)]
pub struct Place(pub u32);

// A player's rank, 1 to 9999.
#[repr(C)]
#[derive(Clone, Copy)]
pub struct Rank(pub u32);

// A line of the file, from 1; 0 where a refusal has no line.
#[repr(C)]
#[derive(Clone, Copy)]
pub struct LineNumber(pub u32);

// Why a call refuses what it is given: document 01's refusals, by their numbers there.
#[derive(Clone, Copy)]
pub enum Fault {
    TableShort = 1,
    FileBig = 2,
    BadByte = 3,
    NoCr = 4,
    LineLong = 5,
    Unlisted = 6,
    BadField = 7,
    Again = 8,
    TooMany = 9,
    Incomplete = 10,
    PastRounds = 11,
    NoEntry = 12,
    NotMutual = 13,
    Misfit = 14,
    SecondU = 15,
    WrongSum = 16,
    Overlap = 17,
    NoReading = 18,
    OutShort = 19,
    NoPlace = 20,
}

impl Fault {
    // Document 01's number.
    pub fn number(self) -> u32
        ensures { result ≡ number_of self }
    {
        self as u32
    }
}

// A refusal: why, and where; line and round are 0 where there is none.
#[derive(Clone, Copy)]
pub struct Refusal {
    pub fault: Fault,
    pub line: LineNumber,
    pub round: u32,
}

// A refusal of a whole call or file, which has no line and no round.
impl From<Fault> for Refusal {
    ghost from_gives = { λ fault refusal. refusal ≡ nowhere fault };

    fn from(fault: Fault) -> Refusal {
        Refusal {
            fault,
            line: LineNumber(0),
            round: 0,
        }
    }
}

// One 250 record: points in tenths for the start numbers and rounds from first to last.
#[repr(C)]
#[derive(Clone, Copy)]
pub struct Acceleration {
    pub points: u32,
    pub first_round: u32,
    pub last_round: u32,
    pub first_start: u32,
    pub last_start: u32,
}

// What a reading answers: the refusal (0 if none, since C has no Option), or the counts, the bytes of kept text, the initial colour (0 if none) and the values of W D L A P X in tenths.
#[repr(C)]
#[derive(Clone, Copy)]
pub struct Answer {
    pub number: u32,
    pub line: LineNumber,
    pub round: u32,
    pub players: u32,
    pub rounds: u32,
    pub accelerations: u32,
    pub text: usize,
    pub colour: u8,
    pub values: [u32; VALUES],
}

// What a writing answers: the refusal, or the bytes written.
#[repr(C)]
#[derive(Clone, Copy)]
pub struct Written {
    pub number: u32,
    pub line: LineNumber,
    pub round: u32,
    pub length: usize,
}

// What a question answers: the refusal, or the sum earned in earlier rounds and the acceleration for the round, in tenths.
#[repr(C)]
#[derive(Clone, Copy)]
pub struct Score {
    pub number: u32,
    pub line: LineNumber,
    pub round: u32,
    pub points: u32,
    pub acceleration: u32,
}

// What the box carries at most: bytes of a file, bytes of a line without its terminator, players, rounds, acceleration records, bytes of kept text.
pub const MOST_FILE: usize = 65535;

pub const MOST_LINE: usize = 512;

pub const MOST_PLAYERS: usize = 200;

pub const MOST_ROUNDS: usize = 20;

pub const MOST_ACCELERATIONS: usize = 32;

pub const MOST_TEXT: usize = 2048;

// The highest numbers of a player: points in tenths, start number, rank.
pub const MOST_POINTS: u32 = 999;

pub const MOST_START: u32 = 9999;

pub const MOST_RANK: u32 = 9999;

// The scoring values, one for each of W D L A P X, and where each stands among them.
pub const VALUES: usize = 6;

pub const WIN: usize = 0;

pub const DRAW: usize = 1;

pub const LOSS: usize = 2;

pub const ABSENT: usize = 3;

pub const PAIRING: usize = 4;

pub const UNKNOWN: usize = 5;

// The columns of a player's line that are kept.
pub const KEPT_COLUMNS: usize = 70;

// The cells of the lent tables that have more than one a player: entries, kept columns, line numbers.
pub const ENTRIES: usize = MOST_PLAYERS * MOST_ROUNDS;

pub const KEPT: usize = MOST_PLAYERS * KEPT_COLUMNS;

pub const LINES: usize = MOST_PLAYERS + MOST_ACCELERATIONS;

// The bytes that end a line.
pub const CR: u8 = 13;

pub const LF: u8 = 10;

// How the writer ends the lines, as a call says it.
pub const CR_LF: bool = false;

pub const CR_ALONE: bool = true;

// No acceleration record.
pub const NO_ACCELERATION: Acceleration = Acceleration {
    points: 0,
    first_round: 0,
    last_round: 0,
    first_start: 0,
    last_start: 0,
};
