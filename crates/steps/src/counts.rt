// What is kept beside the tables while a file is read.
use scorings::Scoring;
use types::{Acceleration, MOST_ACCELERATIONS};

// How many codes there are of kept text, and the place of the one that may stand more than once.
pub const TEXT_CODES: usize = 16;

pub const REPEATED: usize = 9;

// How many players, acceleration records and bytes of text there are, the records, which text codes stood, and what 142, 152 and 162 said. The colour is 0
// where there is none, as in the answer that C is given; the records are as many as there can be, since there is no heap.
#[derive(Clone, Copy)]
pub struct Counts {
    pub players: usize,
    pub accelerations: usize,
    pub text: usize,
    pub records: [Acceleration; MOST_ACCELERATIONS],
    pub seen: [bool; TEXT_CODES],
    pub rounds: Option<u32>,
    pub colour: u8,
    pub scoring: Option<Scoring>,
}
