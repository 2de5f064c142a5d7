// Room for the tables that a reading fills, of the listed sizes.
ghost use Rattle.std.specs.Prelude.{◌≡◌, []};
ghost use Rattle.law.specs.Sizes.{most_accelerations};
ghost use Rattle.join.specs.Kept.{Long};
ghost use Rattle.tables.specs.Lent.{eight_of};
ghost use Rattle.reader.specs.Core.{CoreReads};
ghost use Rattle.listed.specs.Room.{nine_in};

use lines_read::CoreAnswer;
use tables::Tables;
use types::{ENTRIES, KEPT, LINES, MOST_ACCELERATIONS, MOST_PLAYERS, MOST_TEXT};

#[derive(Drop)]
pub struct Room {
    pub starts: [u32; MOST_PLAYERS],
    pub points: [u32; MOST_PLAYERS],
    pub ranks: [u32; MOST_PLAYERS],
    pub kept: [u8; KEPT],
    pub opponents: [u32; ENTRIES],
    pub colours: [u8; ENTRIES],
    pub results: [u8; ENTRIES],
    pub text: [u8; MOST_TEXT],
    pub lines: [u32; LINES],
}

impl Room {
    pub fn new() -> Room
        ensures { Long (nine_in result) }
    {
        Room {
            starts: [0; MOST_PLAYERS],
            points: [0; MOST_PLAYERS],
            ranks: [0; MOST_PLAYERS],
            kept: [0; KEPT],
            opponents: [0; ENTRIES],
            colours: [0; ENTRIES],
            results: [0; ENTRIES],
            text: [0; MOST_TEXT],
            lines: [0; LINES],
        }
    }

    // A file, read into the tables.
    pub fn read(&mut self, file: &[u8]) -> CoreAnswer
        ensures { CoreReads file.now (nine_in self.old) most_accelerations result (nine_in self.new) }
    {
        reader::read_core(
            file,
            &mut self.starts,
            &mut self.points,
            &mut self.ranks,
            &mut self.kept,
            &mut self.opponents,
            &mut self.colours,
            &mut self.results,
            &mut self.text,
            &mut self.lines,
            MOST_ACCELERATIONS,
        )
    }

    // The tables, to be read.
    pub fn tables(&self) -> Tables<'_>
        ensures { eight_of result ≡ record (nine_in self.now) { lines = [] } }
    {
        Tables {
            starts: &self.starts,
            points: &self.points,
            ranks: &self.ranks,
            kept: &self.kept,
            opponents: &self.opponents,
            colours: &self.colours,
            results: &self.results,
            text: &self.text,
        }
    }
}
