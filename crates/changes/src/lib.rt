// Changes to a reading, for the test program of the writer and the question: a cell of a part, or the text.
#![tactic(auto)]

use drafts::{Lent, Tables};
use types::{Acceleration, Answer, LineNumber, MOST_ACCELERATIONS, Place};

// The parts of a reading: the lent tables in the order of the parameters, the fields of the acceleration records, and those of the answer.
#[derive(Clone, Copy, PartialEq)]
pub enum Part {
    Starts,
    Points,
    Ranks,
    Kept,
    Opponents,
    Colours,
    Results,
    Text,
    Records,
    RecordPoints,
    FirstRound,
    LastRound,
    FirstStart,
    LastStart,
    Number,
    Line,
    Round,
    Players,
    Rounds,
    Accelerations,
    TextLength,
    Colour,
    Values,
}

impl Part {
    // The part that rows name by a number from 1 on; 0 is no part's. `rooms` numbers them otherwise in its rows.
    fn from_number(n: u32) -> Option<Part> {
        let part = match n {
            1 => Part::Starts,
            2 => Part::Points,
            3 => Part::Ranks,
            4 => Part::Kept,
            5 => Part::Opponents,
            6 => Part::Colours,
            7 => Part::Results,
            8 => Part::Text,
            9 => Part::Records,
            10 => Part::RecordPoints,
            11 => Part::FirstRound,
            12 => Part::LastRound,
            13 => Part::FirstStart,
            14 => Part::LastStart,
            15 => Part::Number,
            16 => Part::Line,
            17 => Part::Round,
            18 => Part::Players,
            19 => Part::Rounds,
            20 => Part::Accelerations,
            21 => Part::TextLength,
            22 => Part::Colour,
            23 => Part::Values,
            _ => return None,
        };
        Some(part)
    }
}

// What is changed: a cell of a part, to a value. A field has no cells.
#[derive(Clone, Copy)]
pub struct Change {
    pub part: Part,
    pub cell: usize,
    pub value: u32,
}

// What is changed in a reading, if anything is; which table is lent one cell short; how much output; the place and round asked about; and the row's last part,
// its name.
#[derive(Clone, Copy)]
pub struct Case<'a> {
    pub change: Option<Change>,
    pub short: Option<Part>,
    pub room: usize,
    pub place: Place,
    pub round: u32,
    pub name: &'a [u8],
}

impl Case<'_> {
    // The row `!PART CELL VALUE SHORT ROOM PLACE ROUND NAME`, from PART on.
    pub fn of_row(row: &[u8]) -> Case {
        let (part, row) = drafts::number(row);
        let (cell, row) = drafts::number(row);
        let (value, row) = drafts::number(row);
        let (short, row) = drafts::number(row);
        let (room, row) = drafts::number(row);
        let (place, row) = drafts::number(row);
        let (round, row) = drafts::number(row);
        let change = Part::from_number(part).map(|part| Change {
            part,
            cell: cell as usize,
            value,
        });
        Case {
            change,
            short: Part::from_number(short),
            room: room as usize,
            place: Place(place),
            round,
            name: drafts::without_blanks(row),
        }
    }

    // How much of a table is lent.
    pub fn lent(&self, part: Part) -> Lent {
        if self.short == Some(part) {
            Lent::Short
        } else {
            Lent::Longer
        }
    }
}

// A cell to a value, if there is such a cell.
fn put<T: Copy>(cells: &mut [T], cell: usize, value: T) {
    if let Some(place) = cells.get_mut(cell) {
        *place = value;
    }
}

// Other bytes in the text table, zeros after them, and their number in the answer. No bytes: the text stays.
pub fn replace_text(tables: &mut Tables, answer: &mut Answer, bytes: &[u8]) {
    if bytes.is_empty() {
        return;
    }
    let n = bytes.len().min(drafts::TEXT);
    tables.text[..n].copy_from_slice(&bytes[..n]);
    tables.text[n..].fill(0);
    answer.text = bytes.len();
}

impl Change {
    // The change, if it is one of a table.
    pub fn apply_to_tables(self, tables: &mut Tables) {
        let cell = self.cell;
        let number = self.value;
        let byte = drafts::low_byte(number);
        match self.part {
            Part::Starts => put(&mut tables.starts, cell, number),
            Part::Points => put(&mut tables.points, cell, number),
            Part::Ranks => put(&mut tables.ranks, cell, number),
            Part::Kept => put(&mut tables.kept, cell, byte),
            Part::Opponents => put(&mut tables.opponents, cell, number),
            Part::Colours => put(&mut tables.colours, cell, byte),
            Part::Results => put(&mut tables.results, cell, byte),
            Part::Text => put(&mut tables.text, cell, byte),
            _ => {}
        }
    }

    // The change, if it is one of a record's fields.
    fn apply_to_record(self, record: &mut Acceleration) {
        match self.part {
            Part::RecordPoints => record.points = self.value,
            Part::FirstRound => record.first_round = self.value,
            Part::LastRound => record.last_round = self.value,
            Part::FirstStart => record.first_start = self.value,
            Part::LastStart => record.last_start = self.value,
            _ => {}
        }
    }

    // The change of the record that has the cell's number, from 0.
    pub fn apply_to_records(self, records: &mut [Acceleration; MOST_ACCELERATIONS]) {
        if let Some(record) = records.get_mut(self.cell) {
            self.apply_to_record(record);
        }
    }

    // The change, if it is one of the answer.
    pub fn apply_to_answer(self, answer: &mut Answer) {
        match self.part {
            Part::Number => answer.number = self.value,
            Part::Line => answer.line = LineNumber(self.value),
            Part::Round => answer.round = self.value,
            Part::Players => answer.players = self.value,
            Part::Rounds => answer.rounds = self.value,
            Part::Accelerations => answer.accelerations = self.value,
            Part::TextLength => answer.text = self.value as usize,
            Part::Colour => answer.colour = drafts::low_byte(self.value),
            Part::Values => put(&mut answer.values, self.cell, self.value),
            _ => {}
        }
    }
}
