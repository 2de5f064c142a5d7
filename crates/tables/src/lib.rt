// The lent tables: whether they are long enough, clearing them, storing what a line says, and what stands at a place and a round. Nothing else makes an index of a place, and nothing else
// knows the order of the cells. Promised: what each lent cell holds afterwards, and what is read.
#![tactic(auto)]

mod lent;

ghost use Rattle.std.specs.Prelude.{◌≡◌, [], ◌∷◌, ◌+◌, ◌*◌, ◌≤◌, ◌<◌, leb, length, get_or, set, take, drop};
ghost use Rattle.std.proofs.Math.Seq.{paste};
ghost use Rattle.law.specs.Sizes.{most_players, most_rounds, most_accelerations, most_text};
ghost use Rattle.law.specs.Columns.{width};
ghost use Rattle.law.specs.Text.{ended};
ghost use Rattle.law.specs.Players.{kept_field};
ghost use Rattle.law.specs.Tables.{kept_cells, entry_cells, line_cells, cell_of, are_long};
ghost use Rattle.join.specs.Grid.{put_row};
ghost use Rattle.join.specs.Kept.{Zeroed};
ghost use Rattle.tables.specs.Lent.{nine_of, SameSettled, SameClosing, SameColumns, ShowsSettled, ShowsClosing, ShowsPlayers};

pub use lent::{
    Closing, ClosingMut, ColumnsMut, LineNumbers, PlayerTables, Settled, SettledMut, Tables,
};
use types::{
    CR, ENTRIES, KEPT, KEPT_COLUMNS, LINES, LineNumber, MOST_ACCELERATIONS, MOST_PLAYERS,
    MOST_ROUNDS, MOST_TEXT, Place, Rank, StartNumber,
};

// Whether tables of these lengths are long enough: those that every call is lent. The lengths come one by one, since C lends each table by itself and none may be
// looked at before.
pub fn enough(
    starts: usize,
    points: usize,
    ranks: usize,
    kept: usize,
    opponents: usize,
    colours: usize,
    results: usize,
    text: usize,
    accelerations: usize,
) -> bool
    ensures { result ≡ are_long ((most_players, starts) ∷ (most_players, points) ∷ (most_players, ranks) ∷ (kept_cells, kept) ∷ (entry_cells, opponents) ∷ (entry_cells, colours) ∷ (entry_cells, results) ∷ (most_text, text) ∷ (most_accelerations, accelerations) ∷ []) }
{
    (MOST_PLAYERS <= starts)
        & (MOST_PLAYERS <= points)
        & (MOST_PLAYERS <= ranks)
        & (KEPT <= kept)
        & (ENTRIES <= opponents)
        & (ENTRIES <= colours)
        & (ENTRIES <= results)
        & (MOST_TEXT <= text)
        & (MOST_ACCELERATIONS <= accelerations)
}

// The same of the line numbers, which the reader alone is lent.
pub fn enough_lines(lines: usize) -> bool
    ensures { result ≡ leb line_cells lines }
{
    LINES <= lines
}

// The cell of a player and a round in an entry table.
pub fn cell_of(place: Place, round: u32) -> usize
    requires place { place.0 < most_players }
    requires first { 1 ≤ round }
    requires last { round ≤ most_rounds }
    ensures { (result ≡ cell_of place.0 round) × (result < entry_cells) }
{
    place.0 as usize * MOST_ROUNDS + (round as usize - 1)
}

// What a player has, each of one lent table: start number, points, rank, kept columns.
pub fn start_at(starts: &[u32], place: Place) -> StartNumber
    requires { place.0 < length starts.now }
    ensures { result.0 ≡ get_or starts.now place.0 0 }
{
    StartNumber(starts[place.0 as usize])
}

pub fn points_at(points: &[u32], place: Place) -> u32
    requires { place.0 < length points.now }
    ensures { result ≡ get_or points.now place.0 0 }
{
    points[place.0 as usize]
}

pub fn rank_at(ranks: &[u32], place: Place) -> Rank
    requires { place.0 < length ranks.now }
    ensures { result.0 ≡ get_or ranks.now place.0 0 }
{
    Rank(ranks[place.0 as usize])
}

pub fn kept_at(kept: &[u8], place: Place) -> [u8; KEPT_COLUMNS]
    requires place { place.0 < most_players }
    requires long { kept_cells ≤ length kept.now }
    ensures { result ≡ take (width kept_field) (drop (place.0 * width kept_field) kept.now) }
{
    cells::get(kept, place.0 as usize * KEPT_COLUMNS)
}

// What a player has in a round, of one lent table: the colour or the result; and the opponent's start number, 0 if there is none.
pub fn letter_at(letters: &[u8], place: Place, round: u32) -> u8
    requires place { place.0 < most_players }
    requires first { 1 ≤ round }
    requires last { round ≤ most_rounds }
    requires long { entry_cells ≤ length letters.now }
    ensures { result ≡ get_or letters.now (cell_of place.0 round) 0 }
{
    letters[cell_of(place, round)]
}

pub fn opponent_at(opponents: &[u32], place: Place, round: u32) -> StartNumber
    requires place { place.0 < most_players }
    requires first { 1 ≤ round }
    requires last { round ≤ most_rounds }
    requires long { entry_cells ≤ length opponents.now }
    ensures { result.0 ≡ get_or opponents.now (cell_of place.0 round) 0 }
{
    StartNumber(opponents[cell_of(place, round)])
}

impl<'t> Tables<'t> {
    // Those that a 001 line fills.
    pub fn of_players(&self) -> PlayerTables<'t>
        ensures { ShowsPlayers result self.now }
    {
        let tables = self;
        PlayerTables {
            starts: tables.starts,
            points: tables.points,
            ranks: tables.ranks,
            kept: tables.kept,
            opponents: tables.opponents,
            colours: tables.colours,
            results: tables.results,
        }
    }

    // What a player has: start number, points, rank, kept columns.
    pub fn start_at(&self, place: Place) -> StartNumber
        requires { place.0 < most_players }
        ensures { result.0 ≡ get_or self.now.starts.now place.0 0 }
    {
        start_at(self.starts, place)
    }

    pub fn points_at(&self, place: Place) -> u32
        requires { place.0 < most_players }
        ensures { result ≡ get_or self.now.points.now place.0 0 }
    {
        points_at(self.points, place)
    }

    pub fn rank_at(&self, place: Place) -> Rank
        requires { place.0 < most_players }
        ensures { result.0 ≡ get_or self.now.ranks.now place.0 0 }
    {
        rank_at(self.ranks, place)
    }

    pub fn kept_at(&self, place: Place) -> [u8; KEPT_COLUMNS]
        requires { place.0 < most_players }
        ensures { result ≡ take (width kept_field) (drop (place.0 * width kept_field) self.now.kept.now) }
    {
        kept_at(self.kept, place)
    }

    // What a player has in a round: the opponent's start number, 0 if there is none, the colour and the result.
    pub fn opponent_at(&self, place: Place, round: u32) -> StartNumber
        requires place { place.0 < most_players }
        requires first { 1 ≤ round }
        requires last { round ≤ most_rounds }
        ensures { result.0 ≡ get_or self.now.opponents.now (cell_of place.0 round) 0 }
    {
        opponent_at(self.opponents, place, round)
    }

    pub fn colour_at(&self, place: Place, round: u32) -> u8
        requires place { place.0 < most_players }
        requires first { 1 ≤ round }
        requires last { round ≤ most_rounds }
        ensures { result ≡ get_or self.now.colours.now (cell_of place.0 round) 0 }
    {
        letter_at(self.colours, place, round)
    }

    pub fn result_at(&self, place: Place, round: u32) -> u8
        requires place { place.0 < most_players }
        requires first { 1 ≤ round }
        requires last { round ≤ most_rounds }
        ensures { result ≡ get_or self.now.results.now (cell_of place.0 round) 0 }
    {
        letter_at(self.results, place, round)
    }
}

impl LineNumbers<'_> {
    // The line of a player, and of an acceleration record.
    pub fn of_player(&self, place: Place) -> LineNumber
        requires { place.0 < most_players }
        ensures { result.0 ≡ get_or self.now.numbers.now place.0 0 }
    {
        LineNumber(self.numbers[place.0 as usize])
    }

    pub fn of_record(&self, number: usize) -> LineNumber
        requires { number < most_accelerations }
        ensures { result.0 ≡ get_or self.now.numbers.now (most_players + number) 0 }
    {
        LineNumber(self.numbers[MOST_PLAYERS + number])
    }
}

impl SettledMut<'_> {
    // The same tables, to be read.
    pub fn shared(&self) -> Settled<'_>
        ensures { ShowsSettled result self.now }
    {
        Settled {
            starts: self.starts,
            points: self.points,
            opponents: self.opponents,
            lines: LineNumbers {
                numbers: self.lines,
            },
        }
    }
}

impl ClosingMut<'_> {
    // The same tables, to be read.
    pub fn shared(&self) -> Closing<'_>
        ensures { ShowsClosing result self.now }
    {
        Closing {
            colours: self.colours,
            results: self.results,
        }
    }
}

// Zero in every listed cell of all that a reading fills: these tables and the text.
pub fn clear(
    settled: &mut SettledMut<'_>,
    closing: &mut ClosingMut<'_>,
    columns: &mut ColumnsMut<'_>,
    text: &mut [u8],
)
    requires { most_text ≤ length text.old }
    ensures same_settled { SameSettled settled.old settled.new }
    ensures same_closing { SameClosing closing.old closing.new }
    ensures same_columns { SameColumns columns.old columns.new }
    ensures zeroed { Zeroed (nine_of settled.old closing.old columns.old text.old) (nine_of settled.new closing.new columns.new text.new) }
{
    cells::fill(settled.starts, MOST_PLAYERS, 0);
    cells::fill(settled.points, MOST_PLAYERS, 0);
    cells::fill(columns.ranks, MOST_PLAYERS, 0);
    cells::fill(columns.kept, KEPT, 0);
    cells::fill(settled.opponents, ENTRIES, 0);
    cells::fill(closing.colours, ENTRIES, 0);
    cells::fill(closing.results, ENTRIES, 0);
    cells::fill(text, MOST_TEXT, 0);
    cells::fill(settled.lines, LINES, 0);
}

// A number of a player, in a table that has one for each: start number, points, rank or line.
pub fn store_own(t: &mut [u32], place: Place, v: u32)
    requires place { place.0 < most_players }
    requires long { most_players ≤ length t.old }
    ensures { t.new ≡ set t.old place.0 v }
{
    t[place.0 as usize] = v;
}

// A player's kept columns.
pub fn store_kept(t: &mut [u8], place: Place, kept: &[u8; KEPT_COLUMNS])
    requires place { place.0 < most_players }
    requires long { kept_cells ≤ length t.old }
    ensures { t.new ≡ paste t.old (place.0 * width kept_field) kept.now (width kept_field) }
{
    cells::put(t, place.0 as usize * KEPT_COLUMNS, kept);
}

// A player's opponents, colours or results, round by round.
pub fn store_row<T: Copy>(t: &mut [T], place: Place, row: &[T; MOST_ROUNDS])
    requires place { place.0 < most_players }
    requires long { entry_cells ≤ length t.old }
    ensures { (d : T) → t.new ≡ put_row d cell_of t.old place.0 row.now most_rounds }
{
    for j in 0..MOST_ROUNDS {
        t[cell_of(place, j as u32 + 1)] = row[j];
    }
}

// The line of an acceleration record.
pub fn store_record_line(t: &mut [u32], number: usize, line: LineNumber)
    requires number { number < most_accelerations }
    requires long { line_cells ≤ length t.old }
    ensures { t.new ≡ set t.old (most_players + number) line.0 }
{
    t[MOST_PLAYERS + number] = line.0;
}

// A kept text line, without its trailing blanks, ended by one CR.
pub fn store_text(t: &mut [u8], at: usize, line: &[u8])
    requires { at + length line.now < length t.old }
    ensures { t.new ≡ paste t.old at (ended line.now) (length line.now + 1) }
{
    cells::put(t, at, line);
    t[at + line.len()] = CR;
}
