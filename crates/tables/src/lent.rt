// The tables that a call is lent, each struct just those that some functions look at. It says of each value that every table in it is long enough, so that no contract over the struct
// repeats it.
ghost use Rattle.std.specs.Prelude.{◌≤◌, length};
ghost use Rattle.law.specs.Sizes.{most_players, most_text};
ghost use Rattle.law.specs.Tables.{kept_cells, entry_cells, line_cells};

// To be read: those that every call is lent.
#[derive(Clone, Copy)]
pub struct Tables<'a> {
    pub starts: &'a [u32],
    pub points: &'a [u32],
    pub ranks: &'a [u32],
    pub kept: &'a [u8],
    pub opponents: &'a [u32],
    pub colours: &'a [u8],
    pub results: &'a [u8],
    pub text: &'a [u8],
    pub ghost starts_long: { most_players ≤ length starts.now },
    pub ghost points_long: { most_players ≤ length points.now },
    pub ghost ranks_long: { most_players ≤ length ranks.now },
    pub ghost kept_long: { kept_cells ≤ length kept.now },
    pub ghost opponents_long: { entry_cells ≤ length opponents.now },
    pub ghost colours_long: { entry_cells ≤ length colours.now },
    pub ghost results_long: { entry_cells ≤ length results.now },
    pub ghost text_long: { most_text ≤ length text.now },
}

// To be read: what the players' lines are written from, all but the text.
#[derive(Clone, Copy)]
pub struct PlayerTables<'a> {
    pub starts: &'a [u32],
    pub points: &'a [u32],
    pub ranks: &'a [u32],
    pub kept: &'a [u8],
    pub opponents: &'a [u32],
    pub colours: &'a [u8],
    pub results: &'a [u8],
    pub ghost starts_long: { most_players ≤ length starts.now },
    pub ghost points_long: { most_players ≤ length points.now },
    pub ghost ranks_long: { most_players ≤ length ranks.now },
    pub ghost kept_long: { kept_cells ≤ length kept.now },
    pub ghost opponents_long: { entry_cells ≤ length opponents.now },
    pub ghost colours_long: { entry_cells ≤ length colours.now },
    pub ghost results_long: { entry_cells ≤ length results.now },
}

// The line numbers, to be read: of each player, and after them of each acceleration record.
#[derive(Clone, Copy)]
pub struct LineNumbers<'a> {
    pub numbers: &'a [u32],
    pub ghost long: { line_cells ≤ length numbers.now },
}

// To be filled by a reading: the tables that the checks after the last line only read, the line numbers among them, which the reader alone is lent.
#[derive(Drop)]
pub struct SettledMut<'a> {
    pub starts: &'a mut [u32],
    pub points: &'a mut [u32],
    pub opponents: &'a mut [u32],
    pub lines: &'a mut [u32],
    pub ghost starts_long: { most_players ≤ length starts.now },
    pub ghost points_long: { most_players ≤ length points.now },
    pub ghost opponents_long: { entry_cells ≤ length opponents.now },
    pub ghost lines_long: { line_cells ≤ length lines.now },
}

// The same, to be read.
#[derive(Clone, Copy)]
pub struct Settled<'a> {
    pub starts: &'a [u32],
    pub points: &'a [u32],
    pub opponents: &'a [u32],
    pub lines: LineNumbers<'a>,
    pub ghost starts_long: { most_players ≤ length starts.now },
    pub ghost points_long: { most_players ≤ length points.now },
    pub ghost opponents_long: { entry_cells ≤ length opponents.now },
}

// To be filled by a reading: the tables whose blank cells the closing pass fills.
#[derive(Drop)]
pub struct ClosingMut<'a> {
    pub colours: &'a mut [u8],
    pub results: &'a mut [u8],
    pub ghost colours_long: { entry_cells ≤ length colours.now },
    pub ghost results_long: { entry_cells ≤ length results.now },
}

// The same, to be read.
#[derive(Clone, Copy)]
pub struct Closing<'a> {
    pub colours: &'a [u8],
    pub results: &'a [u8],
    pub ghost colours_long: { entry_cells ≤ length colours.now },
    pub ghost results_long: { entry_cells ≤ length results.now },
}

// To be filled by a reading: what else a 001 line has, at which no check looks after the last line.
#[derive(Drop)]
pub struct ColumnsMut<'a> {
    pub ranks: &'a mut [u32],
    pub kept: &'a mut [u8],
    pub ghost ranks_long: { most_players ≤ length ranks.now },
    pub ghost kept_long: { kept_cells ≤ length kept.now },
}
