// The tables that are listed, each long enough. The struct says so of every value, so that no contract repeats it.
ghost use Rattle.std.specs.Prelude.{◌≤◌, length};
ghost use Rattle.law.specs.Sizes.{most_players};
ghost use Rattle.law.specs.Tables.{entry_cells};

// To be read: all but the kept columns and the text.
#[derive(Clone, Copy)]
pub struct ListedTables<'a> {
    pub starts: &'a [u32],
    pub points: &'a [u32],
    pub ranks: &'a [u32],
    pub opponents: &'a [u32],
    pub colours: &'a [u8],
    pub results: &'a [u8],
    pub ghost starts_long: { most_players ≤ length starts.now },
    pub ghost points_long: { most_players ≤ length points.now },
    pub ghost ranks_long: { most_players ≤ length ranks.now },
    pub ghost opponents_long: { entry_cells ≤ length opponents.now },
    pub ghost colours_long: { entry_cells ≤ length colours.now },
    pub ghost results_long: { entry_cells ≤ length results.now },
}
