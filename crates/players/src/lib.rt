// A 001 line: its player in the tables and in the index of the start numbers. Promised: what each lent cell holds afterwards, and that the step is join's.
#![tactic(auto)]

ghost use Rattle.std.specs.Prelude.{◌≡◌, List, ℕ, ◌+◌, ◌<◌};
ghost use Rattle.law.specs.Sizes.{most_players};
ghost use Rattle.law.specs.Players.{PlayerLine};
ghost use Rattle.law.proofs.RecordsRead.{player_of};
ghost use Rattle.join.specs.Store.{state, store_player, step_player};
ghost use Rattle.rows.specs.Rows.{the_row};
ghost use Rattle.tables.specs.Lent.{nine_of, SameSettled, SameClosing, SameColumns};
ghost use Rattle.index.specs.Index.{Indexed};
ghost use Rattle.steps.specs.Counts.{as_count, Small, went};

use index::START_CELLS;
use rows::Row;
use steps::Counts;
use tables::{ClosingMut, ColumnsMut, SettledMut};
use types::{Fault, LineNumber, MOST_PLAYERS, Place};

// A player at a place, from a line of the file.
fn store_player(
    settled: &mut SettledMut<'_>,
    closing: &mut ClosingMut<'_>,
    columns: &mut ColumnsMut<'_>,
    row: &Row,
    place: Place,
    line: LineNumber,
)
    requires { place.0 < most_players }
    ensures same_settled { SameSettled settled.old settled.new }
    ensures same_closing { SameClosing closing.old closing.new }
    ensures same_columns { SameColumns columns.old columns.new }
    ensures stored { (p : PlayerLine) (text : List ℕ) → row.now ≡ the_row p → nine_of settled.new closing.new columns.new text ≡ store_player p place.0 line.0 (nine_of settled.old closing.old columns.old text) }
{
    tables::store_own(settled.starts, place, row.start.0);
    tables::store_own(settled.points, place, row.points);
    tables::store_own(columns.ranks, place, row.rank.0);
    tables::store_kept(columns.kept, place, &row.kept);
    tables::store_row(settled.opponents, place, &row.ids);
    tables::store_row(closing.colours, place, &row.colours);
    tables::store_row(closing.results, place, &row.results);
    tables::store_own(settled.lines, place, line.0);
}

// A 001 line: number is the line's. The index is of the players' start numbers, before and after.
pub fn step_player(
    line: &[u8],
    number: LineNumber,
    counts: &mut Counts,
    index: &mut [u8; START_CELLS],
    settled: &mut SettledMut<'_>,
    closing: &mut ClosingMut<'_>,
    columns: &mut ColumnsMut<'_>,
) -> Result<(), Fault>
    requires { Indexed settled.old.starts.now counts.old.players index.old }
    ensures same_settled { SameSettled settled.old settled.new }
    ensures same_closing { SameClosing closing.old closing.new }
    ensures same_columns { SameColumns columns.old columns.new }
    ensures step { (ln : ℕ) (text : List ℕ) → number.0 ≡ ln + 1 → went ln result counts.new (nine_of settled.new closing.new columns.new text) ≡ step_player (player_of line.now) (state ln (as_count counts.old) (nine_of settled.old closing.old columns.old text)) }
    ensures indexed { Indexed settled.new.starts.now counts.new.players index.new }
    ensures small { Small counts.old → Small counts.new }
{
    let row = rows::player_of(line)?;
    let None = index::place_of(index, row.start) else {
        return Err(Fault::Again);
    };
    if counts.players == MOST_PLAYERS {
        return Err(Fault::TooMany);
    }
    let place = Place(counts.players as u32);
    store_player(settled, closing, columns, &row, place, number);
    index::index_start(index, row.start, place);
    counts.players += 1;
    Ok(())
}
