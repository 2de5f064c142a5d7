// The test behind 18, which writer and question share: whether an answer and tables are the reading of a lawful tournament. Promised: true exactly of those,
// unused cells included, and no table is changed.
#![tactic(auto)]

ghost use Rattle.std.specs.Prelude.{◌≡◌, true, ◌||◌, ℕ, ◌≤◌, ◌<◌, eqb, get_or};
ghost use Rattle.std.proofs.Math.Option.{none};
ghost use Rattle.kit.specs.Lists.{among};
ghost use Rattle.law.specs.Sizes.{most_players, most_rounds, most_accelerations, most_text, is_start};
ghost use Rattle.law.specs.Heads.{initial_colours};
ghost use Rattle.law.specs.Entries.{Law};
ghost use Rattle.join.specs.Grid.{first_from};
ghost use Rattle.join.specs.Check.{shared_record, wrong_sum};
ghost use Rattle.closings.specs.Values.{are_small};
ghost use Rattle.checks.specs.Laws.{as_law};
ghost use Rattle.texts.specs.Kept.{Told};
ghost use Rattle.readings.specs.Good.{GoodAnswer, GoodReading};
ghost use Rattle.lawful.specs.Given.{tables_in};
ghost use Rattle.lawful.specs.Parts.{Own, OwnRest, EntriesRest, TextIs, RecordsAre, Keeps, Together, Holds};

use checks::LawKind;
use index::{Entries, START_CELLS};
use tables::Tables;
use types::{
    Acceleration, Answer, KEPT, KEPT_COLUMNS, MOST_ACCELERATIONS, MOST_PLAYERS, MOST_POINTS,
    MOST_ROUNDS, MOST_TEXT, VALUES,
};

// Whether each scoring value is one that a points field can hold.
fn are_small(values: &[u32; VALUES]) -> bool
    ensures { result ≡ are_small values.now }
{
    values.iter().all(|value| *value <= MOST_POINTS)
}

// Whether a letter is an initial colour, or 0 for none.
fn is_colour(colour: u8) -> bool
    ensures { result ≡ eqb colour 0 || among colour initial_colours }
{
    colour == 0 || records::is_initial(colour)
}

// Whether the answer is that of an acceptance.
fn is_accepted(answer: &Answer) -> bool
    ensures { Told (GoodAnswer answer.now) result }
{
    answer.number == 0
        && answer.line.0 == 0
        && answer.round == 0
        && 1 <= answer.players
        && answer.players as usize <= MOST_PLAYERS
        && answer.rounds as usize <= MOST_ROUNDS
        && answer.accelerations as usize <= MOST_ACCELERATIONS
        && answer.text <= MOST_TEXT
        && is_colour(answer.colour)
        && are_small(&answer.values)
}

// Whether each of n players has a start number, points, a rank and kept columns.
fn own_are(tables: &Tables<'_>, n: usize) -> bool
    requires { n ≤ most_players }
    ensures { Told (Own n tables.now) result }
{
    held::starts_are(tables.starts, n)
        && held::points_are(tables.points, n)
        && held::ranks_are(tables.ranks, n)
        && held::kept_are(tables.kept, n)
}

// Whether the cells after theirs hold zero.
fn own_unused(tables: &Tables<'_>, n: usize) -> bool
    requires { n ≤ most_players }
    ensures { Told (OwnRest n tables.now) result }
{
    held::cells_unused(tables.starts, n, MOST_PLAYERS)
        && held::cells_unused(tables.points, n, MOST_PLAYERS)
        && held::cells_unused(tables.ranks, n, MOST_PLAYERS)
        && held::cells_unused(tables.kept, n * KEPT_COLUMNS, KEPT)
}

// Whether the entry cells that n players do not have up to a round hold zero.
fn entries_unused(tables: &Tables<'_>, n: usize, rounds: u32) -> bool
    requires { (n ≤ most_players) × (rounds ≤ most_rounds) }
    ensures { Told (EntriesRest n rounds tables.now) result }
{
    held::entries_unused(tables.opponents, n, rounds)
        && held::entries_unused(tables.colours, n, rounds)
        && held::entries_unused(tables.results, n, rounds)
}

// Whether n bytes are kept text, and those after them zero.
fn text_is(tables: &Tables<'_>, n: usize) -> bool
    requires { n ≤ most_text }
    ensures { Told (TextIs n tables.now.text.now) result }
{
    texts::is_kept_text(tables.text, n) && held::cells_unused(tables.text, n, MOST_TEXT)
}

// Whether none of n records shares with an earlier one.
fn are_apart(records: &[Acceleration; MOST_ACCELERATIONS], n: usize) -> bool
    requires { n ≤ most_accelerations }
    ensures { Told (first_from (shared_record records.now) 0 n ≡ none) result }
{
    closings::first_shared(&records[..n]).is_none()
}

// Whether n records are 250 records that share nothing, and those after them zero.
fn records_are(records: &[Acceleration; MOST_ACCELERATIONS], n: usize) -> bool
    requires { n ≤ most_accelerations }
    ensures { Told (RecordsAre n records.now) result }
{
    held::accelerations_are(records, n)
        && are_apart(records, n)
        && held::cells_unused(records, n, MOST_ACCELERATIONS)
}

// Whether each entry keeps a law.
fn keeps(kind: LawKind, entries: &Entries<'_, '_>) -> bool
    ensures { Told (Keeps (as_law kind) entries.now) result }
{
    checks::first_broken(kind, entries).is_none()
}

// Whether they keep the four laws. One look tells it of most tables.
fn keeps_all(entries: &Entries<'_, '_>) -> bool
    ensures { Told ((law : Law) → Keeps law entries.now) result }
{
    glances::all_lawful(entries)
        || keeps(LawKind::ByeOrGame, entries)
            && keeps(LawKind::Mutual, entries)
            && keeps(LawKind::Fitting, entries)
            && keeps(LawKind::OneU, entries)
}

// Whether the points of n players are the sums that they earned.
fn sums_are(tables: &Tables<'_>, values: [u32; VALUES], n: usize, rounds: u32) -> bool
    requires { (n ≤ most_players) × (rounds ≤ most_rounds) × (are_small values ≡ true) }
    ensures { Told (first_from (wrong_sum values tables.now.points.now tables.now.results.now rounds) 0 n ≡ none) result }
{
    closings::first_wrong_sum(tables.points, tables.results, values, n, rounds).is_none()
}

// Whether n players have start numbers that differ, lawful entries and the sums of what these earned.
fn together(tables: &Tables<'_>, values: [u32; VALUES], n: usize, rounds: u32) -> bool
    requires players { n ≤ most_players }
    requires rounds { rounds ≤ most_rounds }
    requires small { are_small values ≡ true }
    requires starts { (p : ℕ) → p < n → is_start (get_or tables.now.starts.now p 0) ≡ true }
    ensures { Told (Together n rounds values tables.now) result }
{
    let mut index = [0; START_CELLS];
    if !held::starts_differ(tables.starts, n, &mut index) {
        return false;
    }
    let entries = Entries {
        starts: tables.starts,
        opponents: tables.opponents,
        colours: tables.colours,
        results: tables.results,
        index: &index,
        players: n,
        rounds,
    };
    keeps_all(&entries) && sums_are(tables, values, n, rounds)
}

// Whether tables are the reading of such an answer.
fn holds(answer: &Answer, tables: &Tables<'_>, records: &[Acceleration; MOST_ACCELERATIONS]) -> bool
    requires { GoodAnswer answer.now }
    ensures { Told (Holds answer.now tables.now records.now) result }
{
    let n = answer.players as usize;
    own_are(tables, n)
        && own_unused(tables, n)
        && entries_unused(tables, n, answer.rounds)
        && text_is(tables, answer.text)
        && records_are(records, answer.accelerations as usize)
        && together(tables, answer.values, n, answer.rounds)
}

// Whether an answer and tables are the reading of a lawful tournament. records: the first acceleration records that are lent.
pub fn is_reading(
    answer: Answer,
    tables: &Tables<'_>,
    records: &[Acceleration; MOST_ACCELERATIONS],
) -> bool
    ensures { Told (GoodReading answer (tables_in tables.now records.now)) result }
{
    is_accepted(&answer) && holds(&answer, tables, records)
}
