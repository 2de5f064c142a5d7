// After the last line: the number of rounds, 11, the closing pass, and the other checks of the whole file. Promised: the statement's first refusal of the
// whole file, over the cells.
#![tactic(auto)]

ghost use Rattle.std.specs.Prelude.{◌≡◌, true, ◌≤◌, ℕ, length, take};
ghost use Rattle.law.specs.Sizes.{most_players, most_rounds, most_accelerations};
ghost use Rattle.law.specs.Tables.{entry_cells};
ghost use Rattle.join.specs.Store.{Nine};
ghost use Rattle.join.specs.Check.{rounds_found, verdict};
ghost use Rattle.index.specs.Index.{Indexed};
ghost use Rattle.closings.specs.Values.{are_small};
ghost use Rattle.tables.specs.Lent.{SameClosing};
ghost use Rattle.verdicts.specs.Verdict.{refusal_in};
ghost use Rattle.steps.specs.Counts.{as_count, values_by, Small};
ghost use Rattle.judges.specs.Closing.{is_complete, past_in, dash, zed, ClosedBy};

use index::{Entries, START_CELLS};
use results::BLANK_BYE;
use scorings::Scoring;
use steps::Counts;
use tables::{ClosingMut, LineNumbers, Settled};
use types::{Acceleration, Fault, Refusal, VALUES};

// Whether there are a 012 and a player (else 10).
fn is_complete(counts: &Counts) -> bool
    ensures { result ≡ is_complete (as_count counts.now) }
{
    counts.seen[0] & (0 < counts.players)
}

// The values of W D L A P X: the defaults where no line gives any.
pub fn values_of(counts: &Counts) -> [u32; VALUES]
    ensures { result ≡ values_by counts.now.scoring }
{
    match counts.scoring {
        Some(scoring) => scoring.values,
        None => Scoring::DEFAULTS.values,
    }
}

// The acceleration records that were read.
fn records_of(counts: &Counts) -> &[Acceleration]
    requires { counts.now.accelerations ≤ most_accelerations }
    ensures first { result.now ≡ take counts.now.accelerations counts.now.records }
    ensures within { counts.now.accelerations ≤ length counts.now.records }
{
    &counts.records[..counts.accelerations]
}

// The first refusal of the whole file, after the closing pass. past: what 11 found before it.
fn judge(
    counts: &Counts,
    past: Result<(), Refusal>,
    entries: &Entries<'_, '_>,
    points: &[u32],
    lines: &LineNumbers<'_>,
) -> Result<(), Refusal>
    requires players { entries.now.players ≡ counts.now.players }
    requires rounds { entries.now.rounds ≤ most_rounds }
    requires few { counts.now.accelerations ≤ most_accelerations }
    requires small { are_small (values_by counts.now.scoring) ≡ true }
    requires long { most_players ≤ length points.now }
    ensures { (x y : Nine) → y.starts ≡ entries.now.starts.now → y.points ≡ points.now → y.opponents ≡ entries.now.opponents.now → y.colours ≡ entries.now.colours.now → y.results ≡ entries.now.results.now → y.lines ≡ lines.now.numbers.now → x.lines ≡ lines.now.numbers.now → refusal_in past ≡ past_in (as_count counts.now) entries.now.rounds x → refusal_in result ≡ verdict (as_count counts.now) entries.now.rounds x y }
{
    if !is_complete(counts) {
        return Err(Refusal::from(Fault::Incomplete));
    }
    past?;
    verdicts::sharing(records_of(counts), lines)?;
    verdicts::first_unlawful(entries, lines)?;
    verdicts::wrong_points(
        points,
        entries.results,
        values_of(counts),
        lines,
        entries.players,
        entries.rounds,
    )
}

// The number of rounds: what 142 says, or the highest round with an entry.
fn rounds_of(counts: &Counts, colours: &[u8]) -> u32
    requires players { counts.now.players ≤ most_players }
    requires long { entry_cells ≤ length colours.now }
    ensures { result ≡ rounds_found (as_count counts.now) colours.now }
{
    match counts.rounds {
        Some(rounds) => rounds,
        None => closings::rounds_seen(colours, counts.players),
    }
}

// The closing pass on colours and results.
fn close(closing: &mut ClosingMut<'_>, n: usize, rounds: u32)
    requires { n ≤ most_players }
    ensures same { SameClosing closing.old closing.new }
    ensures colours { ClosedBy dash n rounds closing.old.colours.now closing.new.colours.now }
    ensures results { ClosedBy zed n rounds closing.old.results.now closing.new.results.now }
{
    closings::close(closing.colours, n, rounds, b'-');
    closings::close(closing.results, n, rounds, BLANK_BYE);
}

// The number of rounds, and whether the whole file is refused.
#[derive(Drop)]
pub struct Finished {
    pub rounds: u32,
    pub verdict: Result<(), Refusal>,
}

// After the last line: the number of rounds, and the first refusal of the whole file; 11 before the closing pass, and the other checks after it.
pub fn finish(
    counts: &Counts,
    index: &[u8; START_CELLS],
    settled: &Settled<'_>,
    closing: &mut ClosingMut<'_>,
) -> Finished
    requires indexed { Indexed settled.now.starts.now counts.now.players index.now }
    requires room { Small counts.now }
    requires rounds { rounds_found (as_count counts.now) closing.old.colours.now ≤ most_rounds }
    requires small { are_small (values_by counts.now.scoring) ≡ true }
    ensures same { SameClosing closing.old closing.new }
    ensures rounds { result.rounds ≡ rounds_found (as_count counts.now) closing.old.colours.now }
    ensures colours { ClosedBy dash counts.now.players result.rounds closing.old.colours.now closing.new.colours.now }
    ensures results { ClosedBy zed counts.now.players result.rounds closing.old.results.now closing.new.results.now }
    ensures verdict { (x y : Nine) → x.colours ≡ closing.old.colours.now → x.lines ≡ settled.now.lines.numbers.now → y.starts ≡ settled.now.starts.now → y.points ≡ settled.now.points.now → y.opponents ≡ settled.now.opponents.now → y.colours ≡ closing.new.colours.now → y.results ≡ closing.new.results.now → y.lines ≡ settled.now.lines.numbers.now → refusal_in result.verdict ≡ verdict (as_count counts.now) result.rounds x y }
{
    let n = counts.players;
    let before = closing.shared();
    let rounds = rounds_of(counts, before.colours);
    let past = verdicts::past(before.colours, &settled.lines, n, rounds);
    close(closing, n, rounds);
    let after = closing.shared();
    let entries = Entries {
        starts: settled.starts,
        opponents: settled.opponents,
        colours: after.colours,
        results: after.results,
        index,
        players: n,
        rounds,
    };
    let verdict = judge(counts, past, &entries, settled.points, &settled.lines);
    Finished { rounds, verdict }
}
