// What the checks found, as refusals: why, line and round, the line read from the lent list. Promised: each answers a part of join's verdict.
#![tactic(auto)]

ghost use Rattle.std.specs.Prelude.{◌≡◌, true, ℕ, ◌+◌, ◌*◌, ◌≤◌, ◌<◌, length, get_or};
ghost use Rattle.std.proofs.Math.Option as maybe;
ghost use Rattle.kit.specs.Decides.{to};
ghost use Rattle.law.specs.Sizes.{most_players, most_rounds, most_accelerations};
ghost use Rattle.law.specs.Tables.{entry_cells};
ghost use Rattle.law.specs.Refusals.{refusal, file_fault_number, past_142, shared, wrong_sum_lem};
ghost use Rattle.types.specs.Faults.{number_of};
ghost use Rattle.join.specs.Grid.{first_from};
ghost use Rattle.join.specs.Check.{past_cell, shared_record, wrong_sum, broken_cell, at_player};
ghost use Rattle.join.specs.Store.{Nine};
ghost use Rattle.closings.specs.Values.{are_small};
ghost use Rattle.checks.specs.Laws.{as_law, fault_of, four_of};
ghost use Rattle.turns.specs.Found.{as_found_turn};
ghost use Rattle.verdicts.specs.Verdict.{refusal_in, FoundUnder, unlawful_in};

use checks::LawKind;
use index::Entries;
use tables::LineNumbers;
use turns::Turn;
use types::{Acceleration, Fault, Refusal, VALUES};

// The refusal of a turn that was found: its player's line, and its round.
fn at_turn(fault: Fault, lines: &LineNumbers<'_>, found: Option<Turn>) -> Result<(), Refusal>
    requires { FoundUnder found entry_cells }
    ensures { (o : maybe.Option ℕ) → found ≡ as_found_turn o → refusal_in result ≡ to (at_player (number_of fault) lines.now.numbers.now) o }
{
    let Some(turn) = found else {
        return Ok(());
    };
    Err(Refusal {
        fault,
        line: lines.of_player(turn.place()),
        round: turn.round(),
    })
}

// 11: a cell past the rounds that there are.
pub fn past(colours: &[u8], lines: &LineNumbers<'_>, n: usize, rounds: u32) -> Result<(), Refusal>
    requires players { n ≤ most_players }
    requires long { entry_cells ≤ length colours.now }
    ensures { refusal_in result ≡ to (at_player (file_fault_number past_142) lines.now.numbers.now) (first_from (past_cell rounds colours.now) 0 (n * most_rounds)) }
{
    if glances::none_past(colours, n, rounds) {
        return Ok(());
    }
    let found = closings::first_past(colours, n, rounds);
    at_turn(Fault::PastRounds, lines, found)
}

// 17: a record that shares with an earlier one, by the record's line.
pub fn sharing(records: &[Acceleration], lines: &LineNumbers<'_>) -> Result<(), Refusal>
    requires { length records.now ≤ most_accelerations }
    ensures { refusal_in result ≡ to (λ j. refusal (file_fault_number shared) (get_or lines.now.numbers.now (most_players + j) 0) 0) (first_from (shared_record records.now) 0 (length records.now)) }
{
    let Some(number) = closings::first_shared(records) else {
        return Ok(());
    };
    Err(Refusal {
        fault: Fault::Overlap,
        line: lines.of_record(number.0),
        round: 0,
    })
}

// 16: points that are not the sum, by the player's line.
pub fn wrong_points(
    points: &[u32],
    results: &[u8],
    values: [u32; VALUES],
    lines: &LineNumbers<'_>,
    n: usize,
    rounds: u32,
) -> Result<(), Refusal>
    requires players { n ≤ most_players }
    requires rounds { rounds ≤ most_rounds }
    requires points_long { most_players ≤ length points.now }
    requires results_long { entry_cells ≤ length results.now }
    requires small { are_small values ≡ true }
    ensures { refusal_in result ≡ to (λ p. refusal (file_fault_number wrong_sum_lem) (get_or lines.now.numbers.now p 0) 0) (first_from (wrong_sum values points.now results.now rounds) 0 n) }
{
    let Some(place) = closings::first_wrong_sum(points, results, values, n, rounds) else {
        return Ok(());
    };
    Err(Refusal {
        fault: Fault::WrongSum,
        line: lines.of_player(place),
        round: 0,
    })
}

// The first turn whose entry breaks a law, refused by that law's number.
fn broken(kind: LawKind, entries: &Entries<'_, '_>, lines: &LineNumbers<'_>) -> Result<(), Refusal>
    ensures { refusal_in result ≡ to (at_player (number_of (fault_of kind)) lines.now.numbers.now) (first_from (broken_cell (as_law kind) entries.now.players entries.now.rounds (four_of entries.now)) 0 (entries.now.players * most_rounds)) }
{
    let found = checks::first_broken(kind, entries);
    at_turn(Fault::from(kind), lines, found)
}

// 12 to 15, in their order. Where one look finds every entry lawful there is nothing to search for.
pub fn first_unlawful(entries: &Entries<'_, '_>, lines: &LineNumbers<'_>) -> Result<(), Refusal>
    ensures { (y : Nine) → y.starts ≡ entries.now.starts.now → y.opponents ≡ entries.now.opponents.now → y.colours ≡ entries.now.colours.now → y.results ≡ entries.now.results.now → y.lines ≡ lines.now.numbers.now → refusal_in result ≡ unlawful_in entries.now.players entries.now.rounds y }
{
    if glances::all_lawful(entries) {
        return Ok(());
    }
    broken(LawKind::ByeOrGame, entries, lines)?;
    broken(LawKind::Mutual, entries, lines)?;
    broken(LawKind::Fitting, entries, lines)?;
    broken(LawKind::OneU, entries, lines)
}
