//! The ticks that a schedule states, by entry: operations by number, and then transfers in the order
//! of the decisions.
ghost use Rattle.std.specs.Prelude.{◌≡◌, ◌<◌, ◌++◌, All, IfOk, OnOk, length, map, replicate};
ghost use Rattle.self_timed.specs.Stated.{carried_ticks, carry_ticks, stated_row, with_runs};

use crate::actual::Actual;
use sequence_build_laws::{Decision, Transfer};
use std::alloc::Global;
use syn_base::OutOfMemory;

/// This many reactions that last as the decisions state.
pub(crate) fn stated_actual(
    alloc: Global,
    operations: usize,
    decisions: &[Decision],
    reactions: usize,
) -> Result<Actual, OutOfMemory>
    requires { All (λ d. d.op < operations) decisions.now }
    ensures { IfOk result (λ actual. actual ≡ replicate reactions (stated_row operations decisions.now)) }
{
    let ticks = stated_ticks(alloc, operations, decisions)?;
    repeated(alloc, ticks.as_slice(), reactions)
}

/// This many reactions that last these ticks each.
fn repeated(alloc: Global, ticks: &[u64], reactions: usize) -> Result<Actual, OutOfMemory>
    ensures { IfOk result (λ actual. actual ≡ replicate reactions ticks.now) }
{
    let mut actual = Actual::new(alloc);
    for _ in 0..reactions {
        actual.push(ticks)?;
    }
    Ok(actual)
}

/// The ticks of this many operations and of all transfers, 0 for an operation that no decision places.
fn stated_ticks(
    alloc: Global,
    operations: usize,
    decisions: &[Decision],
) -> Result<Vec<u64>, OutOfMemory>
    requires { All (λ d. d.op < operations) decisions.now }
    ensures { IfOk result (λ ticks. ticks.items ≡ stated_row operations decisions.now) }
{
    let mut ticks = no_ticks(alloc, operations)?;
    note_runs(ticks.as_mut_slice(), decisions);
    append_transfers(&mut ticks, decisions)?;
    Ok(ticks)
}

/// As many ticks as there are operations, all of them 0.
fn no_ticks(alloc: Global, operations: usize) -> Result<Vec<u64>, OutOfMemory>
    ensures { IfOk result (λ ticks. ticks.items ≡ replicate operations 0) }
{
    Ok(vec![in alloc; 0; operations]?)
}

/// Notes how long the operation of each decision lasts.
fn note_runs(ticks: &mut [u64], decisions: &[Decision])
    requires { All (λ d. d.op < length ticks.old) decisions.now }
    ensures { ticks.new ≡ with_runs ticks.old decisions.now }
{
    for decision in decisions {
        ticks[decision.op as usize] = decision.end.saturating_sub(decision.start);
    }
}

/// Appends how long each transfer of these decisions lasts.
fn append_transfers(ticks: &mut Vec<u64>, decisions: &[Decision]) -> Result<(), OutOfMemory>
    ensures { OnOk result (ticks.new.items ≡ ticks.old.items ++ carried_ticks decisions.now) }
{
    for decision in decisions {
        append_carried(ticks, decision.transfers.as_slice())?;
    }
    Ok(())
}

/// Appends how long each of these transfers lasts.
fn append_carried(ticks: &mut Vec<u64>, transfers: &[Transfer]) -> Result<(), OutOfMemory>
    ensures { OnOk result (ticks.new.items ≡ ticks.old.items ++ map carry_ticks transfers.now) }
{
    for transfer in transfers {
        ticks.push(transfer.end.saturating_sub(transfer.start))?;
    }
    Ok(())
}
