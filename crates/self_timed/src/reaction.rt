//! One reaction: its dates after those of the reactions before it.
ghost use Rattle.std.specs.Prelude.{◌≡◌, ◌<◌, ◌≤◌, All, IfOk, length, replicate};
ghost use Rattle.self_timed.specs.Running.{AreSized, FitSteps, FitsReaction, IsLong, after_steps, free, free_all, freed_in, latest_in, no_span, reaction_after, running};

use crate::dates::Span;
use crate::layout::{Plan, Step};
use crate::line::Ends;
use std::alloc::Global;
use syn_base::{Items, OutOfMemory};

/// The dates of the reaction after these ones, whose entries last these ticks. The ends of the lines
/// go on by one reaction.
pub(crate) fn next_reaction(
    alloc: Global,
    plan: &Plan,
    depth: usize,
    past: &[Items<Span>],
    ticks: &[u64],
    ends: &mut Ends,
) -> Result<Vec<Span>, OutOfMemory>
    requires sized { AreSized plan.now.entries plan.now.steps.items }
    requires long { All (IsLong plan.now.entries) past.now }
    requires ticks { length ticks.now ≡ plan.now.entries }
    requires deep { 1 ≤ depth }
    requires fits { FitsReaction plan.now depth past.now ticks.now ends.old }
    ensures { IfOk result (λ row. running ends.new row.items ≡
        reaction_after plan.now depth past.now ticks.now ends.old) }
{
    let freed = freed_dates(alloc, plan, depth, past)?;
    let mut row = no_spans(alloc, plan.entries)?;
    run(
        plan.steps.as_slice(),
        freed.as_slice(),
        ticks,
        ends,
        row.as_mut_slice(),
    );
    Ok(row)
}

/// For each entry, when the last act has ended that reads what the entry made as many reactions ago as
/// buffers have places; 0 in the first reactions, and where no act reads it.
fn freed_dates(
    alloc: Global,
    plan: &Plan,
    depth: usize,
    past: &[Items<Span>],
) -> Result<Vec<u64>, OutOfMemory>
    requires sized { AreSized plan.now.entries plan.now.steps.items }
    requires long { All (IsLong plan.now.entries) past.now }
    requires deep { 1 ≤ depth }
    ensures { IfOk result (λ freed. freed.items ≡ freed_in plan.now depth past.now) }
{
    let mut freed = no_dates(alloc, plan.entries)?;
    if depth <= past.len() {
        let row = past[past.len() - depth].as_slice();
        free_all(plan.steps.as_slice(), row, freed.as_mut_slice());
    }
    Ok(freed)
}

/// Each act, which has ended at its date, has read what it reads.
fn free_all(steps: &[Step], row: &[Span], freed: &mut [u64])
    requires sized { AreSized (length row.now) steps.now }
    requires long { length freed.old ≡ length row.now }
    ensures { freed.new ≡ free_all row.now steps.now freed.old }
{
    for step in steps {
        free(step.sources.as_slice(), row[step.entry].end, freed);
    }
}

/// An act that has ended at this date has read what these entries made.
fn free(sources: &[usize], end: u64, freed: &mut [u64])
    requires { All (λ e. e < length freed.old) sources.now }
    ensures { freed.new ≡ free sources.now end freed.old }
{
    for source in sources {
        freed[*source] = freed[*source].max(end);
    }
}

/// Each act starts when its line is free, what it reads is made, and what it makes has been read; it
/// ends when it has lasted its ticks.
fn run(steps: &[Step], freed: &[u64], ticks: &[u64], ends: &mut Ends, row: &mut [Span])
    requires sized { AreSized (length row.old) steps.now }
    requires freed { length freed.now ≡ length row.old }
    requires ticks { length ticks.now ≡ length row.old }
    requires fits { FitSteps freed.now ticks.now steps.now (running ends.old row.old) }
    ensures { running ends.new row.new ≡
        after_steps freed.now ticks.now steps.now (running ends.old row.old) }
{
    for step in steps {
        let made = latest(row, step.sources.as_slice());
        let start = ends.last(step.line).max(made).max(freed[step.entry]);
        let end = start + ticks[step.entry];
        ends.note(step.line, end);
        row[step.entry] = Span { start, end };
    }
}

/// The greatest end of these entries.
fn latest(row: &[Span], entries: &[usize]) -> u64
    requires { All (λ e. e < length row.now) entries.now }
    ensures { result ≡ latest_in row.now entries.now }
{
    let mut latest = 0;
    for entry in entries {
        latest = row[*entry].end.max(latest);
    }
    latest
}

/// As many dates as there are entries, all of them 0.
fn no_dates(alloc: Global, entries: usize) -> Result<Vec<u64>, OutOfMemory>
    ensures { IfOk result (λ dates. dates.items ≡ replicate entries 0) }
{
    Ok(vec![in alloc; 0; entries]?)
}

/// As many spans as there are entries, from 0 to 0.
fn no_spans(alloc: Global, entries: usize) -> Result<Vec<Span>, OutOfMemory>
    ensures { IfOk result (λ spans. spans.items ≡ replicate entries no_span) }
{
    Ok(vec![in alloc; Span { start: 0, end: 0 }; entries]?)
}
