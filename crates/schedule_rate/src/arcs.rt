//! The arcs of a schedule's acts, as a table.
ghost use Rattle.std.specs.Prelude.{◌≡◌, ◌^◌, ◌≤◌, ◌<◌, ◌++◌, IfOk, OnOk, [], ◌∷◌, length, map, replicate, slice_get};
ghost use Rattle.self_timed.specs.Acts.{acts};
ghost use Rattle.self_timed.specs.Lines.{AreStarted, IsLine};
ghost use Rattle.self_timed.specs.Running.{AreSized};
ghost use Rattle.self_timed.specs.Told.{IsValidForSome};
ghost use Rattle.rates.specs.Arcs.{arc};
ghost use Rattle.rates.specs.Tables.{IsTableOf, at};
ghost use Rattle.schedule_rate.specs.Filling.{AreLast, AreLined, AreLow, IsFilled, entered, full_row, is_same_line, is_step_in, line_arc, readers_at, with_sources, with_steps};

use rates::{Arc, Arcs};
use self_timed::{Archi, Ends, Flat, Line, Schedule, Step, plan_of};
use std::alloc::Global;
use std::marker::Model;
use syn_base::{Items, OutOfMemory};

/// The numbers of acts. Contracts see them as a list.
#[derive(Drop)]
struct Acts {
    numbers: Vec<u32>,
}

impl Model for Acts {
    ghost use Rattle.std.specs.Prelude.{ℕ, List};

    ghost Value = { List ℕ };

    ghost view = { λ s. s.numbers.items };
}

impl Acts {
    /// No acts.
    fn none(alloc: Global) -> Acts
        ensures { result ≡ [] }
    {
        Acts {
            numbers: Vec::new(alloc),
        }
    }

    /// One more act.
    fn push(&mut self, act: u32) -> Result<(), OutOfMemory>
        ensures { OnOk result (self.new ≡ self.old ++ act ∷ []) }
    {
        self.numbers.push(act)?;
        Ok(())
    }

    /// The acts.
    fn as_slice(&self) -> &[u32]
        ensures { result.now ≡ self.now }
    {
        self.numbers.as_slice()
    }
}

/// The arcs of the acts of a schedule that is valid for some durations, if buffers that another
/// sequence reads have as many places as the architecture says. The time is in proportion to the
/// acts and what they read.
pub fn arcs_of(
    alloc: Global,
    flat: &Flat,
    archi: &Archi,
    schedule: &Schedule,
) -> Result<Arcs, OutOfMemory>
    requires valid { IsValidForSome flat.now archi.now schedule.now }
    ensures { IfOk result (IsTableOf archi.now.depth flat.now.vertices (acts schedule.now)) }
{
    // The proof takes from this call that the architecture is valid.
    let _operators = archi.operators();
    let depth = archi.depth();
    let plan = plan_of(alloc, flat.vertices(), schedule.decisions.as_slice())?;
    table_of(alloc, plan.steps.as_slice(), plan.entries, depth)
}

/// The table of these steps, which have so many entries, at this depth of buffers.
fn table_of(alloc: Global, steps: &[Step], entries: usize, depth: u32) -> Result<Arcs, OutOfMemory>
    requires few { length steps.now ≤ 2 ^ 22 }
    requires sized { AreSized entries steps.now }
    ensures { IfOk result (IsFilled depth entries steps.now) }
{
    let acts = acts_by_entry(alloc, steps, entries)?;
    let readers = readers_of(alloc, steps, acts.as_slice())?;
    let last = last_acts(steps);
    let mut before = Ends::new();
    let mut rows = Vec::with_capacity(alloc, steps.len())?;
    for (act, step) in steps.iter().enumerate() {
        let arc = line_arc(&before, &last, step.line);
        let read = readers[act].as_slice();
        rows.push(full_row(
            alloc,
            arc,
            step.sources.as_slice(),
            acts.as_slice(),
            read,
            depth,
        )?)?;
        before.note(step.line, act as u64 + 1);
    }
    Ok(Arcs::new(rows))
}

/// Of each entry the number of its act.
fn acts_by_entry(alloc: Global, steps: &[Step], entries: usize) -> Result<Vec<u32>, OutOfMemory>
    requires few { length steps.now ≤ 2 ^ 22 }
    requires sized { AreSized entries steps.now }
    ensures { IfOk result (λ v. v.items ≡ entered 0 steps.now (replicate entries 0)) }
{
    let mut acts = vec![in alloc; 0; entries]?;
    for (act, step) in steps.iter().enumerate() {
        acts[step.entry] = act as u32;
    }
    Ok(acts)
}

/// Of each act those that read in other lines what it makes.
fn readers_of(alloc: Global, steps: &[Step], acts: &[u32]) -> Result<Vec<Acts>, OutOfMemory>
    requires few { length steps.now ≤ 2 ^ 22 }
    ensures size { IfOk result (λ v. length v.items ≡ length steps.now) }
    ensures read { IfOk result (λ v. v.items
        ≡ with_steps steps.now acts.now 0 steps.now (replicate (length steps.now) [])) }
{
    let mut readers = no_readers(alloc, steps.len())?;
    for (act, step) in steps.iter().enumerate() {
        note_reader(&mut readers, steps, acts, act as u32, step)?;
    }
    Ok(readers)
}

/// No readers, for each act.
fn no_readers(alloc: Global, count: usize) -> Result<Vec<Acts>, OutOfMemory>
    ensures { IfOk result (λ v. v.items ≡ replicate count []) }
{
    let mut readers = Vec::with_capacity(alloc, count)?;
    for _act in 0..count {
        readers.push(Acts::none(alloc))?;
    }
    Ok(readers)
}

/// The act of this step reads what its sources make.
fn note_reader(
    readers: &mut Vec<Acts>,
    steps: &[Step],
    acts: &[u32],
    act: u32,
    step: &Step,
) -> Result<(), OutOfMemory>
    requires each { length readers.old.items ≡ length steps.now }
    ensures size { OnOk result (length readers.new.items ≡ length steps.now) }
    ensures read { OnOk result (readers.new.items
        ≡ with_sources steps.now acts.now act step.now.line step.now.sources readers.old.items) }
{
    for source in step.sources.as_slice() {
        let maker = act_at(acts, *source) as usize;
        if !is_step_in(steps, maker, step.line) {
            readers[maker].push(act)?;
        }
    }
    Ok(())
}

/// The number of the act of this entry.
fn act_at(acts: &[u32], entry: usize) -> u32
    ensures { result ≡ at acts.now entry }
{
    if entry < acts.len() { acts[entry] } else { 0 }
}

/// Whether the step, if there is one, is in this line.
fn is_step_in(steps: &[Step], act: usize, line: Line) -> bool
    ensures { result ≡ is_step_in (slice_get steps.now act) line }
{
    if act < steps.len() {
        is_same_line(steps[act].line, line)
    } else {
        true
    }
}

/// Whether both lines are the same one.
fn is_same_line(first: Line, second: Line) -> bool
    ensures { result ≡ is_same_line first second }
{
    match (first, second) {
        (Line::Operator(one), Line::Operator(other)) => other == one,
        (Line::Medium(one), Line::Medium(other)) => other == one,
        _ => false,
    }
}

/// In each line the last act of these steps: its number plus 1, in the place of an end.
fn last_acts(steps: &[Step]) -> Ends
    requires few { length steps.now ≤ 2 ^ 22 }
    requires lined { AreLined steps.now }
    ensures { AreLast steps.now result }
{
    let mut last = Ends::new();
    for (act, step) in steps.iter().enumerate() {
        last.note(step.line, act as u64 + 1);
    }
    last
}

/// The arc of an act in this line, by the last acts before it and by those of all.
fn line_arc(before: &Ends, last: &Ends, line: Line) -> Arc
    requires there { IsLine line }
    requires before { AreLow (2 ^ 22) before.now }
    requires last { AreLow (2 ^ 22) last.now }
    ensures { result ≡ line_arc before.now last.now line }
{
    match before.last(line) {
        0 => Arc {
            act: last.last(line).saturating_sub(1) as u32,
            lag: 1,
        },
        number => Arc {
            act: (number - 1) as u32,
            lag: 0,
        },
    }
}

/// The arcs of an act: that of its line, those to what makes what it reads, and those to its
/// readers.
fn full_row(
    alloc: Global,
    arc: Arc,
    sources: &[usize],
    acts: &[u32],
    readers: &[u32],
    depth: u32,
) -> Result<Items<Arc>, OutOfMemory>
    ensures { IfOk result (λ row. row ≡ full_row depth acts.now arc sources.now readers.now) }
{
    let mut row = vec![in alloc; arc]?;
    add_makers(&mut row, sources, acts)?;
    add_readers(&mut row, readers, depth)?;
    Ok(Items::new(row))
}

/// Appends the arcs to what makes the values of these entries, in the same reaction.
fn add_makers(row: &mut Vec<Arc>, sources: &[usize], acts: &[u32]) -> Result<(), OutOfMemory>
    ensures { OnOk result (row.new.items
        ≡ row.old.items ++ map (λ e. arc 0 (at acts.now e)) sources.now) }
{
    for source in sources {
        row.push(Arc {
            act: act_at(acts, *source),
            lag: 0,
        })?;
    }
    Ok(())
}

/// Appends the arcs to these readers, as many reactions before as buffers have places.
fn add_readers(row: &mut Vec<Arc>, readers: &[u32], depth: u32) -> Result<(), OutOfMemory>
    ensures { OnOk result (row.new.items
        ≡ row.old.items ++ map (λ j. arc depth j) readers.now) }
{
    for reader in readers {
        row.push(Arc {
            act: *reader,
            lag: depth,
        })?;
    }
    Ok(())
}
