//! The making of a fabric with its drivers.
ghost use Rattle.std.specs.Prelude.{◌≡◌, ℕ, ◌<◌, ◌≤◌, ◌+◌, ◌^◌, length, map, slice_index_or, IfOk};
ghost use Rattle.word_rule.specs.Job.{zero_rows};
ghost use Rattle.word_rule.specs.Views.{first_view};
ghost use Rattle.word_rule.specs.Given.{RunsOnWords};
ghost use Rattle.word_rule.specs.Words.{element_lens, elements_start, table_len, turn_word};
ghost use Rattle.word_table.specs.Driver.{AreDrivers, AreNew};
ghost use Rattle.word_table.specs.Parts.{AreLaid, AreFabricParts, fabric_view};
ghost use Rattle.word_table.specs.Weaving.{DrivesGroup, IsLeft, IsGroup, IsFirst, AreFirst, starts_from, end_from};
ghost use Rattle.executive_program.specs.FlatLaws.{actuator_lens};

use crate::driver_parts::DriverParts;
use crate::fabric::{Driver, Fabric};
use crate::fabric_parts::FabricParts;
use crate::loop_place::LoopPlace;
use crate::owners::{called_in, callers_of, cell_owners};
use crate::remains::Remains;
use executive_program::micro_steps_of;
use std::alloc::Global;
use syn_base::{ActRows, Items, OutOfMemory, to_u32};
use word_rule::{
    Job, OwnParts, WordSeat, WordTable, cells_and_rows, job_runs_on_words, words_of, zero_elements,
};

/// The opening cells of a job's delays, and rows of zeros of all its actuators, as the end of a fabric keeps them.
fn cells_of(alloc: Global, job: &Job) -> Result<(Vec<Items<i64>>, ActRows), OutOfMemory>
    ensures cells { IfOk result (λ t. t.0.items ≡ job.now.opening) }
    ensures lens { IfOk result (λ t. t.1.lens ≡ actuator_lens job.now.graph job.now.graph.vertices) }
    ensures rows { IfOk result (λ t. t.1.reactions ≡ zero_rows job.now) }
{
    let (cells, rows) = cells_and_rows(alloc, job)?;
    Ok((items_of(alloc, cells)?, rows))
}

/// What is laid out for the end of a table of this many words and the spare one.
fn remains_of(alloc: Global, job: &Job, len: usize) -> Result<Remains, OutOfMemory>
    requires { len ≡ table_len job.now }
    ensures { IfOk result (λ r. AreLaid job.now r) }
{
    let vertices = job.flat().vertices();
    let counts = words_of(alloc, 0, job.program().seqs.as_slice().len())?;
    let words = words_of(alloc, 0, len - 1)?;
    let callers = callers_of(alloc, job.program(), vertices.len())?;
    let cell_owners = cell_owners(alloc, vertices, callers.as_slice())?;
    let (cells, rows) = cells_of(alloc, job)?;
    Ok(Remains {
        counts,
        words,
        cells,
        rows,
        callers,
        cell_owners,
    })
}

/// These lists, each as one that contracts see by its elements.
fn items_of(alloc: Global, lists: Vec<Vec<i64>>) -> Result<Vec<Items<i64>>, OutOfMemory>
    ensures { IfOk result (λ r. r.items ≡ map (λ l. l.items) lists.items) }
{
    let mut all = Vec::new(alloc);
    for list in lists {
        all.push(Items::new(list))?;
    }
    Ok(all)
}

/// Where each list of elements begins, the first at this word, and where the last one ends.
fn starts_of(
    alloc: Global,
    elements: &[Items<i64>],
    first: usize,
) -> Result<(Vec<usize>, usize), OutOfMemory>
    ensures starts { IfOk result (λ t. t.0.items ≡ starts_from first elements.now) }
    ensures end { IfOk result (λ t. t.1 ≡ end_from first elements.now) }
{
    let mut starts = Vec::new(alloc);
    let mut next = first;
    for list in elements {
        starts.push(next)?;
        match next.checked_add(list.as_slice().len()) {
            Some(after) => next = after,
            None => return Err(OutOfMemory),
        }
    }
    Ok((starts, next))
}

/// Where the words of a table stand: the word of the first turn, where the elements of each buffer and wire
/// begin, and how many words there are.
#[derive(Drop)]
struct Layout {
    turns: usize,
    starts: Vec<usize>,
    len: usize,
}

/// Where the words of a job's table stand.
fn layout_of(alloc: Global, job: &Job) -> Result<Layout, OutOfMemory>
    ensures turns { IfOk result (λ l. l.turns ≡ turn_word job.now 0) }
    ensures starts_there { IfOk result (λ l. length l.starts.items ≡ length (element_lens job.now)) }
    ensures starts { IfOk result (λ l. (h : ℕ) → h < length l.starts.items →
        slice_index_or l.starts.items h 0 ≡ elements_start job.now h) }
    ensures len { IfOk result (λ l. l.len ≡ table_len job.now) }
{
    let program = job.program();
    let turns = 1 + 2 * program.pairs.as_slice().len();
    let Some(first) = turns.checked_add(job.media()) else {
        return Err(OutOfMemory);
    };
    let elements = zero_elements(alloc, program, to_u32(job.media())?)?;
    let (starts, len) = starts_of(alloc, elements.as_slice(), first)?;
    Ok(Layout { turns, starts, len })
}

/// The table of a job, which has this many words, and a seat for all of its sequences.
fn open_table<'a>(
    alloc: Global,
    job: &'a Job<'a>,
    len: usize,
) -> Result<(WordTable<'a>, WordSeat<'a>), OutOfMemory>
    requires runs { RunsOnWords job.now }
    requires len { len ≡ table_len job.now }
    ensures key { IfOk result (λ t. t.0.key ≡ job.now) }
    ensures seat { IfOk result (λ t. t.1 ≡ record { table = t.0.table; view = first_view job.now }) }
    ensures few { IfOk result (λ t. table_len job.now < 2 ^ 64) }
{
    let words = words_of(alloc, 0, len)?;
    let opened = WordTable::open(alloc, job, words.as_slice())?;
    Ok(opened)
}

/// The table of a job with its micro-steps laid out, and a seat for all of its sequences.
fn fabric_of<'a>(
    alloc: Global,
    job: &'a Job<'a>,
    groups: u32,
) -> Result<(FabricParts<'a>, WordSeat<'a>), OutOfMemory>
    requires { 0 < groups }
    ensures fabric { IfOk result (λ t. AreFabricParts t.0 × (t.0.job.now ≡ job.now) × (t.0.groups ≡ groups)) }
    ensures seat { IfOk result (λ t. t.1 ≡ record { table = t.0.table.table; view = first_view job.now }) }
{
    job_runs_on_words(job);
    let Layout { turns, starts, len } = layout_of(alloc, job)?;
    let steps = micro_steps_of(alloc, job.program())?;
    let remains = remains_of(alloc, job, len)?;
    let (table, seat) = open_table(alloc, job, len)?;
    let fabric = FabricParts {
        table,
        job,
        groups,
        steps,
        turns,
        starts,
        remains,
    };
    Ok((fabric, seat))
}

/// A driver of a group with this seat, whose sequences have made no micro-step.
fn driver_of<'a>(
    alloc: Global,
    fabric: &FabricParts<'a>,
    seat: WordSeat<'a>,
    group: u32,
) -> Result<DriverParts<'a>, OutOfMemory>
    requires fabric { AreFabricParts fabric.now }
    requires view { DrivesGroup fabric.now.job.now fabric.now.groups group seat.view }
    ensures { IfOk result (λ d. IsGroup fabric.now seat.entry group d) }
{
    let job = fabric.job;
    let called = called_in(
        alloc,
        fabric.remains.callers.as_slice(),
        fabric.groups,
        group,
    )?;
    let sequences = job.program().seqs.as_slice().len();
    let counts = words_of(alloc, 0, sequences)?;
    let own = OwnParts::for_some(alloc, job, fabric.steps.as_slice(), called.as_slice())?;
    Ok(DriverParts {
        seat,
        job,
        groups: fabric.groups,
        group,
        counts,
        own,
    })
}

/// The driver of a group, whose sequences are split off from those that are left.
fn group_of<'a>(
    alloc: Global,
    fabric: &FabricParts<'a>,
    seat: &mut WordSeat<'a>,
    group: u32,
) -> Result<Driver<'a>, OutOfMemory>
    requires fabric { AreFabricParts fabric.now }
    requires seat { seat.old.table ≡ fabric.now.table.table }
    requires left { IsLeft fabric.now.job.now fabric.now.groups group seat.old.view }
    ensures driver { IfOk result (λ d. IsFirst (fabric_view fabric.now) group d) }
    ensures seat { seat.new.table ≡ seat.old.table }
    ensures left { IsLeft fabric.now.job.now fabric.now.groups (group + 1) seat.new.view }
{
    let mine = fabric.table.split(seat, fabric.groups, group);
    let parts = driver_of(alloc, fabric, mine, group)?;
    let sequences = fabric.job.program().seqs.as_slice().len();
    let places = vec![in alloc; LoopPlace::FIRST; sequences]?;
    Ok(Driver { parts, places })
}

/// A driver for each group of sequences.
fn drivers_of<'a>(
    alloc: Global,
    fabric: &FabricParts<'a>,
    seat: &mut WordSeat<'a>,
) -> Result<Vec<Driver<'a>>, OutOfMemory>
    requires fabric { AreFabricParts fabric.now }
    requires seat { seat.old ≡ record { table = fabric.now.table.table; view = first_view fabric.now.job.now } }
    ensures { IfOk result (λ ds. AreFirst (fabric_view fabric.now) 0 ds.items × (length ds.items ≡ fabric.now.groups)) }
{
    let mut drivers = Vec::new(alloc);
    for group in 0..fabric.groups {
        drivers.push(group_of(alloc, fabric, seat, group)?)?;
    }
    Ok(drivers)
}

/// A table for a job, and its drivers. Driver g drives the sequences whose number leaves g when it is
/// divided by the number of groups. Both borrow the job. All memory that the drivers and the end of the
/// fabric need is taken here.
pub fn weave<'a>(
    alloc: Global,
    job: &'a Job<'a>,
    groups: u32,
) -> Result<(Fabric<'a>, Vec<Driver<'a>>), OutOfMemory>
    requires { (1 ≤ groups) × (groups ≤ 80) }
    ensures fabric { IfOk result (λ t. (t.0.job ≡ job.now) × (t.0.groups ≡ groups)) }
    ensures drivers { IfOk result (λ t. AreDrivers t.0 t.1.items) }
    ensures new { IfOk result (λ t. AreNew t.1.items) }
{
    let (fabric, mut seat) = fabric_of(alloc, job, groups)?;
    let drivers = drivers_of(alloc, &fabric, &mut seat)?;
    Ok((Fabric { parts: fabric }, drivers))
}
