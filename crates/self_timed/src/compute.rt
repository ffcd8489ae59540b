//! The computation of all reactions' dates: `dates_of`, which `dates_text` calls, and
//! `dates_at_depth`, which needs no program.
ghost use Rattle.std.specs.Prelude.{◌≡◌, ◌≤◌, IfOk, length};
ghost use Rattle.sequence_build_laws.specs.Acts.{acts};
ghost use Rattle.sequence_build_laws.specs.Built.{program_of};
ghost use Rattle.self_timed.specs.Entries.{AreWithin};
ghost use Rattle.self_timed.specs.Depths.{deepest};
ghost use Rattle.self_timed.specs.Told.{AreDatesOf, EndInTime, HaveEntries, HaveDepth, IsValidForSome, StartsAsStated, entries_of};

use crate::actual::Actual;
use crate::dates::Dates;
use crate::layout::plan_of;
use crate::line::Ends;
use crate::reaction::next_reaction;
use sequence_build_laws::{Archi, Flat, Program, Schedule};
use std::alloc::Global;
use syn_base::{Items, OutOfMemory};

/// When each entry of a schedule starts and ends in each reaction, where the entries last as long as they
/// really do and wait for nothing but what must precede them: the act before on their operator or medium,
/// what makes what they read, and, as many reactions before as buffers have places, those that read in
/// another sequence what they made. The schedule is valid for some durations, `program` is its program,
/// and no entry lasts longer than stated. Then none ends later than stated; and where all entries of the
/// first reaction last as stated and the schedule is tight, that reaction has the schedule's dates. What
/// must precede each act is found once, so the time is in proportion to the reactions and what the acts
/// read.
pub fn dates_of(
    alloc: Global,
    flat: &Flat,
    archi: &Archi,
    schedule: &Schedule,
    program: &Program,
    actual: &Actual,
) -> Result<Dates, OutOfMemory>
    requires valid { IsValidForSome flat.now archi.now schedule.now }
    requires program { program.now ≡ program_of flat.now archi.now schedule.now }
    requires few { length actual.now ≤ 1000 }
    requires entries { HaveEntries (entries_of flat.now schedule.now) actual.now }
    requires within { AreWithin flat.now.vertices (acts schedule.now) actual.now }
    ensures dates { IfOk result (AreDatesOf archi.now.depth flat.now schedule.now actual.now) }
    ensures in_time { IfOk result (EndInTime flat.now schedule.now) }
    ensures first { IfOk result (StartsAsStated flat.now schedule.now actual.now) }
{
    // The proof takes from these calls what the architecture and the flat graph keep.
    let _operators = archi.operators();
    let _depth = archi.depth();
    let _vertices = flat.vertices();
    dates_with(alloc, flat, archi, schedule, depth_of(program), actual)
}

/// The same without a program: buffers that are read in another sequence have as many places as the
/// architecture says.
pub fn dates_at_depth(
    alloc: Global,
    flat: &Flat,
    archi: &Archi,
    schedule: &Schedule,
    actual: &Actual,
) -> Result<Dates, OutOfMemory>
    requires valid { IsValidForSome flat.now archi.now schedule.now }
    requires few { length actual.now ≤ 1000 }
    requires entries { HaveEntries (entries_of flat.now schedule.now) actual.now }
    requires within { AreWithin flat.now.vertices (acts schedule.now) actual.now }
    ensures dates { IfOk result (AreDatesOf archi.now.depth flat.now schedule.now actual.now) }
    ensures in_time { IfOk result (EndInTime flat.now schedule.now) }
    ensures first { IfOk result (StartsAsStated flat.now schedule.now actual.now) }
{
    dates_with(alloc, flat, archi, schedule, archi.depth() as usize, actual)
}

/// The same, where buffers that are read in another sequence have this many places.
fn dates_with(
    alloc: Global,
    flat: &Flat,
    archi: &Archi,
    schedule: &Schedule,
    depth: usize,
    actual: &Actual,
) -> Result<Dates, OutOfMemory>
    requires valid { IsValidForSome flat.now archi.now schedule.now }
    requires depth { HaveDepth flat.now archi.now schedule.now depth }
    requires few { length actual.now ≤ 1000 }
    requires entries { HaveEntries (entries_of flat.now schedule.now) actual.now }
    requires within { AreWithin flat.now.vertices (acts schedule.now) actual.now }
    ensures dates { IfOk result (AreDatesOf archi.now.depth flat.now schedule.now actual.now) }
    ensures in_time { IfOk result (EndInTime flat.now schedule.now) }
    ensures first { IfOk result (StartsAsStated flat.now schedule.now actual.now) }
{
    // The proof takes from these calls what the architecture keeps: it is valid, and its depth is 1 to 4.
    let _operators = archi.operators();
    let _depth = archi.depth();
    let plan = plan_of(alloc, flat.vertices(), schedule.decisions.as_slice())?;
    let mut ends = Ends::new();
    let mut reactions = Vec::new(alloc);
    for ticks in actual.reactions() {
        let row = next_reaction(
            alloc,
            &plan,
            depth,
            reactions.as_slice(),
            ticks.as_slice(),
            &mut ends,
        )?;
        reactions.push(Items::new(row))?;
    }
    Ok(Dates::new(reactions))
}

/// How many places the buffers that are read in another sequence have, 1 where there is none.
fn depth_of(program: &Program) -> usize
    ensures { result ≡ deepest program.now.buffers }
{
    let mut depth = 1;
    for buffer in program.buffers.as_slice() {
        depth = (buffer.depth as usize).max(depth);
    }
    depth
}
