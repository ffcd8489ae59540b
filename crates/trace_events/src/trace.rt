//! The trace of all reactions, which `dates_trace` returns.
ghost use Rattle.std.specs.Prelude.{[], ◌≡◌, ◌++◌, ◌≤◌, IfOk, OnOk, length};
ghost use Rattle.self_timed.specs.Acts.{acts, acts_of};
ghost use Rattle.self_timed.specs.Built.{program_of};
ghost use Rattle.self_timed.specs.Entries.{AreWithin};
ghost use Rattle.self_timed.specs.Told.{HaveEntries, IsValidForSome, entries_of};
ghost use Rattle.dates_text.specs.Listing.{dated_in};
ghost use Rattle.dates_text.specs.Printed.{EachFits, HaveSpans, dates_up_to, entry_span};
ghost use Rattle.trace_events.specs.DatesTrace.{dates_trace, told, trace_of};

use crate::act::Traced;
use crate::frame::{append_closing, append_lanes, append_opening};
use crate::reaction::{Reaction, append_reaction};
use self_timed::{Actual, Archi, Dates, Flat, Program, Schedule, dates_of};
use std::alloc::Global;
use syn_base::OutOfMemory;

/// The trace of the dates of a schedule whose reactions last these ticks, in the lanes of the
/// chart's trace: for each transfer and each operation of each reaction a complete event on the
/// thread of its medium or its operator, from its start to its end as `dates_of` computes them, and
/// the flows of that reaction. The schedule is valid for some durations, `program` is its program,
/// and no entry lasts longer than stated.
pub fn dates_trace(
    alloc: Global,
    flat: &Flat,
    archi: &Archi,
    schedule: &Schedule,
    program: &Program,
    actual: &Actual,
) -> Result<Vec<u8>, OutOfMemory>
    requires valid { IsValidForSome flat.now archi.now schedule.now }
    requires program { program.now ≡ program_of flat.now archi.now schedule.now }
    requires few { length actual.now ≤ 1000 }
    requires entries { HaveEntries (entries_of flat.now schedule.now) actual.now }
    requires within { AreWithin flat.now.vertices (acts schedule.now) actual.now }
    ensures { IfOk result (λ text. text.items ≡
        dates_trace flat.now archi.now schedule.now actual.now) }
{
    let dates = dates_of(alloc, flat, archi, schedule, program, actual)?;
    trace_of(alloc, flat, archi, schedule, &dates)
}

/// The trace of these dates, which have an entry for each operation and each transfer.
fn trace_of(
    alloc: Global,
    flat: &Flat,
    archi: &Archi,
    schedule: &Schedule,
    dates: &Dates,
) -> Result<Vec<u8>, OutOfMemory>
    requires valid { IsValidForSome flat.now archi.now schedule.now }
    requires entries { HaveSpans flat.now schedule.now dates.now }
    ensures { IfOk result (λ text. text.items ≡ trace_of flat.now archi.now schedule.now
        (dated_in (entry_span flat.now schedule.now dates.now) (length dates.now) (acts
        schedule.now))) }
{
    let traced = Traced {
        vertices: flat.vertices(),
        operators: archi.operators(),
        decisions: schedule.decisions.as_slice(),
    };
    let mut text = Vec::new(alloc);
    append_opening(&mut text)?;
    append_lanes(&mut text, archi)?;
    append_reactions(&mut text, &traced, dates)?;
    append_closing(&mut text)?;
    Ok(text)
}

/// Appends the events of all reactions.
fn append_reactions(out: &mut Vec<u8>, traced: &Traced, dates: &Dates) -> Result<(), OutOfMemory>
    requires { EachFits (record { vertices = traced.now.vertices.now; bodies = [] })
        traced.now.decisions.now dates.now }
    ensures { OnOk result (out.new.items ≡ out.old.items ++
        told traced.now.vertices.now traced.now.operators.now traced.now.decisions.now
        (dates_up_to dates.now (length traced.now.vertices.now) (acts_of traced.now.decisions.now)
        (length dates.now))) }
{
    for number in 0..dates.reactions() {
        let reaction = Reaction {
            traced: *traced,
            dates,
            number,
        };
        append_reaction(out, &reaction)?;
    }
    Ok(())
}
