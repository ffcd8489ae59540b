//! The trace of a chart as a whole.
ghost use Rattle.std.specs.Prelude.{◌≡◌, ◌++◌, ◌∷◌, [], OnErr, OnOk, map};
ghost use Rattle.self_timed.specs.Acts.{acts_of, carry, run};
ghost use Rattle.trace_events.specs.Printed.{charted};
ghost use Rattle.trace_events.specs.Trace.{chart_trace};

use crate::act::{Traced, append_operation, append_transfer};
use crate::event::Moment;
use crate::frame::{append_closing, append_lanes, append_opening};
use self_timed::{Archi, Decision, Flat, Schedule, Transfer};
use std::alloc::Global;
use syn_base::OutOfMemory;

/// Appends the trace of a schedule's chart, a JSON text with an event on each line: for each
/// operator and each medium the name and the rank of its thread; for each transfer and each
/// operation, in order of the decisions, a complete event from its start to its end, in ticks, on
/// the thread of its medium or its operator; for each transfer the start of a flow, and for each
/// act that reads what a transfer has brought the flow's end. What the schedule names and is not
/// there has an empty name. After want of memory `out` is as before.
pub fn print_chart_trace(
    alloc: Global,
    flat: &Flat,
    archi: &Archi,
    schedule: &Schedule,
    out: &mut Vec<u8>,
) -> Result<(), OutOfMemory>
    ensures text { OnOk result (out.new.items ≡ out.old.items ++
        chart_trace flat.now archi.now schedule.now) }
    ensures err { OnErr result (out.new.items ≡ out.old.items) }
{
    let mut text = Vec::new(alloc);
    append_trace(&mut text, flat, archi, schedule)?;
    out.extend_from_slice(&text)?;
    Ok(())
}

/// Appends the whole trace. After want of memory part of it may stand there.
fn append_trace(
    out: &mut Vec<u8>,
    flat: &Flat,
    archi: &Archi,
    schedule: &Schedule,
) -> Result<(), OutOfMemory>
    ensures { OnOk result (out.new.items ≡ out.old.items ++
        chart_trace flat.now archi.now schedule.now) }
{
    let traced = Traced {
        vertices: flat.vertices(),
        operators: archi.operators(),
        decisions: schedule.decisions.as_slice(),
    };
    append_opening(out)?;
    append_lanes(out, archi)?;
    append_decisions(out, &traced)?;
    append_closing(out)
}

/// Appends the events of all decisions.
fn append_decisions(out: &mut Vec<u8>, traced: &Traced) -> Result<(), OutOfMemory>
    ensures { OnOk result (out.new.items ≡ out.old.items ++ charted traced.now.vertices.now
        traced.now.operators.now traced.now.decisions.now (acts_of traced.now.decisions.now)) }
{
    for decision in traced.decisions {
        append_decision(out, traced, decision)?;
    }
    Ok(())
}

/// Appends the events of a decision's transfers, and then of its operation.
fn append_decision(
    out: &mut Vec<u8>,
    traced: &Traced,
    decision: &Decision,
) -> Result<(), OutOfMemory>
    ensures { OnOk result (out.new.items ≡ out.old.items ++ charted traced.now.vertices.now
        traced.now.operators.now traced.now.decisions.now (map carry decision.now.transfers ++
        run decision.now ∷ [])) }
{
    append_transfers(out, traced, decision.transfers.as_slice())?;
    let moment = Moment {
        reaction: 0,
        start: decision.start,
        end: decision.end,
    };
    append_operation(out, traced, moment, decision)
}

/// Appends the events of these transfers.
fn append_transfers(
    out: &mut Vec<u8>,
    traced: &Traced,
    transfers: &[Transfer],
) -> Result<(), OutOfMemory>
    ensures { OnOk result (out.new.items ≡ out.old.items ++ charted traced.now.vertices.now
        traced.now.operators.now traced.now.decisions.now (map carry transfers.now)) }
{
    for transfer in transfers {
        let moment = Moment {
            reaction: 0,
            start: transfer.start,
            end: transfer.end,
        };
        append_transfer(out, traced, moment, *transfer)?;
    }
    Ok(())
}
