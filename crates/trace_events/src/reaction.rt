//! The events of one reaction.
ghost use Rattle.std.specs.Prelude.{◌+◌, ◌++◌, ◌∷◌, [], ◌≡◌, ◌≤◌, ◌<◌, OnOk, length, map};
ghost use Rattle.self_timed.specs.Acts.{acts_of, carry, run};
ghost use Rattle.self_timed.specs.Told.{reaction_at, span_at};
ghost use Rattle.dates_text.specs.Printed.{Fit, dated_by};
ghost use Rattle.trace_events.specs.DatesTrace.{moment_in, told};

use crate::act::{Traced, append_operation, append_transfer};
use crate::event::Moment;
use self_timed::{Dates, Decision, Transfer};
use syn_base::OutOfMemory;

/// A reaction of which a trace tells, by its number.
#[derive(Clone, Copy)]
pub struct Reaction<'a> {
    pub traced: Traced<'a>,
    pub dates: &'a Dates,
    pub number: usize,
}

/// Appends the events of a reaction, decision by decision.
pub fn append_reaction(out: &mut Vec<u8>, reaction: &Reaction) -> Result<(), OutOfMemory>
    requires there { reaction.now.number < length reaction.now.dates.now }
    requires fit { Fit (length (reaction_at reaction.now.dates.now reaction.now.number))
        (length reaction.now.traced.vertices.now) reaction.now.traced.decisions.now }
    ensures { OnOk result (out.new.items ≡ out.old.items ++ told reaction.now.traced.vertices.now
        reaction.now.traced.operators.now reaction.now.traced.decisions.now
        (dated_by reaction.now.number (reaction_at reaction.now.dates.now reaction.now.number)
        (length reaction.now.traced.vertices.now) (acts_of reaction.now.traced.decisions.now))) }
{
    // The proof takes from this call that the number of entries has 64 bits, which bounds the sums.
    let _entries = reaction.dates.entries(reaction.number);
    let mut next = reaction.traced.vertices.len();
    for decision in reaction.traced.decisions {
        append_decision(out, reaction, decision, next)?;
        next += decision.transfers.as_slice().len();
    }
    Ok(())
}

/// Appends the events of a decision's transfers, of which the first has the entry `next`, and then
/// of its operation.
fn append_decision(
    out: &mut Vec<u8>,
    reaction: &Reaction,
    decision: &Decision,
    next: usize,
) -> Result<(), OutOfMemory>
    requires there { reaction.now.number < length reaction.now.dates.now }
    requires fit { Fit (length (reaction_at reaction.now.dates.now reaction.now.number)) next
        (decision.now ∷ []) }
    ensures { OnOk result (out.new.items ≡ out.old.items ++ told reaction.now.traced.vertices.now
        reaction.now.traced.operators.now reaction.now.traced.decisions.now
        (dated_by reaction.now.number (reaction_at reaction.now.dates.now reaction.now.number)
        next (map carry decision.now.transfers ++ run decision.now ∷ []))) }
{
    append_transfers(out, reaction, decision.transfers.as_slice(), next)?;
    let moment = moment_of(reaction, decision.op as usize);
    append_operation(out, &reaction.traced, moment, decision)
}

/// Appends the events of transfers, of which the first has the entry `first`.
fn append_transfers(
    out: &mut Vec<u8>,
    reaction: &Reaction,
    transfers: &[Transfer],
    first: usize,
) -> Result<(), OutOfMemory>
    requires there { reaction.now.number < length reaction.now.dates.now }
    requires fit { first + length transfers.now ≤ length (reaction_at reaction.now.dates.now
        reaction.now.number) }
    ensures { OnOk result (out.new.items ≡ out.old.items ++ told reaction.now.traced.vertices.now
        reaction.now.traced.operators.now reaction.now.traced.decisions.now
        (dated_by reaction.now.number (reaction_at reaction.now.dates.now reaction.now.number)
        first (map carry transfers.now))) }
{
    // The proof takes from this call that the number of entries has 64 bits, which bounds the sum.
    let _entries = reaction.dates.entries(reaction.number);
    for (place, transfer) in transfers.iter().enumerate() {
        let moment = moment_of(reaction, first + place);
        append_transfer(out, &reaction.traced, moment, *transfer)?;
    }
    Ok(())
}

/// When an entry lasts.
fn moment_of(reaction: &Reaction, entry: usize) -> Moment
    requires there { reaction.now.number < length reaction.now.dates.now }
    requires entry { entry < length (reaction_at reaction.now.dates.now reaction.now.number) }
    ensures { result ≡
        moment_in reaction.now.number (span_at reaction.now.dates.now reaction.now.number entry) }
{
    Moment {
        reaction: reaction.number,
        start: reaction.dates.start(reaction.number, entry),
        end: reaction.dates.end(reaction.number, entry),
    }
}
