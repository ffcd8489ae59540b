//! The part of a listing that tells of one reaction.
ghost use Rattle.std.specs.Prelude.{◌+◌, ◌++◌, ◌∷◌, [], ◌≡◌, ◌≤◌, ◌<◌, IfOk, length, map};
ghost use Rattle.self_timed.specs.Acts.{acts_of, carry, run};
ghost use Rattle.self_timed.specs.Told.{reaction_at, span_at};
ghost use Rattle.dates_text.specs.Printed.{Appends, Fit, dated_by};

use crate::line::{Reaction, append_operation, append_transfer};
use self_timed::{Decision, Span, Transfer};
use syn_base::OutOfMemory;

/// Appends the lines of a reaction, decision by decision, and returns its latest end.
pub fn append_reaction(
    out: &mut Vec<u8>,
    reaction: &Reaction,
    decisions: &[Decision],
) -> Result<u64, OutOfMemory>
    requires there { reaction.now.number < length reaction.now.dates.now }
    requires fit { Fit (length (reaction_at reaction.now.dates.now reaction.now.number))
        (length reaction.now.flat.now.vertices) decisions.now }
    ensures { IfOk result (λ end. Appends reaction.now.flat.now reaction.now.archi.now out.old.items out.new.items end
        (dated_by reaction.now.number (reaction_at reaction.now.dates.now reaction.now.number)
        (length reaction.now.flat.now.vertices) (acts_of decisions.now))) }
{
    // The proof takes from this call that the number of entries has 64 bits, which bounds the sums.
    let _entries = reaction.dates.entries(reaction.number);
    let mut latest = 0;
    let mut next = reaction.flat.vertices().len();
    for decision in decisions {
        latest = append_decision(out, reaction, decision, next)?.max(latest);
        next += decision.transfers.as_slice().len();
    }
    Ok(latest)
}

/// Appends the lines of a decision's transfers, of which the first has the entry `next`, and then of its
/// operation, and returns their latest end.
fn append_decision(
    out: &mut Vec<u8>,
    reaction: &Reaction,
    decision: &Decision,
    next: usize,
) -> Result<u64, OutOfMemory>
    requires there { reaction.now.number < length reaction.now.dates.now }
    requires fit { Fit (length (reaction_at reaction.now.dates.now reaction.now.number)) next (decision.now ∷ []) }
    ensures { IfOk result (λ end. Appends reaction.now.flat.now reaction.now.archi.now out.old.items out.new.items end
        (dated_by reaction.now.number (reaction_at reaction.now.dates.now reaction.now.number)
        next (map carry decision.now.transfers ++ run decision.now ∷ []))) }
{
    let last = append_transfers(out, reaction, decision.transfers.as_slice(), next)?;
    let span = span_of(reaction, decision.op as usize);
    append_operation(out, reaction, span, decision)?;
    Ok(span.end.max(last))
}

/// Appends the lines of transfers, of which the first has the entry `first`, and returns their latest end.
fn append_transfers(
    out: &mut Vec<u8>,
    reaction: &Reaction,
    transfers: &[Transfer],
    first: usize,
) -> Result<u64, OutOfMemory>
    requires there { reaction.now.number < length reaction.now.dates.now }
    requires fit { first + length transfers.now ≤ length (reaction_at reaction.now.dates.now reaction.now.number) }
    ensures { IfOk result (λ end. Appends reaction.now.flat.now reaction.now.archi.now out.old.items out.new.items end
        (dated_by reaction.now.number (reaction_at reaction.now.dates.now reaction.now.number)
        first (map carry transfers.now))) }
{
    // The proof takes from this call that the number of entries has 64 bits, which bounds the sum.
    let _entries = reaction.dates.entries(reaction.number);
    let mut latest = 0;
    for (place, transfer) in transfers.iter().enumerate() {
        let entry = first + place;
        let span = span_of(reaction, entry);
        append_transfer(out, reaction, span, *transfer)?;
        latest = span.end.max(latest);
    }
    Ok(latest)
}

/// When an entry starts and ends.
fn span_of(reaction: &Reaction, entry: usize) -> Span
    requires there { reaction.now.number < length reaction.now.dates.now }
    requires entry { entry < length (reaction_at reaction.now.dates.now reaction.now.number) }
    ensures { result ≡ span_at reaction.now.dates.now reaction.now.number entry }
{
    Span {
        start: reaction.dates.start(reaction.number, entry),
        end: reaction.dates.end(reaction.number, entry),
    }
}
