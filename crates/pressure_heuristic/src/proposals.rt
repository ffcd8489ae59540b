//! Proposals: for each candidate an operator on which its pressure is likely least. They spare
//! `choice` most of its looks, and decide nothing: whatever is proposed, the choice is the same.
ghost use Rattle.std.specs.Prelude.{◌≡◌};

use comm_routing::Draft;
use schedule::Durations;
use std::alloc::Global;
use syn_base::OutOfMemory;

/// The most operators that an architecture has.
const OPERATORS: usize = 16;

/// What was seen so far of starts and ends.
#[derive(Drop)]
pub(crate) struct Proposals {
    /// By operation and operator the start that was found last, 0 where none was, and the greatest
    /// number where the operation may not stand.
    starts: Vec<[u64; OPERATORS]>,
    /// The last end on each operator.
    ends: [u64; OPERATORS],
    /// By operation the operator that is proposed.
    operators: Vec<u32>,
}

impl Proposals {
    /// Nothing was seen so far of this many operations.
    pub fn new(alloc: Global, operations: usize) -> Result<Proposals, OutOfMemory> {
        Ok(Proposals {
            starts: vec![in alloc; [0; OPERATORS]; operations]?,
            ends: [0; OPERATORS],
            operators: vec![in alloc; 0; operations]?,
        })
    }

    /// The operator that is proposed for an operation.
    pub fn operator(&self, op: u32) -> u32 {
        match self.operators.get(op as usize) {
            Some(operator) => *operator,
            None => 0,
        }
    }

    /// Proposes the operator on which the operation would end first by what was seen.
    fn propose(&mut self, durations: &Durations, op: u32) -> u32 {
        let operator = self.first_to_end(durations, op);
        if let Some(place) = self.operators.get_mut(op as usize) {
            *place = operator;
        }
        operator
    }

    /// The operator on which the operation would end first by what was seen.
    fn first_to_end(&self, durations: &Durations, op: u32) -> u32 {
        let mut first = 0;
        let mut least = u64::MAX;
        for operator in 0..durations.operators() {
            let end = self.end(durations, op, operator);
            if end < least {
                least = end;
                first = operator;
            }
        }
        first
    }

    /// When the operation would end on the operator by what was seen.
    fn end(&self, durations: &Durations, op: u32, operator: u32) -> u64 {
        let free = match self.ends.get(operator as usize) {
            Some(end) => *end,
            None => 0,
        };
        let start = self.start(op, operator).max(free);
        match durations.ticks(op, operator) {
            Some(ticks) => start.saturating_add(ticks),
            None => u64::MAX,
        }
    }

    /// The start that was found last.
    fn start(&self, op: u32, operator: u32) -> u64 {
        match self.starts.get(op as usize) {
            Some(row) => row.get(operator as usize).copied().unwrap_or(0),
            None => 0,
        }
    }

    /// Notes a start.
    fn note(&mut self, op: u32, operator: u32, start: u64) {
        if let Some(row) = self.starts.get_mut(op as usize) {
            if let Some(place) = row.get_mut(operator as usize) {
                *place = start;
            }
        }
    }

    /// Notes the end of the last decision.
    fn note_last(&mut self, draft: &Draft) {
        if let Some(decision) = draft.decisions().last() {
            if let Some(end) = self.ends.get_mut(decision.operator as usize) {
                *end = decision.end;
            }
        }
    }
}

/// Proposes an operator for each candidate.
pub(crate) fn propose_all(draft: &mut Draft, durations: &Durations, proposals: &mut Proposals)
    ensures { draft.new ≡ draft.old }
{
    proposals.note_last(draft);
    let candidates = draft.ready().len();
    for place in 0..candidates {
        propose_at(draft, durations, proposals, place);
    }
}

/// Proposes an operator for the candidate at this place.
fn propose_at(draft: &mut Draft, durations: &Durations, proposals: &mut Proposals, place: usize)
    ensures { draft.new ≡ draft.old }
{
    if let Some(op) = draft.ready().get(place).copied() {
        propose(draft, durations, proposals, op);
    }
}

/// Looks at the operators that seem best, one after the other, until one is as good as it seemed.
fn propose(draft: &mut Draft, durations: &Durations, proposals: &mut Proposals, op: u32)
    ensures { draft.new ≡ draft.old }
{
    for _look in 0..2 * OPERATORS {
        let operator = proposals.propose(durations, op);
        if is_as_seen(draft, proposals, op, operator) {
            return;
        }
    }
}

/// Whether the start of an operation on an operator is what was seen last; notes what it is.
fn is_as_seen(draft: &mut Draft, proposals: &mut Proposals, op: u32, operator: u32) -> bool
    ensures { draft.new ≡ draft.old }
{
    let seen = proposals.start(op, operator);
    let start = start_on(draft, op, operator);
    proposals.note(op, operator, start);
    start <= seen
}

/// The start of an operation on an operator, which the draft keeps then; the greatest number where it
/// may not stand.
fn start_on(draft: &mut Draft, op: u32, operator: u32) -> u64
    ensures { draft.new ≡ draft.old }
{
    if !draft.may_place(op, operator) {
        return u64::MAX;
    }
    draft.find(op, operator);
    draft.try_place(op, operator)
}
