//! Where a schedule places operations, and over which medium their inputs come. `statement` asks
//! it.
ghost use Rattle.std.specs.Prelude.{◌≡◌};
ghost use Rattle.std.specs.List.{find};
ghost use Rattle.graph_drawing.specs.FlatDrawing.{medium_for, medium_to, operator_of};
ghost use Rattle.schedule.specs.Acts.{brings};

use schedule::{Decision, Source, Transfer};

/// The operator on which an operation runs.
pub fn operator_of(decisions: &[Decision], op: usize) -> Option<u32>
    ensures { result ≡ operator_of decisions.now op }
{
    decisions
        .iter()
        .find(|decision| decision.op as usize == op)
        .map(|decision| decision.operator)
}

/// The medium over which the value of the source comes to the operation, where one does.
pub fn medium_for(decisions: &[Decision], op: usize, source: Source) -> Option<u32>
    ensures { result ≡ medium_for decisions.now op source }
{
    match operator_of(decisions, op) {
        None => None,
        Some(operator) => medium_to(decisions, source, operator),
    }
}

/// The medium of the first transfer that brings the value of the source to the operator.
#[tactic(auto, using(crate::proofs::Bringing::found, crate::proofs::Bringing::passed))]
fn medium_to(decisions: &[Decision], source: Source, operator: u32) -> Option<u32>
    ensures { result ≡ medium_to decisions.now source operator }
{
    for decision in decisions {
        if let Some(transfer) = bringer(decision.transfers.as_slice(), source, operator) {
            return Some(transfer.medium);
        }
    }
    None
}

/// The first of these transfers that brings the value of the source to the operator.
fn bringer(transfers: &[Transfer], source: Source, operator: u32) -> Option<Transfer>
    ensures { result ≡ find (brings operator source) transfers.now }
{
    transfers.iter().copied().find(|transfer| {
        transfer.to == operator
            && transfer.source.vertex == source.vertex
            && transfer.source.port == source.port
    })
}
