//! A placement, computed by the tables. `progress` makes it.
ghost use Rattle.std.specs.Prelude.{◌≡◌, ℕ, ◌<◌, ◌≤◌, ◌+◌, ◌*◌, ◌^◌, ◌++◌, [], ◌∷◌, max, map, length, slice_get, slice_index_or, All, IfOk, IsTrue, OnErr, OnOk};
ghost use Rattle.schedule.specs.Graph.{with_vertex};
ghost use Rattle.schedule.specs.FlatOrder.{get_half};
ghost use Rattle.schedule.specs.Acts.{copy};
ghost use Rattle.route_table.specs.Table.{route_in};
ghost use Rattle.comm_routing.specs.Task.{routing_on};
ghost use Rattle.comm_routing.specs.Placing.{sources};
ghost use Rattle.comm_routing.specs.Walk.{distinct, walk};
ghost use Rattle.comm_routing.specs.Board.{FitsAll, HasPlace, HasWay};
ghost use Rattle.comm_routing.specs.Tables.{after_operation, after_transfers, decision_in, outs_of, start_in, transfers_in};
ghost use Rattle.syn_base.specs.Numbers.{greatest};

use crate::board::{Board, carry_all};
use crate::listing::{Network, list_all};
use crate::site::Site;
use schedule::{Decision, Flat, Kind, Source, Transfer};
use std::alloc::Global;
use syn_base::{Items, OutOfMemory};

/// An operation that is to be placed on an operator, where it lasts this many ticks.
#[derive(Clone, Copy)]
pub(crate) struct Placement<'a> {
    /// Its sources, each once.
    pub reads: &'a [Source],
    pub op: u32,
    pub operator: u32,
    pub ticks: u64,
}

/// The decision of a placement.
pub(crate) fn decide(
    alloc: Global,
    site: &Site,
    placement: &Placement,
    board: &Board,
) -> Result<Decision, OutOfMemory>
    requires few { length site.now.archi.now.media ≤ 16 }
    requires operator { (placement.now.operator < site.now.routes.now.operators) ×
        (placement.now.operator < 16) }
    requires operation { placement.now.op < length site.now.flat.now.vertices }
    requires reads { placement.now.reads.now ≡ distinct
        (sources (routing_on site.now) placement.now.op) }
    requires ways { All (HasWay site.now.archi.now.media board.now (route_in site.now.routes.now)
        site.now.routes.now.operators placement.now.operator) placement.now.reads.now }
    requires fits { FitsAll site.now.archi.now.media board.now (route_in site.now.routes.now)
        placement.now.operator placement.now.reads.now (walk board.now.ends 0) }
    requires ends { start_in (routing_on site.now) board.now placement.now.op
        placement.now.operator + placement.now.ticks < 2 ^ 64 }
    ensures { IfOk result (λ d. d ≡ decision_in (routing_on site.now) board.now
        placement.now.op placement.now.operator placement.now.ticks) }
{
    let network = Network {
        board,
        media: site.archi.media(),
        routes: site.routes,
    };
    let mut transfers = Vec::new(alloc);
    let arrival = list_all(
        &network,
        placement.reads,
        placement.operator,
        &mut transfers,
    )?;
    let vertex = &site.flat.vertices()[placement.op as usize];
    let start = start(
        board,
        arrival,
        placement.operator,
        &vertex.kind,
        vertex.twin,
    );
    Ok(Decision {
        op: placement.op,
        operator: placement.operator,
        start,
        end: start + placement.ticks,
        transfers: Items::new(transfers),
    })
}

/// What a decision does to the tables. It takes no memory.
pub(crate) fn apply(board: &mut Board, decision: &Decision, outs: &[u32])
    requires operator { decision.now.operator < 16 }
    requires operation { (decision.now.op < length board.old.first) ×
        (decision.now.op < length board.old.places) × (decision.now.op < length board.old.ended) }
    requires lands { All (λ c. HasPlace board.old (copy c.to c.source) × (c.medium < 16))
        decision.now.transfers }
    requires outputs { (j : ℕ) → j < length outs.now →
        (slice_index_or board.old.first decision.now.op 0 + j) * board.old.operators +
        decision.now.operator < length board.old.held }
    ensures { board.new ≡ after_operation (after_transfers board.old decision.now.transfers) outs.now decision.now }
{
    carry_all(board, decision.transfers.as_slice());
    board.run(decision, outs);
}

/// Places an operation: adds the decision, and what it does to the tables. Returns whether no value was
/// carried. After a refusal all is as before.
pub(crate) fn place(
    alloc: Global,
    site: &Site,
    placement: &Placement,
    board: &mut Board,
    decisions: &mut Vec<Decision>,
) -> Result<bool, OutOfMemory>
    requires few { length site.now.archi.now.media ≤ 16 }
    requires operator { (placement.now.operator < site.now.routes.now.operators) ×
        (placement.now.operator < 16) }
    requires operation { (placement.now.op < length site.now.flat.now.vertices) ×
        (placement.now.op < length board.old.first) × (placement.now.op < length board.old.places)
        × (placement.now.op < length board.old.ended) }
    requires reads { placement.now.reads.now ≡ distinct
        (sources (routing_on site.now) placement.now.op) }
    requires ways { All (HasWay site.now.archi.now.media board.old (route_in site.now.routes.now)
        site.now.routes.now.operators placement.now.operator) placement.now.reads.now }
    requires fits { FitsAll site.now.archi.now.media board.old (route_in site.now.routes.now)
        placement.now.operator placement.now.reads.now (walk board.old.ends 0) }
    requires ends { start_in (routing_on site.now) board.old placement.now.op
        placement.now.operator + placement.now.ticks < 2 ^ 64 }
    requires lands { All (λ c. HasPlace board.old (copy c.to c.source) × (c.medium < 16))
        (transfers_in (routing_on site.now) board.old placement.now.op placement.now.operator) }
    requires outputs { (j : ℕ) → j < length (outs_of (routing_on site.now) placement.now.op) →
        (slice_index_or board.old.first placement.now.op 0 + j) * board.old.operators +
        placement.now.operator < length board.old.held }
    ensures decided { OnOk result (decisions.new.items ≡ decisions.old.items ++
        decision_in (routing_on site.now) board.old placement.now.op placement.now.operator
        placement.now.ticks ∷ []) }
    ensures tables { OnOk result (board.new ≡ after_operation
        (after_transfers board.old (transfers_in (routing_on site.now) board.old
        placement.now.op placement.now.operator)) (outs_of (routing_on site.now) placement.now.op)
        (decision_in (routing_on site.now) board.old placement.now.op placement.now.operator
        placement.now.ticks)) }
    ensures quiet { IfOk result (λ quiet. IsTrue quiet → transfers_in (routing_on site.now)
        board.old placement.now.op placement.now.operator ≡ []) }
    ensures refused { OnErr result ((decisions.new.items ≡ decisions.old.items) ×
        (board.new ≡ board.old)) }
{
    let decision = decide(alloc, site, placement, board)?;
    decisions.push(decision)?;
    let decision = &decisions[decisions.len() - 1];
    let quiet = is_quiet(decision.transfers.as_slice());
    apply(board, decision, outs(site.flat, placement.op));
    Ok(quiet)
}

/// Whether no value is carried.
fn is_quiet(transfers: &[Transfer]) -> bool
    ensures { IsTrue result → transfers.now ≡ [] }
{
    match transfers {
        [] => true,
        _ => false,
    }
}

/// The lengths of the outputs of an operation.
fn outs(flat: &Flat, op: u32) -> &[u32]
    requires { op < length flat.now.vertices }
    ensures { result.now ≡ with_vertex (slice_get flat.now.vertices op) [] (λ x. x.outs) }
{
    flat.vertices()[op as usize].outs.as_slice()
}

/// The greatest of the arrival, the operator's last end and, for a set half, the end of its get half.
pub(crate) fn start(
    board: &Board,
    arrival: u64,
    operator: u32,
    kind: &Kind,
    twin: Option<u32>,
) -> u64
    requires { operator < 16 }
    ensures { result ≡ max arrival (max (slice_index_or board.now.busy operator 0)
        (greatest (map (λ u. slice_index_or board.now.ended u 0) (get_half kind.now twin)))) }
{
    arrival.max(board.busy(operator).max(half_end(board, kind, twin)))
}

/// The end of the get half of a set half, 0 for any other operation.
fn half_end(board: &Board, kind: &Kind, twin: Option<u32>) -> u64
    ensures { result ≡ greatest (map (λ u. slice_index_or board.now.ended u 0) (get_half kind.now twin)) }
{
    match kind {
        Kind::Set => match twin {
            Some(twin) => board.end(twin),
            None => 0,
        },
        _ => 0,
    }
}
