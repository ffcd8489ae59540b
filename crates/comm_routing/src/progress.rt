//! The progress of a draft: its tables, its decisions and its candidates, and one placement more.
ghost use Rattle.std.specs.Prelude.{◌≡◌, ◌<◌, ◌≤◌, List, [], All, IfOk, IsTrue, OnErr, OnOk, length, map, nat_eq};
ghost use Rattle.std.specs.List.{list_all};
ghost use Rattle.schedule.specs.FlatOrder.{get_half};
ghost use Rattle.schedule.specs.Acts.{acts_of};
ghost use Rattle.schedule.specs.declared.decision.Decision.{Decision};
ghost use Rattle.comm_routing.specs.declared.candidates.Candidates.{Candidates};
ghost use Rattle.comm_routing.specs.Board.{on_in};
ghost use Rattle.comm_routing.specs.Draft.{IsSite, Keeps, after_placing, drafted, task_of};
ghost use Rattle.comm_routing.specs.Placing.{arrival, may_place};
ghost use Rattle.comm_routing.specs.Progress.{may_place_in, may_stand_in};
ghost use Rattle.comm_routing.specs.Start.{reads_of};

use crate::board::{Board, date_or_zero};
use crate::candidates::Candidates;
use crate::placing::{Placement, place};
use crate::reach::{Walks, arrival_on};
use crate::site::Site;
use schedule::{Decision, Kind, Source};
use std::alloc::Global;
use syn_base::{Items, OutOfMemory};

/// The decisions so far, the tables that tell of them, and the candidates after them.
#[derive(Drop)]
pub(crate) struct Progress {
    pub board: Board,
    pub decisions: Vec<Decision>,
    pub candidates: Candidates,
}

/// Nothing is decided so far.
pub(crate) fn begin(
    alloc: Global,
    site: &Site,
    reads: &[Items<Source>],
) -> Result<Progress, OutOfMemory>
    requires site { IsSite (drafted site.now []) }
    requires reads { reads.now ≡ map reads_of site.now.flat.now.vertices }
    requires short { All (λ r. length r ≤ 131072) reads.now }
    ensures none { IfOk result (λ p. p.decisions.items ≡ []) }
    ensures keeps { IfOk result (λ p. Keeps (drafted site.now []) p.board reads.now p.candidates) }
{
    let vertices = site.flat.vertices();
    let board = Board::new(alloc, vertices, site.archi.operators().len() as u32)?;
    let mut candidates = Candidates::new(alloc, vertices)?;
    candidates.fill(vertices, &board);
    Ok(Progress {
        board,
        decisions: Vec::new(alloc),
        candidates,
    })
}

/// Places an operation, and brings candidates and arrivals up to date. After a refusal all is as before.
pub(crate) fn place_next(
    alloc: Global,
    site: &Site,
    reads: &[Items<Source>],
    op: u32,
    operator: u32,
    progress: &mut Progress,
) -> Result<(), OutOfMemory>
    requires keeps { Keeps (drafted site.now progress.old.decisions.items) progress.old.board
        reads.now progress.old.candidates }
    requires may { IsTrue (may_place (task_of (drafted site.now progress.old.decisions.items))
        (acts_of progress.old.decisions.items) op operator) }
    ensures placed { OnOk result (drafted site.now progress.new.decisions.items ≡
        after_placing (drafted site.now progress.old.decisions.items) op operator) }
    ensures keeps { OnOk result (Keeps (after_placing
        (drafted site.now progress.old.decisions.items) op operator) progress.new.board reads.now
        progress.new.candidates) }
    ensures refused { OnErr result ((progress.new.decisions.items ≡ progress.old.decisions.items) ×
        (progress.new.board ≡ progress.old.board) ×
        (progress.new.candidates ≡ progress.old.candidates)) }
{
    let placement = Placement {
        reads: reads[op as usize].as_slice(),
        op,
        operator,
        ticks: date_or_zero(site.durations.ticks(op, operator)),
    };
    let quiet = place(
        alloc,
        site,
        &placement,
        &mut progress.board,
        &mut progress.decisions,
    )?;
    progress
        .candidates
        .update(site.flat.vertices(), &progress.board, op, quiet);
    Ok(())
}

/// The arrival of a candidate on an operator: the one that is kept, or else found by a walk. It takes
/// no memory.
pub(crate) fn arrival_next(
    site: &Site,
    reads: &[Items<Source>],
    progress: &Progress,
    op: u32,
    operator: u32,
) -> u64
    requires keeps { Keeps (drafted site.now progress.now.decisions.items) progress.now.board
        reads.now progress.now.candidates }
    requires may { IsTrue (may_place (task_of (drafted site.now progress.now.decisions.items))
        (acts_of progress.now.decisions.items) op operator) }
    ensures { result ≡ arrival (task_of (drafted site.now progress.now.decisions.items))
        (acts_of progress.now.decisions.items) op operator }
{
    match progress.candidates.arrival(op, operator) {
        Some(date) => date,
        None => walked(site, reads, progress, op, operator),
    }
}

/// The arrival of a candidate on an operator, found by a walk.
fn walked(site: &Site, reads: &[Items<Source>], progress: &Progress, op: u32, operator: u32) -> u64
    requires keeps { Keeps (drafted site.now progress.now.decisions.items) progress.now.board
        reads.now progress.now.candidates }
    requires may { IsTrue (may_place (task_of (drafted site.now progress.now.decisions.items))
        (acts_of progress.now.decisions.items) op operator) }
    ensures { result ≡ arrival (task_of (drafted site.now progress.now.decisions.items))
        (acts_of progress.now.decisions.items) op operator }
{
    let walks = Walks {
        board: &progress.board,
        media: site.archi.media(),
        routes: site.routes,
        operators: site.archi.operators().len(),
        reads,
    };
    arrival_on(&walks, op as usize, operator as usize)
}

/// Keeps the arrival of a candidate on an operator, found where it is not known. It takes no memory.
pub(crate) fn find_next(
    site: &Site,
    reads: &[Items<Source>],
    op: u32,
    operator: u32,
    progress: &mut Progress,
)
    requires keeps { Keeps (drafted site.now progress.old.decisions.items) progress.old.board
        reads.now progress.old.candidates }
    requires may { IsTrue (may_place (task_of (drafted site.now progress.old.decisions.items))
        (acts_of progress.old.decisions.items) op operator) }
    ensures same { progress.new.decisions.items ≡ progress.old.decisions.items }
    ensures keeps { Keeps (drafted site.now progress.new.decisions.items) progress.new.board
        reads.now progress.new.candidates }
{
    if progress.candidates.arrival(op, operator).is_some() {
        return;
    }
    let date = walked(site, reads, progress, op, operator);
    progress.candidates.keep(op, operator, date);
}

/// Whether an operation is a candidate that may stand on the operator. It takes no memory.
pub(crate) fn may_place_next(site: &Site, progress: &Progress, op: u32, operator: u32) -> bool
    requires rows { length site.now.durations.now.rows ≡ length site.now.flat.now.vertices }
    requires columns { site.now.durations.now.operators ≡ length site.now.archi.now.operators }
    requires places { length progress.now.board.places ≡ length site.now.flat.now.vertices }
    requires flags { length progress.now.candidates.ready.flags.items ≡ length site.now.flat.now.vertices }
    ensures { result ≡ may_place_in (drafted site.now progress.now.decisions.items)
        progress.now.board progress.now.candidates op operator }
{
    let place = op as usize;
    if place >= progress.candidates.ready.flags.len() {
        return false;
    }
    progress.candidates.ready.flags[place] && may_stand(site, &progress.board, op, operator)
}

/// Whether the operation has a duration on the operator, and a set half stands where its get half
/// does.
fn may_stand(site: &Site, board: &Board, op: u32, operator: u32) -> bool
    requires rows { length site.now.durations.now.rows ≡ length site.now.flat.now.vertices }
    requires columns { site.now.durations.now.operators ≡ length site.now.archi.now.operators }
    requires operation { op < length site.now.flat.now.vertices }
    requires places { length board.now.places ≡ length site.now.flat.now.vertices }
    ensures { (ds : List Decision) (c : Candidates) →
        result ≡ may_stand_in (drafted site.now ds) board.now c op operator }
{
    if operator as usize >= site.archi.operators().len() {
        return false;
    }
    if site.durations.ticks(op, operator).is_none() {
        return false;
    }
    let vertex = &site.flat.vertices()[op as usize];
    stands_beside(board, &vertex.kind, vertex.twin, operator)
}

/// Whether the get half stands on the operator, where the operation is the set half.
fn stands_beside(board: &Board, kind: &Kind, twin: Option<u32>, operator: u32) -> bool
    ensures { result ≡ list_all (λ u. nat_eq (on_in board.now u) operator) (get_half kind.now twin) }
{
    match kind {
        Kind::Set => match twin {
            Some(twin) => board.on(twin) == operator,
            None => true,
        },
        _ => true,
    }
}
