//! The walks that arrivals are found by, for `progress`.
ghost use Rattle.std.specs.Prelude.{◌≡◌, ◌<◌, length};
ghost use Rattle.comm_routing.specs.Candidates.{CanWalk, HasWalks, arrival_at};

use crate::board::{Board, arrival};
use route_table::Routes;
use schedule::{Medium, Source};
use syn_base::Items;

/// The tables, the media with the routes over them, how many operators there are, and the distinct
/// sources of each operation.
#[derive(Clone, Copy)]
pub(crate) struct Walks<'a> {
    pub board: &'a Board,
    pub media: &'a [Medium],
    pub routes: &'a Routes,
    pub operators: usize,
    pub reads: &'a [Items<Source>],
}

/// The arrival of an operation on one operator.
pub(crate) fn arrival_on(walks: &Walks, op: usize, operator: usize) -> u64
    requires walks { HasWalks walks.now }
    requires operation { op < length walks.now.reads.now }
    requires operator { operator < walks.now.operators }
    requires way { CanWalk walks.now op operator }
    ensures { result ≡ arrival_at walks.now op operator }
{
    arrival(
        walks.board,
        walks.media,
        walks.routes,
        walks.reads[op].as_slice(),
        operator as u32,
    )
}
