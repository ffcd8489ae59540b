//! The depth of each vertex, or the first that reaches itself.
ghost use Rattle.std.specs.Prelude.{◌<◌, ◌≤◌, length, IfOk};
ghost use Rattle.syn_base.specs.Limits.{most_in_text};
ghost use Rattle.reference_graph.specs.Answer.{AreDepths, AreInside};

use crate::ranks::without_return;
use crate::rounds::depths_by_rounds;
use crate::search::first_from;
use crate::settling::{are_settled, settle_in_order};
use crate::walk::Walk;
use std::alloc::Global;
use syn_base::{Items, OutOfMemory};

/// What there is to say of links: the first vertex that reaches itself, or else the depth of each.
#[derive(Drop)]
pub enum Depths {
    /// The least number of a vertex that reaches itself.
    Recursive(usize),
    /// The depth of each vertex, from 1 up to the number of vertices.
    Of(Items<u32>),
}

/// The depth of each vertex, or the first that reaches itself. `links` has for each vertex the
/// vertices that it refers to. It takes time and memory in proportion to vertices and links.
pub fn depths_of(alloc: Global, links: &[Items<u32>]) -> Result<Depths, OutOfMemory>
    requires links { AreInside links.now }
    requires few { length links.now ≤ most_in_text }
    ensures { IfOk result (λ d. AreDepths links.now d) }
{
    let walk = Walk::over(alloc, links)?;
    let depths = settle_in_order(alloc, links, walk.order())?;
    if are_settled(&depths) {
        return Ok(Depths::Of(Items::new(depths)));
    }
    // The walk's ranks lead past the vertices that do not return, so that one search is enough.
    let start = without_return(links, walk.ranks());
    match first_from(alloc, links, start)? {
        Some(first) => Ok(Depths::Recursive(first)),
        None => Ok(Depths::Of(Items::new(depths_by_rounds(alloc, links)?))),
    }
}
