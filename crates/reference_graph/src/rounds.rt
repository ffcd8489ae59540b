//! Depths as they are defined, references followed once more in each round. It is exact for any links,
//! and slow.
ghost use Rattle.std.specs.Prelude.{◌≡◌, ◌<◌, ◌≤◌, ℕ, length, map, slice_index, IfOk};
ghost use Rattle.syn_base.specs.Limits.{most_in_text};
ghost use Rattle.reference_graph.specs.Links.{depths, numbers};
ghost use Rattle.reference_graph.specs.Answer.{AreInside};
ghost use Rattle.reference_graph.specs.Settled.{depth_by};

use crate::settling::{depth_by, open_depths};
use std::alloc::Global;
use syn_base::{Items, OutOfMemory};

/// The depths by these, references followed once more.
fn one_deeper(alloc: Global, links: &[Items<u32>], depths: &[u32]) -> Result<Vec<u32>, OutOfMemory>
    requires links { AreInside links.now }
    requires same { length depths.now ≡ length links.now }
    requires few { (b : ℕ) → slice_index depths.now b < most_in_text }
    ensures { IfOk result (λ v. v.items ≡ map (depth_by links.now depths.now) (numbers links.now)) }
{
    let mut deeper = Vec::with_capacity(alloc, links.len())?;
    for a in 0..links.len() {
        deeper.push(depth_by(links, depths, a))?;
    }
    Ok(deeper)
}

/// The depths, by as many rounds as there are vertices.
pub fn depths_by_rounds(alloc: Global, links: &[Items<u32>]) -> Result<Vec<u32>, OutOfMemory>
    requires links { AreInside links.now }
    requires few { length links.now ≤ most_in_text }
    ensures { IfOk result (λ v. v.items ≡ depths links.now) }
{
    let mut depths = open_depths(alloc, links.len())?;
    for _round in 0..links.len() {
        depths = one_deeper(alloc, links, &depths)?;
    }
    Ok(depths)
}
