//! Depths settled one by one, each after those that it refers to.
ghost use Rattle.std.specs.Prelude.{◌≡◌, ◌+◌, ◌<◌, ◌≤◌, ℕ, length, map, replicate, slice_index, IsTrue, IfOk, Contains};
ghost use Rattle.std.specs.List.{All};
ghost use Rattle.syn_base.specs.Limits.{most_in_text};
ghost use Rattle.reference_graph.specs.Answer.{AreInside};
ghost use Rattle.reference_graph.specs.Settled.{IsSettled, depth_by};
ghost use Rattle.syn_base.specs.Numbers.{greatest};

use crate::links::references;
use std::alloc::Global;
use syn_base::{Items, OutOfMemory};

/// The greatest of the depths of these vertices, 0 where there are none.
pub fn greatest_depth(refs: &[u32], depths: &[u32]) -> u32
    requires { All (λ b. b < length depths.now) refs.now }
    ensures { result ≡ greatest (map (slice_index depths.now) refs.now) }
{
    let mut most = 0;
    for b in refs {
        most = most.max(depths[*b as usize]);
    }
    most
}

/// Whether the depth of each of these vertices is settled.
fn are_all_settled(refs: &[u32], depths: &[u32]) -> bool
    requires { All (λ b. b < length depths.now) refs.now }
    ensures { IsTrue result → (b : ℕ) → Contains refs.now b → 0 < slice_index depths.now b }
{
    for b in refs {
        if depths[*b as usize] == 0 {
            return false;
        }
    }
    true
}

/// The depth of a vertex by those of its references: one more than the deepest.
pub fn depth_by(links: &[Items<u32>], depths: &[u32], a: usize) -> u32
    requires place { a < length links.now }
    requires links { AreInside links.now }
    requires same { length depths.now ≡ length links.now }
    requires few { (b : ℕ) → slice_index depths.now b < most_in_text }
    ensures { result ≡ depth_by links.now depths.now a }
{
    greatest_depth(references(links, a), depths) + 1
}

/// This many open depths.
pub fn open_depths(alloc: Global, count: usize) -> Result<Vec<u32>, OutOfMemory>
    ensures { IfOk result (λ v. v.items ≡ replicate count 0) }
{
    Ok(vec![in alloc; 0u32; count]?)
}

/// The depths of the vertices as far as they can be settled in this order, 0 where one is open.
pub fn settle_in_order(
    alloc: Global,
    links: &[Items<u32>],
    order: &[u32],
) -> Result<Vec<u32>, OutOfMemory>
    requires links { AreInside links.now }
    requires few { length links.now ≤ most_in_text }
    ensures same { IfOk result (λ v. length v.items ≡ length links.now) }
    ensures settled { IfOk result (λ v. IsSettled links.now v.items (length links.now)) }
{
    let mut depths = open_depths(alloc, links.len())?;
    for k in 0..links.len() {
        settle_next(links, &mut depths, order, k);
    }
    Ok(depths)
}

/// Settles the depth of the next vertex, where it is open and its references are settled.
fn settle_next(links: &[Items<u32>], depths: &mut [u32], order: &[u32], k: usize)
    requires links { AreInside links.now }
    requires same { length depths.old ≡ length links.now }
    requires few { k < most_in_text }
    requires before { IsSettled links.now depths.old k }
    ensures { IsSettled links.now depths.new (k + 1) }
{
    if k >= order.len() {
        return;
    }
    let a = order[k] as usize;
    if a < links.len() && depths[a] == 0 && are_all_settled(references(links, a), depths) {
        depths[a] = depth_by(links, depths, a);
    }
}

/// Whether no depth is open.
pub fn are_settled(depths: &[u32]) -> bool
    ensures { IsTrue result → All (λ d. 0 < d) depths.now }
{
    depths.iter().all(|depth| *depth != 0)
}
