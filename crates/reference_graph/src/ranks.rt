//! Ranks of vertices, which show that some do not reach themselves.
ghost use Rattle.std.specs.Prelude.{◌≡◌, ◌<◌, ◌≤◌, ℕ, length, slice_index, false, IsTrue, Contains};
ghost use Rattle.std.specs.List.{All};
ghost use Rattle.reference_graph.specs.Links.{reaches_itself};
ghost use Rattle.reference_graph.specs.Answer.{AreInside, Refers};

use crate::links::references;
use syn_base::Items;

/// How many vertices come before the first that may reach itself, as the ranks show: no reference
/// raises the rank, and each out of an earlier vertex lowers it. 0 where the ranks show nothing.
pub fn without_return(links: &[Items<u32>], ranks: &[u32]) -> usize
    requires links { AreInside links.now }
    ensures within { result ≤ length links.now }
    ensures no_return { (j : ℕ) → j < result → reaches_itself links.now j ≡ false }
{
    if ranks.len() == links.len() && never_rise(links, ranks) {
        falling(links, ranks)
    } else {
        0
    }
}

/// Whether no reference leads to a vertex of a greater rank.
fn never_rise(links: &[Items<u32>], ranks: &[u32]) -> bool
    requires links { AreInside links.now }
    requires same { length ranks.now ≡ length links.now }
    ensures { IsTrue result → (a b : ℕ) → Refers links.now a b → slice_index ranks.now b ≤ slice_index ranks.now a }
{
    for a in 0..links.len() {
        if !are_at_most(references(links, a), ranks, ranks[a]) {
            return false;
        }
    }
    true
}

/// How many vertices come before the first that refers to one of no smaller rank.
fn falling(links: &[Items<u32>], ranks: &[u32]) -> usize
    requires links { AreInside links.now }
    requires same { length ranks.now ≡ length links.now }
    ensures within { result ≤ length links.now }
    ensures fall { (a b : ℕ) → a < result → Refers links.now a b → slice_index ranks.now b < slice_index ranks.now a }
{
    for a in 0..links.len() {
        if !are_below(references(links, a), ranks, ranks[a]) {
            return a;
        }
    }
    links.len()
}

/// Whether each of these vertices has at most this rank.
fn are_at_most(refs: &[u32], ranks: &[u32], rank: u32) -> bool
    requires { All (λ b. b < length ranks.now) refs.now }
    ensures { IsTrue result → (b : ℕ) → Contains refs.now b → slice_index ranks.now b ≤ rank }
{
    for b in refs {
        if ranks[*b as usize] > rank {
            return false;
        }
    }
    true
}

/// Whether each of these vertices has a rank below this one.
fn are_below(refs: &[u32], ranks: &[u32], rank: u32) -> bool
    requires { All (λ b. b < length ranks.now) refs.now }
    ensures { IsTrue result → (b : ℕ) → Contains refs.now b → slice_index ranks.now b < rank }
{
    for b in refs {
        if ranks[*b as usize] >= rank {
            return false;
        }
    }
    true
}
