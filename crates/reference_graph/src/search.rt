//! Which vertices reach themselves, by a search from each.
ghost use Rattle.std.specs.Prelude.{◌≡◌, ◌+◌, ◌<◌, ◌≤◌, ℕ, length, map, replicate, false, [], ◌∷◌, IfOk, OnOk, Contains};
ghost use Rattle.std.specs.List.{All};
ghost use Rattle.syn_base.specs.Limits.{most_in_text};
ghost use Rattle.reference_graph.specs.Links.{first_recursive, numbers, reaches_itself};
ghost use Rattle.reference_graph.specs.Answer.{AreInside};
ghost use Rattle.reference_graph.specs.Reached.{IsReached};
ghost use Rattle.reference_graph.specs.Settled.{IsSettled};
ghost use Rattle.reference_graph.specs.Search.{Grows, IsMarked, IsQueue};

use crate::links::references;
use crate::settling::settle_in_order;
use crate::walk::Walk;
use std::alloc::Global;
use syn_base::{Items, OutOfMemory};

/// Marks a vertex and puts it last in the queue, where it is not marked.
fn mark(b: u32, marks: &mut [bool], queue: &mut Vec<u32>) -> Result<(), OutOfMemory>
    requires inside { b < length marks.old }
    requires before { IsQueue marks.old queue.old.items }
    ensures grows { OnOk result (Grows (b ∷ []) marks.old queue.old.items marks.new queue.new.items) }
    ensures marked { OnOk result (IsMarked marks.new b) }
{
    if !marks[b as usize] {
        marks[b as usize] = true;
        queue.push(b)?;
    }
    Ok(())
}

/// Marks each of these vertices.
fn mark_all(refs: &[u32], marks: &mut [bool], queue: &mut Vec<u32>) -> Result<(), OutOfMemory>
    requires inside { All (λ b. b < length marks.old) refs.now }
    requires before { IsQueue marks.old queue.old.items }
    ensures grows { OnOk result (Grows refs.now marks.old queue.old.items marks.new queue.new.items) }
    ensures marked { OnOk result ((b : ℕ) → Contains refs.now b → IsMarked marks.new b) }
{
    for b in refs {
        mark(*b, marks, queue)?;
    }
    Ok(())
}

/// This many marks, of which none is set.
fn unmarked(alloc: Global, count: usize) -> Result<Vec<bool>, OutOfMemory>
    ensures { IfOk result (λ v. v.items ≡ replicate count false) }
{
    Ok(vec![in alloc; false; count]?)
}

/// Marks what the next vertex in the queue refers to.
fn visit_next(
    links: &[Items<u32>],
    a: usize,
    next: usize,
    marks: &mut [bool],
    queue: &mut Vec<u32>,
) -> Result<(), OutOfMemory>
    requires links { AreInside links.now }
    requires same { length marks.old ≡ length links.now }
    requires before { IsReached links.now a marks.old queue.old.items next }
    ensures { OnOk result (IsReached links.now a marks.new queue.new.items (next + 1)) }
{
    if next < queue.len() {
        mark_all(references(links, queue[next] as usize), marks, queue)?;
    }
    Ok(())
}

/// Whether a vertex reaches itself, in time and memory in proportion to vertices and links.
fn reaches_itself(alloc: Global, links: &[Items<u32>], a: usize) -> Result<bool, OutOfMemory>
    requires place { a < length links.now }
    requires links { AreInside links.now }
    ensures { IfOk result (λ r. r ≡ reaches_itself links.now a) }
{
    let mut marks = unmarked(alloc, links.len())?;
    let mut queue = Vec::new(alloc);
    mark_all(references(links, a), &mut marks, &mut queue)?;
    // No vertex is twice in the queue.
    for next in 0..links.len() {
        visit_next(links, a, next, &mut marks, &mut queue)?;
    }
    Ok(marks[a])
}

/// The first vertex that reaches itself, where none before `start` does.
pub fn first_from(
    alloc: Global,
    links: &[Items<u32>],
    start: usize,
) -> Result<Option<usize>, OutOfMemory>
    requires links { AreInside links.now }
    requires start { start ≤ length links.now }
    requires none_before { (j : ℕ) → j < start → reaches_itself links.now j ≡ false }
    ensures { IfOk result (λ r. r ≡ first_recursive links.now) }
{
    for a in start..links.len() {
        if reaches_itself(alloc, links, a)? {
            return Ok(Some(a));
        }
    }
    Ok(None)
}

/// Whether a vertex reaches itself, where the depths are settled: one with a depth does not.
fn is_reaching(
    alloc: Global,
    links: &[Items<u32>],
    depths: &[u32],
    a: usize,
) -> Result<bool, OutOfMemory>
    requires place { a < length links.now }
    requires links { AreInside links.now }
    requires same { length depths.now ≡ length links.now }
    requires settled { IsSettled links.now depths.now (length links.now) }
    ensures { IfOk result (λ r. r ≡ reaches_itself links.now a) }
{
    if depths[a] != 0 {
        return Ok(false);
    }
    reaches_itself(alloc, links, a)
}

/// Of each vertex, whether it reaches itself. `links` has for each vertex the vertices that it refers
/// to. Where none does, it takes time in proportion to vertices and links; else as much again for
/// each vertex that leads to one that does.
pub fn reaching(alloc: Global, links: &[Items<u32>]) -> Result<Vec<bool>, OutOfMemory>
    requires links { AreInside links.now }
    requires few { length links.now ≤ most_in_text }
    ensures { IfOk result (λ v. v.items ≡ map (reaches_itself links.now) (numbers links.now)) }
{
    let walk = Walk::over(alloc, links)?;
    let depths = settle_in_order(alloc, links, walk.order())?;
    let mut answers = Vec::with_capacity(alloc, links.len())?;
    for a in 0..links.len() {
        answers.push(is_reaching(alloc, links, &depths, a)?)?;
    }
    Ok(answers)
}
