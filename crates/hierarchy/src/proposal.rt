//! Proposed orders of the vertices of a level, which `order` tries.
use algo_tree::{Kind, Source, Vertex};
use std::alloc::Global;
use syn_base::OutOfMemory;

/// For each vertex of a level the vertices that ask for it, once for each edge, and for how many
/// edges it still waits.
#[derive(Drop)]
struct Waiting {
    askers: Vec<Vec<usize>>,
    left: Vec<usize>,
}

impl Waiting {
    /// As many vertices, none of which asks for another yet.
    fn new(alloc: Global, count: usize) -> Result<Waiting, OutOfMemory> {
        let mut askers = Vec::new(alloc);
        let mut left = Vec::new(alloc);
        for _vertex in 0..count {
            askers.push(Vec::new(alloc))?;
            left.push(0)?;
        }
        Ok(Waiting { askers, left })
    }

    /// Vertex r asks for the vertex of a source, if that is one of the level.
    fn ask(&mut self, r: usize, source: Source) -> Result<(), OutOfMemory> {
        let Source::Of(q, _) = source else {
            return Ok(());
        };
        let q = q as usize;
        if q < self.askers.len() && r < self.left.len() {
            self.askers[q].push(r)?;
            self.left[r] = self.left[r].saturating_add(1);
        }
        Ok(())
    }

    /// Vertex r asks for all that its outputs need.
    fn ask_all(&mut self, r: usize, vertex: &Vertex) -> Result<(), OutOfMemory> {
        for guard in vertex.guards.as_slice() {
            self.ask(r, guard.source)?;
        }
        self.ask_inputs(r, vertex)
    }

    /// Vertex r asks for its inputs, unless it is a delay.
    fn ask_inputs(&mut self, r: usize, vertex: &Vertex) -> Result<(), OutOfMemory> {
        if let Kind::Delay(_) = vertex.kind {
            return Ok(());
        }
        for source in vertex.ins.as_slice() {
            self.ask(r, *source)?;
        }
        Ok(())
    }
}

/// What the vertices of a level wait for.
fn waiting_of(alloc: Global, vertices: &[Vertex]) -> Result<Waiting, OutOfMemory> {
    let mut waiting = Waiting::new(alloc, vertices.len())?;
    for (r, vertex) in vertices.iter().enumerate() {
        waiting.ask_all(r, vertex)?;
    }
    Ok(waiting)
}

/// The vertices that wait for nothing.
fn ready_at_once(alloc: Global, left: &[usize]) -> Result<Vec<usize>, OutOfMemory> {
    let mut ready = Vec::new(alloc);
    for (r, count) in left.iter().enumerate() {
        if *count == 0 {
            ready.push(r)?;
        }
    }
    Ok(ready)
}

/// These vertices wait for one edge less; those that wait for none any more come last in the order.
fn release(
    askers: &[usize],
    left: &mut [usize],
    order: &mut Vec<usize>,
) -> Result<(), OutOfMemory> {
    for r in askers {
        let r = *r;
        if r >= left.len() {
            continue;
        }
        left[r] = left[r].saturating_sub(1);
        if left[r] == 0 {
            order.push(r)?;
        }
    }
    Ok(())
}

/// The numbers of a level's vertices, each after those of all that its outputs ask for, where the
/// level has no cycle. It takes time and memory in proportion to vertices and edges. Whoever uses
/// the order has to check it: no clause says what it is.
pub fn proposed_order(alloc: Global, vertices: &[Vertex]) -> Result<Vec<usize>, OutOfMemory> {
    let Waiting { askers, mut left } = waiting_of(alloc, vertices)?;
    let mut order = ready_at_once(alloc, &left)?;
    for i in 0..askers.len() {
        if i >= order.len() {
            break;
        }
        let r = order[i];
        if r < askers.len() {
            release(&askers[r], &mut left, &mut order)?;
        }
    }
    Ok(order)
}
