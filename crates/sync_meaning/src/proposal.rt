//! A proposed order of the operations of a flat graph, which `order` tries.
use flat_graph::{Kind, Vertex};
use std::alloc::Global;
use syn_base::OutOfMemory;

/// For each operation those that wait for it, once for each source, and for how many sources it still
/// waits.
#[derive(Drop)]
struct Waiting {
    readers: Vec<Vec<u32>>,
    left: Vec<usize>,
}

impl Waiting {
    /// As many operations, none of which waits for another yet.
    fn new(alloc: Global, count: usize) -> Result<Waiting, OutOfMemory> {
        let mut readers = Vec::new(alloc);
        let mut left = Vec::new(alloc);
        for _operation in 0..count {
            readers.push(Vec::new(alloc))?;
            left.push(0)?;
        }
        Ok(Waiting { readers, left })
    }

    /// Operation v waits for operation u.
    fn wait(&mut self, v: u32, u: u32) -> Result<(), OutOfMemory> {
        let source = u as usize;
        let reader = v as usize;
        if source < self.readers.len() && reader < self.left.len() {
            self.readers[source].push(v)?;
            self.left[reader] = self.left[reader].saturating_add(1);
        }
        Ok(())
    }

    /// Operation v waits for the operations of its guards' sources.
    fn wait_for_guards(&mut self, v: u32, vertex: &Vertex) -> Result<(), OutOfMemory> {
        for guard in vertex.guards.as_slice() {
            self.wait(v, guard.source.vertex)?;
        }
        Ok(())
    }

    /// Operation v waits for the operations of its inputs' sources.
    fn wait_for_inputs(&mut self, v: u32, vertex: &Vertex) -> Result<(), OutOfMemory> {
        for source in vertex.ins.as_slice() {
            self.wait(v, source.vertex)?;
        }
        Ok(())
    }

    /// Operation v waits for its get half, if it is a set half.
    fn wait_for_twin(&mut self, v: u32, vertex: &Vertex) -> Result<(), OutOfMemory> {
        match (&vertex.kind, vertex.twin) {
            (Kind::Set, Some(twin)) => self.wait(v, twin),
            _ => Ok(()),
        }
    }
}

/// What the operations wait for.
fn waiting_of(alloc: Global, vertices: &[Vertex], count: u32) -> Result<Waiting, OutOfMemory> {
    let mut waiting = Waiting::new(alloc, vertices.len())?;
    for v in 0..count {
        if let Some(vertex) = vertices.get(v as usize) {
            waiting.wait_for_guards(v, vertex)?;
            waiting.wait_for_inputs(v, vertex)?;
            waiting.wait_for_twin(v, vertex)?;
        }
    }
    Ok(waiting)
}

/// The operations that wait for nothing.
fn ready_at_once(alloc: Global, left: &[usize], count: u32) -> Result<Vec<u32>, OutOfMemory> {
    let mut ready = Vec::new(alloc);
    for v in 0..count {
        if left.get(v as usize).copied() == Some(0) {
            ready.push(v)?;
        }
    }
    Ok(ready)
}

/// These operations wait for one source less; those that wait for none any more come last in the order.
fn release(readers: &[u32], left: &mut [usize], order: &mut Vec<u32>) -> Result<(), OutOfMemory> {
    for v in readers {
        let reader = *v as usize;
        if reader >= left.len() {
            continue;
        }
        left[reader] = left[reader].saturating_sub(1);
        if left[reader] == 0 {
            order.push(*v)?;
        }
    }
    Ok(())
}

/// The numbers of the operations, each after those of all that it depends on, where none depends on
/// itself. It takes time and memory in proportion to the operations and their sources. Whoever uses the
/// order has to check it: no clause says what it is.
pub fn proposed_order(
    alloc: Global,
    vertices: &[Vertex],
    count: u32,
) -> Result<Vec<u32>, OutOfMemory> {
    let Waiting { readers, mut left } = waiting_of(alloc, vertices, count)?;
    let mut order = ready_at_once(alloc, &left, count)?;
    for i in 0..readers.len() {
        if i >= order.len() {
            break;
        }
        let v = order[i] as usize;
        if v < readers.len() {
            release(&readers[v], &mut left, &mut order)?;
        }
    }
    Ok(order)
}
