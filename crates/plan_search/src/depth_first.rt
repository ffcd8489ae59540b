//! An order of the operations that goes from each as soon as it may to those that depend on it, so that what
//! belongs together stands together.
use plan_costs::{NOBODY, Tables, number_at, put_number};
use std::alloc::Global;
use syn_base::OutOfMemory;

/// The operations that may be next, the last one first.
#[derive(Drop)]
struct Walk {
    /// By operation on how many it waits.
    waits: Vec<u32>,
    ready: Vec<u32>,
    order: Vec<u32>,
}

/// The operations, each after those it depends on.
pub(crate) fn depth_first(
    alloc: Global,
    tables: &Tables,
    given: &[u32],
) -> Result<Vec<u32>, OutOfMemory> {
    let mut walk = Walk {
        waits: vec![in alloc; 0; given.len()]?,
        ready: Vec::new(alloc),
        order: Vec::with_capacity(alloc, given.len())?,
    };
    walk.begin(tables, given)?;
    for _step in 0..given.len() {
        walk.step(tables)?;
    }
    Ok(walk.order)
}

impl Walk {
    /// Those that wait on none may be next, the first of these first.
    fn begin(&mut self, tables: &Tables, given: &[u32]) -> Result<(), OutOfMemory> {
        for op in given.iter().rev() {
            let count = tables.links.before.of(*op).len();
            let waits = u32::try_from(count).unwrap_or(NOBODY);
            put_number(self.waits.as_mut_slice(), *op, waits);
            if waits == 0 {
                self.ready.push(*op)?;
            }
        }
        Ok(())
    }

    /// Takes the next operation, after which others may be next.
    fn step(&mut self, tables: &Tables) -> Result<(), OutOfMemory> {
        let op = match self.ready.pop() {
            Some(op) => op,
            None => return Ok(()),
        };
        self.order.push(op)?;
        for next in tables.links.after.of(op) {
            let left = number_at(self.waits.as_slice(), *next).saturating_sub(1);
            put_number(self.waits.as_mut_slice(), *next, left);
            if left == 0 {
                self.ready.push(*next)?;
            }
        }
        Ok(())
    }
}
