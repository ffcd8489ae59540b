//! Where operations may stand, and how long they last there.
use crate::numbers::{NEVER, NOBODY, date_at, number_at};
use durations::{Durations, Kind, Vertex};
use std::alloc::Global;
use syn_base::OutOfMemory;

/// By operation its durations, and its half of a delay.
#[derive(Drop)]
pub struct Stands {
    /// How many operators there are.
    operators: u32,
    /// By operation and operator how long it lasts, `NEVER` where it may not stand.
    ticks: Vec<u64>,
    /// By operation the other half of a delay, or `NOBODY`.
    twins: Vec<u32>,
    /// By operation its get half where it is a set half, else `NOBODY`.
    gets: Vec<u32>,
}

impl Stands {
    /// Where these operations may stand.
    pub fn new(
        alloc: Global,
        vertices: &[Vertex],
        durations: &Durations,
    ) -> Result<Stands, OutOfMemory> {
        let mut stands = Stands {
            operators: durations.operators(),
            ticks: Vec::new(alloc),
            twins: Vec::new(alloc),
            gets: Vec::new(alloc),
        };
        stands.add_all(vertices, durations)?;
        Ok(stands)
    }

    /// Adds where each operation may stand.
    fn add_all(&mut self, vertices: &[Vertex], durations: &Durations) -> Result<(), OutOfMemory> {
        let mut op = 0u32;
        for vertex in vertices {
            self.twins.push(vertex.twin.unwrap_or(NOBODY))?;
            self.gets.push(get_half(&vertex.kind, vertex.twin))?;
            self.add_ticks(op, durations)?;
            op = op.saturating_add(1);
        }
        Ok(())
    }

    /// Adds how long an operation lasts on each operator.
    fn add_ticks(&mut self, op: u32, durations: &Durations) -> Result<(), OutOfMemory> {
        for operator in 0..self.operators {
            let ticks = durations.ticks(op, operator).unwrap_or(NEVER);
            self.ticks.push(ticks)?;
        }
        Ok(())
    }

    /// How many operators there are.
    pub fn operators(&self) -> u32 {
        self.operators
    }

    /// How long an operation lasts on an operator, `NEVER` where it may not stand.
    pub fn ticks(&self, op: u32, operator: u32) -> u64 {
        if operator >= self.operators {
            return NEVER;
        }
        let place = op.saturating_mul(self.operators).saturating_add(operator);
        date_at(self.ticks.as_slice(), place)
    }

    /// Whether an operation may stand on an operator.
    pub fn may_stand(&self, op: u32, operator: u32) -> bool {
        self.ticks(op, operator) != NEVER
    }

    /// The other half of a delay, or `NOBODY`.
    pub fn twin(&self, op: u32) -> u32 {
        number_at(self.twins.as_slice(), op)
    }

    /// The get half of a set half, or `NOBODY`.
    pub fn get_half(&self, op: u32) -> u32 {
        number_at(self.gets.as_slice(), op)
    }

    /// How long an operation lasts in the mean of the operators on which it may stand.
    pub fn mean_ticks(&self, op: u32) -> u64 {
        let mut total = 0u64;
        let mut count = 0u64;
        for operator in 0..self.operators {
            if self.may_stand(op, operator) {
                total = total.saturating_add(self.ticks(op, operator));
                count = count.saturating_add(1);
            }
        }
        if count == 0 { 0 } else { total / count }
    }

    /// How long all operations that may stand on an operator last there together.
    pub fn total_ticks(&self, operator: u32) -> u64 {
        let mut total = 0u64;
        let count = u32::try_from(self.twins.len()).unwrap_or(0);
        for op in 0..count {
            if self.may_stand(op, operator) {
                total = total.saturating_add(self.ticks(op, operator));
            }
        }
        total
    }

    /// Whether an operation takes no time on any operator on which it may stand.
    pub fn is_instant(&self, op: u32) -> bool {
        (0..self.operators).all(|operator| {
            let ticks = self.ticks(op, operator);
            ticks == 0 || ticks == NEVER
        })
    }
}

/// The get half of a set half, or `NOBODY`.
fn get_half(kind: &Kind, twin: Option<u32>) -> u32 {
    match kind {
        Kind::Set => twin.unwrap_or(NOBODY),
        _ => NOBODY,
    }
}
