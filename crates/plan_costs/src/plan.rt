//! A plan under way: an order of the operations, and an operator for each.
use crate::numbers::{NOBODY, copy_numbers, number_at, put_number};
use crate::site::Stand;
use std::alloc::Global;
use syn_base::OutOfMemory;

/// An order of the operations, and an operator for each.
#[derive(Drop)]
pub struct Plan {
    /// The operations in their order.
    pub order: Vec<u32>,
    /// By operation its place in the order.
    pub places: Vec<u32>,
    /// By operation its operator, or `NOBODY`.
    pub operators: Vec<u32>,
}

impl Plan {
    /// A plan for this many operations, which says nothing so far.
    pub fn new(alloc: Global, operations: usize) -> Result<Plan, OutOfMemory> {
        let order = vec![in alloc; NOBODY; operations]?;
        let places = vec![in alloc; NOBODY; operations]?;
        let operators = vec![in alloc; NOBODY; operations]?;
        Ok(Plan {
            order,
            places,
            operators,
        })
    }

    /// The operator of an operation.
    pub fn operator(&self, op: u32) -> u32 {
        number_at(self.operators.as_slice(), op)
    }

    /// The place of an operation in the order.
    pub fn place(&self, op: u32) -> u32 {
        number_at(self.places.as_slice(), op)
    }

    /// Puts an operation at a place of the order.
    pub fn put(&mut self, place: u32, op: u32) {
        put_number(self.order.as_mut_slice(), place, op);
        put_number(self.places.as_mut_slice(), op, place);
    }

    /// Gives an operation its operator.
    pub fn assign(&mut self, op: u32, operator: u32) {
        put_number(self.operators.as_mut_slice(), op, operator);
    }

    /// No operation has an operator.
    pub fn clear(&mut self) {
        for operator in self.operators.iter_mut() {
            *operator = NOBODY;
        }
    }

    /// Becomes another plan for as many operations.
    pub fn copy(&mut self, other: &Plan) {
        copy_numbers(self.order.as_mut_slice(), other.order.as_slice());
        copy_numbers(self.places.as_mut_slice(), other.places.as_slice());
        copy_numbers(self.operators.as_mut_slice(), other.operators.as_slice());
    }

    /// Becomes the plan of these.
    pub fn follow(&mut self, stands: &[Stand]) {
        let mut place = 0u32;
        for stand in stands {
            self.put(place, stand.op);
            self.assign(stand.op, stand.operator);
            place = place.saturating_add(1);
        }
    }

    /// The operations in their order, each with its operator.
    pub fn stands(&self, alloc: Global) -> Result<Vec<Stand>, OutOfMemory> {
        let mut stands = Vec::with_capacity(alloc, self.order.len())?;
        for op in &self.order {
            let operator = self.operator(*op);
            stands.push(Stand { op: *op, operator })?;
        }
        Ok(stands)
    }

    /// Moves an operation to another place of the order. Those in between move up by one.
    pub fn shift(&mut self, op: u32, to: u32) {
        let from = self.place(op);
        if from < to {
            self.move_down(from, to);
        } else {
            self.move_up(from, to);
        }
        self.put(to, op);
    }

    /// Each operation after `from`, up to `to`, moves to the place before its own.
    fn move_down(&mut self, from: u32, to: u32) {
        for place in from..to {
            let next = number_at(self.order.as_slice(), place.saturating_add(1));
            self.put(place, next);
        }
    }

    /// Each operation before `from`, down to `to`, moves to the place after its own.
    fn move_up(&mut self, from: u32, to: u32) {
        for place in (to..from).rev() {
            let before = number_at(self.order.as_slice(), place);
            self.put(place.saturating_add(1), before);
        }
    }
}
