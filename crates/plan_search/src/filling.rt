//! A plan that is filled in order.
use crate::listing::beside;
use plan_costs::{NOBODY, Plan, Tables};

/// Where the next operation goes in the order of a plan.
#[derive(Drop)]
pub(crate) struct Filling {
    place: u32,
}

impl Filling {
    /// The first place.
    pub fn new() -> Filling {
        Filling { place: 0 }
    }

    /// Puts an operation next, after those on which it depends and which are not placed: a set half where
    /// its get half stands, any other on this operator if it may stand there.
    pub fn add(&mut self, tables: &Tables, plan: &mut Plan, op: u32, wish: u32) {
        let half = plan.operator(tables.stands.get_half(op));
        let operator = if half == NOBODY {
            beside(tables, op, wish)
        } else {
            half
        };
        self.put_sources(tables, plan, op, operator);
        self.put(plan, op, operator);
    }

    /// Puts an operation next.
    fn put(&mut self, plan: &mut Plan, op: u32, operator: u32) {
        plan.assign(op, operator);
        plan.put(self.place, op);
        self.place = self.place.saturating_add(1);
    }

    /// Puts those on which an operation depends and which are not placed.
    fn put_sources(&mut self, tables: &Tables, plan: &mut Plan, op: u32, operator: u32) {
        for source in tables.links.before.of(op) {
            if plan.operator(*source) == NOBODY {
                self.put(plan, *source, beside(tables, *source, operator));
            }
        }
    }
}
