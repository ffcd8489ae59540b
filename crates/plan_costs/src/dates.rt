//! The dates of a plan: when each operation would end, as a draft would place it. Transfers go along the
//! least routes as late as their first reader is placed, over media that are first come, first served.
use crate::numbers::{
    NEVER, NOBODY, PLACES, date_at, number_at, place_of, put_date, put_dates, put_number,
};
use crate::plan::Plan;
use crate::tables::Tables;
use durations::Hop;
use std::alloc::Global;
use syn_base::OutOfMemory;

/// When a value is held, and which operation made it so late.
#[derive(Clone, Copy)]
struct Arrival {
    date: u64,
    cause: u32,
}

/// What was done so far.
#[derive(Drop)]
pub struct Dates {
    /// By output and operator since when it is held there, or `NEVER`.
    held: Vec<u64>,
    /// By operation its end.
    ends: Vec<u64>,
    /// By operation the one that made it start so late, or `NOBODY`.
    causes: Vec<u32>,
    /// By operator the last end, and the operation that ended then.
    busy: [u64; PLACES],
    last: [u32; PLACES],
    /// By medium the last end, and the operation for which it carried.
    free: [u64; PLACES],
    carried: [u32; PLACES],
    /// The latest end of all.
    pub length: u64,
}

impl Dates {
    /// Nothing was done so far.
    pub fn new(alloc: Global, tables: &Tables) -> Result<Dates, OutOfMemory> {
        let operations = tables.operations as usize;
        let places = tables.outputs.len().saturating_mul(PLACES);
        let held = vec![in alloc; NEVER; places]?;
        let ends = vec![in alloc; 0; operations]?;
        let causes = vec![in alloc; NOBODY; operations]?;
        Ok(Dates {
            held,
            ends,
            causes,
            busy: [0; PLACES],
            last: [NOBODY; PLACES],
            free: [0; PLACES],
            carried: [NOBODY; PLACES],
            length: 0,
        })
    }

    /// Nothing was done.
    pub fn clear(&mut self) {
        put_dates(self.held.as_mut_slice(), NEVER);
        self.busy = [0; PLACES];
        self.last = [NOBODY; PLACES];
        self.free = [0; PLACES];
        self.carried = [NOBODY; PLACES];
        self.length = 0;
    }

    /// Does what a plan says, from nothing. Returns its length.
    pub fn follow(&mut self, tables: &Tables, plan: &Plan) -> u64 {
        self.clear();
        for op in &plan.order {
            self.place(tables, plan, *op, plan.operator(*op));
        }
        self.length
    }

    /// The end of an operation.
    pub fn end(&self, op: u32) -> u64 {
        date_at(self.ends.as_slice(), op)
    }

    /// The operation that made this one start so late, or `NOBODY`.
    pub fn cause(&self, op: u32) -> u32 {
        number_at(self.causes.as_slice(), op)
    }

    /// Since when an output is held on an operator, or `NEVER`.
    fn held(&self, output: u32, operator: u32) -> u64 {
        date_at(self.held.as_slice(), place_of(output, operator))
    }

    /// Places an operation on an operator, with its transfers.
    pub fn place(&mut self, tables: &Tables, plan: &Plan, op: u32, operator: u32) {
        let mut arrival = Arrival {
            date: 0,
            cause: NOBODY,
        };
        for output in tables.links.reads.of(op) {
            let next = self.fetch(tables, plan, *output, op, operator);
            arrival = later(arrival, next);
        }
        self.run(tables, op, operator, arrival);
    }

    /// Brings an output to an operator, for an operation there.
    fn fetch(
        &mut self,
        tables: &Tables,
        plan: &Plan,
        output: u32,
        op: u32,
        operator: u32,
    ) -> Arrival {
        let maker = tables.outputs.maker(output);
        let there = self.held(output, operator);
        if there != NEVER {
            return Arrival {
                date: there,
                cause: maker,
            };
        }
        let from = plan.operator(maker);
        let mut arrival = Arrival {
            date: self.held(output, from),
            cause: maker,
        };
        for hop in tables.route(from, operator) {
            arrival = self.carry(tables, output, op, *hop, arrival);
        }
        arrival
    }

    /// Carries an output over a hop, unless it is held where that leads.
    fn carry(&mut self, tables: &Tables, output: u32, op: u32, hop: Hop, near: Arrival) -> Arrival {
        let there = self.held(output, hop.to);
        if there != NEVER {
            return Arrival {
                date: there,
                cause: tables.outputs.maker(output),
            };
        }
        let medium = Arrival {
            date: date_at(&self.free, hop.medium),
            cause: number_at(&self.carried, hop.medium),
        };
        let start = later(near, medium);
        let end = start
            .date
            .saturating_add(tables.outputs.time(output, hop.medium));
        put_date(&mut self.free, hop.medium, end);
        put_number(&mut self.carried, hop.medium, op);
        put_date(self.held.as_mut_slice(), place_of(output, hop.to), end);
        self.length = self.length.max(end);
        Arrival {
            date: end,
            cause: start.cause,
        }
    }

    /// Runs an operation whose sources have arrived.
    fn run(&mut self, tables: &Tables, op: u32, operator: u32, arrival: Arrival) {
        let before = Arrival {
            date: date_at(&self.busy, operator),
            cause: number_at(&self.last, operator),
        };
        let start = later(before, arrival);
        let end = start.date.saturating_add(tables.stands.ticks(op, operator));
        put_date(self.ends.as_mut_slice(), op, end);
        put_number(self.causes.as_mut_slice(), op, start.cause);
        put_date(&mut self.busy, operator, end);
        put_number(&mut self.last, operator, op);
        self.length = self.length.max(end);
        for output in tables.outputs.first(op)..tables.outputs.end(op) {
            put_date(self.held.as_mut_slice(), place_of(output, operator), end);
        }
    }

    /// When an operation would end on an operator, if it were placed there next. Those of its sources
    /// that have no operator would be placed there before it, in no time.
    pub fn end_on(&self, tables: &Tables, plan: &Plan, op: u32, operator: u32) -> u64 {
        let mut free = self.free;
        let mut start = date_at(&self.busy, operator);
        for output in tables.links.reads.of(op) {
            start = start.max(self.arrival(tables, plan, *output, operator, &mut free));
        }
        start.saturating_add(tables.stands.ticks(op, operator))
    }

    /// When an output would arrive on an operator, with media that are busy until these dates.
    fn arrival(
        &self,
        tables: &Tables,
        plan: &Plan,
        output: u32,
        operator: u32,
        free: &mut [u64],
    ) -> u64 {
        let from = plan.operator(tables.outputs.maker(output));
        let there = self.held(output, operator);
        if from == NOBODY || there != NEVER {
            return if there == NEVER { 0 } else { there };
        }
        let mut date = self.held(output, from);
        for hop in tables.route(from, operator) {
            date = self.passed(tables, output, *hop, date, free);
        }
        date
    }

    /// When an output would be held where a hop leads.
    fn passed(&self, tables: &Tables, output: u32, hop: Hop, date: u64, free: &mut [u64]) -> u64 {
        let there = self.held(output, hop.to);
        if there != NEVER {
            return there;
        }
        let start = date.max(date_at(free, hop.medium));
        let end = start.saturating_add(tables.outputs.time(output, hop.medium));
        put_date(free, hop.medium, end);
        end
    }
}

/// The later of two arrivals, the first where both come at once.
fn later(one: Arrival, other: Arrival) -> Arrival {
    if one.date < other.date { other } else { one }
}
