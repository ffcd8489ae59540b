//! The acts of a plan in their order, transfers and runs, as a draft would place them: each with its line
//! and with the acts in other lines that make what it reads.
use crate::numbers::{
    MOST_OPERATORS, NOBODY, PLACES, date_at, number_at, place_of, put_date, put_number, put_numbers,
};
use crate::plan::Plan;
use crate::tables::Tables;
use durations::Hop;
use std::alloc::Global;
use syn_base::OutOfMemory;

/// Lines are operators and media: an operator has its own number, a medium its number after all of those.
const FIRST_MEDIUM: u32 = MOST_OPERATORS;

/// The most lines.
pub(crate) const LINES: usize = 32;

/// The acts so far, by number.
#[derive(Drop)]
pub(crate) struct Acts {
    /// How many there are.
    pub count: u32,
    /// By act the operation that runs, or for which a value is carried.
    ops: Vec<u32>,
    /// By act its line.
    lines: Vec<u32>,
    /// By act how long it lasts.
    ticks: Vec<u64>,
    /// By act the place of its first source, and one more at the end.
    firsts: Vec<u32>,
    /// The sources of all acts, one after another: acts in other lines that make what it reads.
    sources: Vec<u32>,
    /// How many sources there are.
    used: u32,
    /// By output and operator the act that makes this copy, or `NOBODY`.
    held: Vec<u32>,
}

impl Acts {
    /// No act so far, with room for those of any plan.
    pub fn new(alloc: Global, tables: &Tables) -> Result<Acts, OutOfMemory> {
        let copies = tables
            .outputs
            .len()
            .saturating_mul(tables.stands.operators() as usize);
        let most = copies.saturating_add(tables.operations as usize);
        let reads = tables.links.reads.total().saturating_add(copies);
        let places = tables.outputs.len().saturating_mul(PLACES);
        Ok(Acts {
            count: 0,
            ops: vec![in alloc; NOBODY; most]?,
            lines: vec![in alloc; NOBODY; most]?,
            ticks: vec![in alloc; 0; most]?,
            firsts: vec![in alloc; 0; most.saturating_add(1)]?,
            sources: vec![in alloc; NOBODY; reads]?,
            used: 0,
            held: vec![in alloc; NOBODY; places]?,
        })
    }

    /// Room for how many acts there is.
    pub fn most(&self) -> usize {
        self.ops.len()
    }

    /// Becomes the acts of a plan.
    pub fn follow(&mut self, tables: &Tables, plan: &Plan) {
        self.count = 0;
        self.used = 0;
        put_numbers(self.held.as_mut_slice(), NOBODY);
        for op in &plan.order {
            self.place(tables, plan, *op, plan.operator(*op));
        }
        put_number(self.firsts.as_mut_slice(), self.count, self.used);
    }

    /// Adds the run of an operation, after the transfers of what it reads.
    fn place(&mut self, tables: &Tables, plan: &Plan, op: u32, operator: u32) {
        for output in tables.links.reads.of(op) {
            self.fetch(tables, plan, *output, op, operator);
        }
        let act = self.add(op, operator, tables.stands.ticks(op, operator));
        for output in tables.links.reads.of(op) {
            self.read(operator, self.maker(*output, operator));
        }
        for output in tables.outputs.first(op)..tables.outputs.end(op) {
            put_number(self.held.as_mut_slice(), place_of(output, operator), act);
        }
    }

    /// Adds the transfers that bring an output to an operator, for an operation there.
    fn fetch(&mut self, tables: &Tables, plan: &Plan, output: u32, op: u32, operator: u32) {
        if self.maker(output, operator) != NOBODY {
            return;
        }
        let from = plan.operator(tables.outputs.maker(output));
        let mut near = self.maker(output, from);
        for hop in tables.route(from, operator) {
            near = self.carry(tables, output, op, *hop, near);
        }
    }

    /// Adds the transfer of an output over a hop, unless it is held where that leads. Returns the act that
    /// makes the copy there.
    fn carry(&mut self, tables: &Tables, output: u32, op: u32, hop: Hop, near: u32) -> u32 {
        let there = self.maker(output, hop.to);
        if there != NOBODY {
            return there;
        }
        let line = FIRST_MEDIUM.saturating_add(hop.medium);
        let act = self.add(op, line, tables.outputs.time(output, hop.medium));
        self.read(line, near);
        put_number(self.held.as_mut_slice(), place_of(output, hop.to), act);
        act
    }

    /// Adds an act without sources. Returns its number.
    fn add(&mut self, op: u32, line: u32, ticks: u64) -> u32 {
        let act = self.count;
        put_number(self.ops.as_mut_slice(), act, op);
        put_number(self.lines.as_mut_slice(), act, line);
        put_date(self.ticks.as_mut_slice(), act, ticks);
        put_number(self.firsts.as_mut_slice(), act, self.used);
        self.count = act.saturating_add(1);
        act
    }

    /// The last act, which has this line, reads what another one makes. In its own line that comes first.
    fn read(&mut self, line: u32, source: u32) {
        if self.line(source) != line {
            put_number(self.sources.as_mut_slice(), self.used, source);
            self.used = self.used.saturating_add(1);
        }
    }

    /// The act that makes the copy of an output on an operator, or `NOBODY`.
    fn maker(&self, output: u32, operator: u32) -> u32 {
        number_at(self.held.as_slice(), place_of(output, operator))
    }

    /// The operation that an act runs, or for which it carries a value.
    pub fn op(&self, act: u32) -> u32 {
        number_at(self.ops.as_slice(), act)
    }

    /// The line of an act.
    pub fn line(&self, act: u32) -> u32 {
        number_at(self.lines.as_slice(), act)
    }

    /// How long an act lasts.
    pub fn ticks(&self, act: u32) -> u64 {
        date_at(self.ticks.as_slice(), act)
    }

    /// The place of the first source of an act; that of the next act is the end of its sources.
    pub fn first(&self, act: u32) -> u32 {
        number_at(self.firsts.as_slice(), act)
    }

    /// The source at a place.
    pub fn source(&self, place: u32) -> u32 {
        number_at(self.sources.as_slice(), place)
    }
}
