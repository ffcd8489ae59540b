//! The conditions that hold for the next call. `player` collects them, and `call` keeps to them.

use crate::script::{Condition, GateKind};
use crate::shelf::Pace;
use std::alloc::{AllocError, Global};
use worked_parts::SinkMem;

/// The most bytes of an output, where a script says nothing else.
const ROOM: usize = 1_048_576;

/// What is said of a sink.
#[derive(Drop)]
pub struct SinkSays {
    fails: Vec<u64>,
    takes: usize,
    holds: usize,
}

impl SinkSays {
    /// A sink that fails at no call, takes all that it is given at once, and has room for it.
    fn new(alloc: Global) -> SinkSays {
        SinkSays {
            fails: Vec::new(alloc),
            takes: ROOM,
            holds: ROOM,
        }
    }

    /// A sink of which this is said. It takes a byte a call at least.
    pub fn sink(&self, alloc: Global) -> Result<SinkMem, AllocError> {
        let fails = Vec::from_slice(alloc, &self.fails)?;
        SinkMem::new(alloc, self.holds, self.takes.max(1), fails).map_err(|_| AllocError)
    }
}

/// How often the next call is made.
#[derive(Drop)]
pub enum Sweep {
    /// Once.
    Once,
    /// For each length of this file.
    Cuts(String),
    /// For each length of this file, and for each other byte at each of its places.
    Spoilt(String),
    /// For each call of its outside, which fails.
    Faults,
}

/// What is said of the next call.
#[derive(Drop)]
pub struct Conditions {
    pub shelf_fails: Vec<u64>,
    pub shelf_pace: Pace,
    pub out: SinkSays,
    pub err: SinkSays,
    pub output: Option<String>,
    pub has: Option<String>,
    pub keep: Option<String>,
    pub sweep: Sweep,
    pub counts: bool,
    pub driven: bool,
    pub words: bool,
    pub sum: bool,
    pub gate: GateKind,
}

impl Conditions {
    /// Nothing fails, and nothing is held against a file.
    pub fn new(alloc: Global) -> Conditions {
        Conditions {
            shelf_fails: Vec::new(alloc),
            shelf_pace: Pace::Whole,
            out: SinkSays::new(alloc),
            err: SinkSays::new(alloc),
            output: None,
            has: None,
            keep: None,
            sweep: Sweep::Once,
            counts: false,
            driven: false,
            words: false,
            sum: false,
            gate: GateKind::Free,
        }
    }

    /// One thing more.
    pub fn add(&mut self, alloc: Global, condition: Condition<'_>) -> Result<(), AllocError> {
        match condition {
            Condition::ShelfFails(call) => self.shelf_fails.push(call)?,
            Condition::ShelfByBytes => self.shelf_pace = Pace::ByBytes,
            Condition::OutFails(call) => self.out.fails.push(call)?,
            Condition::OutTakes(most) => self.out.takes = most,
            Condition::OutHolds(room) => self.out.holds = room,
            Condition::ErrFails(call) => self.err.fails.push(call)?,
            Condition::ErrTakes(most) => self.err.takes = most,
            Condition::Count => self.counts = true,
            Condition::Driven => self.driven = true,
            Condition::Words => self.words = true,
            Condition::Sum => self.sum = true,
            Condition::Gate(gate) => self.gate = gate,
            Condition::Output(name) => self.output = Some(String::from_str(alloc, name)?),
            Condition::Has(name) => self.has = Some(String::from_str(alloc, name)?),
            Condition::Keep(name) => self.keep = Some(String::from_str(alloc, name)?),
            Condition::Cuts(name) => self.sweep = Sweep::Cuts(String::from_str(alloc, name)?),
            Condition::Spoilt(name) => self.sweep = Sweep::Spoilt(String::from_str(alloc, name)?),
            Condition::Faults => self.sweep = Sweep::Faults,
        }
        Ok(())
    }
}
