//! The vertices of a flat graph, which are its operations.
use syn_base::{Items, Name};

/// An output of an operation, both by number from 0.
#[derive(Clone, Copy, Debug, PartialEq, Eq)]
pub struct Source {
    pub vertex: u32,
    pub port: u32,
}

/// The condition that a conditioning input selects a case. The one element of `source` selects the
/// first case with that value, or the one after the last (`otherwise`).
#[derive(Drop)]
pub struct Guard {
    pub source: Source,
    /// The values of the cases, in order.
    pub values: Items<i64>,
    /// The number of the case that has to be selected, at most the number of values.
    pub case: u32,
}

/// What an operation is.
#[derive(Drop)]
pub enum Kind {
    /// The sensor of this number, counted from 0 in order. It gives its vector of the reaction.
    Sensor(u32),
    /// The actuator of this number, counted from 0 in order. It takes its one input.
    Actuator(u32),
    /// It gives the values of the expressions of this number's body, one for each output.
    Function(u32),
    /// Its values.
    Constant(Items<i64>),
    /// The half of a delay that gives the kept value. Its initial value.
    Get(Items<i64>),
    /// The half of a delay that keeps its one input for the next reaction.
    Set,
    /// It gives the parts of its one input, which are equally long.
    Explode,
    /// It gives its inputs, which are equally long, one after another.
    Implode,
    /// It gives the input of the case that its first input selects, by the values of the cases.
    Merge(Items<i64>),
}

/// An operation.
pub struct Vertex {
    /// Its path: letters, digits, `_`, `.`, `/` and `:`.
    pub name: Items<u8>,
    /// The definition that it comes from.
    pub def: Name,
    pub kind: Kind,
    /// The conditions of all cases around it, outer first. It is active where all hold.
    pub guards: Items<Guard>,
    /// The sources of its inputs, in port order.
    pub ins: Items<Source>,
    /// The lengths of its outputs, in port order, each 1 to 64.
    pub outs: Items<u32>,
    /// The other half of a delay.
    pub twin: Option<u32>,
}

/// By hand, so that a proof walks through what it drops here alone, and not on each way out of each
/// function that owns one.
impl Drop for Vertex {
    fn drop(self) {
        let Vertex {
            name: _,
            def: _,
            kind: _,
            guards: _,
            ins: _,
            outs: _,
            twin: _,
        } = self;
    }
}
