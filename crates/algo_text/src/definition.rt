//! The definition, with the numbers of its lines: what the reader makes, and whoever stands above reads.
use crate::formula::Formula;
use body_lang::Port;
use syn_base::{Items, Name};

/// A line `ref R DEF`, or `ref R DEF every N` from version 3 on.
#[derive(Drop)]
pub struct Reference {
    pub name: Name,
    pub def: Name,
    /// The mark, from 1 to 16: the reference runs in the reactions that this number divides. Without
    /// one it runs in each.
    pub every: Option<u32>,
    pub line: u32,
}

/// An end of an edge: a port of the graph itself, or of the reference that owns it.
#[derive(Drop)]
pub struct End {
    pub owner: Option<Name>,
    pub port: Name,
}

/// A line `edge FROM TO`.
#[derive(Drop)]
pub struct Edge {
    pub from: End,
    pub to: End,
    pub line: u32,
}

/// What a frontier line of a repetition does with its ports, outer and inner ones (SynDEx: fork, diffuse,
/// iterate, join).
#[derive(Drop)]
pub enum Frontier {
    /// Part i of the outer input goes to the inner input of copy i.
    Fork {
        outer: Name,
        inner: Name,
    },
    /// The outer input goes to the inner input of each copy.
    Diffuse {
        outer: Name,
        inner: Name,
    },
    /// The outer input goes to the inner input of copy 0, the inner output of copy i to that of copy
    /// i + 1, and that of the last copy to the outer output.
    Iterate {
        outer: Name,
        inner: Name,
        given: Name,
        last: Name,
    },
    /// The inner output of copy i is part i of the outer output.
    Join {
        given: Name,
        outer: Name,
    },
}

/// A frontier line of a repetition: `fork`, `diffuse`, `iterate` or `join`.
#[derive(Drop)]
pub struct FrontierLine {
    pub frontier: Frontier,
    pub line: u32,
}

/// A line `case VALUE DEF`.
#[derive(Drop)]
pub struct Case {
    pub value: i64,
    pub def: Name,
    pub line: u32,
}

/// A line `out P LEN = EXPRESSION` of a function.
#[derive(Drop)]
pub struct Output {
    pub port: Port,
    pub formula: Formula,
}

/// What is defined (SynDEx: algorithm definitions; this project's forms).
#[derive(Drop)]
pub enum Body {
    /// The length of its output `o`.
    Sensor(u32),
    /// The length of its input `i`.
    Actuator(u32),
    Constant(Items<i64>),
    /// The depth, from 1, and the initial values: as many groups of equal length, in the order in which
    /// the delay gives them.
    Delay(u32, Items<i64>),
    Function {
        ins: Items<Port>,
        outs: Items<Output>,
    },
    Graph {
        ins: Items<Port>,
        outs: Items<Port>,
        references: Items<Reference>,
        edges: Items<Edge>,
    },
    /// `on` is the conditioning input, of length 1.
    Switch {
        on: Name,
        ins: Items<Port>,
        outs: Items<Port>,
        cases: Items<Case>,
        otherwise: Name,
        otherwise_line: u32,
    },
    /// This many copies of a definition.
    Repeat {
        copies: u32,
        def: Name,
        lines: Items<FrontierLine>,
    },
}

/// A definition, at the line that names it.
#[derive(Drop)]
pub struct Def {
    pub name: Name,
    pub line: u32,
    pub body: Body,
}

/// The definitions of a text, in order, with the version that its first line gives.
pub struct Defs {
    pub version: u32,
    pub defs: Items<Def>,
}

/// By hand, so that a proof walks through what it drops here alone, and not on each way out of each
/// function that owns one.
impl Drop for Defs {
    fn drop(self) {
        let Defs {
            version: _,
            defs: _,
        } = self;
    }
}
