//! Vertices of the resolved algorithm, with what is inside them.
use body_lang::Body;
use level_meaning::{Feed, Give, Guard, Part, Source};
use syn_base::{Items, Shared};

/// What a vertex is, which all uses of its definition share. Explode, implode and merge are made by
/// flattening; all others stand in a resolved algorithm.
#[derive(Drop)]
pub enum Kind {
    /// The sensor of this number, counted from 0 in declared order.
    Sensor(u32),
    /// The actuator of this number, counted from 0 in declared order.
    Actuator(u32),
    /// Its values.
    Constant(Shared<i64>),
    /// Its initial values, a group for each active reaction that it looks back.
    Delay(Shared<Items<i64>>),
    /// What it computes.
    Function(Body),
    /// Gives the parts of its input.
    Explode,
    /// Gives its inputs, one after another.
    Implode,
    /// Gives the input of the case that its first input selects, by the values of the cases.
    Merge(Shared<i64>),
    /// The sources of its outputs.
    Graph(Shared<Source>),
    /// The values of its cases, and the names of its outputs. Its first input selects the case; the
    /// last case is `otherwise`.
    Switch(Shared<i64>, Shared<Items<u8>>),
    /// The number of copies, how each input of the body is fed, and the outputs.
    Repeat(u32, Shared<Feed>, Shared<Give>),
}

/// A vertex: a reference, a case or a body, with what is inside it. Its lists are shared with other uses
/// of its definition, so that it takes the same memory whatever its ports.
pub struct Vertex {
    /// What it adds to the path around it.
    pub part: Part,
    /// The name of its definition.
    pub definition: Shared<u8>,
    /// The sources of its inputs, in port order.
    pub ins: Shared<Source>,
    /// The conditions under which it is active. A resolved algorithm has none.
    pub guards: Shared<Guard>,
    /// The lengths of its outputs, in port order.
    pub outs: Shared<u32>,
    /// The names of its outputs, in port order; none where a pass of flattening makes the vertex.
    pub names: Shared<Items<u8>>,
    pub kind: Kind,
    /// The vertices of a graph, the cases of a switch, the body of a repetition.
    pub inner: Vec<Vertex>,
}

/// By hand, so that a proof walks through all that a vertex drops here alone, and not on each way out of
/// each function that owns one.
impl Drop for Vertex {
    fn drop(self) {
        let Vertex {
            part: _,
            definition: _,
            ins: _,
            guards: _,
            outs: _,
            names: _,
            kind: _,
            inner: _,
        } = self;
    }
}
