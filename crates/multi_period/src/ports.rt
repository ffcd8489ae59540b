//! Sources by their numbers, for the vertices that the pass makes.
ghost use Rattle.std.specs.Prelude.{◌≡◌, ◌<◌, ◌+◌, ◌^◌, IfOk};
ghost use Rattle.multi_period.specs.Periods.{inputs_from as inputs, outputs_of as outputs, firsts as first_outputs};
ghost use Rattle.multi_period.specs.Seen.{ArePorts, label_seen};

use algo_tree::{Source, Vertex};
use std::alloc::Global;
use syn_base::{OutOfMemory, to_u32};

/// How many inputs and outputs a vertex has, and where what is made of it stands.
#[derive(Clone, Copy)]
pub struct Ports {
    pub ins: u32,
    pub outs: u32,
    /// The place of the switch, after the count and a delay for each output.
    pub switch: u32,
    /// The number of the first kept input of the switch, after the count and the inputs of the
    /// vertex.
    pub kept: u32,
}

/// The ports of a vertex, where a vertex with one input more than both together has numbers for
/// them.
pub fn ports_of(vertex: &Vertex) -> Result<Ports, OutOfMemory>
    ensures { IfOk result (λ p. ArePorts p (label_seen vertex.now)) }
{
    let ins = to_u32(vertex.ins.as_slice().len())?;
    let outs = to_u32(vertex.outs.as_slice().len())?;
    if u32::MAX - ins <= outs {
        return Err(OutOfMemory);
    }
    Ok(Ports {
        ins,
        outs,
        switch: outs + 1,
        kept: ins + 1,
    })
}

/// As many own inputs as `count` says, from this one on.
pub fn inputs_from(alloc: Global, first: u32, count: u32) -> Result<Vec<Source>, OutOfMemory>
    requires { first + count < 2 ^ 32 }
    ensures { IfOk result (λ ss. ss.items ≡ inputs first count) }
{
    let mut all = Vec::new(alloc);
    for input in 0..count {
        all.push(Source::Own(first + input))?;
    }
    Ok(all)
}

/// The first outputs of a vertex, as many as `count` says.
pub fn outputs_of(alloc: Global, vertex: u32, count: u32) -> Result<Vec<Source>, OutOfMemory>
    ensures { IfOk result (λ ss. ss.items ≡ outputs vertex count) }
{
    let mut all = Vec::new(alloc);
    for output in 0..count {
        all.push(Source::Of(vertex, output))?;
    }
    Ok(all)
}

/// The first output of each vertex after the first, of as many vertices as `count` says.
pub fn firsts(alloc: Global, count: u32) -> Result<Vec<Source>, OutOfMemory>
    requires { count + 1 < 2 ^ 32 }
    ensures { IfOk result (λ ss. ss.items ≡ first_outputs count) }
{
    let mut all = Vec::new(alloc);
    for vertex in 0..count {
        all.push(Source::Of(vertex + 1, 0))?;
    }
    Ok(all)
}
