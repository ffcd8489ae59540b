//! The marks of the ends into which edges lead, which the checks of a graph share.
ghost use Rattle.std.specs.Prelude.{◌≡◌, ◌≤◌, ◌*◌, ◌+◌, IfOk, length, replicate, false, Some, None};
ghost use Rattle.body_check.specs.Marks.{mark_at, marked, spot, spot_in};
ghost use Rattle.body_check.specs.Parts.{IsPlacedGraph};

use crate::parts::{GraphParts, find_port, find_reference};
use algo_rules::{End, Port};
use std::alloc::Global;
use syn_base::OutOfMemory;

/// The marks of a row, one for each port of a reference or of the graph.
const ROW: usize = 65;

/// This many marks, of which none is set.
fn unset(alloc: Global, len: usize) -> Result<Vec<bool>, OutOfMemory>
    ensures { IfOk result (λ marks. marks.items ≡ replicate len false) }
{
    Ok(vec![in alloc; false; len]?)
}

/// Whether a mark is set. Where an end is not there, none is.
pub fn is_marked(marks: &[bool], spot: Option<usize>) -> bool
    ensures { result ≡ marked marks.now spot }
{
    match spot {
        Some(at) => at < marks.len() && marks[at],
        None => false,
    }
}

/// Sets a mark.
pub fn mark(marks: &mut [bool], spot: Option<usize>)
    ensures { marks.new ≡ mark_at marks.old spot }
{
    if let Some(at) = spot {
        if at < marks.len() {
            marks[at] = true;
        }
    }
}

/// Where the mark of the port of a name stands, which is one of the ports of this row.
fn spot_in(row: usize, ports: &[Port], name: &[u8]) -> Option<usize>
    requires { row ≤ 64 }
    ensures { result ≡ spot_in row ports.now name.now }
{
    let number = find_port(ports, name);
    if number < ports.len() {
        Some(row * ROW + number)
    } else {
        None
    }
}

impl<'a> GraphParts<'a> {
    /// The marks before any edge: a row for each reference, and one for the graph itself.
    pub fn no_marks(&self, alloc: Global) -> Result<Vec<bool>, OutOfMemory>
        requires { length self.now.references.now ≤ 64 }
        ensures { IfOk result (λ marks. marks.items ≡ replicate ((length self.now.references.now + 1) * 65) false) }
    {
        unset(alloc, (self.references.len() + 1) * ROW)
    }

    /// Where the mark of an output of the graph stands, if the output is there.
    pub fn output_spot(&self, port: &[u8]) -> Option<usize>
        requires { length self.now.references.now ≤ 64 }
        ensures { result ≡ spot self.now None port.now }
    {
        spot_in(self.references.len(), self.outs, port)
    }

    /// Where the mark of an input of a reference stands, if the input is there.
    pub fn input_spot(&self, reference: &[u8], port: &[u8]) -> Option<usize>
        requires placed { IsPlacedGraph self.now }
        requires few { length self.now.references.now ≤ 64 }
        ensures { result ≡ spot self.now (Some reference.now) port.now }
    {
        let row = find_reference(self.references, reference);
        match self.named(reference) {
            Some(ports) => spot_in(row, ports.ins.as_slice(), port),
            None => None,
        }
    }

    /// Where the mark of an end of an edge stands, if the end is there.
    pub fn spot(&self, end: &End) -> Option<usize>
        requires placed { IsPlacedGraph self.now }
        requires few { length self.now.references.now ≤ 64 }
        ensures { result ≡ spot self.now end.now.owner end.now.port }
    {
        match &end.owner {
            Some(owner) => self.input_spot(owner.as_bytes(), end.port.as_bytes()),
            None => self.output_spot(end.port.as_bytes()),
        }
    }
}
