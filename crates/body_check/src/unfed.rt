//! The check that an edge leads into each input, the second of a graph's.
ghost use Rattle.std.specs.Prelude.{◌≤◌, length, Some, None};
ghost use Rattle.algo_rules.specs.Graphs.{open_fault, open_faults};
ghost use Rattle.algo_rules.specs.Links.{first_of};
ghost use Rattle.algo_rules.specs.Placed.{Checks};
ghost use Rattle.body_check.specs.Marks.{AreMarked};
ghost use Rattle.body_check.specs.Parts.{IsPlacedGraph, of, own};

use crate::graph_fault::{open_input, open_output};
use crate::marks::is_marked;
use crate::parts::GraphParts;
use algo_rules::{AlgoError, Port, Reference};
use std::alloc::Global;

impl<'a> GraphParts<'a> {
    /// Checks that an edge leads into each of these inputs of a reference.
    fn check_inputs(
        &self,
        alloc: Global,
        reference: &Reference,
        ins: &[Port],
        marks: &[bool],
    ) -> Result<(), AlgoError>
        requires placed { IsPlacedGraph self.now }
        requires few { length self.now.references.now ≤ 64 }
        requires marked { AreMarked self.now marks.now self.now.edges.now }
        ensures { Checks result (open_fault (of self.now) (own self.now) self.now.references.now
            self.now.edges.now reference.now.line (Some reference.now.name) ins.now) }
    {
        let name = reference.name.as_bytes();
        for port in ins {
            if !is_marked(marks, self.input_spot(name, port.name.as_bytes())) {
                return Err(open_input(alloc, reference.line, name, port.name.as_bytes()));
            }
        }
        Ok(())
    }

    /// Checks that an edge leads into each of these outputs of the graph.
    fn check_outputs(&self, alloc: Global, outs: &[Port], marks: &[bool]) -> Result<(), AlgoError>
        requires few { length self.now.references.now ≤ 64 }
        requires marked { AreMarked self.now marks.now self.now.edges.now }
        ensures { Checks result (open_fault (of self.now) (own self.now) self.now.references.now
            self.now.edges.now self.now.line None outs.now) }
    {
        for port in outs {
            if !is_marked(marks, self.output_spot(port.name.as_bytes())) {
                return Err(open_output(alloc, self.line, port.name.as_bytes()));
            }
        }
        Ok(())
    }

    /// Checks that an edge leads into each input of the references in order, and then into each output of the
    /// graph.
    pub fn check_unfed(&self, alloc: Global, marks: &[bool]) -> Result<(), AlgoError>
        requires placed { IsPlacedGraph self.now }
        requires few { length self.now.references.now ≤ 64 }
        requires marked { AreMarked self.now marks.now self.now.edges.now }
        ensures { Checks result (first_of (open_faults (of self.now) (own self.now)
            self.now.references.now self.now.line self.now.edges.now)) }
    {
        for (at, reference) in self.references.iter().enumerate() {
            let ports = &self.table[self.places[at] as usize];
            self.check_inputs(alloc, reference, ports.ins.as_slice(), marks)?;
        }
        self.check_outputs(alloc, self.outs, marks)
    }
}
