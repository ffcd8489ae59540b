//! The check of the edges in order, the first of a graph's.
ghost use Rattle.std.specs.Prelude.{◌≡◌, ◌≤◌, ◌+◌, ◌*◌, IfOk, length, []};
ghost use Rattle.algo_rules.specs.Graphs.{edge_faults, port_len};
ghost use Rattle.algo_rules.specs.Links.{first_of};
ghost use Rattle.algo_rules.specs.Placed.{Checks};
ghost use Rattle.body_check.specs.Marks.{AreMarked, HasRows, edge_by};
ghost use Rattle.body_check.specs.Parts.{IsPlacedGraph, givers, of, own, takers};

use crate::graph_fault::{twice, unknown, wrong_length};
use crate::marks::{is_marked, mark};
use crate::parts::GraphParts;
use algo_rules::{AlgoError, Edge};
use std::alloc::Global;

impl<'a> GraphParts<'a> {
    /// Checks that an edge joins two ports of one length, into an end that no edge before has.
    fn check_edge(&self, alloc: Global, edge: &Edge, is_twice: bool) -> Result<(), AlgoError>
        requires { IsPlacedGraph self.now }
        ensures { Checks result (edge_by is_twice edge.now
            (port_len (givers self.now edge.now.from.owner) edge.now.from.port)
            (port_len (takers self.now edge.now.to.owner) edge.now.to.port)) }
    {
        let Some(from) = self.giver_len(&edge.from) else {
            return Err(unknown(alloc, edge.line, &edge.from));
        };
        let Some(to) = self.taker_len(&edge.to) else {
            return Err(unknown(alloc, edge.line, &edge.to));
        };
        if from != to {
            return Err(wrong_length(alloc, edge.line, &edge.to));
        }
        if is_twice {
            return Err(twice(alloc, edge.line, &edge.to));
        }
        Ok(())
    }

    /// Checks each edge in order, and marks where it leads.
    pub fn check_edges(&self, alloc: Global, marks: &mut [bool]) -> Result<(), AlgoError>
        requires placed { IsPlacedGraph self.now }
        requires few { length self.now.references.now ≤ 64 }
        requires rows { HasRows self.now }
        requires room { length marks.old ≡ (length self.now.references.now + 1) * 65 }
        requires none { AreMarked self.now marks.old [] }
        ensures faults { Checks result (first_of (edge_faults (of self.now) (own self.now)
            self.now.references.now [] self.now.edges.now)) }
        ensures marked { IfOk result (λ _. AreMarked self.now marks.new self.now.edges.now) }
    {
        for edge in self.edges {
            let spot = self.spot(&edge.to);
            self.check_edge(alloc, edge, is_marked(marks, spot))?;
            mark(marks, spot);
        }
        Ok(())
    }
}
