//! The whole check of a graph, which `algo_check` calls for each.
ghost use Rattle.std.specs.Prelude.{◌≤◌, length, map, slice_index_or};
ghost use Rattle.std.specs.List.{All};
ghost use Rattle.algo_rules.specs.Graphs.{graph_fault};
ghost use Rattle.algo_rules.specs.Placed.{ArePlaced, Checks};
ghost use Rattle.algo_rules.specs.Ports.{no_ports, ports_of};

use crate::parts::GraphParts;
use algo_rules::AlgoError;
use std::alloc::Global;

/// Whether the edges of a graph join what they may, each input has one, and no reference depends on itself.
/// The edges are checked in order, then what is open, and cycles last. It returns the first refusal; want of
/// memory may come in place of any result.
pub fn check_graph(alloc: Global, graph: &GraphParts) -> Result<(), AlgoError>
    requires placed { ArePlaced graph.now.defs.now graph.now.table.now
        (map (λ r. r.def) graph.now.references.now) graph.now.places.now }
    requires few { length graph.now.references.now ≤ 64 }
    requires outs { length graph.now.outs.now ≤ 65 }
    requires ins { All (λ p. length (slice_index_or graph.now.table.now p no_ports).ins ≤ 65)
        graph.now.places.now }
    ensures { Checks result (graph_fault graph.now.defs.now (ports_of graph.now.defs.now)
        graph.now.line (record { ins = graph.now.ins.now; outs = graph.now.outs.now })
        graph.now.references.now graph.now.edges.now) }
{
    let mut marks = graph.no_marks(alloc)?;
    graph.check_edges(alloc, marks.as_mut_slice())?;
    graph.check_unfed(alloc, marks.as_slice())?;
    graph.check_cycles(alloc)
}
