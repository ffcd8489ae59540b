//! The passes of flattening, one after another. `syndex_program` calls them by `flatten`.
ghost use Rattle.std.specs.Prelude.{◌≡◌, IfOk, length};
ghost use Rattle.algo_tree.specs.Counted.{operations as count};
ghost use Rattle.flat_laws.specs.EndLengths.{HasEndLengths};
ghost use Rattle.flat_laws.specs.FlatOf.{flat_of};
ghost use Rattle.flat_laws.specs.Stands.{KeepsGraph, Stands};
ghost use Rattle.flat_laws.specs.Guarded.{guard as guarded};
ghost use Rattle.flat_laws.specs.Inlined.{operations};
ghost use Rattle.flat_laws.specs.Listed.{HasOperations};
ghost use Rattle.flat_laws.specs.Unrolled.{unroll as unrolled};
ghost use Rattle.flat_laws.specs.Numbering.{HasBodiesInOrder};
ghost use Rattle.hierarchy.specs.Built.{graph_of};
ghost use Rattle.algo_tree.specs.NoRepeat.{HasNoRepeat};

use crate::inlining::{Inlined, inline};
use crate::unchanged::{has_no_case, has_no_repeat};
use algo_tree::Tree;
use conditioning::guard;
use factorisation::unroll;
use flat_graph::Flat;
use std::alloc::Global;
use syn_base::OutOfMemory;

/// The flat graph of an algorithm: its repetitions are unrolled, its cases are put under guards, and
/// its graphs are taken apart. It keeps the meaning: the actuators take the same values in each
/// reaction, and each delay keeps the same. Its operations are those of the tree and no others, unit by
/// unit in order (`HasOperations`): each operation and merge reads what the tree says, and has a guard for
/// each case around it, outer first, by the value that conditions the switch, and no other guard. Its sensors
/// and actuators have the lengths of the tree's.
pub fn flatten(alloc: Global, tree: &Tree) -> Result<Flat, OutOfMemory>
    ensures same { IfOk result (λ g. g ≡ flat_of tree.now) }
    ensures stands { IfOk result (λ g. Stands g (operations (guarded (unrolled tree.now)))) }
    ensures kept { IfOk result (λ g. KeepsGraph tree.now g (operations (guarded (unrolled tree.now)))) }
    ensures count { IfOk result (λ g. length g.vertices ≡ count tree.now) }
    ensures operations { IfOk result (λ g. HasOperations tree.now g) }
    ensures lengths { IfOk result (λ g. HasEndLengths tree.now g) }
{
    // By this call the proof knows that the tree is valid.
    let _main = tree.main();
    let Inlined { vertices, bodies } = inline_unrolled(alloc, tree)?;
    Ok(Flat::new(vertices, bodies))
}

/// The operations of a tree after both passes. One without repetitions need not be unrolled.
fn inline_unrolled(alloc: Global, tree: &Tree) -> Result<Inlined, OutOfMemory>
    ensures stands { IfOk result (λ all. Stands (graph_of all) (operations (guarded (unrolled tree.now)))) }
    ensures order { IfOk result (λ all. HasBodiesInOrder (graph_of all)) }
{
    if has_no_repeat(tree.main()) {
        return inline_guarded(alloc, tree);
    }
    let Ok(unrolled) = unroll(alloc, tree) else {
        return Err(OutOfMemory);
    };
    inline_guarded(alloc, &unrolled)
}

/// The operations of a tree without repetitions after its cases are put under guards. One without cases needs no
/// guards.
fn inline_guarded(alloc: Global, tree: &Tree) -> Result<Inlined, OutOfMemory>
    requires { HasNoRepeat tree.now }
    ensures stands { IfOk result (λ all. Stands (graph_of all) (operations (guarded tree.now))) }
    ensures order { IfOk result (λ all. HasBodiesInOrder (graph_of all)) }
{
    if has_no_case(tree.main()) {
        return inline(alloc, tree);
    }
    let guarded = guard(alloc, tree)?;
    inline(alloc, &guarded)
}
