//! The laws of the flat graph of a tree, each the contract of a function that does nothing and is not called: the
//! crates above take the lemmas in `proofs/`.
ghost use Rattle.std.specs.Prelude.{◌≡◌, ◌≤◌, List, length, IsTrue};
ghost use Rattle.syn_base.specs.Limits.{most_operations};
ghost use Rattle.algo_tree.specs.Counted.{operations as count};
ghost use Rattle.algo_tree.specs.Tree.{Vertex};
ghost use Rattle.algo_tree.specs.Valid.{IsTree};
ghost use Rattle.flat_graph.specs.Graph.{Graph};
ghost use Rattle.flat_graph.specs.Order.{is_acyclic};
ghost use Rattle.flat_graph.specs.Valid.{actuators_from, is_flat, kinds_of, sensors_from};
ghost use Rattle.flat_laws.specs.Guarded.{guard};
ghost use Rattle.flat_laws.specs.NoCase.{HasNoCase};
ghost use Rattle.flat_laws.specs.Flat.{Operation};
ghost use Rattle.flat_laws.specs.Inlined.{operations};
ghost use Rattle.flat_laws.specs.Plain.{IsPlain};
ghost use Rattle.algo_tree.specs.NoRepeat.{HasNoRepeat};
ghost use Rattle.flat_laws.specs.Unrolled.{unroll};
ghost use Rattle.flat_laws.specs.EndLengths.{HasEndLengths};
ghost use Rattle.flat_laws.specs.Stands.{Stands, KeepsGraph};
ghost use Rattle.flat_laws.specs.FlatOf.{graph_of};
ghost use Rattle.flat_laws.specs.Numbering.{HasBodiesInOrder};

/// A tree without repetitions and without cases has graphs and operations alone.
pub fn no_repeat_no_case_is_plain()
    ensures { (main : Vertex) → HasNoRepeat main → HasNoCase main → IsPlain main }
{}

/// A flat graph that stands for the flat list of an algorithm without repetitions and cases keeps
/// the meaning of its tree.
pub fn stands_keeps()
    ensures { (main : Vertex) (g : Graph) → IsTree main → IsPlain main → Stands g (operations main)
        → KeepsGraph main g (operations main) }
{}

/// No operation of it depends on itself, though each set half depends on its get half.
pub fn stands_has_no_cycle()
    ensures { (main : Vertex) (g : Graph) → IsTree main → IsPlain main → Stands g (operations main)
        → IsTrue (is_acyclic g.vertices) }
{}

/// Its sensors and its actuators are numbered in order, and it has at most 2,048 operations.
pub fn stands_is_numbered()
    ensures sensors { (main : Vertex) (g : Graph) → IsTree main → IsPlain main
        → Stands g (operations main) → IsTrue (sensors_from 0 (kinds_of g.vertices)) }
    ensures actuators { (main : Vertex) (g : Graph) → IsTree main → IsPlain main
        → Stands g (operations main) → IsTrue (actuators_from 0 (kinds_of g.vertices)) }
    ensures few { (main : Vertex) (g : Graph) → IsTree main → IsPlain main
        → Stands g (operations main) → length g.vertices ≤ most_operations }
{}

/// Such a graph is valid.
pub fn stands_is_flat()
    ensures { (main : Vertex) (g : Graph) → IsTree main → IsPlain main → Stands g (operations main)
        → IsTrue (is_flat g) }
{}

/// So the flat graph of any tree, whose repetitions are unrolled and whose cases are put under guards,
/// keeps its meaning, has the number of operations that is counted without expanding the tree, is
/// valid, and has sensors and actuators of the same lengths.
pub fn flattened_is_flat()
    ensures kept { (main : Vertex) (g : Graph) → IsTree main → Stands g (operations (guard (unroll main)))
        → KeepsGraph main g (operations (guard (unroll main))) }
    ensures counted { (main : Vertex) (g : Graph) → IsTree main
        → Stands g (operations (guard (unroll main))) → length g.vertices ≡ count main }
    ensures valid { (main : Vertex) (g : Graph) → IsTree main
        → Stands g (operations (guard (unroll main))) → IsTrue (is_flat g) }
    ensures lengths { (main : Vertex) (g : Graph) → IsTree main
        → Stands g (operations (guard (unroll main))) → HasEndLengths main g }
{}

/// A list of operations has one flat graph that stands for it with the bodies in order.
pub fn stands_is_exact()
    ensures { (g : Graph) (ops : List Operation) → Stands g ops → HasBodiesInOrder g → g ≡ graph_of ops }
{}
