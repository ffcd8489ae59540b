//! What the passes make of a pruned tree, each law the contract of a function that does nothing.
ghost use Rattle.std.specs.Prelude.{◌≡◌, List};
ghost use Rattle.algo_tree.specs.NoRepeat.{HasNoRepeat};
ghost use Rattle.algo_tree.specs.Tree.{Vertex};
ghost use Rattle.algo_tree.specs.Valid.{IsTree};
ghost use Rattle.flat_laws.specs.FlatOf.{flat_of};
ghost use Rattle.flat_laws.specs.Guarded.{guard};
ghost use Rattle.flat_laws.specs.Inlined.{operations};
ghost use Rattle.flat_laws.specs.Unrolled.{unroll};
ghost use Rattle.multi_period.specs.declared.Mark.{Mark};
ghost use Rattle.multi_period.specs.Periods.{periods};
ghost use Rattle.wiring_laws.specs.Pruned.{pruned};

/// A tree may be unrolled before it is pruned or after.
pub fn pruned_is_unrolled()
    ensures { (main : Vertex) → IsTree main → unroll (pruned main) ≡ pruned (unroll main) }
{}

/// If nothing is repeated in it, its cases may be put under guards before or after.
pub fn pruned_is_guarded()
    ensures { (main : Vertex) → IsTree main → HasNoRepeat main → guard (pruned main) ≡ pruned (guard main) }
{}

/// So the flat graph of a tree may be made of the pruned one: its list of operations is the same.
pub fn pruned_is_flattened()
    ensures list { (main : Vertex) → IsTree main →
        operations (guard (unroll (pruned main))) ≡ operations (guard (unroll main)) }
    ensures flat { (main : Vertex) → IsTree main → flat_of (pruned main) ≡ flat_of main }
{}

/// Marks of the references of a main graph may be made of the pruned tree: the flat graph is the same.
pub fn pruned_is_marked()
    ensures pruned { (marks : List Mark) (main : Vertex) → IsTree main →
        pruned (periods marks (pruned main)) ≡ pruned (periods marks main) }
    ensures flat { (marks : List Mark) (main : Vertex) → IsTree main → IsTree (periods marks main) →
        IsTree (periods marks (pruned main)) →
        flat_of (periods marks (pruned main)) ≡ flat_of (periods marks main) }
{}
