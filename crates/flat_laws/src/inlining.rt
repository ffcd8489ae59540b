//! The laws of inlining, each the contract of a function that does nothing and is not called: the crates above
//! take the lemmas in `proofs/`.
ghost use Rattle.std.specs.Prelude.{◌≡◌, length};
ghost use Rattle.algo_tree.specs.Tree.{Vertex};
ghost use Rattle.algo_tree.specs.Valid.{IsTree};
ghost use Rattle.algo_tree.specs.Counted.{operations as count};
ghost use Rattle.flat_laws.specs.Inlined.{operations};
ghost use Rattle.flat_laws.specs.Plain.{IsPlain};
ghost use Rattle.flat_laws.specs.Numbered.{SameCells};
ghost use Rattle.flat_laws.specs.SameMeaning.{KeepsFlat};

/// The flat list of an algorithm without repetitions and cases has no cycle and the meaning of its
/// tree, and as many operations as the tree stands for.
pub fn inline_keeps()
    ensures kept { (main : Vertex) → IsTree main → IsPlain main → KeepsFlat main (operations main) }
    ensures count { (main : Vertex) → IsTree main → IsPlain main
        → length (operations main) ≡ count main }
{}

/// Its cells may be named by the numbers of get halves in place of paths.
pub fn cells_by_number()
    ensures { (main : Vertex) → IsTree main → IsPlain main → SameCells (operations main) }
{}
