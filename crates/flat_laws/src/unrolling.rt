//! The laws of unrolling, each the contract of a function that does nothing and is not called: the crates above
//! take the lemmas in `proofs/`.
ghost use Rattle.std.specs.Prelude.{◌≡◌};
ghost use Rattle.algo_tree.specs.Tree.{Vertex};
ghost use Rattle.algo_tree.specs.Valid.{IsTree};
ghost use Rattle.algo_tree.specs.Counted.{operations};
ghost use Rattle.algo_tree.specs.SameMeaning.{KeepsMeaning};
ghost use Rattle.flat_laws.specs.Unrolled.{unroll};
ghost use Rattle.algo_tree.specs.NoRepeat.{HasNoRepeat};

/// The tree of an algorithm with each repetition unrolled keeps the meaning, and repeats nothing.
pub fn unroll_keeps()
    ensures kept { (main : Vertex) → IsTree main → KeepsMeaning main (unroll main) }
    ensures flat { (main : Vertex) → HasNoRepeat (unroll main) }
{}

/// It is a valid tree again, in which the vertices that are made are named by ports, and stands for as many flat
/// operations.
pub fn unroll_keeps_valid()
    ensures valid { (main : Vertex) → IsTree main → IsTree (unroll main) }
    ensures count { (main : Vertex) → IsTree main → operations (unroll main) ≡ operations main }
{}
