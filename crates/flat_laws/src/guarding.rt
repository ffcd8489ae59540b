//! The laws of guarding, each the contract of a function that does nothing and is not called: the crates above
//! take the lemmas in `proofs/`.
ghost use Rattle.std.specs.Prelude.{◌≡◌, ℕ, List};
ghost use Rattle.algo_tree.specs.declared.Guard.{Guard};
ghost use Rattle.algo_tree.specs.Tree.{Vertex};
ghost use Rattle.algo_tree.specs.Valid.{IsTree};
ghost use Rattle.algo_tree.specs.Counted.{operations};
ghost use Rattle.algo_tree.specs.SameMeaning.{KeepsMeaning};
ghost use Rattle.algo_tree.specs.NoRepeat.{HasNoRepeat};
ghost use Rattle.flat_laws.specs.Guarded.{guard, guarded};
ghost use Rattle.flat_laws.specs.NoCase.{HasNoCase};
ghost use Rattle.flat_laws.specs.Carries.{Carries};

/// The tree of an algorithm without repetitions keeps the meaning where its cases are put under
/// guards. Afterwards nothing is a case, and nothing is repeated.
pub fn guard_keeps()
    ensures kept { (main : Vertex) → IsTree main → HasNoRepeat main → KeepsMeaning main (guard main) }
    ensures cases { (main : Vertex) → HasNoCase (guard main) }
    ensures repeats { (main : Vertex) → HasNoRepeat main → HasNoRepeat (guard main) }
{}

/// Each operation and merge that a vertex becomes under guards carries these guards first, in their order.
pub fn guards_are_carried()
    ensures { (gs : List Guard) (n : ℕ) (u : Vertex) → Carries gs (guarded gs n u) }
{}

/// It is a valid tree again, in which the merges are named by the outputs of their switches, and stands for as many
/// flat operations.
pub fn guard_keeps_valid()
    ensures valid { (main : Vertex) → IsTree main → HasNoRepeat main → IsTree (guard main) }
    ensures count { (main : Vertex) → HasNoRepeat main → operations (guard main) ≡ operations main }
{}
