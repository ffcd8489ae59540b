//! The law of the operations of a tree, the contract of a function that does nothing and is not called: `hierarchy`
//! takes the lemmas in `proofs/`.
ghost use Rattle.std.specs.Prelude.{◌≡◌};
ghost use Rattle.algo_tree.specs.Tree.{Vertex};
ghost use Rattle.algo_tree.specs.Valid.{IsTree};
ghost use Rattle.flat_laws.specs.Guarded.{guard};
ghost use Rattle.algo_tree.specs.NoRepeat.{HasNoRepeat};
ghost use Rattle.flat_laws.specs.Unrolled.{unroll};
ghost use Rattle.flat_laws.specs.FlatOf.{flat_of};
ghost use Rattle.flat_laws.specs.Listed.{HasOperations};
ghost use Rattle.flat_laws.specs.Origins.{FuelIsEnough};
ghost use Rattle.flat_laws.specs.Table.{table};

/// The flat graph of an algorithm has the operations of its tree and no others, in order; each reads what the
/// tree says, and has the guards that it says. Unrolling its repetitions and putting its cases under guards keep
/// them. The fuel with which sources are followed is enough: more changes nothing.
pub fn flat_graph_has_the_operations()
    ensures operations { (main : Vertex) → IsTree main → HasOperations main (flat_of main) }
    ensures unrolled { (main : Vertex) → IsTree main → table (unroll main) ≡ table main }
    ensures guarded { (main : Vertex) → IsTree main → HasNoRepeat main → table (guard main) ≡ table main }
    ensures enough { FuelIsEnough }
{}
