//! Laws of passes, each the contract of a function that does nothing.
ghost use Rattle.std.specs.Prelude.{◌≡◌};
ghost use Rattle.level_meaning.specs.declared.source.Source.{Source};
ghost use Rattle.algo_tree.specs.Tree.{Label, Vertex, Vertices, vertex};
ghost use Rattle.algo_tree.specs.Meaning.{nodes, actuator_values};
ghost use Rattle.algo_tree.specs.SameMeaning.{KeepsMeaning};
ghost use Rattle.syn_base.specs.Vectors.{Vector};

/// A main graph whose vertices were changed, but do the same as before at the same places, and whose
/// actuators have the same sources, keeps its meaning.
pub fn same_nodes_keep_the_meaning()
    ensures { (l : Label) (us vs : Vertices) → nodes vs ≡ nodes us
        → ((look : Source → Vector) → actuator_values look vs ≡ actuator_values look us)
        → KeepsMeaning (vertex l us) (vertex l vs) }
{}

/// What keeps the meaning step by step keeps it.
pub fn steps_keep_the_meaning()
    ensures { (first second third : Vertex) → KeepsMeaning first second → KeepsMeaning second third
        → KeepsMeaning first third }
{}
