//! The laws of units that stand for no operation, each the contract of a function that does nothing.
ghost use Rattle.std.specs.Prelude.{◌≡◌, ◌+◌, ◌*◌, ◌≤◌, ℕ, List, length, map};
ghost use Rattle.syn_base.specs.Bytes.{Bytes};
ghost use Rattle.algo_tree.specs.declared.Part.{Part};
ghost use Rattle.algo_tree.specs.declared.Source.{Source};
ghost use Rattle.algo_tree.specs.Counted.{operations};
ghost use Rattle.algo_tree.specs.SameMeaning.{KeepsMeaning};
ghost use Rattle.algo_tree.specs.Size.{vertices_made};
ghost use Rattle.algo_tree.specs.Tree.{Vertex};
ghost use Rattle.algo_tree.specs.Typed.{IsTyped, label_of};
ghost use Rattle.algo_tree.specs.Valid.{IsTree};
ghost use Rattle.algo_tree.specs.Well.{IsWell};
ghost use Rattle.algo_rules.specs.Resolved.{vertex_within};
ghost use Rattle.algo_rules.specs.declared.Def.{Def};
ghost use Rattle.wiring_laws.specs.Definitions.{leads_within};
ghost use Rattle.wiring_laws.specs.Laws.{AllLead, IsWiring};
ghost use Rattle.wiring_laws.specs.Narrow.{IsNarrow, depth};
ghost use Rattle.wiring_laws.specs.Pruned.{prune, pruned};
ghost use Rattle.wiring_laws.specs.Wiring.{pick, wiring};

/// A vertex that stands for no operation gives at each output the value of the input to which it leads,
/// whatever the sensors give and whatever is kept; and it keeps nothing.
pub fn wiring_is_meant()
    ensures { (u : Vertex) (lens : List ℕ) → IsWell u → IsTyped lens u → operations u ≡ 0 → IsWiring u }
{}

/// Each of its outputs leads to an input that is there, of the same length.
pub fn wiring_fits()
    ensures lengths { (u : Vertex) (lens : List ℕ) → IsWell u → IsTyped lens u → operations u ≡ 0 →
        (label_of u).outs ≡ map (pick 0 lens) (wiring u) }
    ensures inputs { (u : Vertex) (lens : List ℕ) → IsWell u → IsTyped lens u → operations u ≡ 0 →
        AllLead (length lens) (wiring u) }
{}

/// A tree in which such units are replaced by what they pass on has the same meaning, and stands for as many
/// operations.
pub fn pruned_keeps()
    ensures kept { (main : Vertex) → IsTree main → KeepsMeaning main (pruned main) }
    ensures count { (main : Vertex) → operations (pruned main) ≡ operations main }
{}

/// It is a valid tree, with names and bounds as every tree has them.
pub fn pruned_is_a_tree()
    ensures { (main : Vertex) → IsTree main → IsTree (pruned main) }
{}

/// All vertices of a definition lead to the same inputs, so that a table by definitions tells where: no vertex
/// has to be made for it.
pub fn definitions_lead()
    ensures { (ds : List Def) (n : ℕ) (part : Part) (w : Bytes) (ins : List Source) (sensor actuator : ℕ) →
        wiring (vertex_within ds n part w ins sensor actuator) ≡ leads_within ds n w }
{}

/// How large it is follows from the operations, and from how deep and wide the tree is.
pub fn pruned_is_small()
    ensures { (w : ℕ) (u : Vertex) → IsNarrow w u →
        vertices_made (prune u) ≤ 1 + depth u * ((1 + w) * operations u) }
{}
