//! Laws of one level, each the contract of a function that does nothing.
ghost use Rattle.std.specs.Prelude.{◌≡◌, ◌↔◌, ℕ, ◌<◌, List, length};
ghost use Rattle.level_meaning.specs.Level.{State, Node, out};
ghost use Rattle.level_meaning.specs.Order.{IsAcyclic, IsInOrder, FuelIsEnough, MeetsLevel};
ghost use Rattle.level_meaning.specs.Cycles.{AllInRange, ReachesNoneItself};
ghost use Rattle.syn_base.specs.Vectors.{Values};

/// In a level without cycles more fuel changes no value, from as much fuel on as the level has nodes.
pub fn enough_fuel()
    ensures { (cs : List Node) → IsAcyclic cs → FuelIsEnough cs }
{}

/// In a level without cycles the outputs are the one table that meets the equation of each node.
pub fn one_table()
    ensures { (cs : List Node) (row : Values) (st : State) (ins : Values) (expected : ℕ → Values)
        → IsAcyclic cs → MeetsLevel cs row st ins expected
        → (r : ℕ) → r < length cs → out cs row st ins (length cs) r ≡ expected r }
{}

/// A level has no cycle exactly where each node that is asked for is there, and no node reaches
/// itself.
pub fn no_cycle_by_reaching()
    ensures { (cs : List Node) → IsAcyclic cs ↔ (AllInRange cs × ReachesNoneItself cs) }
{}

/// A level in which all that a node asks for stands earlier has no cycle.
pub fn no_cycle_in_order()
    ensures { (cs : List Node) → IsInOrder cs → IsAcyclic cs }
{}
