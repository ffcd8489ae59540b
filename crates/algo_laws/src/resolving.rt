//! The laws of resolving, each the contract of a function that does nothing.
ghost use Rattle.algo_laws.specs.Central.{AcceptedMakeATree, OperationsAreCounted};
ghost use Rattle.algo_laws.specs.Depths.{NamedAreLessDeep, PortsFollowFromBodies};

/// Definitions as an accepted text has them, that have no refusal, resolve to a valid tree: well formed,
/// with lengths that fit, without sensors or actuators inside what the main graph refers to, and with
/// those of the main graph numbered in order, of at most 2,048 flat operations. Each of its functions has 1 to 64
/// outputs, the numbers of its cases and copies have 32 bits, and the parts of its paths, its definitions and the
/// ports of which flattening makes vertices are names.
pub fn accepted_make_a_tree()
    ensures { AcceptedMakeATree }
{}

/// The tree of such definitions stands for as many flat operations as are counted for `main` from the
/// definitions alone.
pub fn operations_are_counted()
    ensures { OperationsAreCounted }
{}

/// Where every name is known and no definition reaches itself, each definition that a definition names
/// is less deep than it is.
pub fn named_are_less_deep()
    ensures { NamedAreLessDeep }
{}

/// Where besides no depth is above 8, the ports of a definition follow from those of the definitions
/// that its body names, so that a table by depth has them.
pub fn ports_follow_from_bodies()
    ensures { PortsFollowFromBodies }
{}
