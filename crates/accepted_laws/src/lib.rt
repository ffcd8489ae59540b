//! The laws of accepted texts: the definitions of an algorithm have a flat graph that is valid and means the
//! same, and the rows of a sensor table have the vectors of the algorithm's sensors.
//!
//! In the tree of an algorithm text the lines of a repetition stand, by ascending outer input, in the order of
//! the text (`lines_stand_in_text_order`), with and without references that run in every nth reaction. So
//! flattening makes an explode for each fork line, in the order of the lines: `flat_laws` says the operations
//! of any tree, and this law says what that order is where the tree is one of a text.
//!
//! Each law is the contract of a function that does nothing. Whoever says what an accepted command makes, over
//! texts that are only told and not read, stands on them.
#![tactic(auto)]

mod lines;

ghost use Rattle.accepted_laws.specs.Accepted.{AcceptedHaveFlat, TablesFit};
ghost use Rattle.accepted_laws.specs.Flat.{FlatOfStands, FlatTakesTheSame, TreesHaveFlat};
ghost use Rattle.accepted_laws.specs.Told.{AcceptedDoAsTold};

pub use lines::lines_stand_in_text_order;

// What the clauses here speak of: elaborated trees, their flat graphs, and the text of the actuators.
pub use act_text::{acts_text, acts_text_from, actuators_of};
pub use elaboration::elaborate;

/// The flat graph that is defined for a tree stands for the tree's flat list.
pub fn flat_of_stands()
    ensures { FlatOfStands }
{}

/// So it is valid, and its actuators take what the tree's take.
pub fn trees_have_flat()
    ensures { TreesHaveFlat }
{}

/// Whatever flat graph stands for a tree: opened with the initial values of its delays, over all rows and in
/// each reaction its actuators take what the tree's take.
pub fn flat_takes_the_same()
    ensures { FlatTakesTheSame }
{}

/// The definitions of an accepted text make a tree whose flat graph is valid and means the same.
pub fn accepted_have_flat()
    ensures { AcceptedHaveFlat }
{}

/// The tree that the definitions of an accepted text mean has the sensors and actuators of the tree to which they
/// resolve, and its actuators take in each reaction what the meaning with the text's marks says.
pub fn accepted_do_as_told()
    ensures { AcceptedDoAsTold }
{}

/// The rows of an accepted table have the vectors of the algorithm's sensors.
pub fn tables_fit()
    ensures { TablesFit }
{}
