//! The least route between each two operators of an architecture, and the law that the routes that
//! are found are those computed from all routes of as many hops.
//!
//! `routes_of` makes the table `Routes`, and `routes_are_least` is the law.
#![tactic(auto)]

mod laws;
mod less;
mod rounds;
mod search;
mod table;

pub use laws::routes_are_least;
pub use rounds::routes_of;
pub use table::Routes;
