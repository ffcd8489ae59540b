//! Makes all checks of the definitions of a text in their order: `check_definitions` returns the first refusal,
//! or the ports of each definition.
//!
//! `links_of` finds which definitions they name, in time proportional to the text: it returns their places, or
//! the first line that names an unknown definition or one that may not stand there. `algo_resolve` calls the
//! checks before it makes the tree, and counts fork lines with `count_forks`.
#![tactic(auto)]

mod bodies;
mod check;
mod counts;
mod fault;
mod levels;
mod link_laws;
mod links;
mod main_graph;
mod mention;
mod names;
mod standing;
mod tables;

pub use check::check_definitions;
pub use counts::count_forks;
pub use link_laws::links_lead_to_definitions;
pub use links::links_of;
