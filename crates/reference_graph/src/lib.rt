//! Takes vertices that refer to one another by number, and finds which of them reach themselves,
//! and how deep each one is.
//!
//! The checks of definitions and of graphs call it.
#![tactic(auto)]

mod depths;
mod laws;
mod links;
mod ranks;
mod rounds;
mod search;
mod settling;
mod walk;

pub use depths::{Depths, depths_of};
pub use laws::{depths_are_one_deeper, links_are_enough};
pub use links::are_inside;
pub use search::reaching;
