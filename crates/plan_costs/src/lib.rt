//! Plans, and what they cost: an order of the operations and an operator for each, with the dates that a
//! draft would give it, and from these its length or its period.
//!
//! All of it is plain arithmetic over flat tables of numbers, which are made once. `Judge` says what a plan
//! costs by the goal, and which operations make it cost so much. No clause speaks of what is computed,
//! beyond that it is safe and ends: `plan_search`, which compares plans by it, only proposes.
#![tactic(auto)]

mod acts;
mod chain;
mod dates;
mod judge;
mod links;
mod lists;
mod numbers;
mod outputs;
mod plan;
mod reactions;
mod site;
mod stands;
mod tables;

pub use chain::Chain;
pub use dates::Dates;
pub use judge::Judge;
pub use links::Links;
pub use lists::Lists;
pub use numbers::{NEVER, NOBODY, PLACES, date_at, number_at, put_date, put_number};
pub use outputs::Outputs;
pub use plan::Plan;
pub use site::{Goal, Site, Stand};
pub use stands::Stands;
pub use tables::Tables;
