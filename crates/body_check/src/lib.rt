//! Checks the body of a definition by itself, against the ports of the definitions that it names: a repetition
//! or a switch (`check_repeat`, `check_switch`), or a graph (`check_graph`). `algo_check` calls it for each
//! definition, by depth.
//!
//! Of a graph it checks whether its edges join what they may, each input has one, and no reference depends on
//! itself; `find_reference` and `find_port` find what a name means in a graph. `ports_of_body` finds the ports
//! of a definition from those of its body.
#![tactic(auto)]

mod body_ports;
mod cycles;
mod edges;
mod frontier_fault;
mod graph;
mod graph_fault;
mod lookup;
mod marks;
mod parts;
mod repetition;
mod switch;
mod unfed;

pub use body_ports::ports_of_body;
pub use graph::check_graph;
pub use parts::{GraphParts, find_port, find_reference, is_same_name};
pub use repetition::check_repeat;
pub use switch::{SwitchParts, check_switch};
