//! Architectures: operators, the media that join them, and the sequences that the operators run.
//! The type keeps what is valid, and a law says that operators are joined exactly where routes
//! lead.
//!
//! `is_archi` tells which operators and media are valid, `Archi` keeps valid ones with the depth of
//! the buffers between sequences, and `routes_are_found` is the law. The reader of architecture
//! texts makes architectures; routes, durations, schedules and programs stand on them.
#![tactic(auto)]

mod archi;
mod joined;
mod laws;
mod medium;
mod sequences;
mod valid;

pub use archi::Archi;
pub use joined::reached;
pub use laws::routes_are_found;
pub use medium::{Hop, Medium, MediumKind, Seq};
pub use valid::is_archi;
