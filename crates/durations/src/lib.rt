//! How long each operation of a flat graph lasts on each operator, by the durations of an
//! architecture's text.
//!
//! `durations_of` makes the table or tells the first operation without a duration; `ticks` and
//! `least` read it. The commands make it of what was read, and whoever places operations asks it
//! where they may stand. `entry` reads the durations of a text, as `Given`, without a table.
#![tactic(auto)]

mod given;
mod halves;
mod laws;
mod missing;
mod rows;
mod table;

pub use given::Given;
pub use laws::{accepted_are_durations, durations_fit};
pub use rows::{durations_of, entry};
pub use table::Durations;

// What the clauses here speak of: flat graphs and architectures.
pub use archi_defs::{
    Archi, ArchiCause, ArchiError, ArchiText, DurationLine, Hop, Medium, MediumKind, Seq, is_archi,
};
pub use flat_graph::{Flat, Guard, Kind, Source, Vertex, is_flat, len_of};
