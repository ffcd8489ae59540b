//! What the text of an architecture says: its version, its operators, media, connections and depth,
//! and its durations; or why it is refused.
//!
//! The meaning of the bytes stands in `specs/`. `archi_reader` reads and prints such texts,
//! `durations` and the commands take what was read.
#![tactic(auto)]

mod fault;
mod stands;
mod text;

pub use fault::{ArchiCause, ArchiError, ArchiFault};
pub use stands::{has_stand, with_stand};
pub use text::{ArchiText, DurationLine};

// What the clauses here speak of: operators, media and routes.
pub use archi_graph::{Archi, Hop, Medium, MediumKind, Seq, is_archi, reached};
