//! The setting of a schedule: what its check is asked beside it.
use durations::{Durations, Medium, Vertex};

/// The operations, how many operators there are, the media, and how long operations last.
#[derive(Clone, Copy)]
pub(crate) struct Setting<'a> {
    pub vertices: &'a [Vertex],
    pub operators: usize,
    pub media: &'a [Medium],
    pub durations: &'a Durations,
}
