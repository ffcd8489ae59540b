//! The next micro-step of a sequence, for the steps of the table.
use executive_program::MicroStep;

/// The next micro-step of a sequence, the reaction of that, and the word that it touches.
#[derive(Clone, Copy, Drop)]
pub struct Next {
    pub seq: u32,
    pub reaction: u64,
    pub word: usize,
    pub step: MicroStep,
}
