//! The stage of reading a processor's text.

/// What the line before the next one was.
#[derive(Clone, Copy, Debug, PartialEq, Eq)]
pub enum Stage {
    /// None, or the end of a processor.
    Outside,
    /// The name of a processor.
    Named,
    /// The pairs of a processor, or one of its buffers.
    Declared,
    /// The end of a thread.
    Threaded,
    /// The begin of a thread or of the main part, or a line before its loop.
    Prologue,
    /// The begin of a loop, or a line inside it.
    Turn,
    /// The end of a loop, or a wait for the end of a thread.
    Ended,
}
