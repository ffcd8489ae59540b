//! The causes, in the order in which they are looked for.

use syn_base::Items;

/// A place at which a run stops: a sequence that is not at its end, with the place of its next instruction.
#[derive(Clone, Copy, Drop)]
pub struct Stop {
    pub sequence: u32,
    pub at: u32,
}

/// The first that a program lacks, in this order.
#[derive(Drop)]
pub enum CheckCause {
    /// The sequences are not the architecture's in its order, or an instruction names an operation, buffer,
    /// pair or operator that is not there.
    Sequences,
    /// An operation is not called once in a computation sequence, or the halves of a delay are not called in
    /// one sequence, the get half first.
    Calls,
    /// A communication stands in no communicator, or a transfer has not one send, one receive and the waits of
    /// the other communicators.
    Transfers,
    /// A buffer is not written once, is touched on another operator, read by its writer before it is written,
    /// carries or takes another value or length, or has another number of places than it may have.
    Buffers,
    /// The pairs are not one for each buffer and each other sequence that reads it, or do not stand round the
    /// write and the reads.
    Pairs,
    /// A prologue is not the signals of the empty semaphores of its sequence's pairs, once for each place.
    Prologue,
    /// There is no serial order: these are the places at which the run stops that always takes the lowest
    /// sequence that may go on.
    Stuck(Items<Stop>),
}
