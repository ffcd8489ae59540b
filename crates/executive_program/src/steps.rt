//! Micro-steps: the atomic steps of an instruction, each on one word, and what it does beside.

/// Where an element lies.
#[derive(Clone, Copy, Drop)]
pub enum Place {
    /// In the place of the reaction of a buffer.
    Buffer { buffer: u32, number: u32 },
    /// In the wire of a medium.
    Wire { medium: u32, number: u32 },
}

/// What a load does with the element. `more` says that further micro-steps of the instruction follow;
/// with its last one the registers are empty.
#[derive(Clone, Copy, Drop)]
pub enum OnLoad {
    /// A send or a receive has it on its way.
    Carry,
    /// A call gathers it: it is the register of this number, after those of lower numbers.
    Gather(u64),
    /// It is the last one that a call loads, and the register of this number: the operation is computed.
    Compute {
        vertex: u32,
        register: u64,
        more: bool,
    },
}

/// What a store writes.
#[derive(Clone, Copy, Drop)]
pub enum OnStore {
    /// A send or a receive stores what it has on its way.
    Carry,
    /// A call stores the register of this number.
    Give { register: u64, more: bool },
    /// The first store of a call that reads nothing: the operation is computed, and its first element
    /// stored.
    Compute { vertex: u32, more: bool },
}

/// A micro-step. Semaphores 2q and 2q + 1 are the empty and the full one of pair q. Halves of transfers
/// are numbered in a reaction: of transfer t of a medium the send is half 2t, and the receive 2t + 1.
#[derive(Clone, Copy, Drop)]
pub enum MicroStep {
    /// Enabled where the semaphore is 1, which it sets to 0: of a buffer of one place.
    Take(u64),
    /// Enabled where the semaphore is at least 1: of a buffer of several places.
    See(u64),
    /// Subtracts 1 from a semaphore that was seen.
    Lower(u64),
    /// Adds 1 to the semaphore.
    Signal(u64),
    /// Enabled where the medium's turn is that of this half of a reaction's `halves`, or, where `exact`
    /// is false, has come to it.
    Await {
        medium: u32,
        half: u64,
        halves: u64,
        exact: bool,
    },
    /// Adds 1 to the medium's turn.
    Advance {
        medium: u32,
    },
    /// Loads an element.
    Load {
        place: Place,
        then: OnLoad,
    },
    /// Stores an element.
    Store {
        place: Place,
        what: OnStore,
    },
}
