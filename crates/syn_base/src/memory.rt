//! Want of memory, as an answer of every function that allocates.
use std::alloc::{AllocError, AllocFailed};

/// There was not enough memory: an answer of its own, with which no other error is merged.
#[derive(Clone, Copy, Debug, PartialEq, Eq)]
pub struct OutOfMemory;

impl From<AllocError> for OutOfMemory {
    fn from(_error: AllocError) -> OutOfMemory {
        OutOfMemory
    }
}

impl<T: Drop> From<AllocFailed<T>> for OutOfMemory {
    fn from(_failed: AllocFailed<T>) -> OutOfMemory {
        OutOfMemory
    }
}
