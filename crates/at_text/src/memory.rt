//! Want of memory.

use std::alloc::{AllocError, AllocFailed};

/// Want of memory: an allocation was refused.
///
/// It is the one answer that no clause ties to a cause, since no caller can know how much memory is left.
#[derive(Clone, Copy, Debug, PartialEq, Eq)]
pub struct Memory;

impl From<AllocError> for Memory {
    fn from(_refused: AllocError) -> Memory {
        Memory
    }
}

impl<T: Drop> From<AllocFailed<T>> for Memory {
    fn from(_refused: AllocFailed<T>) -> Memory {
        Memory
    }
}
