//! Want of memory, the one answer that every call with an allocator may give.

use std::alloc::{AllocError, AllocFailed};
use thiserror::Error;

/// Want of memory: the error of the calls that have no other refusal. Nothing is said of when it
/// comes.
#[derive(Clone, Copy, PartialEq, Eq, Debug, Error)]
#[error("out of memory")]
pub struct Memory;

impl From<AllocError> for Memory {
    fn from(_: AllocError) -> Self {
        Memory
    }
}

// What could not be put into memory is dropped.
impl<T: Drop> From<AllocFailed<T>> for Memory {
    fn from(_: AllocFailed<T>) -> Self {
        Memory
    }
}
