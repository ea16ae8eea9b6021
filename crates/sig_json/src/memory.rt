use std::alloc::{AllocError, AllocFailed};
use thiserror::Error;

/// Out of memory: the one refusal that any call which allocates may give.
#[derive(Clone, Copy, Debug, PartialEq, Eq, Hash, Error)]
#[error("out of memory")]
pub struct Memory;

impl From<AllocError> for Memory {
    fn from(_error: AllocError) -> Memory {
        Memory
    }
}

impl<T: Drop> From<AllocFailed<T>> for Memory {
    fn from(_error: AllocFailed<T>) -> Memory {
        Memory
    }
}

/// A refusal of memory, as an allocator gives it or a call that allocates. Every fault that can say `Memory` is made of
/// any of them by one `From`.
pub trait MemoryRefusal: Drop {}

impl MemoryRefusal for AllocError {}

impl<T: Drop> MemoryRefusal for AllocFailed<T> {}

impl MemoryRefusal for Memory {}
