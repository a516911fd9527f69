// Want of memory, the error of every call that allocates.
use std::alloc::{AllocError, AllocFailed};

/// Memory was refused. Every call that allocates may answer it. A call's clauses say what is left then of what it was
/// lent. Where they say nothing, nothing is promised.
#[derive(Clone, Copy, Debug, PartialEq, Eq)]
pub struct OutOfMemory;

impl From<AllocError> for OutOfMemory {
    fn from(_error: AllocError) -> Self {
        OutOfMemory
    }
}

impl<T: Drop> From<AllocFailed<T>> for OutOfMemory {
    fn from(_error: AllocFailed<T>) -> Self {
        OutOfMemory
    }
}
