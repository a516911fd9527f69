// Why a program of worked cases stops.
use std::alloc::{AllocError, AllocFailed};
use std::io;
use value_bytes::OutOfMemory;

/// A row is badly written, memory was refused, or a stream failed.
#[derive(Clone, Copy, Debug)]
pub struct Failed;

impl From<OutOfMemory> for Failed {
    fn from(_error: OutOfMemory) -> Self {
        Failed
    }
}

impl From<AllocError> for Failed {
    fn from(_error: AllocError) -> Self {
        Failed
    }
}

impl<T: Drop> From<AllocFailed<T>> for Failed {
    fn from(_error: AllocFailed<T>) -> Self {
        Failed
    }
}

impl From<io::Error> for Failed {
    fn from(_error: io::Error) -> Self {
        Failed
    }
}
