//! Want of memory.
use std::alloc::{AllocError, AllocFailed};
use std::fmt;

/// There was no memory for what a call makes. It says nothing of the input, and what was lent to
/// the call is unchanged.
#[derive(Clone, Copy, Debug, PartialEq, Eq, Hash)]
pub struct Memory;

impl From<AllocError> for Memory {
    fn from(_e: AllocError) -> Memory {
        Memory
    }
}

impl<T: Drop> From<AllocFailed<T>> for Memory {
    fn from(_e: AllocFailed<T>) -> Memory {
        Memory
    }
}

impl fmt::Display for Memory {
    fn fmt<W: fmt::Write>(&self, f: &mut fmt::Formatter<W>) -> fmt::Result {
        f.write_str("out of memory")
    }
}
