// Why a line gets no answer.
use std::alloc::{AllocError, AllocFailed};
use std::error::Error;
use std::fmt;
use std::num::ParseIntError;

#[derive(Clone, Copy, Debug, PartialEq, Eq)]
pub enum Fault {
    // the line says no call
    Unreadable,
    NoMemory,
}

impl fmt::Display for Fault {
    fn fmt<W: fmt::Write>(&self, f: &mut fmt::Formatter<W>) -> fmt::Result {
        match self {
            Fault::Unreadable => write!(f, "unreadable"),
            Fault::NoMemory => write!(f, "out of memory"),
        }
    }
}

impl Error for Fault {}

impl From<ParseIntError> for Fault {
    fn from(_e: ParseIntError) -> Fault {
        Fault::Unreadable
    }
}

// The library's two errors of memory have no trait in common, so each has an impl.
impl From<AllocError> for Fault {
    fn from(_e: AllocError) -> Fault {
        Fault::NoMemory
    }
}

impl<T: Drop> From<AllocFailed<T>> for Fault {
    fn from(_e: AllocFailed<T>) -> Fault {
        Fault::NoMemory
    }
}
