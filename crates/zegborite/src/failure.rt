// Why a batch gets no answer.
use batch::Fault;
use std::alloc::{AllocError, AllocFailed, Global};
use std::{fmt, io};

#[derive(Drop)]
pub enum Failure {
    // it cannot be read
    Unread(anyhow::Error),
    // a line's number, and what is wrong with the line
    Line(usize, String),
    // memory is wanting, or what is to be printed cannot be: no words are told
    Untold,
}

impl Failure {
    pub fn of_line(heap: Global, number: usize, fault: Fault<'_>) -> Failure {
        match format!(in heap; "{fault}") {
            Ok(words) => Failure::Line(number, words),
            Err(error) => error.into(),
        }
    }
}

impl fmt::Display for Failure {
    fn fmt<W: fmt::Write>(&self, f: &mut fmt::Formatter<W>) -> fmt::Result {
        match self {
            Failure::Unread(error) => write!(f, "the batch cannot be read: {error}"),
            Failure::Line(number, words) => write!(f, "line {number}: {words}"),
            Failure::Untold => Ok(()),
        }
    }
}

// The library's two errors of memory have no trait in common, so each has an impl.
impl From<AllocError> for Failure {
    fn from(_: AllocError) -> Self {
        Failure::Untold
    }
}

impl<T: Drop> From<AllocFailed<T>> for Failure {
    fn from(_: AllocFailed<T>) -> Self {
        Failure::Untold
    }
}

impl From<io::Error> for Failure {
    fn from(_: io::Error) -> Self {
        Failure::Untold
    }
}
