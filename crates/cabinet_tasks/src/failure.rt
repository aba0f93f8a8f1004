//! Why a task is not done.
use anyhow::anyhow;
use std::alloc::{AllocError, AllocFailed, Global};
use std::error::Error;
use std::fmt::Display;
use std::{fmt, io};

/// Why a task is not done. [`finish_task`](crate::arguments::finish_task) tells a line whole; handed on by `?` as an
/// `anyhow::Error`, it is cut to 120 bytes.
#[derive(Debug, Drop)]
pub enum Failure {
    /// What could not be understood, read or written: a line that people are told whole, however long it is.
    Told(String),
    /// Such a line cut to 120 bytes, where there is no memory for it; or whatever [`finish`](crate::arguments::finish) was
    /// given as an `anyhow::Error`.
    Cut(anyhow::Error),
    /// Memory, the clock, or the program's own input or output failed.
    Failed(anyhow::Error),
}

impl Failure {
    /// A failure that people are told in these words.
    pub fn told<T: Display>(words: &T, heap: Global) -> Failure {
        match words.to_string(heap) {
            Ok(line) => Failure::Told(line),
            Err(_) => Failure::Cut(anyhow!("{words}")),
        }
    }
}

impl Display for Failure {
    fn fmt<W: fmt::Write>(&self, f: &mut fmt::Formatter<W>) -> fmt::Result {
        match self {
            Failure::Told(line) => write!(f, "{line}"),
            Failure::Cut(why) | Failure::Failed(why) => write!(f, "{why}"),
        }
    }
}

impl Error for Failure {}

impl From<anyhow::Error> for Failure {
    fn from(why: anyhow::Error) -> Failure {
        Failure::Failed(why)
    }
}

impl From<io::Error> for Failure {
    fn from(why: io::Error) -> Failure {
        Failure::Failed(why.into())
    }
}

impl<T: Drop> From<AllocFailed<T>> for Failure {
    fn from(failed: AllocFailed<T>) -> Failure {
        AllocError::from(failed).into()
    }
}

impl From<AllocError> for Failure {
    fn from(why: AllocError) -> Failure {
        Failure::Failed(why.into())
    }
}
