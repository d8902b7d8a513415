//! Why a program can't begin.
use anyhow::{Error as Reason, anyhow};
use named_files::ShownPath;
use std::alloc::{AllocError, AllocFailed};
use std::fmt::Display;
use std::io;

/// Why there are no options.
#[derive(Drop)]
pub struct Fault {
    /// That of the program: 2 for what stands on the command line, else 1.
    pub status: u8,
    pub reason: Reason,
}

impl Fault {
    /// The system can't give what the program begins with.
    pub fn of_system(error: io::Error) -> Fault {
        failed(anyhow!("{error}"))
    }

    pub fn of_memory() -> Fault {
        failed(anyhow!("out of memory"))
    }
}

impl From<AllocError> for Fault {
    fn from(_error: AllocError) -> Fault {
        Fault::of_memory()
    }
}

impl<T: Drop> From<AllocFailed<T>> for Fault {
    fn from(_error: AllocFailed<T>) -> Fault {
        Fault::of_memory()
    }
}

pub fn failed(reason: Reason) -> Fault {
    Fault { status: 1, reason }
}

pub fn misused(reason: Reason) -> Fault {
    Fault { status: 2, reason }
}

/// The word at this option can't be taken, for this reason.
pub fn refused<D: Display + Drop>(option: &str, reason: D, word: &str) -> Fault {
    misused(anyhow!("{option}: {reason}: {word:.60}"))
}

/// One option says more of another, which isn't given.
pub fn alone(option: &str, other: &str) -> Fault {
    misused(anyhow!("--{option}: there is no --{other}"))
}

/// The file at this option can't be taken, for this reason.
pub fn unread<D: Display + Drop>(option: &str, path: &str, error: D) -> Fault {
    let path = ShownPath(path);
    failed(anyhow!("{option}: {path}: {error}"))
}
