//! Why the program ends without an answer.
use anyhow::{Error as Reason, anyhow};
use std::alloc::{AllocError, AllocFailed};
use std::io;

/// Why the program ends without an answer, and with which status.
#[derive(Drop)]
pub struct Fault {
    /// That of the program.
    pub status: u8,
    pub reason: Reason,
}

impl Fault {
    /// Something on the command line, of standard output, or of memory.
    pub fn of(reason: Reason) -> Fault {
        Fault { status: 2, reason }
    }

    /// No node answers.
    pub fn of_node(reason: Reason) -> Fault {
        Fault { status: 3, reason }
    }

    pub fn of_memory() -> Fault {
        Fault::of(anyhow!("out of memory"))
    }

    pub fn of_output(error: io::Error) -> Fault {
        Fault::of(anyhow!("standard output: {error}"))
    }

    /// The node has hung up, or isn't read from any more.
    pub fn of_end() -> Fault {
        Fault::of_node(anyhow!("the node is gone"))
    }
}

impl From<AllocError> for Fault {
    fn from(_error: AllocError) -> Fault {
        Fault::of_memory()
    }
}

impl<T: Drop> From<AllocFailed<T>> for Fault {
    fn from(_error: AllocFailed<T>) -> Fault {
        Fault::of_memory()
    }
}
