//! What a line of a node is to who asked.
ghost use Rattle.std.specs.Prelude.{◌≡◌};
ghost use Rattle.pg_answers.specs.Said.{said_of, status_of};

const NEWS: &str = "! ";

const REFUSED: &str = "refused ";

const FAULT: &str = "fault ";

/// The node has no memory for a call.
const MEMORY: &str = "memory";

/// What a line of a node is to who asked.
#[derive(Clone, Copy, Debug, PartialEq, Eq)]
pub enum Said {
    /// What was asked for is done, or told.
    Done,
    /// A rule refuses it.
    Refused,
    /// It can't be read, or can't be done.
    Fault,
    /// It comes unasked.
    News,
}

impl Said {
    pub fn of(line: &[u8]) -> Said
        ensures { result ≡ said_of line.now }
    {
        if line.starts_with(NEWS.as_bytes()) {
            Said::News
        } else if line.starts_with(REFUSED.as_bytes()) {
            Said::Refused
        } else if line.starts_with(FAULT.as_bytes()) || line == MEMORY.as_bytes() {
            Said::Fault
        } else {
            Said::Done
        }
    }

    /// The status of a program that was answered so.
    pub fn status(self) -> u8
        ensures { result ≡ status_of self }
    {
        match self {
            Said::Done | Said::News => 0,
            Said::Refused => 1,
            Said::Fault => 2,
        }
    }
}
