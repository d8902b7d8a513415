//! What an answer leaves to be done.
use crate::caller::Lack;

/// Whether the program goes on behind a line.
#[derive(Clone, Copy, Debug, PartialEq, Eq)]
pub enum Next {
    Line,
    Quit,
    Drain,
}

/// What is to be done behind an answer. Behind a line that makes no call nothing is wanting.
#[derive(Clone, Copy, Debug, PartialEq, Eq)]
pub struct Answered {
    pub next: Next,
    /// What was wanting for the call of the line, if that made no entry for want of it.
    pub lack: Option<Lack>,
}

impl Answered {
    pub(crate) const LINE: Answered = Answered {
        next: Next::Line,
        lack: None,
    };

    pub(crate) const QUIT: Answered = Answered {
        next: Next::Quit,
        lack: None,
    };

    pub(crate) const DRAIN: Answered = Answered {
        next: Next::Drain,
        lack: None,
    };
}
