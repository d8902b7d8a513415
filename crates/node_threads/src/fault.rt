//! Why there is no node, and why a call has no reply.
use node_core::CoreFault;
use thiserror::Error;

/// Why there is no node.
#[derive(Clone, Copy, Debug, PartialEq, Eq, Error)]
pub enum NewFault {
    #[error("a node has 1 to 256 seats")]
    BadSeats,
    #[error("an audit needs room for one entry at least")]
    BadLimit,
    #[error("the version of link messages must be 1 or 2")]
    BadLinks,
    #[error("out of memory")]
    OutOfMemory,
}

/// Why a call has no reply.
#[derive(Clone, Copy, Debug, PartialEq, Eq, Error)]
pub enum CallFault {
    /// The node lacks the seat of the pass, or has not the entries of that seat which the pass
    /// recorded: another node made the pass. Nothing has changed.
    #[error("the pass isn't of this node")]
    StrangePass,
    #[error("{0}")]
    Core(CoreFault),
}
