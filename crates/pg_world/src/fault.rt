//! Why a step has no reply, and why there is no world.
use node_core::{CoreFault, NodeCore};
use thiserror::Error;

/// Why a step has no reply. All but `Core` leave the world as it was.
#[derive(Clone, Copy, Debug, PartialEq, Eq, Error)]
pub enum WorldFault {
    /// No call makes this event.
    #[error("the event is no call")]
    WrongEvent,
    #[error("there is no such node")]
    NoNode,
    #[error("there is no such wire")]
    NoWire,
    #[error("the wire is accepted already")]
    AcceptedAlready,
    #[error("the wire isn't accepted yet")]
    NotAccepted,
    #[error("nothing is under way to this side")]
    NothingUnderWay,
    /// The node refused, or wanted memory.
    #[error("{0}")]
    Core(CoreFault),
}

/// Why nodes make no world.
#[derive(Clone, Copy, Debug, PartialEq, Eq, Error)]
pub enum NodesFault {
    #[error("two of the nodes have one name")]
    SameName,
    /// A world begins with nodes that have seen nothing.
    #[error("a node has entries already")]
    HasEntries,
    #[error("out of memory")]
    OutOfMemory,
}

/// There is no world. The nodes come back.
#[derive(Drop)]
pub struct NoWorld {
    pub fault: NodesFault,
    pub nodes: Vec<NodeCore>,
}
