//! What may happen in a world, and what is answered.
use crate::side::Side;
use policy_audit::{Event, Reply};

/// A step of one node, in a call or on a wire. Nodes and wires are named by their places, from 0.
#[derive(Debug, Drop)]
pub enum WorldStep {
    /// Any event but a restart and those of links.
    Call {
        node: usize,
        seat: u32,
        event: Event,
    },
    /// A node dials another. It makes a wire.
    Dial {
        from: usize,
        to: usize,
        seat: u32,
        challenge: u32,
    },
    /// The link at the other node is opened.
    Accept {
        wire: usize,
        seat: u32,
        challenge: u32,
    },
    /// The frames that wait for the link at this side join those under way to the other side.
    Hand {
        wire: usize,
        side: Side,
        seat: u32,
    },
    /// The oldest frame under way to this side comes there.
    Deliver {
        wire: usize,
        side: Side,
        seat: u32,
    },
    /// The link at this side is lost, with what is under way to it.
    Cut {
        wire: usize,
        side: Side,
        seat: u32,
    },
    Restart {
        node: usize,
        seat: u32,
    },
}

/// What a step is answered.
#[derive(Debug, Drop)]
pub enum WorldReply {
    /// The place of the new wire.
    Wire(usize),
    /// How many frames were handed over.
    Handed(usize),
    /// What the node answered.
    Answer(Reply),
}
