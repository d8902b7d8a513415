//! What a line of a world's script asks for.
use dist_types::{Group, NodeName, Scope};
use pg_world::Side;
use policy_audit::{Event, Opening};

/// What a line asks for. Nodes go by their names, wires by their numbers.
#[derive(Drop)]
pub enum WorldLine {
    /// One more node. It comes before all other lines.
    Node(Opening),
    /// An event at a node, by the present seat.
    At {
        node: NodeName,
        event: Event,
    },
    /// The seat of the lines that follow.
    Seat(u32),
    Dial {
        from: NodeName,
        to: NodeName,
        challenge: u32,
    },
    Accept {
        wire: u32,
        challenge: u32,
    },
    Hand {
        wire: u32,
        side: Side,
    },
    Deliver {
        wire: u32,
        side: Side,
    },
    Cut {
        wire: u32,
        side: Side,
    },
    Restart(NodeName),
    /// Frames are handed over and delivered on all wires, until none moves.
    Settle,
    /// Who lists whom in a group.
    Show(Scope, Group),
}
