//! The links that bear on a handshake.
ghost use Rattle.std.specs.Prelude.{◌≡◌};
ghost use Rattle.link_states.specs.declared.pending.Pending.{Pending};
ghost use Rattle.link_states.specs.Pending.{is_up, is_dialled};

use dist_types::{Items, NodeName};

pub type Names = Items<NodeName>;

/// What a node has of other links, when a frame comes.
#[derive(Debug)]
pub struct Pending {
    /// The peers of which a link is up.
    pub up: Names,
    /// The peers to which an own dial is unfinished.
    pub dials: Names,
}

impl Drop for Pending {
    fn drop(self) {
        let Pending { up: _, dials: _ } = self;
    }
}

/// Who knows a node's other links: lists of names, or the links themselves.
pub trait OtherLinks {
    ghost pending: { Self → Pending };

    /// Whether a link of the peer is up.
    fn is_up(&self, peer: &NodeName) -> bool
        ensures { result ≡ is_up (pending self.now) peer.now };

    /// Whether an own dial to the peer is unfinished.
    fn is_dialled(&self, peer: &NodeName) -> bool
        ensures { result ≡ is_dialled (pending self.now) peer.now };
}

impl OtherLinks for Pending {
    ghost pending = { λ pending. pending };

    fn is_up(&self, peer: &NodeName) -> bool {
        self.up.as_slice().contains(peer)
    }

    fn is_dialled(&self, peer: &NodeName) -> bool {
        self.dials.as_slice().contains(peer)
    }
}

/// How a node stands to a peer.
#[derive(Clone, Copy, Debug)]
pub struct Standing {
    pub is_up: bool,
    pub is_dialled: bool,
}
