//! A link whose handshake is whole.
ghost use Rattle.std.specs.Prelude.{◌≡◌};

use crate::peer::Peer;
use cookie_digest::Proof;
use dist_types::NodeName;
use std::marker::Model;

/// The peer has shown that it has the cookie.
#[derive(Debug)]
pub struct Up {
    peer: Peer,
    proof: Proof,
}

impl Drop for Up {
    fn drop(self) {
        let Up { peer: _, proof: _ } = self;
    }
}

impl Model for Up {
    ghost use Rattle.link_states.specs.States.{Linked};

    ghost Value = { Linked };

    ghost view = { λ up. record {
      peer = up.peer.name;
      creation = up.peer.creation;
      visible = up.peer.visible;
      version = up.peer.version;
      proof = up.proof;
    } };
}

impl Up {
    pub(crate) fn new(peer: Peer, proof: Proof) -> Up
        ensures { result ≡ record {
          peer = peer.name;
          creation = peer.creation;
          visible = peer.visible;
          version = peer.version;
          proof = proof;
        } }
    {
        Up { peer, proof }
    }

    /// The node at the other end.
    pub fn peer(&self) -> &NodeName
        ensures { result.now ≡ self.now.peer }
    {
        &self.peer.name
    }

    /// The creation that the peer sent, which tells this run of it from others of its name.
    pub fn creation(&self) -> u32
        ensures { result ≡ self.now.creation }
    {
        self.peer.creation
    }

    /// Whether the peer published itself: a hidden one did not.
    pub fn visible(&self) -> bool
        ensures { result ≡ self.now.visible }
    {
        self.peer.visible
    }

    /// The version of the link's messages: 2 where the node knows it and the peer's name frame or
    /// challenge frame says it, else 1.
    pub fn version(&self) -> u8
        ensures { result ≡ self.now.version }
    {
        self.peer.version
    }

    /// That the peer answered the challenge of this handshake.
    pub fn proof(&self) -> &Proof
        ensures { result.now ≡ self.now.proof }
    {
        &self.proof
    }
}
