//! One link with a stock node.
ghost use Rattle.std.specs.Prelude.{◌≡◌, false, IfOk, None};
ghost use Rattle.otp_link.specs.Asking.{IsFresh, asked_for, asking, healing_behind, millis};
ghost use Rattle.otp_link.specs.Known.{Meets, known_of};
ghost use Rattle.otp_link.specs.Sent.{dropped_of};

use crate::asking::Healing;
use dist_types::OutOfMemory;
use otp_edge::{Dropped, Edge, Run};
use std::alloc::Global;
use std::time::Duration;

/// How a link with a stock node is made.
#[derive(Clone, Copy, Debug)]
pub struct LinkKind {
    /// The node here is among the nodes of the stock node; else among its hidden ones.
    pub is_visible: bool,
    /// The node here has dialled.
    pub is_dialled: bool,
    /// The node here takes messages in parts.
    pub in_parts: bool,
}

/// One link with a stock node: what passes between it and the node here.
#[derive(Debug, Drop)]
pub struct OtpLink {
    pub(crate) alloc: Global,
    pub(crate) kind: LinkKind,
    /// That of the node here, and that of the peer, until both are known.
    pub(crate) own: Option<Run>,
    pub(crate) peer: Option<Run>,
    /// Once both are.
    pub(crate) edge: Option<Edge>,
    /// The last frame of the handshake has come.
    pub(crate) takes_bodies: bool,
    /// The last one has gone out.
    pub(crate) sends_bodies: bool,
    pub(crate) healing: Healing,
}

impl OtpLink {
    /// A link that has just been opened.
    pub fn new(alloc: Global, kind: LinkKind) -> OtpLink
        ensures kind { result.kind ≡ kind }
        ensures own { result.own ≡ None }
        ensures peer { result.peer ≡ None }
        ensures edge { result.edge ≡ None }
        ensures takes { result.takes_bodies ≡ false }
        ensures sends { result.sends_bodies ≡ false }
        ensures healing { IsFresh result.healing }
    {
        OtpLink {
            alloc,
            kind,
            own: None,
            peer: None,
            edge: None,
            takes_bodies: false,
            sends_bodies: false,
            healing: Healing::new(),
        }
    }

    /// The edge begins once both ends have said their names; no other one behind it.
    pub(crate) fn meet(&mut self)
        ensures kind { self.new.kind ≡ self.old.kind }
        ensures takes { self.new.takes_bodies ≡ self.old.takes_bodies }
        ensures sends { self.new.sends_bodies ≡ self.old.sends_bodies }
        ensures healing { self.new.healing ≡ self.old.healing }
        ensures known { Meets self.old.kind (known_of self.old) (known_of self.new) }
    {
        if self.edge.is_some() {
            return;
        }
        match (self.own.take(), self.peer.take()) {
            (Some(own), Some(peer)) => {
                let mut edge = Edge::new(self.alloc, own, peer, self.kind.in_parts);
                // (it is so already)
                edge.in_parts = self.kind.in_parts;
                self.edge = Some(edge);
            }
            (own, peer) => {
                self.own = own;
                self.peer = peer;
            }
        }
    }

    /// How often something was dropped for this reason.
    pub fn dropped(&self, reason: Dropped) -> u64
        ensures { result ≡ dropped_of self.now.edge reason }
    {
        match &self.edge {
            Some(edge) => edge.drops.of(reason),
            None => 0,
        }
    }

    /// The bodies, behind their lengths, by which the peer is asked again: for all its rows, where
    /// some lack here; over a hidden link for those of scopes that weren't shown yet.
    pub fn ask(&mut self, now: Duration) -> Result<Vec<u8>, OutOfMemory>
        ensures asked { IfOk result (λ out. out.items ≡
            asking self.old.edge (asked_for self.old (millis now))) }
        ensures stays { self.new ≡ record self.old {
          healing = healing_behind self.old (millis now);
        } }
    {
        let none = Vec::new(self.alloc);
        if !self.sends_bodies || !self.takes_bodies {
            return Ok(none);
        }
        let Some(edge) = &self.edge else {
            return Ok(none);
        };
        if self.healing.is_due(now) {
            return edge.ask(self.alloc, true);
        }
        if !self.kind.is_visible && self.healing.is_seeking(now) {
            return edge.ask(self.alloc, false);
        }
        Ok(none)
    }
}
