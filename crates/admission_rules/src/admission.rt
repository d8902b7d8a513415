//! The rules by which a node admits its peers (Erlang manual, `erlang:set_cookie`; Kernel manual,
//! `net_kernel:allow`).
ghost use Rattle.std.specs.Prelude.{◌≡◌, ◌↔◌, ◌≤◌, length, slice_get, IsTrue, OnOk, IfErr, OnErr, IsBitSet, false, []};
ghost use Rattle.std.specs.Option.{option_copied, option_map};
ghost use Rattle.std.specs.Map.Iter.{deref_pair};
ghost use Rattle.handshake_frames.specs.Spelling.{IsVersion};
ghost use Rattle.admission_rules.specs.Admission.{max_peers, max_allowed, cookie_of, with_cookie_for, with_allowed, IsAllowed};
ghost use Rattle.admission_rules.specs.Fault.{IsCookieFault, IsAllowFault};

use crate::allow_list::{add_all, is_past_limit};
use crate::fault::{AllowFault, CookieFault};
use crate::name_bytes::NameBytes;
use dist_types::{Cookie, Flags, NodeName};
use indexmap::{IndexMap, IndexSet};
use std::alloc::Global;
use std::marker::Model;

/// A node's own name, creation and cookie, the latest version of link messages that it knows, the
/// cookies of its peers, and the names that it allows.
#[derive(Debug)]
pub struct Admission {
    own: NodeName,
    cookie: Cookie,
    hidden: bool,
    creation: u32,
    /// 1 or 2.
    links: u8,
    /// Never the own name.
    peers: IndexMap<NodeName, Cookie>,
    allowed: IndexSet<NodeName>,
}

impl Drop for Admission {
    fn drop(self) {
        let Admission {
            own: _,
            cookie: _,
            hidden: _,
            creation: _,
            links: _,
            peers: _,
            allowed: _,
        } = self;
    }
}

impl Model for Admission {
    ghost use Rattle.admission_rules.specs.Admission.{AdmissionRules, IsWithinLimits};

    ghost Value = { AdmissionRules };

    ghost view = { λ a. record {
      own = a.own;
      cookie = a.cookie;
      hidden = a.hidden;
      creation = a.creation;
      links = a.links;
      peers = a.peers.entries;
      allowed = a.allowed.keys;
    } };

    ghost invariant = { λ a. IsWithinLimits a.own a.links a.peers.entries a.allowed.keys };
}

impl Admission {
    const MAX_PEERS: usize = 1024;

    /// Every peer has the own cookie, and every name is allowed. The version of link messages must
    /// be 1 or 2.
    pub fn new(
        alloc: Global,
        own: NodeName,
        cookie: Cookie,
        hidden: bool,
        creation: u32,
        links: u8,
    ) -> Admission
        requires { IsVersion links }
        ensures { result ≡ record {
          own = own;
          cookie = cookie;
          hidden = hidden;
          creation = creation;
          links = links;
          peers = [];
          allowed = [];
        } }
    {
        Admission {
            own,
            cookie,
            hidden,
            creation,
            links,
            peers: IndexMap::new(alloc),
            allowed: IndexSet::new(alloc),
        }
    }

    pub fn own(&self) -> &NodeName
        ensures { result.now ≡ self.now.own }
    {
        &self.own
    }

    pub fn hidden(&self) -> bool
        ensures { result ≡ self.now.hidden }
    {
        self.hidden
    }

    pub fn creation(&self) -> u32
        ensures { result ≡ self.now.creation }
    {
        self.creation
    }

    /// The latest version of link messages that the node knows. A link has version 2 where both
    /// ends know it.
    pub fn links(&self) -> u8
        ensures value { result ≡ self.now.links }
        ensures limits { IsVersion self.now.links }
    {
        self.links
    }

    /// The cookie for a node: a peer's own one, and else the node's.
    pub fn cookie_for(&self, node: &NodeName) -> &Cookie
        ensures { result.now ≡ cookie_of self.now node.now }
    {
        self.peers.get(node).unwrap_or(&self.cookie)
    }

    /// The peer at an index among those with a cookie of their own, and its cookie, in the order in
    /// which they first got one.
    pub fn peer(&self, index: usize) -> Option<(&NodeName, &Cookie)>
        ensures value { option_map deref_pair result ≡ slice_get self.now.peers index }
        ensures limits { length self.now.peers ≤ max_peers }
    {
        self.peers.get_index(index)
    }

    /// Whether a peer of this name may connect. The bytes may be any.
    pub fn is_allowed(&self, name: &[u8]) -> bool
        ensures { IsTrue result ↔ IsAllowed self.now name.now }
    {
        if self.allowed.is_empty() {
            return true;
        }
        self.allowed.contains(NameBytes(name))
    }

    /// The name at an index, in order of first allowing.
    pub fn allowed(&self, index: usize) -> Option<&NodeName>
        ensures value { option_copied result ≡ slice_get self.now.allowed index }
        ensures limits { length self.now.allowed ≤ max_allowed }
    {
        self.allowed.get_index(index)
    }

    /// Whether a link to a peer with these flags is visible for both ends.
    pub fn visible(&self, peer: Flags) -> bool
        ensures { IsTrue result ↔ ((self.now.hidden ≡ false) × IsBitSet peer.0 0) }
    {
        !self.hidden && peer.published()
    }

    /// Sets the own cookie, which is also that of each peer without one of its own.
    pub fn set_cookie(&mut self, cookie: Cookie)
        ensures { self.new ≡ record self.old { cookie = cookie } }
    {
        self.cookie = cookie;
    }

    /// Sets the cookie for a node: for the own name the own cookie, and else that of the peer
    /// alone.
    pub fn set_cookie_for(&mut self, node: NodeName, cookie: Cookie) -> Result<(), CookieFault>
        ensures ok { OnOk result (self.new ≡ with_cookie_for self.old node cookie) }
        ensures refused { IfErr result (λ fault.
            IsCookieFault fault (with_cookie_for self.old node cookie)) }
        ensures same { OnErr result (self.new ≡ self.old) }
        ensures limits { length self.new.peers ≤ max_peers }
    {
        if node == self.own {
            self.set_cookie(cookie);
            return Ok(());
        }
        if self.peers.len() >= Self::MAX_PEERS && !self.peers.contains_key(&node) {
            return Err(CookieFault::CookiesFull);
        }
        self.peers.insert(node, cookie)?;
        Ok(())
    }

    /// Allows the names beside those allowed already. An empty list changes nothing.
    pub fn allow(&mut self, names: &[NodeName]) -> Result<(), AllowFault>
        ensures ok { OnOk result (self.new ≡ with_allowed self.old names.now) }
        ensures refused { IfErr result (λ fault.
            IsAllowFault fault (with_allowed self.old names.now)) }
        ensures same { OnErr result (self.new ≡ self.old) }
        ensures limits { length self.new.allowed ≤ max_allowed }
    {
        if is_past_limit(&self.allowed, names) {
            return Err(AllowFault::AllowFull);
        }
        let kept = self.allowed.len();
        let added = add_all(&mut self.allowed, names);
        if added.is_err() {
            self.allowed.truncate(kept);
        }
        Ok(added?)
    }
}
