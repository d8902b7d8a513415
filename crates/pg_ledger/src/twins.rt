//! Nodes of one name: each ends the link of the other to this node, which alone sees both.
use dist_types::{NodeName, OutOfMemory, TryClone};
use node_core::NodeCore;
use policy_audit::{Reply, Verdict};
use std::alloc::Global;

/// Of how many peers it is known how they came up last.
const MOST: usize = 64;

/// How a peer came up.
#[derive(Drop)]
struct Peer {
    name: NodeName,
    /// Its creation, and the one before.
    last: u32,
    before: Option<u32>,
    telling: Telling,
}

/// Whether two nodes have been found to have a name.
#[derive(Clone, Copy, PartialEq, Eq, Drop)]
enum Telling {
    Unfound,
    Due,
    Told,
}

impl Peer {
    /// The peer has come up with this creation. Where that is one from before the last one, two
    /// nodes have the name: a node that begins anew never has an earlier creation again.
    fn comes_up(&mut self, creation: u32) {
        if creation == self.last {
            return;
        }
        if self.before == Some(creation) && self.telling == Telling::Unfound {
            self.telling = Telling::Due;
        }
        self.before = Some(self.last);
        self.last = creation;
    }
}

/// What an audit tells of peers that share a name.
#[derive(Drop)]
pub struct Twins {
    peers: Vec<Peer>,
    /// How much of the audit has been looked at, and of which life.
    entries: usize,
    creation: u32,
}

impl Twins {
    pub fn new(alloc: Global) -> Twins {
        Twins {
            peers: Vec::new(alloc),
            entries: 0,
            creation: 0,
        }
    }

    /// Looks at what is new in the audit: a name that two nodes have, if one was found that hasn't
    /// been told. Where memory is wanting, it is told at a later look.
    pub fn follow(&mut self, alloc: Global, core: &NodeCore) -> Option<NodeName> {
        if self.creation != core.creation() {
            self.creation = core.creation();
            self.entries = 0;
        }
        let seen = self.entries;
        self.entries = core.audit().len();
        for entry in core.audit().after(seen) {
            if let Verdict::Accepted(Reply::Up { peer, creation, .. }) = &entry.verdict {
                // A peer that isn't known for want of memory is known when it comes up again.
                self.come_up(alloc, peer, *creation).ok();
            }
        }
        self.take_due(alloc)
    }

    /// A name that is to be told, which is told then.
    fn take_due(&mut self, alloc: Global) -> Option<NodeName> {
        let mut peers = self.peers.iter_mut();
        let peer = peers.find(|peer| peer.telling == Telling::Due)?;
        let name = peer.name.try_clone(alloc).ok()?;
        peer.telling = Telling::Told;
        Some(name)
    }

    fn come_up(
        &mut self,
        alloc: Global,
        name: &NodeName,
        creation: u32,
    ) -> Result<(), OutOfMemory> {
        if let Some(peer) = self.peers.iter_mut().find(|peer| peer.name == *name) {
            peer.comes_up(creation);
            return Ok(());
        }
        if self.peers.len() >= MOST {
            self.peers.remove(0);
        }
        let peer = Peer {
            name: name.try_clone(alloc)?,
            last: creation,
            before: None,
            telling: Telling::Unfound,
        };
        self.peers.push(peer)?;
        Ok(())
    }
}
