//! What a connection is told unasked: the peers that come and go, and that the node has begun anew.
ghost use Rattle.std.specs.Prelude.{◌≡◌, ◌<◌, ◌≤◌, ◌-◌, ◌==◌, [], None, Some, false, true, length, nat_lt, position, OnOk, OnErr};
ghost use Rattle.std.specs.List.{list_any};
ghost use Rattle.policy_audit.specs.History.{creation, entered};
ghost use Rattle.pg_session.specs.Notices.{Known, TellsNews, is_named, has_gone};
ghost use Rattle.pg_session.specs.Seen.{seen_of, unseen};

use crate::notice::{Peer, put_all_down, put_down, put_life, put_up};
use dist_types::{NodeName, OutOfMemory, TryClone, copies_of};
use node_core::NodeCore;
use node_threads::Shared;
use pg_text::DownReason;
use policy_audit::{Entry, Event, Later, Reply, Verdict};
use std::alloc::Global;
use std::marker::Model;

/// Who knows why links were lost.
pub trait LostLinks {
    /// Why the link of this number, which was up, was lost. The node is locked meanwhile.
    fn reason(&self, core: &NodeCore, link: u32) -> DownReason;
}

/// How far a connection has been told: which life of the node, and how many of its entries.
#[derive(Clone, Copy, Debug, PartialEq, Eq)]
pub struct Seen {
    creation: u32,
    entries: usize,
}

impl Seen {
    /// Of no life.
    pub const NOTHING: Seen = Seen {
        creation: 0,
        entries: 0,
    };

    /// Up to now.
    pub fn of(core: &NodeCore) -> Seen
        ensures { result ≡ seen_of core.now.history }
    {
        Seen {
            creation: core.creation(),
            entries: core.audit().len(),
        }
    }

    /// No entry of this life.
    pub fn begun(core: &NodeCore) -> Seen
        ensures { result ≡ record { creation = creation core.now.history; entries = 0 } }
    {
        Seen {
            creation: core.creation(),
            entries: 0,
        }
    }

    /// That of the life.
    pub fn creation(&self) -> u32
        ensures { result ≡ self.now.creation }
    {
        self.creation
    }

    /// How many entries it has been told of.
    pub fn entries(&self) -> usize
        ensures { result ≡ self.now.entries }
    {
        self.entries
    }

    /// The entries since, as far as the node keeps them.
    pub fn unseen<'a>(&self, core: &'a NodeCore) -> Later<'a>
        ensures ok { result ≡ unseen self.now core.now.history core.now.forgotten }
        ensures had { core.now.forgotten ≤ entered core.now.history.entries }
    {
        core.audit().after(self.entries)
    }

    /// How many entries there are since, news or not.
    pub fn behind(&self, shared: &Shared) -> usize
        ensures { result ≡ entered shared.now.history.entries - self.now.entries }
    {
        shared.core().audit().len().saturating_sub(self.entries)
    }

    /// Whether there are more entries since than so many.
    pub fn lags(&self, shared: &Shared, most: usize) -> bool
        ensures { result ≡ nat_lt most (entered shared.now.history.entries - self.now.entries) }
    {
        self.behind(shared) > most
    }

    /// Whether the node is still in that life.
    pub fn is_of(&self, shared: &Shared) -> bool
        ensures { result ≡ (creation shared.now.history == self.now.creation) }
    {
        shared.core().creation() == self.creation
    }

    /// Whether there is news since, which a connection with monitors may have to be told: in
    /// another life there always is.
    pub fn is_behind(&self, shared: &Shared) -> bool
        ensures { (creation shared.now.history == self.now.creation) ≡ false → result ≡ true }
    {
        !self.is_of(shared) || shared.last_news() as usize > self.entries
    }
}

/// What a connection has been told.
#[derive(Drop)]
pub struct News {
    /// Those that are up as far as it knows.
    peers: Vec<Peer>,
    /// The creation of a new life, until it is told.
    restarted: Option<u32>,
}

impl Model for News {
    ghost use Rattle.pg_session.specs.Notices.{Known};

    ghost Value = { Known };

    ghost view = { λ news. record { peers = news.peers.items; anew = news.restarted } };
}

impl News {
    pub fn new(alloc: Global) -> News
        ensures { result ≡ record { peers = []; anew = None } }
    {
        News {
            peers: Vec::new(alloc),
            restarted: None,
        }
    }

    /// Takes the place of this one, as if it had been told the same.
    pub fn start(&mut self, alloc: Global, as_told: &News) -> Result<(), OutOfMemory>
        ensures ok { OnOk result (self.new ≡ record { peers = as_told.now.peers; anew = None }) }
        ensures same { OnErr result (self.new ≡ self.old) }
    {
        self.peers = copies_of(alloc, as_told.peers.as_slice())?;
        self.restarted = None;
        Ok(())
    }

    /// The node has begun anew, which is to be told.
    pub fn begin_anew(&mut self, core: &NodeCore)
        ensures { self.new ≡ record {
          peers = self.old.peers;
          anew = Some (creation core.now.history);
        } }
    {
        self.restarted = Some(core.creation());
    }

    /// Adds that the node has begun anew, if that isn't told yet, behind the end of each peer.
    pub fn put_restart(&mut self, out: &mut Vec<u8>) -> Result<(), OutOfMemory>
        ensures told { OnOk result (TellsNews self.old out.old.items self.new out.new.items) }
        ensures done { OnOk result (self.new.anew ≡ None) }
        ensures same { OnErr result (self.new ≡ self.old) }
    {
        let Some(creation) = self.restarted else {
            return Ok(());
        };
        put_life(self.peers.as_slice(), creation, out)?;
        self.peers.clear();
        self.restarted = None;
        Ok(())
    }

    /// Adds which peers came and went with these entries, the last of the node. Whoever it takes
    /// for up then is up.
    pub fn put_peers<E: LostLinks>(
        &mut self,
        alloc: Global,
        core: &NodeCore,
        entries: Later<'_>,
        lost: &E,
        out: &mut Vec<u8>,
    ) -> Result<(), OutOfMemory>
        ensures told { OnOk result (TellsNews self.old out.old.items self.new out.new.items) }
        ensures up { OnOk result (list_any (has_gone core.now.history) self.new.peers ≡ false) }
    {
        self.put_entries(alloc, core, entries, lost, out)?;
        self.put_ended(core, out)
    }

    /// Adds which peers are gone with an entry that isn't about them: too many frames waited for
    /// their links.
    fn put_ended(&mut self, core: &NodeCore, out: &mut Vec<u8>) -> Result<(), OutOfMemory>
        ensures told { OnOk result (TellsNews self.old out.old.items self.new out.new.items) }
        ensures up { OnOk result (list_any (has_gone core.now.history) self.new.peers ≡ false) }
    {
        while let Some(place) = self.place_of_ended(core) {
            self.put_gone(place, DownReason::Slow, out)?;
        }
        Ok(())
    }

    /// A peer whose link isn't up any more.
    fn place_of_ended(&self, core: &NodeCore) -> Option<usize>
        ensures { result ≡ position (has_gone core.now.history) self.now.peers }
    {
        self.peers.iter().position(|peer| !core.is_up(peer.link))
    }

    fn put_entries<E: LostLinks>(
        &mut self,
        alloc: Global,
        core: &NodeCore,
        entries: Later<'_>,
        lost: &E,
        out: &mut Vec<u8>,
    ) -> Result<(), OutOfMemory>
        ensures { OnOk result (TellsNews self.old out.old.items self.new out.new.items) }
    {
        for entry in entries {
            self.put_entry(alloc, core, entry, lost, out)?;
        }
        Ok(())
    }

    /// Adds which peer came or went with an entry that is about it.
    fn put_entry<E: LostLinks>(
        &mut self,
        alloc: Global,
        core: &NodeCore,
        entry: &Entry,
        lost: &E,
        out: &mut Vec<u8>,
    ) -> Result<(), OutOfMemory>
        ensures { OnOk result (TellsNews self.old out.old.items self.new out.new.items) }
    {
        let Verdict::Accepted(reply) = &entry.verdict else {
            return Ok(());
        };
        match &entry.event {
            Event::Frame(link, _) => self.put_coming(alloc, *link, reply, out),
            Event::Lost(link) => self.put_lost(*link, lost.reason(core, *link), out),
            Event::Disconnect(name) => self.put_named(name, DownReason::Disconnected, out),
            Event::Restart => self.put_all(DownReason::Restarted, out),
            _ => Ok(()),
        }
    }

    /// Adds that a peer has come up over this link, if the reply says so. A link of it that was up
    /// before is gone.
    fn put_coming(
        &mut self,
        alloc: Global,
        link: u32,
        reply: &Reply,
        out: &mut Vec<u8>,
    ) -> Result<(), OutOfMemory>
        ensures { OnOk result (TellsNews self.old out.old.items self.new out.new.items) }
    {
        let Reply::Up {
            peer,
            creation,
            visible,
        } = reply
        else {
            return Ok(());
        };
        let name = peer.try_clone(alloc)?;
        let peer = Peer {
            name,
            creation: *creation,
            link,
        };
        self.put_newer(peer, *visible, out)
    }

    /// Adds that a peer has come up, in the place of a link of it that was up.
    fn put_newer(&mut self, peer: Peer, visible: bool, out: &mut Vec<u8>) -> Result<(), OutOfMemory>
        ensures { OnOk result (TellsNews self.old out.old.items self.new out.new.items) }
    {
        self.put_named(&peer.name, DownReason::Replaced, out)?;
        put_up(&peer, visible, out)?;
        self.peers.push(peer)?;
        Ok(())
    }

    /// Adds that a link is gone, if a peer was up over it.
    fn put_lost(
        &mut self,
        link: u32,
        reason: DownReason,
        out: &mut Vec<u8>,
    ) -> Result<(), OutOfMemory>
        ensures { OnOk result (TellsNews self.old out.old.items self.new out.new.items) }
    {
        match self.peers.iter().position(|peer| peer.link == link) {
            Some(place) => self.put_gone(place, reason, out),
            None => Ok(()),
        }
    }

    /// Adds that the peer of this name is gone, if it was up.
    fn put_named(
        &mut self,
        name: &NodeName,
        reason: DownReason,
        out: &mut Vec<u8>,
    ) -> Result<(), OutOfMemory>
        ensures told { OnOk result (TellsNews self.old out.old.items self.new out.new.items) }
        ensures none { OnOk result (list_any (is_named name.now) self.new.peers ≡ false) }
    {
        while let Some(place) = self.place_of(name) {
            self.put_gone(place, reason, out)?;
        }
        Ok(())
    }

    fn place_of(&self, name: &NodeName) -> Option<usize>
        ensures { result ≡ position (is_named name.now) self.now.peers }
    {
        self.peers.iter().position(|peer| peer.name == *name)
    }

    /// Adds that the peer at a place is gone.
    fn put_gone(
        &mut self,
        place: usize,
        reason: DownReason,
        out: &mut Vec<u8>,
    ) -> Result<(), OutOfMemory>
        requires { place < length self.old.peers }
        ensures told { OnOk result (TellsNews self.old out.old.items self.new out.new.items) }
        ensures fewer { OnOk result (length self.new.peers < length self.old.peers) }
    {
        put_down(&self.peers[place], reason, out)?;
        self.peers.remove(place);
        Ok(())
    }

    /// Adds that all peers are gone.
    fn put_all(&mut self, reason: DownReason, out: &mut Vec<u8>) -> Result<(), OutOfMemory>
        ensures { OnOk result (TellsNews self.old out.old.items self.new out.new.items) }
    {
        put_all_down(self.peers.as_slice(), reason, out)?;
        self.peers.clear();
        Ok(())
    }
}
