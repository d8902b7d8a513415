//! What the audit of a life has said so far that is reported.
ghost use Rattle.std.specs.Prelude.{◌≡◌, ◌==◌, cond, List, [], OnOk, OnErr};
ghost use Rattle.std.specs.List.{list_any};
ghost use Rattle.dist_types.specs.Listing.{same};
ghost use Rattle.policy_audit.specs.declared.entry.Entry.{Entry};
ghost use Rattle.policy_audit.specs.History.{History, creation};
ghost use Rattle.pg_ledger.specs.Telling.{NotesEntry, nothing, told_of};
ghost use Rattle.pg_ledger.specs.Following.{IsBehind, IsBetween, NotesBut};

use crate::account::Account;
use crate::census::Census;
use crate::chronicle::Chronicle;
use crate::refusals::Refusals;
use dial_targets::PeerKind;
use dist_types::{NodeName, OutOfMemory, Scope, TryClone};
use node_core::NodeCore;
use pg_text::DownReason;
use policy_audit::{Entry, Event, Later, Reply, Rule, Verdict};
use std::alloc::Global;
use std::net::SocketAddr;
use std::sync::Wait;
use std::time::{Clock, Instant};

/// A link that is up.
pub struct UpLink {
    /// The number of the entry that opened it.
    pub number: u32,
    pub peer: NodeName,
    pub creation: u32,
    pub is_visible: bool,
    /// Which nodes it leads to.
    pub kind: PeerKind,
    pub address: Option<SocketAddr>,
    /// When it was seen up first.
    pub since: Option<Instant>,
}

impl Drop for UpLink {
    fn drop(self) {
        let UpLink {
            number: _,
            peer: _,
            creation: _,
            is_visible: _,
            kind: _,
            address: _,
            since: _,
        } = self;
    }
}

/// Who knows of links what the audit doesn't say.
pub trait KnownLinks {
    /// Where the other end of a link is, if that is known.
    fn address<R: Wait>(&self, rt: &R, link: u32) -> Option<SocketAddr>;

    /// Which nodes a link leads to.
    fn kind<R: Wait>(&self, rt: &R, link: u32) -> PeerKind;

    /// Why a link was lost.
    fn reason<R: Wait>(&self, rt: &R, link: u32) -> DownReason;
}

/// Who looks at the audit.
#[derive(Drop)]
pub struct Look<'a, R: Wait + Clock, L: KnownLinks + Copy> {
    pub rt: &'a R,
    pub alloc: Global,
    pub links: L,
}

impl<R: Wait + Clock, L: KnownLinks + Copy> Look<'_, R, L> {
    fn now(&self) -> Option<Instant> {
        Instant::now(self.rt).ok()
    }
}

/// What the audit of a life has said so far.
pub struct Ledger {
    /// In the order in which they came up.
    pub links: Vec<UpLink>,
    pub refusals: Refusals,
    /// What has happened to links, for the log.
    pub chronicle: Chronicle,
    /// How many rows scopes have, what was refused by which rule, and how links have ended.
    pub census: Census,
    /// What it says of the node alone, and how much of it was looked at.
    account: Account,
    /// Of which life that is.
    creation: u32,
}

impl Drop for Ledger {
    fn drop(self) {
        let Ledger {
            links: _,
            refusals: _,
            chronicle: _,
            census: _,
            account: _,
            creation: _,
        } = self;
    }
}

impl Ledger {
    /// That of no life.
    pub fn new(alloc: Global) -> Ledger
        ensures account { result.account ≡ nothing }
        ensures life { result.creation ≡ 0 }
    {
        Ledger {
            links: Vec::new(alloc),
            refusals: Refusals::new(alloc),
            chronicle: Chronicle::new(alloc),
            census: Census::new(alloc),
            account: Account::new(alloc),
            creation: 0,
        }
    }

    /// The scopes that run, ascending.
    pub fn scopes(&self) -> &[Scope]
        ensures { result.now ≡ self.now.account.scopes }
    {
        self.account.scopes()
    }

    /// The names that may connect, ascending; all may, where there are none.
    pub fn allowed(&self) -> &[NodeName]
        ensures { result.now ≡ self.now.account.allowed }
    {
        self.account.allowed()
    }

    /// How many events were refused.
    pub fn refused(&self) -> usize
        ensures { result ≡ self.now.account.refused }
    {
        self.account.refused()
    }

    /// Whether a link of this peer is up.
    pub fn is_up(&self, peer: &NodeName) -> bool
        ensures { result ≡ list_any (λ link. same link.peer peer.now) self.now.links.items }
    {
        self.links.iter().any(|link| link.peer == *peer)
    }

    /// How many links that are up lead to stock nodes.
    pub fn otp_links(&self) -> u64 {
        self.links.iter().filter(|link| link.kind.is_otp()).count() as u64
    }

    /// Follows the node up to now, in a new life from its beginning. Where memory is wanting it
    /// goes on there the next time.
    pub fn follow<R: Wait + Clock, L: KnownLinks + Copy>(
        &mut self,
        look: &Look<'_, R, L>,
        core: &NodeCore,
    ) -> Result<(), OutOfMemory>
        ensures told { OnOk result ((h : History)
            → IsBehind self.old.account self.old.creation h core.now
            → self.new.account ≡ told_of core.now.history) }
        ensures part { OnErr result ((h : History)
            → IsBehind self.old.account self.old.creation h core.now
            → IsBetween self.new.account core.now) }
        ensures life { self.new.creation ≡ creation core.now.history }
    {
        self.begin(look.alloc, core.creation());
        let seen = self.account.entries();
        self.look_at_all(look, core.audit().after(seen))?;
        self.end_slow(core, seen);
        Ok(())
    }

    /// Begins anew where this is another life.
    fn begin(&mut self, alloc: Global, life: u32)
        ensures account { self.new.account
            ≡ cond (self.old.creation == life) self.old.account nothing }
        ensures life { self.new.creation ≡ life }
    {
        if self.creation != life {
            *self = Ledger::new(alloc);
            self.creation = life;
        }
    }

    fn look_at_all<R: Wait + Clock, L: KnownLinks + Copy>(
        &mut self,
        look: &Look<'_, R, L>,
        entries: Later<'_>,
    ) -> Result<(), OutOfMemory>
        ensures told { OnOk result
            (NotesBut [] entries.entry self.old.account self.new.account) }
        ensures part { OnErr result ((left : List Entry)
            × NotesBut left entries.entry self.old.account self.new.account) }
        ensures life { self.new.creation ≡ self.old.creation }
    {
        for entry in entries {
            self.look_at(look, entry)?;
        }
        Ok(())
    }

    /// Looks at the next entry. Without memory for it, it isn't looked at yet: what was noted of it
    /// is noted again, to the same effect.
    fn look_at<R: Wait + Clock, L: KnownLinks + Copy>(
        &mut self,
        look: &Look<'_, R, L>,
        entry: &Entry,
    ) -> Result<(), OutOfMemory>
        ensures ok { OnOk result (NotesEntry entry.now self.old.account self.new.account) }
        ensures same { OnErr result (self.new.account ≡ self.old.account) }
        ensures life { self.new.creation ≡ self.old.creation }
    {
        self.census.make_room(look.alloc, entry)?;
        // It wants memory for no entry for which the account does.
        self.note_links(look, entry)?;
        self.account.note(look.alloc, entry)?;
        self.census.count(entry);
        Ok(())
    }

    /// Notes links that are gone with an entry that isn't about them, if there are entries behind
    /// so many: too many frames waited.
    fn end_slow(&mut self, core: &NodeCore, seen: usize)
        ensures account { self.new.account ≡ self.old.account }
        ensures life { self.new.creation ≡ self.old.creation }
    {
        if self.account.entries() <= seen {
            return;
        }
        for place in (0..self.links.len()).rev() {
            let is_up = match self.links.get(place) {
                Some(link) => core.is_up(link.number),
                None => true,
            };
            if !is_up {
                self.end(place, DownReason::Slow);
            }
        }
    }

    /// No link is up any more.
    fn end_all(&mut self, reason: DownReason)
        ensures account { self.new.account ≡ self.old.account }
        ensures life { self.new.creation ≡ self.old.creation }
    {
        for place in (0..self.links.len()).rev() {
            self.end(place, reason);
        }
    }

    /// The link at this place isn't up any more.
    fn end(&mut self, place: usize, reason: DownReason)
        ensures account { self.new.account ≡ self.old.account }
        ensures life { self.new.creation ≡ self.old.creation }
    {
        if place < self.links.len() {
            let link = self.links.remove(place);
            self.census.note_down(reason);
            self.chronicle.note_down(link, reason);
        }
    }

    /// The link of this peer isn't up any more, if one was: there is one at most.
    fn end_of(&mut self, peer: &NodeName, reason: DownReason)
        ensures account { self.new.account ≡ self.old.account }
        ensures life { self.new.creation ≡ self.old.creation }
    {
        if let Some(place) = self.links.iter().position(|link| link.peer == *peer) {
            self.end(place, reason);
        }
    }

    fn note_links<R: Wait + Clock, L: KnownLinks + Copy>(
        &mut self,
        look: &Look<'_, R, L>,
        entry: &Entry,
    ) -> Result<(), OutOfMemory>
        ensures account { self.new.account ≡ self.old.account }
        ensures life { self.new.creation ≡ self.old.creation }
    {
        match &entry.verdict {
            Verdict::Accepted(reply) => {
                self.refusals.note(look.alloc, &entry.event, reply)?;
                self.note_accepted(look, &entry.event, reply)
            }
            Verdict::Refused(rule) => self.note_refused(look, entry, *rule),
        }
    }

    fn note_refused<R: Wait + Clock, L: KnownLinks + Copy>(
        &mut self,
        look: &Look<'_, R, L>,
        entry: &Entry,
        rule: Rule,
    ) -> Result<(), OutOfMemory>
        ensures account { self.new.account ≡ self.old.account }
        ensures life { self.new.creation ≡ self.old.creation }
    {
        let address = match &entry.event {
            Event::Frame(link, _) => look.links.address(look.rt, *link),
            _ => None,
        };
        let links = self.links.as_slice();
        self.refusals
            .refuse(look.alloc, entry, rule, address, links)?;
        if let Some(last) = self.refusals.last.back()
            && last.entry == entry.number
        {
            self.chronicle.note_refused(look.alloc, last);
        }
        Ok(())
    }

    fn note_accepted<R: Wait + Clock, L: KnownLinks + Copy>(
        &mut self,
        look: &Look<'_, R, L>,
        event: &Event,
        reply: &Reply,
    ) -> Result<(), OutOfMemory>
        ensures account { self.new.account ≡ self.old.account }
        ensures life { self.new.creation ≡ self.old.creation }
    {
        match event {
            Event::Restart => self.end_all(DownReason::Restarted),
            Event::Frame(link, _) => self.note_up(look, *link, reply)?,
            Event::Lost(link) => self.note_lost(look, *link),
            Event::Disconnect(peer) => self.end_of(peer, DownReason::Disconnected),
            _ => {}
        }
        Ok(())
    }

    fn note_lost<R: Wait + Clock, L: KnownLinks + Copy>(&mut self, look: &Look<'_, R, L>, link: u32)
        ensures account { self.new.account ≡ self.old.account }
        ensures life { self.new.creation ≡ self.old.creation }
    {
        if let Some(place) = self.links.iter().position(|known| known.number == link) {
            let reason = look.links.reason(look.rt, link);
            self.end(place, reason);
        }
    }

    /// Notes a link that has come up, if the reply says so.
    fn note_up<R: Wait + Clock, L: KnownLinks + Copy>(
        &mut self,
        look: &Look<'_, R, L>,
        number: u32,
        reply: &Reply,
    ) -> Result<(), OutOfMemory>
        ensures account { self.new.account ≡ self.old.account }
        ensures life { self.new.creation ≡ self.old.creation }
    {
        let Reply::Up {
            peer,
            creation,
            visible,
        } = reply
        else {
            return Ok(());
        };
        let link = UpLink {
            number,
            peer: peer.try_clone(look.alloc)?,
            creation: *creation,
            is_visible: *visible,
            kind: look.links.kind(look.rt, number),
            address: look.links.address(look.rt, number),
            since: look.now(),
        };
        self.links.reserve(1)?;
        self.end_of(&link.peer, DownReason::Replaced);
        self.chronicle.note_up(look.alloc, &link);
        self.links.push(link)?;
        Ok(())
    }
}
