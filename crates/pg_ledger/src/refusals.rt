//! The last events of links that a rule of the node has refused though nothing ordinary led there,
//! with who was at the other end as far as it said so.
use crate::ledger::UpLink;
use dist_types::{Body, NodeName, OutOfMemory, TryClone};
use handshake_frames::decode_name;
use policy_audit::{Entry, Event, Reply, Rule, Verdict};
use std::alloc::Global;
use std::collections::VecDeque;
use std::net::SocketAddr;

/// How many are kept.
const KEPT: usize = 16;

/// Of how many links that aren't up it is known whose they are: as many as a node keeps.
const LINKS: usize = 64;

/// An event that was refused.
pub struct Refusal {
    pub entry: u32,
    /// The kind of the event, as the audit tells it.
    pub kind: &'static str,
    pub rule: Rule,
    pub peer: Option<NodeName>,
    /// Where the other end is.
    pub address: Option<SocketAddr>,
}

impl Drop for Refusal {
    fn drop(self) {
        let Refusal {
            entry: _,
            kind: _,
            rule: _,
            peer: _,
            address: _,
        } = self;
    }
}

impl TryClone for Refusal {
    fn try_clone(&self, alloc: Global) -> Result<Refusal, OutOfMemory> {
        let peer = match &self.peer {
            Some(peer) => Some(peer.try_clone(alloc)?),
            None => None,
        };
        Ok(Refusal {
            entry: self.entry,
            kind: self.kind,
            rule: self.rule,
            peer,
            address: self.address,
        })
    }
}

/// A link that isn't up, and whose it is.
#[derive(Drop)]
struct Begun {
    link: u32,
    peer: Option<NodeName>,
}

#[derive(Drop)]
pub struct Refusals {
    /// The oldest first.
    pub last: VecDeque<Refusal>,
    begun: VecDeque<Begun>,
}

impl Refusals {
    pub fn new(alloc: Global) -> Refusals {
        Refusals {
            last: VecDeque::new(alloc),
            begun: VecDeque::new(alloc),
        }
    }

    /// Notes what an accepted event says of a link that isn't up.
    pub fn note(&mut self, alloc: Global, event: &Event, reply: &Reply) -> Result<(), OutOfMemory> {
        match (event, reply) {
            (Event::Dial(peer, _), Reply::Link(link)) => {
                let peer = peer.try_clone(alloc)?;
                self.begin(*link, Some(peer))
            }
            (Event::Opened(_), Reply::Link(link)) => self.begin(*link, None),
            (Event::Frame(link, _), Reply::Up { .. }) | (Event::Lost(link), _) => {
                self.begun.retain(|begun| begun.link != *link);
                Ok(())
            }
            (Event::Frame(link, body), _) => {
                self.learn(alloc, *link, body);
                Ok(())
            }
            _ => Ok(()),
        }
    }

    fn begin(&mut self, link: u32, peer: Option<NodeName>) -> Result<(), OutOfMemory> {
        if self.begun.len() >= LINKS {
            self.begun.pop_front();
        }
        self.begun.push_back(Begun { link, peer })?;
        Ok(())
    }

    /// Learns from the first frame of a link that a peer has opened whose it is.
    fn learn(&mut self, alloc: Global, link: u32, body: &Body) {
        for begun in self.begun.iter_mut() {
            if begun.link == link && begun.peer.is_none() {
                begun.peer = name_in(alloc, body);
            }
        }
    }

    /// Notes a refused event of a link whose other end is there, while these are up.
    pub fn refuse(
        &mut self,
        alloc: Global,
        entry: &Entry,
        rule: Rule,
        address: Option<SocketAddr>,
        up: &[UpLink],
    ) -> Result<(), OutOfMemory> {
        // First room, so that nothing of the link is let go before its refusal can be kept.
        self.last.reserve(1)?;
        let (kind, peer) = match &entry.event {
            Event::Dial(peer, _) => ("Dial", Some(peer.try_clone(alloc)?)),
            Event::Opened(_) => ("Opened", None),
            Event::Frame(link, body) => ("Frame", self.take(alloc, *link, body, up)?),
            _ => return Ok(()),
        };
        if is_ordinary(rule) {
            return Ok(());
        }
        if self.last.len() >= KEPT {
            self.last.pop_front();
        }
        self.last.push_back(Refusal {
            entry: entry.number,
            kind,
            rule,
            peer,
            address,
        })?;
        Ok(())
    }

    /// Whose a link is that ends by this frame. Only a handshake's frame says a name.
    fn take(
        &mut self,
        alloc: Global,
        link: u32,
        body: &Body,
        up: &[UpLink],
    ) -> Result<Option<NodeName>, OutOfMemory> {
        if let Some(known) = up.iter().find(|known| known.number == link) {
            return Ok(Some(known.peer.try_clone(alloc)?));
        }
        let place = self.begun.iter().position(|begun| begun.link == link);
        let begun = place.and_then(|place| self.begun.remove(place));
        match begun {
            Some(
                Begun {
                    peer: Some(peer),
                    ..
                },
            ) => Ok(Some(peer)),
            _ => Ok(name_in(alloc, body)),
        }
    }
}

/// Whether the rule is met where nothing is wrong: both ends dial each other, a link has just
/// ended, or a scope runs at one end alone.
fn is_ordinary(rule: Rule) -> bool {
    matches!(
        rule,
        Rule::NoSuchLink
            | Rule::Simultaneous
            | Rule::NoScope
            | Rule::NotHeard
            | Rule::LinkUp
            | Rule::LinkPending
    )
}

/// The name in a frame that opens a handshake, if it is one.
fn name_in(alloc: Global, body: &Body) -> Option<NodeName> {
    let frame = decode_name(body.as_slice()).ok()?;
    NodeName::parse(alloc, frame.name).ok()
}
