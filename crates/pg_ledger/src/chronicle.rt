//! What has happened to links, until it is logged.
use crate::ledger::UpLink;
use crate::refusals::Refusal;
use dist_types::{NodeName, OutOfMemory, TryClone};
use pg_text::DownReason;
use std::alloc::Global;
use std::collections::VecDeque;
use std::net::SocketAddr;

/// How much is kept at most.
const KEPT: usize = 256;

/// What has happened to a link.
#[derive(Drop)]
pub enum Happening {
    /// A peer has come up: its name, its creation, the kind of its link, and where it is.
    Up(NodeName, u32, &'static str, Option<SocketAddr>),
    Down(UpLink, DownReason),
    Refused(Refusal),
}

/// What has happened to links, the oldest first, until it is logged. What finds no room is counted.
#[derive(Drop)]
pub struct Chronicle {
    happened: VecDeque<Happening>,
    lost: u64,
}

impl Chronicle {
    pub fn new(alloc: Global) -> Chronicle {
        Chronicle {
            happened: VecDeque::new(alloc),
            lost: 0,
        }
    }

    pub fn note_up(&mut self, alloc: Global, link: &UpLink) {
        match link.peer.try_clone(alloc) {
            Ok(peer) => self.note(Happening::Up(
                peer,
                link.creation,
                link.kind.word(link.is_visible),
                link.address,
            )),
            Err(OutOfMemory) => self.lost = self.lost.saturating_add(1),
        }
    }

    pub fn note_down(&mut self, link: UpLink, reason: DownReason) {
        self.note(Happening::Down(link, reason));
    }

    pub fn note_refused(&mut self, alloc: Global, refusal: &Refusal) {
        match refusal.try_clone(alloc) {
            Ok(refusal) => self.note(Happening::Refused(refusal)),
            Err(OutOfMemory) => self.lost = self.lost.saturating_add(1),
        }
    }

    fn note(&mut self, happening: Happening) {
        if self.happened.len() >= KEPT || self.happened.push_back(happening).is_err() {
            self.lost = self.lost.saturating_add(1);
        }
    }

    /// What is to be logged next.
    pub fn take(&mut self) -> Option<Happening> {
        self.happened.pop_front()
    }

    /// How much found no room since this was asked last.
    pub fn take_lost(&mut self) -> u64 {
        let lost = self.lost;
        self.lost = 0;
        lost
    }
}
