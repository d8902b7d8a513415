//! What all links with stock nodes of Erlang/OTP share, over all lives of the node.
use crate::last_noted::LastNoted;
use dial_targets::PeerKind;
use dist_types::OutOfMemory;
use otp_edge::{Dropped, Life};
use std::alloc::Global;
use std::sync::atomic::{AtomicBool, AtomicU64, Ordering};
use std::sync::{Mutex, MutexGuard, Wait};

/// How many reasons there are to drop something.
pub const REASONS: usize = Dropped::ALL.len();

/// What all links with stock nodes share: the groups that these were told as atoms, and how often
/// something was dropped. Its locks are innermost ones.
#[derive(Drop)]
pub struct Edges {
    life: Mutex<Life>,
    kinds: Mutex<LastNoted<PeerKind>>,
    dropped: Mutex<[u64; REASONS]>,
    /// How often rows of a group weren't told, since there were too many atoms.
    refused_atoms: AtomicU64,
    in_parts: AtomicBool,
}

impl Edges {
    pub(crate) fn new(alloc: Global) -> Result<Edges, OutOfMemory> {
        Ok(Edges {
            life: Mutex::new(Life::new(alloc)),
            kinds: Mutex::new(LastNoted::new(alloc)?),
            dropped: Mutex::new([0; REASONS]),
            refused_atoms: AtomicU64::new(0),
            in_parts: AtomicBool::new(false),
        })
    }

    /// Whether the node takes messages in parts, which is said before its first link.
    pub fn set_parts(&self, in_parts: bool) {
        self.in_parts.store(in_parts, Ordering::SeqCst);
    }

    /// Whether the node takes messages in parts.
    pub fn in_parts(&self) -> bool {
        self.in_parts.load(Ordering::SeqCst)
    }

    /// Which nodes a link leads to: one of this program, where nothing else was noted.
    pub fn kind_of<R: Wait>(&self, rt: &R, link: u32) -> PeerKind {
        self.kinds.lock(rt).of(link).unwrap_or(PeerKind::Native)
    }

    /// Notes which nodes a link leads to.
    pub fn note<R: Wait>(&self, rt: &R, link: u32, kind: PeerKind) {
        self.kinds.lock(rt).note(link, kind);
    }

    /// Forgets the kinds of links, since a new life counts them anew.
    pub(crate) fn clear<R: Wait>(&self, rt: &R) {
        self.kinds.lock(rt).clear();
    }

    /// The groups that stock nodes were told as atoms.
    pub fn life<R: Wait>(&self, rt: &R) -> MutexGuard<'_, Life> {
        self.life.lock(rt)
    }

    /// Counts what was dropped on a link for a reason.
    pub fn count<R: Wait>(&self, rt: &R, reason: Dropped, more: u64) {
        let mut dropped = self.dropped.lock(rt);
        let place = reason as usize;
        dropped[place] = dropped[place].saturating_add(more);
    }

    /// How often something was dropped for this reason, on all links.
    pub fn dropped<R: Wait>(&self, rt: &R, reason: Dropped) -> u64 {
        self.dropped.lock(rt)[reason as usize]
    }

    /// Notes how often rows of a group weren't told: whether that is news.
    pub fn note_refused_atoms(&self, times: u64) -> bool {
        self.refused_atoms.swap(times, Ordering::SeqCst) == 0 && times > 0
    }

    /// How often rows of a group weren't told, since the node has told 65,536 others as atoms.
    pub fn refused_atoms(&self) -> u64 {
        self.refused_atoms.load(Ordering::SeqCst)
    }
}
