//! The writers of links, for who would rather wait than let too many frames gather for a peer that
//! reads.
ghost use Rattle.std.specs.Prelude.{◌≡◌};
ghost use Rattle.link_notes.specs.Behind.{most_behind, frames_behind};

use dial_targets::Limits;
use node_core::{MAX_LINKS, NodeCore};
use std::sync::atomic::{AtomicBool, Ordering};
use std::sync::{Mutex, Wait};
use std::time::Duration;

/// The most writers: as many as a node keeps links.
const PLACES: usize = MAX_LINKS;

/// The writer of a link.
#[derive(Clone, Copy, Debug)]
struct Writer {
    link: u32,
    /// Nothing could be written for so long that nobody waits for it.
    stands_still: bool,
}

/// What lies behind the lock.
#[derive(Clone, Copy, Debug)]
struct State {
    writers: [Option<Writer>; PLACES],
    limits: Limits,
}

/// The writers of the links of a life, and which of them stand still. Its lock is an innermost one,
/// and it needs no memory.
#[derive(Drop)]
pub struct Writers {
    state: Mutex<State>,
    /// A writer has begun, or gets on again, since the last look.
    are_more: AtomicBool,
}

impl Writers {
    pub fn new() -> Writers {
        Writers {
            state: Mutex::new(State {
                writers: [None; PLACES],
                limits: Limits::default(),
            }),
            are_more: AtomicBool::new(true),
        }
    }

    /// Forgets all, since a new life counts its links anew. Those have these limits.
    pub fn begin_life<R: Wait>(&self, rt: &R, limits: Limits) {
        *self.state.lock(rt) = State {
            writers: [None; PLACES],
            limits,
        };
    }

    /// For how long a writer is waited for at most: after that a link on which nothing goes out is
    /// lost.
    pub fn patience<R: Wait>(&self, rt: &R) -> Duration {
        self.state.lock(rt).limits.tick
    }

    /// Whether a writer gets on that didn't at the last look.
    pub fn are_more(&self) -> bool {
        self.are_more.load(Ordering::SeqCst)
    }

    /// Looks at all writers: the most frames that wait for a link whose writer gets on.
    pub fn most_behind<R: Wait>(&self, rt: &R, core: &NodeCore) -> usize {
        let state = self.state.lock(rt);
        self.are_more.store(false, Ordering::SeqCst);
        most_behind(&state.writers, core)
    }

    /// The writer of a link begins. Where there is no place, nobody waits for it.
    pub fn enter<R: Wait>(&self, rt: &R, link: u32) {
        let mut state = self.state.lock(rt);
        if let Some(place) = state.writers.iter().position(|writer| writer.is_none()) {
            state.writers[place] = Some(Writer {
                link,
                stands_still: false,
            });
            self.are_more.store(true, Ordering::SeqCst);
        }
    }

    /// The writer of a link has ended.
    pub fn leave<R: Wait>(&self, rt: &R, link: u32) {
        let mut state = self.state.lock(rt);
        for writer in state.writers.iter_mut() {
            if is_of(writer, link) {
                *writer = None;
            }
        }
    }

    /// Notes whether the writer of a link stands still.
    pub fn note<R: Wait>(&self, rt: &R, link: u32, stands_still: bool) {
        let mut state = self.state.lock(rt);
        for writer in state.writers.iter_mut() {
            if is_of(writer, link) {
                *writer = Some(Writer { link, stands_still });
            }
        }
        self.are_more.fetch_or(!stands_still, Ordering::SeqCst);
    }
}

/// The most frames that wait for a link whose writer gets on.
fn most_behind(writers: &[Option<Writer>], core: &NodeCore) -> usize
    ensures { result ≡ most_behind core.now.history writers.now }
{
    writers
        .iter()
        .map(|writer| frames_behind(writer, core))
        .max()
        .unwrap_or(0)
}

/// How many frames wait for the link of a writer that gets on.
fn frames_behind(writer: &Option<Writer>, core: &NodeCore) -> usize
    ensures { result ≡ frames_behind core.now.history writer.now }
{
    match writer {
        Some(writer) if !writer.stands_still => core.waiting(writer.link).unwrap_or(0),
        _ => 0,
    }
}

fn is_of(writer: &Option<Writer>, link: u32) -> bool {
    matches!(writer, Some(writer) if writer.link == link)
}
