//! What the peers of a door are asked. The words are the first of the key stream of RFC 8439, A.1,
//! test vector 1.
use super::accepting::NAME;
use super::{give, opening, paired};
use cookie_digest::ChallengeSource;
use node_threads::*;
use rand_chacha::ChaCha20Rng;
use rand_core::SeedableRng;
use std::alloc::Global;
use std::io::{Read, Write};
use std::sync::Wait;
use std::sync::atomic::{AtomicU64, Ordering};
use std::thread::Threads;
use std::{io, thread};

/// Where a challenge begins in what is written: behind the status `ok`, two lengths, a tag and the
/// flags.
const BEGIN: u64 = 16;

const END: u64 = 20;

/// What a peer was asked.
#[derive(Drop)]
struct Asked {
    /// How many bytes were written.
    written: AtomicU64,
    challenge: AtomicU64,
}

impl Asked {
    fn new() -> Asked {
        Asked {
            written: AtomicU64::new(0),
            challenge: AtomicU64::new(0),
        }
    }

    fn hear(&self, byte: u8) {
        let place = self.written.load(Ordering::SeqCst);
        if BEGIN <= place && place < END {
            let before = self.challenge.load(Ordering::SeqCst);
            let challenge = before.wrapping_mul(256).wrapping_add(u64::from(byte));
            self.challenge.store(challenge, Ordering::SeqCst);
        }
        self.written
            .store(place.saturating_add(1), Ordering::SeqCst);
    }

    fn was(&self, challenge: u64) -> bool {
        self.challenge.load(Ordering::SeqCst) == challenge
    }

    /// Waits for the whole challenge, for a while.
    fn wait(&self) {
        for _ in 0..1_000_000u32 {
            if self.written.load(Ordering::SeqCst) >= END {
                return;
            }
            thread::yield_now();
        }
    }
}

/// A peer that sends its name, and goes once it was asked.
#[derive(Drop)]
struct Peer<'a> {
    sent: usize,
    asked: &'a Asked,
}

impl Read for Peer<'_> {
    fn read(&mut self, buf: &mut [u8]) -> io::Result<usize> {
        let count = give(NAME.get(self.sent..).unwrap_or(&[]), buf);
        if count == 0 {
            self.asked.wait();
        }
        self.sent = self.sent.saturating_add(count);
        Ok(count)
    }
}

/// Hears what the peer is sent.
#[derive(Drop)]
struct Line<'a> {
    asked: &'a Asked,
}

impl Write for Line<'_> {
    fn write(&mut self, buf: &[u8]) -> io::Result<usize> {
        for byte in buf {
            self.asked.hear(*byte);
        }
        Ok(buf.len())
    }

    fn flush(&mut self) -> io::Result<()> {
        Ok(())
    }
}

impl LinkOut for Line<'_> {
    fn hang_up(&mut self) {}
}

/// A connection for each, one after another.
#[derive(Drop)]
struct Callers<'a> {
    left: &'a [Asked],
}

impl<'a> Door for Callers<'a> {
    type Input = Peer<'a>;

    type Output = Line<'a>;

    fn next(&mut self) -> io::Result<Option<(Peer<'a>, Line<'a>)>> {
        let Some((asked, left)) = self.left.split_first() else {
            return Ok(None);
        };
        self.left = left;
        Ok(Some((Peer { sent: 0, asked }, Line { asked })))
    }
}

/// The node b@h and two pairs of its passes.
fn two_pairs(alloc: Global) -> Option<(Node, Vec<Pair>)> {
    let (node, mut passes) = Node::new(alloc, opening(alloc, b"b@h", 4, 1000)?, 4).ok()?;
    match paired(alloc, &mut passes, 2) {
        Some(pairs) => Some((node, pairs)),
        None => None,
    }
}

/// Serves a peer for each: how many links there were.
fn serve_two<R: Threads + Wait + Sync>(rt: &R, alloc: Global, asked: &[Asked]) -> Option<usize> {
    let mut door = Callers { left: asked };
    let mut source = ChallengeSource::new(ChaCha20Rng::from_seed([0; 32]));
    let (node, pairs) = two_pairs(alloc)?;
    let accepted = accept_links(rt, alloc, &node, pairs, &mut door, &mut source, &OpenGate);
    Some(accepted.served)
}

#[test]
fn asks_each_peer_the_next_word(rt: HostRuntime) {
    let asked = [Asked::new(), Asked::new()];
    assert!(rt; serve_two(&rt, rt.alloc(), &asked) == Some(2));
    assert!(rt; asked[0].was(0xade0_b876) && asked[1].was(0x903d_f1a0));
}
