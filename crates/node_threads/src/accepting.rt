//! Connections that come in at a door, each served by a pair of passes.
ghost use Rattle.std.specs.Prelude.{◌≡◌, ◌≢◌, ◌≤◌, [], vec_len, vec_capacity};
ghost use Rattle.std.specs.List.{AllZip};
ghost use Rattle.node_threads.specs.declared.accepting.AcceptEnd.TheVariants as ends;
ghost use Rattle.node_threads.specs.Accepting.{Works, IsAtWork, Finishes, Turns, HaveServed};
ghost use Rattle.rand_core.specs.Stream.{Stream};
ghost use Rattle.node_threads.specs.Drawing.{AreNext};
ghost use Rattle.node_threads.specs.Challenges.{opened_with, HaveDrawn, Spends};

use crate::ends::{Gate, LinkOut};
use crate::node::Node;
use crate::opening::open_next;
use crate::serving::{Connection, Pair, serve_link};
use cookie_digest::ChallengeSource;
use rand_core::Rng;
use std::alloc::Global;
use std::io::Read;
use std::snapshot::Snapshot;
use std::sync::Wait;
use std::thread::{Promise, PromisedHandle, Scope, Threads};
use std::{io, thread};

/// Where connections come from.
pub trait Door {
    type Input: Read + Send + Drop;

    type Output: LinkOut + Send + Drop;

    /// Waits for the next connection: its two sides, or `None` where no more come.
    fn next(&mut self) -> io::Result<Option<(Self::Input, Self::Output)>>;
}

/// Why no more connections are taken.
#[derive(Clone, Copy, Debug, PartialEq, Eq)]
pub enum AcceptEnd {
    /// The door has no more.
    NoMore,
    /// Each pair of passes serves a link.
    PassesUsed,
    /// The door failed.
    DoorFault,
    /// The audit is full.
    EntriesFull,
    /// Another node made the pass.
    StrangePass,
    /// Memory was wanting.
    Memory,
}

/// What `accept_links` gives back.
#[derive(Debug, Drop)]
pub struct Accepted {
    /// All pairs, in the order in which they were given.
    pub pairs: Vec<Pair>,
    /// How many links were opened and served: by the first pairs, one by each.
    pub served: usize,
    pub end: AcceptEnd,
}

/// Takes connections from a door, opens a link for each with the next challenge of the source, and
/// serves it with the next pair, on threads of its own; where no thread can be made, on this one. A
/// connection is hung up where the node has no room for its link, and the next one is taken.
/// Returns when no more are taken and all links have ended.
pub fn accept_links<R, D, S, G>(
    rt: &R,
    alloc: Global,
    node: &Node,
    pairs: Vec<Pair>,
    door: &mut D,
    source: &mut ChallengeSource<S>,
    gate: &G,
) -> Accepted
where
    R: Threads + Wait + Sync,
    D: Door,
    S: Rng,
    G: Gate + Sync,
    ensures served { HaveServed result.served pairs.items result.pairs.items }
    ensures used { result.end ≡ ends.PassesUsed → result.served ≡ vec_len pairs }
    ensures drawn { AreNext (S.stream source.old) (opened_with pairs.items result.pairs.items) }
{
    let Ok(held) = Vec::with_capacity(alloc, pairs.len()) else {
        return unserved(pairs);
    };
    let Ok(back) = Vec::with_capacity(alloc, pairs.len()) else {
        return unserved(pairs);
    };
    thread::scope(
        thread::scope_env(),
        rt,
        |scope| -> Accepted
            requires { (held.items ≡ []) × (back.items ≡ []) × (vec_len pairs ≤ vec_capacity held)
                × (vec_len pairs ≤ vec_capacity back) }
            ensures served { HaveServed result.served pairs.items result.pairs.items }
            ensures used { result.end ≡ ends.PassesUsed → result.served ≡ vec_len pairs }
            ensures drawn { AreNext (S.stream source.entry.now)
                (opened_with pairs.items result.pairs.items) }
        {
            let host = Host {
                scope,
                rt,
                alloc,
                node,
                gate,
            };
            serve_all(&host, pairs, door, source, held, back)
        },
    )
}

fn unserved(pairs: Vec<Pair>) -> Accepted
    ensures served { HaveServed result.served pairs.items result.pairs.items }
    ensures used { result.end ≢ ends.PassesUsed }
    ensures drawn { (stream : Stream)
        → AreNext stream (opened_with pairs.items result.pairs.items) }
{
    Accepted {
        pairs,
        served: 0,
        end: AcceptEnd::Memory,
    }
}

/// Where links are served: at a node, each on a thread of its own.
#[derive(Drop)]
struct Host<'s, E, R, G> {
    scope: &'s Scope<'s, E>,
    rt: &'s R,
    alloc: Global,
    node: &'s Node,
    gate: &'s G,
}

/// Serves connections until there is an end, and waits for all links. Nothing grows here.
fn serve_all<'s, E: 's, R, D, S, G>(
    host: &Host<'s, E, R, G>,
    pairs: Vec<Pair>,
    door: &mut D,
    source: &mut ChallengeSource<S>,
    mut held: Vec<Held>,
    back: Vec<Pair>,
) -> Accepted
where
    R: Threads + Wait + Sync + 's,
    D: Door,
    D::Input: 's,
    D::Output: 's,
    S: Rng,
    G: Gate + Sync + 's,
    requires { (held.items ≡ []) × (back.items ≡ []) × (vec_len pairs ≤ vec_capacity held)
        × (vec_len pairs ≤ vec_capacity back) }
    ensures served { HaveServed result.served pairs.items result.pairs.items }
    ensures used { result.end ≡ ends.PassesUsed → result.served ≡ vec_len pairs }
    ensures drawn { AreNext (S.stream source.old) (opened_with pairs.items result.pairs.items) }
    ensures left { HaveDrawn result.end (S.stream source.old)
        (opened_with pairs.items result.pairs.items) (S.stream source.new) }
{
    let mut stop = None;
    for pair in pairs {
        let place = held.len();
        held.push_reserved(serve_next(host, pair, door, source, place, &mut stop));
    }
    let Stop { served, end } = stop.unwrap_or(Stop {
        served: held.len(),
        end: AcceptEnd::PassesUsed,
    });
    Accepted {
        pairs: finish_all(host.rt, held, back),
        served,
        end,
    }
}

/// Where the pairs ended that serve a link, and why.
#[derive(Clone, Copy)]
struct Stop {
    served: usize,
    end: AcceptEnd,
}

/// A pair whose link is served by a thread of its own, or one that has ended.
#[derive(Drop)]
enum Held {
    Running(PromisedHandle<Pair, OfLink>),
    Ended(Pair),
}

/// That a pair comes back with what its workers add to it for this link.
#[derive(Drop)]
struct OfLink {
    link: u32,
    pair: Snapshot<Pair>,
}

impl Promise<Pair> for OfLink {
    ghost use Rattle.node_threads.specs.Accepting.{Works};

    ghost kept_by = { λ promise pair. Works promise.link promise.pair.value pair };
}

/// What the pair at this place does: it serves the next connection. Where there is an end, it
/// rests.
fn serve_next<'s, E: 's, R, D, S, G>(
    host: &Host<'s, E, R, G>,
    mut pair: Pair,
    door: &mut D,
    source: &mut ChallengeSource<S>,
    place: usize,
    stop: &mut Option<Stop>,
) -> Held
where
    R: Threads + Wait + Sync + 's,
    D: Door,
    D::Input: 's,
    D::Output: 's,
    S: Rng,
    G: Gate + Sync + 's,
    ensures turn { Turns pair place stop.old result stop.new }
    ensures drawn { Spends pair stop.old (S.stream source.old) result stop.new
        (S.stream source.new) }
{
    if stop.is_some() {
        return Held::Ended(pair);
    }
    match open_next(host.rt, host.node, &mut pair.reader, door, source) {
        Ok(opened) => start(host, pair, opened),
        Err(end) => {
            *stop = Some(Stop { served: place, end });
            Held::Ended(pair)
        }
    }
}

/// Serves a link on a thread of its own, or, where none can be made, here.
fn start<'s, E: 's, R, I, W, G>(
    host: &Host<'s, E, R, G>,
    pair: Pair,
    opened: Connection<I, W>,
) -> Held
where
    R: Threads + Wait + Sync + 's,
    I: Read + Send + Drop + 's,
    W: LinkOut + Send + Drop + 's,
    G: Gate + Sync + 's,
    ensures { IsAtWork opened.link pair result }
{
    let promise = OfLink {
        link: opened.link,
        pair: Snapshot::of(&pair),
    };
    let Host {
        scope,
        rt,
        alloc,
        node,
        gate,
    } = *host;
    match scope.spawn_with(promise, move || {
        serve_pair(rt, alloc, node, pair, opened, gate)
    }) {
        Ok(handle) => Held::Running(handle),
        Err(refused) => Held::Ended((refused.value)()),
    }
}

/// Serves a link until both its workers have ended.
fn serve_pair<R, I, W, G>(
    rt: &R,
    alloc: Global,
    node: &Node,
    pair: Pair,
    opened: Connection<I, W>,
    gate: &G,
) -> Pair
where
    R: Threads + Wait + Sync,
    I: Read + Drop,
    W: LinkOut + Send + Drop,
    G: Gate,
    ensures { Works opened.link pair result }
{
    serve_link(rt, alloc, node, pair, opened, gate).pair
}

/// Waits for all pairs.
fn finish_all(rt: &impl Threads, held: Vec<Held>, mut back: Vec<Pair>) -> Vec<Pair>
    requires { (back.items ≡ []) × (vec_len held ≤ vec_capacity back) }
    ensures { AllZip Finishes held.items result.items }
{
    for one in held {
        back.push_reserved(finish(rt, one));
    }
    back
}

fn finish(rt: &impl Threads, held: Held) -> Pair
    ensures { Finishes held result }
{
    match held {
        Held::Running(handle) => handle.join(rt),
        Held::Ended(pair) => pair,
    }
}
