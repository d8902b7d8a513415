//! The lanes of a node, shared by all threads that serve its links.
ghost use Rattle.std.specs.Prelude.{◌≡◌, IfOk};

use crate::lane::Lane;
use crate::met::{Counts, Met};
use dial_targets::{Limits, PeerKind, Stops, Target};
use link_notes::{Edges, Ending, Notes};
use node_threads::Node;
use std::alloc::Global;
use std::io::{self, ErrorKind};
use std::net::{Shutdown, TcpStream};
use std::sync::{Arc, Condvar, CondvarTimeouts, Mutex, MutexGuard, Wait};
use std::time::{Clock, Duration};

/// How many free lanes are kept for dials at most.
const MOST_KEPT: usize = 32;

/// A link that is to be served: its number among all, and the challenge of this node for the peer.
#[derive(Clone, Copy)]
pub(crate) struct Ticket {
    number: u64,
    pub(crate) challenge: u32,
}

/// A link that is served, and its connection.
#[derive(Drop)]
struct EnteredLink {
    ticket: Ticket,
    stream: Arc<TcpStream>,
}

/// What lies behind the lock.
#[derive(Drop)]
struct State {
    free: Vec<Lane>,
    served: Vec<EnteredLink>,
    next: u64,
    /// To how many peers that are dialled no link is up.
    dials: usize,
    /// Somebody waits for a lane, or none is left for a further peer; that is said once until one
    /// is free again.
    is_full: bool,
    /// No further link is served.
    is_draining: bool,
    is_stopping: bool,
}

impl State {
    /// How many free lanes no connection may take that a peer has opened: one for each dial.
    fn kept(&self) -> usize {
        self.dials.min(MOST_KEPT)
    }
}

/// The lanes of a node. Each thread that serves a link takes one for that time.
pub struct Lanes<'a> {
    state: Mutex<State>,
    /// Told of each lane that comes back, and of the stop.
    freed: Condvar,
    /// Told of the stop.
    stopped: Condvar,
    limits: Limits,
    notes: &'a Notes,
    counts: Counts,
}

impl Drop for Lanes<'_> {
    fn drop(self) {
        let Lanes {
            state: _,
            freed: _,
            stopped: _,
            limits: _,
            notes: _,
            counts: _,
        } = self;
    }
}

impl Stops for Lanes<'_> {
    fn is_stopping<R: Wait>(&self, rt: &R) -> bool {
        Lanes::is_stopping(self, rt)
    }
}

impl<'a> Lanes<'a> {
    /// What their links tell beside the node is noted in `notes`.
    pub fn new(alloc: Global, lanes: Vec<Lane>, limits: Limits, notes: &'a Notes) -> Lanes<'a> {
        let state = State {
            free: lanes,
            served: Vec::new(alloc),
            next: 0,
            dials: 0,
            is_full: false,
            is_draining: false,
            is_stopping: false,
        };
        Lanes {
            state: Mutex::new(state),
            freed: Condvar::new(),
            stopped: Condvar::new(),
            limits,
            notes,
            counts: Counts::new(),
        }
    }

    /// The lanes that have come back: all, once every thread that served links has ended.
    pub fn into_lanes(self) -> Vec<Lane> {
        let Lanes {
            state,
            freed: _,
            stopped: _,
            limits: _,
            notes: _,
            counts: _,
        } = self;
        let State { free, .. } = state.into_inner();
        free
    }

    pub(crate) fn limits(&self) -> Limits {
        self.limits
    }

    /// Notes why a link ends, before its worker says that it is lost.
    pub(crate) fn note<R: Wait>(&self, rt: &R, link: u32, ending: Ending) {
        self.notes.endings.note(rt, link, ending);
    }

    /// Notes where the other end of a link is.
    pub(crate) fn note_address<R: Wait>(&self, rt: &R, link: u32, stream: &TcpStream) {
        if let Ok(address) = stream.peer_addr() {
            self.notes.addresses.note(rt, link, address);
        }
    }

    pub(crate) fn enter_writer<R: Wait>(&self, rt: &R, link: u32) {
        self.notes.writers.enter(rt, link);
    }

    pub(crate) fn leave_writer<R: Wait>(&self, rt: &R, link: u32) {
        self.notes.writers.leave(rt, link);
    }

    /// Notes whether the writer of a link stands still.
    pub(crate) fn note_writer<R: Wait>(&self, rt: &R, link: u32, stands_still: bool) {
        self.notes.writers.note(rt, link, stands_still);
    }

    /// What was met up to now.
    pub fn met(&self) -> Met {
        self.counts.met(self.notes.edges.refused_atoms())
    }

    /// What its links with stock nodes share with those of other lives.
    pub(crate) fn edges(&self) -> &Edges {
        &self.notes.edges
    }

    /// Notes which nodes a link leads to.
    pub(crate) fn note_kind<R: Wait>(&self, rt: &R, link: u32, kind: PeerKind) {
        self.notes.edges.note(rt, link, kind);
    }

    pub(crate) fn counts(&self) -> &Counts {
        &self.counts
    }

    /// No link is served from now on but those that are by now.
    pub fn drain<R: Wait>(&self, rt: &R) {
        self.state.lock(rt).is_draining = true;
    }

    pub(crate) fn is_draining<R: Wait>(&self, rt: &R) -> bool {
        self.state.lock(rt).is_draining
    }

    pub(crate) fn wait_for_stop<R: Wait>(&self, rt: &R) {
        let state = self
            .stopped
            .wait_while(rt, self.state.lock(rt), |state| !state.is_stopping);
        drop(state);
    }

    /// Those who dial look whether their targets have ended, also where they wait for a lane.
    pub fn wake_dials<R: Wait>(&self, rt: &R) {
        drop(self.state.lock(rt));
        self.freed.notify_all();
        self.stopped.notify_all();
    }

    /// All links are hung up, and no other one is served from now on.
    pub fn stop<R: Wait>(&self, rt: &R) {
        let mut state = self.state.lock(rt);
        state.is_stopping = true;
        for served in state.served.as_slice() {
            // A socket that can't be shut down has ended already.
            served.stream.shutdown(Shutdown::Both).ok();
        }
        drop(state);
        self.freed.notify_all();
        self.stopped.notify_all();
    }

    pub fn is_stopping<R: Wait>(&self, rt: &R) -> bool {
        self.state.lock(rt).is_stopping
    }

    /// Waits so long, or until the stop: whether that has come.
    pub(crate) fn rest<R: Wait + Clock>(&self, rt: &R, time: Duration) -> bool {
        let state = self.state.lock(rt);
        let (state, _) = self
            .stopped
            .wait_timeout_while(rt, state, time, |state| !state.is_stopping);
        state.is_stopping
    }

    /// Waits so long, or until the stop, or the end of the target: whether one of these has come.
    pub(crate) fn pause<R: Wait + Clock>(&self, rt: &R, time: Duration, target: &Target) -> bool {
        let state = self.state.lock(rt);
        let (state, _) = self.stopped.wait_timeout_while(rt, state, time, |state| {
            !state.is_stopping && !target.has_ended()
        });
        state.is_stopping || target.has_ended()
    }

    /// A lane for a connection that a peer has opened, once there is one; none after the stop.
    pub(crate) fn take_for_peer<R: Wait>(&self, rt: &R) -> Option<Lane> {
        let state = self.state.lock(rt);
        let mut state = self.freed.wait_while(rt, state, |state| {
            !state.is_stopping && (state.is_draining || state.free.len() <= state.kept())
        });
        take_free(&mut state)
    }

    /// The lane for a dial, once there is one; none after the stop, and after the target's end.
    pub(crate) fn take_for_dial<R: Wait>(&self, rt: &R, target: &Target) -> Option<Lane> {
        let state = self.state.lock(rt);
        let mut state = self.freed.wait_while(rt, state, |state| {
            !state.is_stopping
                && !target.has_ended()
                && (state.is_draining || state.free.is_empty())
        });
        if target.has_ended() {
            return None;
        }
        let lane = take_free(&mut state)?;
        state.dials = state.dials.saturating_sub(1);
        Some(lane)
    }

    /// Counts it, once until a lane is free again, where none is left for a further peer.
    pub(crate) fn look_for_peer<R: Wait>(&self, rt: &R, node: &Node) {
        let state = self.state.lock(rt);
        let is_full = state.free.len() <= state.kept();
        self.count_full(rt, node, state, is_full);
    }

    /// The same where none is left for a dial.
    pub(crate) fn look_for_dial<R: Wait>(&self, rt: &R, node: &Node) {
        let state = self.state.lock(rt);
        let is_full = state.free.is_empty();
        self.count_full(rt, node, state, is_full);
    }

    /// Wakes who waits for the node behind the count, since no entry comes of it.
    fn count_full<R: Wait>(
        &self,
        rt: &R,
        node: &Node,
        mut state: MutexGuard<'_, State>,
        is_full: bool,
    ) {
        if !is_full || state.is_full || state.is_stopping {
            return;
        }
        state.is_full = true;
        drop(state);
        self.counts.filling();
        node.wake(rt);
    }

    /// Takes a lane back. There is room for it, since it was taken from here.
    pub(crate) fn give_back<R: Wait>(&self, rt: &R, lane: Lane) {
        let mut state = self.state.lock(rt);
        state.free.push(lane).ok();
        self.free_some(state);
    }

    /// Takes back the lane of a dial, for which one is kept again.
    pub(crate) fn give_back_from_dial<R: Wait>(&self, rt: &R, lane: Lane) {
        let mut state = self.state.lock(rt);
        state.free.push(lane).ok();
        state.dials = state.dials.saturating_add(1);
        self.free_some(state);
    }

    /// No lane is kept for a dial from now on, since a link to its peer is up that the peer has
    /// opened.
    pub(crate) fn keep_one_less<R: Wait>(&self, rt: &R) {
        let mut state = self.state.lock(rt);
        state.dials = state.dials.saturating_sub(1);
        self.free_some(state);
    }

    /// A lane is kept for that dial again, or for a further one: while no link to its peer is up,
    /// no connection takes it that a peer has opened. For all dials together at most 32 are kept.
    pub(crate) fn keep_one_more<R: Wait>(&self, rt: &R) {
        let mut state = self.state.lock(rt);
        state.dials = state.dials.saturating_add(1);
    }

    /// A lane has become free, for who waits for one.
    fn free_some(&self, mut state: MutexGuard<'_, State>) {
        if state.free.len() > state.kept() {
            state.is_full = false;
        }
        drop(state);
        self.freed.notify_all();
    }

    /// Enters a link that is to be served, so that the stop hangs it up. An error after the stop.
    pub(crate) fn enter<R: Wait>(
        &self,
        rt: &R,
        challenge: u32,
        stream: &Arc<TcpStream>,
    ) -> io::Result<Ticket>
        ensures { IfOk result (λ ticket. ticket.challenge ≡ challenge) }
    {
        let Ok(stream) = Arc::try_clone(stream) else {
            return Err(io::Error::from(ErrorKind::OutOfMemory));
        };
        let mut state = self.state.lock(rt);
        if state.is_stopping {
            return Err(io::Error::from(ErrorKind::Interrupted));
        }
        let number = state.next;
        state.next = number.saturating_add(1);
        let ticket = Ticket { number, challenge };
        match state.served.push(EnteredLink { ticket, stream }) {
            Ok(()) => Ok(ticket),
            Err(_) => Err(io::Error::from(ErrorKind::OutOfMemory)),
        }
    }

    /// The link is served no more.
    pub(crate) fn leave<R: Wait>(&self, rt: &R, ticket: Ticket) {
        let mut state = self.state.lock(rt);
        if let Some(place) = state
            .served
            .iter()
            .position(|served| served.ticket.number == ticket.number)
        {
            state.served.swap_remove(place);
        }
    }

    /// Whether this is the challenge of a link that is served.
    pub(crate) fn is_own_challenge<R: Wait>(&self, rt: &R, challenge: u32) -> bool {
        let state = self.state.lock(rt);
        state
            .served
            .iter()
            .any(|served| served.ticket.challenge == challenge)
    }
}

/// A free lane; none after the stop.
fn take_free(state: &mut State) -> Option<Lane> {
    if state.is_stopping {
        return None;
    }
    state.free.pop()
}
