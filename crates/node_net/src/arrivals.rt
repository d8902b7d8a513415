//! Where peers connect. One thread takes connections there, over all lives of the node, and hands
//! each to one that serves links.
use crate::lanes::Lanes;
use dial_targets::PeerKind;
use std::io;
use std::net::{Shutdown, SocketAddr, TcpListener, TcpStream};
use std::os::fd::OwnedFd;
use std::sync::{Condvar, CondvarTimeouts, Mutex, Wait};
use std::thread::{Scope, Threads};
use std::time::{Clock, Duration};

/// The milliseconds of rest after a connection that couldn't be taken.
const REST: u64 = 100;

/// Who is told that no connection can be taken.
pub trait TakingFaults {
    /// No connection could be taken, for the first time since one was.
    fn note(&self, error: &io::Error);
}

/// What lies behind the lock.
#[derive(Drop)]
struct Hall {
    /// The connection that was taken and that nobody serves yet.
    arrived: Option<TcpStream>,
    /// How many threads wait for a connection.
    waiting: usize,
    is_shut: bool,
}

/// The connections that peers open.
#[derive(Drop)]
pub struct Arrivals {
    kind: PeerKind,
    listener: TcpListener,
    /// The same socket, held from the start: so the end needs no further descriptor.
    handle: TcpStream,
    hall: Mutex<Hall>,
    /// Told of a connection, and of the stop of a life.
    arrived: Condvar,
    /// Told of each thread that waits, of a connection that has gone to one, and of the end.
    wanted: Condvar,
}

impl Arrivals {
    /// Those of nodes of this kind.
    pub fn new(listener: TcpListener, kind: PeerKind) -> io::Result<Arrivals> {
        let handle = TcpStream::from(OwnedFd::from(listener.try_clone()?));
        let hall = Hall {
            arrived: None,
            waiting: 0,
            is_shut: false,
        };
        Ok(Arrivals {
            kind,
            listener,
            handle,
            hall: Mutex::new(hall),
            arrived: Condvar::new(),
            wanted: Condvar::new(),
        })
    }

    /// Which nodes connect here.
    pub(crate) fn kind(&self) -> PeerKind {
        self.kind
    }

    /// Where they connect.
    pub fn address(&self) -> io::Result<SocketAddr> {
        self.listener.local_addr()
    }

    /// Takes one connection after another, each once a thread waits for one, until the end. The
    /// others wait in the system.
    pub fn take_all<R: Wait + Clock, F: TakingFaults>(&self, rt: &R, faults: &F) {
        let mut has_failed = false;
        for _ in rt.forever() {
            if self.has_ended(rt) {
                return;
            }
            match self.listener.accept() {
                Ok((stream, _)) => {
                    has_failed = false;
                    self.hand_over(rt, stream);
                }
                Err(error) => {
                    if !has_failed && !self.is_shut(rt) {
                        faults.note(&error);
                    }
                    has_failed = true;
                    self.rest(rt);
                }
            }
        }
        unreachable!()
    }

    fn is_shut<R: Wait>(&self, rt: &R) -> bool {
        self.hall.lock(rt).is_shut
    }

    /// Waits until a thread waits for a connection, or the end has come: whether it has.
    fn has_ended<R: Wait>(&self, rt: &R) -> bool {
        let hall = self.wanted.wait_while(rt, self.hall.lock(rt), |hall| {
            !hall.is_shut && (hall.arrived.is_some() || hall.waiting == 0)
        });
        hall.is_shut
    }

    fn hand_over<R: Wait>(&self, rt: &R, stream: TcpStream) {
        self.hall.lock(rt).arrived = Some(stream);
        self.arrived.notify_one();
    }

    /// Rests where no connection can be taken, as without a free descriptor, until the end at most.
    fn rest<R: Wait + Clock>(&self, rt: &R) {
        let time = Duration::from_millis(REST);
        let hall = self.hall.lock(rt);
        let (hall, _) = self
            .wanted
            .wait_timeout_while(rt, hall, time, |hall| !hall.is_shut);
        drop(hall);
    }

    /// The next connection, once there is one; none after the stop of these lanes.
    pub(crate) fn next<R: Wait>(&self, rt: &R, lanes: &Lanes<'_>) -> Option<TcpStream> {
        let mut hall = self.hall.lock(rt);
        hall.waiting = hall.waiting.saturating_add(1);
        self.wanted.notify_all();
        let mut hall = self.arrived.wait_while(rt, hall, |hall| {
            hall.arrived.is_none() && !lanes.is_stopping(rt)
        });
        hall.waiting = hall.waiting.saturating_sub(1);
        if lanes.is_stopping(rt) {
            return None;
        }
        let arrived = hall.arrived.take();
        self.wanted.notify_all();
        arrived
    }

    /// Wakes the threads that wait for a connection, so that they look whether their lanes are
    /// stopping. A connection that was taken meanwhile is served by the next life.
    pub fn wake<R: Wait>(&self, rt: &R) {
        drop(self.hall.lock(rt));
        self.arrived.notify_all();
    }

    /// No further connection is taken: `take_all` ends.
    pub fn shut<R: Wait>(&self, rt: &R) {
        self.hall.lock(rt).is_shut = true;
        // A listener that can't be shut has failed already.
        self.handle.shutdown(Shutdown::Both).ok();
        self.wanted.notify_all();
    }
}

/// Starts the thread that takes connections: whether it could be made.
pub fn start_taking<'s, E: 's, R: Threads + Wait + Clock + Sync + 's, F: TakingFaults + Sync>(
    scope: &'s Scope<'s, E>,
    rt: &'s R,
    arrivals: &'s Arrivals,
    faults: &'s F,
) -> bool {
    scope.spawn(move || arrivals.take_all(rt, faults)).is_ok()
}
