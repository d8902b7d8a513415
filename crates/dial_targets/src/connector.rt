//! Connects to a peer. Nothing can end a look-up of a name or a connect, so a thread of its own
//! makes them, and may outlive the links.
use crate::dial_fault::DialFault;
use crate::epmd_place::{EpmdPlace, connect};
use std::net::{Net, TcpListener, TcpStream};
use std::sync::{Condvar, CondvarTimeouts, Mutex, Wait};
use std::time::{Clock, Duration};

/// The milliseconds between two looks whether the stop has come.
const LOOK: u64 = 50;

/// Who waits for a connection, until a stop.
pub trait Stops {
    /// Whether the stop has come.
    fn is_stopping<R: Wait>(&self, rt: &R) -> bool;
}

/// What lies behind the lock.
#[derive(Drop)]
struct State {
    /// How long a connect may take, while one is wanted.
    wanted: Option<Duration>,
    /// The connection that was made, or why there is none.
    made: Option<Result<TcpStream, DialFault>>,
    has_ended: bool,
}

/// Where a connector connects to.
#[derive(Clone, Copy)]
pub(crate) enum Goal<'a> {
    /// HOST:PORT.
    Address(&'a str),
    /// The port of a node that EPMD is asked for.
    Epmd(&'a EpmdPlace),
}

impl Goal<'_> {
    fn connect<R>(&self, rt: &R, time: Duration) -> Result<TcpStream, DialFault>
    where
        R: Net<Listener = TcpListener, Stream = TcpStream> + Clock,
    {
        match self {
            Goal::Address(place) => connect(rt, place, time),
            Goal::Epmd(place) => place.connect(rt, time),
        }
    }
}

/// Connects to one place, which is looked up each time.
#[derive(Drop)]
pub(crate) struct Connector {
    state: Mutex<State>,
    moved: Condvar,
}

impl Connector {
    pub(crate) fn new() -> Connector {
        Connector {
            state: Mutex::new(State {
                wanted: None,
                made: None,
                has_ended: false,
            }),
            moved: Condvar::new(),
        }
    }

    /// Connects to the place whenever that is wanted, until the end.
    pub(crate) fn connect_all<R>(&self, rt: &R, goal: Goal<'_>)
    where
        R: Net<Listener = TcpListener, Stream = TcpStream> + Wait + Clock,
    {
        for _ in rt.forever() {
            let Some(time) = self.wait_for_wish(rt) else {
                return;
            };
            let made = goal.connect(rt, time);
            let mut state = self.state.lock(rt);
            // One that nobody wants any more is closed.
            if state.wanted.take().is_some() {
                state.made = Some(made);
            }
            drop(state);
            self.moved.notify_all();
        }
    }

    /// How long a connect may take, once one is wanted; none after the end.
    fn wait_for_wish<R: Wait>(&self, rt: &R) -> Option<Duration> {
        let state = self.moved.wait_while(rt, self.state.lock(rt), |state| {
            state.wanted.is_none() && !state.has_ended
        });
        if state.has_ended {
            return None;
        }
        state.wanted
    }

    /// Nothing is connected any more.
    pub(crate) fn end<R: Wait>(&self, rt: &R) {
        self.state.lock(rt).has_ended = true;
        self.moved.notify_all();
    }

    /// A connection, within this time for each address, or why no address answers; none after the
    /// stop, and after the end.
    pub(crate) fn connect<R: Wait + Clock, S: Stops>(
        &self,
        rt: &R,
        time: Duration,
        stop: &S,
    ) -> Option<Result<TcpStream, DialFault>> {
        self.wish(rt, time);
        let look = Duration::from_millis(LOOK);
        for _ in rt.forever() {
            if stop.is_stopping(rt) {
                self.take_back(rt);
                return None;
            }
            let state = self.state.lock(rt);
            let (mut state, _) = self
                .moved
                .wait_timeout_while(rt, state, look, |state| state.made.is_none());
            if state.has_ended {
                return None;
            }
            if let Some(made) = state.made.take() {
                return Some(made);
            }
        }
        unreachable!()
    }

    /// Asks for none any more. One that was made is closed.
    fn take_back<R: Wait>(&self, rt: &R) {
        let mut state = self.state.lock(rt);
        state.wanted = None;
        state.made = None;
    }

    /// Asks for a connection. One that was made for an earlier wish is closed.
    fn wish<R: Wait>(&self, rt: &R, time: Duration) {
        let mut state = self.state.lock(rt);
        state.made = None;
        state.wanted = Some(time);
        drop(state);
        self.moved.notify_all();
    }
}
