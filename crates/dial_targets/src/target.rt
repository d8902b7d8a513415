//! A peer to dial, and how its dials go.
use crate::connector::{Connector, Goal, Stops};
use crate::dial_fault::DialFault;
use crate::epmd_place::EpmdPlace;
use crate::peer_kind::PeerKind;
use dist_types::{NodeName, OutOfMemory, TextFault};
use std::alloc::{AllocError, Global};
use std::net::{Net, SocketAddr, TcpListener, TcpStream};
use std::sync::atomic::{AtomicBool, Ordering};
use std::sync::{Mutex, Wait};
use std::time::{Clock, Duration, Instant};
use thiserror::Error;

/// Why a word names no peer to dial.
#[derive(Clone, Copy, Debug, PartialEq, Eq, Drop, Error)]
pub enum TargetFault {
    #[error("no NAME=HOST:PORT")]
    NoPlace,
    #[error("no NAME and no NAME=HOST:PORT")]
    NoStockNode,
    #[error("{0}")]
    Name(TextFault),
    #[error("out of memory")]
    OutOfMemory,
}

impl From<OutOfMemory> for TargetFault {
    fn from(_error: OutOfMemory) -> TargetFault {
        TargetFault::OutOfMemory
    }
}

impl From<AllocError> for TargetFault {
    fn from(_error: AllocError) -> TargetFault {
        TargetFault::OutOfMemory
    }
}

/// How stock nodes of Erlang/OTP are dialled: as which kind of link, and at which port EPMD is
/// asked for those that have no address.
#[derive(Clone, Copy, Debug)]
pub struct EpmdUse {
    pub kind: PeerKind,
    pub port: u16,
}

/// How the dials of a peer go.
#[derive(Clone, Copy, Debug)]
pub struct Tried {
    /// How often it was dialled.
    pub times: u32,
    /// Why the last dial has failed, if it has.
    pub fault: Option<DialFault>,
    /// When the next one is due, while that is waited for.
    pub next: Option<Instant>,
}

/// What lies behind the lock.
#[derive(Clone, Copy, Debug)]
struct State {
    tried: Tried,
    /// Nobody was told of the last fault.
    is_fault_news: bool,
}

/// A peer to dial.
pub struct Target {
    peer: NodeName,
    kind: PeerKind,
    /// HOST:PORT, or where EPMD is asked.
    place: String,
    epmd: Option<EpmdPlace>,
    connector: Connector,
    state: Mutex<State>,
    is_unsteady: AtomicBool,
    is_told: AtomicBool,
    has_ended: AtomicBool,
}

impl Drop for Target {
    fn drop(self) {
        let Target {
            peer: _,
            kind: _,
            place: _,
            epmd: _,
            connector: _,
            state: _,
            is_unsteady: _,
            is_told: _,
            has_ended: _,
        } = self;
    }
}

impl Target {
    /// A node of this program, at HOST:PORT.
    pub fn new(peer: NodeName, place: String) -> Target {
        Target::of(peer, PeerKind::Native, place, None)
    }

    fn of(peer: NodeName, kind: PeerKind, place: String, epmd: Option<EpmdPlace>) -> Target {
        Target {
            peer,
            kind,
            place,
            epmd,
            connector: Connector::new(),
            state: Mutex::new(State {
                tried: Tried {
                    times: 0,
                    fault: None,
                    next: None,
                },
                is_fault_news: false,
            }),
            is_unsteady: AtomicBool::new(false),
            is_told: AtomicBool::new(false),
            has_ended: AtomicBool::new(false),
        }
    }

    /// The target that a word NAME=HOST:PORT names.
    pub fn parse(alloc: Global, word: &str) -> Result<Target, TargetFault> {
        let Some((name, place)) = word.split_once('=') else {
            return Err(TargetFault::NoPlace);
        };
        let peer = named(alloc, name)?;
        if !can_be_dialled(place) {
            return Err(TargetFault::NoPlace);
        }
        let place = String::from_str(alloc, place)?;
        Ok(Target::new(peer, place))
    }

    /// The stock node that a word NAME or NAME=HOST:PORT names. The port of one without an address
    /// is asked of EPMD at its host, each time that it is dialled.
    pub fn parse_otp(alloc: Global, word: &str, epmd: EpmdUse) -> Result<Target, TargetFault> {
        let Some((name, place)) = word.split_once('=') else {
            return Target::asked(alloc, named(alloc, word)?, epmd);
        };
        let peer = named(alloc, name)?;
        if !can_be_dialled(place) {
            return Err(TargetFault::NoStockNode);
        }
        let place = String::from_str(alloc, place)?;
        Ok(Target::of(peer, epmd.kind, place, None))
    }

    /// The stock node of that name, whose port EPMD is asked for.
    fn asked(alloc: Global, peer: NodeName, epmd: EpmdUse) -> Result<Target, TargetFault> {
        let Some(place) = EpmdPlace::of(alloc, &peer, epmd.port)? else {
            return Err(TargetFault::NoStockNode);
        };
        let shown = place.shown()?;
        Ok(Target::of(peer, epmd.kind, shown, Some(place)))
    }

    pub fn peer(&self) -> &NodeName {
        &self.peer
    }

    /// Which nodes the link leads to.
    pub fn kind(&self) -> PeerKind {
        self.kind
    }

    /// HOST:PORT, or where EPMD is asked.
    pub fn place(&self) -> &str {
        self.place.as_str()
    }

    /// A connection to the place, which `connect_all` makes, within this time for each address of
    /// it, or why none answers; none after the stop, and after the target's end.
    pub fn connect<R: Wait + Clock, S: Stops>(
        &self,
        rt: &R,
        time: Duration,
        stop: &S,
    ) -> Option<Result<TcpStream, DialFault>> {
        self.connector.connect(rt, time, stop)
    }

    /// Connects to the place whenever that is wanted, until the target's end.
    pub fn connect_all<R>(&self, rt: &R)
    where
        R: Net<Listener = TcpListener, Stream = TcpStream> + Wait + Clock,
    {
        let goal = match &self.epmd {
            Some(place) => Goal::Epmd(place),
            None => Goal::Address(self.place.as_str()),
        };
        self.connector.connect_all(rt, goal);
    }

    /// It is dialled no more.
    pub(crate) fn end<R: Wait>(&self, rt: &R) {
        self.has_ended.store(true, Ordering::SeqCst);
        self.connector.end(rt);
    }

    /// Whether it is dialled no more.
    pub fn has_ended(&self) -> bool {
        self.has_ended.load(Ordering::SeqCst)
    }

    /// Links to the peer ended early, one after the other, though it lived on.
    pub fn note_unsteady(&self) {
        self.is_unsteady.store(true, Ordering::SeqCst);
    }

    /// Whether they did, and this wasn't asked since.
    pub fn has_news(&self) -> bool {
        self.is_unsteady.load(Ordering::SeqCst) && !self.is_told.swap(true, Ordering::SeqCst)
    }

    pub fn tried<R: Wait>(&self, rt: &R) -> Tried {
        self.state.lock(rt).tried
    }

    /// Why the last dial has failed, if it has, and this wasn't asked since.
    pub fn take_fault<R: Wait>(&self, rt: &R) -> Option<DialFault> {
        let mut state = self.state.lock(rt);
        if !state.is_fault_news {
            return None;
        }
        state.is_fault_news = false;
        state.tried.fault
    }

    /// A dial is begun.
    pub fn begin<R: Wait>(&self, rt: &R) {
        let mut state = self.state.lock(rt);
        state.tried.times = state.tried.times.saturating_add(1);
        state.tried.next = None;
    }

    /// A link to the peer is up.
    pub fn come_up<R: Wait>(&self, rt: &R) {
        let mut state = self.state.lock(rt);
        state.tried.fault = None;
        state.tried.next = None;
    }

    /// A dial has ended so. The next one is due then.
    pub fn rest<R: Wait>(&self, rt: &R, fault: Option<DialFault>, next: Option<Instant>) {
        let mut state = self.state.lock(rt);
        state.tried.fault = fault;
        state.tried.next = next;
        state.is_fault_news = fault.is_some();
    }
}

/// Whether the word is a host, by name or number, and a port.
pub fn is_place(word: &str) -> bool {
    port_of(word).is_some()
}

/// Whether the word is such a place, and no port of the system's choice.
fn can_be_dialled(word: &str) -> bool {
    matches!(port_of(word), Some(port) if port > 0)
}

/// The port of a place. An address that has colons stands in brackets, as its last part may be
/// taken for a port.
fn port_of(word: &str) -> Option<u16> {
    if let Ok(address) = SocketAddr::parse_ascii(word.as_bytes()) {
        return Some(address.port());
    }
    let (host, port) = word.rsplit_once(':')?;
    if host.is_empty() || host.contains(':') || !is_printable(host) {
        return None;
    }
    port.parse().ok()
}

/// Whether the text has no byte but those that can be seen.
fn is_printable(text: &str) -> bool {
    text.as_bytes().iter().all(|byte| byte.is_ascii_graphic())
}

/// The name of a node.
fn named(alloc: Global, name: &str) -> Result<NodeName, TargetFault> {
    match NodeName::parse(alloc, name.as_bytes()) {
        Ok(peer) => Ok(peer),
        Err(fault) => Err(TargetFault::Name(fault)),
    }
}
