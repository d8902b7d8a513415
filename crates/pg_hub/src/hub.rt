//! What all threads of the program share: the node, and the seats of its connections.
use crate::brake::Brake;
use crate::crowd::Crowd;
use crate::keeping::Keeping;
use crate::memory::Memory;
use crate::notices::Notices;
use crate::readers::Readers;
use crate::signals::Signals;
use dial_targets::Targets;
use link_notes::Notes;
use node_core::NodeCore;
use node_threads::{Node, Pass, Shared};
use pg_asked::Clients;
use pg_ledger::{Ledger, Twins};
use pg_log::Log;
use pg_session::{Roster, Session};
use std::alloc::Global;
use std::sync::{Arc, Mutex, RwLock, Wait};
use std::time::Instant;

/// So many of the last numbers a life doesn't use at most.
const SPARED: u32 = 65_536;

/// The passes that no lane has.
#[derive(Drop)]
pub struct House {
    /// It says what each life of the node is told first. In a lock, since threads share the house.
    pub keeper: Mutex<Pass>,
    /// Each has a lock of its own, so that none waits for the answer to another's line.
    pub sessions: Vec<Mutex<Session>>,
}

/// What a hub is made with beside its node and its house.
#[derive(Drop)]
pub struct HubSettings {
    /// How many seats of connections there are: that of standard input, and those of clients.
    pub seats: u32,
    /// The last number that an entry may have.
    pub last_entry: u32,
    pub keeping: Keeping,
    pub readers: Readers,
    /// What links tell beside the node.
    pub notes: Notes,
    /// That of the program.
    pub version: &'static str,
    /// Where decisions are logged.
    pub log: Arc<Log>,
    /// The peers to dial.
    pub targets: Arc<Targets>,
    pub memory: Memory,
    /// When the program has begun, by its clock.
    pub begun: Option<Instant>,
}

/// What all threads share. Whoever takes several locks takes the house first, for its own seat or
/// for all, then a seat, then the roster, then the twins, then the ledger, then the node.
#[derive(Drop)]
pub struct Hub {
    pub alloc: Global,
    pub node: Node,
    pub house: RwLock<House>,
    pub(crate) clients: Clients,
    pub(crate) crowd: Crowd,
    /// How many seats of connections there are: that of standard input, and those of clients.
    pub seats: u32,
    /// Who is up, for connections that are still to come.
    pub(crate) roster: Mutex<Roster>,
    pub(crate) twins: Mutex<Twins>,
    pub(crate) ledger: Mutex<Ledger>,
    /// Where decisions are logged.
    pub log: Arc<Log>,
    /// The peers to dial.
    pub targets: Arc<Targets>,
    /// What the links of this life tell beside the node.
    pub notes: Notes,
    pub(crate) brake: Brake,
    /// The last number that an entry may have.
    pub last_entry: u32,
    pub keeping: Keeping,
    pub readers: Readers,
    /// Who has no monitors waits there, with the node's lock, and the others at the node's news.
    pub(crate) notices: Notices,
    pub(crate) version: &'static str,
    /// When the program has begun.
    pub(crate) begun: Option<Instant>,
    pub(crate) memory: Memory,
    pub signals: Signals,
}

impl Hub {
    /// What the threads of a node share, whose passes have these seats.
    pub fn new(alloc: Global, node: Node, house: House, settings: HubSettings) -> Hub {
        let HubSettings {
            seats,
            last_entry,
            keeping,
            readers,
            notes,
            version,
            log,
            targets,
            memory,
            begun,
        } = settings;
        Hub {
            alloc,
            node,
            house: RwLock::new(house),
            clients: Clients::new(alloc),
            crowd: Crowd::new(),
            seats,
            roster: Mutex::new(Roster::new(alloc)),
            twins: Mutex::new(Twins::new(alloc)),
            ledger: Mutex::new(Ledger::new(alloc)),
            log,
            targets,
            notes,
            brake: Brake::new(),
            last_entry,
            keeping,
            readers,
            notices: Notices::new(),
            version,
            begun,
            memory,
            signals: Signals::new(),
        }
    }

    /// Whether the next life is to begin: room in the audit or memory is at its end.
    pub fn is_ending(&self, shared: &Shared) -> bool {
        is_nearly_full(self.last_entry, shared.core()) || self.signals.wants_memory(shared)
    }

    /// Whether this life is to end, with the program or for the next one.
    pub fn is_over(&self, shared: &Shared) -> bool {
        self.signals.is_quitting() || self.is_ending(shared)
    }

    /// Memory was wanting beside the node: the next life is to begin.
    pub fn want_memory<R: Wait>(&self, rt: &R) {
        self.signals.want_memory();
        self.wake(rt);
    }

    /// The next life has begun.
    pub fn begin_anew(&self) {
        self.keeping.begin_anew();
        self.readers.begin_anew();
        self.signals.begin_anew();
    }

    pub fn into_parts(self) -> (Node, House) {
        let Hub { node, house, .. } = self;
        (node, house.into_inner())
    }

    /// The program is to end, and with it all connections of clients.
    pub fn quit<R: Wait>(&self, rt: &R) {
        self.signals.quit();
        self.clients.end_all(rt);
        self.wake(rt);
    }

    /// Wakes who waits for the node, so that it looks at what has changed beside the node, too.
    pub fn wake<R: Wait>(&self, rt: &R) {
        self.node.wake(rt);
        self.notices.told.notify_all();
    }
}

/// Whether an audit has come to the last of its numbers, which is this one, but for those that a
/// life needs to end.
pub fn is_nearly_full(last_entry: u32, core: &NodeCore) -> bool {
    let spared = (last_entry / 16).min(SPARED);
    core.audit().len() >= last_entry.saturating_sub(spared) as usize
}
