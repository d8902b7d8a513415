//! What an operator is warned of that links tell, but for dials.
use node_net::Met;
use pg_log::Log;
use std::sync::Wait;
use std::time::{Clock, Duration, Instant};

/// The seconds between two lines of one kind: strangers bring them about as often as they like.
const BETWEEN: u64 = 60;

const NO_THREAD: &str = "no thread can be made for a link";

/// What is said where all lanes are taken.
const FULL: &str = "all 64 links are up, begun or kept for peers to dial; further ones wait";

const REFLECTED: &str =
    "a peer asked for a digest of a challenge of this node's own; the link is lost";

/// What is said of nodes at a place that isn't theirs.
const STOCK: &str =
    "a stock node of Erlang/OTP has connected at --listen; --otp-listen is for those";

const NATIVE: &str =
    "a node that is no stock node of Erlang/OTP was met by --otp-listen or --otp-dial";

const ATOMS: &str = "stock nodes were told 65536 groups as atoms; rows of others are left out, \
    unless they begin with #b:";

/// A kind of warning.
#[derive(Clone, Copy)]
struct Warning {
    what: &'static str,
    reason: &'static str,
    /// How often it was met when it was said last, and when that was.
    told: u64,
    at: Option<Instant>,
    /// It was met since, and is said once its time has passed.
    is_waiting: bool,
}

impl Warning {
    fn new(what: &'static str, reason: &'static str) -> Warning {
        Warning {
            what,
            reason,
            told: 0,
            at: None,
            is_waiting: false,
        }
    }

    /// Says it, unless nothing of it was met since, or it was said a moment ago.
    fn say<R: Wait + Clock>(&mut self, rt: &R, log: &Log, times: u64) {
        if times == self.told {
            return;
        }
        self.is_waiting = self.is_recent(rt);
        if self.is_waiting {
            return;
        }
        self.told = times;
        self.at = Instant::now(rt).ok();
        log.warn(rt, self.what, self.reason);
    }

    fn is_recent<R: Clock>(&self, rt: &R) -> bool {
        let Some(at) = self.at else {
            return false;
        };
        match at.elapsed(rt) {
            Ok(passed) => passed < Duration::from_secs(BETWEEN),
            Err(_) => false,
        }
    }
}

/// All kinds of them, each of which is said once a minute at most.
#[derive(Clone, Copy)]
pub(crate) struct Warnings {
    no_thread: Warning,
    full: Warning,
    reflected: Warning,
    stock_node: Warning,
    no_stock_node: Warning,
    too_many_atoms: Warning,
}

impl Warnings {
    /// Those of a life, before which stock nodes were told groups as atoms so often in vain.
    pub(crate) fn new(refused_atoms: u64) -> Warnings {
        let mut too_many_atoms = Warning::new("too_many_atoms", ATOMS);
        too_many_atoms.told = refused_atoms;
        Warnings {
            no_thread: Warning::new("no_thread", NO_THREAD),
            full: Warning::new("full", FULL),
            reflected: Warning::new("reflected", REFLECTED),
            stock_node: Warning::new("stock_node", STOCK),
            no_stock_node: Warning::new("no_stock_node", NATIVE),
            too_many_atoms,
        }
    }

    /// Says what was met, and how often no thread could be made, as far as it is due.
    pub(crate) fn say<R: Wait + Clock>(&mut self, rt: &R, log: &Log, met: Met, no_thread: u64) {
        self.no_thread.say(rt, log, no_thread);
        self.full.say(rt, log, met.fillings);
        self.reflected.say(rt, log, met.reflections);
        self.stock_node.say(rt, log, met.stock_nodes);
        self.no_stock_node.say(rt, log, met.native_nodes);
        self.too_many_atoms.say(rt, log, met.refused_atoms);
    }

    /// Whether one waits until it may be said.
    pub(crate) fn are_waiting(&self) -> bool {
        self.no_thread.is_waiting
            || self.full.is_waiting
            || self.reflected.is_waiting
            || self.stock_node.is_waiting
            || self.no_stock_node.is_waiting
            || self.too_many_atoms.is_waiting
    }
}
