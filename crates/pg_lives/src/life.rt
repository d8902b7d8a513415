//! One life of the node: its links are served until its audit is nearly full, or memory is wanting.
use crate::threads::LinkThreads;
use crate::warnings::Warnings;
use dial_targets::{Limits, Target};
use node_core::MAX_LINKS;
use node_net::{Arrivals, Host, Lane, Lanes, Met};
use pg_hub::Hub;
use pg_log::{Level, Log, text};
use pg_session::Seen;
use std::sync::{CondvarTimeouts, Wait};
use std::thread;
use std::thread::Scope;
use std::time::{Clock, Duration};

/// How many threads serve connections: one for each link that the node keeps at most.
pub const LANES: usize = MAX_LINKS;

/// The milliseconds between two looks while calls come: a burst costs no more looks.
const REST: u64 = 20;

/// The milliseconds before a thread that couldn't be made is tried again, and before it is looked
/// whether a warning that waits may be said; and the seconds where there is neither.
const AGAIN: u64 = 1_000;

const LONG: u64 = 3_600;

const UNSTEADY: &str = "the peer ends the links to it soon: has another node the name of this one?";

/// Where and how the links of a node are made, over all its lives.
#[derive(Clone, Copy, Drop)]
pub struct Site<'a> {
    pub hub: &'a Hub,
    pub limits: Limits,
    pub arrivals: Option<&'a Arrivals>,
    /// Where stock nodes of Erlang/OTP connect.
    pub otp_arrivals: Option<&'a Arrivals>,
}

/// Serves links until the next life is to begin, or the program is to end. The lanes come back.
pub fn live<R: Host>(rt: &R, site: Site<'_>, lanes: Vec<Lane>) -> Vec<Lane> {
    let Site {
        hub,
        limits,
        arrivals,
        otp_arrivals,
    } = site;
    hub.notes.begin_life(rt, limits);
    let lanes = Lanes::new(hub.alloc, lanes, limits, &hub.notes);
    thread::scope(thread::scope_env(), rt, |scope| {
        wait_for_end(scope, rt, site, &lanes);
        hub.signals.end_links();
        lanes.stop(rt);
        wake_takers(rt, arrivals);
        wake_takers(rt, otp_arrivals);
    });
    lanes.into_lanes()
}

/// Wakes the threads that take connections of peers, so that they end.
fn wake_takers<R: Wait>(rt: &R, arrivals: Option<&Arrivals>) {
    if let Some(arrivals) = arrivals {
        arrivals.wake(rt);
    }
}

/// What there is to notice beside the node.
#[derive(Clone, Copy, PartialEq, Eq)]
struct Noticed {
    met: Met,
    /// How often the peers to dial have changed.
    changes: u64,
    is_draining: bool,
}

impl Noticed {
    fn now(hub: &Hub, lanes: &Lanes<'_>) -> Noticed {
        Noticed {
            met: lanes.met(),
            changes: hub.targets.changes(),
            is_draining: hub.signals.is_draining(),
        }
    }
}

/// What a life was last looked at for.
#[derive(Drop)]
struct Watch {
    entries: Option<Seen>,
    noticed: Noticed,
}

impl Watch {
    fn new() -> Watch {
        Watch {
            entries: None,
            noticed: Noticed {
                met: Met::NOTHING,
                changes: 0,
                is_draining: false,
            },
        }
    }

    /// Waits until there is anything new, but no longer than so, and looks at it: whether the life
    /// is over.
    fn wait<R: Wait + Clock>(
        &mut self,
        rt: &R,
        hub: &Hub,
        lanes: &Lanes<'_>,
        time: Duration,
    ) -> bool {
        let (entries, noticed) = (self.entries, self.noticed);
        let shared = hub.node.shared.lock(rt);
        let (shared, _) = hub
            .node
            .moved
            .wait_timeout_while(rt, shared, time, |shared| {
                !hub.is_over(shared)
                    && entries == Some(Seen::of(shared.core()))
                    && noticed == Noticed::now(hub, lanes)
            });
        self.entries = Some(Seen::of(shared.core()));
        let is_over = hub.is_over(&shared);
        drop(shared);
        self.noticed = Noticed::now(hub, lanes);
        is_over
    }
}

/// Makes the threads of its links, and waits for the end of this life. Meanwhile it dials the peers
/// that are added, and says what an operator should know of the links.
fn wait_for_end<'s, E: 's, R: Host + 's>(
    scope: &'s Scope<'s, E>,
    rt: &'s R,
    site: Site<'s>,
    lanes: &'s Lanes<'s>,
) {
    let hub = site.hub;
    let mut watch = Watch::new();
    let mut threads = LinkThreads::none();
    let mut warnings = Warnings::new(lanes.met().refused_atoms);
    threads.make(scope, rt, site, lanes);
    for _ in rt.forever() {
        let told = watch.noticed;
        let time = time_to_wait(&threads, &warnings);
        let is_over = watch.wait(rt, hub, lanes, time);
        let now = watch.noticed;
        if now != told {
            look_at_links(rt, hub, lanes, told, now);
        }
        if now != told || threads.are_lacking() {
            threads.make(scope, rt, site, lanes);
        }
        warnings.say(rt, &hub.log, now.met, threads.failures());
        if is_over {
            return;
        }
        thread::sleep(rt, Duration::from_millis(REST));
    }
    unreachable!()
}

/// How long may be waited for anything new.
fn time_to_wait(threads: &LinkThreads, warnings: &Warnings) -> Duration {
    if threads.are_lacking() || warnings.are_waiting() {
        Duration::from_millis(AGAIN)
    } else {
        Duration::from_secs(LONG)
    }
}

/// Does what follows of what was noticed since the last time.
fn look_at_links<R: Wait + Clock>(
    rt: &R,
    hub: &Hub,
    lanes: &Lanes<'_>,
    told: Noticed,
    now: Noticed,
) {
    if now.is_draining {
        lanes.drain(rt);
    }
    lanes.wake_dials(rt);
    warn_of_dials(rt, hub, told.met, now.met);
}

/// Says what was met of dials since the last time.
fn warn_of_dials<R: Wait + Clock>(rt: &R, hub: &Hub, told: Met, met: Met) {
    if met.early_ends == told.early_ends && met.failed_dials == told.failed_dials {
        return;
    }
    let Ok(targets) = hub.targets.all(rt, hub.alloc) else {
        return;
    };
    for target in &targets {
        warn_of_dial(rt, &hub.log, target);
    }
}

/// Says why a peer isn't up, and once that its links end early.
fn warn_of_dial<R: Wait + Clock>(rt: &R, log: &Log, target: &Target) {
    let peer = target.peer().as_str();
    if let Some(fault) = target.take_fault(rt) {
        let fields = [
            text("peer", peer),
            text("at", target.place()),
            text("fault", fault.name()),
            text("reason", fault.reason()),
        ];
        log.tell(rt, Level::Warn, "dial_failed", &fields);
    }
    if target.has_news() {
        let fields = [text("peer", peer), text("reason", UNSTEADY)];
        log.tell(rt, Level::Warn, "unsteady", &fields);
    }
}
