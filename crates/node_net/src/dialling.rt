//! Connections that this node opens.
use crate::home::Home;
use crate::host::Host;
use crate::lanes::Lanes;
use crate::serving::{Opener, Served, serve_stream};
use crate::tries::{Dialled, Tries};
use dial_targets::{DialFault, Target};
use dist_types::NodeName;
use node_threads::Node;
use policy_audit::{Entry, Reply, Verdict};
use std::alloc::Global;
use std::sync::{Arc, Wait};
use std::thread::{Scope, Threads};
use std::time::{Clock, Duration, Instant};

/// The milliseconds between two looks whether a peer is up yet that has opened the link itself.
const LOOK: u64 = 1_000;

/// A link that ended so many seconds after it was dialled, or sooner, has ended early. Longer than
/// the longest pause, so that two nodes of one name, which end each other's link to a peer, dial it
/// no more often than that.
const EARLY: u64 = 60;

/// Starts a thread that keeps a link to a peer, for which a lane is kept: whether it could be made.
pub fn start_dialling<'s, E: 's, R: Host + 's>(
    scope: &'s Scope<'s, E>,
    rt: &'s R,
    alloc: Global,
    node: &'s Node,
    lanes: &'s Lanes<'s>,
    target: Arc<Target>,
) -> bool {
    lanes.keep_one_more(rt);
    let is_made = scope
        .spawn(move || keep_dialling(rt, alloc, node, lanes, &target))
        .is_ok();
    if !is_made {
        lanes.keep_one_less(rt);
    }
    is_made
}

/// Dials a peer whenever no link to it is up, until the stop, or the end of the target: then no
/// lane is kept for it any more.
fn keep_dialling<'a, R: Host>(
    rt: &'a R,
    alloc: Global,
    node: &'a Node,
    lanes: &'a Lanes<'a>,
    target: &Target,
) {
    let home = Home {
        rt,
        alloc,
        node,
        lanes,
    };
    let mut tries = Tries::new();
    for _ in rt.forever() {
        // A dial that the node refuses is an entry, too.
        let is_over = wait_while_up(&home, target, &mut tries);
        if is_over || !dial_once(&home, target, &mut tries) {
            lanes.keep_one_less(rt);
            return;
        }
    }
    unreachable!()
}

/// Dials once, and rests behind it: whether to go on.
fn dial_once<R: Host>(home: &Home<'_, R>, target: &Target, tries: &mut Tries) -> bool {
    let Home {
        rt,
        node,
        lanes,
        ..
    } = *home;
    target.begin(rt);
    let dialled = dial(home, target);
    if lanes.is_stopping(rt) || target.has_ended() {
        return false;
    }
    if tries.count(dialled) {
        tell_unsteady(rt, node, lanes, target);
    }
    let pause = tries.pause(rt);
    note(home, target, dialled, pause);
    !lanes.pause(rt, pause, target)
}

/// Notes how a dial has ended, behind which there is a pause, and wakes who waits for the node
/// where it has failed.
fn note<R: Wait + Clock>(home: &Home<'_, R>, target: &Target, dialled: Dialled, pause: Duration) {
    let Home {
        rt,
        node,
        lanes,
        ..
    } = *home;
    let next = match Instant::now(rt) {
        Ok(now) => now.checked_add(pause),
        Err(_) => None,
    };
    // Where both ends dial each other one dial comes to nothing.
    let fault = if is_up(rt, node, target) {
        None
    } else {
        dialled.fault()
    };
    target.rest(rt, fault, next);
    if fault.is_some() {
        lanes.counts().failed_dial();
        node.wake(rt);
    }
}

fn is_up<R: Wait>(rt: &R, node: &Node, target: &Target) -> bool {
    node.shared.lock(rt).core().is_peer_up(target.peer())
}

/// Waits while a link to the peer is up that it has opened itself; no lane is kept meanwhile, and
/// pauses begin anew behind it. Whether the stop has come, or the end of the target.
fn wait_while_up<R: Wait + Clock>(home: &Home<'_, R>, target: &Target, tries: &mut Tries) -> bool {
    let Home {
        rt,
        node,
        lanes,
        ..
    } = *home;
    if lanes.is_draining(rt) {
        lanes.wait_for_stop(rt);
    }
    if lanes.is_stopping(rt) || target.has_ended() {
        return true;
    }
    if !is_up(rt, node, target) {
        return false;
    }
    target.come_up(rt);
    tries.reset();
    lanes.keep_one_less(rt);
    let is_stopping = look_until_down(rt, node, lanes, target);
    lanes.keep_one_more(rt);
    is_stopping
}

fn look_until_down<R: Wait + Clock>(
    rt: &R,
    node: &Node,
    lanes: &Lanes<'_>,
    target: &Target,
) -> bool {
    for _ in rt.forever() {
        if lanes.pause(rt, Duration::from_millis(LOOK), target) {
            return true;
        }
        if !is_up(rt, node, target) {
            return false;
        }
    }
    unreachable!()
}

/// Dials a peer and serves the link until it ends.
fn dial<R: Host>(home: &Home<'_, R>, target: &Target) -> Dialled {
    let Home {
        rt,
        node,
        lanes,
        ..
    } = *home;
    let stream = match target.connect(rt, lanes.limits().setup, lanes) {
        Some(Ok(stream)) => stream,
        Some(Err(fault)) => return Dialled::Failed(fault),
        None => return Dialled::Stopped,
    };
    lanes.look_for_dial(rt, node);
    let Some(lane) = lanes.take_for_dial(rt, target) else {
        return Dialled::Stopped;
    };
    let begun = Begun::now(rt, node);
    let opener = Opener::Own(target.peer());
    let (lane, served) = serve_stream(home, lane, stream, opener, target.kind());
    lanes.give_back_from_dial(rt, lane);
    match served {
        Served::CameUp => begun.end(rt, node, target),
        Served::NotUp => Dialled::Failed(DialFault::Handshake),
        Served::NotBegun => Dialled::Failed(DialFault::System),
    }
}

/// When a dial was begun, and behind how many entries.
#[derive(Clone, Copy)]
struct Begun {
    at: Option<Instant>,
    entries: usize,
}

impl Begun {
    fn now<R: Wait + Clock>(rt: &R, node: &Node) -> Begun {
        Begun {
            at: Instant::now(rt).ok(),
            entries: node.shared.lock(rt).core().audit().len(),
        }
    }

    /// How the link ended that came up.
    fn end<R: Wait + Clock>(&self, rt: &R, node: &Node, target: &Target) -> Dialled {
        if self.is_long_ago(rt) {
            return Dialled::Steady;
        }
        Dialled::Early(creation_behind(rt, node, target.peer(), self.entries))
    }

    fn is_long_ago<R: Clock>(&self, rt: &R) -> bool {
        let Some(at) = self.at else {
            return true;
        };
        match at.elapsed(rt) {
            Ok(passed) => passed >= Duration::from_secs(EARLY),
            Err(_) => true,
        }
    }
}

/// The creation with which the peer came up first behind so many entries.
fn creation_behind<R: Wait>(rt: &R, node: &Node, peer: &NodeName, seen: usize) -> Option<u32> {
    let shared = node.shared.lock(rt);
    for entry in shared.core().audit().after(seen) {
        let creation = creation_in(entry, peer);
        if creation.is_some() {
            return creation;
        }
    }
    None
}

/// The creation with which the peer came up, if the entry says so.
fn creation_in(entry: &Entry, wanted: &NodeName) -> Option<u32> {
    match &entry.verdict {
        Verdict::Accepted(Reply::Up { peer, creation, .. }) if peer == wanted => Some(*creation),
        _ => None,
    }
}

/// Says that links to the peer end early, and wakes who waits for the node, so that it is looked
/// at.
fn tell_unsteady<R: Wait>(rt: &R, node: &Node, lanes: &Lanes<'_>, target: &Target) {
    target.note_unsteady();
    lanes.counts().early_end();
    node.wake(rt);
}
