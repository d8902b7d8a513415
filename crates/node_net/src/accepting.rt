//! Connections that peers open.
use crate::arrivals::Arrivals;
use crate::backoff::Backoff;
use crate::home::Home;
use crate::lane::Lane;
use crate::lanes::Lanes;
use crate::serving::{Opener, Served, serve_stream};
use dial_targets::PeerKind;
use node_threads::Node;
use std::alloc::Global;
use std::net::TcpStream;
use std::sync::Wait;
use std::thread::{Scope, Threads};
use std::time::Clock;

/// The milliseconds that a thread rests after the first link that didn't come up, and at most.
const FIRST_REST: u64 = 100;

const LONGEST_REST: u64 = 5_000;

/// Starts a thread that serves connections: whether one could be made.
pub fn start_accepting<'s, E: 's, R: Threads + Wait + Clock + Sync + 's>(
    scope: &'s Scope<'s, E>,
    rt: &'s R,
    alloc: Global,
    node: &'s Node,
    lanes: &'s Lanes<'s>,
    arrivals: &'s Arrivals,
) -> bool {
    scope
        .spawn(move || take_connections(rt, alloc, node, lanes, arrivals))
        .is_ok()
}

/// Serves the link of one connection after another, until the stop. After a link that didn't come
/// up it rests, the longer the more there were in a row, so that strangers can't fill the audit.
fn take_connections<'a, R: Threads + Wait + Clock + Sync>(
    rt: &'a R,
    alloc: Global,
    node: &'a Node,
    lanes: &'a Lanes<'a>,
    arrivals: &Arrivals,
) {
    let home = Home {
        rt,
        alloc,
        node,
        lanes,
    };
    let mut rest = Backoff::of_millis(FIRST_REST, 0, LONGEST_REST);
    for _ in rt.forever() {
        let Some(stream) = arrivals.next(rt, lanes) else {
            return;
        };
        if take_in(&home, stream, arrivals.kind()) {
            rest.reset();
        } else if lanes.rest(rt, rest.grow()) {
            return;
        }
    }
    unreachable!()
}

/// Serves the link of a connection: whether it came up.
fn take_in<R: Threads + Wait + Clock + Sync>(
    home: &Home<'_, R>,
    stream: TcpStream,
    kind: PeerKind,
) -> bool {
    let Some(lane) = lane_for_peer(home) else {
        return false;
    };
    let (lane, served) = serve_stream(home, lane, stream, Opener::Peer, kind);
    home.lanes.give_back(home.rt, lane);
    served == Served::CameUp
}

/// A lane, once there is one. Who waits for it says that there is none, and who has the last one.
fn lane_for_peer<R: Wait>(home: &Home<'_, R>) -> Option<Lane> {
    let Home {
        rt,
        node,
        lanes,
        ..
    } = *home;
    lanes.look_for_peer(rt, node);
    let lane = lanes.take_for_peer(rt);
    lanes.look_for_peer(rt, node);
    lane
}
