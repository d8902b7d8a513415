//! One life after another, until the end of the program.
use crate::life::{Site, live};
use crate::turn::{LifeMaker, last};
use anyhow::{Error, Result, anyhow, bail};
use node_net::{Host, Lane};
use node_threads::Node;
use pg_closer::{Closer, EndedLife, not_closed};
use pg_hub::Hub;
use pg_log::{Level, Log, number};
use std::alloc::Global;
use std::sync::{Arc, Wait};
use std::time::{Clock, Instant};

/// The fewest entries of a life that ends for want of memory, if another one is to follow: less
/// than they take would be won by it.
const FEWEST: usize = 1_000;

/// Lives until the program is to end, if all threads beside the links are made. The lanes of the
/// last life come back.
pub fn live_on<R: Host>(
    rt: &R,
    site: Site<'_>,
    maker: &mut LifeMaker,
    closer: &Closer<'_>,
    lanes: Vec<Lane>,
    are_made: bool,
) -> Result<Vec<Lane>> {
    if !are_made {
        bail!("no thread can be made");
    }
    let mut lanes = lanes;
    for _ in rt.forever() {
        let begun = Instant::now(rt).ok();
        let ended = live(rt, site, lanes);
        if site.hub.signals.is_quitting() {
            return Ok(ended);
        }
        lanes = match begin_anew(rt, site.hub, maker, closer, ended, begun) {
            Ok(lanes) => lanes,
            Err(reason) => {
                closer.leave(rt);
                return Err(reason);
            }
        };
    }
    unreachable!()
}

/// The lanes of the next life. The last one, which has begun then, is closed behind it, unless it
/// has to give its memory first.
fn begin_anew<R: Wait + Clock>(
    rt: &R,
    hub: &Hub,
    maker: &mut LifeMaker,
    closer: &Closer<'_>,
    ended: Vec<Lane>,
    begun: Option<Instant>,
) -> Result<Vec<Lane>> {
    let wants_memory = check_memory(rt, hub, closer)?;
    hub.log_links(rt);
    let entries = hub.node.shared.lock(rt).core().audit().len() as u64;
    closer.reserve.release(rt);
    let (lanes, life) = maker.turn(rt, hub, ended)?;
    let creation = hub.node.shared.lock(rt).core().creation();
    log_life(rt, &hub.log, creation, entries, begun);
    closer.put(rt, life);
    if wants_memory {
        closer.wait_until_idle(rt);
    }
    Ok(lanes)
}

/// Logs a new life, behind one of so many entries that has begun then.
fn log_life<R: Wait + Clock>(
    rt: &R,
    log: &Log,
    creation: u32,
    entries: u64,
    begun: Option<Instant>,
) {
    let fields = [
        number("creation", u64::from(creation)),
        number("entries", entries),
        number("seconds", seconds_since(rt, begun)),
    ];
    log.tell(rt, Level::Info, "new_life", &fields);
}

fn seconds_since<R: Clock>(rt: &R, begun: Option<Instant>) -> u64 {
    match begun.map(|begun| begun.elapsed(rt)) {
        Some(Ok(passed)) => passed.as_secs(),
        _ => 0,
    }
}

/// Whether the life ends for want of memory, which is told. An error where another life would have
/// no more.
fn check_memory<R: Wait + Clock>(rt: &R, hub: &Hub, closer: &Closer<'_>) -> Result<bool> {
    let shared_memory = closer.wait_until_idle(rt);
    let shared = hub.node.shared.lock(rt);
    let entries = shared.core().audit().len();
    let wants_memory = hub.signals.wants_memory(&shared);
    drop(shared);
    if wants_memory && entries < FEWEST && !shared_memory {
        bail!("out of memory");
    }
    if wants_memory {
        hub.log
            .warn(rt, "no_memory", "out of memory: the node begins anew");
    }
    Ok(wants_memory)
}

/// Closes the last life, whose lanes have come back. An error where that or the life before has
/// failed, or entries aren't in the archive. A life that has failed isn't closed: what it kept is
/// written.
pub fn finish<R: Wait + Clock>(
    rt: &R,
    hub: Hub,
    closer: &Closer<'_>,
    ended: Result<Vec<Lane>>,
) -> Result<()> {
    let (alloc, seats) = (hub.alloc, hub.seats);
    let log = Arc::try_clone(&hub.log);
    let (node, house) = hub.into_parts();
    closer.reserve.release(rt);
    let lanes = match ended {
        Ok(lanes) => lanes,
        Err(reason) => {
            drop(house);
            return Err(leave(rt, alloc, closer, node, &*log?, reason));
        }
    };
    closer.check(rt)?;
    let life = last(alloc, seats, node, house, lanes)?;
    close_last(rt, alloc, closer, life, &*log?)
}

/// Writes what the last life kept, which has failed so: the error, with the entries that are lost.
fn leave<R: Wait + Clock>(
    rt: &R,
    alloc: Global,
    closer: &Closer<'_>,
    node: Node,
    log: &Log,
    reason: Error,
) -> Error {
    let shared = node.shared.lock(rt);
    let written = closer.write_left(rt, alloc, shared.core().audit(), log);
    drop(shared);
    match written {
        Ok(()) => reason,
        Err(lost) => anyhow!("{reason}; {lost}"),
    }
}

fn close_last<R: Wait + Clock>(
    rt: &R,
    alloc: Global,
    closer: &Closer<'_>,
    life: EndedLife,
    log: &Log,
) -> Result<()> {
    if let Err(rule) = closer.close(rt, alloc, life, log) {
        return Err(not_closed(rule));
    }
    closer.check_archive(rt)
}
