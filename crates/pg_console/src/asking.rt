//! What the two nodes are asked, and until when.
use anyhow::{Error, Result, bail};
use dist_types::OutOfMemory;
use node_threads::{Node, Pass};
use pg_text::{Command, LineFault, parse, put_each, put_word};
use policy_audit::{Event, Members, Reply};
use std::alloc::Global;
use std::sync::Wait;
use std::thread;
use std::time::{Clock, Duration};

/// How often each node is asked for the members.
const TRIES: u32 = 10_000;

/// The milliseconds between two questions.
const PAUSE: u64 = 1;

/// What the node answers to a line of a script.
pub fn ask<'a, R: Wait + Sync>(
    rt: &R,
    alloc: Global,
    node: &Node,
    pass: &'a mut Pass,
    line: &str,
) -> Result<&'a Reply> {
    let event = event_of(alloc, line)?;
    Ok(pass.call(node, rt, event)?)
}

fn event_of(alloc: Global, line: &str) -> Result<Event> {
    match parse(alloc, line.as_bytes()) {
        Ok(Command::Step(event)) => Ok(event),
        Ok(Command::Seat(_) | Command::Size | Command::Audit(_)) | Err(LineFault::Script) => {
            bail!("no event: {line}")
        }
        Err(LineFault::Memory) => Err(Error::from(OutOfMemory)),
    }
}

/// Asks each node until it lists two processes, which it adds, and parts them: whether both came in
/// time.
pub fn watch<R: Wait + Clock + Sync>(
    rt: &R,
    alloc: Global,
    first: (&Node, &mut Pass),
    second: (&Node, &mut Pass),
    text: &mut Vec<u8>,
) -> Result<bool> {
    let (a, caller) = first;
    let (b, other) = second;
    let at_a = both_at(rt, alloc, a, caller, "a@h sees", text)?;
    let at_b = both_at(rt, alloc, b, other, "b@h sees", text)?;
    if at_a {
        ask(rt, alloc, a, caller, "disconnect b@h")?;
    }
    Ok(at_a && at_b)
}

/// Adds the members of the group, once there are two: whether that came in time.
fn both_at<R: Wait + Clock + Sync>(
    rt: &R,
    alloc: Global,
    node: &Node,
    caller: &mut Pass,
    head: &str,
    text: &mut Vec<u8>,
) -> Result<bool> {
    for _ in 0..TRIES {
        if two_at(rt, alloc, node, caller, head, text)? {
            return Ok(true);
        }
        thread::sleep(rt, Duration::from_millis(PAUSE));
    }
    Ok(false)
}

/// Adds the members of the group, if there are two.
fn two_at<R: Wait + Sync>(
    rt: &R,
    alloc: Global,
    node: &Node,
    caller: &mut Pass,
    head: &str,
    text: &mut Vec<u8>,
) -> Result<bool> {
    match ask(rt, alloc, node, caller, "members pg g")? {
        Reply::Pids(pids) if pids.as_slice().len() == 2 => {
            put_seen(alloc, head, pids, text)?;
            Ok(true)
        }
        _ => Ok(false),
    }
}

fn put_seen(
    alloc: Global,
    head: &str,
    pids: &Members,
    text: &mut Vec<u8>,
) -> Result<(), OutOfMemory> {
    put_word(head, text)?;
    put_each(alloc, pids.as_slice(), text)?;
    put_word("\n", text)
}
