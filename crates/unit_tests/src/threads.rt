//! Callers on threads of their own, and the workers of links. What can't be played for want of
//! memory is None; the assertions stand in the tests.
ghost use Rattle.std.specs.Prelude.{◌≤◌, length};

mod accepting;
mod challenges;
mod close;
mod crowd;
mod forgetting;
mod news;
mod openings;
mod read_back;
mod retreat;
mod worker;

use crate::made::{Process, alone, cookie_of, group_of, name_of, pid_of, scope_of};
use dist_types::{Group, Items, Pid, Pids, Scope, TryClone};
use node_core::CoreFault;
use node_threads::*;
use policy_audit::{Event, Opening, Reply, Rule};
use std::alloc::Global;
use std::sync::Wait;

/// A node of that name, which isn't hidden.
pub(super) fn opening(alloc: Global, name: &[u8], creation: u32, entries: u32) -> Option<Opening> {
    let name = name_of(alloc, name)?;
    match cookie_of(alloc, b"password") {
        Some(cookie) => Some(Opening {
            name,
            cookie,
            hidden: false,
            creation,
            entries,
            links: 1,
        }),
        None => None,
    }
}

pub(super) fn new_node(alloc: Global, entries: u32, seats: u32) -> Option<(Node, Vec<Pass>)> {
    Node::new(alloc, opening(alloc, b"a@h", 1, entries)?, seats).ok()
}

/// How many entries a node has that these passes close.
pub(super) fn closed(node: Node, passes: Vec<Pass>) -> Option<usize> {
    entries_of(&node.close(passes))
}

fn entries_of(end: &Result<Closed, CloseFault>) -> Option<usize> {
    match end {
        Ok(closed) => Some(closed.core.audit().len()),
        Err(_) => None,
    }
}

// What calls has no contract and is given the event, so that a check doesn't compute the policy's
// verdict on it.
pub(super) fn is_done<R: Wait>(rt: &R, node: &Node, pass: &mut Pass, event: Event) -> bool {
    pass.call(node, rt, event).is_ok()
}

pub(super) fn fault_of<R: Wait>(
    rt: &R,
    node: &Node,
    pass: &mut Pass,
    event: Event,
) -> Option<CallFault> {
    pass.call(node, rt, event).err()
}

/// Puts a pair back behind the passes.
pub(super) fn put_back(passes: &mut Vec<Pass>, pair: Pair) -> Option<()> {
    let Pair { reader, writer } = pair;
    passes.push(reader).ok()?;
    passes.push(writer).ok()
}

/// Takes a pair from the end of the passes.
pub(super) fn next_pair(passes: &mut Vec<Pass>) -> Option<Pair> {
    let reader = passes.pop()?;
    match passes.pop() {
        Some(writer) => Some(Pair { reader, writer }),
        None => None,
    }
}

pub(super) fn paired(alloc: Global, passes: &mut Vec<Pass>, count: u32) -> Option<Vec<Pair>> {
    let mut pairs = Vec::new(alloc);
    for _ in 0..count {
        pairs.push(next_pair(passes)?).ok()?;
    }
    Some(pairs)
}

/// Gives the first of the bytes that are left: how many.
pub(super) fn give(left: &[u8], buf: &mut [u8]) -> usize
    ensures { result ≤ length buf.new }
{
    let count = left.len().min(buf.len());
    for place in 0..count {
        buf[place] = left[place];
    }
    count
}

/// A process of the node. It joins the group `g` of the scope `pg`.
#[derive(Drop)]
pub(super) struct Member {
    alloc: Global,
    pid: Pid,
}

/// The process of that number.
pub(super) fn member_of(alloc: Global, number: u64) -> Option<Member> {
    let process = Process {
        node: b"a@h",
        creation: 1,
        number,
    };
    match pid_of(alloc, &process) {
        Some(pid) => Some(Member { alloc, pid }),
        None => None,
    }
}

/// What a member asks for.
#[derive(Clone, Copy)]
pub(super) enum Ask {
    Start,
    Spawn,
    Join,
    Leave,
    Members,
}

/// A scope, a group of it, and processes.
#[derive(Drop)]
struct Place {
    scope: Scope,
    group: Group,
    pids: Pids,
}

impl Member {
    fn place(&self) -> Option<Place> {
        let pids = alone(self.alloc, self.pid.try_clone(self.alloc).ok())?;
        let scope = scope_of(self.alloc, b"pg")?;
        match group_of(self.alloc, b"g") {
            Some(group) => Some(Place {
                scope,
                group,
                pids: Items::of(pids),
            }),
            None => None,
        }
    }

    /// What the answer says to this process.
    fn told(&self, answer: Result<&Reply, CallFault>) -> Told {
        match answer {
            Ok(Reply::Pids(pids)) => {
                if pids.as_slice().contains(&self.pid) {
                    Told::Member
                } else {
                    Told::NoMember
                }
            }
            Ok(_) => Told::Done,
            Err(fault) => told_of(fault),
        }
    }
}

fn asked(ask: Ask, place: Place) -> Event {
    let Place { scope, group, pids } = place;
    match ask {
        Ask::Start => Event::StartScope(scope),
        Ask::Spawn => Event::Spawn,
        Ask::Join => Event::Join(scope, group, pids),
        Ask::Leave => Event::Leave(scope, group, pids),
        Ask::Members => Event::Members(scope, group),
    }
}

#[derive(Clone, Copy, PartialEq, Eq)]
pub(super) enum Told {
    Done,
    Member,
    NoMember,
    Full,
    Refused,
    Strange,
    NoMemory,
}

fn told_of(fault: CallFault) -> Told {
    match fault {
        CallFault::StrangePass => Told::Strange,
        CallFault::Core(CoreFault::OutOfMemory) => Told::NoMemory,
        CallFault::Core(CoreFault::Refused(Rule::EntriesFull)) => Told::Full,
        CallFault::Core(CoreFault::Refused(_)) => Told::Refused,
    }
}

/// Who takes the lock.
#[derive(Clone, Copy)]
pub(super) enum Way {
    Call,
    Lock,
}

pub(super) fn ask_for<R: Wait>(
    rt: &R,
    node: &Node,
    pass: &mut Pass,
    member: &Member,
    way: Way,
    what: Ask,
) -> Told {
    match member.place() {
        Some(place) => member.told(answer(rt, node, pass, way, asked(what, place))),
        None => Told::NoMemory,
    }
}

/// With a lock, it is given back before the reply is looked at.
fn answer<'a, R: Wait>(
    rt: &R,
    node: &Node,
    pass: &'a mut Pass,
    way: Way,
    event: Event,
) -> Result<&'a Reply, CallFault> {
    match way {
        Way::Call => pass.call(node, rt, event),
        Way::Lock => {
            let mut shared = node.shared.lock(rt);
            pass.apply(&mut shared, event)
        }
    }
}
