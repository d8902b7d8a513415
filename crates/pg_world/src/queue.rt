//! What a node's answer makes of the frames under way to it, or from it. What grows has grown
//! before the node's step.
ghost use Rattle.std.specs.Prelude.{◌≡◌, ◌+◌, ◌<◌, ◌≤◌, ◌++◌, IsTrue, IfOk, OnOk, length, vec_len, vec_capacity};
ghost use Rattle.policy_audit.specs.Owed.{waiting, is_kept};
ghost use Rattle.policy_audit.specs.Policy.{is_full};
ghost use Rattle.pg_world.specs.Queues.{Answers, plain, frames_in, count_handed, joined_by, leaves, left_by, is_gone, cut_by, oldest};

use crate::fault::WorldFault;
use crate::node::Node;
use crate::world_step::WorldReply;
use dist_types::{Body, OutOfMemory, TryClone};
use node_core::CoreFault;
use policy_audit::{Event, OutFrame, Reply, Rule};
use std::alloc::Global;

/// What a node with a full audit answers to any event.
pub(crate) const ENTRIES_FULL: WorldFault = WorldFault::Core(CoreFault::Refused(Rule::EntriesFull));

pub(crate) const OUT_OF_MEMORY: WorldFault = WorldFault::Core(CoreFault::OutOfMemory);

/// The frames that wait for a link join a queue.
pub(crate) fn hand_over(
    core: &mut Node,
    seat: u32,
    link: u32,
    queue: &mut Vec<OutFrame>,
) -> Result<WorldReply, WorldFault>
    ensures { Answers core.old seat (Event.Take link) core.new (λ a.
        (queue.new.items ≡ joined_by a queue.old.items) × (result ≡ count_handed a)) }
{
    if core.is_full() {
        return Err(ENTRIES_FULL);
    }
    let Ok(()) = make_room(core, link, queue) else {
        return Err(OUT_OF_MEMORY);
    };
    match core.step(seat, Event::Take(link)) {
        Ok(reply) => Ok(WorldReply::Handed(append(queue, reply))),
        Err(fault) => Err(WorldFault::Core(fault)),
    }
}

/// Makes room in a queue for the frames that wait for a link.
fn make_room(core: &Node, link: u32, queue: &mut Vec<OutFrame>) -> Result<(), OutOfMemory>
    ensures room { OnOk result (IsTrue (is_kept core.now link)
        → vec_len queue.new + length (waiting core.now link) ≤ vec_capacity queue.new) }
    ensures same { queue.new.items ≡ queue.old.items }
{
    let Some(waiting) = core.waiting(link) else {
        return Ok(());
    };
    queue.reserve(waiting)?;
    Ok(())
}

/// Appends the frames of a reply to a queue that has room for them, and tells how many they are.
fn append(queue: &mut Vec<OutFrame>, reply: Reply) -> usize
    requires { vec_len queue.old + length (frames_in reply) ≤ vec_capacity queue.old }
    ensures frames { queue.new.items ≡ queue.old.items ++ frames_in reply }
    ensures count { result ≡ length (frames_in reply) }
{
    let Reply::Out(frames) = reply else {
        return 0;
    };
    let mut frames = frames.into_vec();
    let count = frames.len();
    queue.append(&mut frames).unwrap();
    count
}

/// The oldest frame of a queue comes on a link.
pub(crate) fn deliver_oldest(
    alloc: Global,
    core: &mut Node,
    seat: u32,
    link: u32,
    queue: &mut Vec<OutFrame>,
) -> Result<WorldReply, WorldFault>
    requires { 0 < vec_len queue.old }
    ensures { Answers core.old seat (Event.Frame link (oldest queue.old.items)) core.new (λ a.
        (queue.new.items ≡ left_by a queue.old.items) × (result ≡ plain a)) }
{
    if core.is_full() {
        return Err(ENTRIES_FULL);
    }
    let Ok(body) = copy_of_oldest(alloc, queue) else {
        return Err(OUT_OF_MEMORY);
    };
    let answer = core.step(seat, Event::Frame(link, body));
    if leaves(&answer) {
        drop(queue.remove(0));
    }
    plain(answer)
}

/// A copy of the body of the oldest frame.
fn copy_of_oldest(alloc: Global, queue: &[OutFrame]) -> Result<Body, OutOfMemory>
    requires { 0 < length queue.now }
    ensures { IfOk result (λ body. body ≡ oldest queue.now) }
{
    let frame = &queue[0];
    frame.body.try_clone(alloc)
}

/// A link is lost, and what is under way to it with it.
pub(crate) fn cut_off(
    core: &mut Node,
    seat: u32,
    link: u32,
    queue: &mut Vec<OutFrame>,
) -> Result<WorldReply, WorldFault>
    ensures { Answers core.old seat (Event.Lost link) core.new (λ a.
        (queue.new.items ≡ cut_by a queue.old.items) × (result ≡ plain a)) }
{
    let answer = core.step(seat, Event::Lost(link));
    if is_gone(&answer) {
        queue.clear();
    }
    plain(answer)
}

/// Whether a frame that was answered so leaves its queue.
fn leaves(answer: &Result<Reply, CoreFault>) -> bool
    ensures { result ≡ leaves answer.now }
{
    !matches!(
        answer,
        Err(CoreFault::Refused(Rule::EntriesFull) | CoreFault::OutOfMemory)
    )
}

/// Whether a link whose loss was answered so gets nothing any more.
fn is_gone(answer: &Result<Reply, CoreFault>) -> bool
    ensures { result ≡ is_gone answer.now }
{
    matches!(answer, Ok(_) | Err(CoreFault::Refused(Rule::NoSuchLink)))
}

/// The node's own answer.
pub(crate) fn plain(answer: Result<Reply, CoreFault>) -> Result<WorldReply, WorldFault>
    ensures { result ≡ plain answer }
{
    match answer {
        Ok(reply) => Ok(WorldReply::Answer(reply)),
        Err(fault) => Err(WorldFault::Core(fault)),
    }
}
