//! A link for the next connection of a door.
ghost use Rattle.std.specs.Prelude.{◌≢◌, None, Some, IfOk, IfErr};
ghost use Rattle.node_threads.specs.declared.accepting.AcceptEnd.TheVariants as ends;
ghost use Rattle.node_threads.specs.Accepting.{Opens, Asked, IsUnopened};
ghost use Rattle.node_threads.specs.Drawing.{Draws, new_challenges};
ghost use Rattle.node_threads.specs.Challenges.{HaveDrawn};

use crate::accepting::{AcceptEnd, Door};
use crate::ends::LinkOut;
use crate::fault::CallFault;
use crate::node::Node;
use crate::pass::Pass;
use crate::serving::Connection;
use cookie_digest::ChallengeSource;
use node_core::CoreFault;
use policy_audit::{Event, Reply, Rule};
use rand_core::Rng;
use std::sync::Wait;

/// Opens a link for the next connection, unless there is an end.
pub(crate) fn open_next<R: Wait, D: Door, S: Rng>(
    rt: &R,
    node: &Node,
    reader: &mut Pass,
    door: &mut D,
    source: &mut ChallengeSource<S>,
) -> Result<Connection<D::Input, D::Output>, AcceptEnd>
    ensures ok { IfOk result (λ opened. Opens (Some opened.link) reader.old reader.new) }
    ensures drawn { IfOk result (λ _.
        Draws (S.stream source.old) (new_challenges reader.old reader.new) (S.stream source.new)) }
    ensures none { IfErr result (λ end. Opens None reader.old reader.new
        × (end ≢ ends.PassesUsed)) }
    ensures left { IfErr result (λ end. HaveDrawn end (S.stream source.old)
        (new_challenges reader.old reader.new) (S.stream source.new)) }
{
    for _ in rt.forever() {
        let (input, mut output) = next_of(door)?;
        match open_or_hang_up(rt, node, reader, source.draw(), &mut output) {
            LinkAnswer::Link(link) => return Ok(Connection::new(link, input, output)),
            LinkAnswer::Refused => {}
            LinkAnswer::End(end) => return Err(end),
        }
    }
    unreachable!()
}

fn next_of<D: Door>(door: &mut D) -> Result<(D::Input, D::Output), AcceptEnd>
    ensures { IfErr result (λ end. end ≢ ends.PassesUsed) }
{
    match door.next() {
        Ok(Some(sides)) => Ok(sides),
        Ok(None) => Err(AcceptEnd::NoMore),
        Err(_) => Err(AcceptEnd::DoorFault),
    }
}

/// What an Opened was answered.
#[derive(Clone, Copy)]
pub(crate) enum LinkAnswer {
    Link(u32),
    /// The node has no room for the link.
    Refused,
    End(AcceptEnd),
}

/// Opens a link, or hangs up its connection where it gets none.
fn open_or_hang_up<R: Wait, W: LinkOut>(
    rt: &R,
    node: &Node,
    reader: &mut Pass,
    challenge: u32,
    output: &mut W,
) -> LinkAnswer
    ensures { Asked challenge reader.old result reader.new }
{
    let answer = open(rt, node, reader, challenge);
    if !matches!(answer, LinkAnswer::Link(_)) {
        output.hang_up();
    }
    answer
}

fn open<R: Wait>(rt: &R, node: &Node, reader: &mut Pass, challenge: u32) -> LinkAnswer
    ensures { Asked challenge reader.old result reader.new }
{
    match reader.call(node, rt, Event::Opened(challenge)) {
        Ok(Reply::Link(link)) => LinkAnswer::Link(*link),
        Ok(_) => unreachable!(),
        Err(fault) => unopened(fault),
    }
}

fn unopened(fault: CallFault) -> LinkAnswer
    ensures { IsUnopened fault result }
{
    match fault {
        CallFault::StrangePass => LinkAnswer::End(AcceptEnd::StrangePass),
        CallFault::Core(CoreFault::OutOfMemory) => LinkAnswer::End(AcceptEnd::Memory),
        CallFault::Core(CoreFault::Refused(rule)) => {
            if rule == Rule::EntriesFull {
                LinkAnswer::End(AcceptEnd::EntriesFull)
            } else {
                LinkAnswer::Refused
            }
        }
    }
}
