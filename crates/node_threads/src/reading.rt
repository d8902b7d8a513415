//! The reader of a link.
ghost use Rattle.std.specs.Prelude.{◌≡◌, ℕ, List, IfErr, OnOk};
ghost use Rattle.std.specs.Io.KnownBytes.{Consumes, IsAtEnd};
ghost use Rattle.node_threads.specs.declared.ends.ReadEnd.TheVariants as ends;
ghost use Rattle.node_threads.specs.Calls.{is_up_reply};
ghost use Rattle.node_threads.specs.Ends.{end_of};
ghost use Rattle.node_threads.specs.Reading.{Gave, Handed, ReadsOn, Stops, ReadsTo, ReadsAs};

use crate::cutter::Cutter;
use crate::ends::{Gate, ReadEnd};
use crate::fault::CallFault;
use crate::node::Node;
use crate::pass::Pass;
use crate::retreat::leave;
use crate::work::LinkWork;
use dist_types::Body;
use handshake_frames::Fed;
use node_core::CoreFault;
use policy_audit::{Event, Reply, Rule};
use std::alloc::Global;
use std::io::{ErrorKind, Read};
use std::sync::Wait;

/// The most bytes of a read.
const PIECE: usize = 4096;

/// The most reads of a link.
const TURNS: u64 = 1 << 32;

/// Reads the bytes of a link and hands in the frame of each body, until there is an end. Up to the
/// frame that is answered `Up` bodies stand behind lengths of 2 bytes, after it behind lengths of
/// 4. Where the bytes end, a read fails, a body is too long or memory is wanting, the link is lost.
/// A link that is up outlives the refusals of its messages.
pub fn read_link<R: Wait, I: Read, G: Gate>(
    rt: &R,
    alloc: Global,
    node: &Node,
    pass: &mut Pass,
    link: u32,
    input: &mut I,
    gate: &G,
) -> ReadEnd
    ensures bytes { (bytes : List ℕ) × Consumes (I.remaining input.old) (I.remaining input.new)
        bytes × ReadsAs link pass.old bytes result pass.new }
    ensures closed { result ≡ ends.Closed → IsAtEnd (I.remaining input.new) }
{
    let work = LinkWork {
        rt,
        alloc,
        node,
        link,
    };
    read_to_end(&work, pass, input, gate)
}

/// Reads until there is an end, and gives the link up where that is due.
pub(crate) fn read_to_end<R: Wait, I: Read, G: Gate>(
    work: &LinkWork<'_, R>,
    pass: &mut Pass,
    input: &mut I,
    gate: &G,
) -> ReadEnd
    ensures bytes { (bytes : List ℕ) × Consumes (I.remaining input.old) (I.remaining input.new)
        bytes × ReadsAs work.now.link pass.old bytes result pass.new }
    ensures closed { result ≡ ends.Closed → IsAtEnd (I.remaining input.new) }
{
    let stop = read_on(work, pass, input, gate);
    let step = leave(work, pass, gate, stop.gives_up());
    stop.after(step)
}

/// Reads until there is an end, in pieces.
fn read_on<R: Wait, I: Read, G: Gate>(
    work: &LinkWork<'_, R>,
    pass: &mut Pass,
    input: &mut I,
    gate: &G,
) -> ReadEnd
    ensures bytes { (bytes : List ℕ) × Consumes (I.remaining input.old) (I.remaining input.new)
        bytes × ReadsTo work.now.link pass.old bytes result pass.new }
    ensures closed { result ≡ ends.Closed → IsAtEnd (I.remaining input.new) }
{
    let mut piece = [0u8; PIECE];
    let mut cutter = Cutter::new(work.alloc);
    for _ in 0..TURNS {
        gate.reading(work.link);
        let count = match input.read(&mut piece) {
            Ok(0) => return ReadEnd::Closed,
            Ok(count) => count,
            Err(error) if error.kind() == ErrorKind::Interrupted => continue,
            Err(_) => return ReadEnd::ReadFault,
        };
        if let Err(end) = hand_in_all(work, pass, &mut cutter, &piece[..count], gate) {
            return end;
        }
        work.lighten(pass);
    }
    ReadEnd::ReadFault
}

/// Hands in the bodies of a piece.
fn hand_in_all<R: Wait, G: Gate>(
    work: &LinkWork<'_, R>,
    pass: &mut Pass,
    cutter: &mut Cutter,
    piece: &[u8],
    gate: &G,
) -> Result<(), ReadEnd>
    ensures ok { OnOk result (ReadsOn work.now.link pass.old cutter.old piece.now pass.new
        cutter.new) }
    ensures ended { IfErr result (λ end. Stops work.now.link pass.old cutter.old piece.now end
        pass.new) }
{
    let mut left = piece;
    while !left.is_empty() {
        let used = hand_in(work, pass, cutter, left, gate)?;
        (_, left) = left.split_at(used);
    }
    Ok(())
}

/// Cuts off a body at most and hands it in: how many bytes were used.
fn hand_in<R: Wait, G: Gate>(
    work: &LinkWork<'_, R>,
    pass: &mut Pass,
    cutter: &mut Cutter,
    piece: &[u8],
    gate: &G,
) -> Result<usize, ReadEnd>
    ensures { Handed work.now.link pass.old cutter.old piece.now result pass.new cutter.new }
{
    let Fed { used, body } = cutter.feed(piece)?;
    let Some(body) = body else {
        return Ok(used);
    };
    let done = cutter.is_done();
    let answer = give(work, pass, body, done);
    gate.answered(work.link);
    if answer? && !done {
        *cutter = Cutter::of_messages(work.alloc);
        gate.came_up(work.link);
    }
    Ok(used)
}

/// Hands in a body, and tells whether its frame was answered `Up`.
fn give<R: Wait>(
    work: &LinkWork<'_, R>,
    pass: &mut Pass,
    body: Body,
    done: bool,
) -> Result<bool, ReadEnd>
    ensures { Gave work.now.link body done pass.old result pass.new }
{
    match pass.call(work.node, work.rt, Event::Frame(work.link, body)) {
        Ok(reply) => Ok(is_up(reply)),
        Err(fault) => match end_of(fault, done) {
            Some(end) => Err(end),
            None => Ok(false),
        },
    }
}

fn is_up(reply: &Reply) -> bool
    ensures { result ≡ is_up_reply reply.now }
{
    matches!(reply, Reply::Up { .. })
}

/// Which end follows on a frame without a reply, if one does: a link whose handshake is done
/// outlives the refusals of its messages.
fn end_of(fault: CallFault, done: bool) -> Option<ReadEnd>
    ensures { result ≡ end_of fault done }
{
    match fault {
        CallFault::StrangePass => Some(ReadEnd::StrangePass),
        CallFault::Core(CoreFault::OutOfMemory) => Some(ReadEnd::Memory),
        CallFault::Core(CoreFault::Refused(rule)) => {
            if rule == Rule::EntriesFull {
                Some(ReadEnd::EntriesFull)
            } else if rule == Rule::NoSuchLink {
                Some(ReadEnd::Gone)
            } else if done {
                None
            } else {
                Some(ReadEnd::Refused(rule))
            }
        }
    }
}
