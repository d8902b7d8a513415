//! The writer of a link.
ghost use Rattle.std.specs.Prelude.{◌≡◌, IfOk};
ghost use Rattle.std.specs.List.{flat_map};
ghost use Rattle.policy_audit.specs.Wire.{wire_bytes};
ghost use Rattle.node_threads.specs.Ends.{take_end};
ghost use Rattle.node_threads.specs.Writing.{Took, WritesTo, WritesAs};

use crate::ends::{LinkOut, OpenGate, WriteEnd};
use crate::fault::CallFault;
use crate::node::Node;
use crate::pass::Pass;
use crate::retreat::leave;
use crate::work::LinkWork;
use dist_types::OutOfMemory;
use node_core::CoreFault;
use policy_audit::{Event, OutFrame, Reply, Rule};
use std::alloc::Global;
use std::sync::Wait;

/// Takes the frames that wait for a link and writes them, whenever some wait, until there is an
/// end; then it hangs up. Where a write fails or memory is wanting, the link is lost.
pub fn write_link<R: Wait, W: LinkOut>(
    rt: &R,
    alloc: Global,
    node: &Node,
    pass: &mut Pass,
    link: u32,
    output: &mut W,
) -> WriteEnd
    ensures takes { WritesAs link pass.old (W.contents output.old) result (W.contents output.new)
        pass.new }
    ensures hung_up { W.is_hung_up output.new }
{
    let work = LinkWork {
        rt,
        alloc,
        node,
        link,
    };
    write_to_end(&work, pass, output)
}

/// Takes and writes until there is an end, gives the link up where that is due, and hangs up.
pub(crate) fn write_to_end<R: Wait, W: LinkOut>(
    work: &LinkWork<'_, R>,
    pass: &mut Pass,
    output: &mut W,
) -> WriteEnd
    ensures takes { WritesAs work.now.link pass.old (W.contents output.old) result
        (W.contents output.new) pass.new }
    ensures hung_up { W.is_hung_up output.new }
{
    let stop = write_on(work, pass, output);
    let step = leave(work, pass, &OpenGate, stop.gives_up());
    output.hang_up();
    stop.after(step)
}

/// Takes and writes until there is an end.
fn write_on<R: Wait, W: LinkOut>(
    work: &LinkWork<'_, R>,
    pass: &mut Pass,
    output: &mut W,
) -> WriteEnd
    ensures { WritesTo work.now.link pass.old (W.contents output.old) result (W.contents output.new)
        pass.new }
{
    for _ in work.rt.forever() {
        if is_stuck_at(work) {
            return WriteEnd::StuckLink;
        }
        if let Err(end) = write_once(work, pass, output) {
            return end;
        }
        work.lighten(pass);
    }
    unreachable!()
}

/// Waits until the writer of the link has something to do, and tells whether that is to end.
fn is_stuck_at<R: Wait>(work: &LinkWork<'_, R>) -> bool {
    let LinkWork { rt, node, link, .. } = *work;
    let mut shared = node.shared.lock(rt);
    let place = shared.rest(link);
    let told = if place.is_some() {
        &node.writers
    } else {
        &node.moved
    };
    let mut shared = told.wait_while(rt, shared, |shared| !shared.calls_writer(link));
    shared.rise(place);
    shared.is_stuck()
}

/// Takes what waits, and writes it.
fn write_once<R: Wait, W: LinkOut>(
    work: &LinkWork<'_, R>,
    pass: &mut Pass,
    output: &mut W,
) -> Result<(), WriteEnd>
    ensures { Took work.now.link pass.old (W.contents output.old) result (W.contents output.new)
        pass.new }
{
    let wire = match pass.call(work.node, work.rt, Event::Take(work.link)) {
        Ok(Reply::Out(frames)) => wire_of(work.alloc, frames.as_slice()),
        Ok(_) => return Ok(()),
        Err(fault) => return Err(end_of(fault)),
    };
    let Ok(bytes) = wire else {
        return Err(WriteEnd::Memory);
    };
    if output.write_all(bytes.as_slice()).is_err() {
        return Err(WriteEnd::WriteFault);
    }
    Ok(())
}

/// The bytes of frames as they go over the wire.
fn wire_of(alloc: Global, frames: &[OutFrame]) -> Result<Vec<u8>, OutOfMemory>
    ensures { IfOk result (λ bytes. bytes.items ≡ flat_map wire_bytes frames.now) }
{
    let mut bytes = Vec::new(alloc);
    for frame in frames {
        frame.wire(&mut bytes)?;
    }
    Ok(bytes)
}

/// Which end follows on a Take without a reply. A Take is refused by no other rules than these.
fn end_of(fault: CallFault) -> WriteEnd
    ensures { result ≡ take_end fault }
{
    match fault {
        CallFault::StrangePass => WriteEnd::StrangePass,
        CallFault::Core(CoreFault::OutOfMemory) => WriteEnd::Memory,
        CallFault::Core(CoreFault::Refused(rule)) => {
            if rule == Rule::EntriesFull {
                WriteEnd::EntriesFull
            } else {
                WriteEnd::Gone
            }
        }
    }
}
