//! What a step of a world was answered, as a line.
ghost use Rattle.std.specs.Prelude.{◌≡◌, ◌++◌, OnOk};
ghost use Rattle.world_script.specs.StepLines.{answer_line, fault_answer, fault_name};

use dist_types::OutOfMemory;
use pg_text::{put_accepted, put_numbered_line, put_unanswered, put_word};
use pg_world::{WorldFault, WorldReply};
use std::alloc::Global;

/// Adds the line for what a step was answered.
pub fn put_answer(
    alloc: Global,
    answer: &Result<WorldReply, WorldFault>,
    out: &mut Vec<u8>,
) -> Result<(), OutOfMemory>
    ensures { OnOk result (out.new.items ≡ out.old.items ++ answer_line answer.now) }
{
    match answer {
        Ok(WorldReply::Wire(wire)) => put_numbered_line("wire ", *wire as u64, out),
        Ok(WorldReply::Handed(count)) => put_numbered_line("handed ", *count as u64, out),
        Ok(WorldReply::Answer(reply)) => put_accepted(alloc, reply, out),
        Err(fault) => put_refused(*fault, out),
    }
}

/// Adds the line for a step that has no reply: the node's own answer, or the world's fault by its
/// name.
fn put_refused(fault: WorldFault, out: &mut Vec<u8>) -> Result<(), OutOfMemory>
    ensures { OnOk result (out.new.items ≡ out.old.items ++ fault_answer fault) }
{
    if let WorldFault::Core(fault) = fault {
        return put_unanswered(fault, out);
    }
    put_word("fault ", out)?;
    put_word(name_of(fault), out)?;
    put_word("\n", out)
}

/// What a fault is called.
fn name_of(fault: WorldFault) -> &'static str
    ensures { result.now ≡ fault_name fault }
{
    match fault {
        WorldFault::WrongEvent => "WrongEvent",
        WorldFault::NoNode => "NoNode",
        WorldFault::NoWire => "NoWire",
        WorldFault::AcceptedAlready => "AcceptedAlready",
        WorldFault::NotAccepted => "NotAccepted",
        WorldFault::NothingUnderWay => "NothingUnderWay",
        WorldFault::Core(_) => "Core",
    }
}
