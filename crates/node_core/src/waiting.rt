//! Frames that are put behind those that wait for a link.
ghost use Rattle.std.specs.Prelude.{◌≡◌, ◌++◌, vec_len, vec_capacity, ◌≤◌, ◌+◌, List, length, OnOk, OnErr};
ghost use Rattle.policy_audit.specs.OutFrame.{OutFrame};
ghost use Rattle.node_core.specs.Links.{narrow_frames};

use dist_types::{OutOfMemory, TryClone};
use link_states::HandshakeBody;
use policy_audit::OutFrame;
use std::alloc::Global;

/// Puts frames behind the others, in the room that there is.
pub fn put_frames(waiting: &mut Vec<OutFrame>, frames: Vec<OutFrame>)
    requires { vec_len waiting.old + length frames.items ≤ vec_capacity waiting.old }
    ensures items { waiting.new.items ≡ waiting.old.items ++ frames.items }
    ensures room { vec_capacity waiting.old ≤ vec_capacity waiting.new }
{
    for frame in frames {
        waiting.push_reserved(frame);
    }
}

/// Puts copies of frames behind the others. Where memory is wanting, some may stand there.
pub fn put_copies(
    alloc: Global,
    waiting: &mut Vec<OutFrame>,
    frames: &[OutFrame],
) -> Result<(), OutOfMemory>
    ensures ok { OnOk result (waiting.new.items ≡ waiting.old.items ++ frames.now) }
    ensures grown { OnErr result
        ((rest : List OutFrame) × (waiting.new.items ≡ waiting.old.items ++ rest)) }
{
    waiting.reserve(frames.len())?;
    for frame in frames {
        waiting.push(frame.try_clone(alloc)?)?;
    }
    Ok(())
}

/// Puts bodies behind the frames, in the room that there is.
pub fn put_bodies(waiting: &mut Vec<OutFrame>, bodies: Vec<HandshakeBody>)
    requires { vec_len waiting.old + length bodies.items ≤ vec_capacity waiting.old }
    ensures items { waiting.new.items ≡ waiting.old.items ++ narrow_frames bodies.items }
    ensures room { vec_capacity waiting.old ≤ vec_capacity waiting.new }
{
    for body in bodies {
        waiting.push_reserved(OutFrame {
            wide: false,
            body: body.into_body(),
        });
    }
}
