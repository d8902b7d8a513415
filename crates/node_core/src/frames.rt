//! Messages as frames.
ghost use Rattle.std.specs.Prelude.{◌≡◌, ◌≤◌, true, length, IfOk};
ghost use Rattle.std.specs.List.{AllByRecursion};
ghost use Rattle.link_frames.specs.Parts.{HasParts};
ghost use Rattle.link_frames.specs.Spelling.{HasSpelling};
ghost use Rattle.link_frames.specs.Stream.{max_body};
ghost use Rattle.policy_audit.specs.Owed.{wide};
ghost use Rattle.node_core.specs.Telling.{said_in, wide_frames, CanBeSaid};

use dist_types::{Body, OutOfMemory, Scope, TryClone};
use link_frames::{Message, encode, encode_parts, fits_a_reader};
use policy_audit::OutFrame;
use std::alloc::Global;

/// The frames of a message: its parts, or the whole.
pub fn frames_of(
    alloc: Global,
    message: &Message,
    parted: bool,
) -> Result<Vec<OutFrame>, OutOfMemory>
    requires { CanBeSaid parted message.now }
    ensures { IfOk result (λ frames. frames.items ≡ said_in message.now parted) }
{
    if parted {
        return parts_of(alloc, message);
    }
    let mut frames = Vec::new(alloc);
    frames.push(frame_of(alloc, message)?)?;
    Ok(frames)
}

/// The parts of a message.
fn parts_of(alloc: Global, message: &Message) -> Result<Vec<OutFrame>, OutOfMemory>
    requires { HasParts message.now }
    ensures { IfOk result (λ frames. frames.items ≡ said_in message.now true) }
{
    let bodies = encode_parts(alloc, message)?;
    let frames = wide_frames(alloc, bodies)?;
    Ok(frames)
}

/// These bodies as frames with a length of 4 bytes.
fn wide_frames(alloc: Global, bodies: Vec<Body>) -> Result<Vec<OutFrame>, OutOfMemory>
    requires { AllByRecursion (λ body. length body ≤ max_body) bodies.items }
    ensures { IfOk result (λ frames. frames.items ≡ wide_frames bodies.items) }
{
    let mut frames = Vec::with_capacity(alloc, bodies.len())?;
    for body in bodies {
        frames.push_reserved(OutFrame { wide: true, body });
    }
    Ok(frames)
}

/// The frame of a message.
pub fn frame_of(alloc: Global, message: &Message) -> Result<OutFrame, OutOfMemory>
    requires { HasSpelling message.now }
    ensures { IfOk result (λ frame. frame ≡ wide message.now) }
{
    // Its length has 4 bytes, and the body is far below that.
    fits_a_reader();
    let mut body = Vec::new(alloc);
    encode(message, &mut body)?;
    Ok(OutFrame {
        wide: true,
        body: Body::of(body)?,
    })
}

/// The frame of a Discover of a scope.
pub fn discover_frame(alloc: Global, scope: &Scope) -> Result<OutFrame, OutOfMemory>
    ensures { IfOk result (λ frame. frame ≡ wide (Message.Discover scope.now)) }
{
    let scope = scope.try_clone(alloc)?;
    into_frame(alloc, Message::Discover(scope))
}

/// The frame of a message that is not needed any more.
pub fn into_frame(alloc: Global, message: Message) -> Result<OutFrame, OutOfMemory>
    requires { HasSpelling message }
    ensures { IfOk result (λ frame. frame ≡ wide message) }
{
    let frame = frame_of(alloc, &message);
    drop(message);
    frame
}
