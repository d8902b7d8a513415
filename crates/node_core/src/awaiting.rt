//! What the kept links await.
ghost use Rattle.std.specs.Prelude.{◌≡◌, map, IfOk};
ghost use Rattle.node_core.specs.Reading.{frame_awaited};

use crate::link::Link;
use crate::link_state::LinkState;
use dist_types::OutOfMemory;
use std::alloc::Global;

/// Which frame of the handshake, or a message after it.
#[derive(Clone, Copy, Debug, PartialEq, Eq)]
pub enum FrameKind {
    Name,
    Answer,
    Reply,
    Status,
    Challenge,
    Ack,
    Message,
}

/// A kept link.
#[derive(Clone, Copy, Debug, PartialEq, Eq)]
pub struct Awaiting {
    /// The number of the entry that opened it.
    pub link: u32,
    /// None, where a refused frame of its own ended it.
    pub frame: Option<FrameKind>,
}

/// What a link in this state awaits.
fn frame_awaited(state: &LinkState) -> Option<FrameKind>
    ensures { result ≡ frame_awaited state.now }
{
    Some(match state {
        LinkState::Name(_) => FrameKind::Name,
        LinkState::Answer(_) => FrameKind::Answer,
        LinkState::Reply(_) => FrameKind::Reply,
        LinkState::Status(_) => FrameKind::Status,
        LinkState::Challenge(_) => FrameKind::Challenge,
        LinkState::Ack(_) => FrameKind::Ack,
        LinkState::Up(_) => FrameKind::Message,
        LinkState::Ended => return None,
    })
}

/// What each of these links awaits.
pub fn awaiting_of(alloc: Global, links: &[Link]) -> Result<Vec<Awaiting>, OutOfMemory>
    ensures { IfOk result (λ all. all.items
        ≡ map (λ x. record { link = x.number; frame = frame_awaited x.state }) links.now) }
{
    let mut all = Vec::new(alloc);
    for link in links {
        all.push(Awaiting {
            link: link.number(),
            frame: frame_awaited(link.state()),
        })?;
    }
    Ok(all)
}
