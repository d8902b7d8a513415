//! What both directions of a link with a stock node of Erlang/OTP share.
use crate::patience::HostedLink;
use link_notes::{Edges, Ending, REASONS};
use otp_edge::Dropped;
use otp_link::{LinkFault, OtpLink};
use std::alloc::Global;
use std::io::{self, ErrorKind};
use std::sync::{Mutex, Wait};
use std::time::Clock;

/// A link with a stock node, behind its lock, and what was counted of it. The reader takes the
/// node's lock inside, and the writer that of the groups that were told; neither is held in a read
/// or a write.
#[derive(Drop)]
pub(crate) struct OtpSide<'a> {
    pub(crate) alloc: Global,
    pub(crate) link: &'a Mutex<OtpLink>,
    counted: Mutex<[u64; REASONS]>,
}

impl<'a> OtpSide<'a> {
    pub(crate) fn new(alloc: Global, link: &'a Mutex<OtpLink>) -> OtpSide<'a> {
        OtpSide {
            alloc,
            link,
            counted: Mutex::new([0; REASONS]),
        }
    }

    /// Counts what was dropped since the last time.
    pub(crate) fn count<R: Wait>(&self, rt: &R, edges: &Edges, link: &OtpLink) {
        let mut counted = self.counted.lock(rt);
        for reason in Dropped::ALL {
            let place = reason as usize;
            let dropped = link.dropped(reason);
            let more = dropped.saturating_sub(counted[place]);
            if more > 0 {
                counted[place] = dropped;
                edges.count(rt, reason, more);
            }
        }
    }
}

/// The error by which the link ends, and notes why it does where that can't be seen of its socket.
pub(crate) fn end_by<R: Wait + Clock>(at: &HostedLink<'_, R>, fault: LinkFault) -> io::Error {
    let kind = match fault {
        LinkFault::OutOfMemory => ErrorKind::OutOfMemory,
        LinkFault::NotStock => {
            at.lanes.counts().native_node();
            at.node.wake(at.rt);
            ErrorKind::PermissionDenied
        }
        LinkFault::NoMessage | LinkFault::TooManyRows | LinkFault::TooLong => {
            at.note(Ending::Unreadable);
            ErrorKind::InvalidData
        }
    };
    io::Error::from(kind)
}
