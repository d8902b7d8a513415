//! What is known of the links of a life beside the node, and so why they were lost.
use crate::hub::Hub;
use crate::signals::Signals;
use dial_targets::PeerKind;
use link_notes::{Ending, Notes};
use node_core::NodeCore;
use pg_ledger::KnownLinks;
use pg_session::LostLinks;
use pg_text::DownReason;
use std::net::SocketAddr;
use std::sync::Wait;

/// What the links of this life tell beside the node.
#[derive(Clone, Copy, Drop)]
pub(crate) struct LinkNotes<'a> {
    notes: &'a Notes,
    signals: &'a Signals,
}

impl Hub {
    pub(crate) fn link_notes(&self) -> LinkNotes<'_> {
        LinkNotes {
            notes: &self.notes,
            signals: &self.signals,
        }
    }
}

impl KnownLinks for LinkNotes<'_> {
    fn address<R: Wait>(&self, rt: &R, link: u32) -> Option<SocketAddr> {
        self.notes.addresses.of(rt, link)
    }

    fn kind<R: Wait>(&self, rt: &R, link: u32) -> PeerKind {
        self.notes.edges.kind_of(rt, link)
    }

    /// Why a link was lost. Those that are lost at the end of a life are so because the node begins
    /// anew.
    fn reason<R: Wait>(&self, rt: &R, link: u32) -> DownReason {
        if self.signals.is_turning() {
            return DownReason::Restarted;
        }
        match self.notes.endings.of(rt, link) {
            Ending::Closed => DownReason::Closed,
            Ending::Unreadable => DownReason::Unreadable,
            Ending::Silent => DownReason::Silent,
            Ending::Slow => DownReason::Slow,
        }
    }
}

/// The links of a node that were lost.
#[derive(Drop)]
pub(crate) struct Lost<'a, R: Wait> {
    pub(crate) rt: &'a R,
    pub(crate) links: LinkNotes<'a>,
}

impl<R: Wait> LostLinks for Lost<'_, R> {
    fn reason(&self, _core: &NodeCore, link: u32) -> DownReason {
        self.links.reason(self.rt, link)
    }
}
