//! What a line tells of an entry before its verdict.
use dist_types::NodeName;
use policy_audit::Event;

/// An event, but for a cookie that it sets.
#[derive(Debug, Drop, PartialEq, Eq)]
pub enum Asked {
    /// The cookie of the node, which the line doesn't tell.
    SetCookie,
    /// The cookie for this peer, which the line doesn't tell.
    SetCookieFor(NodeName),
    /// Any other event.
    Event(Event),
}

/// The number of an entry, from 1, its seat and its event.
#[derive(Debug, Drop, PartialEq, Eq)]
pub struct Told {
    pub number: u32,
    pub seat: u32,
    pub asked: Asked,
}
