//! The rules by which events are refused.
ghost use Rattle.std.specs.Prelude.{◌≡◌};
ghost use Rattle.policy_audit.specs.Rules.{rule_line};

use std::error::Error;
use std::fmt::{self, Display, Formatter, Write};

/// Why an event is refused: the first rule that it breaks, in the order of the rules for its kind.
#[derive(Clone, Copy, Debug, PartialEq, Eq)]
pub enum Rule {
    /// The audit has as many entries as it may have. This refusal makes no entry and ends no link.
    EntriesFull,
    /// The link isn't open; for `Lost` and `Take`, it isn't kept.
    NoSuchLink,
    /// The body isn't the frame that the link awaits.
    BadFrame,
    /// The peer doesn't speak version 6 of the handshake: flag bit 24 isn't set.
    NoHandshake23,
    /// The peer asks to be given a name: flag bit 33 is set.
    DynamicName,
    /// The peer's name isn't within the limits of a name.
    BadName,
    /// The name is the node's own.
    OwnName,
    /// The challenge came from another node than the one dialled.
    WrongName,
    /// Some name is allowed, and this one isn't.
    NotAllowed,
    /// An own dial to the peer is unfinished, and the own name is the greater.
    Simultaneous,
    /// The peer's status ends the handshake.
    PeerSaid,
    /// The digest isn't that of the cookie and the own challenge.
    BadDigest,
    /// One end of the link is hidden.
    HiddenLink,
    /// The scope isn't running here.
    NoScope,
    /// The peer has sent no rows of the scope on this link yet.
    NotHeard,
    /// Some row's process isn't of the peer, or of another creation.
    ForeignPid,
    /// Some process is named more often in a group than it is listed.
    NotListed,
    /// A node would have more rows in the scope than it may: 4,096, or 65,536 where they go in
    /// parts.
    RowsFull,
    /// Some process is of another node or creation.
    NotLocal,
    /// Some process isn't alive.
    NoProcess,
    /// No process of the list is joined to the group.
    NotJoined,
    /// The scope runs already.
    ScopeRunning,
    /// The seat has no monitor of that number.
    NoMonitor,
    /// A link of the peer is up.
    LinkUp,
    /// An own dial to the peer is unfinished.
    LinkPending,
    /// No link of the peer is up.
    NoLinkTo,
    /// 64 links are kept.
    LinksFull,
    /// 64 scopes run.
    ScopesFull,
    /// 65,536 processes live.
    PidsFull,
    /// More than 1,024 names would be allowed.
    AllowFull,
    /// More than 1,024 peers would have a cookie of their own.
    CookiesFull,
    /// The creation is the last one.
    CreationSpent,
    /// The part isn't the first of its message, and doesn't follow what was accepted last on its
    /// link.
    PartOrder,
}

impl Rule {
    /// The number of the rule, from 1.
    pub fn number(self) -> u32
        ensures { result ≡ (rule_line self).0 }
    {
        self.line().0
    }

    pub fn name(self) -> &'static str
        ensures { result.now ≡ (rule_line self).1 }
    {
        self.line().1
    }

    /// The table of the rules.
    fn line(self) -> (u32, &'static str)
        ensures number { result.0 ≡ (rule_line self).0 }
        ensures name { result.1.now ≡ (rule_line self).1 }
    {
        match self {
            Rule::EntriesFull => (1, "EntriesFull"),
            Rule::NoSuchLink => (2, "NoSuchLink"),
            Rule::BadFrame => (3, "BadFrame"),
            Rule::NoHandshake23 => (4, "NoHandshake23"),
            Rule::DynamicName => (5, "DynamicName"),
            Rule::BadName => (6, "BadName"),
            Rule::OwnName => (7, "OwnName"),
            Rule::WrongName => (8, "WrongName"),
            Rule::NotAllowed => (9, "NotAllowed"),
            Rule::Simultaneous => (10, "Simultaneous"),
            Rule::PeerSaid => (11, "PeerSaid"),
            Rule::BadDigest => (12, "BadDigest"),
            Rule::HiddenLink => (13, "HiddenLink"),
            Rule::NoScope => (14, "NoScope"),
            Rule::NotHeard => (15, "NotHeard"),
            Rule::ForeignPid => (16, "ForeignPid"),
            Rule::NotListed => (17, "NotListed"),
            Rule::RowsFull => (18, "RowsFull"),
            Rule::NotLocal => (19, "NotLocal"),
            Rule::NoProcess => (20, "NoProcess"),
            Rule::NotJoined => (21, "NotJoined"),
            Rule::ScopeRunning => (22, "ScopeRunning"),
            Rule::NoMonitor => (23, "NoMonitor"),
            Rule::LinkUp => (24, "LinkUp"),
            Rule::LinkPending => (25, "LinkPending"),
            Rule::NoLinkTo => (26, "NoLinkTo"),
            Rule::LinksFull => (27, "LinksFull"),
            Rule::ScopesFull => (28, "ScopesFull"),
            Rule::PidsFull => (29, "PidsFull"),
            Rule::AllowFull => (30, "AllowFull"),
            Rule::CookiesFull => (31, "CookiesFull"),
            Rule::CreationSpent => (32, "CreationSpent"),
            Rule::PartOrder => (33, "PartOrder"),
        }
    }
}

impl Display for Rule {
    fn fmt<W: Write>(&self, f: &mut Formatter<W>) -> fmt::Result {
        write!(f, "{} {}", self.number(), self.name())
    }
}

impl Error for Rule {}
