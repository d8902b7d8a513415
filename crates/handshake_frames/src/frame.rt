//! The frames of the handshake (Distribution Protocol, Distribution Handshake).
use dist_types::Flags;

/// The dialler's first frame: who it is. The name may be any bytes.
#[derive(Clone, Copy, Debug, PartialEq, Eq)]
pub struct NameFrame<'a> {
    pub flags: Flags,
    pub creation: u32,
    pub name: &'a [u8],
    /// The version of link messages that the sender knows: 2 where the name is followed by the byte
    /// 02 alone, else 1.
    pub version: u8,
}

/// The word of a status frame. The acceptor answers a name frame with one, and the dialler answers
/// `Alive`.
#[derive(Clone, Copy, Debug, PartialEq, Eq)]
pub enum StatusWord {
    /// The handshake goes on.
    Ok,
    /// The handshake goes on, and the acceptor gives up its own to the dialler.
    OkSimultaneous,
    /// The acceptor's own handshake to the dialler goes on, and this one ends.
    Nok,
    NotAllowed,
    /// The acceptor has a link to a node of the dialler's name.
    Alive,
    /// After `Alive`: the dialler wants the new link in place of that one.
    True,
    /// After `Alive`: the dialler gives up.
    False,
}

/// Who the acceptor is, and the number that it wants a digest for. The name may be any bytes.
#[derive(Clone, Copy, Debug, PartialEq, Eq)]
pub struct ChallengeFrame<'a> {
    pub flags: Flags,
    pub challenge: u32,
    pub creation: u32,
    pub name: &'a [u8],
    /// The version of link messages that the sender knows: 2 where the name is followed by the byte
    /// 02 alone, else 1.
    pub version: u8,
}

/// The dialler's own challenge, and its digest for the acceptor's.
#[derive(Clone, Copy, Debug, PartialEq, Eq)]
pub struct ReplyFrame {
    pub challenge: u32,
    pub digest: [u8; 16],
}

/// The acceptor's digest for the dialler's challenge.
#[derive(Clone, Copy, Debug, PartialEq, Eq)]
pub struct AckFrame {
    pub digest: [u8; 16],
}

/// A frame of the handshake, in the order in which they are sent.
#[derive(Clone, Copy, Debug, PartialEq, Eq)]
pub enum HsFrame<'a> {
    Name(NameFrame<'a>),
    Status(StatusWord),
    Challenge(ChallengeFrame<'a>),
    Reply(ReplyFrame),
    Ack(AckFrame),
}
