//! The rules of the handshake.

/// Why a handshake ends.
#[derive(Clone, Copy, Debug, PartialEq, Eq)]
pub enum StateRule {
    /// The body isn't the frame that the state awaits.
    BadFrame,
    /// The peer doesn't speak version 6 of the handshake.
    NoHandshake23,
    /// The peer asks to be given a name.
    DynamicName,
    /// The peer's name isn't within the limits of a name.
    BadName,
    /// The peer has the node's own name.
    OwnName,
    /// The challenge frame isn't from the node that was dialled.
    WrongName,
    /// Some names are allowed, and the peer's isn't one of them.
    NotAllowed,
    /// Both ends dial each other, and the node's own name is the greater one.
    Simultaneous,
    /// The status that the peer sent doesn't let the handshake go on.
    PeerSaid,
    /// The digest isn't that of the cookie and the own challenge.
    BadDigest,
    /// A link of the peer is up, so that no other is wanted.
    LinkUp,
}
