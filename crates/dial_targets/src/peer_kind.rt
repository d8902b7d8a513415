//! Which nodes are at the other end of links.

/// Which nodes the links of a port or a dial lead to. It isn't guessed from what comes.
#[derive(Clone, Copy, Debug, PartialEq, Eq)]
pub enum PeerKind {
    /// Nodes of this program.
    Native,
    /// Stock nodes of Erlang/OTP, of whose hidden nodes this one is.
    Hidden,
    /// Stock nodes of Erlang/OTP, among whose nodes this one is.
    Visible,
}

impl PeerKind {
    /// Whether they lead to stock nodes of Erlang/OTP.
    pub fn is_otp(self) -> bool {
        self != PeerKind::Native
    }

    /// As one word, of a link that is up. Rows pass over no link that both ends aren't published
    /// on.
    pub fn word(self, is_published: bool) -> &'static str {
        match self {
            PeerKind::Native if is_published => "visible",
            PeerKind::Hidden if is_published => "otp_hidden",
            PeerKind::Visible if is_published => "otp_visible",
            _ => "hidden",
        }
    }
}
