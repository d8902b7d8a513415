//! The flags of a node in its name frame and its challenge frame (Distribution Protocol,
//! Distribution Flags).
ghost use Rattle.std.specs.Prelude.{◌≡◌, ◌↔◌, IsTrue, IsBitSet};
ghost use Rattle.dist_types.specs.Flags.{has_bit, own_flags};

/// The flags of a node. Bits without a name here are ignored.
#[derive(Clone, Copy, Debug, PartialEq, Eq, Hash)]
pub struct Flags(pub u64);

impl Flags {
    const PUBLISHED: u64 = 1;

    const HANDSHAKE_23: u64 = 1 << 24;

    const NAME_ME: u64 = 1 << 33;

    /// The node isn't hidden.
    pub fn published(self) -> bool
        ensures set { IsTrue result ↔ IsBitSet self.0 0 }
        ensures value { result ≡ has_bit 0 self.0 }
    {
        self.0 & Self::PUBLISHED != 0
    }

    /// The node speaks version 6 of the handshake.
    pub fn handshake23(self) -> bool
        ensures set { IsTrue result ↔ IsBitSet self.0 24 }
        ensures value { result ≡ has_bit 24 self.0 }
    {
        self.0 & Self::HANDSHAKE_23 != 0
    }

    /// The node asks to be given a name.
    pub fn name_me(self) -> bool
        ensures set { IsTrue result ↔ IsBitSet self.0 33 }
        ensures value { result ≡ has_bit 33 self.0 }
    {
        self.0 & Self::NAME_ME != 0
    }

    /// The flags that a node of this program sends.
    pub fn own(hidden: bool) -> Flags
        ensures { result.0 ≡ own_flags hidden }
    {
        if hidden {
            Flags(Self::HANDSHAKE_23)
        } else {
            Flags(Self::HANDSHAKE_23 | Self::PUBLISHED)
        }
    }
}
