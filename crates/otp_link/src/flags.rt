//! The flags that a stock node asks for (Distribution Protocol, "Distribution Flags").
ghost use Rattle.std.specs.Prelude.{◌≡◌};
ghost use Rattle.otp_link.specs.Offer.{offered_flags, has_stock};

use dist_types::Flags;

/// Bits 0, 2 to 5, 7 to 11, 16 to 18, 24 to 26 and 34: the eleven that each node has to have, and
/// what lets a node watch processes here. Without a cache of atoms (bit 13) and fragments (bit 23)
/// bodies are passed through as they are.
const OFFERED: u64 = 0x4_0707_0FBD;

/// The same without bit 0: of a hidden link.
const OFFERED_HIDDEN: u64 = 0x4_0707_0FBC;

/// The eleven flags without which a stock node speaks with nobody: bits 2, 4, 7 to 11, 16 to 18
/// and 24.
const MANDATORY: u64 = 0x107_0F94;

/// Bit 26, which stands for all of them.
const SHORTHAND: u64 = 0x400_0000;

/// The flags in an own Name or Challenge.
pub fn offered(is_visible: bool) -> Flags
    ensures { result.0 ≡ offered_flags is_visible }
{
    if is_visible {
        Flags(OFFERED)
    } else {
        Flags(OFFERED_HIDDEN)
    }
}

/// Whether these are flags of a stock node.
pub fn is_stock(flags: Flags) -> bool
    ensures { result ≡ has_stock flags.0 }
{
    flags.0 & MANDATORY == MANDATORY || flags.0 & SHORTHAND != 0
}
