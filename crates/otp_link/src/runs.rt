//! Whose frames of a handshake come.
ghost use Rattle.std.specs.Prelude.{◌≡◌, ℕ, true, IfOk, IfSome, IsSomeAnd};
ghost use Rattle.otp_link.specs.Known.{IsRunOf};
ghost use Rattle.otp_link.specs.Offer.{IsBare, SaysFlags, SaysRun};

use dist_types::{Flags, NodeName, OutOfMemory, TextFault};
use handshake_frames::{decode_challenge, decode_name};
use otp_edge::Run;
use std::alloc::Global;

/// The bytes of a Name before its name, and of a Challenge.
const NAME_HEAD: usize = 15;

const CHALLENGE_HEAD: usize = 19;

/// What a Name or a Challenge says of its node.
#[derive(Clone, Copy, Debug)]
pub(crate) struct Said<'a> {
    pub(crate) flags: Flags,
    pub(crate) creation: u32,
    pub(crate) name: &'a [u8],
    /// Nothing stands behind the name.
    pub(crate) is_bare: bool,
}

/// Reads the frame in which an end says its name: a Challenge, or a Name.
pub(crate) fn said_in(body: &[u8], is_challenge: bool) -> Option<Said<'_>>
    ensures found { IfSome result (λ said. SaysFlags is_challenge body.now said.flags.0) }
    ensures only { (flags : ℕ) → SaysFlags is_challenge body.now flags →
        IsSomeAnd result (λ said. said.flags.0 ≡ flags) }
    ensures run { IfSome result (λ said.
        SaysRun is_challenge body.now said.name.now said.creation) }
    ensures bare { IfSome result (λ said. said.is_bare ≡ true → IsBare is_challenge body.now) }
    ensures only_bare { IsBare is_challenge body.now →
        IsSomeAnd result (λ said. said.is_bare ≡ true) }
{
    if is_challenge {
        let Ok(frame) = decode_challenge(body) else {
            return None;
        };
        return Some(Said {
            flags: frame.flags,
            creation: frame.creation,
            name: frame.name,
            is_bare: frame.name.len() + CHALLENGE_HEAD == body.len(),
        });
    }
    let Ok(frame) = decode_name(body) else {
        return None;
    };
    Some(Said {
        flags: frame.flags,
        creation: frame.creation,
        name: frame.name,
        is_bare: frame.name.len() + NAME_HEAD == body.len(),
    })
}

/// The run of a node: none where its name is none, which is refused by the node here.
pub(crate) fn run_of(alloc: Global, said: &Said<'_>) -> Result<Option<Run>, OutOfMemory>
    ensures { IfOk result (IsRunOf said.now.name.now said.now.creation) }
{
    match NodeName::parse(alloc, said.name) {
        Ok(node) => Ok(Some(Run {
            node,
            creation: said.creation,
        })),
        Err(TextFault::OutOfMemory) => Err(OutOfMemory),
        Err(_) => Ok(None),
    }
}
