//! What a word can say.
ghost use Rattle.std.specs.Prelude.{◌≡◌, List, ℕ, Option, Some, IfOk, IfErr};
ghost use Rattle.pg_text.specs.Words.{number_of, text_of, name_of, pid_of, body_of};
ghost use Rattle.pg_text.specs.Faults.{IsUnread};

use crate::command::LineFault;
use crate::values::{cut, long_number, number};
use dist_types::{Body, Cookie, Group, NodeName, Pid, Scope};
use hex::FromHexError;
use std::alloc::Global;

/// A value that one word says.
pub trait Argument: Sized {
    ghost read: { List ℕ → Option Self };

    fn of_word(alloc: Global, word: &[u8]) -> Result<Self, LineFault>
        ensures ok { IfOk result (λ said. read word.now ≡ Some said) }
        ensures fault { IfErr result (λ fault. IsUnread fault (read word.now)) };
}

impl Argument for u32 {
    ghost read = { number_of };

    fn of_word(_alloc: Global, word: &[u8]) -> Result<u32, LineFault> {
        number(word).ok_or(LineFault::Script)
    }
}

impl Argument for Scope {
    ghost read = { text_of };

    #[tactic(auto, using(crate::proofs::WordLemmas::text_read))]
    fn of_word(alloc: Global, word: &[u8]) -> Result<Scope, LineFault> {
        Ok(Scope::parse(alloc, word)?)
    }
}

impl Argument for Group {
    ghost read = { text_of };

    #[tactic(auto, using(crate::proofs::WordLemmas::text_read))]
    fn of_word(alloc: Global, word: &[u8]) -> Result<Group, LineFault> {
        Ok(Group::parse(alloc, word)?)
    }
}

impl Argument for Cookie {
    ghost read = { text_of };

    #[tactic(auto, using(crate::proofs::WordLemmas::text_read))]
    fn of_word(alloc: Global, word: &[u8]) -> Result<Cookie, LineFault> {
        Ok(Cookie::parse(alloc, word)?)
    }
}

impl Argument for NodeName {
    ghost read = { name_of };

    fn of_word(alloc: Global, word: &[u8]) -> Result<NodeName, LineFault> {
        Ok(NodeName::parse(alloc, word)?)
    }
}

impl Argument for Pid {
    ghost read = { pid_of };

    /// A process is written `name/creation/number`. The name may have slashes too.
    fn of_word(alloc: Global, word: &[u8]) -> Result<Pid, LineFault> {
        if let Some((front, last)) = cut(word)
            && let Some((name, middle)) = cut(front)
            && let Some(creation) = number(middle)
            && let Some(number) = long_number(last)
        {
            let node = NodeName::of_word(alloc, name)?;
            Ok(Pid {
                node,
                creation,
                number,
            })
        } else {
            Err(LineFault::Script)
        }
    }
}

impl Argument for Body {
    ghost read = { body_of };

    fn of_word(alloc: Global, word: &[u8]) -> Result<Body, LineFault> {
        if word.is_empty() {
            return Err(LineFault::Script);
        }
        match hex::decode(alloc, word) {
            Ok(bytes) => Ok(Body::of(bytes)?),
            Err(FromHexError::OutOfMemory) => Err(LineFault::Memory),
            Err(_) => Err(LineFault::Script),
        }
    }
}
