//! What the words behind a command say.
ghost use Rattle.std.specs.Prelude.{◌≡◌, Some, IfOk, IfErr};
ghost use Rattle.pg_text.specs.Arguments.{first, only, both, each, named};
ghost use Rattle.pg_text.specs.Faults.{IsUnread};
ghost use Rattle.pg_text.specs.WordsLeft.{words_left};

use crate::argument::Argument;
use crate::command::LineFault;
use crate::words::{next_word, only_word};
use dist_types::{Group, Items, Pids, Scope};
use std::alloc::Global;

/// What the first word says, and the words behind it.
pub fn first<A: Argument>(
    alloc: Global,
    words: Option<&[u8]>,
) -> Result<(A, Option<&[u8]>), LineFault>
    ensures ok { IfOk result (λ said. first A.read (words_left words.entry)
        ≡ Some (said.0, words_left said.1)) }
    ensures fault { IfErr result (λ fault. IsUnread fault (first A.read (words_left words.entry))) }
{
    let Some((word, rest)) = next_word(words) else {
        return Err(LineFault::Script);
    };
    let said = A::of_word(alloc, word)?;
    Ok((said, rest))
}

/// What the only word says.
pub fn only<A: Argument>(alloc: Global, words: Option<&[u8]>) -> Result<A, LineFault>
    ensures ok { IfOk result (λ said. only A.read (words_left words.entry) ≡ Some said) }
    ensures fault { IfErr result (λ fault. IsUnread fault (only A.read (words_left words.entry))) }
{
    let Some(word) = only_word(words) else {
        return Err(LineFault::Script);
    };
    A::of_word(alloc, word)
}

/// What two words say.
pub fn both<A: Argument + Drop, B: Argument>(
    alloc: Global,
    words: Option<&[u8]>,
) -> Result<(A, B), LineFault>
    ensures ok { IfOk result (λ said. both A.read B.read (words_left words.entry) ≡ Some said) }
    ensures fault { IfErr result (λ fault.
        IsUnread fault (both A.read B.read (words_left words.entry))) }
{
    let (said, rest) = first::<A>(alloc, words)?;
    let second = only::<B>(alloc, rest)?;
    Ok((said, second))
}

/// What each word says, any number of them.
pub fn each<A: Argument + Drop>(alloc: Global, words: Option<&[u8]>) -> Result<Items<A>, LineFault>
    ensures ok { IfOk result (λ said. each A.read (words_left words.entry) ≡ Some said) }
    ensures fault { IfErr result (λ fault. IsUnread fault (each A.read (words_left words.entry))) }
{
    // Most lists are of one.
    let mut items = Vec::with_capacity(alloc, 1)?;
    let mut rest = words;
    while let Some((word, behind)) = next_word(rest) {
        items.push(A::of_word(alloc, word)?)?;
        rest = behind;
    }
    items.shrink_to_fit();
    Ok(Items::of(items))
}

/// A scope, a group, and any number of processes.
pub fn named(alloc: Global, words: Option<&[u8]>) -> Result<(Scope, Group, Pids), LineFault>
    ensures ok { IfOk result (λ said. named (words_left words.entry) ≡ Some said) }
    ensures fault { IfErr result (λ fault. IsUnread fault (named (words_left words.entry))) }
{
    let (scope, rest) = first(alloc, words)?;
    let (group, rest) = first(alloc, rest)?;
    let pids = each(alloc, rest)?;
    Ok((scope, group, pids))
}
