//! The words behind `node`.
ghost use Rattle.std.specs.Prelude.{◌≡◌, IfOk, IfErr, Some};
ghost use Rattle.pg_text.specs.Faults.{IsUnread};
ghost use Rattle.pg_text.specs.WordsLeft.{words_left};
ghost use Rattle.world_script.specs.WorldLines.{opening_of, settings_of, version_of};
ghost use Rattle.world_script.specs.WorldLines.{is_next, without, number_behind};

use crate::reading::is;
use pg_text::{LineFault, first, next_word, nothing};
use policy_audit::Opening;
use std::alloc::Global;

/// The creation of a node that says none.
const CREATION: u32 = 1;

/// The most entries of a node's audit, where it says none.
const ENTRIES: u32 = 1_000_000;

/// The version of link messages that a node knows, where it says none.
const LINKS: u32 = 1;

/// What follows the name and the cookie of a node.
struct Settings {
    hidden: bool,
    creation: u32,
    entries: u32,
    links: u8,
}

/// `NAME COOKIE [hidden] [creation N] [entries N] [links N]`, with one entry at least and a version
/// of link messages.
pub fn opening(alloc: Global, words: Option<&[u8]>) -> Result<Opening, LineFault>
    ensures ok { IfOk result (λ said. opening_of (words_left words.entry) ≡ Some said) }
    ensures fault { IfErr result (λ fault. IsUnread fault (opening_of (words_left words.entry))) }
{
    let (name, rest) = first(alloc, words)?;
    let (cookie, rest) = first(alloc, rest)?;
    let Settings {
        hidden,
        creation,
        entries,
        links,
    } = read_settings(alloc, rest)?;
    Ok(Opening {
        name,
        cookie,
        hidden,
        creation,
        entries,
        links,
    })
}

/// `[hidden] [creation N] [entries N] [links N]`, and nothing behind.
fn read_settings(alloc: Global, words: Option<&[u8]>) -> Result<Settings, LineFault>
    ensures ok { IfOk result (λ said. settings_of (words_left words.entry) ≡ Some said) }
    ensures fault { IfErr result (λ fault. IsUnread fault (settings_of (words_left words.entry))) }
{
    let (hidden, rest) = flag("hidden", words);
    let (creation, rest) = number_behind(alloc, "creation", CREATION, rest)?;
    let (entries, rest) = number_behind(alloc, "entries", ENTRIES, rest)?;
    let (links, rest) = number_behind(alloc, "links", LINKS, rest)?;
    nothing(rest)?;
    if entries == 0 {
        return Err(LineFault::Script);
    }
    Ok(Settings {
        hidden,
        creation,
        entries,
        links: version(links)?,
    })
}

/// The version of link messages that a number names.
fn version(number: u32) -> Result<u8, LineFault>
    ensures ok { IfOk result (λ said. version_of number ≡ Some said) }
    ensures fault { IfErr result (λ fault. IsUnread fault (version_of number)) }
{
    match number {
        1 => Ok(1),
        2 => Ok(2),
        _ => Err(LineFault::Script),
    }
}

/// Whether this word is next, and the words behind it.
fn flag<'a>(word: &str, words: Option<&'a [u8]>) -> (bool, Option<&'a [u8]>)
    ensures is { result.0 ≡ is_next word.now (words_left words.entry) }
    ensures left { words_left result.1 ≡ without word.now (words_left words.entry) }
{
    match next_word(words) {
        Some((next, rest)) if is(next, word) => (true, rest),
        _ => (false, words),
    }
}

/// The number behind this word, where the word is next, else this number; and the words behind.
fn number_behind<'a>(
    alloc: Global,
    word: &str,
    default: u32,
    words: Option<&'a [u8]>,
) -> Result<(u32, Option<&'a [u8]>), LineFault>
    ensures ok { IfOk result (λ said. number_behind word.now default (words_left words.entry)
        ≡ Some (said.0, words_left said.1)) }
    ensures fault { IfErr result (λ fault.
        IsUnread fault (number_behind word.now default (words_left words.entry))) }
{
    let (found, rest) = flag(word, words);
    if found {
        first(alloc, rest)
    } else {
        Ok((default, rest))
    }
}
