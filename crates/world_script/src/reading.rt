//! What a line of a world's script says.
ghost use Rattle.std.specs.Prelude.{◌≡◌, IfOk, IfErr, Some};
ghost use Rattle.std.specs.Str.{bytes_eq};
ghost use Rattle.pg_text.specs.Arguments.{both};
ghost use Rattle.pg_text.specs.Faults.{IsUnread};
ghost use Rattle.pg_text.specs.WordsLeft.{words_left};
ghost use Rattle.pg_text.specs.Words.{number_of};
ghost use Rattle.world_script.specs.WorldLines.{asked_by, node_line, wire_line, call_of, event_of, dial_of, side_of};

use crate::opening_words::opening;
use crate::world_line::WorldLine;
use dist_types::NodeName;
use pg_text::{Command, LineFault, both, first, first_word, nothing, only, only_word, parse};
use pg_world::Side;
use policy_audit::Event;
use std::alloc::Global;

/// What a line that is not quiet asks for.
pub fn read_world_line(alloc: Global, line: &[u8]) -> Result<WorldLine, LineFault>
    ensures ok { IfOk result (λ said. asked_by line.now ≡ Some said) }
    ensures fault { IfErr result (λ fault. IsUnread fault (asked_by line.now)) }
{
    let (name, words) = first_word(line);
    node_line(alloc, name, words)
}

/// A line about nodes, or one about wires.
fn node_line(alloc: Global, name: &[u8], words: Option<&[u8]>) -> Result<WorldLine, LineFault>
    ensures ok { IfOk result (λ said. node_line name.now (words_left words.entry) ≡ Some said) }
    ensures fault { IfErr result (λ fault.
        IsUnread fault (node_line name.now (words_left words.entry))) }
{
    Ok(if is(name, "node") {
        WorldLine::Node(opening(alloc, words)?)
    } else if is(name, "at") {
        let (node, event) = call(alloc, words)?;
        WorldLine::At { node, event }
    } else if is(name, "seat") {
        WorldLine::Seat(only(alloc, words)?)
    } else if is(name, "restart") {
        WorldLine::Restart(only(alloc, words)?)
    } else if is(name, "show") {
        let (scope, group) = both(alloc, words)?;
        WorldLine::Show(scope, group)
    } else {
        return wire_line(alloc, name, words);
    })
}

/// A line about wires.
fn wire_line(alloc: Global, name: &[u8], words: Option<&[u8]>) -> Result<WorldLine, LineFault>
    ensures ok { IfOk result (λ said. wire_line name.now (words_left words.entry) ≡ Some said) }
    ensures fault { IfErr result (λ fault.
        IsUnread fault (wire_line name.now (words_left words.entry))) }
{
    Ok(if is(name, "dial") {
        dial(alloc, words)?
    } else if is(name, "accept") {
        let (wire, challenge) = both(alloc, words)?;
        WorldLine::Accept { wire, challenge }
    } else if is(name, "hand") {
        let (wire, side) = wire_side(alloc, words)?;
        WorldLine::Hand { wire, side }
    } else if is(name, "deliver") {
        let (wire, side) = wire_side(alloc, words)?;
        WorldLine::Deliver { wire, side }
    } else if is(name, "cut") {
        let (wire, side) = wire_side(alloc, words)?;
        WorldLine::Cut { wire, side }
    } else if is(name, "settle") {
        nothing(words)?;
        WorldLine::Settle
    } else {
        return Err(LineFault::Script);
    })
}

/// A node, and the event of a command.
fn call(alloc: Global, words: Option<&[u8]>) -> Result<(NodeName, Event), LineFault>
    ensures ok { IfOk result (λ said. call_of (words_left words.entry) ≡ Some said) }
    ensures fault { IfErr result (λ fault. IsUnread fault (call_of (words_left words.entry))) }
{
    let (node, rest) = first(alloc, words)?;
    let event = event_of(alloc, rest)?;
    Ok((node, event))
}

/// The event of a command.
fn event_of(alloc: Global, words: Option<&[u8]>) -> Result<Event, LineFault>
    ensures ok { IfOk result (λ said. event_of (words_left words.entry) ≡ Some said) }
    ensures fault { IfErr result (λ fault. IsUnread fault (event_of (words_left words.entry))) }
{
    let Some(command) = words else {
        return Err(LineFault::Script);
    };
    match parse(alloc, command)? {
        Command::Step(event) => Ok(event),
        _ => Err(LineFault::Script),
    }
}

/// Who dials whom, with which challenge.
fn dial(alloc: Global, words: Option<&[u8]>) -> Result<WorldLine, LineFault>
    ensures ok { IfOk result (λ said. dial_of (words_left words.entry) ≡ Some said) }
    ensures fault { IfErr result (λ fault. IsUnread fault (dial_of (words_left words.entry))) }
{
    let (from, rest) = first(alloc, words)?;
    let (to, challenge) = both(alloc, rest)?;
    Ok(WorldLine::Dial {
        from,
        to,
        challenge,
    })
}

/// A wire, and a side of it.
fn wire_side(alloc: Global, words: Option<&[u8]>) -> Result<(u32, Side), LineFault>
    ensures ok { IfOk result (λ said. both number_of side_of (words_left words.entry) ≡ Some said) }
    ensures fault { IfErr result (λ fault.
        IsUnread fault (both number_of side_of (words_left words.entry))) }
{
    let (wire, rest) = first(alloc, words)?;
    let Some(word) = only_word(rest) else {
        return Err(LineFault::Script);
    };
    let side = side(word)?;
    Ok((wire, side))
}

/// The side that a word names.
fn side(word: &[u8]) -> Result<Side, LineFault>
    ensures ok { IfOk result (λ said. side_of word.now ≡ Some said) }
    ensures fault { IfErr result (λ fault. IsUnread fault (side_of word.now)) }
{
    if is(word, "dialler") {
        Ok(Side::Dialler)
    } else if is(word, "acceptor") {
        Ok(Side::Acceptor)
    } else {
        Err(LineFault::Script)
    }
}

/// Whether a word is this one.
pub(crate) fn is(word: &[u8], text: &str) -> bool
    ensures { result ≡ bytes_eq word.now text.now }
{
    word == text.as_bytes()
}
