//! Commands on links, and those without an event.
ghost use Rattle.std.specs.Prelude.{◌≡◌, IfOk, IfErr, Some};
ghost use Rattle.pg_text.specs.Commands.{link_command, console_command};
ghost use Rattle.pg_text.specs.Faults.{IsUnread};
ghost use Rattle.pg_text.specs.WordsLeft.{words_left};

use crate::arguments::{both, only};
use crate::command::{Command, LineFault, nothing};
use crate::words::is;
use policy_audit::Event;
use std::alloc::Global;

/// A command on links, or one of the console.
pub fn link_command(alloc: Global, name: &[u8], words: Option<&[u8]>) -> Result<Command, LineFault>
    ensures ok { IfOk result (λ command. link_command name.now (words_left words.entry)
        ≡ Some command) }
    ensures fault { IfErr result (λ fault.
        IsUnread fault (link_command name.now (words_left words.entry))) }
{
    let event = if is(name, "dial") {
        let (peer, challenge) = both(alloc, words)?;
        Event::Dial(peer, challenge)
    } else if is(name, "opened") {
        Event::Opened(only(alloc, words)?)
    } else if is(name, "lost") {
        Event::Lost(only(alloc, words)?)
    } else if is(name, "take") {
        Event::Take(only(alloc, words)?)
    } else if is(name, "disconnect") {
        Event::Disconnect(only(alloc, words)?)
    } else if is(name, "frame") {
        let (link, body) = both(alloc, words)?;
        Event::Frame(link, body)
    } else {
        return console_command(alloc, name, words);
    };
    Ok(Command::Step(event))
}

/// A command without an event.
pub fn console_command(
    alloc: Global,
    name: &[u8],
    words: Option<&[u8]>,
) -> Result<Command, LineFault>
    ensures ok { IfOk result (λ command. console_command name.now (words_left words.entry)
        ≡ Some command) }
    ensures fault { IfErr result (λ fault.
        IsUnread fault (console_command name.now (words_left words.entry))) }
{
    if is(name, "seat") {
        Ok(Command::Seat(only(alloc, words)?))
    } else if is(name, "size") {
        nothing(words)?;
        Ok(Command::Size)
    } else if is(name, "audit") {
        Ok(Command::Audit(only(alloc, words)?))
    } else {
        Err(LineFault::Script)
    }
}
