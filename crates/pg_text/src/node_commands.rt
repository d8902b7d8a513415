//! Commands on the node, its scopes and its processes.
ghost use Rattle.std.specs.Prelude.{◌≡◌, IfOk, IfErr, Some};
ghost use Rattle.pg_text.specs.Commands.{node_command, scope_command};
ghost use Rattle.pg_text.specs.Faults.{IsUnread};
ghost use Rattle.pg_text.specs.WordsLeft.{words_left};

use crate::arguments::{both, each, named, only};
use crate::command::{Command, LineFault, nothing};
use crate::query_commands::query_command;
use crate::words::is;
use policy_audit::Event;
use std::alloc::Global;

/// A command on the node, or one on scopes.
pub fn node_command(alloc: Global, name: &[u8], words: Option<&[u8]>) -> Result<Command, LineFault>
    ensures ok { IfOk result (λ command. node_command name.now (words_left words.entry)
        ≡ Some command) }
    ensures fault { IfErr result (λ fault.
        IsUnread fault (node_command name.now (words_left words.entry))) }
{
    let event = if is(name, "restart") {
        nothing(words)?;
        Event::Restart
    } else if is(name, "cookie") {
        Event::SetCookie(only(alloc, words)?)
    } else if is(name, "cookie_for") {
        let (peer, cookie) = both(alloc, words)?;
        Event::SetCookieFor(peer, cookie)
    } else if is(name, "allow") {
        Event::Allow(each(alloc, words)?)
    } else {
        return scope_command(alloc, name, words);
    };
    Ok(Command::Step(event))
}

/// A command on scopes and processes, or a query.
pub fn scope_command(alloc: Global, name: &[u8], words: Option<&[u8]>) -> Result<Command, LineFault>
    ensures ok { IfOk result (λ command. scope_command name.now (words_left words.entry)
        ≡ Some command) }
    ensures fault { IfErr result (λ fault.
        IsUnread fault (scope_command name.now (words_left words.entry))) }
{
    let event = if is(name, "start") {
        Event::StartScope(only(alloc, words)?)
    } else if is(name, "stop") {
        Event::StopScope(only(alloc, words)?)
    } else if is(name, "spawn") {
        nothing(words)?;
        Event::Spawn
    } else if is(name, "exit") {
        Event::Exit(only(alloc, words)?)
    } else if is(name, "join") {
        let (scope, group, pids) = named(alloc, words)?;
        Event::Join(scope, group, pids)
    } else if is(name, "leave") {
        let (scope, group, pids) = named(alloc, words)?;
        Event::Leave(scope, group, pids)
    } else {
        return query_command(alloc, name, words);
    };
    Ok(Command::Step(event))
}
