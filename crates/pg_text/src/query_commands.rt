//! Commands that ask for members and groups, once or from now on.
ghost use Rattle.std.specs.Prelude.{◌≡◌, IfOk, IfErr, Some};
ghost use Rattle.pg_text.specs.Commands.{query_command, monitor_command};
ghost use Rattle.pg_text.specs.Faults.{IsUnread};
ghost use Rattle.pg_text.specs.WordsLeft.{words_left};

use crate::arguments::{both, only};
use crate::command::{Command, LineFault};
use crate::link_commands::link_command;
use crate::words::is;
use policy_audit::Event;
use std::alloc::Global;

/// A query, or a command on monitors.
pub fn query_command(alloc: Global, name: &[u8], words: Option<&[u8]>) -> Result<Command, LineFault>
    ensures ok { IfOk result (λ command. query_command name.now (words_left words.entry)
        ≡ Some command) }
    ensures fault { IfErr result (λ fault.
        IsUnread fault (query_command name.now (words_left words.entry))) }
{
    let event = if is(name, "members") {
        let (scope, group) = both(alloc, words)?;
        Event::Members(scope, group)
    } else if is(name, "local_members") {
        let (scope, group) = both(alloc, words)?;
        Event::LocalMembers(scope, group)
    } else if is(name, "groups") {
        Event::Groups(only(alloc, words)?)
    } else if is(name, "local_groups") {
        Event::LocalGroups(only(alloc, words)?)
    } else {
        return monitor_command(alloc, name, words);
    };
    Ok(Command::Step(event))
}

/// A command on monitors, or one on links.
pub fn monitor_command(
    alloc: Global,
    name: &[u8],
    words: Option<&[u8]>,
) -> Result<Command, LineFault>
    ensures ok { IfOk result (λ command. monitor_command name.now (words_left words.entry)
        ≡ Some command) }
    ensures fault { IfErr result (λ fault.
        IsUnread fault (monitor_command name.now (words_left words.entry))) }
{
    let event = if is(name, "monitor") {
        let (scope, group) = both(alloc, words)?;
        Event::Monitor(scope, group)
    } else if is(name, "monitor_scope") {
        Event::MonitorScope(only(alloc, words)?)
    } else if is(name, "demonitor") {
        Event::Demonitor(only(alloc, words)?)
    } else if is(name, "updates") {
        Event::Updates(only(alloc, words)?)
    } else {
        return link_command(alloc, name, words);
    };
    Ok(Command::Step(event))
}
