//! What an event is to the connection that asks for it by a line.
ghost use Rattle.std.specs.Prelude.{◌≡◌};
ghost use Rattle.node_core.specs.Calm.{is_query};
ghost use Rattle.pg_text.specs.Asked.{moved_pids};
ghost use Rattle.pg_session.specs.Asked.{is_call};
ghost use Rattle.pg_session.specs.Processes.{exited_by};
ghost use Rattle.pg_session.specs.Kinds.{reads, calls, moved, exits, stake_by, stake_of};

use dist_types::{Group, Pid, Scope};
use policy_audit::Event;
use std::slice::from_ref;

/// What an event is to a connection, with the processes and monitors that it is about.
#[derive(Clone, Copy)]
pub enum Kind<'a> {
    /// It reads rows, and makes no entry.
    Query,
    /// A process exits.
    Exit(&'a Pid),
    /// Processes join or leave.
    Move(&'a [Pid]),
    /// A monitor begins, of a group or of all groups of a scope.
    Monitor(&'a Scope, Option<&'a Group>),
    /// A monitor ends.
    Demonitor(u32),
    /// A call that is about none of these.
    Call,
    /// No line may ask for it: it speaks for a link, ends a life of the node, or is asked unasked.
    Barred,
}

impl<'a> Kind<'a> {
    pub fn of(event: &'a Event) -> Kind<'a>
        ensures query { reads result ≡ is_query event.now }
        ensures call { calls result ≡ is_call event.now }
        ensures moved { moved result ≡ moved_pids event.now }
        ensures exits { exits result ≡ exited_by event.now }
        ensures stake { stake_of result ≡ stake_by event.now }
    {
        match event {
            Event::Members(_, _)
            | Event::LocalMembers(_, _)
            | Event::Groups(_)
            | Event::LocalGroups(_) => Kind::Query,
            Event::Exit(pid) => Kind::Exit(pid),
            Event::Join(_, _, pids) | Event::Leave(_, _, pids) => Kind::Move(pids.as_slice()),
            Event::Monitor(scope, group) => Kind::Monitor(scope, Some(group)),
            Event::MonitorScope(scope) => Kind::Monitor(scope, None),
            Event::Demonitor(number) => Kind::Demonitor(*number),
            Event::SetCookie(_)
            | Event::SetCookieFor(_, _)
            | Event::Allow(_)
            | Event::StartScope(_)
            | Event::StopScope(_)
            | Event::Spawn
            | Event::Disconnect(_) => Kind::Call,
            _ => Kind::Barred,
        }
    }

    /// The processes that exit, join or leave.
    pub fn pids(self) -> &'a [Pid]
        ensures { result.now ≡ moved self.entry }
    {
        match self {
            Kind::Exit(pid) => from_ref(pid),
            Kind::Move(pids) => pids,
            _ => &[],
        }
    }
}
