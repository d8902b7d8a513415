//! What an event asks for: rows, a link, processes.
ghost use Rattle.std.specs.Prelude.{◌≡◌, IfSome, IsNone, false};
ghost use Rattle.node_core.specs.Calm.{is_query};
ghost use Rattle.node_core.specs.Reading.{event_of};
ghost use Rattle.pg_text.specs.Asked.{speaks_for_link, moved_pids};

use dist_types::{Pid, Scope};
use node_core::Query;
use policy_audit::Event;
use std::slice::from_ref;

/// What an event asks of the rows of a scope, if it is a query: `NodeCore::look` answers it without
/// an entry.
pub fn query_of(event: &Event) -> Option<(&Scope, Query<'_>)>
    ensures found { IfSome result (λ asked. event.now ≡ event_of asked.0.now asked.1) }
    ensures none { IsNone result → is_query event.now ≡ false }
{
    match event {
        Event::Members(scope, group) => Some((scope, Query::Members(group))),
        Event::LocalMembers(scope, group) => Some((scope, Query::LocalMembers(group))),
        Event::Groups(scope) => Some((scope, Query::Groups)),
        Event::LocalGroups(scope) => Some((scope, Query::LocalGroups)),
        _ => None,
    }
}

/// Whether an event opens a link, brings or takes the frames of one, or says that one is gone.
pub fn speaks_for_link(event: &Event) -> bool
    ensures { result ≡ speaks_for_link event.now }
{
    match event {
        Event::Dial(_, _)
        | Event::Opened(_)
        | Event::Lost(_)
        | Event::Take(_)
        | Event::Frame(_, _) => true,
        _ => false,
    }
}

/// The processes that an event makes exit, join or leave.
pub fn moved_pids(event: &Event) -> &[Pid]
    ensures { result.now ≡ moved_pids event.now }
{
    match event {
        Event::Exit(pid) => from_ref(pid),
        Event::Join(_, _, pids) | Event::Leave(_, _, pids) => pids.as_slice(),
        _ => &[],
    }
}
