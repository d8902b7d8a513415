//! The kinds of events, as an answer names them.
ghost use Rattle.std.specs.Prelude.{◌≡◌};
ghost use Rattle.pg_text.specs.Kinds.{kind_text};

use policy_audit::Event;

/// The kind of an event, without its arguments: no cookie is told.
pub fn kind(event: &Event) -> &'static str
    ensures { result.now ≡ kind_text event.now }
{
    match event {
        Event::Restart => "Restart",
        Event::SetCookie(_) => "SetCookie",
        Event::SetCookieFor(_, _) => "SetCookieFor",
        Event::Allow(_) => "Allow",
        Event::StartScope(_) => "StartScope",
        Event::StopScope(_) => "StopScope",
        Event::Spawn => "Spawn",
        Event::Exit(_) => "Exit",
        Event::Join(_, _, _) => "Join",
        Event::Leave(_, _, _) => "Leave",
        Event::Members(_, _) => "Members",
        Event::LocalMembers(_, _) => "LocalMembers",
        Event::Groups(_) => "Groups",
        Event::LocalGroups(_) => "LocalGroups",
        Event::Monitor(_, _) => "Monitor",
        Event::MonitorScope(_) => "MonitorScope",
        Event::Demonitor(_) => "Demonitor",
        Event::Updates(_) => "Updates",
        Event::Dial(_, _) => "Dial",
        Event::Opened(_) => "Opened",
        Event::Lost(_) => "Lost",
        Event::Take(_) => "Take",
        Event::Disconnect(_) => "Disconnect",
        Event::Frame(_, _) => "Frame",
    }
}
