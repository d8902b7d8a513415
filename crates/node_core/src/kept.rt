//! What a node keeps beside its audit.
ghost use Rattle.std.specs.Prelude.{◌≡◌};
ghost use Rattle.group_monitors.specs.Follows.{Reaches};
ghost use Rattle.policy_audit.specs.History.{audited};
ghost use Rattle.node_core.specs.Step.{Call, IsTurn, Answers};

use crate::entering::Answered;
use crate::fault::CoreFault;
use crate::link::Link;
use crate::processes::Processes;
use crate::running::Running;
use admission_rules::Admission;
use group_monitors::Monitors;
use policy_audit::{Audit, Event, Opening};
use std::alloc::Global;

/// What follows the history of a node, and knows nothing of its entries.
pub struct Kept {
    pub alloc: Global,
    pub opening: Opening,
    pub admission: Admission,
    pub processes: Processes,
    /// Ascending by scope.
    pub scopes: Vec<Running>,
    /// Those that are kept, the oldest first.
    pub links: Vec<Link>,
    pub monitors: Monitors,
}

impl Drop for Kept {
    fn drop(self) {
        let Kept {
            alloc: _,
            opening: _,
            admission: _,
            processes: _,
            scopes: _,
            links: _,
            monitors: _,
        } = self;
    }
}

impl Kept {
    /// Answers an event of a seat, which will be the entry of this number, by the written policy,
    /// and follows it. Without memory nothing but room has changed.
    pub fn answer(
        &mut self,
        audit: &Audit,
        seat: u32,
        number: u32,
        event: &Event,
    ) -> Result<Answered, CoreFault>
        ghost call: { Call }
        requires turn { IsTurn call seat number self.old }
        requires audit { audit.now.entries ≡ audited call.past.entries }
        requires reach { Reaches audit.now.forgotten audit.now.entries }
        ensures { Answers call event.now self.new result }
    {
        match event {
            Event::Restart => self.restart(),
            Event::SetCookie(cookie) => self.set_cookie(cookie),
            Event::SetCookieFor(peer, cookie) => self.set_cookie_for(peer, cookie),
            Event::Allow(names) => self.allow(names),
            Event::StartScope(scope) => self.start_scope(scope),
            Event::StopScope(scope) => self.stop_scope(scope),
            Event::Spawn => self.spawn(),
            Event::Exit(pid) => self.exit(pid),
            Event::Join(scope, group, pids) => self.join(scope, group, pids),
            Event::Leave(scope, group, pids) => self.leave(scope, group, pids),
            Event::Members(scope, group) => self.members(scope, group),
            Event::LocalMembers(scope, group) => self.local_members(scope, group),
            Event::Groups(scope) => self.groups(scope),
            Event::LocalGroups(scope) => self.local_groups(scope),
            Event::Monitor(scope, group) => self.monitor(seat, number, scope, group),
            Event::MonitorScope(scope) => self.monitor_scope(seat, number, scope),
            Event::Demonitor(monitor) => self.demonitor(seat, *monitor),
            Event::Updates(monitor) => self.updates(audit, seat, number, *monitor),
            Event::Dial(peer, challenge) => self.dial(number, peer, *challenge),
            Event::Opened(challenge) => self.opened(number, *challenge),
            Event::Lost(link) => self.lost(*link),
            Event::Take(link) => self.take(*link),
            Event::Disconnect(peer) => self.disconnect(peer),
            Event::Frame(link, body) => self.frame(*link, body),
        }
    }
}
