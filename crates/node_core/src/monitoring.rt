//! Monitors of groups and scopes.
ghost use Rattle.std.specs.Prelude.{◌≡◌, map, IfOk};
ghost use Rattle.std.specs.List.{AllByRecursion};
ghost use Rattle.dist_types.specs.Listing.{IsPidListing, IsGroupListing};
ghost use Rattle.scope_core.specs.Table.{count_of};
ghost use Rattle.policy_audit.specs.declared.event.Event.TheVariants as events;
ghost use Rattle.policy_audit.specs.History.{audited};
ghost use Rattle.group_monitors.specs.Follows.{Reaches};
ghost use Rattle.node_core.specs.Step.{Call, IsCalled, IsTurn, Answers};

use crate::entering::Answered;
use crate::fault::CoreFault;
use crate::kept::Kept;
use crate::running::{Running, place_of};
use dist_types::{Group, OutOfMemory, Pids, Scope, TryClone};
use group_monitors::{NoMonitor, UpdatesFault};
use policy_audit::{Audit, Contents, GroupPids, Members, Reply, Rule};
use std::alloc::Global;

impl Kept {
    /// The seat watches a group from now on.
    #[tactic(auto, unfolding(crate::specs::Step::Answers))]
    pub fn monitor(
        &mut self,
        seat: u32,
        number: u32,
        scope: &Scope,
        group: &Group,
    ) -> Result<Answered, CoreFault>
        ghost call: { Call }
        requires { IsTurn call seat number self.old }
        ensures { Answers call (events.Monitor scope.now group.now) self.new result }
    {
        let Some(place) = place_of(&self.scopes, scope) else {
            return Err(CoreFault::Refused(Rule::NoScope));
        };
        let pids = Members::of(self.scopes[place].table.members(group)?)?;
        let answered = Answered::with(self.alloc, Reply::Ref { number, pids })?;
        let (scope, group) = (scope.try_clone(self.alloc)?, group.try_clone(self.alloc)?);
        self.monitors.add_group(seat, number, scope, group)?;
        Ok(answered)
    }

    /// The seat watches all groups of a scope from now on.
    #[tactic(auto, unfolding(crate::specs::Step::Answers))]
    pub fn monitor_scope(
        &mut self,
        seat: u32,
        number: u32,
        scope: &Scope,
    ) -> Result<Answered, CoreFault>
        ghost call: { Call }
        requires { IsTurn call seat number self.old }
        ensures { Answers call (events.MonitorScope scope.now) self.new result }
    {
        let Some(place) = place_of(&self.scopes, scope) else {
            return Err(CoreFault::Refused(Rule::NoScope));
        };
        let groups = contents_of(self.alloc, &self.scopes[place])?;
        let answered = Answered::with(self.alloc, Reply::ScopeRef { number, groups })?;
        let scope = scope.try_clone(self.alloc)?;
        self.monitors.add_scope(seat, number, scope)?;
        Ok(answered)
    }

    /// The end of a monitor.
    #[tactic(auto, unfolding(crate::specs::Step::Answers))]
    pub fn demonitor(&mut self, seat: u32, number: u32) -> Result<Answered, CoreFault>
        ghost call: { Call }
        requires called { IsCalled call self.old }
        requires seat { seat ≡ call.seat }
        ensures { Answers call (events.Demonitor number) self.new result }
    {
        match self.monitors.remove(seat, number) {
            Ok(()) => Ok(Answered::done(self.alloc)),
            Err(NoMonitor) => Err(CoreFault::Refused(Rule::NoMonitor)),
        }
    }

    /// What a monitor has not told yet.
    #[tactic(auto, unfolding(crate::specs::Step::Answers))]
    pub fn updates(
        &mut self,
        audit: &Audit,
        seat: u32,
        place: u32,
        number: u32,
    ) -> Result<Answered, CoreFault>
        ghost call: { Call }
        requires turn { IsTurn call seat place self.old }
        requires audit { audit.now.entries ≡ audited call.past.entries }
        requires reach { Reaches audit.now.forgotten audit.now.entries }
        ensures { Answers call (events.Updates number) self.new result }
    {
        let updates = match self.monitors.updates(seat, number, audit) {
            Ok(updates) => updates,
            Err(UpdatesFault::NoMonitor) => return Err(CoreFault::Refused(Rule::NoMonitor)),
            Err(UpdatesFault::OutOfMemory) => return Err(CoreFault::OutOfMemory),
        };
        let answered = Answered::with(self.alloc, Reply::Updates(updates))?;
        // The monitor is there: it has just told its updates.
        let _ = self.monitors.advance_to(seat, number, place as usize);
        Ok(answered)
    }
}

/// The groups of a scope with their members.
fn contents_of(alloc: Global, running: &Running) -> Result<Contents, OutOfMemory>
    ensures groups { IfOk result (λ contents.
        IsGroupListing (count_of running.now.table) (map (λ c. c.group) contents)) }
    ensures pids { IfOk result (λ contents.
        AllByRecursion (λ c. IsPidListing (count_of running.now.table c.group) c.pids) contents) }
{
    let groups = running.table.groups()?;
    let mut contents = Vec::with_capacity(alloc, groups.len())?;
    for group in groups {
        let pids = Pids::of(running.table.members(&group)?);
        contents.push(GroupPids { group, pids })?;
    }
    Ok(Contents::of(contents)?)
}
