//! Queries, which change nothing but the audit or not even that.
ghost use Rattle.std.specs.Prelude.{◌≡◌, true, false, IfSome, IfNone};
ghost use Rattle.policy_audit.specs.Own.{is_running};
ghost use Rattle.policy_audit.specs.Policy.{IsLegal};
ghost use Rattle.node_core.specs.ScopeFacts.{IsRunningOf, scope_words};
ghost use Rattle.policy_audit.specs.declared.event.Event.TheVariants as events;
ghost use Rattle.node_core.specs.Step.{Call, IsCalled, Answers};
ghost use Rattle.node_core.specs.Reading.{event_of, IsAnswer};

use crate::entering::Answered;
use crate::fault::CoreFault;
use crate::kept::Kept;
use crate::node::NodeCore;
use crate::running::{Running, find, place_of};
use dist_types::{Group, Scope};
use policy_audit::{Groups, Members, Reply, Rule};

/// What may be asked of the rows of a scope.
#[derive(Clone, Copy, Debug)]
pub enum Query<'a> {
    /// The processes of a group.
    Members(&'a Group),
    /// The own processes of a group.
    LocalMembers(&'a Group),
    /// The groups with a process.
    Groups,
    /// The groups with an own process.
    LocalGroups,
}

impl NodeCore {
    /// The scope, if it runs.
    pub(crate) fn running(&self, scope: &Scope) -> Option<&Running>
        ensures found { IfSome result (λ r. (r.now.scope ≡ scope.now)
            × IsRunningOf (scope_words self.now.history) r.now
            × (is_running self.now.history scope.now ≡ true)) }
        ensures none { IfNone result (is_running self.now.history scope.now ≡ false) }
        ensures legal { IsLegal self.now.history }
    {
        find(&self.kept.scopes, scope)
    }

    /// Answers a query as `step` would now, with no entry: a full audit doesn't stop it.
    pub fn look(&self, scope: &Scope, query: Query<'_>) -> Result<Reply, CoreFault>
        ensures { IsAnswer self.now.history (event_of scope.now query.entry) result }
    {
        let Some(running) = self.running(scope) else {
            return Err(CoreFault::Refused(Rule::NoScope));
        };
        let table = &running.table;
        match query {
            Query::Members(group) => Ok(Reply::Pids(Members::of(table.members(group)?)?)),
            Query::LocalMembers(group) => {
                Ok(Reply::Pids(Members::of(table.local_members(group)?)?))
            }
            Query::Groups => Ok(Reply::Groups(Groups::of(table.groups()?)?)),
            Query::LocalGroups => Ok(Reply::Groups(Groups::of(table.local_groups()?)?)),
        }
    }
}

impl Kept {
    /// The processes of a group, in a list that is made once until the group changes.
    #[tactic(auto, unfolding(crate::specs::Step::Answers))]
    pub fn members(&mut self, scope: &Scope, group: &Group) -> Result<Answered, CoreFault>
        ghost call: { Call }
        requires { IsCalled call self.old }
        ensures { Answers call (events.Members scope.now group.now) self.new result }
    {
        let Some(place) = place_of(&self.scopes, scope) else {
            return Err(CoreFault::Refused(Rule::NoScope));
        };
        let pids = self.scopes[place].table.listing(group)?;
        Ok(Answered::with(self.alloc, Reply::Pids(pids))?)
    }

    /// The own processes of a group.
    #[tactic(auto, unfolding(crate::specs::Step::Answers))]
    pub fn local_members(&mut self, scope: &Scope, group: &Group) -> Result<Answered, CoreFault>
        ghost call: { Call }
        requires { IsCalled call self.old }
        ensures { Answers call (events.LocalMembers scope.now group.now) self.new result }
    {
        let Some(place) = place_of(&self.scopes, scope) else {
            return Err(CoreFault::Refused(Rule::NoScope));
        };
        let pids = Members::of(self.scopes[place].table.local_members(group)?)?;
        Ok(Answered::with(self.alloc, Reply::Pids(pids))?)
    }

    /// The groups with a process, in a list that is made once until rows change.
    #[tactic(auto, unfolding(crate::specs::Step::Answers))]
    pub fn groups(&mut self, scope: &Scope) -> Result<Answered, CoreFault>
        ghost call: { Call }
        requires { IsCalled call self.old }
        ensures { Answers call (events.Groups scope.now) self.new result }
    {
        let Some(place) = place_of(&self.scopes, scope) else {
            return Err(CoreFault::Refused(Rule::NoScope));
        };
        let groups = self.scopes[place].table.group_listing()?;
        Ok(Answered::with(self.alloc, Reply::Groups(groups))?)
    }

    /// The groups with an own process.
    #[tactic(auto, unfolding(crate::specs::Step::Answers))]
    pub fn local_groups(&mut self, scope: &Scope) -> Result<Answered, CoreFault>
        ghost call: { Call }
        requires { IsCalled call self.old }
        ensures { Answers call (events.LocalGroups scope.now) self.new result }
    {
        let Some(place) = place_of(&self.scopes, scope) else {
            return Err(CoreFault::Refused(Rule::NoScope));
        };
        let groups = Groups::of(self.scopes[place].table.local_groups()?)?;
        Ok(Answered::with(self.alloc, Reply::Groups(groups))?)
    }
}
