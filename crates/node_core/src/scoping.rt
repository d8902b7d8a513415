//! Scopes that start and stop, and a node that begins anew.
ghost use Rattle.std.specs.Prelude.{◌≡◌, ◌<◌, ℕ, Bool, not, List, [], vec_len, vec_capacity, IfOk, OnOk, OnErr};
ghost use Rattle.std.specs.List.{filter};
ghost use Rattle.dist_types.specs.declared.pid.Pid.{Pid};
ghost use Rattle.dist_types.specs.Listing.{same};
ghost use Rattle.node_core.specs.ScopeFacts.{AreAscending};
ghost use Rattle.scope_core.specs.Table.{count_of};
ghost use Rattle.policy_audit.specs.Changes.{if_some};
ghost use Rattle.policy_audit.specs.declared.event.Event.TheVariants as events;
ghost use Rattle.node_core.specs.Step.{Call, IsCalled, Answers};
ghost use Rattle.node_core.specs.Telling.{AreIdle, Alike, CanBeSaid, IsForShown, put_scope};

use crate::changes::{ChangeRoom, Leaving, changes_of};
use crate::entering::Answered;
use crate::fault::CoreFault;
use crate::kept::Kept;
use crate::link::Link;
use crate::links::{break_off, commit, or_forget, prepare, shown};
use crate::node::admission_of;
use crate::processes::Processes;
use crate::running::{Running, place_of};
use crate::slow::{ending_with, settled};
use dist_types::{GroupChange, NodeName, OutOfMemory, Scope, TryClone};
use link_frames::Message;
use policy_audit::{Change, Rule};
use scope_core::ScopeTable;
use std::alloc::Global;

/// The most scopes that run.
const MAX_SCOPES: usize = 64;

impl Kept {
    /// The node begins anew, with the next creation.
    #[tactic(auto, unfolding(crate::specs::Step::Answers))]
    pub fn restart(&mut self) -> Result<Answered, CoreFault>
        ghost call: { Call }
        requires { IsCalled call self.old }
        ensures { Answers call events.Restart self.new result }
    {
        if self.admission.creation() == u32::MAX {
            return Err(CoreFault::Refused(Rule::CreationSpent));
        }
        let changes = changes_of(self.alloc, &self.scopes, Leaving::All)?;
        let creation = self.admission.creation() + 1;
        self.admission = admission_of(self.alloc, &self.opening, creation)?;
        self.processes = Processes::new(self.alloc);
        self.scopes.clear();
        self.links.clear();
        self.monitors.clear();
        Ok(Answered::changed(changes))
    }

    /// A scope starts, and its peers are asked for their rows.
    #[tactic(auto, unfolding(crate::specs::Step::Answers))]
    pub fn start_scope(&mut self, scope: &Scope) -> Result<Answered, CoreFault>
        ghost call: { Call }
        requires { IsCalled call self.old }
        ensures { Answers call (events.StartScope scope.now) self.new result }
    {
        if place_of(&self.scopes, scope).is_some() {
            return Err(CoreFault::Refused(Rule::ScopeRunning));
        }
        if self.scopes.len() >= MAX_SCOPES {
            return Err(CoreFault::Refused(Rule::ScopesFull));
        }
        self.scopes.reserve(1)?;
        let running = asked_scope(self.alloc, &mut self.links, &self.opening.name, scope)?;
        let own = Vec::new(self.alloc);
        let ending = ending_with(self.alloc, &self.links, &self.scopes, &own, None);
        let ending = or_forget(&mut self.links, ending)?;
        commit(&mut self.links);
        put_in(&mut self.scopes, running);
        Ok(settled(&mut self.scopes, &mut self.links, own, ending))
    }

    /// A scope stops, and its peers are told so.
    #[tactic(auto, unfolding(crate::specs::Step::Answers))]
    pub fn stop_scope(&mut self, scope: &Scope) -> Result<Answered, CoreFault>
        ghost call: { Call }
        requires { IsCalled call self.old }
        ensures { Answers call (events.StopScope scope.now) self.new result }
    {
        let Some(place) = place_of(&self.scopes, scope) else {
            return Err(CoreFault::Refused(Rule::NoScope));
        };
        let groups = self.scopes[place].table.clear_change()?;
        let own = tell_stop(self.alloc, &mut self.links, scope, groups)?;
        let ending = ending_with(self.alloc, &self.links, &self.scopes, &own, Some(scope));
        let ending = or_forget(&mut self.links, ending)?;
        commit(&mut self.links);
        break_off(&mut self.links, scope);
        take_out(&mut self.scopes, scope);
        self.monitors.drop_scope(scope);
        Ok(settled(&mut self.scopes, &mut self.links, own, ending))
    }
}

/// A scope with no rows, for which a Discover is prepared for the links that are up and visible.
/// Where memory is wanting, nothing but room has changed.
fn asked_scope(
    alloc: Global,
    links: &mut Vec<Link>,
    own: &NodeName,
    scope: &Scope,
) -> Result<Running, OutOfMemory>
    requires { AreIdle links.old.items }
    ensures scope { IfOk result (λ r. r.scope ≡ scope.now) }
    ensures own { IfOk result (λ r. r.table.own ≡ own.now) }
    ensures rows { IfOk result (λ r. (g : List ℕ) (p : Pid) → count_of r.table g p ≡ 0) }
    ensures links { IfOk result (λ r. (r.heard.items ≡ []) × (r.told.items ≡ [])) }
    ensures told { OnOk result
        (IsForShown (Message.Discover scope.now) links.old.items links.new.items) }
    ensures same { OnErr result (Alike links.old.items links.new.items) }
{
    let name = scope.try_clone(alloc)?;
    let running = new_scope(alloc, own, scope)?;
    match prepare_shown(alloc, links, &Message::Discover(name)) {
        Ok(()) => Ok(running),
        Err(fault) => {
            drop(running);
            Err(fault)
        }
    }
}

/// A scope with no rows, shared over no link.
fn new_scope(alloc: Global, own: &NodeName, scope: &Scope) -> Result<Running, OutOfMemory>
    ensures scope { IfOk result (λ r. r.scope ≡ scope.now) }
    ensures own { IfOk result (λ r. r.table.own ≡ own.now) }
    ensures rows { IfOk result (λ r. (g : List ℕ) (p : Pid) → count_of r.table g p ≡ 0) }
    ensures links { IfOk result (λ r. (r.heard.items ≡ []) × (r.told.items ≡ [])) }
{
    let own = own.try_clone(alloc)?;
    Ok(Running {
        scope: scope.try_clone(alloc)?,
        table: ScopeTable::new(alloc, own),
        heard: Vec::new(alloc),
        told: Vec::new(alloc),
    })
}

/// Puts a scope in its place, into the room that there is.
fn put_in(scopes: &mut Vec<Running>, running: Running)
    requires room { vec_len scopes.old < vec_capacity scopes.old }
    requires ascending { AreAscending scopes.old.items }
    ensures { scopes.new.items ≡ put_scope running scopes.old.items }
{
    let scope = &running.scope;
    let place = scopes.partition_point(|other| other.scope < *scope);
    // This can't fail, since there is room.
    let _ = scopes.insert(place, running);
}

/// Takes a scope out.
fn take_out(scopes: &mut Vec<Running>, scope: &Scope)
    ensures { scopes.new.items ≡ filter (λ r. not (same r.scope scope.now)) scopes.old.items }
{
    scopes.retain(|running| running.scope != *scope);
}

/// Prepares a Down of a scope that stops, whose groups change in this way, for the links that are
/// up and visible. Where memory is wanting, nothing is prepared.
fn tell_stop(
    alloc: Global,
    links: &mut Vec<Link>,
    scope: &Scope,
    groups: Vec<GroupChange>,
) -> Result<Vec<Change>, OutOfMemory>
    requires { AreIdle links.old.items }
    ensures change { IfOk result (λ changes. changes.items ≡ if_some scope.now groups.items) }
    ensures told { OnOk result
        (IsForShown (Message.Down scope.now) links.old.items links.new.items) }
    ensures same { OnErr result (Alike links.old.items links.new.items) }
{
    let room = ChangeRoom::new(alloc, scope.try_clone(alloc)?)?;
    let changes = room.filled(groups);
    let name = scope.try_clone(alloc)?;
    prepare_shown(alloc, links, &Message::Down(name))?;
    Ok(changes)
}

/// Prepares a message for the links that are up and visible.
/// Where memory is wanting, nothing has changed.
fn prepare_shown(alloc: Global, links: &mut Vec<Link>, message: &Message) -> Result<(), OutOfMemory>
    requires spelled { (parted : Bool) → CanBeSaid parted message.now }
    requires idle { AreIdle links.old.items }
    ensures told { OnOk result (IsForShown message.now links.old.items links.new.items) }
    ensures same { OnErr result (Alike links.old.items links.new.items) }
{
    let numbers = shown(alloc, links)?;
    prepare(alloc, links, &numbers, message)
}
