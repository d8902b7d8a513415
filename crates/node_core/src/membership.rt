//! The node's own processes in groups.
ghost use Rattle.std.specs.Prelude.{◌≡◌, ◌≤◌, ◌+◌, ◌==◌, ◌&&◌, false, true, length, All, IfOk};
ghost use Rattle.std.specs.Prelude.{IfErr, OnOk, OnErr};
ghost use Rattle.std.specs.List.{list_all};
ghost use Rattle.dist_types.specs.Listing.{same};
ghost use Rattle.scope_core.specs.Table.{local_total};
ghost use Rattle.scope_core.specs.Calls.{count_after_join, count_after_leave, is_any_joined};
ghost use Rattle.policy_audit.specs.Checks.{first_broken};
ghost use Rattle.policy_audit.specs.History.{History};
ghost use Rattle.policy_audit.specs.Own.{is_local, lives};
ghost use Rattle.node_core.specs.Core.{Keeps};
ghost use Rattle.policy_audit.specs.declared.event.Event.TheVariants as events;
ghost use Rattle.node_core.specs.Step.{Call, IsCalled, Answers};
ghost use Rattle.node_core.specs.Telling.{AreIdle, Alike, told_limit};
ghost use Rattle.node_core.specs.Ending.{ends_of, IsEnding};
ghost use Rattle.node_core.specs.Moving.{own_checks, own_most, join_of, leave_of, IsPrepared, IsMovedBy};
ghost use Rattle.node_core.specs.Moving.{IsOwnChange, IsJoinRefusal, IsLeaveRefusal, fault_of};

use crate::changes::{ChangeRoom, Leaving, leave_all, rows_of};
use crate::entering::Answered;
use crate::fault::CoreFault;
use crate::gathering::{ascending, change_in};
use crate::kept::Kept;
use crate::link::Link;
use crate::links::{commit, is_any_in, or_forget};
use crate::running::{ROWS_OF_VERSION_1, ROWS_OF_VERSION_2, Running, place_of};
use crate::slow::{Ending, ending_with, is_any_overfull, settled};
use crate::telling::{tell, tell_exit};
use dist_types::{Group, OutOfMemory, Pid, Pids, Scope, TryClone};
use link_frames::{Message, Rows};
use policy_audit::{Change, Rule};
use scope_core::TableFault;
use std::alloc::Global;

impl Kept {
    /// The most own rows that a scope may have: those of one message, where the node knows no
    /// parts or a link that takes none is told there.
    fn own_limit(&self, running: &Running) -> u32
        ensures { result
            ≡ own_most self.now.opening.links running.now.told.items self.now.links.items }
    {
        if self.opening.links == 2 && !is_any_in(&self.links, &running.told, false) {
            ROWS_OF_VERSION_2
        } else {
            ROWS_OF_VERSION_1
        }
    }

    /// The first rule that own processes break that join a group of a scope with at most so many
    /// own rows, but for those of the scope and of its other rows.
    fn join_refusal(&self, pids: &[Pid], limit: u32) -> Option<Rule>
        ghost past: { History }
        requires { Keeps past self.now }
        ensures { result ≡ first_broken (own_checks past pids.now limit) }
    {
        if !self.are_local(pids) {
            return Some(Rule::NotLocal);
        }
        if !self.are_alive(pids) {
            return Some(Rule::NoProcess);
        }
        if pids.len() > limit as usize {
            return Some(Rule::RowsFull);
        }
        None
    }

    /// Whether all have the node's name and its creation.
    fn are_local(&self, pids: &[Pid]) -> bool
        ghost past: { History }
        requires { Keeps past self.now }
        ensures { result ≡ list_all (is_local past) pids.now }
    {
        pids.iter().all(|pid| self.is_local(pid))
    }

    /// Whether all of these own processes live.
    fn are_alive(&self, pids: &[Pid]) -> bool
        ghost past: { History }
        requires keeps { Keeps past self.now }
        requires local { list_all (is_local past) pids.now ≡ true }
        ensures { result ≡ list_all (lives past) pids.now }
    {
        let processes = &self.processes;
        pids.iter().all(|pid| processes.is_live(pid.number))
    }

    /// Whether the process has the node's name and its creation.
    pub fn is_local(&self, pid: &Pid) -> bool
        ensures { result ≡ (same pid.now.node self.now.opening.name
            && pid.now.creation == self.now.admission.creation) }
    {
        pid.node == self.opening.name && pid.creation == self.admission.creation()
    }

    /// Processes join a group, each once per mention.
    #[tactic(auto, unfolding(crate::specs::Step::Answers))]
    pub fn join(&mut self, scope: &Scope, group: &Group, pids: &Pids) -> Result<Answered, CoreFault>
        ghost call: { Call }
        requires { IsCalled call self.old }
        ensures { Answers call (events.Join scope.now group.now pids.now) self.new result }
    {
        let Some(place) = place_of(&self.scopes, scope) else {
            return Err(CoreFault::Refused(Rule::NoScope));
        };
        let pids = pids.as_slice();
        let limit = self.own_limit(&self.scopes[place]);
        if let Some(rule) = self.join_refusal(pids, limit) {
            return Err(CoreFault::Refused(rule));
        }
        tell_join(
            self.alloc,
            &mut self.links,
            &self.scopes[place],
            group,
            pids,
        )?;
        let ending = join_ending(
            self.alloc,
            &self.links,
            &self.scopes,
            &self.scopes[place],
            group,
            pids,
        );
        let ending = or_forget(&mut self.links, ending)?;
        let own = join_one(self.alloc, &mut self.scopes[place], group, pids, limit);
        let own = or_forget(&mut self.links, own)?;
        commit(&mut self.links);
        Ok(settled(&mut self.scopes, &mut self.links, own, ending))
    }

    /// Processes leave a group, each once per mention, as far as they are joined.
    #[tactic(auto, unfolding(crate::specs::Step::Answers))]
    pub fn leave(
        &mut self,
        scope: &Scope,
        group: &Group,
        pids: &Pids,
    ) -> Result<Answered, CoreFault>
        ghost call: { Call }
        requires { IsCalled call self.old }
        ensures { Answers call (events.Leave scope.now group.now pids.now) self.new result }
    {
        let Some(place) = place_of(&self.scopes, scope) else {
            return Err(CoreFault::Refused(Rule::NoScope));
        };
        let pids = pids.as_slice();
        if !self.are_local(pids) {
            return Err(CoreFault::Refused(Rule::NotLocal));
        }
        tell_leave(
            self.alloc,
            &mut self.links,
            &self.scopes[place],
            group,
            pids,
        )?;
        let ending = leave_ending(
            self.alloc,
            &self.links,
            &self.scopes,
            &self.scopes[place],
            group,
            pids,
        );
        let ending = or_forget(&mut self.links, ending)?;
        let own = leave_one(self.alloc, &mut self.scopes[place], group, pids);
        let own = or_forget(&mut self.links, own)?;
        commit(&mut self.links);
        Ok(settled(&mut self.scopes, &mut self.links, own, ending))
    }

    /// A process ends, and leaves all groups.
    #[tactic(auto, unfolding(crate::specs::Step::Answers))]
    pub fn exit(&mut self, pid: &Pid) -> Result<Answered, CoreFault>
        ghost call: { Call }
        requires { IsCalled call self.old }
        ensures { Answers call (events.Exit pid.now) self.new result }
    {
        if !self.is_local(pid) {
            return Err(CoreFault::Refused(Rule::NotLocal));
        }
        if !self.processes.is_live(pid.number) {
            return Err(CoreFault::Refused(Rule::NoProcess));
        }
        let own = tell_exit(self.alloc, &mut self.links, &self.scopes, pid)?;
        let ending = ending_with(self.alloc, &self.links, &self.scopes, &own, None);
        let ending = or_forget(&mut self.links, ending)?;
        commit(&mut self.links);
        leave_all(&mut self.scopes, Leaving::Process(pid));
        self.processes.exit(pid.number);
        Ok(settled(&mut self.scopes, &mut self.links, own, ending))
    }
}

/// Own processes join a group of one scope, which may have so many own rows. Where they don't,
/// nothing has changed.
fn join_one(
    alloc: Global,
    running: &mut Running,
    group: &Group,
    pids: &[Pid],
    limit: u32,
) -> Result<Vec<Change>, CoreFault>
    requires { All (λ p. p.node ≡ running.old.table.own) pids.now }
    ensures joined { IfOk result
        (λ changes. IsMovedBy (count_after_join running.old.table group.now pids.now) running.old
        running.new changes.items) }
    ensures few { OnOk result (local_total running.old.table + length pids.now ≤ limit) }
    ensures refused { IfErr result (IsJoinRefusal running.old.table pids.now limit) }
    ensures same { OnErr result (running.new ≡ running.old) }
{
    let room = ChangeRoom::new(alloc, running.scope.try_clone(alloc)?)?;
    match running.table.join_local(group, pids, limit) {
        Ok(groups) => Ok(room.filled(groups)),
        Err(fault) => Err(fault_of(fault)),
    }
}

/// What changes where links end with a join that is prepared, if any does.
fn join_ending(
    alloc: Global,
    links: &[Link],
    scopes: &[Running],
    running: &Running,
    group: &Group,
    pids: &[Pid],
) -> Result<Option<Ending>, OutOfMemory>
    ensures { IfOk result
        (λ ending. IsEnding (ends_of links.now) (λ s. false)
        (IsOwnChange running.now (count_after_join running.now.table group.now pids.now)) scopes.now
        ending) }
{
    if !is_any_overfull(links) {
        return Ok(None);
    }
    let joined = ascending(alloc, pids)?;
    let own = change_in(alloc, &running.scope, group, Vec::new(alloc), joined)?;
    ending_with(alloc, links, scopes, &own, None)
}

/// Prepares a Join of own processes for the links that are told. Where memory is wanting, what was
/// prepared before is dropped, too.
fn tell_join(
    alloc: Global,
    links: &mut Vec<Link>,
    running: &Running,
    group: &Group,
    pids: &[Pid],
) -> Result<(), OutOfMemory>
    requires few { length pids.now ≤ told_limit running.now.told.items links.old.items }
    requires idle { AreIdle links.old.items }
    ensures told { OnOk result (IsPrepared (join_of running.now.scope group.now pids.now)
        running.now links.old.items links.new.items) }
    ensures same { OnErr result (Alike links.old.items links.new.items) }
{
    let rows = Rows::of(rows_of(alloc, group, pids)?);
    let scope = running.scope.try_clone(alloc)?;
    let message = Message::Join(scope, rows);
    let told = tell(alloc, links, &running.told, &message);
    // By name, so that a check follows the end of a message once.
    drop(message);
    told
}

/// Own processes leave a group of one scope. Where they don't, nothing has changed.
fn leave_one(
    alloc: Global,
    running: &mut Running,
    group: &Group,
    pids: &[Pid],
) -> Result<Vec<Change>, CoreFault>
    ensures left { IfOk result
        (λ changes. IsMovedBy (count_after_leave running.old.table group.now pids.now) running.old
        running.new changes.items) }
    ensures some { OnOk result (is_any_joined running.old.table group.now pids.now ≡ true) }
    ensures refused { IfErr result (IsLeaveRefusal running.old.table group.now pids.now) }
    ensures same { OnErr result (running.new ≡ running.old) }
{
    let room = ChangeRoom::new(alloc, running.scope.try_clone(alloc)?)?;
    match running.table.leave_local(group, pids) {
        Ok(groups) => Ok(room.filled(groups)),
        Err(fault) => Err(fault_of(fault)),
    }
}

/// What changes where links end with a leave that is prepared, if any does.
fn leave_ending(
    alloc: Global,
    links: &[Link],
    scopes: &[Running],
    running: &Running,
    group: &Group,
    pids: &[Pid],
) -> Result<Option<Ending>, OutOfMemory>
    requires { All (λ p. p.node ≡ running.now.table.own) pids.now }
    ensures { IfOk result
        (λ ending. IsEnding (ends_of links.now) (λ s. false)
        (IsOwnChange running.now (count_after_leave running.now.table group.now pids.now))
        scopes.now ending) }
{
    if !is_any_overfull(links) {
        return Ok(None);
    }
    let left = running.table.leaving(group, pids)?;
    let own = change_in(alloc, &running.scope, group, left, Vec::new(alloc))?;
    ending_with(alloc, links, scopes, &own, None)
}

/// Prepares a Leave of the own processes that a leave of these takes, for the links that are told.
/// Where memory is wanting, what was prepared before is dropped, too.
fn tell_leave(
    alloc: Global,
    links: &mut Vec<Link>,
    running: &Running,
    group: &Group,
    pids: &[Pid],
) -> Result<(), OutOfMemory>
    requires own { All (λ p. p.node ≡ running.now.table.own) pids.now }
    requires few { local_total running.now.table
        ≤ told_limit running.now.told.items links.old.items }
    requires idle { AreIdle links.old.items }
    ensures told { OnOk result (IsPrepared (leave_of running.now group.now pids.now) running.now
        links.old.items links.new.items) }
    ensures same { OnErr result (Alike links.old.items links.new.items) }
{
    let gone = running.table.leaving(group, pids)?;
    let rows = Rows::of(rows_of(alloc, group, &gone)?);
    let scope = running.scope.try_clone(alloc)?;
    let message = Message::Leave(scope, rows);
    let told = tell(alloc, links, &running.told, &message);
    // By name, so that a check follows the end of a message once.
    drop(message);
    told
}

/// The rule that a fault of a table is.
pub fn fault_of(fault: TableFault) -> CoreFault
    ensures { result ≡ fault_of fault }
{
    match fault {
        TableFault::RowsFull => CoreFault::Refused(Rule::RowsFull),
        TableFault::NotJoined => CoreFault::Refused(Rule::NotJoined),
        TableFault::NotListed => CoreFault::Refused(Rule::NotListed),
        TableFault::OutOfMemory => CoreFault::OutOfMemory,
    }
}
