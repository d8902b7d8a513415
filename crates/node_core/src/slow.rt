//! Links that end because too many frames wait for them.
ghost use Rattle.std.specs.Prelude.{◌≡◌, not, IfOk, OnOk};
ghost use Rattle.std.specs.List.{filter, list_any, AllByRecursion};
ghost use Rattle.dist_types.specs.Difference.{IsProper};
ghost use Rattle.policy_audit.specs.declared.reply.Reply.TheVariants as replies;
ghost use Rattle.node_core.specs.Ending.{ends_of, is_overfull, is_stopped, without_ends};
ghost use Rattle.node_core.specs.Ending.{AreCutAll, AreEnded, AreWithLost, IsEnding};
ghost use Rattle.node_core.specs.Ending.{IsLossOf, Loses};
ghost use Rattle.node_core.specs.Step.{Says};

use crate::changes::end_link;
use crate::entering::Answered;
use crate::gathering::{gathered, groups_in};
use crate::link::Link;
use crate::links::remove;
use crate::running::Running;
use dist_types::{GroupChange, Items, NodeName, OutOfMemory, Scope, TryClone};
use policy_audit::Change;
use scope_core::ScopeTable;
use std::alloc::Global;

/// The most frames that wait for a link.
pub const MAX_WAITING: usize = 1024;

/// The end of a link, which is up with this peer.
pub struct End {
    number: u32,
    peer: NodeName,
}

impl Drop for End {
    fn drop(self) {
        let End { number: _, peer: _ } = self;
    }
}

/// What changes with an event, and the links that end with it.
pub struct Ending {
    changes: Vec<Change>,
    ends: Vec<End>,
}

impl Drop for Ending {
    fn drop(self) {
        let Ending {
            changes: _,
            ends: _,
        } = self;
    }
}

impl Ending {
    fn into_parts(self) -> (Vec<Change>, Vec<End>)
        ensures { result ≡ (self.changes, self.ends) }
    {
        let Ending { changes, ends } = self;
        (changes, ends)
    }
}

/// What changes with these changes of own rows where links end for the frames that are prepared,
/// if any does. A scope that stops loses all its rows by its own change.
pub fn ending_with(
    alloc: Global,
    links: &[Link],
    scopes: &[Running],
    own: &[Change],
    stopped: Option<&Scope>,
) -> Result<Option<Ending>, OutOfMemory>
    requires { AllByRecursion (λ c. AllByRecursion IsProper c.groups) own.now }
    ensures { IfOk result
        (λ ending. IsEnding (ends_of links.now) (is_stopped stopped.entry)
        (λ x. x ≡ own.now) scopes.now ending) }
{
    if !is_any_overfull(links) {
        return Ok(None);
    }
    let ends = ends_of(alloc, links)?;
    let changes = with_lost(alloc, scopes, &ends, own, stopped)?;
    Ok(Some(Ending { changes, ends }))
}

/// Whether too many frames wait for a link, with those that are prepared.
pub fn is_any_overfull(links: &[Link]) -> bool
    ensures { result ≡ list_any is_overfull links.now }
{
    links.iter().any(|link| link.is_overfull())
}

/// Done, with these changes, or with those where links end, which are gone now.
pub fn settled(
    scopes: &mut Vec<Running>,
    links: &mut Vec<Link>,
    own: Vec<Change>,
    ending: Option<Ending>,
) -> Answered
    ensures ended { AreEnded ending own.items scopes.old.items links.old.items scopes.new.items
        links.new.items result.changes.items }
    ensures done { Says result replies.Done result.changes.items }
{
    let Some(ending) = ending else {
        return Answered::changed(own);
    };
    drop(own);
    let (changes, ends) = ending.into_parts();
    end_all(scopes, links, &ends);
    Answered::changed(changes)
}

/// The links that end, for which too many frames would wait with those that are prepared. It takes
/// no memory where there is none.
pub fn ends_of(alloc: Global, links: &[Link]) -> Result<Vec<End>, OutOfMemory>
    ensures { IfOk result (λ ends. ends.items ≡ ends_of links.now) }
{
    let mut ends = Vec::new(alloc);
    for link in links {
        if link.is_overfull()
            && let Some(peer) = link.up_peer()
        {
            let peer = peer.try_clone(alloc)?;
            ends.push(End {
                number: link.number(),
                peer,
            })?;
        }
    }
    Ok(ends)
}

/// These changes of own rows, and what the scopes lose with these links; but a scope that stops
/// loses all its rows by its own change.
pub fn with_lost(
    alloc: Global,
    scopes: &[Running],
    ends: &[End],
    own: &[Change],
    stopped: Option<&Scope>,
) -> Result<Vec<Change>, OutOfMemory>
    requires { AllByRecursion (λ c. AllByRecursion IsProper c.groups) own.now }
    ensures { IfOk result
        (λ changes. AreWithLost ends.now (is_stopped stopped.entry) own.now scopes.now
        changes.items) }
{
    let mut changes = Vec::new(alloc);
    for running in scopes {
        let groups = loss_of(alloc, running, ends, own, stopped)?;
        if !groups.is_empty() {
            changes.push(Change {
                scope: running.scope.try_clone(alloc)?,
                groups: Items::of(groups),
            })?;
        }
    }
    Ok(changes)
}

/// The changes of own rows in this scope, and what it loses with these links, unless it stops.
fn loss_of(
    alloc: Global,
    running: &Running,
    ends: &[End],
    own: &[Change],
    stopped: Option<&Scope>,
) -> Result<Vec<GroupChange>, OutOfMemory>
    requires { AllByRecursion (λ c. AllByRecursion IsProper c.groups) own.now }
    ensures { IfOk result
        (λ groups. IsLossOf ends.now (is_stopped stopped.entry) own.now running.now
        (record { scope = running.now.scope; groups = groups.items })) }
{
    let mut groups = groups_in(alloc, &running.scope, own)?;
    lose(running, ends, stopped, &mut groups)?;
    gathered(alloc, groups)
}

/// Puts what a scope loses with these links behind other changes, unless it stops.
fn lose(
    running: &Running,
    ends: &[End],
    stopped: Option<&Scope>,
    groups: &mut Vec<GroupChange>,
) -> Result<(), OutOfMemory>
    ensures { OnOk result
        (Loses running.now.table
        (filter (λ e. not (is_stopped stopped.entry running.now.scope)) ends.now) groups.old.items
        groups.new.items) }
{
    if is_stopped(stopped, &running.scope) {
        return Ok(());
    }
    lose_all(&running.table, ends, groups)
}

/// Whether it is the scope that stops, where one does.
fn is_stopped(stopped: Option<&Scope>, scope: &Scope) -> bool
    ensures { result ≡ is_stopped stopped.entry scope.now }
{
    match stopped {
        Some(stops) => stops == scope,
        None => false,
    }
}

/// Puts what the leaving of these peers changes in a table behind other changes.
fn lose_all(
    table: &ScopeTable,
    ends: &[End],
    groups: &mut Vec<GroupChange>,
) -> Result<(), OutOfMemory>
    ensures { OnOk result (Loses table.now ends.now groups.old.items groups.new.items) }
{
    for end in ends {
        groups.append(&mut table.drop_change(&end.peer)?)?;
    }
    Ok(())
}

/// These links are gone, and with each all rows of its peer.
pub fn end_all(scopes: &mut Vec<Running>, links: &mut Vec<Link>, ends: &[End])
    ensures scopes { AreCutAll ends.now scopes.old.items scopes.new.items }
    ensures links { links.new.items ≡ without_ends ends.now links.old.items }
{
    for end in ends {
        end_link(scopes, end.number, &end.peer);
        remove(links, end.number);
    }
}
