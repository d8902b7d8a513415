//! What the told links are told of the own rows.
ghost use Rattle.std.specs.Prelude.{◌≡◌, [], map, IfOk, OnOk, OnErr};
ghost use Rattle.node_core.specs.Links.{unroomed, with_prepared, prepared_for};
ghost use Rattle.std.specs.List.{AllByRecursion};
ghost use Rattle.dist_types.specs.Difference.{IsDifference};
ghost use Rattle.scope_core.specs.Table.{count_of};
ghost use Rattle.scope_core.specs.Calls.{count_after_exit};
ghost use Rattle.node_core.specs.Telling.{AreIdle, Alike, IsBrief, is_said, said_in, said_to, told_limit};
ghost use Rattle.node_core.specs.Exiting.{bare, exit_frames, ArePrepared, AreExits, IsOwnScope};

use crate::changes::rows_left;
use crate::link::Link;
use crate::links::{or_forget, prepare};
use crate::running::Running;
use dist_types::{GroupChange, Items, OutOfMemory, Pid, TryClone};
use link_frames::{Message, Rows};
use policy_audit::Change;
use std::alloc::Global;

/// Prepares a message for the links of these numbers, unless it brings no rows. Where memory is
/// wanting, what was prepared before is dropped, too.
pub fn tell(
    alloc: Global,
    links: &mut Vec<Link>,
    numbers: &[u32],
    message: &Message,
) -> Result<(), OutOfMemory>
    requires { IsBrief (told_limit numbers.now links.old.items) message.now }
    ensures ok { OnOk result
        (map unroomed links.new.items
        ≡ map (λ x. unroomed
        (prepared_for (said_to numbers.now message.now) (said_in message.now) x))
        links.old.items) }
    ensures forgot { OnErr result (map unroomed links.new.items
        ≡ map (λ x. unroomed (with_prepared x [])) links.old.items) }
{
    if !is_said(message) {
        return Ok(());
    }
    prepare(alloc, links, numbers, message)
}

/// Whether there is something to say: a Join and a Leave bring a row.
fn is_said(message: &Message) -> bool
    ensures { result ≡ is_said message.now }
{
    match message {
        Message::Join(_, rows) => !rows.as_slice().is_empty(),
        Message::Leave(_, rows) => !rows.as_slice().is_empty(),
        _ => true,
    }
}

/// A process leaves all scopes: prepares a Leave of its rows for the links that are told there.
/// Answers what will change. Where memory is wanting, what was prepared is dropped.
pub fn tell_exit(
    alloc: Global,
    links: &mut Vec<Link>,
    scopes: &[Running],
    pid: &Pid,
) -> Result<Vec<Change>, OutOfMemory>
    requires own { AllByRecursion (IsOwnScope pid.now.node links.old.items) scopes.now }
    requires idle { AreIdle links.old.items }
    ensures told { IfOk result
        (λ changes. AreExits pid.now scopes.now links.old.items links.new.items changes.items) }
    ensures same { OnErr result (Alike links.old.items links.new.items) }
{
    let own = prepare_exit(alloc, links, scopes, pid);
    or_forget(links, own)
}

/// Prepares a Leave for each scope that the process leaves.
fn prepare_exit(
    alloc: Global,
    links: &mut Vec<Link>,
    scopes: &[Running],
    pid: &Pid,
) -> Result<Vec<Change>, OutOfMemory>
    requires { AllByRecursion (IsOwnScope pid.now.node links.old.items) scopes.now }
    ensures told { IfOk result (λ changes. AreExits pid.now scopes.now links.old.items
        links.new.items changes.items) }
    ensures same { OnErr result (map bare links.new.items ≡ map bare links.old.items) }
{
    let mut changes = Vec::new(alloc);
    for running in scopes {
        let groups = exit_one(alloc, links, running, pid)?;
        if !groups.is_empty() {
            changes.push(Change {
                scope: running.scope.try_clone(alloc)?,
                groups: Items::of(groups),
            })?;
        }
    }
    Ok(changes)
}

/// Prepares a Leave for one scope, if the process leaves it. Answers what will change there.
fn exit_one(
    alloc: Global,
    links: &mut Vec<Link>,
    running: &Running,
    pid: &Pid,
) -> Result<Vec<GroupChange>, OutOfMemory>
    requires { IsOwnScope pid.now.node links.old.items running.now }
    ensures groups { IfOk result (λ groups.
        IsDifference (count_of running.now.table) (count_after_exit running.now.table pid.now)
        groups.items) }
    ensures told { IfOk result (λ groups. ArePrepared (exit_frames running.now groups.items)
        links.old.items links.new.items) }
    ensures same { OnErr result (map bare links.new.items ≡ map bare links.old.items) }
{
    let groups = running.table.exit_change(pid)?;
    if !groups.is_empty() {
        let rows = Rows::of(rows_left(alloc, &groups)?);
        let message = Message::Leave(running.scope.try_clone(alloc)?, rows);
        let told = tell(alloc, links, &running.told, &message);
        drop(message);
        told?;
    }
    Ok(groups)
}
