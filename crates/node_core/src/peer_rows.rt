//! Rows that a peer says of its own processes.
ghost use Rattle.std.specs.Prelude.{◌≡◌, ◌<◌, ◌+◌, cond, nat_le, Some, None, vec_len, vec_capacity, length, All, IfOk, IfErr, OnOk, OnErr};
ghost use Rattle.scope_core.specs.Table.{count_of, node_total};
ghost use Rattle.scope_core.specs.Calls.{count_after_sync, count_after_add, count_after_take, count_after_drop, are_counted};
ghost use Rattle.node_core.specs.MessageRules.{HasBecome, IsChangeIn, IsRowFault, table_refusal, count_after, heard_after, count_with, heard_with};
ghost use Rattle.node_core.specs.ScopeFacts.{with_number};

use crate::changes::ChangeRoom;
use crate::fault::CoreFault;
use crate::membership::fault_of;
use crate::running::Running;
use dist_types::{NodeName, OutOfMemory, Row, Scope, TryClone};
use link_frames::PartKind;
use policy_audit::{Change, Rule};
use std::alloc::Global;

/// Rows of its own processes that a peer says, in a message of this kind.
#[derive(Clone, Copy)]
pub struct PeerRows<'a> {
    /// The number of the link that brings them.
    pub link: u32,
    pub kind: PartKind,
    pub peer: &'a NodeName,
    pub rows: &'a [Row],
    /// The most rows that the peer may have in the scope.
    pub limit: u32,
}

/// What all rows of a message make of the scope.
pub fn hear(
    alloc: Global,
    running: &mut Running,
    scope: Scope,
    said: PeerRows<'_>,
) -> Result<Vec<Change>, CoreFault>
    requires { All (λ r. r.pid.node ≡ said.peer.now) said.rows.now }
    ensures ok { OnOk result (HasBecome running.old running.new
        (count_after said.entry.kind running.old.table said.entry.peer.now said.entry.rows.now)
        (heard_after said.entry.kind said.entry.link running.old.heard.items)
        running.old.told.items) }
    ensures change { IfOk result (λ changes.
        IsChangeIn scope (count_of running.old.table) (count_of running.new.table) changes.items) }
    ensures refused { IfErr result
        (IsRowFault (table_refusal running.old.table said.entry.peer.now said.entry.kind
        said.entry.rows.now said.entry.limit)) }
    ensures holds { OnOk result (table_refusal running.old.table said.entry.peer.now said.entry.kind
        said.entry.rows.now said.entry.limit ≡ None) }
    ensures same { OnErr result (HasBecome running.old running.new (count_of running.old.table)
        running.old.heard.items running.old.told.items) }
{
    match said.kind {
        PartKind::Sync => hear_rows(alloc, running, scope, said),
        PartKind::Join => add_rows(alloc, running, scope, said),
        PartKind::Leave => take_rows(alloc, running, scope, said),
    }
}

/// The peer's rows are replaced, and it is heard over the link of this number from now on.
#[tactic(auto, using(crate::proofs::PeerRows::sync_fault, crate::proofs::PeerRows::within))]
fn hear_rows(
    alloc: Global,
    running: &mut Running,
    scope: Scope,
    said: PeerRows<'_>,
) -> Result<Vec<Change>, CoreFault>
    requires { All (λ r. r.pid.node ≡ said.peer.now) said.rows.now }
    ensures ok { OnOk result (HasBecome running.old running.new
        (count_after_sync running.old.table said.entry.peer.now said.entry.rows.now)
        (with_number said.entry.link running.old.heard.items) running.old.told.items) }
    ensures change { IfOk result (λ changes.
        IsChangeIn scope (count_of running.old.table) (count_of running.new.table) changes.items) }
    ensures refused { IfErr result
        (IsRowFault (cond (nat_le (length said.entry.rows.now) said.entry.limit) None
        (Some Rule.RowsFull))) }
    ensures holds { OnOk result (cond (nat_le (length said.entry.rows.now) said.entry.limit) None
        (Some Rule.RowsFull) ≡ None) }
    ensures same { OnErr result (HasBecome running.old running.new (count_of running.old.table)
        running.old.heard.items running.old.told.items) }
{
    let room = ChangeRoom::new(alloc, scope)?;
    running.heard.reserve(1)?;
    match running.table.sync(said.peer, said.rows, said.limit) {
        Ok(groups) => {
            note(&mut running.heard, said.link);
            Ok(room.filled(groups))
        }
        Err(fault) => Err(fault_of(fault)),
    }
}

/// Rows are added to the peer's.
#[tactic(auto, using(crate::proofs::PeerRows::add_fault, crate::proofs::PeerRows::within))]
fn add_rows(
    alloc: Global,
    running: &mut Running,
    scope: Scope,
    said: PeerRows<'_>,
) -> Result<Vec<Change>, CoreFault>
    requires { All (λ r. r.pid.node ≡ said.peer.now) said.rows.now }
    ensures ok { OnOk result (HasBecome running.old running.new
        (count_after_add running.old.table said.entry.rows.now) running.old.heard.items
        running.old.told.items) }
    ensures change { IfOk result (λ changes.
        IsChangeIn scope (count_of running.old.table) (count_of running.new.table) changes.items) }
    ensures refused { IfErr result
        (IsRowFault (cond (nat_le (node_total running.old.table said.entry.peer.now
        + length said.entry.rows.now) said.entry.limit) None (Some Rule.RowsFull))) }
    ensures holds { OnOk result
        (cond (nat_le (node_total running.old.table said.entry.peer.now
        + length said.entry.rows.now) said.entry.limit) None (Some Rule.RowsFull) ≡ None) }
    ensures same { OnErr result (HasBecome running.old running.new (count_of running.old.table)
        running.old.heard.items running.old.told.items) }
{
    let room = ChangeRoom::new(alloc, scope)?;
    match running.table.join_remote(said.peer, said.rows, said.limit) {
        Ok(groups) => Ok(room.filled(groups)),
        Err(fault) => Err(fault_of(fault)),
    }
}

/// Rows are taken from the peer's.
#[tactic(auto, using(crate::proofs::PeerRows::take_fault, crate::proofs::PeerRows::counted))]
fn take_rows(
    alloc: Global,
    running: &mut Running,
    scope: Scope,
    said: PeerRows<'_>,
) -> Result<Vec<Change>, CoreFault>
    requires { All (λ r. r.pid.node ≡ said.peer.now) said.rows.now }
    ensures ok { OnOk result (HasBecome running.old running.new
        (count_after_take running.old.table said.entry.rows.now) running.old.heard.items
        running.old.told.items) }
    ensures change { IfOk result (λ changes.
        IsChangeIn scope (count_of running.old.table) (count_of running.new.table) changes.items) }
    ensures refused { IfErr result
        (IsRowFault (cond (are_counted running.old.table said.entry.rows.now) None
        (Some Rule.NotListed))) }
    ensures holds { OnOk result (cond (are_counted running.old.table said.entry.rows.now) None
        (Some Rule.NotListed) ≡ None) }
    ensures same { OnErr result (HasBecome running.old running.new (count_of running.old.table)
        running.old.heard.items running.old.told.items) }
{
    let room = ChangeRoom::new(alloc, scope)?;
    match running.table.leave_remote(said.peer, said.rows) {
        Ok(groups) => Ok(room.filled(groups)),
        Err(fault) => Err(fault_of(fault)),
    }
}

/// What the scope loses with all rows of a peer.
pub fn drop_change(
    alloc: Global,
    running: &Running,
    scope: Scope,
    peer: &NodeName,
) -> Result<Vec<Change>, OutOfMemory>
    ensures { IfOk result (λ changes. IsChangeIn scope (count_of running.now.table)
        (count_after_drop running.now.table peer.now) changes.items) }
{
    let room = ChangeRoom::new(alloc, scope)?;
    let groups = running.table.drop_change(peer)?;
    Ok(room.filled(groups))
}

/// What the rows so far of a message in parts make of the scope: all that their message does, where
/// the last part has come; else nothing.
pub fn hear_or_test(
    alloc: Global,
    running: &mut Running,
    said: PeerRows<'_>,
    last: bool,
) -> Result<Vec<Change>, CoreFault>
    requires { All (λ r. r.pid.node ≡ said.peer.now) said.rows.now }
    ensures ok { OnOk result (HasBecome running.old running.new
        (count_with last said.entry.kind running.old.table said.entry.peer.now said.entry.rows.now)
        (heard_with last said.entry.kind said.entry.link running.old.heard.items)
        running.old.told.items) }
    ensures change { IfOk result (λ changes.
        IsChangeIn running.old.scope (count_of running.old.table) (count_of running.new.table)
        changes.items) }
    ensures refused { IfErr result
        (IsRowFault (table_refusal running.old.table said.entry.peer.now said.entry.kind
        said.entry.rows.now said.entry.limit)) }
    ensures holds { OnOk result (table_refusal running.old.table said.entry.peer.now said.entry.kind
        said.entry.rows.now said.entry.limit ≡ None) }
    ensures same { OnErr result (HasBecome running.old running.new (count_of running.old.table)
        running.old.heard.items running.old.told.items) }
{
    if last {
        let scope = running.scope.try_clone(alloc)?;
        return hear(alloc, running, scope, said);
    }
    tested(alloc, running, said)
}

/// What rows of a peer's message make of the scope before the last part has come: nothing, where
/// they can be followed.
#[tactic(auto, using(crate::proofs::PeerRows::unchanged))]
fn tested(
    alloc: Global,
    running: &mut Running,
    said: PeerRows<'_>,
) -> Result<Vec<Change>, CoreFault>
    requires { All (λ r. r.pid.node ≡ said.peer.now) said.rows.now }
    ensures became { HasBecome running.old running.new (count_of running.old.table)
        running.old.heard.items running.old.told.items }
    ensures change { IfOk result (λ changes.
        IsChangeIn running.old.scope (count_of running.old.table) (count_of running.new.table)
        changes.items) }
    ensures refused { IfErr result
        (IsRowFault (table_refusal running.old.table said.entry.peer.now said.entry.kind
        said.entry.rows.now said.entry.limit)) }
    ensures holds { OnOk result (table_refusal running.old.table said.entry.peer.now said.entry.kind
        said.entry.rows.now said.entry.limit ≡ None) }
{
    match table_refusal(running, said) {
        Some(rule) => Err(CoreFault::Refused(rule)),
        None => Ok(Vec::new(alloc)),
    }
}

/// The rule that rows of a peer break by the table of the scope. It takes no memory.
fn table_refusal(running: &mut Running, said: PeerRows<'_>) -> Option<Rule>
    requires { All (λ r. r.pid.node ≡ said.peer.now) said.rows.now }
    ensures value { result ≡ table_refusal running.old.table said.entry.peer.now said.entry.kind
        said.entry.rows.now said.entry.limit }
    ensures same { running.new ≡ running.old }
{
    let (peer, rows, limit) = (said.peer, said.rows, said.limit as usize);
    match said.kind {
        PartKind::Sync => full(rows.len() > limit),
        PartKind::Join => full(running.table.peer_total(peer) + rows.len() > limit),
        PartKind::Leave => unlisted(running.table.has_rows(peer, rows)),
    }
}

/// `RowsFull`, where there are too many.
fn full(many: bool) -> Option<Rule>
    ensures { result ≡ cond many (Some Rule.RowsFull) None }
{
    if many { Some(Rule::RowsFull) } else { None }
}

/// `NotListed`, where some aren't.
fn unlisted(listed: bool) -> Option<Rule>
    ensures { result ≡ cond listed None (Some Rule.NotListed) }
{
    if listed { None } else { Some(Rule::NotListed) }
}

/// The number is one of these from now on. There is room for it.
pub fn note(numbers: &mut Vec<u32>, number: u32)
    requires { vec_len numbers.old < vec_capacity numbers.old }
    ensures { numbers.new.items ≡ with_number number numbers.old.items }
{
    if !numbers.contains(&number) {
        numbers.push_reserved(number);
    }
}
