//! What the processes of a scope say to each other (Kernel manual, `pg`).
ghost use Rattle.std.specs.Prelude.{◌≡◌, [], ℕ, List, IfOk, MatchResult};
ghost use Rattle.external_terms.specs.Terms.{SpellsTerm};
ghost use Rattle.dist_types.specs.declared.pid.Pid.{Pid};
ghost use Rattle.otp_edge.specs.Fault.{IsFaultOf};
ghost use Rattle.otp_edge.specs.Lists.{IsList};
ghost use Rattle.otp_edge.specs.Processes.{IsPid, pid_bytes};
ghost use Rattle.otp_edge.specs.PgMessages.{PgMessage, SpellsPg, Stated, IsStated};
ghost use Rattle.otp_edge.specs.PgMessages.{Members, AreMembers, members_of};
ghost use Rattle.otp_edge.specs.PgMessages.{Groups, AreGroups, groups_of};
ghost use Rattle.otp_edge.specs.PgMessages.{rows_meant, rows_stated, rows_in, rows_left};
ghost use Rattle.otp_edge.specs.PgMessages.{sync_inner, join_inner, leave_inner};
ghost use Rattle.otp_edge.specs.Meaning.{meant};
ghost use Rattle.otp_edge.specs.declared.meaning.Said.TheVariants as saids;

use crate::fault::HearFault;
use crate::groups::{left_at, term_at};
use crate::list::after_head;
use crate::meaning::Said;
use crate::members::members_at;
use crate::process::member_at;
use crate::rows::push_rows;
use crate::stated::stated_at;
use dist_types::Items;
use std::alloc::Global;

/// Reads what a process of a scope says, without the byte 131 before the term.
pub fn hear(alloc: Global, term: &[u8]) -> Result<Said, HearFault>
    // What is read is meant by a message that the bytes spell.
    ensures found { IfOk result (λ said. (m : PgMessage) × SpellsPg term.now m ×
        (said ≡ meant m)) }
    // A message that they spell is read, where there is memory, and where its rows aren't too many.
    ensures only { (m : PgMessage) → SpellsPg term.now m →
        MatchResult result (λ said. said ≡ meant m) (IsFaultOf (rows_meant m)) }
{
    if let Some(rest) = after_head(2, b"discover", term) {
        return discover_in(alloc, rest);
    }
    if let Some(rest) = after_head(2, b"$gen_cast", term) {
        return sync_in(alloc, rest);
    }
    if let Some(rest) = after_head(4, b"join", term) {
        return join_in(alloc, rest);
    }
    if let Some(rest) = after_head(4, b"leave", term) {
        return leave_in(alloc, rest);
    }
    Err(HearFault::NoMessage)
}

fn discover_in(alloc: Global, bytes: &[u8]) -> Result<Said, HearFault>
    ensures found { IfOk result (λ said. (p : Pid) × IsPid p × (bytes.now ≡ pid_bytes p) ×
        (said ≡ saids.Discover p)) }
    ensures only { (p : Pid) → IsPid p → bytes.now ≡ pid_bytes p →
        MatchResult result (λ said. said ≡ saids.Discover p) (IsFaultOf []) }
{
    let (pid, rest) = member_at(alloc, bytes, None)?;
    if !rest.is_empty() {
        return Err(HearFault::NoMessage);
    }
    Ok(Said::Discover(pid))
}

fn sync_in(alloc: Global, bytes: &[u8]) -> Result<Said, HearFault>
    ensures found { IfOk result (λ said. (p : Pid) × IsPid p × ((ss : List Stated) ×
        IsList IsStated ss × (bytes.now ≡ sync_inner p ss) ×
        (said ≡ saids.Sync p (rows_stated ss)))) }
    ensures only { (p : Pid) (ss : List Stated) → IsPid p → IsList IsStated ss →
        bytes.now ≡ sync_inner p ss →
        MatchResult result (λ said. said ≡ saids.Sync p (rows_stated ss))
        (IsFaultOf (rows_stated ss)) }
{
    let Some(rest) = after_head(3, b"sync", bytes) else {
        return Err(HearFault::NoMessage);
    };
    let (pid, rest) = member_at(alloc, rest, None)?;
    let (rows, rest) = stated_at(alloc, rest)?;
    if !rest.is_empty() {
        return Err(HearFault::NoMessage);
    }
    Ok(Said::Sync(pid, Items::of(rows)))
}

fn join_in(alloc: Global, bytes: &[u8]) -> Result<Said, HearFault>
    ensures found { IfOk result (λ said. (p : Pid) × IsPid p × ((g : List ℕ) × SpellsTerm g ×
        ((ms : Members) × AreMembers ms × (bytes.now ≡ join_inner p g ms) ×
        (said ≡ saids.Join p (rows_in g (members_of ms)))))) }
    ensures only { (p : Pid) (g : List ℕ) (ms : Members) → IsPid p → SpellsTerm g → AreMembers ms →
        bytes.now ≡ join_inner p g ms →
        MatchResult result (λ said. said ≡ saids.Join p (rows_in g (members_of ms)))
        (IsFaultOf (rows_in g (members_of ms))) }
{
    let (pid, rest) = member_at(alloc, bytes, None)?;
    let (group, rest) = term_at(rest)?;
    let (pids, rest) = members_at(alloc, rest)?;
    if !rest.is_empty() {
        return Err(HearFault::NoMessage);
    }
    let mut rows = Vec::new(alloc);
    push_rows(alloc, group, &pids, &mut rows)?;
    Ok(Said::Join(pid, Items::of(rows)))
}

fn leave_in(alloc: Global, bytes: &[u8]) -> Result<Said, HearFault>
    ensures found { IfOk result (λ said. (p : Pid) × IsPid p × ((ms : Members) × AreMembers ms ×
        ((gs : Groups) × AreGroups gs × (bytes.now ≡ leave_inner p ms gs) ×
        (said ≡ saids.Leave p (rows_left (members_of ms) (groups_of gs)))))) }
    ensures only { (p : Pid) (ms : Members) (gs : Groups) → IsPid p → AreMembers ms → AreGroups gs →
        bytes.now ≡ leave_inner p ms gs →
        MatchResult result (λ said. said ≡ saids.Leave p (rows_left (members_of ms) (groups_of gs)))
        (IsFaultOf (rows_left (members_of ms) (groups_of gs))) }
{
    let (pid, rest) = member_at(alloc, bytes, None)?;
    let (pids, rest) = members_at(alloc, rest)?;
    let (rows, rest) = left_at(alloc, rest, &pids)?;
    if !rest.is_empty() {
        return Err(HearFault::NoMessage);
    }
    Ok(Said::Leave(pid, Items::of(rows)))
}
