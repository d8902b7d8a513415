//! Verdicts as fields of a line.
ghost use Rattle.std.specs.Prelude.{◌≡◌, ◌++◌, OnOk};
ghost use Rattle.pg_archive.specs.Verdicts.{verdict_text, accepted_fields, reply_fields, rule_fields};

use crate::archived::put_field;
use dist_types::{NodeName, OutOfMemory};
use pg_text::{put_number, put_word};
use policy_audit::{Contents, Members, Reply, Rule, Verdict};
use std::alloc::Global;

/// Adds how an event was judged: its answer, or the rule that it broke.
pub fn put_verdict(alloc: Global, verdict: &Verdict, out: &mut Vec<u8>) -> Result<(), OutOfMemory>
    ensures { OnOk result (out.new.items ≡ out.old.items ++ verdict_text verdict.now) }
{
    match verdict {
        Verdict::Accepted(reply) => put_accepted(alloc, reply, out),
        Verdict::Refused(rule) => put_rule(*rule, out),
    }
}

fn put_accepted(alloc: Global, reply: &Reply, out: &mut Vec<u8>) -> Result<(), OutOfMemory>
    ensures { OnOk result (out.new.items ≡ out.old.items ++ accepted_fields reply.now) }
{
    put_between(alloc, "\"accepted\",\"reply\":", reply, "}", out)
}

/// Adds an answer between two words.
fn put_between(
    alloc: Global,
    before: &str,
    reply: &Reply,
    behind: &str,
    out: &mut Vec<u8>,
) -> Result<(), OutOfMemory>
    ensures { OnOk result (out.new.items
        ≡ out.old.items ++ (before.now ++ reply_fields reply.now ++ behind.now)) }
{
    put_word(before, out)?;
    put_reply(alloc, reply, out)?;
    put_word(behind, out)
}

fn put_rule(rule: Rule, out: &mut Vec<u8>) -> Result<(), OutOfMemory>
    ensures { OnOk result (out.new.items ≡ out.old.items ++ rule_fields rule) }
{
    put_number("\"refused\",\"rule\":", u64::from(rule.number()), out)?;
    put_word(",\"name\":\"", out)?;
    put_word(rule.name(), out)?;
    put_word("\"", out)
}

/// Adds an answer, but for the brace behind it.
fn put_reply(alloc: Global, reply: &Reply, out: &mut Vec<u8>) -> Result<(), OutOfMemory>
    ensures { OnOk result (out.new.items ≡ out.old.items ++ reply_fields reply.now) }
{
    match reply {
        Reply::Done => put_word("{\"ok\":true", out),
        Reply::Pid(pid) => put_field(alloc, "{\"pid\":", pid, out),
        Reply::Link(number) => put_field(alloc, "{\"link\":", number, out),
        Reply::Up {
            peer,
            creation,
            visible,
        } => put_up(alloc, peer, *creation, *visible, out),
        Reply::Pids(pids) => put_field(alloc, "{\"pids\":", pids, out),
        Reply::Groups(groups) => put_field(alloc, "{\"groups\":", groups, out),
        Reply::Ref { number, pids } => put_ref(alloc, *number, pids, out),
        Reply::ScopeRef { number, groups } => put_scope_ref(alloc, *number, groups, out),
        Reply::Updates(updates) => put_field(alloc, "{\"updates\":", updates, out),
        Reply::Out(frames) => put_field(alloc, "{\"out\":", frames, out),
    }
}

fn put_up(
    alloc: Global,
    peer: &NodeName,
    creation: u32,
    visible: bool,
    out: &mut Vec<u8>,
) -> Result<(), OutOfMemory>
    ensures { OnOk result (out.new.items ≡ out.old.items
        ++ reply_fields (Reply.Up peer.now creation visible)) }
{
    put_field(alloc, "{\"up\":", peer, out)?;
    put_field(alloc, ",\"creation\":", &creation, out)?;
    put_field(alloc, ",\"visible\":", &visible, out)
}

/// Adds the number of a monitor of a group, and the members that it sees at first.
fn put_ref(alloc: Global, number: u32, pids: &Members, out: &mut Vec<u8>) -> Result<(), OutOfMemory>
    ensures { OnOk result (out.new.items ≡ out.old.items
        ++ reply_fields (Reply.Ref number pids.now)) }
{
    put_field(alloc, "{\"ref\":", &number, out)?;
    put_field(alloc, ",\"pids\":", pids, out)
}

/// Adds the number of a monitor of a scope, and the groups that it sees at first.
fn put_scope_ref(
    alloc: Global,
    number: u32,
    groups: &Contents,
    out: &mut Vec<u8>,
) -> Result<(), OutOfMemory>
    ensures { OnOk result (out.new.items ≡ out.old.items
        ++ reply_fields (Reply.ScopeRef number groups.now)) }
{
    put_field(alloc, "{\"ref\":", &number, out)?;
    put_field(alloc, ",\"groups\":", groups, out)
}
