//! Answers as lines of text.
ghost use Rattle.std.specs.Prelude.{◌≡◌, ◌++◌, OnOk, Err, codes, decimal};
ghost use Rattle.std.specs.Option.{option_copied};
ghost use Rattle.pg_text.specs.Answers.{spaced, reply_text, refusal_text, judged_text, verdict_line, step_line, entry_line, found_line};
ghost use Rattle.policy_audit.specs.declared.entry.Verdict.TheVariants.{Accepted};

use crate::event_kind::kind;
use crate::printed::{Printed, put_bytes, put_each, put_number, put_word};
use dist_types::{NodeName, OutOfMemory, Pid};
use node_core::CoreFault;
use policy_audit::{Audit, Entry, Reply, Rule, Verdict};
use std::alloc::Global;

/// Adds the line for what a step answered.
pub fn put_step(
    alloc: Global,
    stepped: &Result<Reply, CoreFault>,
    out: &mut Vec<u8>,
) -> Result<(), OutOfMemory>
    ensures { OnOk result (out.new.items ≡ out.old.items ++ step_line stepped.now) }
{
    match stepped {
        Ok(reply) => put_accepted(alloc, reply, out),
        Err(fault) => put_unanswered(*fault, out),
    }
}

/// Adds the line for what an accepted event was answered.
pub fn put_accepted(alloc: Global, reply: &Reply, out: &mut Vec<u8>) -> Result<(), OutOfMemory>
    ensures { OnOk result (out.new.items ≡ out.old.items ++ verdict_line (Accepted reply.now)) }
{
    put_reply(alloc, reply, out)?;
    put_word("\n", out)
}

/// Adds the line for a step that has no reply.
pub fn put_unanswered(fault: CoreFault, out: &mut Vec<u8>) -> Result<(), OutOfMemory>
    ensures { OnOk result (out.new.items ≡ out.old.items ++ step_line (Err fault)) }
{
    match fault {
        CoreFault::Refused(rule) => put_refusal(rule, out)?,
        CoreFault::OutOfMemory => put_word("memory", out)?,
    }
    put_word("\n", out)
}

/// Adds the line for an entry of the audit.
pub fn put_entry(found: Option<&Entry>, out: &mut Vec<u8>) -> Result<(), OutOfMemory>
    ensures { OnOk result (out.new.items ≡ out.old.items
        ++ entry_line (option_copied found.entry)) }
{
    let Some(entry) = found else {
        return put_word("none\n", out);
    };
    put_number("", u64::from(entry.number), out)?;
    put_number(" ", u64::from(entry.seat), out)?;
    put_word(" ", out)?;
    put_word(kind(&entry.event), out)?;
    put_word(" ", out)?;
    put_judged(&entry.verdict, out)?;
    put_word("\n", out)
}

/// Adds the line for the entry of that number, or that it was handed out: `forgotten`.
pub fn put_found(audit: &Audit, number: u32, out: &mut Vec<u8>) -> Result<(), OutOfMemory>
    ensures { OnOk result (out.new.items
        ≡ out.old.items ++ found_line audit.now.forgotten audit.now.entries number) }
{
    if number > 0 && number <= audit.forgotten() {
        return put_word("forgotten\n", out);
    }
    put_entry(audit.get(number), out)
}

/// Adds how an entry was judged, without its answer.
fn put_judged(verdict: &Verdict, out: &mut Vec<u8>) -> Result<(), OutOfMemory>
    ensures { OnOk result (out.new.items ≡ out.old.items ++ judged_text verdict.now) }
{
    match verdict {
        Verdict::Accepted(_) => put_word("accepted", out),
        Verdict::Refused(rule) => put_refusal(*rule, out),
    }
}

fn put_reply(alloc: Global, reply: &Reply, out: &mut Vec<u8>) -> Result<(), OutOfMemory>
    ensures { OnOk result (out.new.items ≡ out.old.items ++ reply_text reply.now) }
{
    match reply {
        Reply::Done => put_word("ok", out),
        Reply::Pid(pid) => put_new(alloc, pid, out),
        Reply::Link(number) => put_number("link ", u64::from(*number), out),
        Reply::Up {
            peer,
            creation,
            visible,
        } => put_up(peer, *creation, *visible, out),
        Reply::Pids(pids) => put_list(alloc, "pids", pids.as_slice(), out),
        Reply::Groups(groups) => put_list(alloc, "groups", groups.as_slice(), out),
        Reply::Ref { number, pids } => put_ref(alloc, *number, pids.as_slice(), out),
        Reply::ScopeRef { number, groups } => put_ref(alloc, *number, groups.as_slice(), out),
        Reply::Updates(updates) => put_list(alloc, "updates", updates.as_slice(), out),
        Reply::Out(frames) => put_list(alloc, "out", frames.as_slice(), out),
    }
}

fn put_new(alloc: Global, pid: &Pid, out: &mut Vec<u8>) -> Result<(), OutOfMemory>
    ensures { OnOk result (out.new.items ≡ out.old.items ++ reply_text (Reply.Pid pid.now)) }
{
    put_word("pid ", out)?;
    pid.put(alloc, out)
}

fn put_up(
    peer: &NodeName,
    creation: u32,
    visible: bool,
    out: &mut Vec<u8>,
) -> Result<(), OutOfMemory>
    ensures { OnOk result (out.new.items ≡ out.old.items
        ++ reply_text (Reply.Up peer.now creation visible)) }
{
    let ending = if visible { " visible" } else { " hidden" };
    put_word("up ", out)?;
    put_bytes(peer.as_bytes(), out)?;
    put_number(" ", u64::from(creation), out)?;
    put_word(ending, out)
}

/// Adds a word, and each value behind a space.
fn put_list<T: Printed>(
    alloc: Global,
    word: &str,
    items: &[T],
    out: &mut Vec<u8>,
) -> Result<(), OutOfMemory>
    ensures { OnOk result (out.new.items ≡ out.old.items ++ word.now ++ spaced T.text items.now) }
{
    put_word(word, out)?;
    put_each(alloc, items, out)
}

/// Adds the number of a monitor, and what it sees at first.
fn put_ref<T: Printed>(
    alloc: Global,
    number: u32,
    items: &[T],
    out: &mut Vec<u8>,
) -> Result<(), OutOfMemory>
    ensures { OnOk result (out.new.items ≡ out.old.items ++ codes "ref " ++ decimal number
        ++ spaced T.text items.now) }
{
    put_number("ref ", u64::from(number), out)?;
    put_each(alloc, items, out)
}

fn put_refusal(rule: Rule, out: &mut Vec<u8>) -> Result<(), OutOfMemory>
    ensures { OnOk result (out.new.items ≡ out.old.items ++ refusal_text rule) }
{
    put_number("refused ", u64::from(rule.number()), out)?;
    put_word(" ", out)?;
    put_word(rule.name(), out)
}
