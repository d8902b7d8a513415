//! Events as fields of a line.
ghost use Rattle.std.specs.Prelude.{◌≡◌, ◌++◌, OnOk, codes};
ghost use Rattle.pg_archive.specs.Events.{arguments_text, event_text, asked_text, told_head, head_text, place_fields, peer_field, dial_fields, frame_fields};
ghost use Rattle.pg_archive.specs.Texts.{list_text, pid_text};

use crate::archived::{put_field, put_pair};
use crate::asked::{Asked, Told};
use dist_types::{Body, Group, NodeName, OutOfMemory, Pids, Scope};
use pg_text::{kind, put_number, put_word};
use policy_audit::Event;
use std::alloc::Global;

/// Adds the fields before the verdict.
#[tactic(auto, unfolding(crate::specs::Events::head_text))]
pub fn put_told(alloc: Global, told: &Told, out: &mut Vec<u8>) -> Result<(), OutOfMemory>
    ensures { OnOk result (out.new.items ≡ out.old.items ++ told_head told.now) }
{
    put_number("{\"entry\":", u64::from(told.number), out)?;
    put_number(",\"seat\":", u64::from(told.seat), out)?;
    put_word(",\"event\":", out)?;
    put_asked(alloc, &told.asked, out)?;
    put_word(",\"verdict\":", out)
}

/// Adds the same of an entry.
#[tactic(auto, unfolding(crate::specs::Events::head_text))]
pub fn put_head(
    alloc: Global,
    number: u32,
    seat: u32,
    event: &Event,
    out: &mut Vec<u8>,
) -> Result<(), OutOfMemory>
    ensures { OnOk result (out.new.items ≡ out.old.items
        ++ head_text number seat (event_text event.now)) }
{
    put_number("{\"entry\":", u64::from(number), out)?;
    put_number(",\"seat\":", u64::from(seat), out)?;
    put_word(",\"event\":", out)?;
    put_event(alloc, event, out)?;
    put_word(",\"verdict\":", out)
}

/// Adds what a line tells of an event.
fn put_asked(alloc: Global, asked: &Asked, out: &mut Vec<u8>) -> Result<(), OutOfMemory>
    ensures { OnOk result (out.new.items ≡ out.old.items ++ asked_text asked.now) }
{
    match asked {
        Asked::SetCookie => put_word("\"SetCookie\"", out),
        Asked::SetCookieFor(peer) => {
            put_word("\"SetCookieFor\"", out)?;
            put_peer(alloc, peer, out)
        }
        Asked::Event(event) => put_event(alloc, event, out),
    }
}

/// Adds the kind of an event, and its arguments.
fn put_event(alloc: Global, event: &Event, out: &mut Vec<u8>) -> Result<(), OutOfMemory>
    ensures { OnOk result (out.new.items ≡ out.old.items ++ event_text event.now) }
{
    put_word("\"", out)?;
    put_word(kind(event), out)?;
    put_word("\"", out)?;
    put_arguments(alloc, event, out)
}

/// Adds the arguments of an event. No cookie is told.
fn put_arguments(alloc: Global, event: &Event, out: &mut Vec<u8>) -> Result<(), OutOfMemory>
    ensures { OnOk result (out.new.items ≡ out.old.items ++ arguments_text event.now) }
{
    match event {
        Event::Restart | Event::SetCookie(_) | Event::Spawn => Ok(()),
        Event::SetCookieFor(peer, _) | Event::Disconnect(peer) => put_peer(alloc, peer, out),
        Event::Allow(names) => put_field(alloc, ",\"names\":", names, out),
        Event::StartScope(scope)
        | Event::StopScope(scope)
        | Event::Groups(scope)
        | Event::LocalGroups(scope)
        | Event::MonitorScope(scope) => put_field(alloc, ",\"scope\":", scope, out),
        Event::Exit(pid) => put_field(alloc, ",\"pid\":", pid, out),
        Event::Join(scope, group, pids) | Event::Leave(scope, group, pids) => {
            put_named(alloc, scope, group, pids, out)
        }
        Event::Members(scope, group)
        | Event::LocalMembers(scope, group)
        | Event::Monitor(scope, group) => put_place(alloc, scope, group, out),
        Event::Demonitor(number) | Event::Updates(number) => {
            put_field(alloc, ",\"ref\":", number, out)
        }
        Event::Dial(peer, challenge) => put_dial(alloc, peer, *challenge, out),
        Event::Opened(challenge) => put_field(alloc, ",\"challenge\":", challenge, out),
        Event::Lost(link) | Event::Take(link) => put_field(alloc, ",\"link\":", link, out),
        Event::Frame(link, body) => put_frame(alloc, *link, body, out),
    }
}

fn put_peer(alloc: Global, peer: &NodeName, out: &mut Vec<u8>) -> Result<(), OutOfMemory>
    ensures { OnOk result (out.new.items ≡ out.old.items ++ peer_field peer.now) }
{
    put_field(alloc, ",\"peer\":", peer, out)
}

fn put_dial(
    alloc: Global,
    peer: &NodeName,
    challenge: u32,
    out: &mut Vec<u8>,
) -> Result<(), OutOfMemory>
    ensures { OnOk result (out.new.items ≡ out.old.items ++ dial_fields peer.now challenge) }
{
    put_pair(
        alloc,
        ",\"peer\":",
        peer,
        ",\"challenge\":",
        &challenge,
        out,
    )
}

fn put_frame(alloc: Global, link: u32, body: &Body, out: &mut Vec<u8>) -> Result<(), OutOfMemory>
    ensures { OnOk result (out.new.items ≡ out.old.items ++ frame_fields link body.now) }
{
    put_number(",\"link\":", u64::from(link), out)?;
    put_field(alloc, ",\"body\":", body, out)
}

/// Adds a scope and a group.
fn put_place(
    alloc: Global,
    scope: &Scope,
    group: &Group,
    out: &mut Vec<u8>,
) -> Result<(), OutOfMemory>
    ensures { OnOk result (out.new.items ≡ out.old.items ++ place_fields scope.now group.now) }
{
    put_field(alloc, ",\"scope\":", scope, out)?;
    put_field(alloc, ",\"group\":", group, out)
}

/// Adds a scope, a group and processes.
fn put_named(
    alloc: Global,
    scope: &Scope,
    group: &Group,
    pids: &Pids,
    out: &mut Vec<u8>,
) -> Result<(), OutOfMemory>
    ensures { OnOk result (out.new.items ≡ out.old.items
        ++ (place_fields scope.now group.now ++ codes ",\"pids\":"
        ++ list_text pid_text pids.now)) }
{
    put_place(alloc, scope, group, out)?;
    put_field(alloc, ",\"pids\":", pids, out)
}
