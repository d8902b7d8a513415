//! Requests for which the node is only read. A node that doesn't know the pass of a connection
//! tells it nothing else.
ghost use Rattle.std.specs.Prelude.{◌≡◌, ◌++◌, OnOk};
ghost use Rattle.node_core.specs.Reading.{IsAnswer};
ghost use Rattle.pg_text.specs.Answers.{spaced};
ghost use Rattle.pg_session.specs.Answers.{AnswersRead, IsInOrder, nodes_line};
ghost use Rattle.pg_session.specs.declared.request.Request.TheVariants as requests;

use crate::caller::{Caller, put_stranger};
use dist_types::{NodeName, OutOfMemory};
use node_core::{CoreFault, NodeCore};
use node_threads::Node;
use pg_text::{put_bytes, put_numbered_line, put_step, put_word, query_of};
use policy_audit::{Event, NodeNames, Reply};
use std::sync::Wait;

/// The commands, as `help` answers them.
pub const HELP: &str =
    "help cookie COOKIE | cookie_for NAME COOKIE | allow NAME.. | disconnect NAME | \
dial NAME=HOST:PORT | undial NAME | reopen | nodes | start SCOPE | stop SCOPE | spawn | \
exit PROCESS | join SCOPE GROUP PROCESS.. | leave SCOPE GROUP PROCESS.. | members SCOPE GROUP | \
local_members SCOPE GROUP | groups SCOPE | local_groups SCOPE | monitor SCOPE GROUP | \
monitor_scope SCOPE | demonitor REF | size | audit ENTRY | self | status | links | dials | \
scopes | allowed | clients | refusals | help | quit | drain\n";

/// Adds the answer to a query. The lock is free again while it is printed.
pub fn put_query<R: Wait>(
    rt: &R,
    node: &Node,
    caller: &Caller,
    event: Event,
    out: &mut Vec<u8>,
) -> Result<(), OutOfMemory>
    ensures { OnOk result (AnswersRead (requests.Query event) caller.now out.old.items
        out.new.items) }
{
    let shared = node.shared.lock(rt);
    if !caller.is_known_to(&shared) {
        drop(event);
        return put_stranger(out);
    }
    let answer = look(shared.core(), &event);
    drop(shared);
    drop(event);
    let added = put_step(*out.allocator(), &answer, out);
    drop(answer);
    added
}

/// Answers a query as the node stands, with no entry.
fn look(core: &NodeCore, event: &Event) -> Result<Reply, CoreFault>
    ensures { IsAnswer core.now.history event.now result }
{
    match query_of(event) {
        Some((scope, query)) => core.look(scope, query),
        None => Err(CoreFault::OutOfMemory),
    }
}

/// Adds how many entries there are.
pub fn put_size<R: Wait>(
    rt: &R,
    node: &Node,
    caller: &Caller,
    out: &mut Vec<u8>,
) -> Result<(), OutOfMemory>
    ensures { OnOk result (AnswersRead requests.Size caller.now out.old.items out.new.items) }
{
    let shared = node.shared.lock(rt);
    if !caller.is_known_to(&shared) {
        return put_stranger(out);
    }
    let size = shared.core().audit().len();
    drop(shared);
    put_numbered_line("size ", size as u64, out)
}

/// Adds an entry of the audit, or that it was handed out.
pub fn put_found<R: Wait>(
    rt: &R,
    node: &Node,
    caller: &Caller,
    number: u32,
    out: &mut Vec<u8>,
) -> Result<(), OutOfMemory>
    ensures { OnOk result (AnswersRead (requests.Audit number) caller.now out.old.items
        out.new.items) }
{
    let shared = node.shared.lock(rt);
    if !caller.is_known_to(&shared) {
        return put_stranger(out);
    }
    pg_text::put_found(shared.core().audit(), number, out)
}

/// Adds which peers are up.
pub fn put_peers<R: Wait>(
    rt: &R,
    node: &Node,
    caller: &Caller,
    out: &mut Vec<u8>,
) -> Result<(), OutOfMemory>
    ensures { OnOk result (AnswersRead requests.Nodes caller.now out.old.items out.new.items) }
{
    let shared = node.shared.lock(rt);
    if !caller.is_known_to(&shared) {
        return put_stranger(out);
    }
    let names = shared.core().peers();
    drop(shared);
    let names = in_order(names?);
    put_nodes(names.as_slice(), out)
}

/// These names, ascending.
fn in_order(names: NodeNames) -> Vec<NodeName>
    ensures { IsInOrder names result.items }
{
    let mut names = names.into_vec();
    names.sort_unstable();
    names
}

fn put_nodes(names: &[NodeName], out: &mut Vec<u8>) -> Result<(), OutOfMemory>
    ensures { OnOk result (out.new.items ≡ out.old.items ++ nodes_line names.now) }
{
    put_word("nodes", out)?;
    put_names(names, out)?;
    put_word("\n", out)
}

/// Adds each name behind a space.
fn put_names(names: &[NodeName], out: &mut Vec<u8>) -> Result<(), OutOfMemory>
    ensures { OnOk result (out.new.items ≡ out.old.items ++ spaced (λ n. n) names.now) }
{
    for name in names {
        put_word(" ", out)?;
        put_bytes(name.as_bytes(), out)?;
    }
    Ok(())
}
