//! Who lists whom in a group.
ghost use Rattle.std.specs.Prelude.{◌≡◌, ◌++◌, [], OnOk};
ghost use Rattle.std.specs.Option.{option_copied, option_map_or};
ghost use Rattle.world_script.specs.Showing.{pids_in, node_text, shown_text, shown_line};

use crate::named_world::NamedWorld;
use dist_types::{Group, OutOfMemory, Pid, Scope};
use node_core::{CoreFault, Query};
use pg_text::{put_bytes, put_each, put_number, put_word};
use pg_world::Node;
use policy_audit::Reply;
use std::alloc::Global;

/// Adds the line that says whom each node lists, in the order of the nodes.
pub fn put_shown(
    alloc: Global,
    world: &NamedWorld,
    scope: &Scope,
    group: &Group,
    out: &mut Vec<u8>,
) -> Result<(), OutOfMemory>
    ensures { OnOk result (out.new.items ≡ out.old.items
        ++ shown_line scope.now group.now world.now.nodes) }
{
    put_word("show", out)?;
    for place in 0..world.nodes() {
        put_place(alloc, world.node(place), scope, group, out)?;
    }
    put_word("\n", out)
}

/// Adds the node at a place, if there is one.
fn put_place(
    alloc: Global,
    found: Option<&Node>,
    scope: &Scope,
    group: &Group,
    out: &mut Vec<u8>,
) -> Result<(), OutOfMemory>
    ensures { OnOk result (out.new.items ≡ out.old.items
        ++ option_map_or (shown_text scope.now group.now) (option_copied found.entry) []) }
{
    match found {
        Some(node) => put_node(alloc, node, scope, group, out),
        None => Ok(()),
    }
}

/// Adds a node, how many processes it lists, and each. Where the scope doesn't run it lists none.
fn put_node(
    alloc: Global,
    node: &Node,
    scope: &Scope,
    group: &Group,
    out: &mut Vec<u8>,
) -> Result<(), OutOfMemory>
    ensures { OnOk result (out.new.items ≡ out.old.items
        ++ shown_text scope.now group.now node.now) }
{
    match node.look(scope, Query::Members(group)) {
        Ok(reply) => put_listed(alloc, node, pids_in(&reply), out),
        Err(CoreFault::Refused(_)) => put_listed(alloc, node, &[], out),
        Err(CoreFault::OutOfMemory) => Err(OutOfMemory),
    }
}

/// The processes of an answer.
fn pids_in(reply: &Reply) -> &[Pid]
    ensures { result.now ≡ pids_in reply.now }
{
    match reply {
        Reply::Pids(pids) => pids.as_slice(),
        _ => &[],
    }
}

/// Adds a node, how many processes these are, and each.
fn put_listed(
    alloc: Global,
    node: &Node,
    pids: &[Pid],
    out: &mut Vec<u8>,
) -> Result<(), OutOfMemory>
    ensures { OnOk result (out.new.items ≡ out.old.items
        ++ node_text node.now.opening.name pids.now) }
{
    put_word(" ", out)?;
    put_bytes(node.name().as_bytes(), out)?;
    put_number(": ", pids.len() as u64, out)?;
    put_each(alloc, pids, out)
}
