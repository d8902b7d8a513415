//! The steps of a world, over its nodes and its wires. Each finds its first fault, or has one node
//! make one step.
ghost use Rattle.std.specs.Prelude.{◌≡◌, ◌<◌, ◌++◌, List, IfOk, OnOk, length, vec_len, vec_capacity};
ghost use Rattle.pg_world.specs.declared.world_step.WorldStep.TheVariants as step;
ghost use Rattle.pg_world.specs.World.{Wire, world};
ghost use Rattle.pg_world.specs.Queues.{place_dialled};
ghost use Rattle.pg_world.specs.Steps.{new_wire, IsWorldStep, Turns, asks, is_wrong, end_at, opener_at};

use crate::fault::WorldFault;
use crate::node::Node;
use crate::queue::{ENTRIES_FULL, OUT_OF_MEMORY, plain};
use crate::side::{End, Side};
use crate::wire::{Wire, link_opened};
use crate::world_step::{WorldReply, WorldStep};
use dist_types::{NodeName, OutOfMemory, TryClone};
use node_core::CoreFault;
use policy_audit::{Event, Reply};
use std::alloc::Global;

/// One step of one node, or the first fault, which changes nothing.
pub(crate) fn make_step(
    alloc: Global,
    nodes: &mut [Node],
    wires: &mut Vec<Wire>,
    step: WorldStep,
) -> Result<WorldReply, WorldFault>
    ensures { IsWorldStep (world nodes.old wires.old.items) step (world nodes.new wires.new.items)
        result }
{
    match step {
        WorldStep::Call { node, seat, event } => call(nodes, node, seat, event),
        WorldStep::Dial {
            from,
            to,
            seat,
            challenge,
        } => dial(nodes, wires, from, to, seat, challenge),
        WorldStep::Accept {
            wire,
            seat,
            challenge,
        } => accept(nodes, wires, wire, seat, challenge),
        WorldStep::Hand { wire, side, seat } => hand(nodes, wires, wire, side, seat),
        WorldStep::Deliver { wire, side, seat } => deliver(alloc, nodes, wires, wire, side, seat),
        WorldStep::Cut { wire, side, seat } => cut(nodes, wires, wire, side, seat),
        WorldStep::Restart { node, seat } => restart(nodes, node, seat),
    }
}

/// A node answers a call.
fn call(nodes: &mut [Node], node: usize, seat: u32, event: Event) -> Result<WorldReply, WorldFault>
    ensures { (xs : List Wire) → IsWorldStep (world nodes.old xs) (step.Call node seat event)
        (world nodes.new xs) result }
{
    if is_wrong(&event) {
        drop(event);
        return Err(WorldFault::WrongEvent);
    }
    ask(nodes, node, seat, event)
}

/// A node begins anew.
fn restart(nodes: &mut [Node], node: usize, seat: u32) -> Result<WorldReply, WorldFault>
    ensures { (xs : List Wire) → IsWorldStep (world nodes.old xs) (step.Restart node seat)
        (world nodes.new xs) result }
{
    ask(nodes, node, seat, Event::Restart)
}

/// A node dials another. The name is copied and the wire has its room before the node's step.
fn dial(
    nodes: &mut [Node],
    wires: &mut Vec<Wire>,
    from: usize,
    to: usize,
    seat: u32,
    challenge: u32,
) -> Result<WorldReply, WorldFault>
    ensures { IsWorldStep (world nodes.old wires.old.items) (step.Dial from to seat challenge)
        (world nodes.new wires.new.items) result }
{
    if from >= nodes.len() || to >= nodes.len() {
        return Err(WorldFault::NoNode);
    }
    if nodes[from].is_full() {
        return Err(ENTRIES_FULL);
    }
    let alloc = *wires.allocator();
    let Ok(name) = name_and_room(alloc, &nodes[to], wires) else {
        return Err(OUT_OF_MEMORY);
    };
    let core = &mut nodes[from];
    let answer = core.step(seat, Event::Dial(name, challenge));
    let place = add_wire(alloc, wires, from, to, link_opened(&answer));
    place_dialled(place, answer)
}

/// The other node of a wire opens its link.
fn accept(
    nodes: &mut [Node],
    wires: &mut [Wire],
    wire: usize,
    seat: u32,
    challenge: u32,
) -> Result<WorldReply, WorldFault>
    ensures { IsWorldStep (world nodes.old wires.old) (step.Accept wire seat challenge)
        (world nodes.new wires.new) result }
{
    let node = opener(nodes, wires, wire)?;
    let core = &mut nodes[node];
    let wire = &mut wires[wire];
    wire.accept(core, seat, challenge)
}

/// The frames that wait at a side of a wire are under way to the other.
fn hand(
    nodes: &mut [Node],
    wires: &mut [Wire],
    wire: usize,
    side: Side,
    seat: u32,
) -> Result<WorldReply, WorldFault>
    ensures { IsWorldStep (world nodes.old wires.old) (step.Hand wire side seat)
        (world nodes.new wires.new) result }
{
    let end = end_of(nodes, wires, wire, side)?;
    let core = &mut nodes[end.node];
    let wire = &mut wires[wire];
    wire.hand(side, core, seat, end.link)
}

/// The oldest frame under way to a side of a wire comes there.
fn deliver(
    alloc: Global,
    nodes: &mut [Node],
    wires: &mut [Wire],
    wire: usize,
    side: Side,
    seat: u32,
) -> Result<WorldReply, WorldFault>
    ensures { IsWorldStep (world nodes.old wires.old) (step.Deliver wire side seat)
        (world nodes.new wires.new) result }
{
    let end = end_of(nodes, wires, wire, side)?;
    let core = &mut nodes[end.node];
    let wire = &mut wires[wire];
    if !wire.carries(side) {
        return Err(WorldFault::NothingUnderWay);
    }
    wire.deliver(alloc, side, core, seat, end.link)
}

/// The link at a side of a wire is lost, and what is under way to it.
fn cut(
    nodes: &mut [Node],
    wires: &mut [Wire],
    wire: usize,
    side: Side,
    seat: u32,
) -> Result<WorldReply, WorldFault>
    ensures { IsWorldStep (world nodes.old wires.old) (step.Cut wire side seat)
        (world nodes.new wires.new) result }
{
    let end = end_of(nodes, wires, wire, side)?;
    let core = &mut nodes[end.node];
    let wire = &mut wires[wire];
    wire.cut(side, core, seat, end.link)
}

/// A node answers an event, if it is there.
fn ask(nodes: &mut [Node], node: usize, seat: u32, event: Event) -> Result<WorldReply, WorldFault>
    ensures { (xs : List Wire) → Turns (world nodes.old xs) (step.Call node seat event)
        (asks nodes.old node seat event) (world nodes.new xs) result }
{
    if node >= nodes.len() {
        drop(event);
        return Err(WorldFault::NoNode);
    }
    let core = &mut nodes[node];
    plain(core.step(seat, event))
}

/// The link at a side of a wire, and the node there.
fn end_of(nodes: &[Node], wires: &[Wire], wire: usize, side: Side) -> Result<End, WorldFault>
    ensures exact { result ≡ end_at (world nodes.now wires.now) wire side }
    ensures within { IfOk result (λ end. (end.node < length nodes.now)
        × (wire < length wires.now)) }
{
    if wire >= wires.len() {
        return Err(WorldFault::NoWire);
    }
    let wire = &wires[wire];
    let node = wire.node(side);
    if node >= nodes.len() {
        return Err(WorldFault::NoNode);
    }
    match wire.link(side) {
        Some(link) => Ok(End { node, link }),
        None => Err(WorldFault::NotAccepted),
    }
}

/// The node that is to open its link of a wire.
fn opener(nodes: &[Node], wires: &[Wire], wire: usize) -> Result<usize, WorldFault>
    ensures exact { result ≡ opener_at (world nodes.now wires.now) wire }
    ensures within { IfOk result (λ node. (node < length nodes.now) × (wire < length wires.now)) }
{
    if wire >= wires.len() {
        return Err(WorldFault::NoWire);
    }
    let wire = &wires[wire];
    let node = wire.node(Side::Acceptor);
    if node >= nodes.len() {
        return Err(WorldFault::NoNode);
    }
    match wire.link(Side::Acceptor) {
        Some(_) => Err(WorldFault::AcceptedAlready),
        None => Ok(node),
    }
}

/// A copy of a node's name, and room for one wire.
fn name_and_room(alloc: Global, node: &Node, wires: &mut Vec<Wire>) -> Result<NodeName, OutOfMemory>
    ensures name { IfOk result (λ name. name ≡ node.now.opening.name) }
    ensures room { OnOk result (vec_len wires.new < vec_capacity wires.new) }
    ensures same { wires.new.items ≡ wires.old.items }
{
    wires.reserve(1)?;
    node.name().try_clone(alloc)
}

/// Adds the wire of a dial that got a link, and tells its place.
fn add_wire(
    alloc: Global,
    wires: &mut Vec<Wire>,
    from: usize,
    to: usize,
    link: Option<u32>,
) -> usize
    requires { vec_len wires.old < vec_capacity wires.old }
    ensures wires { wires.new.items ≡ wires.old.items ++ new_wire from to link }
    ensures place { result ≡ length wires.old.items }
{
    let place = wires.len();
    if let Some(link) = link {
        wires.push_reserved(Wire::new(alloc, from, to, link));
    }
    place
}

/// The place of the new wire, or why there is none.
fn place_dialled(place: usize, answer: Result<Reply, CoreFault>) -> Result<WorldReply, WorldFault>
    ensures { result ≡ place_dialled place answer }
{
    match answer {
        Ok(_) => Ok(WorldReply::Wire(place)),
        Err(fault) => Err(WorldFault::Core(fault)),
    }
}

/// Whether no call makes this event.
fn is_wrong(event: &Event) -> bool
    ensures { result ≡ is_wrong event.now }
{
    matches!(
        event,
        Event::Restart
            | Event::Dial(..)
            | Event::Opened(_)
            | Event::Frame(..)
            | Event::Lost(_)
            | Event::Take(_)
    )
}
