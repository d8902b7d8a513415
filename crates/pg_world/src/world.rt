//! A world.
ghost use Rattle.std.specs.Prelude.{vec_capacity, ◌≡◌, [], ◌<◌, ◌≤◌, IsTrue, IsFalse, IfOk, IfErr, IfSome, OnOk, length, ℕ, Some, slice_get, ◌≢◌};
ghost use Rattle.std.specs.Option.{option_copied};
ghost use Rattle.policy_audit.specs.History.{History};
ghost use Rattle.pg_world.specs.World.{world, histories, DifferInName, ShareAName};
ghost use Rattle.pg_world.specs.Steps.{IsWorldStep};
ghost use Rattle.pg_world.specs.Sound.{IsWorld};
ghost use Rattle.pg_world.specs.Starting.{AreNew, HaveEntries, IsNodesFault};
ghost use Rattle.pg_world.specs.Views.{ListMoments, ListNow};
ghost use Rattle.pg_world.specs.HandedOut.{IsPageOf};

use crate::fault::{NoWorld, NodesFault, WorldFault};
use crate::limits::{has_entries, step_is_written};
use crate::moving::make_step;
use crate::node::Node;
use crate::wire::Wire;
use crate::world_step::{WorldReply, WorldStep};
use node_core::NodeCore;
use policy_audit::Page;
use std::alloc::Global;
use std::marker::Model;

/// Several nodes, and the wires between them.
pub struct World {
    alloc: Global,
    nodes: Vec<Node>,
    wires: Vec<Wire>,
}

impl Drop for World {
    fn drop(self) {
        let World {
            alloc: _,
            nodes: _,
            wires: _,
        } = self;
    }
}

impl Model for World {
    ghost use Rattle.pg_world.specs.World.{Nodes, world};
    ghost use Rattle.pg_world.specs.Sound.{IsWorld};

    ghost Value = { Nodes };

    ghost view = { λ w. world w.nodes.items w.wires.items };

    ghost invariant = { λ w. IsWorld (world w.nodes.items w.wires.items) };
}

impl World {
    /// A world of these nodes, without wires. They come back where two have one name, where one has
    /// seen something, and then for want of memory.
    pub fn new(alloc: Global, nodes: Vec<NodeCore>) -> Result<World, NoWorld>
        ensures ok { IfOk result (λ w. w ≡ world (histories nodes.items) []) }
        ensures names { OnOk result (DifferInName (histories nodes.items)) }
        ensures unused { OnOk result (AreNew (histories nodes.items)) }
        ensures refused { IfErr result (λ no. IsNodesFault no.fault (histories nodes.items)) }
        ensures back { IfErr result (λ no. no.nodes ≡ nodes) }
    {
        if share_a_name(nodes.as_slice()) {
            let fault = NodesFault::SameName;
            return Err(NoWorld { fault, nodes });
        }
        if have_entries(nodes.as_slice()) {
            let fault = NodesFault::HasEntries;
            return Err(NoWorld { fault, nodes });
        }
        let Ok(mut taken) = Vec::with_capacity(alloc, nodes.len()) else {
            let fault = NodesFault::OutOfMemory;
            return Err(NoWorld { fault, nodes });
        };
        take_all(&mut taken, nodes);
        Ok(World {
            alloc,
            nodes: taken,
            wires: Vec::new(alloc),
        })
    }

    /// The node at a place, counted from 0 in the order in which nodes were handed in. What it
    /// lists of another is that one's own rows of one moment, and where nothing is left to do, of
    /// now.
    pub fn node(&self, place: usize) -> Option<&Node>
        ensures found { option_copied result ≡ slice_get self.now.nodes place }
        ensures sound { IsWorld self.now }
        ensures moments { ListMoments self.now }
        ensures settled { ListNow self.now }
    {
        self.nodes.get(place)
    }

    /// Hands out the oldest page of entries of the node at a place, if that can do without it. The
    /// world stays what it is.
    pub fn forget(&mut self, place: usize) -> Option<Page>
        ensures same { self.new ≡ self.old }
        ensures page { IfSome result (λ page. IsPageOf place self.old page) }
    {
        let node = self.nodes.get_mut(place)?;
        node.forget()
    }

    /// How many wires there are. Their places are the numbers below it.
    pub fn wires(&self) -> usize
        ensures { result ≡ length self.now.wires }
    {
        self.wires.len()
    }

    /// One step of one node, or the first fault, which changes nothing.
    pub fn step(&mut self, step: WorldStep) -> Result<WorldReply, WorldFault>
        ensures step { IsWorldStep self.old step self.new result }
        ensures moments { ListMoments self.new }
        ensures settled { ListNow self.new }
    {
        step_is_written(&step);
        make_step(self.alloc, &mut self.nodes, &mut self.wires, step)
    }
}

/// Puts nodes of which a world is made behind each other, in the room that there is.
fn take_all(taken: &mut Vec<Node>, nodes: Vec<NodeCore>)
    requires { (taken.old.items ≡ []) × (length nodes.items ≤ vec_capacity taken.old) }
    ensures { taken.new.items ≡ histories nodes.items }
{
    for core in nodes {
        taken.push_reserved(Node::of(core));
    }
}

/// Whether two of the nodes have one name.
fn share_a_name(nodes: &[NodeCore]) -> bool
    ensures yes { IsTrue result → ShareAName (histories nodes.now) }
    ensures no { IsFalse result → DifferInName (histories nodes.now) }
{
    for place in 0..nodes.len() {
        if is_named_before(nodes, place) {
            return true;
        }
    }
    false
}

/// Whether a node before this place has the name of the node there.
fn is_named_before(nodes: &[NodeCore], place: usize) -> bool
    requires { place < length nodes.now }
    ensures yes { IsTrue result → ShareAName (histories nodes.now) }
    ensures no { IsFalse result → (i : ℕ) (h k : History) → i < place
        → slice_get (histories nodes.now) i ≡ Some h
        → slice_get (histories nodes.now) place ≡ Some k → h.opening.name ≢ k.opening.name }
{
    for earlier in 0..place {
        if nodes[earlier].name() == nodes[place].name() {
            return true;
        }
    }
    false
}

/// Whether a node has seen something.
fn have_entries(nodes: &[NodeCore]) -> bool
    ensures yes { IsTrue result → HaveEntries (histories nodes.now) }
    ensures no { IsFalse result → AreNew (histories nodes.now) }
{
    for place in 0..nodes.len() {
        if has_entries(&nodes[place]) {
            return true;
        }
    }
    false
}
