//! A world whose nodes go by their names.
ghost use Rattle.std.specs.Prelude.{◌≡◌, ◌<◌, [], IfOk, IfErr, OnOk, length, slice_get};
ghost use Rattle.std.specs.Option.{option_copied};
ghost use Rattle.pg_world.specs.World.{world, histories, DifferInName};
ghost use Rattle.pg_world.specs.Starting.{AreNew, IsNodesFault};
ghost use Rattle.pg_world.specs.Steps.{IsWorldStep};
ghost use Rattle.pg_world.specs.Views.{ListMoments, ListNow};
ghost use Rattle.world_script.specs.Names.{is_named, place_of};

use dist_types::NodeName;
use node_core::NodeCore;
use pg_world::{Node, NodesFault, World, WorldFault, WorldReply, WorldStep};
use std::alloc::Global;
use std::marker::Model;

/// A world, and how many nodes it has.
pub struct NamedWorld {
    world: World,
    count: usize,
}

impl Drop for NamedWorld {
    fn drop(self) {
        let NamedWorld { world: _, count: _ } = self;
    }
}

impl Model for NamedWorld {
    ghost use Rattle.std.specs.Prelude.{◌≡◌, length};
    ghost use Rattle.pg_world.specs.World.{Nodes};

    ghost Value = { Nodes };

    ghost view = { λ named. named.world };

    ghost invariant = { λ named. named.count ≡ length named.world.nodes };
}

impl NamedWorld {
    /// The world of these nodes, which have seen nothing, unless two have one name.
    pub fn new(alloc: Global, nodes: Vec<NodeCore>) -> Result<NamedWorld, NodesFault>
        ensures ok { IfOk result (λ w. w ≡ world (histories nodes.items) []) }
        ensures names { OnOk result (DifferInName (histories nodes.items)) }
        ensures unused { OnOk result (AreNew (histories nodes.items)) }
        ensures refused { IfErr result (λ fault. IsNodesFault fault (histories nodes.items)) }
    {
        let count = nodes.len();
        match World::new(alloc, nodes) {
            Ok(world) => Ok(NamedWorld { world, count }),
            Err(none) => Err(none.fault),
        }
    }

    /// How many nodes there are.
    pub fn nodes(&self) -> usize
        ensures { result ≡ length self.now.nodes }
    {
        self.count
    }

    /// The node at a place, in the order in which they were handed in.
    pub fn node(&self, place: usize) -> Option<&Node>
        ensures { option_copied result ≡ slice_get self.now.nodes place }
    {
        self.world.node(place)
    }

    /// How many wires there are.
    pub fn wires(&self) -> usize
        ensures { result ≡ length self.now.wires }
    {
        self.world.wires()
    }

    /// The place of the node of this name; where there is none, how many nodes there are, so that a
    /// step there is refused as `NoNode`.
    pub fn place(&self, name: &NodeName) -> usize
        ensures { result ≡ place_of name.now self.now.nodes }
    {
        for place in 0..self.count {
            if self.is_named(place, name) {
                return place;
            }
        }
        self.count
    }

    /// Whether the node at a place has this name.
    fn is_named(&self, place: usize, name: &NodeName) -> bool
        ensures { result ≡ is_named name.now self.now.nodes place }
    {
        match self.world.node(place) {
            Some(node) => node.name() == name,
            None => false,
        }
    }

    /// One step of the world.
    pub fn step(&mut self, step: WorldStep) -> Result<WorldReply, WorldFault>
        ensures step { IsWorldStep self.old step self.new result }
        ensures moments { ListMoments self.new }
        ensures settled { ListNow self.new }
    {
        self.world.step(step)
    }
}
