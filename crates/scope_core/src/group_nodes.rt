//! The nodes whose processes are in each group.
ghost use Rattle.std.specs.Prelude.{◌≡◌, ◌≤◌, ◌<◌, ◌&&◌, ℕ, List, [], cond, IsTrue, IfSome, IfOk, IfErr, OnOk, OnErr, ◌∷◌, length};
ghost use Rattle.std.specs.List.{IsDistinct, HoldsAt};
ghost use Rattle.std.specs.Option.{IfNone};
ghost use Rattle.std.specs.Map.{keys_of};
ghost use Rattle.dist_types.specs.Order.{text_cmp};
ghost use Rattle.dist_types.specs.Listing.{same, how_many, is_among, Rises};
ghost use Rattle.scope_core.specs.GroupNodes.{times_named, node_names, named_groups, IsNameGap};

use dist_types::{Group, NodeName, OutOfMemory, TryClone};
use indexmap::IndexMap;
use std::alloc::Global;
use std::marker::Model;

/// For each group a list of nodes, in the order of their names.
#[derive(Debug, Drop)]
pub struct GroupNodes {
    alloc: Global,
    nodes: IndexMap<Group, Vec<NodeName>>,
}

impl Model for GroupNodes {
    ghost use Rattle.std.specs.Prelude.{List, ℕ};
    ghost use Rattle.scope_core.specs.GroupNodes.{node_names, AreInOrder};

    ghost Value = { List (List ℕ × List (List ℕ)) };

    ghost view = { λ index. node_names index.nodes.entries };

    ghost invariant = { λ index. AreInOrder (node_names index.nodes.entries) };
}

impl GroupNodes {
    /// No nodes.
    pub fn new(alloc: Global) -> GroupNodes
        ensures { (g n : List ℕ) → times_named result g n ≡ 0 }
    {
        GroupNodes {
            alloc,
            nodes: IndexMap::new(alloc),
        }
    }

    /// The nodes of a group.
    pub fn of(&self, group: &Group) -> &[NodeName]
        ensures nodes { (n : List ℕ) → how_many (λ m. same m n) result.now
            ≡ times_named self.now group.now n }
        ensures once { (n : List ℕ) → how_many (λ m. same m n) result.now ≤ 1 }
        ensures rises { Rises text_cmp result.now }
    {
        match self.nodes.get(group) {
            Some(nodes) => nodes,
            None => &[],
        }
    }

    /// The group's name as it is kept here, so that whoever has an equal one can share it.
    pub fn stored(&self, group: &Group) -> Option<&Group>
        ensures equal { IfSome result (λ stored. stored.now ≡ group.now) }
        ensures none { IfNone result ((n : List ℕ) → times_named self.now group.now n ≡ 0) }
    {
        let (stored, _) = self.nodes.get_key_value(group)?;
        Some(stored)
    }

    /// The groups with a node, in their order.
    pub fn groups(&self, alloc: Global) -> Result<Vec<Group>, OutOfMemory>
        ensures rises { IfOk result (λ groups. Rises text_cmp groups.items) }
        ensures found { IfOk result (λ groups. (g : List ℕ) → IsTrue (is_among g groups.items)
            → (n : List ℕ) × (0 < times_named self.now g n)) }
        ensures only { IfOk result (λ groups. (g n : List ℕ) → 0 < times_named self.now g n
            → IsTrue (is_among g groups.items)) }
    {
        let mut groups = named(alloc, &self.nodes)?;
        groups.sort_unstable();
        Ok(groups)
    }

    /// The node is one of the group's.
    pub fn put(&mut self, group: &Group, node: &NodeName) -> Result<(), OutOfMemory>
        ensures ok { OnOk result ((g n : List ℕ) → times_named self.new g n
            ≡ cond (same group.now g && same node.now n) 1 (times_named self.old g n)) }
        ensures same { OnErr result ((g n : List ℕ) → times_named self.new g n
            ≡ times_named self.old g n) }
    {
        let alloc = self.alloc;
        let Some(nodes) = self.nodes.get_mut(group) else {
            return self.begin(group, node);
        };
        add(alloc, nodes, node)
    }

    /// The first node of a group.
    fn begin(&mut self, group: &Group, node: &NodeName) -> Result<(), OutOfMemory>
        requires { (n : List ℕ) → times_named self.old group.now n ≡ 0 }
        ensures ok { OnOk result ((g n : List ℕ) → times_named self.new g n
            ≡ cond (same group.now g && same node.now n) 1 (times_named self.old g n)) }
        ensures same { OnErr result ((g n : List ℕ) → times_named self.new g n
            ≡ times_named self.old g n) }
    {
        let nodes = only(self.alloc, node)?;
        let group = group.try_clone(self.alloc)?;
        self.nodes.insert(group, nodes)?;
        Ok(())
    }

    /// The node is none of the group's.
    pub fn take(&mut self, group: &Group, node: &NodeName)
        ensures { (g n : List ℕ) → times_named self.new g n
            ≡ cond (same group.now g && same node.now n) 0 (times_named self.old g n) }
    {
        let Some((at, _, _)) = self.nodes.get_full(group) else {
            return;
        };
        // By the place, so that the name is hashed once.
        let (_, nodes) = self.nodes.pair_mut(at);
        remove(nodes, node);
        // A group without nodes goes.
        if nodes.is_empty() {
            self.nodes.swap_remove_index(at);
        }
    }

    /// No nodes any more.
    pub fn clear(&mut self)
        ensures { (g n : List ℕ) → times_named self.new g n ≡ 0 }
    {
        self.nodes.clear();
    }
}

/// The groups of which a node is named.
fn named(alloc: Global, nodes: &IndexMap<Group, Vec<NodeName>>) -> Result<Vec<Group>, OutOfMemory>
    ensures groups { IfOk result (λ groups. groups.items
        ≡ named_groups (node_names nodes.now.entries)) }
    ensures apart { IsDistinct same (keys_of nodes.now.entries) }
{
    let mut groups = Vec::with_capacity(alloc, nodes.len())?;
    for (group, names) in nodes.iter() {
        if !names.is_empty() {
            groups.push(group.try_clone(alloc)?)?;
        }
    }
    Ok(groups)
}

/// A list of this node.
fn only(alloc: Global, node: &NodeName) -> Result<Vec<NodeName>, OutOfMemory>
    ensures { IfOk result (λ nodes. nodes.items ≡ node.now ∷ []) }
{
    let mut nodes = Vec::with_capacity(alloc, 1)?;
    nodes.push(node.try_clone(alloc)?)?;
    Ok(nodes)
}

/// Puts a node into the list, unless it stands there, at its place in the order of names.
#[tactic(auto, using(crate::proofs::GroupNodes::puts_name))]
fn add(alloc: Global, nodes: &mut Vec<NodeName>, node: &NodeName) -> Result<(), OutOfMemory>
    requires { Rises text_cmp nodes.old.items }
    ensures ok { OnOk result ((n : List ℕ) → how_many (λ m. same m n) nodes.new.items
        ≡ cond (same node.now n) 1 (how_many (λ m. same m n) nodes.old.items)) }
    ensures same { OnErr result (nodes.new.items ≡ nodes.old.items) }
    ensures rises { Rises text_cmp nodes.new.items }
{
    match place_of(nodes, node) {
        Ok(_) => Ok(()),
        Err(at) => {
            let name = node.try_clone(alloc)?;
            nodes.insert(at, name)?;
            Ok(())
        }
    }
}

/// Takes a node out of the list.
#[tactic(auto, using(crate::proofs::GroupNodes::takes_name))]
fn remove(nodes: &mut Vec<NodeName>, node: &NodeName)
    requires { Rises text_cmp nodes.old.items }
    ensures gone { (n : List ℕ) → how_many (λ m. same m n) nodes.new.items
        ≡ cond (same node.now n) 0 (how_many (λ m. same m n) nodes.old.items) }
    ensures rises { Rises text_cmp nodes.new.items }
{
    if let Ok(at) = place_of(nodes, node) {
        nodes.remove(at);
    }
}

/// Where a node stands in the list, or where it goes.
fn place_of(nodes: &[NodeName], node: &NodeName) -> Result<usize, usize>
    requires { Rises text_cmp nodes.now }
    ensures bound { IfOk result (λ i. i < length nodes.now) }
    ensures found { IfOk result (HoldsAt (λ n. n ≡ node.now) nodes.now) }
    ensures end { IfErr result (λ i. i ≤ length nodes.now) }
    ensures gap { IfErr result (IsNameGap node.now nodes.now) }
{
    nodes.binary_search(node)
}
