//! A world as the lines of a script see it.
ghost use Rattle.std.specs.Prelude.{◌≡◌, ◌≢◌, ◌++◌, [], List, ℕ, None, Some, IsTrue, IsFalse, IfOk, IfErr, OnOk};
ghost use Rattle.pg_text.specs.Lines.{is_quiet};
ghost use Rattle.pg_world.specs.World.{histories, world};
ghost use Rattle.world_script.specs.declared.world_line.WorldLine.{WorldLine as Line};
ghost use Rattle.world_script.specs.declared.world_line.WorldLine.TheVariants as lines;
ghost use Rattle.world_script.specs.declared.lab.LabFault.TheVariants as faults;
ghost use Rattle.world_script.specs.Faults.{IsNoNode, IsMisplaced};
ghost use Rattle.world_script.specs.WorldLines.{asked_by};
ghost use Rattle.world_script.specs.StepLines.{step_in};
ghost use Rattle.world_script.specs.Following.{MakesAsked, Follows, AddsNode, AsksWorld, Plays, seated, begun};

use crate::answers::put_answer;
use crate::named_world::NamedWorld;
use crate::reading::read_world_line;
use crate::settling::{put_settled, settle};
use crate::showing::put_shown;
use crate::steps::step_of;
use crate::world_line::WorldLine;
use dist_types::OutOfMemory;
use node_core::{NodeCore, OpenFault};
use pg_text::{LineFault, is_quiet, put_word};
use pg_world::NodesFault;
use policy_audit::Opening;
use std::alloc::{AllocFailed, Global};
use std::marker::Model;
use std::mem;

/// Why a line has no answer.
#[derive(Clone, Copy, Debug, PartialEq, Eq)]
pub enum LabFault {
    /// The line can't be read.
    Script,
    /// Two of the nodes have one name.
    SameName,
    Memory,
}

impl From<LineFault> for LabFault {
    ghost use Rattle.world_script.specs.Faults.{line_fault};

    ghost from_gives = { λ unread fault. fault ≡ line_fault unread };

    fn from(fault: LineFault) -> LabFault {
        match fault {
            LineFault::Script => LabFault::Script,
            LineFault::Memory => LabFault::Memory,
        }
    }
}

impl From<OutOfMemory> for LabFault {
    ghost use Rattle.world_script.specs.declared.lab.LabFault.TheVariants as faults;

    ghost from_gives = { λ _ fault. fault ≡ faults.Memory };

    fn from(_fault: OutOfMemory) -> LabFault {
        LabFault::Memory
    }
}

impl<T: Drop> From<AllocFailed<T>> for LabFault {
    ghost use Rattle.world_script.specs.declared.lab.LabFault.TheVariants as faults;

    ghost from_gives = { λ _ fault. fault ≡ faults.Memory };

    fn from(_fault: AllocFailed<T>) -> LabFault {
        LabFault::Memory
    }
}

impl From<OpenFault> for LabFault {
    ghost use Rattle.world_script.specs.Faults.{open_fault};

    ghost from_gives = { λ opened fault. fault ≡ open_fault opened };

    fn from(fault: OpenFault) -> LabFault {
        match fault {
            OpenFault::BadLimit | OpenFault::BadLinks => LabFault::Script,
            OpenFault::OutOfMemory => LabFault::Memory,
        }
    }
}

/// The world that a script is played on, and the seat that asks.
pub struct Lab {
    alloc: Global,
    /// The nodes, until a line asks for something else than a node.
    nodes: Vec<NodeCore>,
    /// Their world, from then on.
    world: Option<NamedWorld>,
    seat: u32,
}

impl Drop for Lab {
    fn drop(self) {
        let Lab {
            alloc: _,
            nodes: _,
            world: _,
            seat: _,
        } = self;
    }
}

impl Model for Lab {
    ghost use Rattle.pg_world.specs.World.{histories};
    ghost use Rattle.world_script.specs.Following.{Playing};

    ghost Value = { Playing };

    ghost view = { λ lab. record {
      nodes = histories lab.nodes.items;
      world = lab.world;
      seat = lab.seat;
    } };
}

impl Lab {
    /// Without nodes, asked by seat 0.
    pub fn new(alloc: Global) -> Lab
        ensures { result ≡ record { nodes = []; world = None; seat = 0 } }
    {
        Lab {
            alloc,
            nodes: Vec::new(alloc),
            world: None,
            seat: 0,
        }
    }

    /// Adds the answer to a line. After a fault nothing more is asked.
    pub fn answer(&mut self, line: &[u8], out: &mut Vec<u8>) -> Result<(), LabFault>
        ensures quiet { OnOk result (IsTrue (is_quiet line.now) → (self.new ≡ self.old)
            × (out.new.items ≡ out.old.items)) }
        ensures ok { OnOk result (IsFalse (is_quiet line.now) → (asked : Line) × (said : List ℕ)
            × (asked_by line.now ≡ Some asked)
            × (out.new.items ≡ out.old.items ++ said) × Plays self.old asked self.new said) }
        ensures fault { IfErr result (λ fault. fault ≡ faults.Script
            → IsMisplaced self.old (asked_by line.now)) }
    {
        if is_quiet(line) {
            return Ok(());
        }
        match read_world_line(self.alloc, line)? {
            WorldLine::Node(opening) => self.add(opening, out),
            asked => self.follow(asked, out),
        }
    }

    /// One more node, where the world hasn't begun.
    fn add(&mut self, opening: Opening, out: &mut Vec<u8>) -> Result<(), LabFault>
        ensures ok { OnOk result ((said : List ℕ) × (out.new.items ≡ out.old.items ++ said)
            × AddsNode self.old opening self.new said) }
        ensures fault { IfErr result (λ fault. fault ≡ faults.Script → IsNoNode self.old opening) }
    {
        if self.world.is_some() {
            return Err(LabFault::Script);
        }
        let node = NodeCore::new(self.alloc, opening)?;
        if self.nodes.iter().any(|other| other.name() == node.name()) {
            return Err(LabFault::SameName);
        }
        self.nodes.push(node)?;
        put_word("ok\n", out)?;
        Ok(())
    }

    /// Asks the world, which begins with the first line that isn't a node.
    fn follow(&mut self, asked: WorldLine, out: &mut Vec<u8>) -> Result<(), LabFault>
        ensures ok { OnOk result ((said : List ℕ) × (out.new.items ≡ out.old.items ++ said)
            × AsksWorld self.old asked self.new said) }
        ensures fault { IfErr result (λ fault. fault ≡ faults.Script → (o : Opening)
            × (asked ≡ lines.Node o)) }
    {
        let mut world = self.take_world()?;
        let followed = follow(self.alloc, &mut world, &mut self.seat, asked, out);
        self.world = Some(world);
        followed
    }

    /// The world, to be put back.
    fn take_world(&mut self) -> Result<NamedWorld, LabFault>
        ensures world { IfOk result (λ w. w ≡ begun self.old) }
        ensures seat { self.new.seat ≡ self.old.seat }
        ensures fault { IfErr result (λ fault. fault ≢ faults.Script) }
    {
        match self.world.take() {
            Some(world) => Ok(world),
            None => {
                let nodes = mem::replace(&mut self.nodes, Vec::new(self.alloc));
                begin(self.alloc, nodes)
            }
        }
    }
}

/// The world of these nodes.
fn begin(alloc: Global, nodes: Vec<NodeCore>) -> Result<NamedWorld, LabFault>
    ensures world { IfOk result (λ w. w ≡ world (histories nodes.items) []) }
    ensures fault { IfErr result (λ fault. fault ≢ faults.Script) }
{
    match NamedWorld::new(alloc, nodes) {
        Ok(world) => Ok(world),
        Err(NodesFault::SameName | NodesFault::HasEntries) => Err(LabFault::SameName),
        Err(NodesFault::OutOfMemory) => Err(LabFault::Memory),
    }
}

/// Adds the answer to what is asked of a world by this seat, or by another one from now on.
pub fn follow(
    alloc: Global,
    world: &mut NamedWorld,
    seat: &mut u32,
    asked: WorldLine,
    out: &mut Vec<u8>,
) -> Result<(), LabFault>
    ensures ok { OnOk result ((said : List ℕ) × (out.new.items ≡ out.old.items ++ said)
        × Follows (seated world.old seat.old) asked (seated world.new seat.new) said) }
    ensures fault { IfErr result (λ fault. fault ≡ faults.Script → (o : Opening)
        × (asked ≡ lines.Node o)) }
{
    match asked {
        WorldLine::Seat(number) => {
            *seat = number;
            put_word("ok\n", out)?;
        }
        WorldLine::Settle => put_settled(settle(world, *seat), out)?,
        WorldLine::Show(scope, group) => put_shown(alloc, world, &scope, &group, out)?,
        asked => make(alloc, world, *seat, asked, out)?,
    }
    Ok(())
}

/// Makes the step that is asked for, and adds its answer.
fn make(
    alloc: Global,
    world: &mut NamedWorld,
    seat: u32,
    asked: WorldLine,
    out: &mut Vec<u8>,
) -> Result<(), LabFault>
    ensures ok { OnOk result ((said : List ℕ) × (out.new.items ≡ out.old.items ++ said)
        × MakesAsked world.old (step_in seat world.old.nodes asked) world.new said) }
    ensures fault { IfErr result (λ fault. fault ≡ faults.Script
        → step_in seat world.old.nodes asked ≡ None) }
{
    let Some(step) = step_of(world, seat, asked) else {
        return Err(LabFault::Script);
    };
    put_answer(alloc, &world.step(step), out)?;
    Ok(())
}
