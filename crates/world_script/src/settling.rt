//! Frames go and come on all wires, until none moves.
ghost use Rattle.std.specs.Prelude.{◌≡◌, ◌++◌, ℕ, false, IfOk, OnOk, OnErr, if◌then◌else◌};
ghost use Rattle.world_script.specs.Settling.{Settles, has_come, ended_line};

use crate::named_world::NamedWorld;
use dist_types::OutOfMemory;
use node_core::CoreFault;
use pg_text::{put_numbered_line, put_unanswered};
use pg_world::{Side, WorldFault, WorldReply, WorldStep};
use policy_audit::Rule;

/// The most turns of one settling.
pub const TURNS: u32 = 100_000;

/// What a turn moved.
#[derive(Clone, Copy)]
struct Moved {
    /// Frames were handed over.
    handed: bool,
    /// A frame came.
    came: bool,
}

/// Takes turns at the sides of all wires, in their order, until none moves a frame, or for `TURNS`
/// turns. Tells how many frames came. Without memory for a step it stops there.
pub fn settle(world: &mut NamedWorld, seat: u32) -> Result<u32, OutOfMemory>
    ensures ok { IfOk result (λ came. Settles seat world.old came world.new) }
    ensures memory { OnErr result ((came : ℕ) × Settles seat world.old came world.new) }
{
    let mut came = 0_u32;
    let mut quiet = 0_usize;
    for turn in 0..TURNS {
        let wires = world.wires();
        if quiet / 2 >= wires {
            break;
        }
        let wire = turn as usize / 2 % wires;
        let moved = take_turn(world, wire, side_of(turn), seat)?;
        quiet = if moved.handed || moved.came {
            0
        } else {
            quiet.saturating_add(1)
        };
        came = came.saturating_add(u32::from(moved.came));
    }
    Ok(came)
}

/// Adds the line for how many frames came, or that a step found no memory.
pub fn put_settled(settled: Result<u32, OutOfMemory>, out: &mut Vec<u8>) -> Result<(), OutOfMemory>
    ensures { OnOk result (out.new.items ≡ out.old.items ++ ended_line settled) }
{
    match settled {
        Ok(came) => put_numbered_line("settled ", u64::from(came), out),
        Err(OutOfMemory) => put_unanswered(CoreFault::OutOfMemory, out),
    }
}

/// The side of this turn: that of the dialler comes first.
fn side_of(turn: u32) -> Side {
    if turn % 2 == 0 {
        Side::Dialler
    } else {
        Side::Acceptor
    }
}

/// At one side of a wire, what waits is handed over, and the oldest frame under way to it comes.
fn take_turn(
    world: &mut NamedWorld,
    wire: usize,
    side: Side,
    seat: u32,
) -> Result<Moved, OutOfMemory>
    ensures ok { IfOk result (λ moved. Settles seat world.old (if moved.came then 1 else 0)
        world.new) }
    ensures memory { OnErr result (Settles seat world.old 0 world.new) }
{
    let handed = hand(world, wire, side, seat)?;
    let came = deliver(world, wire, side, seat)?;
    Ok(Moved { handed, came })
}

/// Whether frames waited. They are under way.
fn hand(world: &mut NamedWorld, wire: usize, side: Side, seat: u32) -> Result<bool, OutOfMemory>
    ensures { Settles seat world.old 0 world.new }
{
    match world.step(WorldStep::Hand { wire, side, seat }) {
        Ok(WorldReply::Handed(count)) => Ok(count > 0),
        Err(WorldFault::Core(CoreFault::OutOfMemory)) => Err(OutOfMemory),
        _ => Ok(false),
    }
}

/// Whether a frame was under way. It has come, also where the node refused it, unless the audit is
/// full.
fn deliver(world: &mut NamedWorld, wire: usize, side: Side, seat: u32) -> Result<bool, OutOfMemory>
    ensures ok { IfOk result (λ came. Settles seat world.old (if came then 1 else 0) world.new) }
    ensures memory { OnErr result (Settles seat world.old 0 world.new) }
{
    has_come(&world.step(WorldStep::Deliver { wire, side, seat }))
}

/// Whether a frame came in a delivery that was answered so, unless that found no memory.
fn has_come(answer: &Result<WorldReply, WorldFault>) -> Result<bool, OutOfMemory>
    ensures ok { IfOk result (λ came. came ≡ has_come answer.now) }
    ensures memory { OnErr result (has_come answer.now ≡ false) }
{
    match answer {
        Ok(_) => Ok(true),
        Err(WorldFault::Core(CoreFault::Refused(Rule::EntriesFull))) => Ok(false),
        Err(WorldFault::Core(CoreFault::Refused(_))) => Ok(true),
        Err(WorldFault::Core(CoreFault::OutOfMemory)) => Err(OutOfMemory),
        Err(_) => Ok(false),
    }
}
