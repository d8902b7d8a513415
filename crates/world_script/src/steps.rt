//! The step of a world that a line asks for.
ghost use Rattle.std.specs.Prelude.{◌≡◌};
ghost use Rattle.world_script.specs.StepLines.{step_in};

use crate::named_world::NamedWorld;
use crate::world_line::WorldLine;
use pg_world::WorldStep;

/// The step that a line asks for, if it asks for one.
pub fn step_of(world: &NamedWorld, seat: u32, asked: WorldLine) -> Option<WorldStep>
    ensures { result ≡ step_in seat world.now.nodes asked }
{
    Some(match asked {
        WorldLine::At { node, event } => WorldStep::Call {
            node: world.place(&node),
            seat,
            event,
        },
        WorldLine::Dial {
            from,
            to,
            challenge,
        } => WorldStep::Dial {
            from: world.place(&from),
            to: world.place(&to),
            seat,
            challenge,
        },
        WorldLine::Accept { wire, challenge } => WorldStep::Accept {
            wire: wire as usize,
            seat,
            challenge,
        },
        WorldLine::Hand { wire, side } => {
            let wire = wire as usize;
            WorldStep::Hand { wire, side, seat }
        }
        WorldLine::Deliver { wire, side } => {
            let wire = wire as usize;
            WorldStep::Deliver { wire, side, seat }
        }
        WorldLine::Cut { wire, side } => {
            let wire = wire as usize;
            WorldStep::Cut { wire, side, seat }
        }
        WorldLine::Restart(node) => WorldStep::Restart {
            node: world.place(&node),
            seat,
        },
        _ => return None,
    })
}
