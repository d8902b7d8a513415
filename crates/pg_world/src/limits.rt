//! What the types of nodes and steps say of them.
ghost use Rattle.std.specs.Prelude.{[], IsTrue, IsFalse, ◌≢◌};
ghost use Rattle.frame_laws.specs.Written.{IsWritten};
ghost use Rattle.pg_world.specs.Sound.{IsWrittenStep};
ghost use Rattle.pg_world.specs.Starting.{IsNew};

use crate::world_step::WorldStep;
use node_core::NodeCore;
use policy_audit::Event;

/// Whether a node has seen something.
pub(crate) fn has_entries(node: &NodeCore) -> bool
    ensures yes { IsTrue result → node.now.history.entries ≢ [] }
    ensures no { IsFalse result → IsNew node.now.history }
{
    let _name = node.name().as_bytes();
    let _creation = node.creation();
    node.audit().len() != 0
}

/// What a step brings is within its limits.
pub(crate) fn step_is_written(step: &WorldStep)
    ensures { IsWrittenStep step.now }
{
    match step {
        WorldStep::Call { event, .. } => event_is_written(event),
        WorldStep::Dial { challenge, .. } | WorldStep::Accept { challenge, .. } => {
            let _challenge = *challenge;
        }
        _ => {}
    }
}

/// The texts and numbers of an event are within their limits.
fn event_is_written(event: &Event)
    ensures { IsWritten event.now }
{
    match event {
        Event::StartScope(scope) | Event::StopScope(scope) => {
            let _scope = scope.as_bytes();
        }
        Event::Join(scope, group, _) | Event::Leave(scope, group, _) => {
            let _scope = scope.as_bytes();
            let _group = group.as_bytes();
        }
        Event::Dial(_, challenge) | Event::Opened(challenge) => {
            let _challenge = *challenge;
        }
        _ => {}
    }
}
