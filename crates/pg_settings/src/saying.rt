//! Who makes these calls.
ghost use Rattle.std.specs.Prelude.{OnOk, IfErr, Ok, Err};
ghost use Rattle.policy_audit.specs.declared.reply.Reply.{Reply};
ghost use Rattle.node_threads.specs.Applied.{Called};
ghost use Rattle.pg_settings.specs.Settings.{AreSaid, StopsAt};

use node_threads::{CallFault, Node, Pass};
use policy_audit::Event;
use std::sync::Wait;

/// Makes these calls, one after another, up to the first that isn't accepted: that is the error.
pub fn say_all<R: Wait>(
    rt: &R,
    node: &Node,
    pass: &mut Pass,
    told: Vec<Event>,
) -> Result<(), CallFault>
    ensures ok { OnOk result (AreSaid told.items pass.old pass.new) }
    ensures refused { IfErr result (λ fault. StopsAt fault told.items pass.old pass.new) }
{
    for event in told {
        say(rt, node, pass, event)?;
    }
    Ok(())
}

fn say<R: Wait>(rt: &R, node: &Node, pass: &mut Pass, event: Event) -> Result<(), CallFault>
    ensures ok { OnOk result ((reply : Reply) × Called pass.old event (Ok reply) pass.new) }
    ensures refused { IfErr result (λ fault. Called pass.old event (Err fault) pass.new) }
{
    pass.call(node, rt, event)?;
    Ok(())
}
