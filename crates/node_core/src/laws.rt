//! What follows from `step` for who holds its contract. Each function does nothing; its contract is
//! the law.
ghost use Rattle.std.specs.Prelude.{◌≡◌, ℕ};
ghost use Rattle.std.specs.declared.result.Result.{Result};
ghost use Rattle.policy_audit.specs.declared.event.Event.{Event};
ghost use Rattle.policy_audit.specs.declared.reply.Reply.{Reply};
ghost use Rattle.policy_audit.specs.History.{History};
ghost use Rattle.policy_audit.specs.Policy.{IsLegal};
ghost use Rattle.node_core.specs.declared.fault.CoreFault.{CoreFault};
ghost use Rattle.node_core.specs.Step.{IsStepped};

/// A step leaves a history legal, and leaves its opening.
pub fn stepped()
    ensures legal { (old new : History) (seat : ℕ) (e : Event) (result : Result Reply CoreFault)
        → IsLegal old → IsStepped old seat e new result → IsLegal new }
    ensures opening { (old new : History) (seat : ℕ) (e : Event) (result : Result Reply CoreFault)
        → IsStepped old seat e new result → new.opening ≡ old.opening }
{}
