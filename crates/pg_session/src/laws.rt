//! Laws of monitors. Each function does nothing; its contract is the law.
ghost use Rattle.std.specs.Prelude.{◌≡◌, [], false};
ghost use Rattle.policy_audit.specs.declared.entry.Entry.{Entry};
ghost use Rattle.policy_audit.specs.Monitors.{Target, updates_of};
ghost use Rattle.pg_session.specs.Watching.{is_touched};

/// An entry has no update for a monitor that it hasn't made due.
pub fn untouched_tells_nothing()
    ensures { (t : Target) (e : Entry) → is_touched t e ≡ false → updates_of t e.change ≡ [] }
{}
