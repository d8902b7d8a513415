//! The calls that a pass has let go, as contracts go on seeing them.
ghost use Rattle.std.specs.Prelude.{◌≡◌, ◌++◌, [], List};
ghost use Rattle.std.specs.Borrow.{ftrue};
ghost use Rattle.node_threads.specs.declared.pass.Call.{Call};

use crate::pass::Call;
use std::marker::Model;

/// Calls that only contracts read, in their order. It has no bytes, and no type parameter: the
/// prover would go through what that names like a field.
#[derive(Drop)]
pub(crate) struct LetGo {
    pub ghost calls: { List Call },
}

impl Model for LetGo {
    ghost also_owns = { λ _. ftrue };
}

// It owns nothing.
unsafe impl Send for LetGo {}

impl LetGo {
    /// No calls.
    pub(crate) fn new() -> LetGo
        ensures { result.calls ≡ [] }
    {
        LetGo {}
    }

    /// The calls, and these behind them.
    pub(crate) fn then(&self, calls: &Vec<Call>) -> LetGo
        ensures { result.calls ≡ self.now.calls ++ calls.now.items }
    {
        let _ = calls;
        LetGo {}
    }
}
