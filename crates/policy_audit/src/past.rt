//! The pages that an audit has handed out, as contracts go on seeing them.
ghost use Rattle.std.specs.Prelude.{◌≡◌, ◌∷◌, [], List};
ghost use Rattle.std.specs.Borrow.{ftrue};
ghost use Rattle.policy_audit.specs.declared.entry.Entry.{Entry};

use crate::page::Page;
use std::marker::Model;

/// Pages that only contracts read, as `items`, the newest first. It has no bytes, and no type
/// parameter: the prover would go through what that names like a field.
#[derive(Drop)]
pub(crate) struct Past {
    pub ghost items: { List (List Entry) },
}

impl Model for Past {
    ghost also_owns = { λ _. ftrue };
}

// It owns nothing.
unsafe impl Send for Past {}

impl Past {
    /// No pages.
    pub(crate) fn new() -> Past
        ensures { result.items ≡ [] }
    {
        Past {}
    }

    /// The pages with this one before the others.
    pub(crate) fn then(&self, page: &Page) -> Past
        ensures { result.items ≡ page.now ∷ self.now.items }
    {
        let _ = page;
        Past {}
    }
}
