//! What an event changed in the listings of scopes.
use dist_types::{GroupChange, Items, OutOfMemory, Scope, TryClone};
use std::alloc::Global;

/// What an entry changed, with scopes ascending.
pub type Changes = Items<Change>;

/// What an entry changed in one scope: its groups ascending, only those that changed.
#[derive(Debug, PartialEq, Eq)]
pub struct Change {
    pub scope: Scope,
    pub groups: Items<GroupChange>,
}

impl Drop for Change {
    fn drop(self) {
        let Change {
            scope: _,
            groups: _,
        } = self;
    }
}

impl TryClone for Change {
    fn try_clone(&self, alloc: Global) -> Result<Change, OutOfMemory> {
        Ok(Change {
            scope: self.scope.try_clone(alloc)?,
            groups: self.groups.try_clone(alloc)?,
        })
    }
}
