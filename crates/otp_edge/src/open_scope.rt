//! A scope that runs here, at the edge of a link.
ghost use Rattle.std.specs.Prelude.{◌≡◌, ◌≤◌, ◌<◌, ◌↔◌, length, vec_len, IfSome, IsTrue};
ghost use Rattle.std.specs.Prelude.{OnOk, OnErr, ◌++◌, ◌∷◌, [], All, IsNone, get_or};
ghost use Rattle.otp_edge.specs.Watches.{IsOtherWatch, Unwatches};
ghost use Rattle.otp_edge.specs.declared.open_scope.Watcher.{Watcher};

use crate::scope_edge::ScopeEdge;
use dist_types::{OutOfMemory, Pid, Scope};

/// The most processes that may watch that of a scope.
pub const MAX_WATCHERS: usize = 8;

/// A process of the peer that watches that of a scope here, as terms.
#[derive(Debug, Drop)]
pub struct Watcher {
    pub from: Vec<u8>,
    pub reference: Vec<u8>,
}

/// A scope that runs here.
#[derive(Debug, Drop)]
pub struct OpenScope {
    pub scope: Scope,
    /// The process by which the peer knows the scope.
    pub own: Pid,
    pub seen: ScopeEdge,
    /// By which reference that of the peer's scope is watched.
    pub reference: u32,
    pub watchers: Vec<Watcher>,
    ghost few_watchers: { vec_len watchers ≤ 8 },
}

impl OpenScope {
    /// Whether this is its name.
    pub fn is_named(&self, name: &[u8]) -> bool
        ensures { IsTrue result ↔ self.now.scope ≡ name.now }
    {
        self.scope.as_bytes() == name
    }

    /// Whether a further process may watch.
    pub fn may_watch(&self) -> bool
        ensures { IsTrue result ↔ vec_len self.now.watchers < 8 }
    {
        self.watchers.len() < MAX_WATCHERS
    }

    /// A further process watches.
    pub fn watch(&mut self, watcher: Watcher) -> Result<(), OutOfMemory>
        requires { vec_len self.old.watchers < 8 }
        ensures ok { OnOk result (self.new.watchers.items ≡ self.old.watchers.items ++
            watcher ∷ []) }
        ensures same { OnErr result (self.new.watchers.items ≡ self.old.watchers.items) }
        ensures scope { self.new.scope ≡ self.old.scope }
        ensures own { self.new.own ≡ self.old.own }
        ensures seen { self.new.seen ≡ self.old.seen }
        ensures reference { self.new.reference ≡ self.old.reference }
    {
        self.watchers.push(watcher)?;
        Ok(())
    }

    /// Forgets the watch of that reference, where there is one.
    pub fn unwatch(&mut self, reference: &[u8])
        ensures watchers { Unwatches reference.now self.old.watchers.items
            self.new.watchers.items }
        ensures reference { self.new.reference ≡ self.old.reference }
        ensures scope { self.new.scope ≡ self.old.scope }
        ensures own { self.new.own ≡ self.old.own }
        ensures seen { self.new.seen ≡ self.old.seen }
    {
        if let Some(place) = watcher_of(&self.watchers, reference) {
            self.watchers.swap_remove(place);
        }
    }
}

fn watcher_of(watchers: &[Watcher], reference: &[u8]) -> Option<usize>
    ensures found { IfSome result (λ place. (place < length watchers.now) × ((d : Watcher) →
        (get_or watchers.now place d).reference.items ≡ reference.now)) }
    ensures none { IsNone result → All (IsOtherWatch reference.now) watchers.now }
{
    for (place, watcher) in watchers.iter().enumerate() {
        if watcher.reference.as_slice() == reference {
            return Some(place);
        }
    }
    None
}
