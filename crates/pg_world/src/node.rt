//! A node of a world.
ghost use Rattle.std.specs.Prelude.{◌≡◌, ◌≤◌, ℕ, cond, Some, None, IfSome, length};
ghost use Rattle.node_core.specs.Reading.{IsAnswer, event_of};
ghost use Rattle.node_core.specs.Step.{IsStepped};
ghost use Rattle.policy_audit.specs.History.{audited};
ghost use Rattle.policy_audit.specs.Owed.{waiting, is_kept, max_waiting};
ghost use Rattle.policy_audit.specs.Pages.{IsPageBehind};
ghost use Rattle.policy_audit.specs.Policy.{is_full};

use dist_types::{NodeName, Scope};
use node_core::{CoreFault, NodeCore, Query};
use policy_audit::{Event, Page, Reply};
use std::marker::Model;

/// A node of a world. Its value is its history alone: a world stays what it is when a node hands
/// out old entries.
pub struct Node {
    core: NodeCore,
}

impl Drop for Node {
    fn drop(self) {
        let Node { core: _ } = self;
    }
}

impl Model for Node {
    ghost use Rattle.policy_audit.specs.History.{History};

    ghost Value = { History };

    ghost view = { λ node. node.core.history };
}

impl Node {
    pub(crate) fn of(core: NodeCore) -> Node
        ensures { result ≡ core.history }
    {
        Node { core }
    }

    /// The node itself, to read from.
    pub fn core(&self) -> &NodeCore
        ensures { result.now.history ≡ self.now }
    {
        &self.core
    }

    /// Answers a query, with no entry.
    pub fn look(&self, scope: &Scope, query: Query<'_>) -> Result<Reply, CoreFault>
        ensures { IsAnswer self.now (event_of scope.now query.entry) result }
    {
        self.core.look(scope, query)
    }

    pub fn name(&self) -> &NodeName
        ensures { result.now ≡ self.now.opening.name }
    {
        self.core.name()
    }

    /// How many frames wait for a link, if it is kept.
    pub(crate) fn waiting(&self, link: u32) -> Option<usize>
        ensures waiting { result
            ≡ cond (is_kept self.now link) (Some (length (waiting self.now link))) None }
        ensures few { IfSome result (λ n. n ≤ max_waiting) }
    {
        self.core.waiting(link)
    }

    pub(crate) fn is_full(&self) -> bool
        ensures { result ≡ is_full self.now }
    {
        self.core.is_full()
    }

    pub(crate) fn step(&mut self, seat: u32, event: Event) -> Result<Reply, CoreFault>
        ensures { IsStepped self.old seat event self.new result }
    {
        self.core.step(seat, event)
    }

    /// Hands out the oldest page of entries, if the node can do without it.
    pub(crate) fn forget(&mut self) -> Option<Page>
        ensures same { self.new ≡ self.old }
        ensures page { IfSome result (λ page.
            (handed : ℕ) × IsPageBehind handed (audited self.old.entries) page) }
    {
        self.core.forget()
    }
}
