//! The node as it stands at one moment, for who looks on. Each lock is held for a copy alone, and
//! none while that is written.
use crate::hub::Hub;
use crate::reporting::Reporting;
use crate::stock::look_at_dropped;
use crate::views::{
    dial_view, look_at_counts, look_at_groups, look_at_links, look_at_node, seconds_since, waiting,
};
use dist_types::{OutOfMemory, Scope, TryClone};
use pg_page::{Health, NodeView, Shown};
use std::alloc::AllocError;
use std::sync::Wait;
use std::time::Clock;

impl Shown for Hub {
    fn view<R: Wait + Clock>(&self, rt: &R, with_groups: bool) -> Result<NodeView, AllocError> {
        match self.look_at_all(rt, with_groups) {
            Ok(view) => Ok(view),
            Err(OutOfMemory) => Err(AllocError),
        }
    }

    fn health<R: Wait>(&self, rt: &R) -> Health {
        let shared = self.node.shared.lock(rt);
        Health::of(self.signals.is_to_end(), self.signals.wants_memory(&shared))
    }

    fn is_quitting(&self) -> bool {
        self.signals.is_quitting()
    }
}

impl Hub {
    /// The node as it stands now, with the groups of its scopes and the last lines of its log where
    /// they are wanted.
    fn look_at_all<R: Wait + Clock>(
        &self,
        rt: &R,
        with_groups: bool,
    ) -> Result<NodeView, OutOfMemory> {
        let looking = Reporting {
            rt,
            hub: self,
            line: &[],
        };
        let mut view = looking.new_view();
        looking.look_at_program(&mut view)?;
        looking.look_at_ledger(&mut view)?;
        looking.look_at_dials(&mut view)?;
        look_at_dropped(rt, &self.notes.edges, &mut view)?;
        if with_groups {
            let scopes = looking.scopes()?;
            look_at_groups(rt, self.alloc, &self.node, scopes.as_slice(), &mut view)?;
            view.decisions = self.log.recent(rt, self.alloc)?;
        }
        Ok(view)
    }
}

impl<R: Wait + Clock> Reporting<'_, R> {
    /// A view of which nothing is known yet.
    pub(crate) fn new_view(&self) -> NodeView {
        NodeView::new(self.hub.alloc, self.hub.version)
    }

    pub(crate) fn look_at_program(&self, view: &mut NodeView) -> Result<(), OutOfMemory> {
        let (rt, hub) = (self.rt, self.hub);
        view.is_draining = hub.signals.is_to_end();
        view.seconds = seconds_since(rt, hub.begun);
        view.lives = u64::from(hub.signals.lives());
        view.bytes = hub.memory.bytes();
        view.clients = hub.clients.seats(rt, hub.alloc)?.len() as u64;
        view.most_clients = u64::from(hub.seats).saturating_sub(1);
        view.most_kept = u64::from(hub.keeping.entries);
        view.lost = hub.keeping.lost();
        view.archived = hub.keeping.archived();
        view.told = hub.signals.told();
        let shared = hub.node.shared.lock(rt);
        view.wants_memory = hub.signals.wants_memory(&shared);
        look_at_node(hub.alloc, shared.core(), view)
    }

    /// Looks at what the audit has said so far.
    pub(crate) fn look_at_ledger(&self, view: &mut NodeView) -> Result<(), OutOfMemory> {
        let alloc = self.hub.alloc;
        let ledger = self.ledger()?;
        let shared = self.hub.node.shared.lock(self.rt);
        let waiting = waiting(alloc, &ledger, shared.core())?;
        drop(shared);
        look_at_links(self.rt, alloc, &ledger, waiting, view)?;
        look_at_counts(alloc, &ledger, view)
    }

    pub(crate) fn look_at_dials(&self, view: &mut NodeView) -> Result<(), OutOfMemory> {
        let (rt, alloc) = (self.rt, self.hub.alloc);
        let targets = self.hub.targets.all(rt, alloc)?;
        let ledger = self.ledger()?;
        for target in &targets {
            let is_up = ledger.is_up(target.peer());
            view.dials.push(dial_view(rt, alloc, target, is_up)?)?;
        }
        Ok(())
    }

    fn scopes(&self) -> Result<Vec<Scope>, OutOfMemory> {
        let ledger = self.ledger()?;
        let mut scopes = Vec::with_capacity(self.hub.alloc, ledger.scopes().len())?;
        for scope in ledger.scopes() {
            scopes.push(scope.try_clone(self.hub.alloc)?)?;
        }
        Ok(scopes)
    }
}
