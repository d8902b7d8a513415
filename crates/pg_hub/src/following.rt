//! What follows the node's audit as it grows.
use crate::hub::Hub;
use crate::lost::LinkNotes;
use dist_types::NodeName;
use pg_ledger::Look;
use pg_log::{Level, Log, text};
use policy_audit::Page;
use std::sync::Wait;
use std::time::Clock;

impl Hub {
    /// A look at the audit.
    pub(crate) fn look<'a, 'b, R: Wait + Clock>(&'b self, rt: &'a R) -> Look<'a, R, LinkNotes<'b>> {
        Look {
            rt,
            alloc: self.alloc,
            links: self.link_notes(),
        }
    }

    /// Lets the roster and the ledger follow the node, so that who connects or asks later needn't
    /// look far back, and says which names two nodes have.
    pub(crate) fn follow<R: Wait + Clock>(&self, rt: &R) {
        let (_, found) = self.follow_all(rt, None);
        if let Some(name) = found {
            warn_of_twins(rt, &self.log, &name);
        }
    }

    /// Lets them follow, and takes out of the node the pages that it needs no more, behind these:
    /// the creation of the life that they are of.
    pub(crate) fn hand_out<R: Wait + Clock>(&self, rt: &R, pages: &mut Vec<Page>) -> u32 {
        let (creation, found) = self.follow_all(rt, Some(pages));
        if let Some(name) = found {
            warn_of_twins(rt, &self.log, &name);
        }
        creation
    }

    /// Lets all follow that look at the audit, and takes pages out of it that they have looked at,
    /// if they are asked for: the creation of the life, and a name that two nodes have, if one is
    /// found.
    fn follow_all<R: Wait + Clock>(
        &self,
        rt: &R,
        pages: Option<&mut Vec<Page>>,
    ) -> (u32, Option<NodeName>) {
        let look = self.look(rt);
        let mut roster = self.roster.lock(rt);
        let mut twins = self.twins.lock(rt);
        let mut ledger = self.ledger.lock(rt);
        let mut shared = self.node.shared.lock(rt);
        // Where memory is wanting, it follows at the next time.
        let is_known = roster.follow(self.alloc, shared.core()).is_ok();
        self.notices.note(&roster);
        let is_noted = ledger.follow(&look, shared.core()).is_ok();
        let found = twins.follow(self.alloc, shared.core());
        if let Some(pages) = pages
            && is_known
            && is_noted
        {
            self.take_pages(&mut shared, pages);
        }
        (shared.core().creation(), found)
    }
}

fn warn_of_twins<R: Wait + Clock>(rt: &R, log: &Log, name: &NodeName) {
    let fields = [
        text("peer", name.as_str()),
        text(
            "reason",
            "two nodes have this name: each ends the link of the other",
        ),
    ];
    log.tell(rt, Level::Warn, "twins", &fields);
}
