//! Handing out old entries.
ghost use Rattle.std.specs.Prelude.{◌≡◌, ◌+◌, ◌<◌, IfSome, IfNone, OnSome, IsTrue, ◌↔◌};
ghost use Rattle.policy_audit.specs.History.{audited};
ghost use Rattle.policy_audit.specs.Pages.{IsPageBehind, page_size};
ghost use Rattle.node_core.specs.Recorded.{IsSpare};

use crate::node::NodeCore;
use policy_audit::{PAGE_SIZE, Page};

impl NodeCore {
    /// Hands out the oldest page of the audit: the 256 entries behind those that were handed out
    /// before. The history stays what it is. `None` for the last page, and while a monitor has
    /// still to be told of one of the entries.
    pub fn forget(&mut self) -> Option<Page>
        ensures same { self.new.history ≡ self.old.history }
        ensures page { IfSome result (λ page.
            IsPageBehind self.old.forgotten (audited self.old.history.entries) page
            × (self.new.forgotten ≡ self.old.forgotten + page_size)) }
        ensures spare { OnSome result (IsSpare self.old) }
        ensures none { IfNone result ((self.new ≡ self.old) × (IsSpare self.old → ⊥)) }
    {
        if !self.is_spare() {
            return None;
        }
        self.audit.forget()
    }

    /// Whether the node can do without the oldest page.
    fn is_spare(&self) -> bool
        ensures { IsTrue result ↔ IsSpare self.now }
    {
        let number = self.audit.forgotten() as usize + PAGE_SIZE;
        number < self.audit.len() && self.kept.monitors.are_behind(number)
    }
}
