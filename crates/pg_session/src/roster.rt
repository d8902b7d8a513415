//! Who is up, for connections that are still to come.
ghost use Rattle.std.specs.Prelude.{◌≡◌, false, OnOk};
ghost use Rattle.std.specs.List.{list_any};
ghost use Rattle.pg_session.specs.Notices.{has_gone};
ghost use Rattle.pg_session.specs.Seen.{seen_of};

use crate::news::{LostLinks, News, Seen};
use dist_types::OutOfMemory;
use node_core::NodeCore;
use pg_text::DownReason;
use policy_audit::{Event, Later};
use std::alloc::Global;

/// Who is up, for connections that are still to come: a new one takes over what it has been told.
#[derive(Drop)]
pub struct Roster {
    news: News,
    seen: Seen,
    /// The lines of that, which nobody reads.
    lines: Vec<u8>,
    /// How many entries it had seen when a peer had last come or gone, or a scope had stopped.
    last_notice: usize,
}

impl Roster {
    /// One that has seen nothing.
    pub fn new(alloc: Global) -> Roster {
        Roster {
            news: News::new(alloc),
            seen: Seen::NOTHING,
            lines: Vec::new(alloc),
            last_notice: 0,
        }
    }

    /// What a connection knows that has been told all.
    pub fn news(&self) -> &News
        ensures { result.now ≡ self.now.news }
    {
        &self.news
    }

    /// How far it has followed the node.
    pub fn seen(&self) -> Seen
        ensures { result ≡ self.now.seen }
    {
        self.seen
    }

    /// How many entries of this life it had seen when a peer had last come or gone, or a scope had
    /// stopped: whoever has been told of as many has been told of that. 0 where nothing has.
    pub fn last_notice(&self) -> usize
        ensures { result ≡ self.now.last_notice }
    {
        self.last_notice
    }

    /// Follows the node up to now, in a new life from its beginning. Where memory is wanting it
    /// does so later.
    pub fn follow(&mut self, alloc: Global, core: &NodeCore) -> Result<(), OutOfMemory>
        ensures seen { OnOk result (self.new.seen ≡ seen_of core.now.history) }
        ensures up { OnOk result (list_any (has_gone core.now.history) self.new.news.peers
            ≡ false) }
    {
        if self.seen.creation() != core.creation() {
            self.news = News::new(alloc);
            self.seen = Seen::NOTHING;
            self.last_notice = 0;
        }
        let has_stop = has_stop(self.seen.unseen(core));
        self.lines.clear();
        let entries = self.seen.unseen(core);
        self.news
            .put_peers(alloc, core, entries, &Untold, &mut self.lines)?;
        self.seen = Seen::of(core);
        if has_stop || !self.lines.is_empty() {
            self.last_notice = core.audit().len();
        }
        Ok(())
    }
}

/// Whether one of the entries may have stopped a scope.
fn has_stop(entries: Later<'_>) -> bool {
    for entry in entries {
        if let Event::StopScope(_) = &entry.event {
            return true;
        }
    }
    false
}

/// Nobody is told why.
struct Untold;

impl LostLinks for Untold {
    fn reason(&self, _core: &NodeCore, _link: u32) -> DownReason {
        DownReason::Closed
    }
}
