//! What a node lets go of its audit: the oldest pages, while it keeps more entries than it is to,
//! and no connection has still to be told of one. And what becomes of connections that don't read,
//! which would keep it from that.
use crate::hub::Hub;
use node_core::NodeCore;
use node_threads::Shared;
use pg_log::{Level, number};
use pg_session::Seen;
use policy_audit::{PAGE_SIZE, Page};
use std::sync::Wait;
use std::sync::atomic::{AtomicU32, AtomicU64, Ordering};
use std::time::Clock;

/// So many entries wait in any case for a connection that hasn't been told of them.
const PATIENCE: u32 = 100_000;

/// How many pages are handed out at most, before others have the node.
const AT_ONCE: usize = 64;

/// The entries of a page.
const PAGE: u32 = PAGE_SIZE as u32;

/// How many looks in a row a connection has to be told more, before it is taken not to read.
const LOOKS: u32 = 5;

/// What is known of the entries that the node keeps no more.
#[derive(Drop)]
pub struct Keeping {
    /// How many are kept.
    pub(crate) entries: u32,
    /// Whether there is an archive.
    pub(crate) has_archive: bool,
    /// How many are in the archive, and how many were to be and aren't.
    archived: AtomicU64,
    lost: AtomicU64,
    /// How often the archive is to be opened anew.
    reopens: AtomicU32,
    /// Where monitors were asked last for what they have to tell, so that they need fewer entries.
    asked: AtomicU32,
    /// Monitors that were asked before there were so many entries are asked again.
    stale: AtomicU32,
}

impl Keeping {
    /// A node keeps so many entries.
    pub fn new(entries: u32, has_archive: bool) -> Keeping {
        Keeping {
            entries,
            has_archive,
            archived: AtomicU64::new(0),
            lost: AtomicU64::new(0),
            reopens: AtomicU32::new(0),
            asked: AtomicU32::new(0),
            stale: AtomicU32::new(0),
        }
    }

    /// How many entries are in the archive.
    pub(crate) fn archived(&self) -> u64 {
        self.archived.load(Ordering::SeqCst)
    }

    /// How many entries were to be in the archive and aren't.
    pub(crate) fn lost(&self) -> u64 {
        self.lost.load(Ordering::SeqCst)
    }

    /// So many entries are in the archive, and so many were to be and aren't.
    pub(crate) fn note_archived(&self, archived: u64, lost: u64) {
        self.archived.store(archived, Ordering::SeqCst);
        self.lost.store(lost, Ordering::SeqCst);
    }

    /// How often the archive was to be opened anew.
    pub(crate) fn reopens(&self) -> u32 {
        self.reopens.load(Ordering::SeqCst)
    }

    pub(crate) fn reopen(&self) {
        self.reopens.fetch_add(1, Ordering::SeqCst);
    }

    /// A new life begins, with no entry.
    pub(crate) fn begin_anew(&self) {
        self.asked.store(0, Ordering::SeqCst);
        self.stale.store(0, Ordering::SeqCst);
    }

    /// Monitors that were asked before there were so many entries are asked again.
    pub(crate) fn stale(&self) -> usize {
        self.stale.load(Ordering::SeqCst) as usize
    }

    /// Of how many entries a connection needn't have been told before it is told again.
    pub(crate) fn rest(&self) -> u32 {
        self.entries / 4
    }

    /// Of how many entries a connection may have still to be told at most.
    fn patience(&self) -> u32 {
        self.entries.max(PATIENCE)
    }
}

impl Hub {
    /// Waits until the node has other entries than were seen: those that it has now. None once the
    /// program is to end.
    pub fn wait_for_entries<R: Wait>(&self, rt: &R, seen: Option<Seen>) -> Option<Seen> {
        let shared = self
            .node
            .moved
            .wait_while(rt, self.node.shared.lock(rt), |shared| {
                !self.signals.is_quitting() && seen == Some(Seen::of(shared.core()))
            });
        let now = Seen::of(shared.core());
        drop(shared);
        (!self.signals.is_quitting()).then_some(now)
    }

    /// Whether the node keeps no more entries than it is to, or can't do with fewer before more
    /// come: nobody who hasn't been told of the oldest page is told of it before.
    pub fn is_settled<R: Wait>(&self, rt: &R) -> bool {
        let shared = self.node.shared.lock(rt);
        let kept = kept(shared.core());
        let lag = self.readers.most_lag(shared.core().audit().len() as u32);
        let rests = lag <= self.keeping.rest() && kept.saturating_sub(lag) < PAGE;
        kept <= self.keeping.entries.max(PAGE) || rests
    }

    /// Whether the node may keep still more for a file that is slower than entries come: as many
    /// again as for a connection that doesn't read.
    pub fn may_keep_more<R: Wait>(&self, rt: &R) -> bool {
        let shared = self.node.shared.lock(rt);
        let most = self.keeping.entries.saturating_add(self.keeping.patience());
        kept(shared.core()) <= most
    }

    /// Takes pages out of the node while it keeps more entries than it is to. Who has to look at
    /// their entries has done so.
    pub(crate) fn take_pages(&self, shared: &mut Shared, pages: &mut Vec<Page>) {
        for _ in 0..AT_ONCE {
            if !self.has_spare(shared.core()) {
                return;
            }
            let Ok(()) = pages.reserve(1) else {
                return;
            };
            match shared.forget() {
                Some(page) => pages.push_reserved(page),
                None => {
                    self.ask_monitors(shared.core());
                    return;
                }
            }
        }
    }

    /// Whether the node keeps more entries than it is to, and every connection has been told of the
    /// oldest page.
    fn has_spare(&self, core: &NodeCore) -> bool {
        let entries = core.audit().len() as u32;
        let kept = kept(core);
        let told = kept.saturating_sub(self.readers.most_lag(entries));
        kept > self.keeping.entries.max(PAGE) && told >= PAGE
    }

    /// Monitors need the oldest page: those that weren't asked for long are asked, be there news
    /// for their connections or not. Of so many entries as that makes there are three times as many
    /// others before it is done again.
    fn ask_monitors(&self, core: &NodeCore) {
        let keeping = &self.keeping;
        let entries = core.audit().len() as u32;
        let rest = keeping
            .rest()
            .max(self.readers.monitors().saturating_mul(4));
        if entries.saturating_sub(keeping.asked.load(Ordering::SeqCst)) >= rest {
            keeping.asked.store(entries, Ordering::SeqCst);
            let stale = entries.saturating_sub(keeping.rest());
            keeping.stale.store(stale, Ordering::SeqCst);
            self.readers.ask_monitors();
            self.node.news.notify_all();
        }
    }

    /// Lets the passes of connections let their calls go, where they keep many.
    pub fn lighten<R: Wait>(&self, rt: &R) {
        let house = self.house.read(rt);
        for session in &house.sessions {
            // One whose lock somebody has does so the next time.
            if let Some(mut session) = session.try_lock()
                && session.keeps_many()
            {
                session.let_go();
            }
        }
    }

    /// Has connections told that have much to be told, and ends those that don't read, at three
    /// quarters of what may wait for them, and by force at seven eighths.
    pub fn look_after_readers<R: Wait + Clock>(&self, rt: &R) {
        let entries = self.node.shared.lock(rt).core().audit().len() as u32;
        if self.readers.most_lag(entries) > self.keeping.rest() {
            self.node.news.notify_all();
            self.notices.told.notify_all();
        }
        let patience = self.keeping.patience();
        for seat in 0..self.seats as usize {
            let lag = self.readers.lag(seat, entries);
            // Nobody is told while a call of its own waits for a slow peer.
            let rests = lag <= self.keeping.rest() || self.readers.is_held(seat);
            if rests || self.readers.count_look(seat) < LOOKS {
                continue;
            }
            if lag > patience / 4 * 3 && self.readers.mark_behind(seat) {
                let fields = [number("seat", (seat as u64).saturating_add(1))];
                self.log.tell(rt, Level::Warn, "behind", &fields);
            }
            if lag > patience / 8 * 7 {
                self.end_behind(rt, seat);
            }
        }
    }

    /// Ends a connection that is in the midst of a write which nobody reads. Standard output can't
    /// be ended: its monitors are.
    fn end_behind<R: Wait>(&self, rt: &R, seat: usize) {
        self.readers.leave(seat);
        if !self.clients.end(rt, seat) {
            for _ in 0..u64::MAX {
                if !self.end_monitor(rt, seat) {
                    return;
                }
            }
        }
    }

    /// Ends a monitor of a seat: whether there was one.
    fn end_monitor<R: Wait>(&self, rt: &R, seat: usize) -> bool {
        let house = self.house.read(rt);
        match house.sessions.get(seat) {
            Some(session) => session.lock(rt).leave_monitor(rt, &self.node),
            None => false,
        }
    }
}

/// How many entries a node keeps.
pub(crate) fn kept(core: &NodeCore) -> u32 {
    let entries = core.audit().len() as u32;
    entries.saturating_sub(core.audit().forgotten())
}
