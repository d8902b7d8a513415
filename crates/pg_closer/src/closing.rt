//! The thread behind a node: it writes pages, and closes lives that have ended behind theirs.
use crate::archived::Archived;
use crate::ended_life::EndedLife;
use crate::page_queue::PageQueue;
use crate::recorder::Recorder;
use crate::reserve::Reserve;
use crate::tasks::{State, Task};
use anyhow::{Error, Result, anyhow};
use node_threads::CloseRule;
use pg_archive::Life;
use pg_log::Log;
use policy_audit::{Audit, PAGE_SIZE, Page};
use std::alloc::Global;
use std::mem::replace;
use std::sync::{Condvar, CondvarTimeouts, Mutex, Wait};
use std::time::{Clock, Duration};

/// The milliseconds before a write that has failed is tried again, and between two looks whether
/// the file is to be opened anew.
const REST: u64 = 1_000;

/// How many pages may wait in any case: as many as are handed out at once.
const FEWEST: usize = 64;

/// The entries of a page.
const PAGE: u64 = PAGE_SIZE as u64;

/// Closes one life after another, and writes what they keep no more.
pub struct Closer<'a> {
    alloc: Global,
    state: Mutex<State>,
    moved: Condvar,
    /// How many pages wait at most.
    most: usize,
    archive: Option<Mutex<Recorder<'a>>>,
    pub reserve: Reserve,
}

impl Drop for Closer<'_> {
    fn drop(self) {
        let Closer {
            alloc: _,
            state: _,
            moved: _,
            most: _,
            archive: _,
            reserve: _,
        } = self;
    }
}

impl<'a> Closer<'a> {
    /// With this archive, if there is one, which has taken the line of the life with this creation.
    /// As many entries wait for it at most as a node keeps, and 64 pages in any case. Memory is
    /// kept for the turns.
    pub fn new<R: Wait>(
        rt: &R,
        alloc: Global,
        archive: Option<Recorder<'a>>,
        creation: u32,
        entries: u32,
    ) -> Closer<'a> {
        let reserve = Reserve::new(alloc);
        reserve.take(rt);
        let archive = match archive {
            Some(recorder) => Some(Mutex::new(recorder)),
            None => None,
        };
        let most = (entries as usize / PAGE_SIZE).max(FEWEST);
        Closer {
            alloc,
            state: Mutex::new(State {
                pages: PageQueue::new(alloc, most),
                later: PageQueue::new(alloc, most),
                creation,
                lost: 0,
                may_write: true,
                life: None,
                is_closing: false,
                has_ended: false,
                is_left: false,
                fault: None,
            }),
            moved: Condvar::new(),
            most,
            archive,
            reserve,
        }
    }

    /// Takes pages out of the node, which are written next; without an archive they are let go:
    /// whether there were any. The lock is held meanwhile, so that no life is put in before its
    /// pages.
    pub fn take_pages<R: Wait + Clock, N: Archived>(&self, rt: &R, node: &N) -> bool {
        let mut pages = Vec::new(self.alloc);
        let mut state = self.state.lock(rt);
        let creation = node.hand_out(rt, &mut pages);
        let are_some = !pages.is_empty();
        if !are_some || self.archive.is_none() {
            return are_some;
        }
        for page in pages {
            state.add(creation, page);
        }
        drop(state);
        self.moved.notify_all();
        true
    }

    /// Whether as many pages as are handed out at once find room. Where the file takes none the
    /// oldest make room.
    pub fn has_room<R: Wait>(&self, rt: &R) -> bool {
        if self.archive.is_none() {
            return true;
        }
        let state = self.state.lock(rt);
        let waiting = state.pages.len().max(state.later.len());
        !state.may_write || waiting <= self.most.saturating_sub(FEWEST)
    }

    /// Waits until the last life that was put in is closed, and let go: whether that took a wait.
    pub fn wait_until_idle<R: Wait>(&self, rt: &R) -> bool {
        let state = self.state.lock(rt);
        let was_busy = state.is_closing;
        let state = self.moved.wait_while(rt, state, |state| state.is_closing);
        drop(state);
        was_busy
    }

    /// Puts a life in. The one before is closed by then.
    pub fn put<R: Wait>(&self, rt: &R, life: EndedLife) {
        let mut state = self.state.lock(rt);
        state.life = Some(life);
        state.is_closing = true;
        drop(state);
        self.moved.notify_all();
    }

    /// No further life goes in, and no further page; what is in is done.
    pub fn end<R: Wait>(&self, rt: &R) {
        self.state.lock(rt).has_ended = true;
        self.moved.notify_all();
    }

    /// What is to be done next, once there is something, or after a rest.
    fn take<R: Wait + Clock>(&self, rt: &R, may_write: bool) -> Task {
        let state = self.state.lock(rt);
        let rest = Duration::from_millis(REST);
        let (mut state, _) = self.moved.wait_timeout_while(rt, state, rest, |state| {
            (state.pages.len() == 0 || !may_write) && state.life.is_none() && !state.has_ended
        });
        state.may_write = may_write;
        state.next(may_write)
    }

    fn note<R: Wait>(&self, rt: &R, closed: Result<(), CloseRule>) {
        let mut state = self.state.lock(rt);
        state.is_closing = false;
        if let Err(fault) = closed {
            state.fault = Some(fault);
        }
        drop(state);
        self.moved.notify_all();
    }

    /// Does what is put in, until the end. A life that isn't closed ends the program.
    pub fn work<R: Wait + Clock, N: Archived>(&self, rt: &R, node: &N) {
        for _ in rt.forever() {
            let may_write = self.look(rt, node);
            match self.take(rt, may_write) {
                Task::Write(page) => self.write(rt, node, &page),
                // A file that is to be opened anew gets what is left, too.
                Task::Close(life) => {
                    self.look(rt, node);
                    self.close_one(rt, node, life);
                }
                Task::Look => {}
                Task::End => {
                    self.look(rt, node);
                    return;
                }
            }
        }
        unreachable!()
    }

    /// How many pages found no room since this was asked last.
    fn take_lost<R: Wait>(&self, rt: &R) -> u64 {
        let mut state = self.state.lock(rt);
        replace(&mut state.lost, 0)
    }

    /// Opens the archive's file anew if that is asked for, and writes what waits there: whether it
    /// takes more.
    fn look<R: Wait + Clock, N: Archived>(&self, rt: &R, node: &N) -> bool {
        let Some(archive) = &self.archive else {
            return true;
        };
        let lost = self.take_lost(rt);
        let mut archive = archive.lock(rt);
        archive.count_lost(lost.saturating_mul(PAGE));
        let is_open = archive.reopen(rt, self.alloc, node.reopens(), node.log());
        let may_write = is_open && archive.flush(rt, self.alloc, node.log());
        archive.tell(node);
        may_write
    }

    fn write<R: Wait + Clock, N: Archived>(&self, rt: &R, node: &N, page: &Page) {
        if let Some(archive) = &self.archive {
            let mut archive = archive.lock(rt);
            archive.write(rt, self.alloc, page.as_slice(), node.log());
            archive.tell(node);
        }
    }

    fn close_one<R: Wait + Clock, N: Archived>(&self, rt: &R, node: &N, mut life: EndedLife) {
        let next = life.next.take();
        let closed = self.close(rt, self.alloc, life, node.log());
        let has_failed = closed.is_err();
        if let Some(next) = next {
            self.turn(rt, node, &next);
        }
        self.reserve.take(rt);
        self.note(rt, closed);
        if has_failed {
            node.quit(rt);
        }
    }

    /// What is written from now on is of the next life.
    fn turn<R: Wait, N: Archived>(&self, rt: &R, node: &N, next: &Life) {
        let mut state = self.state.lock(rt);
        let none = PageQueue::new(self.alloc, self.most);
        state.pages = replace(&mut state.later, none);
        state.creation = next.creation;
        drop(state);
        if let Some(archive) = &self.archive {
            let is_begun = archive.lock(rt).begin(next);
            if is_begun.is_err() {
                node.want_memory(rt);
            }
        }
    }

    /// Settles all passes of a life that has ended, and writes what it kept, behind its pages.
    pub fn close<R: Wait + Clock>(
        &self,
        rt: &R,
        alloc: Global,
        life: EndedLife,
        log: &Log,
    ) -> Result<(), CloseRule> {
        let EndedLife { node, passes, .. } = life;
        match node.close(passes) {
            Ok(closed) => {
                self.write_kept(rt, alloc, closed.core.audit(), log);
                Ok(())
            }
            Err(fault) => Err(fault.rule),
        }
    }

    /// The life that runs won't be closed: a fault ends the program.
    pub fn leave<R: Wait>(&self, rt: &R) {
        self.state.lock(rt).is_left = true;
    }

    /// Writes what such a life kept, behind its pages. An error where entries aren't in the
    /// archive.
    pub fn write_left<R: Wait + Clock>(
        &self,
        rt: &R,
        alloc: Global,
        audit: &Audit,
        log: &Log,
    ) -> Result<()> {
        if !self.state.lock(rt).is_left {
            return Ok(());
        }
        self.write_kept(rt, alloc, audit, log);
        self.check_archive(rt)
    }

    /// Writes what a life kept, behind its pages.
    fn write_kept<R: Wait + Clock>(&self, rt: &R, alloc: Global, audit: &Audit, log: &Log) {
        if let Some(archive) = &self.archive {
            let mut archive = archive.lock(rt);
            self.write_pages(rt, alloc, &mut archive, log);
            archive.end(rt, alloc, audit, log);
        }
    }

    /// Writes the pages that wait still of the life that is written. Those that can't be written
    /// now are lost.
    fn write_pages<R: Wait + Clock>(
        &self,
        rt: &R,
        alloc: Global,
        archive: &mut Recorder<'_>,
        log: &Log,
    ) {
        archive.count_lost(self.take_lost(rt).saturating_mul(PAGE));
        for _ in 0..u64::MAX {
            let Some(page) = self.take_page(rt) else {
                return;
            };
            archive.write(rt, alloc, page.as_slice(), log);
        }
    }

    fn take_page<R: Wait>(&self, rt: &R) -> Option<Page> {
        self.state.lock(rt).pages.take()
    }

    /// An error where a life wasn't closed.
    pub fn check<R: Wait>(&self, rt: &R) -> Result<()> {
        match self.state.lock(rt).fault.take() {
            Some(rule) => Err(not_closed(rule)),
            None => Ok(()),
        }
    }

    /// An error where entries aren't in the archive.
    pub fn check_archive<R: Wait>(&self, rt: &R) -> Result<()> {
        match &self.archive {
            Some(archive) => archive.lock(rt).check(),
            None => Ok(()),
        }
    }
}

/// The error of a life that isn't closed.
pub fn not_closed(rule: CloseRule) -> Error {
    anyhow!("the node is not closed: {rule}")
}
