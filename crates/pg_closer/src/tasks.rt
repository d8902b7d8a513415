//! What waits for the thread behind a node, and what that does next.
use crate::ended_life::EndedLife;
use crate::page_queue::PageQueue;
use node_threads::CloseRule;
use policy_audit::Page;

/// What waits to be written or closed, behind the lock of a `Closer`.
pub(crate) struct State {
    /// Pages of the life that is written, and of the one behind it.
    pub(crate) pages: PageQueue,
    pub(crate) later: PageQueue,
    /// The creation of the life that is written.
    pub(crate) creation: u32,
    /// How many pages found no room here.
    pub(crate) lost: u64,
    /// Whether the file took what it was given last.
    pub(crate) may_write: bool,
    pub(crate) life: Option<EndedLife>,
    pub(crate) is_closing: bool,
    pub(crate) has_ended: bool,
    /// The life that runs won't be closed.
    pub(crate) is_left: bool,
    /// Why a life wasn't closed.
    pub(crate) fault: Option<CloseRule>,
}

impl Drop for State {
    fn drop(self) {
        let State {
            pages: _,
            later: _,
            creation: _,
            lost: _,
            may_write: _,
            life: _,
            is_closing: _,
            has_ended: _,
            is_left: _,
            fault: _,
        } = self;
    }
}

impl State {
    /// What is to be done next. Pages can be written only where no write is failing.
    pub(crate) fn next(&mut self, may_write: bool) -> Task {
        if may_write {
            if let Some(page) = self.pages.take() {
                return Task::Write(page);
            }
        }
        match self.life.take() {
            Some(life) => Task::Close(life),
            None if self.has_ended => Task::End,
            None => Task::Look,
        }
    }

    /// Puts a page behind those of its life. Where as many wait as may, the oldest is lost.
    pub(crate) fn add(&mut self, creation: u32, page: Page) {
        let queue = if self.creation == creation {
            &mut self.pages
        } else {
            &mut self.later
        };
        match queue.add(page) {
            Ok(None) => {}
            _ => self.lost = self.lost.saturating_add(1),
        }
    }
}

/// What is to be done.
#[derive(Drop)]
pub(crate) enum Task {
    Write(Page),
    Close(EndedLife),
    /// To see whether the file is to be opened anew, or takes what it didn't.
    Look,
    End,
}
