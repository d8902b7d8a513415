//! The node as what is done behind it sees it.
use crate::hub::Hub;
use pg_closer::Archived;
use pg_log::Log;
use policy_audit::Page;
use std::sync::Wait;
use std::time::Clock;

impl Archived for Hub {
    fn log(&self) -> &Log {
        &self.log
    }

    fn hand_out<R: Wait + Clock>(&self, rt: &R, pages: &mut Vec<Page>) -> u32 {
        Hub::hand_out(self, rt, pages)
    }

    fn note_archived(&self, archived: u64, lost: u64) {
        self.keeping.note_archived(archived, lost);
    }

    fn reopens(&self) -> u32 {
        self.keeping.reopens()
    }

    fn want_memory<R: Wait>(&self, rt: &R) {
        Hub::want_memory(self, rt);
    }

    fn quit<R: Wait>(&self, rt: &R) {
        Hub::quit(self, rt);
    }
}
