//! What is told where no connection can be taken.
use node_net::TakingFaults;
use pg_log::Log;
use std::io;
use std::sync::Wait;
use std::time::Clock;

/// A log that is told where no connection of a peer can be taken.
#[derive(Drop)]
pub struct UntakenPeers<'a, R: Wait + Clock> {
    pub rt: &'a R,
    pub log: &'a Log,
}

impl<R: Wait + Clock> TakingFaults for UntakenPeers<'_, R> {
    fn note(&self, error: &io::Error) {
        self.log.tell_untaken(self.rt, "peer", error);
    }
}
