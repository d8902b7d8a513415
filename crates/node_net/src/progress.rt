//! Whether a link has come up.
use node_threads::Gate;
use std::sync::atomic::{AtomicBool, Ordering};

/// Told by the reader of a link, so that nobody has to ask the node.
#[derive(Drop)]
pub(crate) struct Progress {
    is_up: AtomicBool,
}

impl Progress {
    pub(crate) fn new() -> Progress {
        Progress {
            is_up: AtomicBool::new(false),
        }
    }

    pub(crate) fn is_up(&self) -> bool {
        self.is_up.load(Ordering::SeqCst)
    }
}

impl Gate for Progress {
    fn came_up(&self, _link: u32) {
        self.is_up.store(true, Ordering::SeqCst);
    }
}
