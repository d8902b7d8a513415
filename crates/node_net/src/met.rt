//! What an operator should know of the links of a node.
use std::sync::atomic::{AtomicU64, Ordering};

/// What an operator should know of the links of a node: how often it was met.
#[derive(Clone, Copy, Debug, PartialEq, Eq)]
pub struct Met {
    /// A peer asked for a digest of a challenge of this node's own, and lost its link.
    pub reflections: u64,
    /// No lane was left for a further link.
    pub fillings: u64,
    /// A link to a peer that is dialled ended early again, while the peer lived on.
    pub early_ends: u64,
    /// A dial has failed.
    pub failed_dials: u64,
    /// A stock node of Erlang/OTP has connected where nodes of this program do.
    pub stock_nodes: u64,
    /// Another node was at a link that is for stock nodes.
    pub native_nodes: u64,
    /// Rows of a group weren't told to stock nodes, since they were told too many others.
    pub refused_atoms: u64,
}

impl Met {
    pub const NOTHING: Met = Met {
        reflections: 0,
        fillings: 0,
        early_ends: 0,
        failed_dials: 0,
        stock_nodes: 0,
        native_nodes: 0,
        refused_atoms: 0,
    };
}

/// How often it was met up to now, by all threads that serve links.
pub(crate) struct Counts {
    reflections: AtomicU64,
    fillings: AtomicU64,
    early_ends: AtomicU64,
    failed_dials: AtomicU64,
    stock_nodes: AtomicU64,
    native_nodes: AtomicU64,
}

impl Drop for Counts {
    fn drop(self) {
        let Counts {
            reflections: _,
            fillings: _,
            early_ends: _,
            failed_dials: _,
            stock_nodes: _,
            native_nodes: _,
        } = self;
    }
}

impl Counts {
    pub(crate) fn new() -> Counts {
        Counts {
            reflections: AtomicU64::new(0),
            fillings: AtomicU64::new(0),
            early_ends: AtomicU64::new(0),
            failed_dials: AtomicU64::new(0),
            stock_nodes: AtomicU64::new(0),
            native_nodes: AtomicU64::new(0),
        }
    }

    /// With the rows that weren't told to stock nodes, which are counted elsewhere.
    pub(crate) fn met(&self, refused_atoms: u64) -> Met {
        Met {
            reflections: self.reflections.load(Ordering::SeqCst),
            fillings: self.fillings.load(Ordering::SeqCst),
            early_ends: self.early_ends.load(Ordering::SeqCst),
            failed_dials: self.failed_dials.load(Ordering::SeqCst),
            stock_nodes: self.stock_nodes.load(Ordering::SeqCst),
            native_nodes: self.native_nodes.load(Ordering::SeqCst),
            refused_atoms,
        }
    }

    pub(crate) fn reflection(&self) {
        self.reflections.fetch_add(1, Ordering::SeqCst);
    }

    pub(crate) fn filling(&self) {
        self.fillings.fetch_add(1, Ordering::SeqCst);
    }

    pub(crate) fn early_end(&self) {
        self.early_ends.fetch_add(1, Ordering::SeqCst);
    }

    pub(crate) fn failed_dial(&self) {
        self.failed_dials.fetch_add(1, Ordering::SeqCst);
    }

    pub(crate) fn stock_node(&self) {
        self.stock_nodes.fetch_add(1, Ordering::SeqCst);
    }

    pub(crate) fn native_node(&self) {
        self.native_nodes.fetch_add(1, Ordering::SeqCst);
    }
}
