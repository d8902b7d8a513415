//! What the links of a life tell beside the node.
use crate::addresses::Addresses;
use crate::edges::Edges;
use crate::endings::Endings;
use crate::writers::Writers;
use dial_targets::Limits;
use dist_types::OutOfMemory;
use std::alloc::Global;
use std::sync::Wait;

/// What the links of a life tell beside the node.
#[derive(Drop)]
pub struct Notes {
    /// Why they have ended.
    pub endings: Endings,
    /// How their writers get on.
    pub writers: Writers,
    /// Where their other ends are.
    pub addresses: Addresses,
    /// What those with stock nodes of Erlang/OTP share.
    pub edges: Edges,
}

impl Notes {
    pub fn new(alloc: Global) -> Result<Notes, OutOfMemory> {
        Ok(Notes {
            endings: Endings::new(alloc)?,
            writers: Writers::new(),
            addresses: Addresses::new(alloc)?,
            edges: Edges::new(alloc)?,
        })
    }

    /// Forgets all, since a new life counts its links anew. Those have these limits.
    pub fn begin_life<R: Wait>(&self, rt: &R, limits: Limits) {
        self.endings.clear(rt);
        self.writers.begin_life(rt, limits);
        self.addresses.clear(rt);
        self.edges.clear(rt);
    }
}
