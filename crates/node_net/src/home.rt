//! Where links are served.
use crate::lanes::Lanes;
use node_threads::Node;
use std::alloc::Global;

/// The node whose links are served, and its lanes.
#[derive(Drop)]
pub(crate) struct Home<'a, R> {
    pub(crate) rt: &'a R,
    pub(crate) alloc: Global,
    pub(crate) node: &'a Node,
    pub(crate) lanes: &'a Lanes<'a>,
}
