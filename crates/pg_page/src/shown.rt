//! Who is shown: a node at work.
use crate::health::Health;
use crate::view::NodeView;
use std::alloc::AllocError;
use std::sync::Wait;
use std::time::Clock;

/// A node at work, as who looks on sees it.
pub trait Shown {
    /// The node as it stands now, with the groups of its scopes and the last lines of its log where
    /// they are wanted.
    fn view<R: Wait + Clock>(&self, rt: &R, with_groups: bool) -> Result<NodeView, AllocError>;

    /// Whether it does its work.
    fn health<R: Wait>(&self, rt: &R) -> Health;

    /// Whether the program is to end.
    fn is_quitting(&self) -> bool;
}
