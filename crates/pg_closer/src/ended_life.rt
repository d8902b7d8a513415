//! A life of a node that has ended.
use node_threads::{Node, Pass};
use pg_archive::Life;

/// A life that has ended, with all its passes, and the one behind it, if there is one.
#[derive(Drop)]
pub struct EndedLife {
    pub node: Node,
    pub passes: Vec<Pass>,
    pub next: Option<Life>,
}
