//! What a node starts with.
use dist_types::{Cookie, NodeName};

/// What a node starts with, and comes back to with a restart, except for the creation.
#[derive(Debug)]
pub struct Opening {
    /// The node's own name.
    pub name: NodeName,
    pub cookie: Cookie,
    /// Whether the node shows no groups and sees none.
    pub hidden: bool,
    pub creation: u32,
    /// The most entries of the audit.
    pub entries: u32,
    /// The version of the messages between linked nodes that the node knows.
    pub links: u8,
}

impl Drop for Opening {
    fn drop(self) {
        let Opening {
            name: _,
            cookie: _,
            hidden: _,
            creation: _,
            entries: _,
            links: _,
        } = self;
    }
}
