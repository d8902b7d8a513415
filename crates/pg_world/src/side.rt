//! The sides of a wire, and its ends.

/// A side of a wire: that of the node that dialled, or that of the node that is dialled.
#[derive(Clone, Copy, Debug, PartialEq, Eq)]
pub enum Side {
    Dialler,
    Acceptor,
}

/// The end of a wire: a node, by its place, and its link there.
#[derive(Clone, Copy, Debug, PartialEq, Eq)]
pub struct End {
    pub node: usize,
    pub link: u32,
}
