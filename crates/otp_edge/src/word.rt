//! Link messages without their scope.
use dist_types::{Items, Row};

/// What two nodes say to each other about one scope.
#[derive(Debug, Drop, PartialEq, Eq)]
pub enum Word {
    /// The sender runs the scope, and asks for the receiver's rows.
    Discover,
    /// All rows of the sender.
    Sync(Items<Row>),
    /// Rows that the sender has got.
    Join(Items<Row>),
    /// Rows that the sender has lost.
    Leave(Items<Row>),
    /// The sender stopped the scope.
    Down,
}
