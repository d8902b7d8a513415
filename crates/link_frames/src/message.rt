//! The messages between linked nodes, after the scheme of `pg` (Kernel manual, `pg`).
use dist_types::{Items, Row, Scope};

/// Rows in any order. A row may be repeated.
pub type Rows = Items<Row>;

/// What a node says to a node that it is linked to, about one scope.
#[derive(Debug, Drop, PartialEq, Eq)]
pub enum Message {
    /// The sender runs the scope, and asks for the receiver's rows.
    Discover(Scope),
    /// All rows of the sender.
    Sync(Scope, Rows),
    /// Rows that the sender has got, at least one.
    Join(Scope, Rows),
    /// Rows that the sender has lost, at least one.
    Leave(Scope, Rows),
    /// The sender stopped the scope.
    Down(Scope),
}
