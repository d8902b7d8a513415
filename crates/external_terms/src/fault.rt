//! Why bytes don't begin with a term.
use thiserror::Error;

/// Why bytes don't begin with a term.
#[derive(Clone, Copy, Debug, PartialEq, Eq, Error)]
pub enum TermFault {
    /// They end inside a term: further bytes can complete it.
    #[error("the bytes end inside a term")]
    Truncated,
    /// A byte is no tag where one is due, or not the tag of an atom where a node is due: nothing
    /// can complete it.
    #[error("a byte is no tag of a term")]
    UnknownTag,
}
