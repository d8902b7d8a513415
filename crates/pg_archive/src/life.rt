//! What a life of a node begins with.
ghost use Rattle.std.specs.Prelude.{◌≡◌, IfOk};
ghost use Rattle.pg_archive.specs.Entries.{opened, life_of};

use dist_types::{Cookie, NodeName, OutOfMemory, TryClone};
use policy_audit::Opening;
use std::alloc::Global;

/// What a life of a node begins with, but for its cookie.
#[derive(Debug, Drop, PartialEq, Eq)]
pub struct Life {
    /// The node's own name.
    pub name: NodeName,
    /// Whether each of its links is a hidden one.
    pub hidden: bool,
    pub creation: u32,
    /// The most entries of its audit.
    pub entries: u32,
    /// The version of the messages between linked nodes that it knows.
    pub links: u8,
}

impl Life {
    /// The life that begins with this opening.
    pub fn of(alloc: Global, opening: &Opening) -> Result<Life, OutOfMemory>
        ensures { IfOk result (λ life. life ≡ life_of opening.now) }
    {
        Ok(Life {
            name: opening.name.try_clone(alloc)?,
            hidden: opening.hidden,
            creation: opening.creation,
            entries: opening.entries,
            links: opening.links,
        })
    }

    /// The opening of this life, with its cookie.
    pub fn opening(self, cookie: Cookie) -> Opening
        ensures { result ≡ opened self cookie }
    {
        let Life {
            name,
            hidden,
            creation,
            entries,
            links,
        } = self;
        Opening {
            name,
            cookie,
            hidden,
            creation,
            entries,
            links,
        }
    }
}
