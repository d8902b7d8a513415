//! Scopes of process groups (Kernel manual, `pg`).
ghost use Rattle.std.specs.Prelude.{◌≡◌, IfOk, IfErr, List, ℕ};
ghost use Rattle.dist_types.specs.Text.{IsText};
ghost use Rattle.dist_types.specs.Fault.{IsTextFault};

use crate::fault::{OutOfMemory, TextFault};
use crate::items::TryClone;
use crate::text::Text;
use std::alloc::Global;
use std::marker::Model;

/// The name of a scope, in which groups are kept apart from those of other scopes.
#[derive(Debug, PartialEq, Eq, PartialOrd, Ord, Hash)]
pub struct Scope {
    text: Text,
}

impl Drop for Scope {
    fn drop(self) {
        let Scope { text: _ } = self;
    }
}

impl Model for Scope {
    ghost Value = { List ℕ };

    ghost view = { λ scope. scope.text };

    ghost inverse = { λ bytes. record { text = bytes } };
}

impl Scope {
    /// Reads a scope: 1 to 255 bytes of 0x21 to 0x7E.
    pub fn parse(alloc: Global, bytes: &[u8]) -> Result<Scope, TextFault>
        ensures ok { IfOk result (λ scope. (scope ≡ bytes.now) × IsText bytes.now) }
        ensures refused { IfErr result (λ fault. IsTextFault fault bytes.now) }
    {
        let text = Text::parse(alloc, bytes)?;
        Ok(Scope { text })
    }

    /// The bytes of the name, as they were read.
    pub fn as_bytes(&self) -> &[u8]
        ensures value { result.now ≡ self.now }
        ensures limits { IsText self.now }
    {
        self.text.as_bytes()
    }

    /// The name as text: it is ASCII.
    pub fn as_str(&self) -> &str
        ensures { result.now ≡ self.now }
    {
        self.text.as_str()
    }
}

impl TryClone for Scope {
    fn try_clone(&self, alloc: Global) -> Result<Scope, OutOfMemory> {
        let text = self.text.try_clone(alloc)?;
        Ok(Scope { text })
    }
}
