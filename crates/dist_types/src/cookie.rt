//! Cookies (Erlang manual, `erlang:set_cookie`).
ghost use Rattle.std.specs.Prelude.{◌≡◌, IfOk, IfErr, List, ℕ};
ghost use Rattle.dist_types.specs.Text.{IsText};
ghost use Rattle.dist_types.specs.Fault.{IsTextFault};

use crate::fault::{OutOfMemory, TextFault};
use crate::items::TryClone;
use crate::text::Text;
use std::alloc::Global;
use std::fmt;
use std::marker::Model;

/// The secret that two nodes share. `Debug` shows none of its bytes.
#[derive(PartialEq, Eq, PartialOrd, Ord, Hash)]
pub struct Cookie {
    text: Text,
}

impl Drop for Cookie {
    fn drop(self) {
        let Cookie { text: _ } = self;
    }
}

impl Model for Cookie {
    ghost Value = { List ℕ };

    ghost view = { λ cookie. cookie.text };

    ghost inverse = { λ bytes. record { text = bytes } };
}

impl Cookie {
    /// Reads a cookie: 1 to 255 bytes of 0x21 to 0x7E.
    pub fn parse(alloc: Global, bytes: &[u8]) -> Result<Cookie, TextFault>
        ensures ok { IfOk result (λ cookie. (cookie ≡ bytes.now) × IsText bytes.now) }
        ensures refused { IfErr result (λ fault. IsTextFault fault bytes.now) }
    {
        let text = Text::parse(alloc, bytes)?;
        Ok(Cookie { text })
    }

    /// The bytes of the secret.
    pub fn as_bytes(&self) -> &[u8]
        ensures value { result.now ≡ self.now }
        ensures limits { IsText self.now }
    {
        self.text.as_bytes()
    }
}

impl TryClone for Cookie {
    fn try_clone(&self, alloc: Global) -> Result<Cookie, OutOfMemory> {
        let text = self.text.try_clone(alloc)?;
        Ok(Cookie { text })
    }
}

impl fmt::Debug for Cookie {
    fn fmt<W: fmt::Write>(&self, f: &mut fmt::Formatter<W>) -> fmt::Result {
        f.write_str("Cookie(..)")
    }
}
