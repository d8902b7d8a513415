//! The bytes of a frame of the handshake.
ghost use Rattle.std.specs.Prelude.{◌≡◌, ◌<◌, ◌^◌, length, IfOk};

use dist_types::{Body, OutOfMemory};
use std::marker::Model;

/// The bytes of a frame of the handshake, without the length before them, which has 2 bytes
/// (Distribution Protocol, Distribution Handshake): at most 65,535.
#[derive(Debug, PartialEq, Eq)]
pub struct HandshakeBody {
    body: Body,
}

impl Drop for HandshakeBody {
    fn drop(self) {
        let HandshakeBody { body: _ } = self;
    }
}

impl Model for HandshakeBody {
    ghost use Rattle.std.specs.Prelude.{List, ℕ, length, ◌<◌, ◌^◌};

    ghost Value = { List ℕ };

    ghost view = { λ frame. frame.body };

    ghost inverse = { λ bytes. record { body = bytes } };

    ghost invariant = { λ frame. length frame.body < 2 ^ 16 };
}

impl HandshakeBody {
    pub(crate) fn of(bytes: Vec<u8>) -> Result<HandshakeBody, OutOfMemory>
        requires { length bytes.items < 2 ^ 16 }
        ensures { IfOk result (λ frame. frame ≡ bytes.items) }
    {
        Ok(HandshakeBody {
            body: Body::of(bytes)?,
        })
    }

    pub fn as_slice(&self) -> &[u8]
        ensures value { result.now ≡ self.now }
        ensures limits { length self.now < 2 ^ 16 }
    {
        self.body.as_slice()
    }

    /// The same bytes, without the promise that they are so few.
    pub fn into_body(self) -> Body
        ensures value { result ≡ self }
        ensures limits { length self < 2 ^ 16 }
    {
        let HandshakeBody { body } = self;
        body
    }
}
