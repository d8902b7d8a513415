//! The answer to a challenge (Distribution Protocol, Distribution Handshake; MD5 is RFC 1321).
ghost use Rattle.std.specs.Prelude.{◌≡◌};
ghost use Rattle.cookie_digest.specs.Digest.{digest_of};

use dist_types::Cookie;
use itoa::Buffer;
use md5::{Digest, Md5};

/// What a node that has the cookie answers to the challenge.
pub fn digest(cookie: &Cookie, challenge: u32) -> [u8; 16]
    ensures { result ≡ digest_of cookie.now challenge }
{
    let mut decimal = Buffer::new();
    let mut hasher = Md5::new();
    hasher.update(cookie.as_bytes());
    hasher.update(decimal.format(challenge).as_bytes());
    hasher.finalize()
}
