//! The version of link messages, as the bytes behind a name say it. The handshake lets any bytes
//! follow a name (Distribution Protocol, Distribution Handshake).
ghost use Rattle.std.specs.Prelude.{◌≡◌};
ghost use Rattle.handshake_frames.specs.Spelling.{version_bytes, version_of};

/// The bytes that say the version: 02 for 2, none for 1.
pub fn version_bytes(version: u8) -> &'static [u8]
    ensures { result.now ≡ version_bytes version }
{
    if version == 2 { &[2] } else { &[] }
}

/// The version that the bytes say: 2 where they are exactly 02, else 1.
pub fn version_of(extra: &[u8]) -> u8
    ensures { result ≡ version_of extra.now }
{
    match extra {
        [2] => 2,
        _ => 1,
    }
}
