//! Bytes of a stock node that have come, and aren't used yet.
ghost use Rattle.std.specs.Prelude.{◌≤◌, vec_len};

/// Bytes that have come.
#[derive(Debug, Drop)]
pub struct Inward {
    pub(crate) bytes: Vec<u8>,
    /// How many of them were used.
    pub(crate) used: usize,
    /// How many bytes that are to come aren't kept.
    pub(crate) left_out: usize,
    ghost within: { used ≤ vec_len bytes },
}
