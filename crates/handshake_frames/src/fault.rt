//! Why bytes are refused.
use thiserror::Error;

/// The bytes are no frame of the kind that was asked for.
#[derive(Clone, Copy, Debug, PartialEq, Eq, Error)]
#[error("the bytes are no frame of the kind awaited")]
pub struct BadFrame;
