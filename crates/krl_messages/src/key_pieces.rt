//! Key parts at points.
use crate::items::Items;
use krl_modes::KeyPart;

/// A key part at a point.
#[derive(Clone, Copy, PartialEq, Eq)]
pub struct KeyPiece {
    /// The point where it is held: a key, or END.
    pub point: u64,
    /// What is held of it.
    pub part: KeyPart,
}

/// A list of key parts.
pub type KeyPieces = Items<KeyPiece>;
