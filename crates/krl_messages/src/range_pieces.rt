//! Range parts on spans.
use crate::items::Items;
use krl_modes::{RangePart, Span};

/// A range part on a span.
#[derive(Clone, Copy, PartialEq, Eq)]
pub struct RangePiece {
    /// The points where it is held.
    pub span: Span,
    /// What is held of each of them.
    pub part: RangePart,
}

/// A list of range parts.
pub type RangePieces = Items<RangePiece>;
