//! What a client reports of its locks.
ghost use Rattle.std.specs.Prelude.{◌≡◌, IfOk};

use crate::key_pieces::KeyPieces;
use crate::range_pieces::RangePieces;
use std::alloc::{AllocError, Global};

/// What a client holds: range parts on spans, and key parts at points.
#[derive(PartialEq, Eq, Drop)]
pub struct Pieces {
    /// The range parts. If spans overlap, the join of their parts counts.
    pub ranges: RangePieces,
    /// The key parts. At a point that stands here twice the greater part counts; one that is no
    /// slot is passed over.
    pub keys: KeyPieces,
}

impl Pieces {
    /// Equal pieces, with lists of their own.
    ///
    /// # Errors
    ///
    /// `AllocError` if the memory for a list is refused. Nothing has changed then.
    pub fn try_clone(&self, alloc: Global) -> Result<Pieces, AllocError>
        ensures { IfOk result (λ copy. copy ≡ self.now) }
    {
        Ok(Pieces {
            ranges: self.ranges.try_clone(alloc)?,
            keys: self.keys.try_clone(alloc)?,
        })
    }
}
