//! What a scan of a cache finds.
use crate::rows::Rows;

/// What a scan of a cache finds.
#[derive(Drop)]
pub enum Scanned {
    /// Each point of the span is known: these are its entries.
    Rows(Rows),
    /// The least point of the span that is not known.
    Miss(u64),
}
