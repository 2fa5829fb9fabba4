//! What a client answers to a look into its cache.
use krl_cache::RowsInPlace;

/// What a client answers to a look into its own cache: as to a scan, and its rows stand in the
/// cache.
#[derive(Drop)]
pub enum FindAnswer<'a> {
    /// The client knows each point of the span: these are the index's entries there.
    Rows(RowsInPlace<'a>),
    /// The least point of the span that the client does not know.
    Miss(u64),
    /// The key of the client's outstanding write, which lies in the span.
    Pending(u64),
}
