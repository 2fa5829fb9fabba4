//! What a client answers to a scan.
use krl_cache::Rows;

/// What a client answers to a scan, from its own cache.
#[derive(Drop)]
pub enum ScanAnswer {
    /// The client knows each point of the span: these are the index's entries there.
    Rows(Rows),
    /// The least point of the span that the client does not know.
    Miss(u64),
    /// The key of the client's outstanding write, which lies in the span.
    Pending(u64),
}
