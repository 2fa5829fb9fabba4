//! The two phases of a server.

/// Whether the server still recovers: it waits for reports.
#[derive(Clone, Copy, PartialEq, Eq)]
pub enum Phase {
    /// Somebody is missing: a client that was registered at the start has since neither reported,
    /// nor registered again, nor left.
    Recovering,
    /// Nobody is missing.
    Serving,
}
