//! Why a report is refused.

/// On some slot what the client reports is incompatible with another client's mode there.
#[derive(Clone, Copy, PartialEq, Eq)]
pub struct Conflict;
