//! Answers.
use krl_cache::Rows;

/// What a step that was taken answers.
#[derive(Drop)]
pub enum Answer {
    /// The step was taken, and has nothing to report.
    Done,
    /// The number of the new pin.
    Pinned(u64),
    /// The client knows each point of the span: these are the index's entries there.
    Rows(Rows),
    /// The least point of the span that the client does not know.
    Miss(u64),
    /// The key of the client's outstanding write, which lies in the span.
    Pending(u64),
}
