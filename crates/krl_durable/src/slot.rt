//! Slots.
use krl_messages::Value;

/// A slot of the index: it stands for its own point and for the gap below it.
#[derive(Clone, Copy, PartialEq, Eq)]
pub struct Slot {
    /// Its own point: a key, or END.
    pub point: u64,
    /// The first point of its span, from 0 to its own point.
    pub low: u64,
    /// The value of its entry; None at END.
    pub value: Option<Value>,
}
