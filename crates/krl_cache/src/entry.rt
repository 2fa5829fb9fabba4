//! Entries.
use krl_messages::Value;
use krl_modes::KeyPart;

/// What is believed of an entry: what is held of it, at least S, and its value. An entry at END has
/// none.
#[derive(Clone, Copy)]
pub struct Entry {
    pub part: KeyPart,
    pub value: Option<Value>,
}
