//! The rows of a scan.
ghost use Rattle.std.specs.Prelude.{◌≡◌};

use krl_messages::Value;
use std::marker::Model;

/// Entries of the index, each a key and its value, in key order.
#[derive(Drop)]
pub struct Rows {
    entries: Vec<(u64, Value)>,
}

impl Model for Rows {
    ghost use Rattle.std.specs.Prelude.{ℕ, List};
    ghost use Rattle.krl_messages.specs.Values as values;

    ghost Value = { List (ℕ × values.Value) };

    ghost view = { λ r. r.entries.items };
}

impl Rows {
    /// These entries, in key order.
    pub fn of(entries: Vec<(u64, Value)>) -> Rows
        ensures { result ≡ entries.items }
    {
        Rows { entries }
    }

    /// The entries, in key order.
    pub fn as_slice(&self) -> &[(u64, Value)]
        ensures { result.now ≡ self.now }
    {
        &self.entries
    }
}
