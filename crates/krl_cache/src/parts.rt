//! What parts and entries state.
ghost use Rattle.std.specs.Prelude.{◌≡◌};
ghost use Rattle.krl_modes.specs.Parts as parts;
ghost use Rattle.krl_cache.specs.Lists.{part_of, value_of};

use crate::entry::Entry;
use krl_messages::Value;
use krl_modes::{KeyPart, RangePart};

/// Whether the part reads the entry.
pub fn reads_key(part: KeyPart) -> bool
    ensures { result ≡ parts.reads_key part }
{
    KeyPart::S.at_most(part)
}

/// Whether the part reads the gap.
pub fn reads_gap(part: RangePart) -> bool
    ensures { result ≡ parts.reads_gap part }
{
    RangePart::S.at_most(part)
}

/// What an entry states of its key, if there is one.
pub fn part_of(entry: Option<Entry>) -> KeyPart
    ensures { result ≡ part_of entry }
{
    match entry {
        Some(entry) => entry.part,
        None => KeyPart::N,
    }
}

/// The value of an entry, if there is one.
pub fn value_of(entry: Option<Entry>) -> Option<Value>
    ensures { result ≡ value_of entry }
{
    match entry {
        Some(entry) => entry.value,
        None => None,
    }
}
