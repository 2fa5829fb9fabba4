//! What a look into a cache finds, read where it stands.
ghost use Rattle.std.specs.Prelude.{◌≡◌, ◌<◌, ◌^◌, [], ◌∷◌, length, MatchOption};
ghost use Rattle.std.specs.List.{filter_map};
ghost use Rattle.krl_cache.specs.MapSteps.{row_of};

use crate::entry::Entry;
use krl_messages::Value;
use std::collections::btree_map::Range;
use std::marker::Model;

/// Entries of the index, each a key and its value, in key order. They are read where they stand, so
/// that they take no memory.
#[derive(Drop)]
pub struct RowsInPlace<'a> {
    rest: Range<'a, u64, Entry>,
}

impl<'a> Model for RowsInPlace<'a> {
    ghost use Rattle.std.specs.Prelude.{ℕ, List, ◌<◌, ◌^◌, length};
    ghost use Rattle.std.specs.List.{filter_map};
    ghost use Rattle.krl_messages.specs.Values as values;
    ghost use Rattle.krl_cache.specs.MapSteps.{row_of};

    ghost Value = { List (ℕ × values.Value) };

    ghost view = { λ r. filter_map row_of r.rest };

    ghost invariant = { λ r. length r.rest < 2 ^ 63 };
}

impl<'a> RowsInPlace<'a> {
    // Those of these entries that have a value.
    pub(crate) fn of(rest: Range<'a, u64, Entry>) -> RowsInPlace<'a>
        requires { length rest < 2 ^ 63 }
        ensures { result ≡ filter_map row_of rest.entry }
    {
        RowsInPlace { rest }
    }

    /// How many there are. It walks over them.
    pub fn count(&self) -> usize
        ensures { result ≡ length self.now }
    {
        let mut count = 0;
        for (_, entry) in self.rest.clone().unwrap() {
            if entry.value.is_some() {
                count += 1;
            }
        }
        count
    }

    /// Takes the first of them out.
    #[inline(always)]
    pub fn pop_first(&mut self) -> Option<(u64, &'a Value)>
        ensures { MatchOption result ((self.old ≡ []) × (self.new ≡ []))
            (λ row. self.old ≡ (row.0, row.1.now) ∷ self.new) }
    {
        while let Some((point, entry)) = self.rest.next() {
            if let Some(value) = &entry.value {
                return Some((*point, value));
            }
        }
        None
    }
}

/// What a look into a cache finds in a span.
#[derive(Drop)]
pub enum Found<'a> {
    /// Each point of the span is known: these are its entries.
    Rows(RowsInPlace<'a>),
    /// The least point of the span that is not known.
    Miss(u64),
}
