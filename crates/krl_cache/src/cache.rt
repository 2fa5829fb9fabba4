//! A cache in two ordered maps.
ghost use Rattle.std.specs.Prelude.{◌≡◌, ◌≤◌, ◌<◌, ℕ, map, IfOk, OnOk, ◌++◌};
ghost use Rattle.std.specs.List.{filter_map};
ghost use Rattle.std.specs.Ordering.{nat_cmp};
ghost use Rattle.std.specs.BTreeMap.{IsOrdered};
ghost use Rattle.std.specs.BTreeMap.Range.{entries_between};
ghost use Rattle.std.specs.declared.ops.Bound.TheVariants.{Included, Excluded};
ghost use Rattle.krl_modes.specs.declared.point.TheConstants.{TOP};
ghost use Rattle.krl_cache.specs.Beliefs as beliefs;
ghost use Rattle.krl_cache.specs.Founds.{scanned_of};
ghost use Rattle.krl_cache.specs.Kept.{first_range_at, AreMerged};
ghost use Rattle.krl_cache.specs.Entries.{key_piece, StandWithin};
ghost use Rattle.krl_cache.specs.Maps.{Maps, maps_believe, at, part_at};
ghost use Rattle.krl_cache.specs.MapSteps.{IsPast, AreStartsMerged, row_of, piece_of, is_held};

use crate::belief::Belief;
use crate::entry::Entry;
use crate::found::{Found, RowsInPlace};
use crate::maps::part_at;
use crate::parts::{part_of, value_of};
use crate::rows::Rows;
use crate::scanned::Scanned;
use crate::walk::first_unknown;
use crate::{adopt, maps, several};
use krl_messages::{
    Holding, Holdings, KeyPiece, KeyPieces, Pieces, RangePiece, RangePieces, Value,
};
use krl_modes::{KeyPart, Mode, RangePart, Span, TOP};
use std::alloc::{AllocError, Global};
use std::collections::BTreeMap;
use std::marker::Model;

/// A cache in two ordered maps: the range parts by the points where they begin to hold, and the
/// entries by their points. Neighbours with the same part are one.
///
/// A look-up is one search. A scan searches only where the span begins, and walks once over the
/// parts and the entries that lie in it. Lowering searches at both ends of the span, and walks
/// twice over the parts and once over the entries in it. Adopting walks back from the end of the
/// span, by one search, to what stands before it; searches once for each end that changes, and
/// twice for the entry; and twice for each part and each entry that goes. Several holdings side by
/// side whose range parts agree are one piece: that walk is made once for all of them, and if no
/// entry stands in their spans, which one search finds, each of theirs is put by one search.
#[derive(Drop)]
pub struct Cache {
    starts: BTreeMap<u64, RangePart>,
    entries: BTreeMap<u64, Entry>,
}

impl Model for Cache {
    ghost use Rattle.krl_cache.specs.Maps.{Maps};
    ghost use Rattle.krl_cache.specs.MapSteps.{AreMapsKept};

    ghost Value = { Maps };

    ghost view = { λ c. record { starts = c.starts.entries; entries = c.entries.entries } };

    ghost invariant = { λ c. AreMapsKept
        (record { starts = c.starts.entries; entries = c.entries.entries }) };
}

// Adds a piece, if its part is held.
fn add_piece(
    list: &mut Vec<RangePiece>,
    lo: u64,
    hi: u64,
    part: RangePart,
) -> Result<(), AllocError>
    requires { (lo < hi) × (hi ≤ TOP) }
    ensures { OnOk result (list.new.items ≡ list.old.items ++ piece_of lo hi part) }
{
    if is_held(part) {
        if let Ok(span) = Span::new(lo, hi) {
            list.push(RangePiece { span, part })?;
        }
    }
    Ok(())
}

// Whether the part is more than N.
fn is_held(part: RangePart) -> bool
    ensures { result ≡ is_held part }
{
    match part {
        RangePart::N => false,
        RangePart::S | RangePart::I | RangePart::X => true,
    }
}

// The parts, each on the span where it holds.
fn ranges_of(
    alloc: Global,
    starts: &BTreeMap<u64, RangePart>,
) -> Result<Vec<RangePiece>, AllocError>
    requires past { IsPast (at starts.now.entries) }
    requires merged { AreStartsMerged (at starts.now.entries) }
    ensures stand { IfOk result (λ list. StandWithin 0 TOP list.items) }
    ensures said { IfOk result
        (λ list. (p : ℕ) → first_range_at list.items p ≡ part_at (at starts.now.entries) p) }
    ensures merged { IfOk result (λ list. AreMerged list.items) }
{
    let mut list = Vec::new(alloc);
    let mut p = 0;
    let mut part = part_at(starts, 0);
    for (start, next) in starts.range(1..TOP + 1) {
        add_piece(&mut list, p, *start, part)?;
        p = *start;
        part = *next;
    }
    Ok(list)
}

// The row of an entry, if it has a value.
fn row_of(point: u64, entry: &Entry) -> Option<(u64, Value)>
    ensures { result ≡ row_of (point, entry.now) }
{
    match entry.value {
        None => None,
        Some(value) => Some((point, value)),
    }
}

// The rows of the entries from `lo` on below `hi`.
fn rows_of(
    alloc: Global,
    entries: &BTreeMap<u64, Entry>,
    lo: u64,
    hi: u64,
) -> Result<Vec<(u64, Value)>, AllocError>
    requires { lo ≤ hi }
    ensures ordered { IsOrdered nat_cmp entries.now }
    ensures rows { IfOk result
        (λ rows. rows.items ≡ filter_map row_of
        (entries_between nat_cmp (Included lo) (Excluded hi) entries.now.entries)) }
{
    entries
        .range(lo..hi)
        .filter_map(|(point, entry)| row_of(*point, entry))
        .collect(alloc)
}

// The key parts of the entries.
fn keys_of(alloc: Global, entries: &BTreeMap<u64, Entry>) -> Result<Vec<KeyPiece>, AllocError>
    ensures ordered { IsOrdered nat_cmp entries.now }
    ensures keys { IfOk result (λ keys. keys.items ≡ map key_piece entries.now.entries) }
{
    entries
        .iter()
        .map(|(point, entry)| KeyPiece {
            point: *point,
            part: entry.part,
        })
        .collect(alloc)
}

impl Cache {
    /// A cache that believes nothing. It takes no memory.
    pub fn new(alloc: Global) -> Cache
        ensures { maps_believe result ≡ beliefs.no_belief }
    {
        Cache {
            starts: BTreeMap::new(alloc),
            entries: BTreeMap::new(alloc),
        }
    }

    /// The entries of the span, if each of its points is known; otherwise the least point that is
    /// not. They are read where they stand, so that it takes no memory.
    pub fn find(&self, span: Span) -> Found<'_>
        ensures { beliefs.Scans (maps_believe self.now) span (scanned_of result) }
    {
        let lo = span.lo();
        let hi = span.hi();
        match first_unknown(&self.starts, &self.entries, lo, hi) {
            Some(p) => Found::Miss(p),
            None => Found::Rows(RowsInPlace::of(self.entries.range(lo..hi))),
        }
    }
}

impl Belief for Cache {
    ghost believed = { maps_believe };

    fn range_at(&self, p: u64) -> RangePart {
        part_at(&self.starts, p)
    }

    fn key_at(&self, p: u64) -> KeyPart {
        part_of(self.entries.get(&p).copied())
    }

    fn value_at(&self, p: u64) -> Option<Value> {
        value_of(self.entries.get(&p).copied())
    }

    fn adopt(&mut self, holding: Holding) -> Result<(), AllocError> {
        adopt::adopt(&mut self.starts, &mut self.entries, holding)?;
        Ok(())
    }

    fn adopt_all(&mut self, holdings: &Holdings) -> Result<(), AllocError> {
        several::adopt_all(&mut self.starts, &mut self.entries, holdings)?;
        Ok(())
    }

    fn lower(&mut self, span: Span, keep: Mode) -> Result<(), AllocError> {
        maps::lower(&mut self.starts, &mut self.entries, span, keep)?;
        Ok(())
    }

    fn scan(&self, alloc: Global, span: Span) -> Result<Scanned, AllocError> {
        let lo = span.lo();
        let hi = span.hi();
        match first_unknown(&self.starts, &self.entries, lo, hi) {
            Some(p) => Ok(Scanned::Miss(p)),
            None => {
                let rows = rows_of(alloc, &self.entries, lo, hi)?;
                Ok(Scanned::Rows(Rows::of(rows)))
            }
        }
    }

    fn pieces(&self, alloc: Global) -> Result<Pieces, AllocError> {
        let ranges = ranges_of(alloc, &self.starts)?;
        let keys = keys_of(alloc, &self.entries)?;
        Ok(Pieces {
            ranges: RangePieces::from(ranges),
            keys: KeyPieces::from(keys),
        })
    }
}
