//! A cache in plain lists.
ghost use Rattle.std.specs.Prelude.{true, ◌≡◌, ◌≤◌, ◌<◌, ℕ, IfOk, OnOk, OnErr, MatchOption, false};
ghost use Rattle.krl_modes.specs.declared.point.TheConstants.{TOP};
ghost use Rattle.krl_messages.specs.Holdings.{have_values};
ghost use Rattle.krl_cache.specs.Beliefs as beliefs;
ghost use Rattle.krl_cache.specs.Laws as laws;
ghost use Rattle.krl_cache_laws.specs.Lists.{lists_believe, KnowsFrom};

use crate::entries::{entries_lowered, entries_with, entry_at, keys_of, rows_of};
use crate::pieces::{part_at, part_from, pieces_lowered, pieces_with};
use krl_cache::{Belief, Entry, Rows, Scanned, part_of, reads_gap, reads_key, value_of};
use krl_messages::{Holding, Holdings, KeyPieces, Pieces, RangePiece, RangePieces, Value};
use krl_modes::{KeyPart, Mode, RangePart, Span, TOP};
use std::alloc::{AllocError, Global};
use std::marker::Model;

/// A cache in plain lists: range parts on spans, and entries at points, both in order.
#[derive(Drop)]
pub struct PlainCache {
    alloc: Global,
    ranges: Vec<RangePiece>,
    entries: Vec<(u64, Entry)>,
}

impl Model for PlainCache {
    ghost use Rattle.krl_cache_laws.specs.Lists.{Lists, AreKept};

    ghost Value = { Lists };

    ghost view = { λ c. record { ranges = c.ranges.items; entries = c.entries.items } };

    ghost invariant = { λ c. AreKept
        (record { ranges = c.ranges.items; entries = c.entries.items }) };
}

impl PlainCache {
    /// A cache that believes nothing. It takes no memory.
    pub fn new(alloc: Global) -> PlainCache
        ensures { lists_believe result ≡ beliefs.no_belief }
    {
        PlainCache {
            alloc,
            ranges: Vec::new(alloc),
            entries: Vec::new(alloc),
        }
    }

    // The end of points from `p` on that are known; None if `p` is not.
    fn known_until(&self, p: u64) -> Option<u64>
        requires { p < TOP }
        ensures { MatchOption result (beliefs.is_covered (lists_believe self.now) p ≡ false)
            (λ end. KnowsFrom (lists_believe self.now) p end) }
    {
        let (part, end) = part_from(&self.ranges, p);
        if reads_gap(part) {
            return Some(end);
        }
        if reads_key(part_of(entry_at(&self.entries, p))) {
            Some(p + 1)
        } else {
            None
        }
    }

    // Takes each holding over, one after another, as far as memory is there.
    fn adopt_each(&mut self, holdings: &[Holding]) -> Result<(), AllocError>
        requires { have_values holdings.now ≡ true }
        ensures ok { OnOk result
            (lists_believe self.new ≡ beliefs.adopt_all holdings.now (lists_believe self.old)) }
        ensures belief { OnOk result
            (laws.IsBelief (lists_believe self.old)
            → laws.IsBelief (lists_believe self.new)) }
    {
        for holding in holdings {
            self.adopt(*holding)?;
        }
        Ok(())
    }

    // A cache that believes the same.
    fn copied(&self) -> Result<PlainCache, AllocError>
        ensures { IfOk result (λ copy. copy ≡ self.now) }
    {
        Ok(PlainCache {
            alloc: self.alloc,
            ranges: Vec::from_slice(self.alloc, &self.ranges)?,
            entries: Vec::from_slice(self.alloc, &self.entries)?,
        })
    }

    // The least point from `lo` on below `hi` that is not known.
    fn first_unknown(&self, lo: u64, hi: u64) -> Option<u64>
        requires { hi ≤ TOP }
        ensures { MatchOption result
            (beliefs.CoversAll (lists_believe self.now) (record { lo = lo; hi = hi }))
            (beliefs.IsLeastUncovered (lists_believe self.now) (record { lo = lo; hi = hi })) }
    {
        let mut p = lo;
        while p < hi {
            match self.known_until(p) {
                None => return Some(p),
                Some(end) => p = end,
            }
        }
        None
    }
}

impl Belief for PlainCache {
    ghost believed = { lists_believe };

    fn range_at(&self, p: u64) -> RangePart {
        part_at(&self.ranges, p)
    }

    fn key_at(&self, p: u64) -> KeyPart {
        part_of(entry_at(&self.entries, p))
    }

    fn value_at(&self, p: u64) -> Option<Value> {
        value_of(entry_at(&self.entries, p))
    }

    fn adopt(&mut self, holding: Holding) -> Result<(), AllocError> {
        let (range, part) = holding.mode.parts();
        let value = holding.value;
        let ranges = pieces_with(self.alloc, &self.ranges, holding.span, range)?;
        let entries = entries_with(
            self.alloc,
            &self.entries,
            holding.span,
            Entry { part, value },
        )?;
        self.ranges = ranges;
        self.entries = entries;
        Ok(())
    }

    fn adopt_all(&mut self, holdings: &Holdings) -> Result<(), AllocError> {
        let mut next = self.copied()?;
        next.adopt_each(holdings.as_slice())?;
        *self = next;
        Ok(())
    }

    fn lower(&mut self, span: Span, keep: Mode) -> Result<(), AllocError> {
        let (range, part) = keep.parts();
        let ranges = pieces_lowered(self.alloc, &self.ranges, span, range)?;
        let entries = entries_lowered(self.alloc, &self.entries, span, part)?;
        self.ranges = ranges;
        self.entries = entries;
        Ok(())
    }

    fn scan(&self, alloc: Global, span: Span) -> Result<Scanned, AllocError> {
        let lo = span.lo();
        let hi = span.hi();
        match self.first_unknown(lo, hi) {
            Some(p) => Ok(Scanned::Miss(p)),
            None => {
                let rows = rows_of(alloc, &self.entries, lo, hi)?;
                Ok(Scanned::Rows(Rows::of(rows)))
            }
        }
    }

    fn pieces(&self, alloc: Global) -> Result<Pieces, AllocError> {
        let ranges = Vec::from_slice(alloc, &self.ranges)?;
        let keys = keys_of(alloc, &self.entries)?;
        Ok(Pieces {
            ranges: RangePieces::from(ranges),
            keys: KeyPieces::from(keys),
        })
    }
}
