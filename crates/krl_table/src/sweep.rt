//! A sweep over a report, from slot to slot.
ghost use Rattle.std.specs.Prelude.{◌≡◌, ◌≤◌, ℕ, None, IfSome, IfNone};
ghost use Rattle.std.specs.FinMap as map;
ghost use Rattle.krl_modes.specs.declared.point.TheConstants.{END, TOP};
ghost use Rattle.krl_table.specs.Reports.{rebuilt};
ghost use Rattle.krl_table.specs.ReportSweep.{BeginsSpan, IsNextReported, NothingFrom, SameRanges};
ghost use Rattle.krl_table.specs.ReportSweep.{SameKeys};

use crate::pieces;
use krl_durable::Durable;
use krl_messages::{KeyPiece, Pieces, RangePiece};
use krl_modes::{END, Mode, Span, TOP};
use std::marker::Model;

/// A slot of which something is reported.
#[derive(Clone, Copy)]
pub(crate) struct ReportedSlot {
    pub(crate) slot: u64,
    /// The least mode at or above what is reported of it.
    pub(crate) mode: Mode,
}

/// What is left of a report after a point, seen as pieces. Of lists that ascend it looks at a
/// piece once for each slot that the piece meets, and once to pass it; of others at each piece for
/// each slot of which something is reported.
#[derive(Drop)]
pub(crate) struct Sweep<'a> {
    ranges: &'a [RangePiece],
    keys: &'a [KeyPiece],
    ranges_rise: bool,
    keys_rise: bool,
}

impl<'a> Model for Sweep<'a> {
    ghost use Rattle.std.specs.Prelude.{◌≡◌, true};
    ghost use Rattle.krl_messages.specs.declared.pieces.Pieces.{Pieces};
    ghost use Rattle.krl_messages.specs.contracts.pieces.Pieces as pieces;
    ghost use Rattle.krl_table.specs.ReportSweep.{RangesRise, KeysRise};

    ghost Value = { Pieces };

    ghost coded = { pieces.the_row.coded };

    ghost view = { λ s. record { ranges = s.ranges.now; keys = s.keys.now } };

    ghost invariant = { λ s. (s.ranges_rise ≡ true → RangesRise 0 s.ranges.now)
        × (s.keys_rise ≡ true → KeysRise 0 s.keys.now) };
}

impl<'a> Sweep<'a> {
    /// The whole report is left.
    pub(crate) fn over(pieces: &'a Pieces) -> Sweep<'a>
        ensures { result ≡ pieces.now }
    {
        let ranges = pieces.ranges.as_slice();
        let keys = pieces.keys.as_slice();
        Sweep {
            ranges,
            keys,
            ranges_rise: pieces::ranges_rise(ranges),
            keys_rise: pieces::keys_rise(keys),
        }
    }

    /// Passes over the first pieces, as far as they end at or below the point.
    pub(crate) fn pass(&mut self, at: u64)
        ensures ranges { SameRanges at self.new.ranges self.old.ranges }
        ensures keys { SameKeys at self.new.keys self.old.keys }
    {
        self.ranges = pieces::ranges_from(self.ranges, at);
        self.keys = pieces::keys_from(self.keys, at);
    }

    /// The next slot from `at` on, which is 0 or comes after a slot, of which something is
    /// reported. It takes one search.
    pub(crate) fn next(&self, durable: &Durable, at: u64) -> Option<ReportedSlot>
        requires near { (n : ℕ) → END ≤ n → map.get durable.now.index n ≡ None }
        requires begins { BeginsSpan durable.now.index at }
        requires end { at ≤ TOP }
        ensures some { IfSome result (λ r. IsNextReported durable.now.index self.now at r.slot) }
        ensures mode { IfSome result (λ r. r.mode ≡ rebuilt durable.now.index self.now r.slot) }
        ensures none { IfNone result (NothingFrom durable.now.index self.now at) }
    {
        let next = pieces::next_range(self.ranges, self.ranges_rise, at, TOP);
        let next = pieces::next_key(self.keys, self.keys_rise, at, next);
        if next > END {
            return None;
        }
        let found = durable.find(next);
        let span = Span::new(found.low, found.point + 1).unwrap();
        let range = pieces::joined_range_over(self.ranges, self.ranges_rise, span);
        let key = pieces::greatest_key_at(self.keys, self.keys_rise, found.point);
        Some(ReportedSlot {
            slot: found.point,
            mode: Mode::at_or_above(range, key),
        })
    }
}
