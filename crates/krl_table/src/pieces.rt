//! What lists of pieces state of a slot, and where the next of them begins. Of a list that ascends,
//! only those pieces are read that can state something.
ghost use Rattle.std.specs.Prelude.{◌≡◌, ◌<◌, ◌≤◌, ◌⊎◌, ◌↔◌, ℕ, true, nat_eq, IsTrue};
ghost use Rattle.std.specs.Prelude.{if◌then◌else◌};
ghost use Rattle.krl_modes.specs.declared.part.RangePart.TheVariants as range;
ghost use Rattle.krl_modes.specs.declared.part.KeyPart.TheVariants as key;
ghost use Rattle.krl_modes.specs.Spans.{meets};
ghost use Rattle.krl_table.specs.Reports.{joined_range_over, greatest_key_at};
ghost use Rattle.krl_table.specs.ReportSweep.{RangesOff, KeysOff, RangesRise, KeysRise, SameRanges};
ghost use Rattle.krl_table.specs.ReportSweep.{SameKeys};

use krl_messages::{KeyPiece, RangePiece};
use krl_modes::{KeyPart, RangePart, Span};

/// Whether each span begins at or after the beginning of the one before.
pub(crate) fn ranges_rise(pieces: &[RangePiece]) -> bool
    ensures { result ≡ true → RangesRise 0 pieces.now }
{
    let mut low: u64 = 0;
    for piece in pieces {
        let next = piece.span.lo();
        if next < low {
            return false;
        }
        low = next;
    }
    true
}

/// Whether each point lies at or after the one before.
pub(crate) fn keys_rise(pieces: &[KeyPiece]) -> bool
    ensures { IsTrue result ↔ KeysRise 0 pieces.now }
{
    let mut low: u64 = 0;
    for piece in pieces {
        let next = piece.point;
        if next < low {
            return false;
        }
        low = next;
    }
    true
}

/// The pieces without the first of them, as far as they end at or below the point.
pub(crate) fn ranges_from(pieces: &[RangePiece], at: u64) -> &[RangePiece]
    ensures same { SameRanges at result.now pieces.now }
    ensures rises { RangesRise 0 pieces.now → RangesRise 0 result.now }
{
    let mut left = pieces;
    while let Some((first, others)) = left.split_first() {
        if first.span.hi() > at {
            return left;
        }
        left = others;
    }
    left
}

/// The pieces without the first of them, as far as they lie below the point.
pub(crate) fn keys_from(pieces: &[KeyPiece], at: u64) -> &[KeyPiece]
    ensures same { SameKeys at result.now pieces.now }
    ensures rises { KeysRise 0 pieces.now → KeysRise 0 result.now }
{
    let mut left = pieces;
    while let Some((first, others)) = left.split_first() {
        if first.point >= at {
            return left;
        }
        left = others;
    }
    left
}

/// The least range part above those of the pieces that meet the span.
pub(crate) fn joined_range_over(pieces: &[RangePiece], rises: bool, span: Span) -> RangePart
    requires { rises ≡ true → RangesRise 0 pieces.now }
    ensures { result ≡ joined_range_over pieces.now span }
{
    let mut part = RangePart::N;
    for piece in pieces {
        if rises && piece.span.lo() >= span.hi() {
            return part;
        }
        part = part.join(range_on(piece, span));
    }
    part
}

/// The piece's part, if it meets the span.
fn range_on(piece: &RangePiece, span: Span) -> RangePart
    ensures { result ≡ (if meets piece.now.span span then piece.now.part else range.N) }
{
    if piece.span.meets(span) {
        piece.part
    } else {
        RangePart::N
    }
}

/// The greatest key part of the pieces at the point.
pub(crate) fn greatest_key_at(pieces: &[KeyPiece], rises: bool, point: u64) -> KeyPart
    requires { rises ≡ true → KeysRise 0 pieces.now }
    ensures { result ≡ greatest_key_at pieces.now point }
{
    let mut part = KeyPart::N;
    for piece in pieces {
        if rises && piece.point > point {
            return part;
        }
        part = part.join(key_at(piece, point));
    }
    part
}

/// The piece's part, if it is one at the point.
fn key_at(piece: &KeyPiece, point: u64) -> KeyPart
    ensures { result ≡ (if nat_eq piece.now.point point then piece.now.part else key.N) }
{
    if piece.point == point {
        piece.part
    } else {
        KeyPart::N
    }
}

/// The least point from `at` on in the span, or `most` if there is none.
fn from_span(span: Span, at: u64, most: u64) -> u64
    requires { at ≤ most }
    ensures above { at ≤ result }
    ensures off { (r : ℕ) → r ≤ result → (span.hi ≤ at) ⊎ ((r ≤ span.lo) ⊎ (r ≤ at)) }
{
    if at < span.hi() {
        span.lo().max(at)
    } else {
        most
    }
}

/// The least point from `at` on in one of the spans, or `most` if there is none.
pub(crate) fn next_range(pieces: &[RangePiece], rises: bool, at: u64, most: u64) -> u64
    requires rises { rises ≡ true → RangesRise 0 pieces.now }
    requires most { at ≤ most }
    ensures above { at ≤ result }
    ensures most { result ≤ most }
    ensures off { RangesOff pieces.now at result }
{
    let mut next = most;
    for piece in pieces {
        if rises && piece.span.lo() >= next {
            return next;
        }
        next = next.min(from_span(piece.span, at, most));
    }
    next
}

/// The point, if it is not below `at`, or `most`.
fn from_point(point: u64, at: u64, most: u64) -> u64
    requires { at ≤ most }
    ensures above { at ≤ result }
    ensures off { (r : ℕ) → r ≤ result → (point < at) ⊎ (r ≤ point) }
{
    if at <= point { point } else { most }
}

/// The least of the points from `at` on, or `most` if there is none.
pub(crate) fn next_key(pieces: &[KeyPiece], rises: bool, at: u64, most: u64) -> u64
    requires rises { rises ≡ true → KeysRise 0 pieces.now }
    requires most { at ≤ most }
    ensures above { at ≤ result }
    ensures most { result ≤ most }
    ensures off { KeysOff pieces.now at result }
{
    let mut next = most;
    for piece in pieces {
        if rises && piece.point >= next {
            return next;
        }
        next = next.min(from_point(piece.point, at, most));
    }
    next
}
