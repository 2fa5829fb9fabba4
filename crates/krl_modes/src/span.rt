//! Spans.
ghost use Rattle.std.specs.Prelude.{◌≡◌, ◌+◌, ◌<◌, ◌≤◌, ◌↔◌, IsOk, IfOk, IsTrue};
ghost use Rattle.krl_modes.specs.declared.point.TheConstants.{TOP};
ghost use Rattle.krl_modes.specs.Spans.{contains, within, meets, IsPointOf};
ghost use Rattle.krl_modes.specs.PointSets.{IsPartOf, ShareAPoint};

use crate::point::{Point, TOP};
use std::marker::Model;
use thiserror::Error;

/// The two numbers bound no span: the first is not below the second, or the second is above TOP.
#[derive(Clone, Copy, Debug, PartialEq, Eq, Error)]
#[error("a span begins below its end, which is at most TOP")]
pub struct BadSpan;

/// The points from `lo` on that lie below `hi`: at least one, and none above END.
#[derive(Clone, Copy, Debug, PartialEq, Eq)]
pub struct Span {
    lo: u64,
    hi: u64,
}

impl Model for Span {
    ghost use Rattle.std.specs.Prelude.{◌<◌, ◌≤◌};
    ghost use Rattle.krl_modes.specs.Spans.{Bounds};
    ghost use Rattle.krl_modes.specs.declared.point.TheConstants.{TOP};

    ghost Value = { Bounds };

    ghost view = { λ s. record { lo = s.lo; hi = s.hi } };

    ghost invariant = { λ s. (s.lo < s.hi) × (s.hi ≤ TOP) };

    ghost inverse = { λ b. record { lo = b.lo; hi = b.hi } };
}

impl Span {
    /// The span of these ends.
    ///
    /// # Errors
    ///
    /// `BadSpan` if `lo` is not below `hi`, or `hi` is above TOP.
    pub fn new(lo: u64, hi: u64) -> Result<Span, BadSpan>
        ensures span { IfOk result (λ s. s ≡ record { lo = lo; hi = hi }) }
        ensures bounds { IsOk result ↔ ((lo < hi) × (hi ≤ TOP)) }
    {
        if lo < hi && hi <= TOP {
            Ok(Span { lo, hi })
        } else {
            Err(BadSpan)
        }
    }

    /// The first point of the span.
    pub fn lo(self) -> u64
        ensures end { result ≡ self.lo }
        ensures bounds { (self.lo < self.hi) × (self.hi ≤ TOP) }
    {
        self.lo
    }

    /// One past the last point of the span.
    pub fn hi(self) -> u64
        ensures end { result ≡ self.hi }
        ensures bounds { (self.lo < self.hi) × (self.hi ≤ TOP) }
    {
        self.hi
    }

    /// The last point of the span, from 0 to END.
    pub fn last(self) -> u64
        ensures last { result + 1 ≡ self.hi }
        ensures bounds { (self.lo ≤ result) × (result < TOP) }
    {
        self.hi - 1
    }

    /// Whether the point lies in the span.
    pub fn contains(self, p: Point) -> bool
        ensures contains { result ≡ contains self p }
        ensures point { IsTrue result ↔ IsPointOf self p }
    {
        (self.lo..self.hi).contains(&p.get())
    }

    /// Whether every point of the span lies in the other.
    pub fn within(self, other: Span) -> bool
        ensures within { result ≡ within self other }
        ensures points { IsTrue result ↔ IsPartOf self other }
    {
        other.lo <= self.lo && self.hi <= other.hi
    }

    /// Whether some point lies in both spans.
    pub fn meets(self, other: Span) -> bool
        ensures meets { result ≡ meets self other }
        ensures points { IsTrue result ↔ ShareAPoint self other }
    {
        other.lo < self.hi && self.lo < other.hi
    }
}
