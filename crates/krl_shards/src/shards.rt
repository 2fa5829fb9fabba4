//! Shards.
ghost use Rattle.std.specs.Prelude.{◌≡◌, ◌<◌, ◌≤◌, ◌+◌, ◌↔◌, length, IsOk, IfOk};
ghost use Rattle.krl_shards.specs.Partition.{max_shards, end_of};
ghost use Rattle.krl_shards.specs.Partition.{IsPartition, IsShardOf, IsOnlyShardOf};
ghost use Rattle.krl_shards.specs.Parts.{Follow, AreWithin, Ascend, AreAllOf};

use crate::part::Part;
use arrayvec::ArrayVec;
use krl_modes::{Point, Span, TOP};
use std::marker::Model;
use thiserror::Error;

/// How many shards there may be.
pub const MAX_SHARDS: u64 = 64;

/// The bounds make no partition: one is 0 or above END, one is not above the one before it, or
/// there are more than 63.
#[derive(Clone, Copy, Debug, PartialEq, Eq, Error)]
#[error("at most 63 bounds, each above the one before it, from 1 to END")]
pub struct BadShards;

/// The points from 0 to END, cut into shards: shard 0 begins at 0, and each other one at a bound.
/// Contracts see the list of the bounds.
#[derive(Drop)]
pub struct Shards {
    bounds: ArrayVec<u64, 63>,
}

impl Model for Shards {
    ghost use Rattle.std.specs.Prelude.{ℕ, List};
    ghost use Rattle.krl_shards.specs.Partition.{IsPartition};

    ghost Value = { List ℕ };

    ghost view = { λ s. s.bounds.items };

    ghost invariant = { λ s. IsPartition s.bounds.items };
}

impl Shards {
    /// The shards that begin at 0 and at each of these bounds.
    ///
    /// # Errors
    ///
    /// `BadShards` if there are more than 63 bounds, or one is not above the one before it, or
    /// is 0 or above END.
    pub fn new(bounds: &[u64]) -> Result<Shards, BadShards>
        ensures shards { IfOk result (λ s. s ≡ bounds.now) }
        ensures partition { IsOk result
            ↔ ((length bounds.now < max_shards) × IsPartition bounds.now) }
    {
        if bounds.len() > 63 {
            return Err(BadShards);
        }
        let mut kept = ArrayVec::new();
        let mut before = 0;
        for bound in bounds {
            let bound = *bound;
            if bound <= before {
                return Err(BadShards);
            }
            kept.push(bound);
            before = bound;
        }
        if before >= TOP {
            return Err(BadShards);
        }
        Ok(Shards { bounds: kept })
    }

    /// How many shards there are: one more than there are bounds.
    pub fn count(&self) -> u64
        ensures count { result ≡ length self.now + 1 }
        ensures few { result ≤ max_shards }
    {
        self.bounds.len() as u64 + 1
    }

    /// One past the last point of a shard.
    fn end(&self, shard: u64) -> u64
        ensures end { result ≡ end_of self.now shard }
    {
        let shard = shard as usize;
        if shard < self.bounds.len() {
            self.bounds[shard]
        } else {
            TOP
        }
    }

    /// The shard of a point.
    pub fn shard_of(&self, point: Point) -> u64
        ensures shard { IsShardOf self.now point result }
        ensures only { IsOnlyShardOf self.now point result }
    {
        let at = point.get();
        for shard in 0..self.bounds.len() {
            if at < self.bounds[shard] {
                return shard as u64;
            }
        }
        self.bounds.len() as u64
    }

    /// The parts of a span: what each shard has of it, in ascending order. Each part lies in its
    /// shard; no point is in two parts; and together they are exactly the span.
    pub fn parts(&self, span: Span) -> ArrayVec<Part, 64>
        ensures follow { Follow self.now span.hi span.lo span.hi result.items }
        ensures within { AreWithin self.now span result.items }
        ensures ascend { Ascend result.items }
        ensures all { AreAllOf span result.items }
    {
        // What holds of the bounds is known to the prover if their field is named.
        let _bounds = &self.bounds;
        let hi = span.hi();
        let mut parts = ArrayVec::new();
        let mut lo = span.lo();
        for shard in 0..self.count() {
            let end = self.end(shard).min(hi);
            if lo < end {
                parts.push(Part { shard, lo, hi: end });
                lo = end;
            }
        }
        parts
    }
}
