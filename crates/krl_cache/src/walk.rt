//! A walk over a span, from its first point on: which of its points are known.
ghost use Rattle.std.specs.Prelude.{◌≡◌, ◌≤◌, ◌<◌, ◌&&◌, ◌||◌, ℕ, true, nat_eq};
ghost use Rattle.std.specs.Prelude.{Option, MatchOption};
ghost use Rattle.krl_modes.specs.Parts.{reads_gap, reads_key};
ghost use Rattle.krl_cache.specs.Beliefs as beliefs;
ghost use Rattle.krl_cache.specs.declared.entry.Entry.{Entry};
ghost use Rattle.krl_cache.specs.Lists.{belief_by};
ghost use Rattle.krl_cache.specs.Maps.{Maps, maps_believe, at, part_at};
ghost use Rattle.krl_cache.specs.MapSteps.{AreNext};
ghost use Rattle.krl_cache.specs.Walks.{list_of, left_of, TakesBelow, Walks};

use crate::entry::Entry;
use crate::maps::part_at;
use crate::parts::{reads_gap, reads_key};
use krl_modes::{KeyPart, RangePart};
use std::collections::BTreeMap;
use std::collections::btree_map::Range;

/// The entries that a walk has not come to, in order: the first of them, and those after it.
#[derive(Drop)]
pub struct Left<'a> {
    first: Option<(u64, Entry)>,
    rest: Range<'a, u64, Entry>,
}

// Takes the first entry.
fn take_first(rest: &mut Range<'_, u64, Entry>) -> Option<(u64, Entry)>
    ensures { rest.old ≡ list_of result rest.new }
{
    match rest.next() {
        Some((point, entry)) => Some((*point, *entry)),
        None => None,
    }
}

// The entries from `lo` on below `hi`.
fn left_between(entries: &BTreeMap<u64, Entry>, lo: u64, hi: u64) -> Left<'_>
    requires { lo ≤ hi }
    ensures { AreNext (at entries.now.entries) lo hi (left_of result) }
{
    let mut rest = entries.range(lo..hi);
    let first = take_first(&mut rest);
    Left { first, rest }
}

// Takes the first entry, if it stands below `hi`.
fn take_below(left: &mut Left<'_>, hi: u64) -> Option<(u64, Entry)>
    ensures { TakesBelow hi (left_of left.old) result (left_of left.new) }
{
    match left.first {
        Some((point, entry)) if point < hi => {
            left.first = take_first(&mut left.rest);
            Some((point, entry))
        }
        _ => None,
    }
}

// Whether each point from `p` to an entry is known, if this part holds and no entry stands
// between.
fn knows_to(part: RangePart, p: u64, point: u64, key: KeyPart) -> bool
    ensures { result ≡ (reads_gap part || (nat_eq p point && reads_key key)) }
{
    reads_gap(part) || (p == point && reads_key(key))
}

// The least point from `lo` on below `hi` that is not known, if this part holds. The entries
// below `hi` are taken.
fn first_gap(left: &mut Left<'_>, part: RangePart, lo: u64, hi: u64) -> Option<u64>
    requires { lo ≤ hi }
    ensures { Walks part lo hi (left_of left.old) result (left_of left.new) }
{
    let mut p = lo;
    while let Some((point, entry)) = take_below(left, hi) {
        if !knows_to(part, p, point, entry.part) {
            return Some(p);
        }
        p = point + 1;
    }
    if reads_gap(part) {
        return None;
    }
    if p < hi { Some(p) } else { None }
}

// Whether each part that holds from `lo` on below `hi` reads the gap. Each point is known then,
// whatever entries there are.
fn reads_gaps(starts: &BTreeMap<u64, RangePart>, lo: u64, hi: u64) -> bool
    requires { lo < hi }
    ensures { result ≡ true → (g : ℕ → Option Entry)
        → beliefs.CoversAll (belief_by (part_at (at starts.now.entries)) g)
        (record { lo = lo; hi = hi }) }
{
    let mut part = part_at(starts, lo);
    for (_, next) in starts.range(lo + 1..hi) {
        if !reads_gap(part) {
            return false;
        }
        part = *next;
    }
    reads_gap(part)
}

// The least point from `lo` on below `hi` that is not known. The maps are searched only where the
// span begins. If each part reads the gap, the parts are walked over once, and no entry is;
// otherwise the entries once, and the parts twice.
pub fn first_unknown(
    starts: &BTreeMap<u64, RangePart>,
    entries: &BTreeMap<u64, Entry>,
    lo: u64,
    hi: u64,
) -> Option<u64>
    requires { lo < hi }
    ensures { MatchOption result
        (beliefs.CoversAll (maps_believe
        (record { starts = starts.now.entries; entries = entries.now.entries }))
        (record { lo = lo; hi = hi }))
        (beliefs.IsLeastUncovered
        (maps_believe (record { starts = starts.now.entries; entries = entries.now.entries }))
        (record { lo = lo; hi = hi })) }
{
    if reads_gaps(starts, lo, hi) {
        return None;
    }
    let mut left = left_between(entries, lo, hi);
    let mut p = lo;
    let mut part = part_at(starts, lo);
    for (start, next) in starts.range(lo + 1..hi) {
        if let Some(gap) = first_gap(&mut left, part, p, *start) {
            return Some(gap);
        }
        p = *start;
        part = *next;
    }
    first_gap(&mut left, part, p, hi)
}
