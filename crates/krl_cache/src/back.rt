//! A walk back over the starts, from a point on.
ghost use Rattle.std.specs.Prelude.{◌≡◌, ◌+◌};
ghost use Rattle.krl_cache.specs.Maps.{at};
ghost use Rattle.krl_cache.specs.Backs.{list_to, back_of, part_last, AreBefore, TakesFrom, Skips};

use krl_modes::RangePart;
use std::collections::BTreeMap;
use std::collections::btree_map::Range;

/// The starts that a walk back has not come to: the last of them, and those before it.
#[derive(Drop)]
pub struct Back<'a> {
    last: Option<(u64, RangePart)>,
    rest: Range<'a, u64, RangePart>,
}

// Takes the last start.
fn take_last(rest: &mut Range<'_, u64, RangePart>) -> Option<(u64, RangePart)>
    ensures { rest.old ≡ list_to rest.new result }
{
    match rest.next_back() {
        Some((point, part)) => Some((*point, *part)),
        None => None,
    }
}

// The starts at or before the point.
pub fn back_from(starts: &BTreeMap<u64, RangePart>, p: u64) -> Back<'_>
    ensures { AreBefore (at starts.now.entries) (p + 1) (back_of result) }
{
    let mut rest = starts.range(..=p);
    let last = take_last(&mut rest);
    Back { last, rest }
}

// Takes the last start, if it is at the point or after it.
pub fn take_from(back: &mut Back<'_>, p: u64) -> Option<(u64, RangePart)>
    ensures { TakesFrom p back.old result back.new }
{
    match back.last {
        Some((point, part)) if point >= p => {
            back.last = take_last(&mut back.rest);
            Some((point, part))
        }
        _ => None,
    }
}

// Takes the starts at the point and after it, and answers whether there was any.
pub fn skip_to(back: &mut Back<'_>, p: u64) -> bool
    ensures { Skips p back.old result back.new }
{
    let mut any = false;
    while let Some(_) = take_from(back, p) {
        any = true;
    }
    any
}

// The part of the last start, or N if none is left.
pub fn part_last(back: &Back<'_>) -> RangePart
    ensures { result ≡ part_last back.now.last }
{
    match back.last {
        Some((_, part)) => part,
        None => RangePart::N,
    }
}
