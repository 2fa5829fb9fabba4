//! Several holdings, taken over at once. If they are no one piece, room is made for all of them
//! first.
ghost use Rattle.std.specs.Prelude.{◌≡◌, ◌≤◌, ℕ, true, IfOk, OnOk, OnErr};
ghost use Rattle.std.specs.List.{AllByRecursion};
ghost use Rattle.krl_messages.specs.Ascending.{Ascend};
ghost use Rattle.krl_cache.specs.Beliefs as beliefs;
ghost use Rattle.krl_cache.specs.Maps.{at, part_at};
ghost use Rattle.krl_cache.specs.MapSteps.{HasEnds, KeepsParts, EndsAlike, BeginsAnew};
ghost use Rattle.krl_cache.specs.MapSteps.{AreStartsMerged};
ghost use Rattle.krl_cache.specs.Several.{CanUndoBoth, UndoesBoth, HasRoom, AreReady};
ghost use Rattle.krl_cache.specs.Several.{AreMergedBetween, is_end_of, parts_after, entries_after};

use crate::adopt::adopt;
use crate::entry::Entry;
use crate::joined::{adopt_joined, joined_to};
use crate::maps::{adopt_entry, fill, hold, mark_at, merge_at, part_before, undo};
use krl_messages::{Holding, Holdings};
use krl_modes::RangePart;
use std::alloc::AllocError;
use std::collections::BTreeMap;

// Has parts begin at both points, as they hold there: no answer changes. Answers whether none began
// at the first, and whether none did at the second.
fn mark(starts: &mut BTreeMap<u64, RangePart>, lo: u64, hi: u64) -> Result<(bool, bool), AllocError>
    ensures ok { OnOk result (HasEnds (at starts.old.entries) (at starts.new.entries) lo hi) }
    ensures undo { IfOk result (λ fresh. CanUndoBoth starts.old starts.new lo hi fresh.0 fresh.1) }
    ensures err { OnErr result (starts.new.entries ≡ starts.old.entries) }
{
    let high = mark_at(starts, hi)?;
    match mark_at(starts, lo) {
        Ok(low) => Ok((low, high)),
        Err(error) => {
            undo(starts, hi, high);
            Err(error)
        }
    }
}

// Takes both points out again if none began there.
fn unmark(starts: &mut BTreeMap<u64, RangePart>, lo: u64, hi: u64, low: bool, high: bool)
    ensures { UndoesBoth starts.old starts.new lo hi low high }
{
    undo(starts, lo, low);
    undo(starts, hi, high);
}

// Has parts begin at both ends of each span, as they hold there, and an entry stand where one will
// be read: no answer changes. If memory is refused, what was put is taken out again.
fn make_room(
    starts: &mut BTreeMap<u64, RangePart>,
    entries: &mut BTreeMap<u64, Entry>,
    holdings: &[Holding],
) -> Result<(), AllocError>
    ensures room { OnOk result (HasRoom holdings.now (at starts.old.entries)
        (at starts.new.entries) (at entries.old.entries) (at entries.new.entries)) }
    ensures spans { OnOk result (AllByRecursion (λ h. beliefs.is_span h.span ≡ true) holdings.now) }
    ensures starts_stay { OnErr result (starts.new.entries ≡ starts.old.entries) }
    ensures entries_stay { OnErr result (entries.new.entries ≡ entries.old.entries) }
{
    let Some((holding, rest)) = holdings.split_first() else {
        return Ok(());
    };
    let lo = holding.span.lo();
    let hi = holding.span.hi();
    let (_, part) = holding.mode.parts();
    let fresh = hold(entries, hi - 1, part)?;
    match mark(starts, lo, hi) {
        Ok((low, high)) => {
            if let Err(error) = make_room(starts, entries, rest) {
                unmark(starts, lo, hi, low, high);
                undo(entries, hi - 1, fresh);
                return Err(error);
            }
            Ok(())
        }
        Err(error) => {
            undo(entries, hi - 1, fresh);
            Err(error)
        }
    }
}

// Puts each holding's part on its span, and its entry at the span's last point in place of those of
// the span. Room is made for them.
fn fill_all(
    starts: &mut BTreeMap<u64, RangePart>,
    entries: &mut BTreeMap<u64, Entry>,
    holdings: &[Holding],
)
    requires ready { AreReady holdings.now (at starts.old.entries) (at entries.old.entries) }
    requires spans { AllByRecursion (λ h. beliefs.is_span h.span ≡ true) holdings.now }
    requires order { Ascend holdings.now }
    ensures parts { (p : ℕ) → part_at (at starts.new.entries) p
        ≡ parts_after holdings.now p (part_at (at starts.old.entries) p) }
    ensures starts { EndsAlike (at starts.old.entries) (at starts.new.entries) }
    ensures merged { AreMergedBetween holdings.now (at starts.old.entries)
        → AreMergedBetween holdings.now (at starts.new.entries) }
    ensures entries { (p : ℕ) → at entries.new.entries p
        ≡ entries_after holdings.now p (at entries.old.entries p) }
{
    for holding in holdings {
        let span = holding.span;
        let (range, part) = holding.mode.parts();
        let value = holding.value;
        fill(starts, span.lo(), span.hi(), range);
        adopt_entry(entries, span, Entry { part, value });
    }
}

// Takes each start at an end of a span out if the part that begins there held before.
fn merge_all(starts: &mut BTreeMap<u64, RangePart>, holdings: &[Holding])
    ensures kept { KeepsParts (at starts.old.entries) (at starts.new.entries) }
    ensures anew { (q : ℕ) → is_end_of holdings.now q ≡ true
        → BeginsAnew (at starts.new.entries) q }
{
    for holding in holdings {
        let lo = holding.span.lo();
        let hi = holding.span.hi();
        let before = part_before(starts, lo);
        merge_at(starts, lo, before);
        let last = part_before(starts, hi);
        merge_at(starts, hi, last);
    }
}

// Takes holdings over that are no one piece, or none of them.
fn adopt_apart(
    starts: &mut BTreeMap<u64, RangePart>,
    entries: &mut BTreeMap<u64, Entry>,
    holdings: &[Holding],
) -> Result<(), AllocError>
    requires { Ascend holdings.now }
    ensures parts { OnOk result ((p : ℕ) → part_at (at starts.new.entries) p
        ≡ parts_after holdings.now p (part_at (at starts.old.entries) p)) }
    ensures starts { OnOk result (EndsAlike (at starts.old.entries) (at starts.new.entries)) }
    ensures merged { OnOk result (AreStartsMerged (at starts.old.entries)
        → AreStartsMerged (at starts.new.entries)) }
    ensures entries { OnOk result ((p : ℕ) → at entries.new.entries p
        ≡ entries_after holdings.now p (at entries.old.entries p)) }
    ensures spans { OnOk result (AllByRecursion (λ h. beliefs.is_span h.span ≡ true) holdings.now) }
    ensures starts_stay { OnErr result (starts.new.entries ≡ starts.old.entries) }
    ensures entries_stay { OnErr result (entries.new.entries ≡ entries.old.entries) }
{
    make_room(starts, entries, holdings)?;
    fill_all(starts, entries, holdings);
    merge_all(starts, holdings);
    Ok(())
}

// Takes several holdings over, one after another, or none of them.
pub fn adopt_all(
    starts: &mut BTreeMap<u64, RangePart>,
    entries: &mut BTreeMap<u64, Entry>,
    holdings: &Holdings,
) -> Result<(), AllocError>
    ensures parts { OnOk result ((p : ℕ) → part_at (at starts.new.entries) p
        ≡ parts_after holdings.now p (part_at (at starts.old.entries) p)) }
    ensures starts { OnOk result (EndsAlike (at starts.old.entries) (at starts.new.entries)) }
    ensures merged { OnOk result (AreStartsMerged (at starts.old.entries)
        → AreStartsMerged (at starts.new.entries)) }
    ensures entries { OnOk result ((p : ℕ) → at entries.new.entries p
        ≡ entries_after holdings.now p (at entries.old.entries p)) }
    ensures spans { OnOk result (AllByRecursion (λ h. beliefs.is_span h.span ≡ true) holdings.now) }
    ensures starts_stay { OnErr result (starts.new.entries ≡ starts.old.entries) }
    ensures entries_stay { OnErr result (entries.new.entries ≡ entries.old.entries) }
{
    let holdings = holdings.as_slice();
    let Some((first, rest)) = holdings.split_first() else {
        return Ok(());
    };
    if rest.is_empty() {
        let holding = *first;
        return adopt(starts, entries, holding);
    }
    let lo = first.span.lo();
    let (part, _) = first.mode.parts();
    match joined_to(holdings, lo, part) {
        Some(hi) => adopt_joined(starts, entries, holdings, lo, hi, part),
        None => adopt_apart(starts, entries, holdings),
    }
}
