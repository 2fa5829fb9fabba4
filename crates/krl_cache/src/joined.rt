//! Several holdings side by side whose range parts agree: one piece of the range parts.
ghost use Rattle.std.specs.Prelude.{◌≡◌, ◌<◌, ℕ, MatchOption, OnOk, OnErr, true, IfOk, None};
ghost use Rattle.std.specs.Prelude.{nat_eq, if◌then◌else◌};
ghost use Rattle.std.specs.List.{AllByRecursion};
ghost use Rattle.krl_messages.specs.Ascending.{Ascend};
ghost use Rattle.krl_cache.specs.Beliefs as beliefs;
ghost use Rattle.krl_cache.specs.Entries.{entry_of};
ghost use Rattle.krl_cache.specs.Maps.{at, part_at};
ghost use Rattle.krl_cache.specs.MapSteps.{EndsAlike, AreStartsMerged, IsFree, CanUndo};
ghost use Rattle.krl_cache.specs.Several.{parts_after, entries_after};
ghost use Rattle.krl_cache.specs.Joined.{AreJoined, AreHeld, HoldsAll, NotJoined};

use crate::adopt::{close, open, plan_of, shut};
use crate::entry::Entry;
use crate::maps::{adopt_entry, free_to, hold, is_same, put_new, undo};
use crate::parts::reads_key;
use krl_messages::Holding;
use krl_modes::RangePart;
use std::alloc::AllocError;
use std::collections::BTreeMap;

// Where holdings end that follow one another from the point on, each with this range part. None
// if they don't.
pub fn joined_to(holdings: &[Holding], lo: u64, part: RangePart) -> Option<u64>
    ensures { MatchOption result (NotJoined holdings.now lo part)
        (λ hi. AreJoined holdings.now lo hi part) }
{
    let Some((holding, rest)) = holdings.split_first() else {
        return Some(lo);
    };
    let (range, _) = holding.mode.parts();
    if holding.span.lo() != lo || !is_same(range, part) {
        return None;
    }
    joined_to(rest, holding.span.hi(), part)
}

// Has an entry stand at each slot where one will be read: no answer changes. If memory is
// refused, what was put is taken out again.
fn hold_all(entries: &mut BTreeMap<u64, Entry>, holdings: &[Holding]) -> Result<(), AllocError>
    ensures held { OnOk result (HoldsAll holdings.now (at entries.old.entries)
        (at entries.new.entries)) }
    ensures err { OnErr result (entries.new.entries ≡ entries.old.entries) }
{
    let Some((holding, rest)) = holdings.split_first() else {
        return Ok(());
    };
    let last = holding.span.hi() - 1;
    let (_, part) = holding.mode.parts();
    let fresh = hold(entries, last, part)?;
    if let Err(error) = hold_all(entries, rest) {
        undo(entries, last, fresh);
        return Err(error);
    }
    Ok(())
}

// Puts each holding's entry at its span's last point in place of those of the span. An entry stands
// at each slot where one is read.
fn set_all(entries: &mut BTreeMap<u64, Entry>, holdings: &[Holding])
    requires held { AreHeld holdings.now (at entries.old.entries) }
    requires spans { AllByRecursion (λ h. beliefs.is_span h.span ≡ true) holdings.now }
    requires order { Ascend holdings.now }
    ensures { (p : ℕ) → at entries.new.entries p
        ≡ entries_after holdings.now p (at entries.old.entries p) }
{
    for holding in holdings {
        let (_, part) = holding.mode.parts();
        let value = holding.value;
        adopt_entry(entries, holding.span, Entry { part, value });
    }
}

// Puts an entry at a point where none stands, if it is read. Answers whether it was put.
fn put_own(entries: &mut BTreeMap<u64, Entry>, point: u64, own: Entry) -> Result<bool, AllocError>
    requires { at entries.old.entries point ≡ None }
    ensures put { OnOk result ((q : ℕ) → at entries.new.entries q
        ≡ (if nat_eq q point then entry_of own.part own.value else at entries.old.entries q)) }
    ensures undo { IfOk result (CanUndo entries.old entries.new point) }
    ensures err { OnErr result (entries.new.entries ≡ entries.old.entries) }
{
    if !reads_key(own.part) {
        return Ok(false);
    }
    put_new(entries, point, own)?;
    Ok(true)
}

// Puts each holding's entry at its span's last point. No entry stands in the spans. If memory is
// refused, what was put is taken out again.
fn put_all(
    entries: &mut BTreeMap<u64, Entry>,
    holdings: &[Holding],
    lo: u64,
    hi: u64,
    part: RangePart,
) -> Result<(), AllocError>
    requires joined { AreJoined holdings.now lo hi part }
    requires free { IsFree (at entries.old.entries) lo hi }
    ensures ok { OnOk result ((p : ℕ) → at entries.new.entries p
        ≡ entries_after holdings.now p (at entries.old.entries p)) }
    ensures err { OnErr result (entries.new.entries ≡ entries.old.entries) }
{
    let Some((holding, rest)) = holdings.split_first() else {
        return Ok(());
    };
    let next = holding.span.hi();
    let (_, read) = holding.mode.parts();
    let value = holding.value;
    let fresh = put_own(entries, next - 1, Entry { part: read, value })?;
    if let Err(error) = put_all(entries, rest, next, hi, part) {
        undo(entries, next - 1, fresh);
        return Err(error);
    }
    Ok(())
}

// Puts each holding's entry at its span's last point in place of those of the span, or none of
// them. One search finds whether an entry stands in the spans: if none does, each is put by one
// search more.
fn put_entries(
    entries: &mut BTreeMap<u64, Entry>,
    holdings: &[Holding],
    lo: u64,
    hi: u64,
    part: RangePart,
) -> Result<(), AllocError>
    requires joined { AreJoined holdings.now lo hi part }
    requires some { lo < hi }
    requires order { Ascend holdings.now }
    ensures ok { OnOk result ((p : ℕ) → at entries.new.entries p
        ≡ entries_after holdings.now p (at entries.old.entries p)) }
    ensures err { OnErr result (entries.new.entries ≡ entries.old.entries) }
{
    if free_to(entries, lo, hi) == hi {
        return put_all(entries, holdings, lo, hi, part);
    }
    hold_all(entries, holdings)?;
    set_all(entries, holdings);
    Ok(())
}

// Takes such holdings over, or none of them: the part once on all their spans, and each entry.
pub fn adopt_joined(
    starts: &mut BTreeMap<u64, RangePart>,
    entries: &mut BTreeMap<u64, Entry>,
    holdings: &[Holding],
    lo: u64,
    hi: u64,
    part: RangePart,
) -> Result<(), AllocError>
    requires joined { AreJoined holdings.now lo hi part }
    requires some { lo < hi }
    requires order { Ascend holdings.now }
    ensures parts { OnOk result ((p : ℕ) → part_at (at starts.new.entries) p
        ≡ parts_after holdings.now p (part_at (at starts.old.entries) p)) }
    ensures starts { OnOk result (EndsAlike (at starts.old.entries) (at starts.new.entries)) }
    ensures merged { OnOk result (AreStartsMerged (at starts.old.entries)
        → AreStartsMerged (at starts.new.entries)) }
    ensures entries { OnOk result ((p : ℕ) → at entries.new.entries p
        ≡ entries_after holdings.now p (at entries.old.entries p)) }
    ensures spans { OnOk result (AllByRecursion (λ h. beliefs.is_span h.span ≡ true) holdings.now) }
    ensures starts_stay { OnErr result (starts.new.entries ≡ starts.old.entries) }
    ensures entries_stay { OnErr result (entries.new.entries ≡ entries.old.entries) }
{
    let plan = plan_of(starts, lo, hi, part);
    let (low, high) = open(starts, lo, hi, plan)?;
    if let Err(error) = put_entries(entries, holdings, lo, hi, part) {
        shut(starts, lo, hi, low, high);
        return Err(error);
    }
    close(starts, lo, hi, plan);
    Ok(())
}
