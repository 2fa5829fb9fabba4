//! Taking a holding over: one look at what stands around its span, and then what differs.
ghost use Rattle.std.specs.Prelude.{◌≡◌, ◌≤◌, ◌<◌, ℕ, suc, true, false, nat_eq, IfOk, OnOk, OnErr};
ghost use Rattle.std.specs.Prelude.{if◌then◌else◌};
ghost use Rattle.krl_modes.specs.declared.point.TheConstants.{TOP};
ghost use Rattle.krl_modes.specs.Modes.{range_of};
ghost use Rattle.krl_modes.specs.Spans.{contains};
ghost use Rattle.krl_cache.specs.Beliefs as beliefs;
ghost use Rattle.krl_cache.specs.Entries.{lies_in, entry_of, own_entry};
ghost use Rattle.krl_cache.specs.Maps.{at, part_at};
ghost use Rattle.krl_cache.specs.MapSteps.{IsFree, IsChanged, CanUndo, EndsAlike, AreStartsMerged};
ghost use Rattle.krl_cache.specs.MapSteps.{gone};
ghost use Rattle.krl_cache.specs.Plans.{IsBegun, IsPlan, part_taken, open_at, opens, closes};
ghost use Rattle.krl_cache.specs.Plans.{CanShut, Shuts};

use crate::back::{back_from, part_last, skip_to, take_from};
use crate::entry::Entry;
use crate::maps::{clear, free_to, is_same, put, set, take_out, undo};
use crate::parts::reads_key;
use krl_messages::Holding;
use krl_modes::RangePart;
use std::alloc::AllocError;
use std::collections::BTreeMap;

/// What begins at a point: what did, and what is to begin from now on.
#[derive(Clone, Copy)]
pub struct StartChange {
    was: Option<RangePart>,
    becomes: Option<RangePart>,
}

/// What is to become of the starts when a part is put on a span.
#[derive(Clone, Copy)]
pub struct Plan {
    // at its first point
    low: StartChange,
    // at its end
    high: StartChange,
    // whether any stands between
    within: bool,
}

// What begins where this part holds, and that one holds before.
fn begun(before: RangePart, part: RangePart) -> Option<RangePart>
    ensures { IsBegun before part result }
{
    if is_same(part, before) {
        None
    } else {
        Some(part)
    }
}

// What is to change when a part is put on a span. The starts are searched once.
pub fn plan_of(starts: &BTreeMap<u64, RangePart>, lo: u64, hi: u64, part: RangePart) -> Plan
    requires { lo < hi }
    ensures { IsPlan (at starts.now.entries) lo hi part result }
{
    let mut back = back_from(starts, hi);
    let after = part_last(&back);
    let high = take_from(&mut back, hi);
    let within = skip_to(&mut back, lo + 1);
    let low = take_from(&mut back, lo);
    let before = part_last(&back);
    Plan {
        low: StartChange {
            was: part_taken(low),
            becomes: begun(before, part),
        },
        high: StartChange {
            was: part_taken(high),
            becomes: begun(part, after),
        },
        within,
    }
}

// The part of a start that was taken, if one was.
fn part_taken(start: Option<(u64, RangePart)>) -> Option<RangePart>
    ensures { result ≡ part_taken start }
{
    match start {
        Some((_, part)) => Some(part),
        None => None,
    }
}

// Puts in what is to begin at the point, if nothing did. Answers whether it was put in.
fn add(
    starts: &mut BTreeMap<u64, RangePart>,
    p: u64,
    change: StartChange,
) -> Result<bool, AllocError>
    requires { at starts.old.entries p ≡ change.was }
    ensures undo { IfOk result (CanUndo starts.old starts.new p) }
    ensures added { OnOk result ((q : ℕ) → at starts.new.entries q
        ≡ (if nat_eq q p then open_at change else at starts.old.entries q)) }
    ensures err { OnErr result (starts.new.entries ≡ starts.old.entries) }
{
    match change.was {
        Some(_) => Ok(false),
        None => match change.becomes {
            Some(part) => {
                starts.insert(p, part)?;
                Ok(true)
            }
            None => Ok(false),
        },
    }
}

// Puts in what is new at both ends of a span. Answers whether it put anything in at each.
pub fn open(
    starts: &mut BTreeMap<u64, RangePart>,
    lo: u64,
    hi: u64,
    plan: Plan,
) -> Result<(bool, bool), AllocError>
    requires span { lo < hi }
    requires low { at starts.old.entries lo ≡ plan.low.was }
    requires high { at starts.old.entries hi ≡ plan.high.was }
    ensures opened { OnOk result ((q : ℕ) → at starts.new.entries q
        ≡ opens (at starts.old.entries) lo hi plan q) }
    ensures undo { IfOk result (λ fresh. CanShut starts.old starts.new lo hi fresh.0 fresh.1) }
    ensures err { OnErr result (starts.new.entries ≡ starts.old.entries) }
{
    let low = add(starts, lo, plan.low)?;
    match add(starts, hi, plan.high) {
        Ok(high) => Ok((low, high)),
        Err(error) => {
            undo(starts, lo, low);
            Err(error)
        }
    }
}

// Takes out again what was put in.
pub fn shut(starts: &mut BTreeMap<u64, RangePart>, lo: u64, hi: u64, low: bool, high: bool)
    ensures { Shuts starts.old starts.new lo hi low high }
{
    undo(starts, hi, high);
    undo(starts, lo, low);
}

// Has what is to begin at the point begin there, if what is new was put in.
fn settle(starts: &mut BTreeMap<u64, RangePart>, p: u64, change: StartChange)
    requires { at starts.old.entries p ≡ open_at change }
    ensures { (q : ℕ) → at starts.new.entries q
        ≡ (if nat_eq q p then change.becomes else at starts.old.entries q) }
{
    match change.was {
        None => {}
        Some(held) => match change.becomes {
            None => take_out(starts, p),
            Some(part) => replace(starts, p, held, part),
        },
    }
}

// Has another part begin at the point, if it differs from the one that does.
fn replace(starts: &mut BTreeMap<u64, RangePart>, p: u64, held: RangePart, part: RangePart)
    requires { at starts.old.entries p ≡ Some held }
    ensures { (q : ℕ) → at starts.new.entries q
        ≡ (if nat_eq q p then Some part else at starts.old.entries q) }
{
    if !is_same(held, part) {
        set(starts, p, part);
    }
}

// Takes out what stands from `lo` on below `hi`, if anything does.
fn clear_any<V: Copy + Drop>(map: &mut BTreeMap<u64, V>, lo: u64, hi: u64, any: bool)
    requires span { lo ≤ hi }
    requires free { any ≡ false → IsFree (at map.old.entries) lo hi }
    ensures { IsChanged gone (at map.old.entries) (at map.new.entries) lo hi }
{
    if any {
        clear(map, lo, hi);
    }
}

// Does the rest of a plan: nothing of it can be refused.
pub fn close(starts: &mut BTreeMap<u64, RangePart>, lo: u64, hi: u64, plan: Plan)
    requires span { lo < hi }
    requires low { at starts.old.entries lo ≡ open_at plan.low }
    requires high { at starts.old.entries hi ≡ open_at plan.high }
    requires free { plan.within ≡ false → IsFree (at starts.old.entries) (suc lo) hi }
    ensures { (q : ℕ) → at starts.new.entries q
        ≡ closes (at starts.old.entries) lo hi plan q }
{
    clear_any(starts, lo + 1, hi, plan.within);
    settle(starts, lo, plan.low);
    settle(starts, hi, plan.high);
}

// Puts an entry at a point, if it is read; takes out the one that stands there otherwise, if any
// does.
fn put_last(
    entries: &mut BTreeMap<u64, Entry>,
    point: u64,
    own: Entry,
    any: bool,
) -> Result<(), AllocError>
    requires { any ≡ false → at entries.old.entries point ≡ None }
    ensures ok { OnOk result ((q : ℕ) → at entries.new.entries q
        ≡ (if nat_eq q point then entry_of own.part own.value else at entries.old.entries q)) }
    ensures err { OnErr result (entries.new.entries ≡ entries.old.entries) }
{
    if reads_key(own.part) {
        put(entries, point, own)?;
    } else if any {
        take_out(entries, point);
    }
    Ok(())
}

// Puts an entry at the last point of a span, if it is read, in place of those of the span. One
// search finds whether any stands there.
fn put_entry(
    entries: &mut BTreeMap<u64, Entry>,
    lo: u64,
    hi: u64,
    own: Entry,
) -> Result<(), AllocError>
    requires { lo < hi }
    ensures ok { OnOk result ((p : ℕ) → at entries.new.entries p
        ≡ (if lies_in lo hi p
        then (if nat_eq (suc p) hi then entry_of own.part own.value else None)
        else at entries.old.entries p)) }
    ensures err { OnErr result (entries.new.entries ≡ entries.old.entries) }
{
    let free = free_to(entries, lo, hi);
    let last = hi - 1;
    put_last(entries, last, own, free < hi)?;
    clear_any(entries, lo, last, free < last);
    Ok(())
}

// Takes a holding over.
pub fn adopt(
    starts: &mut BTreeMap<u64, RangePart>,
    entries: &mut BTreeMap<u64, Entry>,
    holding: Holding,
) -> Result<(), AllocError>
    ensures parts { OnOk result
        ((p : ℕ) → part_at (at starts.new.entries) p
        ≡ (if contains holding.span p
        then range_of holding.mode else part_at (at starts.old.entries) p)) }
    ensures starts { OnOk result (EndsAlike (at starts.old.entries) (at starts.new.entries)) }
    ensures merged { OnOk result (AreStartsMerged (at starts.old.entries)
        → AreStartsMerged (at starts.new.entries)) }
    ensures entries { OnOk result
        ((p : ℕ) → at entries.new.entries p
        ≡ (if contains holding.span p
        then (if beliefs.is_last holding.span p then own_entry holding else None)
        else at entries.old.entries p)) }
    ensures span { beliefs.is_span holding.span ≡ true }
    ensures top { holding.span.hi ≤ TOP }
    ensures starts_stay { OnErr result (starts.new.entries ≡ starts.old.entries) }
    ensures entries_stay { OnErr result (entries.new.entries ≡ entries.old.entries) }
{
    let lo = holding.span.lo();
    let hi = holding.span.hi();
    let (range, part) = holding.mode.parts();
    let value = holding.value;
    let plan = plan_of(starts, lo, hi, range);
    let (low, high) = open(starts, lo, hi, plan)?;
    if let Err(error) = put_entry(entries, lo, hi, Entry { part, value }) {
        shut(starts, lo, hi, low, high);
        return Err(error);
    }
    close(starts, lo, hi, plan);
    Ok(())
}
