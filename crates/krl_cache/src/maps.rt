//! Maps from points: what begins there, and what stands there.
ghost use Rattle.std.specs.Prelude.{◌≡◌, ◌≢◌, ◌≤◌, ◌<◌, ◌-◌, ℕ, suc, true, nat_eq, MatchOption};
ghost use Rattle.std.specs.Prelude.{IfOk, None, IsTrue, ◌↔◌, OnOk, OnErr, IsSome, if◌then◌else◌};
ghost use Rattle.std.specs.Option.{option_and_then};
ghost use Rattle.krl_modes.specs.declared.point.TheConstants.{TOP};
ghost use Rattle.krl_modes.specs.Parts.{range_meet, reads_key};
ghost use Rattle.krl_modes.specs.Modes.{range_of, key_of};
ghost use Rattle.krl_modes.specs.Spans.{contains};
ghost use Rattle.krl_cache.specs.Beliefs as beliefs;
ghost use Rattle.krl_cache.specs.Entries.{lies_in, entry_lowered, entry_of};
ghost use Rattle.krl_cache.specs.Maps.{at, part_at};
ghost use Rattle.krl_cache.specs.MapSteps.{IsFree, IsFreeFrom, IsFirst, IsPlaced, IsUndone};
ghost use Rattle.krl_cache.specs.MapSteps.{CanUndo, HasEnds, KeepsParts, EndsAlike, IsChanged};
ghost use Rattle.krl_cache.specs.MapSteps.{HoldsBefore, BeginsAnew, AreStartsMerged, gone};
ghost use Rattle.krl_cache.specs.MapSteps.{lowered_part};

use crate::entry::Entry;
use crate::parts::reads_key;
use crate::sift::run_out;
use krl_modes::{KeyPart, Mode, RangePart, Span};
use std::alloc::AllocError;
use std::collections::BTreeMap;

// The part that holds at the point.
pub fn part_at(starts: &BTreeMap<u64, RangePart>, p: u64) -> RangePart
    ensures { result ≡ part_at (at starts.now.entries) p }
{
    match starts.range(..=p).next_back() {
        Some((_, part)) => *part,
        None => RangePart::N,
    }
}

// The first pair from `lo` on. A range with no end searches only for its beginning.
fn first_from<V: Copy>(map: &BTreeMap<u64, V>, lo: u64) -> Option<(u64, V)>
    ensures { MatchOption result (IsFreeFrom (at map.now.entries) lo)
        (λ e. IsFirst (at map.now.entries) lo (suc e.0) e) }
{
    match map.range(lo..).next() {
        Some((key, value)) => Some((*key, *value)),
        None => None,
    }
}

// The first pair from `lo` on below `hi`.
pub fn first_in<V: Copy>(map: &BTreeMap<u64, V>, lo: u64, hi: u64) -> Option<(u64, V)>
    requires { lo ≤ hi }
    ensures { MatchOption result (IsFree (at map.now.entries) lo hi)
        (IsFirst (at map.now.entries) lo hi) }
{
    let (key, value) = first_from(map, lo)?;
    if key < hi { Some((key, value)) } else { None }
}

// How far nothing stands, from `lo` on, up to `hi` at most.
pub fn free_to<V: Copy>(map: &BTreeMap<u64, V>, lo: u64, hi: u64) -> u64
    requires { lo ≤ hi }
    ensures within { (lo ≤ result) × (result ≤ hi) }
    ensures free { IsFree (at map.now.entries) lo result }
{
    match first_from(map, lo) {
        Some((key, _)) => key.min(hi),
        None => hi,
    }
}

// Puts another value at a key that stands in the map. It takes no memory.
pub fn set<V: Copy + Drop>(map: &mut BTreeMap<u64, V>, key: u64, value: V)
    requires { IsSome (at map.old.entries key) }
    ensures { (q : ℕ) → at map.new.entries q
        ≡ (if nat_eq q key then Some value else at map.old.entries q) }
{
    if let Some(held) = map.get_mut(&key) {
        *held = value;
    }
}

// Puts a value at a key, in place of the one that stands there.
pub fn put<V: Copy + Drop>(map: &mut BTreeMap<u64, V>, key: u64, value: V) -> Result<(), AllocError>
    ensures ok { OnOk result ((q : ℕ) → at map.new.entries q
        ≡ (if nat_eq q key then Some value else at map.old.entries q)) }
    ensures err { OnErr result (map.new.entries ≡ map.old.entries) }
{
    map.insert(key, value)?;
    Ok(())
}

// Takes the value at a key out.
pub fn take_out<V: Copy + Drop>(map: &mut BTreeMap<u64, V>, key: u64)
    ensures { (q : ℕ) → at map.new.entries q
        ≡ (if nat_eq q key then None else at map.old.entries q) }
{
    map.remove(&key);
}

// Puts a value at a key where none stands, and answers whether none stood.
pub fn place<V: Copy + Drop>(
    map: &mut BTreeMap<u64, V>,
    key: u64,
    value: V,
) -> Result<bool, AllocError>
    ensures placed { IfOk result (IsPlaced map.old map.new key value) }
    ensures err { OnErr result (map.new.entries ≡ map.old.entries) }
{
    if map.contains_key(&key) {
        return Ok(false);
    }
    map.insert(key, value)?;
    Ok(true)
}

// Puts a value at a key where none stands.
pub fn put_new<V: Copy + Drop>(
    map: &mut BTreeMap<u64, V>,
    key: u64,
    value: V,
) -> Result<(), AllocError>
    requires { at map.old.entries key ≡ None }
    ensures placed { OnOk result (IsPlaced map.old map.new key value true) }
    ensures err { OnErr result (map.new.entries ≡ map.old.entries) }
{
    map.insert(key, value)?;
    Ok(())
}

// Takes a key out again that was put where none stood.
pub fn undo<V: Copy + Drop>(map: &mut BTreeMap<u64, V>, key: u64, fresh: bool)
    ensures { IsUndone map.old map.new key fresh }
{
    if fresh {
        map.remove(&key);
    }
}

// Takes out what stands from `lo` on below `hi`.
pub fn clear<V: Copy + Drop>(map: &mut BTreeMap<u64, V>, lo: u64, hi: u64)
    requires { lo ≤ hi }
    ensures { IsChanged gone (at map.old.entries) (at map.new.entries) lo hi }
{
    let mut p = lo;
    while let Some((key, _)) = first_in(map, p, hi) {
        take_out(map, key);
        p = key + 1;
    }
}

// Has a part begin at the point, as it holds there, and answers whether none began.
pub fn mark_at(starts: &mut BTreeMap<u64, RangePart>, p: u64) -> Result<bool, AllocError>
    ensures placed { IfOk result
        (IsPlaced starts.old starts.new p (part_at (at starts.old.entries) p)) }
    ensures err { OnErr result (starts.new.entries ≡ starts.old.entries) }
{
    if starts.contains_key(&p) {
        return Ok(false);
    }
    let part = part_at(starts, p);
    starts.insert(p, part)?;
    Ok(true)
}

// Has parts begin at both points, as they hold there: no answer changes.
fn mark(starts: &mut BTreeMap<u64, RangePart>, lo: u64, hi: u64) -> Result<(), AllocError>
    ensures ok { OnOk result (HasEnds (at starts.old.entries) (at starts.new.entries) lo hi) }
    ensures err { OnErr result (starts.new.entries ≡ starts.old.entries) }
{
    let fresh = mark_at(starts, hi)?;
    if let Err(error) = mark_at(starts, lo) {
        undo(starts, hi, fresh);
        return Err(error);
    }
    Ok(())
}

// Has one part begin at `lo`, and none after it below `hi`.
pub fn fill(starts: &mut BTreeMap<u64, RangePart>, lo: u64, hi: u64, part: RangePart)
    requires span { lo < hi }
    requires begins { IsSome (at starts.old.entries lo) }
    ensures { (q : ℕ) → at starts.new.entries q
        ≡ (if nat_eq q lo then Some part else if lies_in lo hi q
        then None else at starts.old.entries q) }
{
    set(starts, lo, part);
    clear(starts, lo + 1, hi);
}

// Lowers the parts that begin from `lo` on below `hi`, in one walk.
fn meet_all(starts: &mut BTreeMap<u64, RangePart>, lo: u64, hi: u64, keep: RangePart)
    requires { lo ≤ hi }
    ensures { IsChanged (lowered_part keep) (at starts.old.entries) (at starts.new.entries) lo hi }
{
    if starts.len() == 0 {
        return;
    }
    let mut walk = starts.extract_if(lo..hi, move |_, part| {
        *part = part.meet(keep);
        false
    });
    run_out(&mut walk);
}

// Whether the part begins at the point.
fn begins(starts: &BTreeMap<u64, RangePart>, p: u64, part: RangePart) -> bool
    ensures { IsTrue result ↔ (at starts.now.entries p ≡ Some part) }
{
    match starts.get(&p) {
        Some(held) => is_same(*held, part),
        None => false,
    }
}

// Whether the parts are the same.
pub fn is_same(a: RangePart, b: RangePart) -> bool
    ensures { IsTrue result ↔ (a ≡ b) }
{
    a == b
}

// The part that holds before the point.
pub fn part_before(starts: &BTreeMap<u64, RangePart>, p: u64) -> RangePart
    ensures { HoldsBefore (at starts.now.entries) p result }
{
    match p.checked_sub(1) {
        Some(q) => part_at(starts, q),
        None => RangePart::N,
    }
}

// Takes a start out if the part that begins there held before.
pub fn merge_at(starts: &mut BTreeMap<u64, RangePart>, p: u64, before: RangePart)
    requires { HoldsBefore (at starts.old.entries) p before }
    ensures kept { KeepsParts (at starts.old.entries) (at starts.new.entries) }
    ensures anew { BeginsAnew (at starts.new.entries) p }
{
    if begins(starts, p, before) {
        take_out(starts, p);
    }
}

// Takes each such start out from `lo` to `hi`, in one walk.
fn merge(starts: &mut BTreeMap<u64, RangePart>, lo: u64, hi: u64)
    requires { (lo ≤ hi) × (hi ≤ TOP) }
    ensures kept { KeepsParts (at starts.old.entries) (at starts.new.entries) }
    ensures anew { (q : ℕ) → lo ≤ q → q ≤ hi → BeginsAnew (at starts.new.entries) q }
{
    if starts.len() == 0 {
        return;
    }
    let mut before = part_before(starts, lo);
    let mut walk = starts.extract_if(
        lo..hi + 1,
        move |_, part|
            ensures stays { part.new ≡ part.old }
            ensures next { before.exit ≡ part.old }
            ensures same { IsTrue result ↔ (part.old ≡ before.entry) }
        {
            let held_before = is_same(*part, before);
            before = *part;
            held_before
        },
    );
    run_out(&mut walk);
}

// Lowers the parts on a span.
fn lower_part(
    starts: &mut BTreeMap<u64, RangePart>,
    span: Span,
    keep: RangePart,
) -> Result<(), AllocError>
    ensures parts { OnOk result
        ((p : ℕ) → part_at (at starts.new.entries) p
        ≡ (if contains span p
        then range_meet (part_at (at starts.old.entries) p) keep
        else part_at (at starts.old.entries) p)) }
    ensures starts { OnOk result (EndsAlike (at starts.old.entries) (at starts.new.entries)) }
    ensures merged { OnOk result (AreStartsMerged (at starts.old.entries)
        → AreStartsMerged (at starts.new.entries)) }
    ensures err { OnErr result (starts.new.entries ≡ starts.old.entries) }
{
    let lo = span.lo();
    let hi = span.hi();
    mark(starts, lo, hi)?;
    meet_all(starts, lo, hi, keep);
    merge(starts, lo, hi);
    Ok(())
}

// Has an entry stand at the point, if the part is read: one with key part N that changes no
// answer, if none stood. Answers whether it was put.
pub fn hold(
    entries: &mut BTreeMap<u64, Entry>,
    point: u64,
    part: KeyPart,
) -> Result<bool, AllocError>
    ensures undo { IfOk result (CanUndo entries.old entries.new point) }
    ensures others { OnOk result
        ((q : ℕ) → q ≢ point → at entries.new.entries q ≡ at entries.old.entries q) }
    ensures held { OnOk result (reads_key part ≡ true → IsSome (at entries.new.entries point)) }
    ensures err { OnErr result (entries.new.entries ≡ entries.old.entries) }
{
    if reads_key(part) {
        let none = Entry {
            part: KeyPart::N,
            value: None,
        };
        Ok(place(entries, point, none)?)
    } else {
        Ok(false)
    }
}

// Puts an entry at the span's last point, if it is read, in place of those of the span.
pub fn adopt_entry(entries: &mut BTreeMap<u64, Entry>, span: Span, own: Entry)
    requires { reads_key own.part ≡ true → IsSome (at entries.old.entries (span.hi - 1)) }
    ensures { (p : ℕ) → at entries.new.entries p
        ≡ (if contains span p
        then (if beliefs.is_last span p then entry_of own.part own.value else None)
        else at entries.old.entries p) }
{
    let last = span.hi() - 1;
    clear(entries, span.lo(), last);
    if reads_key(own.part) {
        set(entries, last, own);
    } else {
        take_out(entries, last);
    }
}

// Lowers the entries from `lo` on below `hi`, in one walk: those that are no longer read go.
fn lower_entries(entries: &mut BTreeMap<u64, Entry>, lo: u64, hi: u64, keep: KeyPart)
    requires { lo ≤ hi }
    ensures { IsChanged (entry_lowered keep) (at entries.old.entries)
        (at entries.new.entries) lo hi }
{
    if entries.len() == 0 {
        return;
    }
    let mut walk = entries.extract_if(lo..hi, move |_, entry| {
        entry.part = entry.part.meet(keep);
        !reads_key(entry.part)
    });
    run_out(&mut walk);
}

// Takes the meet on a span.
pub fn lower(
    starts: &mut BTreeMap<u64, RangePart>,
    entries: &mut BTreeMap<u64, Entry>,
    span: Span,
    keep: Mode,
) -> Result<(), AllocError>
    ensures parts { OnOk result
        ((p : ℕ) → part_at (at starts.new.entries) p
        ≡ (if contains span p
        then range_meet (part_at (at starts.old.entries) p) (range_of keep)
        else part_at (at starts.old.entries) p)) }
    ensures starts { OnOk result (EndsAlike (at starts.old.entries) (at starts.new.entries)) }
    ensures merged { OnOk result (AreStartsMerged (at starts.old.entries)
        → AreStartsMerged (at starts.new.entries)) }
    ensures entries { OnOk result
        ((p : ℕ) → at entries.new.entries p
        ≡ (if contains span p
        then option_and_then (entry_lowered (key_of keep)) (at entries.old.entries p)
        else at entries.old.entries p)) }
    ensures top { span.hi ≤ TOP }
    ensures starts_stay { OnErr result (starts.new.entries ≡ starts.old.entries) }
    ensures entries_stay { OnErr result (entries.new.entries ≡ entries.old.entries) }
{
    let (range, part) = keep.parts();
    lower_part(starts, span, range)?;
    lower_entries(entries, span.lo(), span.hi(), part);
    Ok(())
}
