//! Entries in the order of their points, in a plain list.
ghost use Rattle.std.specs.Prelude.{◌≡◌, ◌++◌, ℕ, nat_eq, [], map, IfOk, OnOk, if◌then◌else◌};
ghost use Rattle.std.specs.List.{filter_map, cons_option, find as list_find};
ghost use Rattle.std.specs.Option.{option_and_then};
ghost use Rattle.std.specs.Ordering.{nat_cmp};
ghost use Rattle.std.specs.FinMap.{find};
ghost use Rattle.krl_modes.specs.Spans.{contains};
ghost use Rattle.krl_cache.specs.Beliefs as beliefs;
ghost use Rattle.krl_cache.specs.Entries.{pick, entry_lowered, entry_of, tagged, row_value};
ghost use Rattle.krl_cache.specs.Entries.{key_piece};
ghost use Rattle.krl_cache_laws.specs.Lists.{ArePlaced};

use krl_cache::{Entry, reads_key};
use krl_messages::{KeyPiece, Value};
use krl_modes::{KeyPart, Span, TOP};
use std::alloc::{AllocError, Global};

// What is left of an entry that is lowered, if it lies from `lo` on below `hi`.
fn lowered_entry(entry: &(u64, Entry), lo: u64, hi: u64, keep: KeyPart) -> Option<(u64, Entry)>
    ensures { result ≡ pick lo hi (entry_lowered keep) entry.now }
{
    let (point, Entry { part, value }) = *entry;
    let part = part.meet(keep);
    if lo <= point && point < hi && reads_key(part) {
        Some((point, Entry { part, value }))
    } else {
        None
    }
}

// Adds what is left of the entries from `lo` on below `hi`, lowered.
fn add_entries(
    list: &mut Vec<(u64, Entry)>,
    entries: &[(u64, Entry)],
    lo: u64,
    hi: u64,
    keep: KeyPart,
) -> Result<(), AllocError>
    ensures { OnOk result
        (list.new.items ≡ list.old.items
        ++ filter_map (pick lo hi (entry_lowered keep)) entries.now) }
{
    for entry in entries {
        if let Some(left) = lowered_entry(entry, lo, hi, keep) {
            list.push(left)?;
        }
    }
    Ok(())
}

// Adds an entry, if it is read.
fn add_own(list: &mut Vec<(u64, Entry)>, point: u64, own: Entry) -> Result<(), AllocError>
    ensures { OnOk result
        (list.new.items ≡ list.old.items
        ++ cons_option (tagged point (entry_of own.part own.value)) []) }
{
    let read = if reads_key(own.part) { Some(own) } else { None };
    if let Some(entry) = read {
        list.push((point, entry))?;
    }
    Ok(())
}

// The entries, with one at the span's last point, if it is read, in place of those of the span.
pub fn entries_with(
    alloc: Global,
    entries: &[(u64, Entry)],
    span: Span,
    own: Entry,
) -> Result<Vec<(u64, Entry)>, AllocError>
    requires { ArePlaced entries.now }
    ensures placed { IfOk result (λ list. ArePlaced list.items) }
    ensures found { IfOk result
        (λ list. (p : ℕ) → find nat_cmp p list.items
        ≡ (if contains span p
        then (if beliefs.is_last span p then entry_of own.part own.value else None)
        else find nat_cmp p entries.now)) }
{
    let lo = span.lo();
    let hi = span.hi();
    let mut list = Vec::new(alloc);
    add_entries(&mut list, entries, 0, lo, KeyPart::X)?;
    add_own(&mut list, hi - 1, own)?;
    add_entries(&mut list, entries, hi, TOP, KeyPart::X)?;
    Ok(list)
}

// The entries, lowered on a span.
pub fn entries_lowered(
    alloc: Global,
    entries: &[(u64, Entry)],
    span: Span,
    keep: KeyPart,
) -> Result<Vec<(u64, Entry)>, AllocError>
    requires { ArePlaced entries.now }
    ensures placed { IfOk result (λ list. ArePlaced list.items) }
    ensures found { IfOk result
        (λ list. (p : ℕ) → find nat_cmp p list.items
        ≡ (if contains span p
        then option_and_then (entry_lowered keep) (find nat_cmp p entries.now)
        else find nat_cmp p entries.now)) }
{
    let lo = span.lo();
    let hi = span.hi();
    let mut list = Vec::new(alloc);
    add_entries(&mut list, entries, 0, lo, KeyPart::X)?;
    add_entries(&mut list, entries, lo, hi, keep)?;
    add_entries(&mut list, entries, hi, TOP, KeyPart::X)?;
    Ok(list)
}

// The first pair of the point.
fn pair_at(entries: &[(u64, Entry)], p: u64) -> Option<(u64, Entry)>
    ensures { result ≡ list_find (λ e. nat_eq p e.0) entries.now }
{
    entries.iter().copied().find(|(point, _)| p == *point)
}

// The entry at the point.
pub fn entry_at(entries: &[(u64, Entry)], p: u64) -> Option<Entry>
    ensures { result ≡ find nat_cmp p entries.now }
{
    match pair_at(entries, p) {
        Some((_, entry)) => Some(entry),
        None => None,
    }
}

// The row of an entry from `lo` on below `hi`.
fn row(entry: &(u64, Entry), lo: u64, hi: u64) -> Option<(u64, Value)>
    ensures { result ≡ pick lo hi row_value entry.now }
{
    let (point, Entry { value, .. }) = *entry;
    if lo <= point && point < hi {
        value.map(|value| (point, value))
    } else {
        None
    }
}

// The rows of the entries from `lo` on below `hi`.
pub fn rows_of(
    alloc: Global,
    entries: &[(u64, Entry)],
    lo: u64,
    hi: u64,
) -> Result<Vec<(u64, Value)>, AllocError>
    ensures { IfOk result (λ rows. rows.items ≡ filter_map (pick lo hi row_value) entries.now) }
{
    entries
        .iter()
        .filter_map(|entry| row(entry, lo, hi))
        .collect(alloc)
}

// The key parts of the entries.
pub fn keys_of(alloc: Global, entries: &[(u64, Entry)]) -> Result<Vec<KeyPiece>, AllocError>
    ensures { IfOk result (λ keys. keys.items ≡ map key_piece entries.now) }
{
    entries
        .iter()
        .map(|(point, entry)| KeyPiece {
            point: *point,
            part: entry.part,
        })
        .collect(alloc)
}
