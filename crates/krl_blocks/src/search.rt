//! Searches in one list. A guess is looked at first: if it is right, no search is needed.
ghost use Rattle.std.specs.Prelude.{◌≡◌, ◌≤◌, nat_lt, true, false, length, take, drop};
ghost use Rattle.std.specs.List.{AllByRecursion};
ghost use Rattle.krl_blocks.specs.Entries.{KeysRise, AreBelow, AreFrom};
ghost use Rattle.krl_blocks.specs.Laid.{Rises};

use crate::halves::{count_below, count_keys_below};

/// Numbers below this one are compared with no branch.
const NEAR: u64 = 0x8000_0000_0000_0000;

/// How many of the tops are below the point: they stand first. The guess is looked at first, and
/// the place after it.
pub fn count_tops(tops: &[u64], point: u64, guess: usize) -> usize
    requires { Rises tops.now }
    ensures within { result ≤ length tops.now }
    ensures below { AllByRecursion (λ t. nat_lt t point ≡ true) (take result tops.now) }
    ensures rest { AllByRecursion (λ t. nat_lt t point ≡ false) (drop result tops.now) }
{
    if is_count_of_tops(tops, point, guess) {
        return guess;
    }
    let next = guess.saturating_add(1);
    if is_count_of_tops(tops, point, next) {
        return next;
    }
    search_tops(tops, point)
}

/// How many entries have keys below the point: they stand first. The guess is looked at first, and
/// the place after it.
pub fn count_keys<V>(entries: &[(u64, V)], point: u64, guess: usize) -> usize
    requires { KeysRise entries.now }
    ensures within { result ≤ length entries.now }
    ensures below { AllByRecursion (λ e. nat_lt e.0 point ≡ true) (take result entries.now) }
    ensures rest { AllByRecursion (λ e. nat_lt e.0 point ≡ false) (drop result entries.now) }
{
    if is_count_of_keys(entries, point, guess) {
        return guess;
    }
    let next = guess.saturating_add(1);
    if is_count_of_keys(entries, point, next) {
        return next;
    }
    search_keys(entries, point)
}

/// Whether so many of the tops are below the point.
fn is_count_of_tops(tops: &[u64], point: u64, count: usize) -> bool
    requires { Rises tops.now }
    ensures within { result ≡ true → count ≤ length tops.now }
    ensures below { result ≡ true
        → AllByRecursion (λ t. nat_lt t point ≡ true) (take count tops.now) }
    ensures rest { result ≡ true
        → AllByRecursion (λ t. nat_lt t point ≡ false) (drop count tops.now) }
{
    if count > tops.len() {
        return false;
    }
    let (front, rest) = tops.split_at(count);
    all_tops_below(front, point) && no_top_below(rest, point)
}

/// Whether so many of the entries have keys below the point.
fn is_count_of_keys<V>(entries: &[(u64, V)], point: u64, count: usize) -> bool
    requires { KeysRise entries.now }
    ensures within { result ≡ true → count ≤ length entries.now }
    ensures below { result ≡ true → AreBelow point (take count entries.now) }
    ensures rest { result ≡ true → AreFrom point (drop count entries.now) }
{
    if count > entries.len() {
        return false;
    }
    let (front, rest) = entries.split_at(count);
    all_keys_below(front, point) && no_key_below(rest, point)
}

/// Whether all of the numbers, which rise, are below the point: it looks at the last.
fn all_tops_below(tops: &[u64], point: u64) -> bool
    requires { Rises tops.now }
    ensures { result ≡ true → AllByRecursion (λ t. nat_lt t point ≡ true) tops.now }
{
    match tops.last() {
        Some(last) => *last < point,
        None => true,
    }
}

/// Whether none of the numbers, which rise, is below the point: it looks at the first.
fn no_top_below(tops: &[u64], point: u64) -> bool
    requires { Rises tops.now }
    ensures { result ≡ true → AllByRecursion (λ t. nat_lt t point ≡ false) tops.now }
{
    match tops.first() {
        Some(first) => point <= *first,
        None => true,
    }
}

/// Whether all of the keys, which rise, are below the point: it looks at the last.
fn all_keys_below<V>(entries: &[(u64, V)], point: u64) -> bool
    requires { KeysRise entries.now }
    ensures { result ≡ true → AreBelow point entries.now }
{
    match entries.last() {
        Some(last) => last.0 < point,
        None => true,
    }
}

/// Whether none of the keys, which rise, is below the point: it looks at the first.
fn no_key_below<V>(entries: &[(u64, V)], point: u64) -> bool
    requires { KeysRise entries.now }
    ensures { result ≡ true → AreFrom point entries.now }
{
    match entries.first() {
        Some(first) => point <= first.0,
        None => true,
    }
}

/// How many of the tops are below the point: they stand first.
fn search_tops(tops: &[u64], point: u64) -> usize
    requires { Rises tops.now }
    ensures within { result ≤ length tops.now }
    ensures below { AllByRecursion (λ t. nat_lt t point ≡ true) (take result tops.now) }
    ensures rest { AllByRecursion (λ t. nat_lt t point ≡ false) (drop result tops.now) }
{
    match tops.last() {
        Some(last) if *last < NEAR && point < NEAR => count_below(tops, point),
        _ => tops.partition_point(|top| *top < point),
    }
}

/// How many entries have keys below the point: they stand first.
fn search_keys<V>(entries: &[(u64, V)], point: u64) -> usize
    requires { KeysRise entries.now }
    ensures within { result ≤ length entries.now }
    ensures below { AllByRecursion (λ e. nat_lt e.0 point ≡ true) (take result entries.now) }
    ensures rest { AllByRecursion (λ e. nat_lt e.0 point ≡ false) (drop result entries.now) }
{
    match entries.last() {
        Some(last) if last.0 < NEAR && point < NEAR => count_keys_below(entries, point),
        _ => entries.partition_point(|entry| entry.0 < point),
    }
}
