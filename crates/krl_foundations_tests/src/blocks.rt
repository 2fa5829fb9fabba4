//! Ordered maps in blocks, next to a list with a place for each key: 10,000 keys come in no order,
//! two of three go, and the others are walked, found and reached, four times over. If room is
//! refused it is asked for again, so that each run ends the same, whichever requests for memory are
//! refused. No later call asks for memory.
ghost use Rattle.std.specs.Prelude.{◌≡◌, ◌≤◌, IfOk};

use crate::again::CALLS;
use krl_blocks::Blocks;
use std::alloc::{AllocError, Global};

/// How many keys there are.
const KEYS: u64 = 10_000;

/// A prime: by steps of it each key is met once, in no order.
const STEP: u64 = 7_919;

// The key that the n-th step meets.
fn key_at(n: u64) -> u64 {
    n.wrapping_mul(STEP) % KEYS
}

// What stands next to the key.
fn held(beside: &[Option<u64>], key: u64) -> Option<u64> {
    match beside.get(key as usize) {
        None => None,
        Some(value) => *value,
    }
}

fn note(beside: &mut [Option<u64>], key: u64, value: Option<u64>) {
    if let Some(place) = beside.get_mut(key as usize) {
        *place = value;
    }
}

// Puts the entry in, unless an entry has its key or the map is full.
fn puts(blocks: &mut Blocks<u64>, key: u64, value: u64) -> bool
    requires { 10000 ≤ blocks.old.room }
    ensures { blocks.new.room ≡ blocks.old.room }
{
    if blocks.len() >= KEYS as usize {
        return false;
    }
    match blocks.get(key) {
        Some(_) => false,
        None => {
            blocks.insert(key, value);
            true
        }
    }
}

// Puts in the keys that are missing, in no order, and gives the others a value of this round.
fn fills(blocks: &mut Blocks<u64>, beside: &mut [Option<u64>], round: u64) -> bool
    requires { 10000 ≤ blocks.old.room }
    ensures { blocks.new.room ≡ blocks.old.room }
{
    for n in 0..KEYS {
        let key = key_at(n);
        let value = n ^ round;
        let was = blocks.set(key, value);
        if was != held(beside, key) || was.is_none() && !puts(blocks, key, value) {
            return false;
        }
        note(beside, key, Some(value));
    }
    true
}

// Takes out two keys of three, in another order.
fn thins(blocks: &mut Blocks<u64>, beside: &mut [Option<u64>], round: u64) -> bool
    ensures { blocks.new.room ≡ blocks.old.room }
{
    for n in 0..KEYS {
        let key = key_at(n ^ 5);
        if key % 3 == round % 3 {
            continue;
        }
        if blocks.remove(key) != held(beside, key) {
            return false;
        }
        note(beside, key, None);
    }
    true
}

// At how many keys something stands next to it.
fn count(beside: &[Option<u64>]) -> usize {
    let mut count = 0usize;
    for value in beside {
        if value.is_some() {
            count = count.saturating_add(1);
        }
    }
    count
}

// Whether a walk by runs meets just what stands next to each, in key order.
fn is_walked(blocks: &Blocks<u64>, beside: &[Option<u64>]) -> bool {
    let entries = blocks.entries();
    let mut low = 0u64;
    let mut met = 0usize;
    for i in 0..entries.len() {
        for (key, value) in entries.get(i) {
            if *key < low || held(beside, *key) != Some(*value) {
                return false;
            }
            low = key.saturating_add(1);
            met = met.saturating_add(1);
        }
    }
    met == blocks.len() && met == count(beside)
}

// Whether a search finds what stands next to the key, and the key before it.
fn is_found(blocks: &Blocks<u64>, key: u64, before: Option<u64>, here: Option<u64>) -> bool {
    let found = blocks.find(key);
    let first = match found.run.first() {
        Some(entry) if entry.0 == key => Some(entry.1),
        _ => None,
    };
    found.before == before && first == here && blocks.get(key) == here
}

fn are_found(blocks: &Blocks<u64>, beside: &[Option<u64>]) -> bool {
    let mut before = None;
    for key in 0..KEYS {
        let here = held(beside, key);
        if !is_found(blocks, key, before, here) {
            return false;
        }
        if here.is_some() {
            before = Some(key);
        }
    }
    true
}

// Whether each key is reached, in no order, as it stands there; and what is looked for then, the
// key itself and the one after it.
fn are_reached(blocks: &mut Blocks<u64>, beside: &[Option<u64>]) -> bool
    ensures { blocks.new.room ≡ blocks.old.room }
{
    for n in 0..KEYS {
        let key = key_at(n);
        let next = key.saturating_add(1);
        if blocks.reach(key) != held(beside, key)
            || blocks.get(key) != held(beside, key)
            || blocks.get(next) != held(beside, next)
        {
            return false;
        }
    }
    true
}

// A map with room for all keys, if memory is there for it.
fn made(alloc: Global) -> Result<Blocks<u64>, AllocError>
    ensures { IfOk result (λ blocks. 10000 ≤ blocks.room) }
{
    Blocks::from_sorted(alloc, &[], KEYS as usize)
}

// A map with room for all keys.
fn roomy(alloc: Global) -> Result<Blocks<u64>, AllocError>
    ensures { IfOk result (λ blocks. 10000 ≤ blocks.room) }
{
    for _ in 1..CALLS {
        if let Ok(blocks) = made(alloc) {
            return Ok(blocks);
        }
    }
    made(alloc)
}

// A list with a place for each key.
fn places(alloc: Global) -> Result<Vec<Option<u64>>, AllocError> {
    for _ in 1..CALLS {
        if let Ok(beside) = Vec::from_elem(alloc, None, KEYS as usize) {
            return Ok(beside);
        }
    }
    Vec::from_elem(alloc, None, KEYS as usize)
}

// One round on both.
fn goes_round(blocks: &mut Blocks<u64>, beside: &mut [Option<u64>], round: u64) -> bool
    requires { 10000 ≤ blocks.old.room }
    ensures { blocks.new.room ≡ blocks.old.room }
{
    fills(blocks, beside, round)
        && is_walked(blocks, beside)
        && thins(blocks, beside, round)
        && is_walked(blocks, beside)
        && are_found(blocks, beside)
        && are_reached(blocks, beside)
}

// Four rounds on both.
fn goes_on(blocks: &mut Blocks<u64>, beside: &mut [Option<u64>]) -> bool
    requires { 10000 ≤ blocks.old.room }
{
    for round in 0..4 {
        if !goes_round(blocks, beside, round) {
            return false;
        }
    }
    true
}

#[test]
fn a_map_in_blocks_is_an_ordered_map(rt: HostRuntime) {
    let Ok(mut blocks) = roomy(rt.alloc()) else {
        panic!(rt; "no room for a map");
    };
    let Ok(mut beside) = places(rt.alloc()) else {
        panic!(rt; "no room for a list");
    };
    assert!(rt; goes_on(&mut blocks, &mut beside));
}
