//! Calls that are made again if memory is refused: `tests/refusals` refuses one request of a
//! test, or two in a row.
use krl_messages::Holding;
use std::alloc::Global;
use std::slice::from_ref;

/// How often a call is made at most: twice it may be refused.
pub const CALLS: u64 = 3;

/// Room for so many holdings.
pub fn room_for(alloc: Global, count: usize) -> Option<Vec<Holding>> {
    for _ in 0..CALLS {
        if let Ok(items) = Vec::with_capacity(alloc, count) {
            return Some(items);
        }
    }
    None
}

/// Puts the holding after the others, if there is one.
pub fn put(items: &mut Vec<Holding>, holding: Option<Holding>) -> Option<()> {
    items.extend_from_slice(from_ref(&holding?)).ok()
}
