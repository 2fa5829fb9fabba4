//! What a client holds, and which clients wait before it.
ghost use Rattle.std.specs.Prelude.{◌≡◌, ◌≢◌, ◌<◌, ℕ, true, false, [], None, MatchOption};
ghost use Rattle.std.specs.FinMap as map;
ghost use Rattle.krl_modes.specs.declared.point.TheConstants.{END};
ghost use Rattle.krl_modes.specs.declared.mode.Mode.TheVariants as mode;
ghost use Rattle.krl_queue.specs.Turns.{goes_before};
ghost use Rattle.krl_table.specs.Holds.{AreHeld, HoldsAt, IsNextHeld};
ghost use Rattle.krl_table.specs.Kept.{rows_of};
ghost use Rattle.krl_table.specs.Rows.{mode_at};
ghost use Rattle.krl_modes.specs.declared.limits.TheConstants.{MAX_CLIENTS};

use super::Table;
use crate::row::SlotRow;
use krl_blocks::ReservedMap;
use krl_modes::Mode;

impl Table {
    /// Whether the other client waits on the slot, and the client does not wait there before it.
    pub fn goes_before(&self, slot: u64, client: u64, other: u64) -> bool
        ensures { result ≡ goes_before client other (rows_of self.now.map slot).queue }
    {
        match self.rows.get(slot) {
            Some(row) => row.queue.goes_before(client, other),
            None => false,
        }
    }

    /// At how many slots the client holds a mode other than N. It looks at all rows that are kept,
    /// with two searches for each.
    pub fn held_slots(&self, client: u64) -> u64
        requires { client < MAX_CLIENTS }
        ensures { HoldsAt (rows_of self.now.map) client result }
    {
        count_held(&self.rows, client)
    }

    /// The first slot from this point on at which the client holds a mode other than N. It looks at
    /// the rows that are kept from there on as far as that slot, with two searches for each.
    pub fn next_held(&self, client: u64, from: u64) -> Option<u64>
        requires { client < MAX_CLIENTS }
        ensures { MatchOption result (AreHeld (rows_of self.now.map) client from [])
            (IsNextHeld (rows_of self.now.map) client from) }
    {
        next_held(&self.rows, client, from)
    }
}

// Whether the client holds a mode other than N on the slot.
fn holds(rows: &ReservedMap<SlotRow>, slot: u64, client: u64) -> bool
    requires { client < MAX_CLIENTS }
    ensures held { result ≡ true → mode_at (rows_of rows.now.map) slot client ≢ mode.N }
    ensures free { result ≡ false → mode_at (rows_of rows.now.map) slot client ≡ mode.N }
{
    match rows.get(slot) {
        Some(row) => row.mode(client) != Mode::N,
        None => false,
    }
}

// The first slot from this point on at which it does.
fn next_held(rows: &ReservedMap<SlotRow>, client: u64, from: u64) -> Option<u64>
    requires near { (n : ℕ) → END < n → map.get rows.now.map n ≡ None }
    requires client { client < MAX_CLIENTS }
    ensures { MatchOption result (AreHeld (rows_of rows.now.map) client from [])
        (IsNextHeld (rows_of rows.now.map) client from) }
{
    let mut at = from;
    while let Some(slot) = rows.next(at) {
        if holds(rows, slot, client) {
            return Some(slot);
        }
        at = slot + 1;
    }
    None
}

// At how many slots it does.
fn count_held(rows: &ReservedMap<SlotRow>, client: u64) -> u64
    requires near { (n : ℕ) → END < n → map.get rows.now.map n ≡ None }
    requires client { client < MAX_CLIENTS }
    ensures { HoldsAt (rows_of rows.now.map) client result }
{
    let mut count: u64 = 0;
    let mut at: u64 = 0;
    while let Some(slot) = rows.next(at) {
        if holds(rows, slot, client) {
            count += 1;
        }
        at = slot + 1;
    }
    count
}
