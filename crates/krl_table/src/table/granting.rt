//! A grant: on the waiter's slot, and on the slots after it.
ghost use Rattle.std.specs.Prelude.{◌≡◌, ◌<◌, ◌≤◌, ◌-◌, ◌++◌, ◌&&◌, true, false, ℕ, suc, nat_eq};
ghost use Rattle.std.specs.Prelude.{length};
ghost use Rattle.std.specs.Prelude.{IsSome, IfSome, IfNone};
ghost use Rattle.std.specs.FinMap as map;
ghost use Rattle.krl_modes.specs.declared.point.TheConstants.{END};
ghost use Rattle.krl_modes.specs.Modes.{needs_entry};
ghost use Rattle.krl_durable.specs.Index.{Index, slot_of, is_slot};
ghost use Rattle.krl_table.specs.Waiters.{front_of};
ghost use Rattle.krl_table.specs.Calls.{granted_first, raised, raised_on};
ghost use Rattle.krl_table.specs.Grants.{granted, reached_slots, reached_after};
ghost use Rattle.krl_table.specs.Grants.{is_open_to, goes_on};
ghost use Rattle.krl_table.specs.Kept.{row_of, rows_of};
ghost use Rattle.krl_table.specs.KeptRows.{is_row_open, IsOver, IsNextReached};
ghost use Rattle.krl_table.specs.Replies.{is_wanted_compatible};
ghost use Rattle.krl_modes.specs.declared.limits.TheConstants.{MAX_CLIENTS};

use super::Table;
use crate::row::SlotRow;
use crate::row_ops;
use arrayvec::ArrayVec;
use krl_blocks::Finger;
use krl_durable::Durable;
use krl_modes::{END, MAX_HOLDINGS, Point};
use krl_queue::Waiter;

/// Whether the slot, which has this row, is open to the waiter.
fn is_row_open(row: &SlotRow, slot: u64, waiter: &Waiter) -> bool
    requires { waiter.now.client < MAX_CLIENTS }
    ensures { result ≡ is_row_open slot (row_of row.now) waiter.now }
{
    let free = row.queue.is_empty();
    let is_compatible_there = row.is_wanted_compatible(waiter);
    free && is_compatible_there && !lacks_entry(slot, waiter)
}

/// Whether the waiter asks only for an entry, and the slot is END.
fn lacks_entry(slot: u64, waiter: &Waiter) -> bool
    ensures { result ≡ (needs_entry waiter.now.mode && nat_eq slot END) }
{
    waiter.mode.needs_entry() && slot == END
}

impl Table {
    /// The slot's first waiter gets what it wants, which is compatible with what all others hold
    /// there, and no longer waits. The grant continues over the slots after it that begin below the
    /// end of what the waiter asks for, as far as the reach of what survives. It ends before the
    /// first slot where somebody waits, or where what it asks for is not compatible with what
    /// others hold, or which is END if the waiter asks only for an entry. It answers the slots that
    /// it reached, in ascending order; none if nobody waits. It takes no memory.
    pub fn grant(&mut self, durable: &Durable, slot: u64) -> ArrayVec<Point, MAX_HOLDINGS>
        requires over { IsOver durable.now.index self.old.map }
        requires rows { durable.now.room < self.old.room }
        requires is_compatible_there { IfSome (front_of (rows_of self.old.map slot).queue)
            (λ u. is_wanted_compatible (rows_of self.old.map) slot u ≡ true) }
        ensures granted { (n : ℕ) → rows_of self.new.map n
            ≡ granted durable.now.reach durable.now.index (rows_of self.old.map) slot n }
        ensures reached { result.items
            ≡ reached_slots durable.now.reach durable.now.index (rows_of self.old.map) slot }
        ensures slots { IsOver durable.now.index self.new.map }
        ensures room { self.new.room ≡ self.old.room }
    {
        let mut reached = ArrayVec::new();
        if let Some(waiter) = self.front(slot) {
            self.grant_first(slot);
            reached.push(Point::new(slot).unwrap());
            self.go_on(durable, slot, &waiter, &mut reached);
        }
        reached
    }

    /// The slot's first waiter gets what it wants there, and no longer waits.
    fn grant_first(&mut self, slot: u64)
        requires there { IsSome (map.get self.old.map slot) }
        requires is_compatible_there { IfSome (front_of (rows_of self.old.map slot).queue)
            (λ u. is_wanted_compatible (rows_of self.old.map) slot u ≡ true) }
        ensures granted { (n : ℕ) → rows_of self.new.map n
            ≡ granted_first (rows_of self.old.map) slot n }
        ensures slots { (m : Index) → IsOver m self.old.map → IsOver m self.new.map }
        ensures room { self.new.room ≡ self.old.room }
        ensures end { slot ≤ END }
    {
        let first = row_ops::grant(&mut self.rows, slot);
        self.waiting.leave(&first);
    }

    /// The waiter's client gets what it wants on the slots after this one, as far as they are
    /// open to it and there is room to note them. A finger goes along in the index, so that a slot
    /// after the first costs no search there.
    pub(super) fn go_on(
        &mut self,
        durable: &Durable,
        slot: u64,
        waiter: &Waiter,
        reached: &mut ArrayVec<Point, MAX_HOLDINGS>,
    )
        requires over { IsOver durable.now.index self.old.map }
        requires client { waiter.now.client < MAX_CLIENTS }
        requires rows { durable.now.room < self.old.room }
        ensures rows { rows_of self.new.map
            ≡ raised_on (rows_of self.old.map)
            (reached_after durable.now.index (rows_of self.old.map) slot waiter.now
            (durable.now.reach - length reached.old.items)) waiter.now }
        ensures reached { reached.new.items ≡ reached.old.items
            ++ reached_after durable.now.index (rows_of self.old.map) slot waiter.now
            (durable.now.reach - length reached.old.items) }
        ensures slots { IsOver durable.now.index self.new.map }
        ensures room { self.new.room ≡ self.old.room }
    {
        let most = durable.reach();
        let mut finger = Finger::new();
        let mut at = slot;
        while reached.len() < most {
            let Some(next) = self.next_reached(durable, at, waiter, &mut finger) else {
                return;
            };
            self.raise(durable, next.get(), waiter);
            reached.push(next);
            at = next.get();
        }
    }

    /// The slot after this one, if it is open to the waiter. The search begins at the finger.
    fn next_reached(
        &self,
        durable: &Durable,
        at: u64,
        waiter: &Waiter,
        finger: &mut Finger,
    ) -> Option<Point>
        requires over { IsOver durable.now.index self.now.map }
        requires client { waiter.now.client < MAX_CLIENTS }
        ensures some { IfSome result
            (λ next. IsNextReached durable.now.index self.now.map at waiter.now next) }
        ensures slot { IfSome result (λ next. is_slot durable.now.index next ≡ true) }
        ensures none { IfNone result
            (goes_on durable.now.index (rows_of self.now.map) at waiter.now ≡ false) }
    {
        if at >= END || at + 1 >= waiter.hi {
            return None;
        }
        let next = durable.find_by(at + 1, finger).point;
        if self.is_open_to(next, waiter) {
            Point::new(next)
        } else {
            None
        }
    }

    /// Whether the slot is open to the waiter, which has no place in its queue: nobody waits there,
    /// what it wants there is compatible with what all others hold, and it does not ask only for an
    /// entry if the slot is END. The clause `is_compatible_there` is what `raise` asks.
    pub fn is_open_to(&self, slot: u64, waiter: &Waiter) -> bool
        requires { waiter.now.client < MAX_CLIENTS }
        ensures result { result ≡ is_open_to (rows_of self.now.map) slot waiter.now }
        ensures is_compatible_there { result ≡ true
            → is_wanted_compatible (rows_of self.now.map) slot waiter.now ≡ true }
    {
        match self.rows.get(slot) {
            Some(row) => is_row_open(row, slot, waiter),
            None => !lacks_entry(slot, waiter),
        }
    }

    /// The waiter's client gets on the slot what it wants, which is compatible with what all others
    /// hold there. It takes no memory.
    pub fn raise(&mut self, durable: &Durable, slot: u64, waiter: &Waiter)
        requires over { IsOver durable.now.index self.old.map }
        requires slot { is_slot durable.now.index slot ≡ true }
        requires client { waiter.now.client < MAX_CLIENTS }
        requires rows { durable.now.room < self.old.room }
        requires is_compatible_there { is_wanted_compatible (rows_of self.old.map) slot waiter.now
            ≡ true }
        ensures raised { (n : ℕ)
            → rows_of self.new.map n ≡ raised (rows_of self.old.map) slot waiter.now n }
        ensures slots { IsOver durable.now.index self.new.map }
        ensures room { self.new.room ≡ self.old.room }
    {
        // By its clause `kept` the prover knows what holds of all that survives.
        let _kept = durable.epoch();
        row_ops::raise(&mut self.rows, slot, waiter);
        self.extents.note(waiter.client, slot);
    }
}
