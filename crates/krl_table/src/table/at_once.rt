//! A grant to a client that need not wait.
ghost use Rattle.std.specs.Prelude.{◌≡◌, ◌<◌, ◌↔◌, ◌&&◌, ℕ, true, [], IfSome, IfNone, is_some};
ghost use Rattle.krl_durable.specs.Index.{slot_of};
ghost use Rattle.krl_table.specs.Calls.{enqueued};
ghost use Rattle.krl_table.specs.Grants.{granted, reached_slots, nobody_waits};
ghost use Rattle.krl_table.specs.FirstReplies.{is_granted_at_once};
ghost use Rattle.krl_table.specs.Kept.{rows_of};
ghost use Rattle.krl_table.specs.KeptRows.{IsOver};
ghost use Rattle.krl_table.specs.Replies.{is_wanted_compatible};
ghost use Rattle.krl_modes.specs.declared.limits.TheConstants.{MAX_CLIENTS};

use super::Table;
use crate::reply;
use arrayvec::ArrayVec;
use krl_durable::Durable;
use krl_modes::{MAX_HOLDINGS, Point};
use krl_queue::Waiter;

impl Table {
    /// Whether nobody waits anywhere. It looks at one number.
    pub fn nobody_waits(&self) -> bool
        ensures { (result ≡ true) ↔ ((n : ℕ) → (rows_of self.now.map n).queue ≡ []) }
    {
        self.waiting.is_empty()
    }

    /// Whether nobody waits on the slot, and what the waiter wants is compatible with what all
    /// others hold there.
    fn is_free_for(&self, slot: u64, waiter: &Waiter) -> bool
        requires { waiter.now.client < MAX_CLIENTS }
        ensures { result ≡ (nobody_waits (rows_of self.now.map slot).queue
            && is_wanted_compatible (rows_of self.now.map) slot waiter.now) }
    {
        match self.rows.get(slot) {
            Some(row) => row.queue.is_empty() && row.is_wanted_compatible(waiter),
            None => true,
        }
    }

    /// Gives the client what `enqueue` of the waiter, and then `grant` on the slot of its point,
    /// would give it, without a place in the queue: if nobody waits on that slot, and
    /// `answerable` would then answer that the waiter can be granted. It answers the slots that
    /// the grant reached, in ascending order. It takes no memory.
    ///
    /// None, and nothing changes, if somebody waits there, if what the waiter wants is not
    /// compatible with what all others hold, and if it asks for an entry and there is none.
    pub fn grant_at_once(
        &mut self,
        durable: &Durable,
        waiter: &Waiter,
    ) -> Option<ArrayVec<Point, MAX_HOLDINGS>>
        requires over { IsOver durable.now.index self.old.map }
        requires client { waiter.now.client < MAX_CLIENTS }
        requires rows { durable.now.room < self.old.room }
        ensures when { is_some result
            ≡ is_granted_at_once durable.now.index (rows_of self.old.map) waiter.now }
        ensures granted { IfSome result (λ _. (n : ℕ) → rows_of self.new.map n
            ≡ granted durable.now.reach durable.now.index
            (enqueued durable.now.index (rows_of self.old.map) waiter.now)
            (slot_of durable.now.index waiter.now.point) n) }
        ensures reached { IfSome result (λ slots. slots.items
            ≡ reached_slots durable.now.reach durable.now.index
            (enqueued durable.now.index (rows_of self.old.map) waiter.now)
            (slot_of durable.now.index waiter.now.point)) }
        ensures none { IfNone result (self.new ≡ self.old) }
        ensures slots { IsOver durable.now.index self.new.map }
        ensures room { self.new.room ≡ self.old.room }
    {
        let slot = durable.slot_of(waiter.point.get());
        if reply::asks_absent(slot, waiter) || !self.is_free_for(slot, waiter) {
            return None;
        }
        let mut reached = ArrayVec::new();
        reached.push(Point::new(slot).unwrap());
        self.raise(durable, slot, waiter);
        self.go_on(durable, slot, waiter, &mut reached);
        Some(reached)
    }
}
