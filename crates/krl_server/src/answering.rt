//! Answers to waiters.
ghost use Rattle.std.specs.Prelude.{◌≡◌, ◌<◌, ◌≤◌, ◌+◌, length, IfSome, Some, None, true, false};
ghost use Rattle.krl_durable.specs.Index.{is_slot};
ghost use Rattle.krl_table.specs.Waiters.{front_of};
ghost use Rattle.krl_table.specs.Replies.{is_wanted_compatible};
ghost use Rattle.krl_table.specs.Sound.{IsTable};
ghost use Rattle.krl_server.specs.Outboxes.{Sends};
ghost use Rattle.krl_server.specs.Answering.{grants, tells_absent};
ghost use Rattle.krl_server.specs.StateMeaning.{meaning};
ghost use Rattle.krl_server.specs.FoundCases.{IsFormed};
ghost use Rattle.krl_server.specs.Termination.{waiting};
ghost use Rattle.krl_server.specs.Soundness.{IsSound};
ghost use Rattle.krl_server.specs.GrantRooms.{slots_asked, HasGrantRooms};
ghost use Rattle.krl_server.specs.CodeSteps.{turn_here, HasAnsweredFirst, HasAnswered, HaveWaiters};
ghost use Rattle.krl_modes.specs.declared.limits.TheConstants.{MAX_CLIENTS};

use crate::grant_room::GrantRoom;
use crate::grant_rooms::GrantRooms;
use crate::out::Outbox;
use crate::state::State;
use krl_messages::PushBody;
use krl_queue::Waiter;
use krl_table::Reply;

impl State {
    /// Grants the slot's first waiter what it wants, on that slot and on the slots after it that it
    /// reaches too, and sends it the grant.
    fn grant(&mut self, slot: u64, waiter: &Waiter, room: GrantRoom, outbox: &mut Outbox)
        requires formed { IsFormed self.old }
        requires client { waiter.now.client < MAX_CLIENTS }
        requires sound { IsSound (meaning self.old) }
        requires slot { is_slot self.old.durable.index slot ≡ true }
        requires first { front_of ((meaning self.old).rows slot).queue ≡ Some waiter.now }
        requires is_compatible_there { IfSome (front_of ((meaning self.old).rows slot).queue)
            (λ u. is_wanted_compatible (meaning self.old).rows slot u ≡ true) }
        requires room { length outbox.old.sent < outbox.old.room }
        requires holdings { slots_asked self.old.durable.reach waiter.now.point waiter.now.hi ≤ room }
        ensures server { meaning self.new
            ≡ (grants (meaning self.old) (record { slot = slot; waiter = waiter.now })).server }
        ensures sent { Sends outbox.old outbox.new
            (grants (meaning self.old) (record { slot = slot; waiter = waiter.now })).outs }
        ensures formed { IsFormed self.new }
    {
        // By its clause `kept` the prover knows how far a grant reaches.
        let _kept = self.durable.epoch();
        let slots = self.table.grant(&self.durable, slot);
        let (kept, body) = self.grant_of(waiter.req, slots.as_slice(), waiter.client, room);
        self.push(waiter.client, kept, body, outbox);
    }

    /// Reports to the slot's first waiter that there is no entry.
    fn tell_absent(&mut self, slot: u64, waiter: &Waiter, outbox: &mut Outbox)
        requires formed { IsFormed self.old }
        requires client { waiter.now.client < MAX_CLIENTS }
        requires room { length outbox.old.sent < outbox.old.room }
        ensures server { meaning self.new
            ≡ (tells_absent (meaning self.old)
            (record { slot = slot; waiter = waiter.now })).server }
        ensures sent { Sends outbox.old outbox.new
            (tells_absent (meaning self.old) (record { slot = slot; waiter = waiter.now })).outs }
        ensures formed { IsFormed self.new }
    {
        self.table.drop_front(slot);
        let (req, point) = (waiter.req, waiter.point.get());
        let kept = PushBody::Absent { req, point };
        let body = PushBody::Absent { req, point };
        self.push(waiter.client, kept, body, outbox);
    }

    /// Answers the slot's first waiter if that is possible, and reports whether it was. If it
    /// was not, nothing changes and nothing is sent. A grant takes the room of its client.
    fn answer_first(&mut self, slot: u64, rooms: &mut GrantRooms, outbox: &mut Outbox) -> bool
        requires formed { IsFormed self.old }
        requires slot { is_slot self.old.durable.index slot ≡ true }
        requires sound { IsSound (meaning self.old) }
        requires room { length outbox.old.sent + waiting (meaning self.old) ≤ outbox.old.room }
        requires table { IsTable self.old.durable.index (meaning self.old).rows }
        requires rooms { HasGrantRooms (meaning self.old) rooms.old }
        ensures rooms { HasGrantRooms (meaning self.new) rooms.new }
        ensures answered { result ≡ true →
            HasAnsweredFirst (meaning self.old) (meaning self.new) slot outbox.old outbox.new }
        ensures blocked { result ≡ false → turn_here (meaning self.old) slot ≡ None }
        ensures same { result ≡ false → self.new ≡ self.old }
        ensures unsent { result ≡ false → outbox.new ≡ outbox.old }
        ensures formed { IsFormed self.new }
    {
        // By its clause `kept` the prover knows how far a grant reaches.
        let _kept = self.durable.epoch();
        let Some(waiter) = self.table.front(slot) else {
            return false;
        };
        let acked = self.session(waiter.client).can_push();
        match self.table.answerable(slot, acked) {
            Some(Reply::Grant) => {
                let Some(room) = rooms.take(waiter.client) else {
                    return false;
                };
                self.grant(slot, &waiter, room, outbox);
                true
            }
            Some(Reply::Absent) => {
                self.tell_absent(slot, &waiter, outbox);
                true
            }
            None => false,
        }
    }

    /// Answers first waiters, at the least slot first, until none can be answered. An answer makes
    /// nobody answerable at a lower slot, so one walk upward does. The list has the slots at which
    /// somebody waits, and still does afterwards: nobody comes to wait.
    pub(crate) fn answer_waiters(
        &mut self,
        slots: &[u64],
        rooms: &mut GrantRooms,
        outbox: &mut Outbox,
    )
        requires formed { IsFormed self.old }
        requires slots { HaveWaiters (meaning self.old) 0 slots.now }
        requires sound { IsSound (meaning self.old) }
        requires table { IsTable self.old.durable.index (meaning self.old).rows }
        requires room { length outbox.old.sent + waiting (meaning self.old) ≤ outbox.old.room }
        requires rooms { HasGrantRooms (meaning self.old) rooms.old }
        ensures rooms { HasGrantRooms (meaning self.new) rooms.new }
        ensures answered { HasAnswered (meaning self.old) (meaning self.new) outbox.old outbox.new }
        ensures formed { IsFormed self.new }
        ensures slots { HaveWaiters (meaning self.new) 0 slots.now }
    {
        let mut i = 0;
        while i < slots.len() {
            if !self.answer_first(slots[i], rooms, outbox) {
                i += 1;
            }
        }
    }
}
