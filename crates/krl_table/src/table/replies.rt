//! What a client that asks can be answered.
ghost use Rattle.std.specs.Prelude.{◌≡◌, ◌<◌, true, Some, IfSome};
ghost use Rattle.krl_modes.specs.declared.point.TheConstants.{END};
ghost use Rattle.krl_messages.specs.Writes.{op_key};
ghost use Rattle.krl_durable.specs.Index.{Index};
ghost use Rattle.krl_durable.specs.Writes.{held};
ghost use Rattle.krl_table.specs.declared.reply.Reply.TheVariants as reply;
ghost use Rattle.krl_table.specs.Rows.{column};
ghost use Rattle.krl_table.specs.Waiters.{front_of};
ghost use Rattle.krl_table.specs.Kept.{rows_of};
ghost use Rattle.krl_table.specs.KeptRows.{IsOver};
ghost use Rattle.krl_table.specs.FirstReplies.{answerable};
ghost use Rattle.krl_table.specs.Replies.{is_wanted_compatible};
ghost use Rattle.krl_modes.specs.declared.limits.TheConstants.{MAX_CLIENTS};

use super::Table;
use crate::needs;
use crate::reply::Reply;
use krl_durable::Durable;
use krl_messages::WriteOp;

impl Table {
    /// What the slot's first waiter can be answered. `acked` states whether its client has
    /// acknowledged every push.
    ///
    /// The clause `grants` is what `grant` asks.
    pub fn answerable(&self, slot: u64, acked: bool) -> Option<Reply>
        ensures answer { (m : Index) → IsOver m self.now.map
            → result ≡ answerable m (rows_of self.now.map) slot acked }
        ensures grants { result ≡ Some reply.Grant
            → IfSome (front_of (rows_of self.now.map slot).queue)
            (λ u. is_wanted_compatible (rows_of self.now.map) slot u ≡ true) }
    {
        if !acked {
            return None;
        }
        match self.rows.get(slot) {
            Some(row) => row.reply(slot),
            None => None,
        }
    }

    /// Whether the client's modes are what the write needs.
    pub fn held(&self, durable: &Durable, client: u64, op: WriteOp) -> bool
        requires client { client < MAX_CLIENTS }
        requires key { op_key op < END }
        ensures { result ≡ held durable.now.index (column (rows_of self.now.map) client) op }
    {
        match op {
            WriteOp::Insert { key, value: _ } => {
                let slot = durable.slot_of(key);
                needs::lets_insert(self.mode(slot, client))
            }
            WriteOp::Put { key, value: _ } => needs::is_key_x(self.mode(key, client)),
            WriteOp::Delete { key } => {
                let slot = durable.slot_of(key + 1);
                let here = self.mode(key, client);
                let next = self.mode(slot, client);
                needs::is_key_x(here) & needs::is_range_x(here) & needs::is_range_x(next)
            }
        }
    }
}
