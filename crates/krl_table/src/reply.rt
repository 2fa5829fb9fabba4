//! What a first waiter can be answered.
ghost use Rattle.std.specs.Prelude.{◌≡◌};
ghost use Rattle.krl_table.specs.FirstReplies.{lacks_entry};

use krl_modes::END;
use krl_queue::Waiter;

/// The answer that a first waiter can get now.
#[derive(Clone, Copy, PartialEq, Eq)]
pub enum Reply {
    /// Its request can be granted.
    Grant,
    /// It asks for an entry where there is none.
    Absent,
}

/// Whether the waiter, which waits on this slot, asks for an entry where there is none.
pub(crate) fn asks_absent(slot: u64, waiter: &Waiter) -> bool
    ensures { result ≡ lacks_entry slot waiter.now }
{
    let is_key = waiter.point.get() == slot && slot < END;
    waiter.mode.needs_entry() & !is_key
}
