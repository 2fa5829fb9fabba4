//! Memory for a grant, which is reserved before anything changes.
ghost use Rattle.std.specs.Prelude.{◌≡◌, ◌≤◌, [], IfOk};
ghost use Rattle.krl_server.specs.GrantRooms.{slots_asked, most_slots};

use krl_durable::Durable;
use krl_messages::Gathering;
use krl_modes::Point;
use std::alloc::{AllocError, Global};
use std::marker::Model;

/// Room for the holdings of one grant, twice: for the session, and for what is sent. A clause sees
/// for how many.
#[derive(Drop)]
pub(crate) struct GrantRoom {
    slots: usize,
    kept: Gathering,
    sent: Gathering,
}

impl Model for GrantRoom {
    ghost use Rattle.std.specs.Prelude.{◌≡◌, ◌≤◌, ℕ, []};

    ghost Value = { ℕ };

    ghost view = { λ r. r.slots };

    ghost invariant = { λ r. (r.kept.holdings ≡ []) × (r.slots ≤ r.kept.room)
        × (r.sent.holdings ≡ []) × (r.slots ≤ r.sent.room) };
}

impl GrantRoom {
    /// Room for so many holdings.
    ///
    /// # Errors
    ///
    /// `AllocError` if the memory is refused.
    pub(crate) fn new(alloc: Global, slots: usize) -> Result<GrantRoom, AllocError>
        ensures { IfOk result (λ r. r ≡ slots) }
    {
        let kept = Gathering::new(alloc, slots)?;
        let sent = Gathering::new(alloc, slots)?;
        Ok(GrantRoom { slots, kept, sent })
    }

    /// For how many holdings there is room.
    pub(crate) fn slots(&self) -> usize
        ensures { result ≡ self.now }
    {
        self.slots
    }

    /// Two empty lists, each with that room.
    pub(crate) fn into_lists(self) -> (Gathering, Gathering)
        ensures kept { (result.0.holdings ≡ []) × (self ≤ result.0.room) }
        ensures sent { (result.1.holdings ≡ []) × (self ≤ result.1.room) }
    {
        let GrantRoom {
            slots: _,
            kept,
            sent,
        } = self;
        (kept, sent)
    }
}

/// How many slots a grant reaches at most of a lock from this point on below `hi`: as far as the
/// reach, and one at each point.
pub(crate) fn slots_asked(durable: &Durable, point: Point, hi: u64) -> usize
    ensures asked { result ≡ slots_asked durable.now.reach point hi }
    ensures few { result ≤ durable.now.reach }
{
    let points = 1 + hi.saturating_sub(point.get() + 1);
    points.min(durable.reach() as u64) as usize
}

/// How many slots a grant at once reaches at most: no more of those that the lock asks for than
/// there are.
pub(crate) fn most_slots(durable: &Durable, point: Point, hi: u64) -> usize
    ensures { result ≡ most_slots durable.now point hi }
{
    // By its clause `in_range` the prover knows how many entries there may be.
    let _room = durable.room();
    slots_asked(durable, point, hi).min(durable.len() + 1)
}
