//! How many slots one grant reaches at most.
ghost use Rattle.std.specs.Prelude.{◌≡◌, ◌↔◌, IsSome, IfSome};
ghost use Rattle.krl_durable.specs.Writes.{IsReach};
ghost use Rattle.krl_modes.specs.declared.limits.TheConstants.{STANDARD_REACH};

use krl_modes::{MAX_HOLDINGS, STANDARD_REACH};
use std::marker::Model;

/// How many slots one grant reaches at most: from 1 to 128.
#[derive(Clone, Copy, Debug, PartialEq, Eq)]
pub struct Reach {
    slots: usize,
}

impl Model for Reach {
    ghost use Rattle.std.specs.Prelude.{ℕ};
    ghost use Rattle.krl_durable.specs.Writes.{IsReach};

    ghost Value = { ℕ };

    ghost view = { λ r. r.slots };

    ghost invariant = { λ r. IsReach r.slots };

    ghost inverse = { λ n. record { slots = n } };
}

impl Reach {
    /// So many slots; None for 0, and above 128.
    pub fn new(slots: usize) -> Option<Reach>
        ensures reach { IfSome result (λ r. r ≡ slots) }
        ensures in_range { IsSome result ↔ IsReach slots }
    {
        if 1 <= slots && slots <= MAX_HOLDINGS {
            Some(Reach { slots })
        } else {
            None
        }
    }

    /// Eight slots, if nobody asks for another number.
    pub fn standard() -> Reach
        ensures { result ≡ STANDARD_REACH }
    {
        Reach {
            slots: STANDARD_REACH,
        }
    }

    /// The number of slots, from 1 to 128.
    pub fn get(self) -> usize
        ensures slots { result ≡ self }
        ensures in_range { IsReach result }
    {
        self.slots
    }
}
