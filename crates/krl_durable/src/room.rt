//! How many entries an index has room for.
ghost use Rattle.std.specs.Prelude.{◌≡◌, ◌↔◌, IsSome, IfSome};
ghost use Rattle.krl_modes.specs.declared.limits.TheConstants.{STANDARD_ROOM};
ghost use Rattle.krl_durable.specs.Writes.{IsRoom};

use krl_modes::{MAX_ROOM, STANDARD_ROOM};
use std::marker::Model;

/// How many entries an index has room for: from 1 to 1,048,576.
#[derive(Clone, Copy, Debug, PartialEq, Eq)]
pub struct Room {
    entries: usize,
}

impl Model for Room {
    ghost use Rattle.std.specs.Prelude.{ℕ};
    ghost use Rattle.krl_durable.specs.Writes.{IsRoom};

    ghost Value = { ℕ };

    ghost view = { λ r. r.entries };

    ghost invariant = { λ r. IsRoom r.entries };

    ghost inverse = { λ n. record { entries = n } };
}

impl Room {
    /// Room for so many entries; None for 0, and above 1,048,576.
    pub fn new(entries: usize) -> Option<Room>
        ensures room { IfSome result (λ r. r ≡ entries) }
        ensures in_range { IsSome result ↔ IsRoom entries }
    {
        if 1 <= entries && entries <= MAX_ROOM {
            Some(Room { entries })
        } else {
            None
        }
    }

    /// Room for 65,536 entries, if nobody asks for another.
    pub fn standard() -> Room
        ensures { result ≡ STANDARD_ROOM }
    {
        Room {
            entries: STANDARD_ROOM,
        }
    }

    /// The number of entries, from 1 to 1,048,576.
    pub fn get(self) -> usize
        ensures entries { result ≡ self }
        ensures in_range { IsRoom result }
    {
        self.entries
    }
}
