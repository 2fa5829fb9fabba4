//! The limits that a server is started with.
ghost use Rattle.std.specs.Prelude.{◌≡◌};
ghost use Rattle.krl_durable.specs.StandardLimits.{standard_limits};

use crate::reach::Reach;
use crate::room::Room;

/// The limits that a server is started with. A later start may be given others.
#[derive(Clone, Copy, Debug, PartialEq, Eq)]
pub struct Limits {
    /// How many entries the index has room for.
    pub room: Room,
    /// How many slots one grant reaches at most.
    pub reach: Reach,
}

impl Limits {
    /// Room for 65,536 entries, and grants of up to eight slots.
    pub fn standard() -> Limits
        ensures { result ≡ standard_limits }
    {
        Limits {
            room: Room::standard(),
            reach: Reach::standard(),
        }
    }
}
