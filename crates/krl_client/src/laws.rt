//! What holds of every call of a client.
ghost use Rattle.krl_client.specs.Keeps.{ClientKeeps};
ghost use Rattle.krl_client.specs.Laws.{RisesByPushes, KeepsWhatItNeeds, GivesFew};

/// Belief rises only by the next push of the client's own epoch; what a write or a pin needs is
/// kept; and no call gives more than three messages.
pub fn calls()
    ensures rises { RisesByPushes }
    ensures keeps { KeepsWhatItNeeds }
    ensures few { GivesFew }
{}

/// Each call that is not refused, and each message, also one that nobody sent, leaves a client: its
/// numbers are at most END, an outstanding write has a key below END, each pin is a span under an
/// id from 0 to 7, and what it believes is a belief.
pub fn calls_keep_client()
    ensures { ClientKeeps }
{}
