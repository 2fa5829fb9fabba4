//! Hosts that keep what their server changes in batches, and send its messages only afterwards, are
//! worlds: laws of the code of the servers and the clients. Each function has an empty body: its
//! contract is a theorem.
#![tactic(auto)]

ghost use Rattle.krl_world.specs.Promises.{Headline};
ghost use Rattle.krl_host_laws.specs.Hosts.{HostWorld, IsReached};
ghost use Rattle.krl_host_laws.specs.Batches.{JudgesAhead, KeepsInParts};
ghost use Rattle.krl_host_laws.specs.Evictions.{EvictionsAreMoves};
ghost use Rattle.krl_host_laws.specs.Promises.{BatchesAreWorlds, HoldsAhead, NeverAlarms};

/// Whatever is judged, kept, sent and lost, in batches of any size, and whenever the host crashes:
/// some world that can be reached has this disk, these clients and all that has left.
pub fn batches_are_worlds()
    ensures { (w : HostWorld) → IsReached w → BatchesAreWorlds w }
{}

/// So no two clients hold incompatible parts at one point, each scan that a client answers from its
/// cache is that range of the index on the disk, and each numbered write changed that at most
/// once, and once if its client received Applied.
pub fn headline()
    ensures { (w : HostWorld) → IsReached w → Headline w.world }
{}

/// And if the host crashed after any number of the notes that wait, it would hold of the index
/// then. So a scan's rows are also that range of the index that the server has in memory.
pub fn holds_ahead()
    ensures { (w : HostWorld) → IsReached w → HoldsAhead w }
{}

/// A host that evicts a client is such a host: the Hello and the Bye that it makes for it are those
/// of an incarnation that starts and leaves at once.
pub fn evictions_are_moves()
    ensures { EvictionsAreMoves }
{}

/// On no message that has left a client does the server in memory report Alarm.
pub fn never_alarms()
    ensures { (w : HostWorld) → IsReached w → NeverAlarms w }
{}

/// These laws are not empty: an insert is judged in memory that is not on the disk and of which
/// nobody has learned; and if it is kept, its client learns that it is Applied. And of a batch of
/// three changes two are kept before a crash, and the third never happened.
pub fn goes_on()
    ensures ahead { JudgesAhead }
    ensures parts { KeepsInParts }
{}
