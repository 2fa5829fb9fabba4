//! Laws of systems whose clients have leases: of worlds of one server, of the host of one server,
//! and of any number of hosts over one store.
ghost use Rattle.krl_world_laws.specs.Systems.{worlds, hosts, fenced_hosts};
ghost use Rattle.krl_world_laws.specs.Leases.Laws.{ScansAreIndex, WorldsAreReached};
ghost use Rattle.krl_world_laws.specs.Leases.Evictions.{EvictionsAreRuns};

/// What a process reads, and hands over after a check of its lease, is that range of the index that
/// survives at the moment when it was read: even if the process runs on after its eviction, of
/// which it knows nothing.
pub fn scans_are_index()
    ensures of_worlds { ScansAreIndex worlds }
    ensures of_hosts { ScansAreIndex hosts }
    ensures of_fenced_hosts { ScansAreIndex fenced_hosts }
{}

/// Each world in which leases end and clients are evicted is one that the system's own moves lead
/// to, an eviction being the client's crash: so all that is promised of such worlds holds of it.
pub fn worlds_are_reached()
    ensures of_worlds { WorldsAreReached worlds }
    ensures of_hosts { WorldsAreReached hosts }
    ensures of_fenced_hosts { WorldsAreReached fenced_hosts }
{}

/// Whenever an incarnation's lease has ended, events of one world, with its host and its leases,
/// lead to its eviction: a Hello and a Bye have left, as if a later incarnation had started and
/// left at once.
pub fn evictions_are_runs()
    ensures { EvictionsAreRuns }
{}
