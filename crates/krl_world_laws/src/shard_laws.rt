//! Laws of scans over several servers. Where a law names systems, each shard has a world of that
//! system.
ghost use Rattle.krl_world_laws.specs.Systems.{worlds, hosts, fenced_hosts};
ghost use Rattle.krl_world_laws.specs.Shards.Scans.{ScanOfAll, ScanMeanwhile, TogetherIsUnion};
ghost use Rattle.krl_world_laws.specs.Shards.Scans.{SomeTogether};
ghost use Rattle.krl_world_laws.specs.Shards.Held.{held_worlds, held_hosts, held_fenced_hosts};
ghost use Rattle.krl_world_laws.specs.Shards.Held.{ScanWhileHeld};
ghost use Rattle.krl_world_laws.specs.Shards.Pushes.{ScanWithoutPushes};
ghost use Rattle.krl_world_laws.specs.Shards.Leased.{ScanWithLeases};
ghost use Rattle.krl_world_laws.specs.Shards.Somewhere.{ScansBothSomewhere, HandsOverSomewhere};

/// A scan over shards that is answered from caches only is that range of all the shards' indexes
/// together, at the moment when it is made: for any worlds of these shards, in each of which its
/// client answers the part of the scan that the shard has.
pub fn scan_of_all()
    ensures of_worlds { ScanOfAll worlds }
    ensures of_hosts { ScanOfAll hosts }
    ensures of_fenced_hosts { ScanOfAll fenced_hosts }
{}

/// So it is if the parts were read one after another, as long as none of these clients changed:
/// the rows are that range of all indexes together at each moment meanwhile.
pub fn scan_meanwhile()
    ensures of_worlds { ScanMeanwhile worlds }
    ensures of_hosts { ScanMeanwhile hosts }
    ensures of_fenced_hosts { ScanMeanwhile fenced_hosts }
{}

/// So it is while these clients are held: while each takes no message and no command but scans,
/// and doesn't tick, start or crash, whatever the servers and all other clients do.
pub fn scan_while_held()
    ensures of_worlds { ScanWhileHeld held_worlds }
    ensures of_hosts { ScanWhileHeld held_hosts }
    ensures of_fenced_hosts { ScanWhileHeld held_fenced_hosts }
{}

/// Only a push that a client accepts matters: if the parts are read one after another, and no
/// part's client accepts one between the first part's scan and its own, the rows are that range of
/// all indexes together at the moment of the first scan. Meanwhile the clients may obey callbacks
/// and commands, tick, crash and start.
pub fn scan_without_pushes()
    ensures of_worlds { ScanWithoutPushes worlds }
    ensures of_hosts { ScanWithoutPushes hosts }
    ensures of_fenced_hosts { ScanWithoutPushes fenced_hosts }
{}

/// And so it is with leases: a process that holds its client of each shard, reads all parts, and
/// checks each client's lease after it has read that part, hands over that range of all indexes
/// together at the moment from which on it held them. Meanwhile leases may end, clients be evicted
/// and servers replaced, of which it knows nothing.
pub fn scan_with_leases()
    ensures of_worlds { ScanWithLeases worlds }
    ensures of_hosts { ScanWithLeases hosts }
    ensures of_fenced_hosts { ScanWithLeases fenced_hosts }
{}

/// The indexes together are their union if each has keys of its own shard only.
pub fn together_is_union()
    ensures { TogetherIsUnion }
{}

/// There is an index of all shards together.
pub fn some_together()
    ensures { SomeTogether }
{}

/// Some worlds of two shards answer a scan of both from caches only, and it gives an entry.
pub fn scans_both_somewhere()
    ensures { ScansBothSomewhere }
{}

/// And some process that has leases at two shards hands an entry over.
pub fn hands_over_somewhere()
    ensures { HandsOverSomewhere }
{}
