//! Laws of scans that take time: of worlds of one server, of the host of one server, and of any
//! number of hosts over one store. And of reads of rows without a lock.
ghost use Rattle.krl_world_laws.specs.Systems.{worlds, hosts, fenced_hosts};
ghost use Rattle.krl_world_laws.specs.Readers.{ScansLast};
ghost use Rattle.krl_world_laws.specs.Lockless.{SparesPinsOfWorlds, SparesPinsOfHosts};

/// A scan that reads a client's cache while other threads work has a beginning and an end. If no
/// call changes the client meanwhile, its rows are that range of the index that survives at each
/// moment from the one to the other. So the message by which the client gives something up leaves
/// after each scan that could see it.
pub fn scans_last()
    ensures of_worlds { ScansLast worlds }
    ensures of_hosts { ScansLast hosts }
    ensures of_fenced_hosts { ScansLast fenced_hosts }
{}

/// If a server finds that a client would get each slot of a range at once to read it, no other
/// client holds anything there by which it could write or insert. So who reads the rows then takes
/// no lock, and returns none that another client has pinned to write.
pub fn reads_spare_pins()
    ensures of_worlds { SparesPinsOfWorlds }
    ensures of_hosts { SparesPinsOfHosts }
{}
