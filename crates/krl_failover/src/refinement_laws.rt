//! The store's server, old servers and the clients over a fenced store, as their code is:
//! whatever they do is some steps of the machine of many servers. Each function has an empty
//! body: its contract is a theorem.
ghost use Rattle.krl_failover.specs.Follows.{ClientsFollow, StoreFollows};
ghost use Rattle.krl_failover.specs.OldServers.{OldFollow};

/// Whatever old servers have done: each step of the store's server on a message that was sent is
/// some steps of the machine and raises no alarm, and so is each nudge of it, and each start that
/// fences it.
pub fn store_follows()
    ensures { StoreFollows }
{}

/// And so is whatever a client does.
pub fn clients_follow()
    ensures { ClientsFollow }
{}

/// And so is whatever an old server does that changes nothing that survives: each step on a message
/// that was sent, and each nudge. The store's server and all other old servers show as before.
pub fn old_follow()
    ensures { OldFollow }
{}
