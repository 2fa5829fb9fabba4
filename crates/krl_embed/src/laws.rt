//! What holds of every run of the exports: each function's contract is a law, and its body is
//! empty.
ghost use Rattle.krl_embed.specs.Calls.{CallsAreMoves};
ghost use Rattle.krl_embed.specs.ClientCalls.{ClientCallsAreSteps};
ghost use Rattle.krl_embed.specs.Kept.{ChangesAreKept};

/// A host that keeps the changes that the steps of its server report, in their order, has what
/// survives, at every moment. A server that is opened on what was kept has it, at the next epoch.
pub fn changes_are_kept()
    ensures { ChangesAreKept }
{}

/// Each call on a server is a move of its host in a world of hosts, or none: what it sends waits
/// until all that it rests on is kept, by the host's word.
pub fn calls_are_moves()
    ensures { CallsAreMoves }
{}

/// Each call on a client is a step of its host's client, or none: what it sends waits until the
/// client's incarnation is kept, by the host's word.
pub fn client_calls_are_steps()
    ensures { ClientCallsAreSteps }
{}
