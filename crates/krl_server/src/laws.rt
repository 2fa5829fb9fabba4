//! What holds of every server, whatever is sent to it: each function's contract is a law, and its
//! body is empty.
ghost use Rattle.krl_server.specs.Termination.{StepsEnd};
ghost use Rattle.krl_server.specs.Invariant.{ServerKeeps};
ghost use Rattle.krl_server.specs.Replays.{ChangesReplay};
ghost use Rattle.krl_server.specs.Outputs.{ServerSays};
ghost use Rattle.krl_server.specs.Ranges.{ServerWithin};

/// Whatever message comes, each step of a server keeps it sound, its table and its register in
/// order, and leaves no waiter that could be answered.
pub fn server_keeps()
    ensures { ServerKeeps }
{}

/// Each message to a server has one outcome, each answer is to a client that no longer waits, a
/// step or nudge sends at most 4,097 messages, and after a step that serves there is nobody to
/// answer.
pub fn steps_end()
    ensures { StepsEnd }
{}

/// Only a Hello, a Bye or a new write changes what survives a restart. Callbacks go to the clients
/// that block a first waiter, and to no other. Each answer to a waiter is one push, with the next
/// number.
pub fn server_says()
    ensures { ServerSays }
{}

/// A host that begins with what survived, writes down the change that each step reports and, at
/// each start, the next epoch, has what survives: after every step and every start.
pub fn changes_replay()
    ensures { ChangesReplay }
{}

/// The numbers of a server stay within END, its index within its room, and its register and
/// the missing within the number of clients, each of them once. A client that waits or is missing
/// is registered and has not left.
pub fn server_within()
    ensures { ServerWithin }
{}
