//! Whatever a client or the server does is some steps of the protocol's machine.
#![tactic(auto)]

ghost use Rattle.krl_refinement.specs.Client.Simulation.{StartShows, CrashShows, CommandsShow};
ghost use Rattle.krl_refinement.specs.Client.Simulation.{TicksShow, MessagesShow};
ghost use Rattle.krl_refinement.specs.Server.Simulation.{ServerFollows};

/// A client's start is some steps of its link in the machine.
pub fn client_starts()
    ensures { StartShows }
{}

/// So is its crash.
pub fn client_crashes()
    ensures { CrashShows }
{}

/// So is each command that it does not refuse.
pub fn client_commands()
    ensures { CommandsShow }
{}

/// So is a tick.
pub fn client_ticks()
    ensures { TicksShow }
{}

/// So is each message to it that was ever sent.
pub fn client_messages()
    ensures { MessagesShow }
{}

/// Each step of a server, on a message that was sent, is some steps of the machine, and so
/// are its nudges, its crash and its start. On such a message it never reports Alarm; on one that
/// nobody sent it may.
pub fn server_follows()
    ensures { ServerFollows }
{}
