//! The places at which a server and a client run.
ghost use Rattle.std.specs.Prelude.{◌≡◌};
ghost use Rattle.krl_steps.specs.declared.step.Step.TheVariants as steps;
ghost use Rattle.krl_world.specs.Fields.{KeptWorld, meaning, node_of};
ghost use Rattle.krl_world.specs.FieldParts.{kept_unstarted};
ghost use Rattle.krl_world.specs.States.{durable_of};
ghost use Rattle.krl_world.specs.Steps.{Steps};
ghost use Rattle.krl_world.specs.PlaceSteps.{refused_by_server};

use krl_client::Client;
use krl_durable::Durable;
use krl_server::{NotStarted, Server, ServerNotStarted};
use krl_steps::{Answer, Refused};
use std::alloc::Global;

/// Why a server does not start, by its name in a world.
pub(crate) fn not_started(refused: ServerNotStarted) -> Refused
    ensures { result ≡ refused_by_server refused }
{
    match refused {
        ServerNotStarted::OutOfMemory => Refused::OutOfMemory,
        ServerNotStarted::Spent => Refused::Spent,
    }
}

/// A server that runs, or what the last one left.
pub enum ServerPlace {
    /// It runs.
    Up(Server),
    /// None runs: this survives.
    Down(Durable),
}

impl Drop for ServerPlace {
    fn drop(self) {
        match self {
            ServerPlace::Up(_server) => {}
            ServerPlace::Down(_durable) => {}
        }
    }
}

impl ServerPlace {
    /// A server starts on what the last one left, unless one runs.
    pub fn start(self, alloc: Global) -> (ServerPlace, Result<Answer, Refused>)
        ensures { (w : KeptWorld) → w.server ≡ self → Steps (meaning w) steps.StartServer result.1
            (meaning (record w { server = result.0 })) }
    {
        match self {
            ServerPlace::Up(server) => (ServerPlace::Up(server), Err(Refused::Running)),
            ServerPlace::Down(durable) => match Server::start(alloc, durable) {
                Ok(server) => (ServerPlace::Up(server), Ok(Answer::Done)),
                Err(NotStarted { refused, durable }) => {
                    (ServerPlace::Down(durable), Err(not_started(refused)))
                }
            },
        }
    }

    /// The server stops, if one runs.
    pub fn crash(self) -> (ServerPlace, Result<Answer, Refused>)
        ensures { (w : KeptWorld) → w.server ≡ self → Steps (meaning w) steps.CrashServer result.1
            (meaning (record w { server = result.0 })) }
    {
        match self {
            ServerPlace::Up(server) => (ServerPlace::Down(server.crash()), Ok(Answer::Done)),
            ServerPlace::Down(durable) => (ServerPlace::Down(durable), Err(Refused::Down)),
        }
    }

    /// What would survive now: of the server that runs, or of the last one.
    pub fn durable(&self) -> &Durable
        ensures { result.now ≡ durable_of (node_of self.now) }
    {
        match self {
            ServerPlace::Up(server) => server.durable(),
            ServerPlace::Down(durable) => durable,
        }
    }

    /// What survives: of the server that runs, or of the last one.
    pub fn into_durable(self) -> Durable
        ensures { result ≡ durable_of (node_of self) }
    {
        match self {
            ServerPlace::Up(server) => server.crash(),
            ServerPlace::Down(durable) => durable,
        }
    }
}

/// A client's number: its greatest incarnation so far, and the client if it runs.
#[derive(Drop)]
pub struct ClientPlace {
    /// The greatest incarnation with which a client of this number was started, or 0.
    pub last_incarnation: u64,
    /// The client, if one runs.
    pub client: Option<Client>,
}

impl ClientPlace {
    /// No client of this number was started since this survived.
    pub(crate) fn unstarted(durable: &Durable, number: u64) -> ClientPlace
        ensures { result ≡ kept_unstarted durable.now number }
    {
        let last_incarnation = match durable.record(number) {
            Some(record) => record.incarnation,
            None => 0,
        };
        ClientPlace {
            last_incarnation,
            client: None,
        }
    }
}
