//! What a world keeps, and how each step changes it.
ghost use Rattle.std.specs.Prelude.{◌≡◌, suc, ◌<◌, ℕ, [], length, slice_get};
ghost use Rattle.std.specs.Prelude.{IfOk, MatchResult, Some};
ghost use Rattle.std.specs.Option.{option_copied};
ghost use Rattle.std.specs.FinMap as map;
ghost use Rattle.krl_blocks.specs.Laid.{flat};
ghost use Rattle.krl_blocks.specs.Runs.{runs_of};
ghost use Rattle.krl_messages.specs.declared.to_server.ToServer.{ToServer};
ghost use Rattle.krl_world.specs.declared.message.Message.TheVariants as sent_message;
ghost use Rattle.krl_steps.specs.declared.step.Step.TheVariants as steps;
ghost use Rattle.krl_durable.specs.Registers.{not_left};
ghost use Rattle.krl_durable.specs.Migrations.{migrated};
ghost use Rattle.krl_world.specs.States.{index_of, unused, opened, fresh, range_held, key_held};
ghost use Rattle.krl_world.specs.Steps.{Steps, CanBegin, CannotBegin, CanOpen, CannotOpen};
ghost use Rattle.krl_world.specs.Steps.{CannotOpenV1, message_at};
ghost use Rattle.krl_world.specs.Fields.{meaning};
ghost use Rattle.krl_world.specs.FieldParts.{server_up, kept_client, AreUnstarted};
ghost use Rattle.krl_modes.specs.declared.limits.TheConstants.{MAX_CLIENTS};

use crate::message::Message;
use crate::node::{ClientPlace, ServerPlace, not_started};
use crate::{client_steps, server_steps};
use krl_blocks::Entries;
use krl_client::Client;
use krl_durable::{Durable, DurableV1};
use krl_messages::{ToClient, Value};
use krl_modes::{KeyPart, MAX_CLIENTS, RangePart};
use krl_server::{NotStarted, Server};
use krl_steps::{Answer, AppliedWrite, Command, Refused, Step};
use std::alloc::{AllocError, Global};
use std::marker::Model;

/// The server, the clients, every message ever sent, and the writes that were Applied.
#[derive(Drop)]
pub struct WorldFields {
    alloc: Global,
    // What the world began with.
    opening: Durable,
    // There is one but within a step that moves it.
    server: Option<ServerPlace>,
    // By client number: 64.
    places: Vec<ClientPlace>,
    sent: Vec<Message>,
    writes: Vec<AppliedWrite>,
}

impl Model for WorldFields {
    ghost use Rattle.std.specs.Coded.{codes};
    ghost use Rattle.krl_durable.specs.contracts.durable.Durable as durable;
    ghost use Rattle.krl_world.specs.contracts.node.ServerPlace as server_node;
    ghost use Rattle.krl_world.specs.contracts.node.ClientPlace as place;
    ghost use Rattle.krl_world.specs.contracts.message.Message as message;
    ghost use Rattle.krl_steps.specs.contracts.applied_write.AppliedWrite as applied_write;
    ghost use Rattle.krl_world.specs.Fields.{KeptWorld};
    ghost use Rattle.krl_world.specs.FieldParts.{server_there, AreThere};

    ghost Value = { KeptWorld };

    ghost coded = { Prim.hlevel (
      codes,
      durable.the_row.coded,
      server_node.the_row.coded,
      place.the_row.coded,
      message.the_row.coded,
      applied_write.the_row.coded,
    ) };

    ghost view = { λ n. record {
      opening = n.opening;
      server = server_there n.server;
      places = n.places.items;
      sent = n.sent.items;
      writes = n.writes.items;
    } };

    ghost invariant = { λ n. AreThere n.server n.places.items };
}

/// The places of 64 clients, none of which was started since this survived.
fn places_of_nobody(alloc: Global, durable: &Durable) -> Result<Vec<ClientPlace>, AllocError>
    ensures { IfOk result (λ places. AreUnstarted durable.now MAX_CLIENTS places.items) }
{
    let mut places = Vec::with_capacity(alloc, MAX_CLIENTS)?;
    for number in 0..MAX_CLIENTS as u64 {
        places.push(ClientPlace::unstarted(durable, number))?;
    }
    Ok(places)
}

impl WorldFields {
    /// A world with these entries, in which nothing has happened: its server runs, and no client.
    pub(crate) fn new(alloc: Global, entries: Vec<(u64, Value)>) -> Result<WorldFields, Refused>
        ensures { MatchResult result
            (λ w. CanBegin entries.items × CanOpen (unused entries.items)
            × (meaning w ≡ fresh entries.items))
            (CannotBegin entries.items) }
    {
        let opening = Durable::new(alloc, entries.as_slice())?;
        let durable = Durable::new(alloc, entries.as_slice())?;
        match WorldFields::open(alloc, opening, durable) {
            Ok(fields) => Ok(fields),
            Err(_) => Err(Refused::OutOfMemory),
        }
    }

    /// A world that begins with what survived when values were numbers.
    pub(crate) fn migrate(alloc: Global, old: &DurableV1) -> Result<WorldFields, Refused>
        ensures { MatchResult result
            (λ w. CanOpen (migrated old.now) × (meaning w ≡ opened (migrated old.now)))
            (CannotOpenV1 old.now) }
    {
        let opening = Durable::migrate(alloc, old)?;
        let durable = Durable::migrate(alloc, old)?;
        WorldFields::open(alloc, opening, durable)
    }

    /// A world that begins with what survived, which is handed to it twice: it keeps the one, and
    /// starts its server from the other. Nothing has happened since then.
    pub(crate) fn open(
        alloc: Global,
        opening: Durable,
        durable: Durable,
    ) -> Result<WorldFields, Refused>
        requires same { durable ≡ opening }
        requires left { not_left opening.register ≡ [] }
        ensures { MatchResult result
            (λ w. CanOpen opening × (meaning w ≡ opened opening))
            (CannotOpen opening) }
    {
        // By its clause `kept` the prover knows what holds of all that survives.
        opening.epoch();
        let places = places_of_nobody(alloc, &opening)?;
        match Server::start(alloc, durable) {
            Ok(server) => Ok(WorldFields {
                alloc,
                opening,
                server: Some(ServerPlace::Up(server)),
                places,
                sent: Vec::new(alloc),
                writes: Vec::new(alloc),
            }),
            Err(NotStarted { refused, .. }) => Err(not_started(refused)),
        }
    }

    /// One step.
    pub(crate) fn step(&mut self, step: Step) -> Result<Answer, Refused>
        ensures { Steps (meaning self.old) step result (meaning self.new) }
    {
        match step {
            Step::Deliver(number) => self.deliver(number),
            Step::Command(client, what) => self.command(client, what),
            Step::Tick(client) => self.tick(client),
            Step::Nudge(client) => self.nudge(client),
            Step::StartClient(client) => self.start_client(client),
            Step::CrashClient(client) => self.crash_client(client),
            Step::StartServer => self.start_server(),
            Step::CrashServer => self.crash_server(),
        }
    }

    fn deliver(&mut self, number: u64) -> Result<Answer, Refused>
        ensures { Steps (meaning self.old) (steps.Deliver number) result (meaning self.new) }
    {
        if number == 0 || number > self.sent.len() as u64 {
            return Err(Refused::NoMessage);
        }
        let at = (number - 1) as usize;
        match &self.sent[at] {
            Message::ToServer(_) => self.deliver_to_server(at),
            Message::ToClient(message) => {
                let client = message.client;
                self.deliver_to_client(client, at)
            }
        }
    }

    fn deliver_to_server(&mut self, at: usize) -> Result<Answer, Refused>
        requires { at < length self.old.sent }
        ensures { (m : ToServer) → slice_get self.old.sent at ≡ Some (sent_message.ToServer m)
            → Steps (meaning self.old) (steps.Deliver (suc at)) result (meaning self.new) }
    {
        let Some(node) = &mut self.server else {
            return Ok(Answer::Done);
        };
        server_steps::arrive(self.alloc, node, &mut self.sent, &mut self.writes, at)?;
        Ok(Answer::Done)
    }

    fn deliver_to_client(&mut self, number: u64, at: usize) -> Result<Answer, Refused>
        requires { at < length self.old.sent }
        ensures { (m : ToClient) → slice_get self.old.sent at ≡ Some (sent_message.ToClient m)
            → m.client ≡ number
            → Steps (meaning self.old) (steps.Deliver (suc at)) result (meaning self.new) }
    {
        if number >= self.places.len() as u64 {
            return Ok(Answer::Done);
        }
        let Some(client) = &mut self.places[number as usize].client else {
            return Ok(Answer::Done);
        };
        client_steps::read_sent(client, &mut self.sent, at)?;
        Ok(Answer::Done)
    }

    fn command(&mut self, number: u64, what: Command) -> Result<Answer, Refused>
        ensures { Steps (meaning self.old) (steps.Command number what) result (meaning self.new) }
    {
        if number >= MAX_CLIENTS as u64 {
            return Err(Refused::BadClient);
        }
        client_steps::obey(&mut self.places[number as usize], &mut self.sent, what)
    }

    fn tick(&mut self, number: u64) -> Result<Answer, Refused>
        ensures { Steps (meaning self.old) (steps.Tick number) result (meaning self.new) }
    {
        if number >= MAX_CLIENTS as u64 {
            return Err(Refused::BadClient);
        }
        let Some(client) = &self.places[number as usize].client else {
            return Err(Refused::Down);
        };
        client_steps::tick(client, &mut self.sent)?;
        Ok(Answer::Done)
    }

    fn nudge(&mut self, number: u64) -> Result<Answer, Refused>
        ensures { Steps (meaning self.old) (steps.Nudge number) result (meaning self.new) }
    {
        if number >= MAX_CLIENTS as u64 {
            return Err(Refused::BadClient);
        }
        let Some(node) = &self.server else {
            return Err(Refused::Down);
        };
        let ServerPlace::Up(server) = node else {
            return Err(Refused::Down);
        };
        server_steps::nudge(self.alloc, server, &mut self.sent, number)?;
        Ok(Answer::Done)
    }

    fn start_client(&mut self, number: u64) -> Result<Answer, Refused>
        ensures { Steps (meaning self.old) (steps.StartClient number) result (meaning self.new) }
    {
        if number >= MAX_CLIENTS as u64 {
            return Err(Refused::BadClient);
        }
        client_steps::start(
            self.alloc,
            &mut self.places[number as usize],
            &mut self.sent,
            number,
        )?;
        Ok(Answer::Done)
    }

    fn crash_client(&mut self, number: u64) -> Result<Answer, Refused>
        ensures { Steps (meaning self.old) (steps.CrashClient number) result (meaning self.new) }
    {
        if number >= MAX_CLIENTS as u64 {
            return Err(Refused::BadClient);
        }
        match self.places[number as usize].client.take() {
            Some(_) => Ok(Answer::Done),
            None => Err(Refused::Down),
        }
    }

    fn start_server(&mut self) -> Result<Answer, Refused>
        ensures { Steps (meaning self.old) steps.StartServer result (meaning self.new) }
    {
        let Some(node) = self.server.take() else {
            return Err(Refused::Running);
        };
        let (node, outcome) = node.start(self.alloc);
        self.server = Some(node);
        outcome
    }

    fn crash_server(&mut self) -> Result<Answer, Refused>
        ensures { Steps (meaning self.old) steps.CrashServer result (meaning self.new) }
    {
        let Some(node) = self.server.take() else {
            return Err(Refused::Down);
        };
        let (node, outcome) = node.crash();
        self.server = Some(node);
        outcome
    }

    /// The entries of the index, in key order, as runs that lie side by side.
    pub(crate) fn index(&self) -> Entries<'_, Value>
        ensures { flat (runs_of result) ≡ map.entries (index_of (meaning self.now)) }
    {
        self.server.as_ref().unwrap().durable().entries()
    }

    /// The server, if one runs.
    pub(crate) fn server(&self) -> Option<&Server>
        ensures { option_copied result ≡ server_up self.now.server }
    {
        match &self.server {
            Some(ServerPlace::Up(server)) => Some(server),
            _ => None,
        }
    }

    /// The writes that were Applied, oldest first.
    pub(crate) fn writes(&self) -> &[AppliedWrite]
        ensures { result.now ≡ self.now.writes }
    {
        self.writes.as_slice()
    }

    /// The client of this number, if one runs.
    pub(crate) fn client(&self, number: u64) -> Option<&Client>
        ensures { option_copied result ≡ kept_client self.now.places number }
    {
        if number >= self.places.len() as u64 {
            return None;
        }
        self.places[number as usize].client.as_ref()
    }

    /// What the client believes that it holds at the point.
    pub(crate) fn held(&self, number: u64, point: u64) -> (RangePart, KeyPart)
        ensures { let world = meaning self.now in
            result ≡ (range_held world number point, key_held world number point) }
    {
        match self.client(number) {
            Some(client) => client.held(point),
            None => (RangePart::N, KeyPart::N),
        }
    }

    /// How many messages were sent.
    pub(crate) fn sent(&self) -> u64
        ensures { result ≡ length self.now.sent }
    {
        self.sent.len() as u64
    }

    /// The message of this number, counted from 1.
    pub(crate) fn message(&self, number: u64) -> Option<&Message>
        ensures { option_copied result ≡ message_at self.now.sent number }
    {
        if number == 0 || number > self.sent.len() as u64 {
            return None;
        }
        Some(&self.sent[(number - 1) as usize])
    }
}
