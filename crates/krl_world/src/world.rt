//! The world, as its callers see it.
ghost use Rattle.std.specs.Prelude.{◌≡◌, length, IfOk, OnErr, MatchResult};
ghost use Rattle.std.specs.Option.{option_copied};
ghost use Rattle.std.specs.FinMap as map;
ghost use Rattle.krl_blocks.specs.Laid.{flat};
ghost use Rattle.krl_blocks.specs.Runs.{runs_of};
ghost use Rattle.krl_durable.specs.Migrations.{migrated};
ghost use Rattle.krl_world.specs.States.{index_of, opened, fresh, range_held, key_held};
ghost use Rattle.krl_world.specs.Steps.{Steps, RunsWith, CanBegin, CannotBegin, CanOpen};
ghost use Rattle.krl_world.specs.Steps.{CannotOpenV1, IsReachable, IsReachedByRun, message_at};
ghost use Rattle.krl_world.specs.Promises.{IsCompatible, ScansIndex, WritesOnce, CanGoOn};
ghost use Rattle.krl_world.specs.Bounds.{Bound, HasBound, IsBounded, HoldsOverRestarts};
ghost use Rattle.krl_world.specs.Fields.{meaning};
ghost use Rattle.krl_world.specs.FieldParts.{server_up, kept_client};

use crate::message::Message;
use crate::world_fields::WorldFields;
use krl_blocks::Entries;
use krl_client::Client;
use krl_durable::DurableV1;
use krl_messages::Value;
use krl_modes::{KeyPart, RangePart};
use krl_server::Server;
use krl_steps::{Answer, AppliedWrite, Refused, Step};
use std::alloc::{AllocError, Global};
use std::marker::Model;

/// One server with its index, up to 64 clients, and every message between them.
pub struct World {
    fields: WorldFields,
}

impl Drop for World {
    fn drop(self) {
        let World { fields: _fields } = self;
    }
}

impl Model for World {
    ghost use Rattle.krl_world.specs.Fields.{KeptWorld, meaning};
    ghost use Rattle.krl_world.specs.Steps.{IsReachedByRun};
    ghost use Rattle.krl_world.specs.contracts.world_fields.WorldFields as kept_fields;

    ghost Value = { KeptWorld };

    ghost coded = { kept_fields.the_row.coded };

    ghost view = { λ w. w.fields };

    ghost invariant = { λ w. IsReachedByRun (meaning w.fields) };
}

impl World {
    /// A world with these entries, each a key and its value, in any order. Nothing has happened in
    /// it: its server runs, in epoch 1, and no client.
    ///
    /// # Errors
    ///
    /// `Full` above 65,536 entries; otherwise the first bad entry in order, by `BadKey` if its key
    /// is END or more, or by `Twice` if its key stands before; and `OutOfMemory` at any point.
    pub fn new(alloc: Global, entries: Vec<(u64, Value)>) -> Result<World, Refused>
        ensures { MatchResult result
            (λ w. CanBegin entries.items × (meaning w ≡ fresh entries.items))
            (CannotBegin entries.items) }
    {
        let fields = WorldFields::new(alloc, entries)?;
        Ok(World { fields })
    }

    /// A world that begins with what survived when values were numbers: the same keys, epoch,
    /// register and records, each value its eight bytes. Nothing has happened in it: its server
    /// runs, in the next epoch, and no client. Each client's greatest incarnation is the registered
    /// one, or 0.
    ///
    /// # Errors
    ///
    /// `StillRegistered`, with the first by registration, if some registered client has not
    /// left;
    /// `Spent` if the epoch is END; and `OutOfMemory` at any point.
    pub fn migrate(alloc: Global, old: &DurableV1) -> Result<World, Refused>
        ensures { MatchResult result
            (λ w. CanOpen (migrated old.now) × (meaning w ≡ opened (migrated old.now)))
            (CannotOpenV1 old.now) }
    {
        let fields = WorldFields::migrate(alloc, old)?;
        Ok(World { fields })
    }

    /// Takes one step. The rows that answer a scan are the entries of the index in its span, though
    /// the client reads only its own cache.
    ///
    /// # Errors
    ///
    /// A step that is refused changes nothing. The first reason in this order counts:
    /// - `BadClient` if a client number is above 63, `NoMessage` if no message of the number
    ///   was sent;
    /// - `Down` if the client or server of the step does not run, `Running` if the one that
    ///   is to start runs;
    /// - `Spent` if there is no incarnation or epoch for a start; what the client refuses of a
    ///   command;
    /// - `OutOfMemory` if the step takes memory, and it was refused.
    pub fn step(&mut self, step: Step) -> Result<Answer, Refused>
        ensures steps { Steps (meaning self.old) step result (meaning self.new) }
        ensures compatible { IsCompatible (meaning self.new) }
        ensures scans { ScansIndex (index_of (meaning self.old)) step result }
        ensures writes { WritesOnce (meaning self.new) }
        ensures bounded { (b : Bound) → HasBound (meaning self.new) b
            → IsBounded (meaning self.new) b }
        ensures restarts { (b : Bound) → HasBound (meaning self.new) b
            → HoldsOverRestarts (meaning self.new) b }
        ensures reachable { IsReachable (meaning self.new) }
        ensures by_run { IsReachedByRun (meaning self.new) }
        ensures goes_on { CanGoOn (meaning self.new) }
    {
        self.fields.step(step)
    }

    /// Takes steps one after another, and gives what each answered, refusals too. Each step keeps
    /// what [`World::step`] promises; what is promised of the last world of a run is stated here
    /// too.
    ///
    /// # Errors
    ///
    /// `AllocError` if the memory for the answers is refused. No step was taken then.
    pub fn run(
        &mut self,
        alloc: Global,
        steps: &[Step],
    ) -> Result<Vec<Result<Answer, Refused>>, AllocError>
        ensures runs { IfOk result
            (λ answers. RunsWith (meaning self.old) steps.now answers.items (meaning self.new)) }
        ensures no_step { OnErr result (self.new ≡ self.old) }
        ensures compatible { IsCompatible (meaning self.new) }
        ensures writes { WritesOnce (meaning self.new) }
        ensures reachable { IsReachable (meaning self.new) }
        ensures by_run { IsReachedByRun (meaning self.new) }
    {
        // What holds of every world is known if its field is named.
        let _ = &self.fields;
        let mut answers = Vec::with_capacity(alloc, steps.len())?;
        for step in steps {
            answers.push_reserved(self.step(*step));
        }
        Ok(answers)
    }

    /// The entries of the index, in key order, as runs that lie side by side, whether a server runs
    /// or not. It takes no memory.
    pub fn index(&self) -> Entries<'_, Value>
        ensures { flat (runs_of result) ≡ map.entries (index_of (meaning self.now)) }
    {
        self.fields.index()
    }

    /// The server, if one runs.
    pub fn server(&self) -> Option<&Server>
        ensures { option_copied result ≡ server_up self.now.server }
    {
        self.fields.server()
    }

    /// The writes that were Applied, oldest first.
    pub fn writes(&self) -> &[AppliedWrite]
        ensures { result.now ≡ self.now.writes }
    {
        self.fields.writes()
    }

    /// The client of this number, if one runs: none does above 63.
    pub fn client(&self, client: u64) -> Option<&Client>
        ensures { option_copied result ≡ kept_client self.now.places client }
    {
        self.fields.client(client)
    }

    /// What the client believes that it holds at the point: N and N if it does not run, and past
    /// END.
    pub fn held(&self, client: u64, point: u64) -> (RangePart, KeyPart)
        ensures { let world = meaning self.now in
            result ≡ (range_held world client point, key_held world client point) }
    {
        self.fields.held(client, point)
    }

    /// How many messages were sent.
    pub fn sent(&self) -> u64
        ensures { result ≡ length self.now.sent }
    {
        self.fields.sent()
    }

    /// The message of this number, counted from 1 in the order in which they were sent; None if
    /// none of it was sent. It takes no memory.
    pub fn message(&self, number: u64) -> Option<&Message>
        ensures { option_copied result ≡ message_at self.now.sent number }
    {
        self.fields.message(number)
    }
}
