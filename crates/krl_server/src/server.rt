//! The server, as a host runs it.
ghost use Rattle.std.specs.Prelude.{◌≡◌, ◌<◌, ◌≤◌, ℕ, false, [], length, MatchOption, MatchResult};
ghost use Rattle.std.specs.Prelude.{IfOk, OnErr};
ghost use Rattle.krl_durable.specs.Registers.{not_left};
ghost use Rattle.krl_durable.specs.Changes.{IsChange};
ghost use Rattle.krl_table.specs.Rows.{blank_row};
ghost use Rattle.krl_table.specs.Kept.{rows_of};
ghost use Rattle.krl_table.specs.KeptRows.{IsOver};
ghost use Rattle.krl_server.specs.Servers.{blank_session, is_recovering};
ghost use Rattle.krl_server.specs.Settled.{phase_of};
ghost use Rattle.krl_server.specs.Answering.{AnswersWaiters};
ghost use Rattle.krl_server.specs.Steps.{nudge, crash};
ghost use Rattle.krl_server.specs.Termination.{max_messages};
ghost use Rattle.krl_server.specs.StateMeaning.{meaning, sessions_of};
ghost use Rattle.krl_server.specs.CodeSteps.{IsStarted, IsNotStarted, HasStepped, IsServer};
ghost use Rattle.krl_server.specs.Outputs.{may_change_durable, HasCallbacks, AnswersWrite};
ghost use Rattle.krl_server.specs.Outputs.{PushesStand};
ghost use Rattle.krl_server.specs.Waits.{waiter_of, waited_for, HoldsNoMore, IsNextHolding};
ghost use Rattle.krl_server.specs.Waits.{may_read};
ghost use Rattle.krl_table.specs.Holds.{HoldsAt};
ghost use Rattle.krl_modes.specs.declared.limits.TheConstants.{MAX_CLIENTS};

use crate::grant_rooms::GrantRooms;
use crate::missing::Missing;
use crate::out::ServerOut;
use crate::phase::Phase;
use crate::sessions::Sessions;
use crate::start_refused::{NotStarted, ServerNotStarted};
use crate::state::State;
use arrayvec::ArrayVec;
use krl_durable::Durable;
use krl_messages::{Holding, Items, ToClient, ToServer};
use krl_modes::{END, MAX_CLIENTS, Point};
use krl_queue::Waiter;
use krl_table::Table;
use std::alloc::{AllocError, Global};
use std::marker::Model;

/// A server between two steps.
///
/// This holds of every server, whatever is sent to it. The table's rows stand at keys of the index,
/// or at END. The modes of different clients on one slot are compatible. Each waiter stands in the
/// queue of the slot of its point, is the only one of its client, and its client is registered and
/// has not left. Each missing client is registered, has not left, and is missing once. Push numbers
/// are at most END. While the server serves, no first waiter can be answered.
pub struct Server {
    state: State,
    rooms: GrantRooms,
}

impl Drop for Server {
    fn drop(self) {
        let Server {
            state: _state,
            rooms: _rooms,
        } = self;
    }
}

impl Model for Server {
    ghost use Rattle.krl_server.specs.declared.state.State.{State};
    ghost use Rattle.krl_server.specs.contracts.state.State as kept;
    ghost use Rattle.krl_server.specs.GrantRooms.{IsRoomed};

    ghost Value = { State };

    ghost coded = { kept.the_row.coded };

    ghost view = { λ s. s.state };

    ghost invariant = { λ s. IsRoomed s.state s.rooms };
}

// What a start takes memory for.
fn parts_of(
    alloc: Global,
    durable: &Durable,
) -> Result<(Table, Sessions, Missing, GrantRooms), AllocError>
    ensures rows { IfOk result (λ parts. (n : ℕ) → rows_of parts.0.map n ≡ blank_row) }
    ensures slots { IfOk result (λ parts. IsOver durable.now.index parts.0.map) }
    ensures room { IfOk result (λ parts. durable.now.room < parts.0.room) }
    ensures full { IfOk result (λ parts. length parts.1 ≡ MAX_CLIENTS) }
    ensures blank { IfOk result (λ parts. (c : ℕ) → sessions_of parts.1 c ≡ blank_session) }
    ensures missing { IfOk result (λ parts. parts.2 ≡ not_left durable.now.register) }
    ensures rooms { IfOk result (λ parts. length parts.3 ≡ MAX_CLIENTS) }
{
    // By its clause `kept` the prover knows what holds of all that survives.
    let _kept = durable.epoch();
    let clients = durable.not_left(alloc)?;
    let sessions = Sessions::blank(alloc)?;
    let table = Table::new(alloc, durable.room())?;
    let rooms = GrantRooms::none(alloc)?;
    Ok((table, sessions, Missing::new(clients), rooms))
}

impl Server {
    /// Starts a server on what survived: the epoch rises by one, nobody holds anything, and every
    /// client that is registered and has not left is missing. Nothing else of what survived
    /// changes: a host that keeps it in a store of its own writes down the new epoch.
    ///
    /// # Errors
    ///
    /// `NotStarted`, with what survived unchanged: `Spent` if the epoch is END, otherwise
    /// `OutOfMemory` if memory is refused.
    pub fn start(alloc: Global, durable: Durable) -> Result<Server, NotStarted>
        ensures { MatchResult result (λ s. IsStarted durable (meaning s)) (IsNotStarted durable) }
    {
        if durable.epoch() >= END {
            return Err(NotStarted {
                refused: ServerNotStarted::Spent,
                durable,
            });
        }
        match parts_of(alloc, &durable) {
            Ok((table, sessions, missing, rooms)) => {
                let mut durable = durable;
                durable.next_epoch();
                Ok(Server {
                    state: State {
                        durable,
                        table,
                        sessions,
                        missing,
                    },
                    rooms,
                })
            }
            Err(_) => Err(NotStarted {
                refused: ServerNotStarted::OutOfMemory,
                durable,
            }),
        }
    }

    /// Takes a message, whoever sent it.
    ///
    /// Whatever comes of it, only a Hello, a Bye or a new write changes what survives, and `change`
    /// reports how. A host that keeps what survives in a store of its own writes that down before
    /// it sends the messages.
    ///
    /// A write that is answered, for the first time or again, is answered first of all, by one push
    /// with the next number; by none if the numbers are spent. Each push that is sent is the last
    /// one to its client, which has to acknowledge it before the next. If the message was acted
    /// upon, a Release apart, and the server serves then, the clients that block a first waiter are
    /// called back, and no other ever is.
    ///
    /// A report's pieces may come in any order, and overlap. They are brought into order first if
    /// they are in none, which takes the time of a sort and memory in proportion to the report.
    ///
    /// # Errors
    ///
    /// `AllocError` if memory is refused. Nothing has changed then, and nothing is sent.
    pub fn step(&mut self, alloc: Global, message: &ToServer) -> Result<ServerOut, AllocError>
        ensures stepped { IfOk result
            (λ out. HasStepped (meaning self.old) message.now (meaning self.new) out) }
        ensures durable { may_change_durable (meaning self.old) message.now ≡ false
            → (meaning self.new).durable ≡ (meaning self.old).durable }
        ensures change { IfOk result (λ out.
            IsChange (meaning self.old).durable (meaning self.new).durable out.change) }
        ensures callbacks { IfOk result (λ out.
            HasCallbacks (meaning self.old) message.now (meaning self.new) out.messages) }
        ensures answers { IfOk result (λ out.
            AnswersWrite (meaning self.old) message.now (meaning self.new) out.messages) }
        ensures pushes { IfOk result (λ out. PushesStand (meaning self.new) out.messages) }
        ensures few { IfOk result (λ out. length out.messages ≤ max_messages) }
        ensures refused { OnErr result (self.new ≡ self.old) }
    {
        self.state.step(alloc, message, &mut self.rooms)
    }

    /// What is sent to move a client that seems stuck: while the server recovers, the epoch to a
    /// missing client; while it serves, the client's push that is not acknowledged, otherwise the
    /// callbacks to those that block it if it waits first; and nothing to any other. It changes
    /// nothing, and answers nobody: while the server serves, no waiter is left that could be
    /// answered.
    ///
    /// # Errors
    ///
    /// `AllocError` if the list's memory is refused.
    pub fn nudge(&self, alloc: Global, client: u64) -> Result<Items<ToClient>, AllocError>
        ensures sent { IfOk result (λ outs. outs ≡ nudge (meaning self.now) client) }
        ensures nobody { is_recovering (meaning self.now).missing ≡ false
            → AnswersWaiters (meaning self.now) (meaning self.now) [] }
        ensures few { IfOk result (λ outs. length outs ≤ max_messages) }
    {
        self.state.nudge(alloc, client)
    }

    /// What survives a crash. It takes no memory.
    pub fn crash(self) -> Durable
        ensures { result ≡ crash (meaning self) }
    {
        let Server { state, rooms: _ } = self;
        let State {
            durable,
            table: _,
            sessions: _,
            missing: _,
        } = state;
        durable
    }

    /// What would survive a crash. It takes no memory.
    pub fn durable(&self) -> &Durable
        ensures { result.now ≡ (meaning self.now).durable }
    {
        &self.state.durable
    }

    /// Whether the server recovers: it still waits for reports. It takes no memory. The clause
    /// `every` states what holds of every server.
    pub fn phase(&self) -> Phase
        ensures phase { result ≡ phase_of (meaning self.now).missing }
        ensures every { IsServer self.now }
    {
        if self.state.missing.is_recovering() {
            Phase::Recovering
        } else {
            Phase::Serving
        }
    }

    /// The clients that are missing, in order of first registration.
    ///
    /// # Errors
    ///
    /// `AllocError` if the list's memory is refused.
    pub fn missing(&self, alloc: Global) -> Result<Items<u64>, AllocError>
        ensures { IfOk result (λ clients. clients ≡ (meaning self.now).missing) }
    {
        let clients = self.state.missing.to_vec(alloc)?;
        Ok(Items::from(clients))
    }

    /// How the client waits; None if it does not. It takes no memory.
    pub fn waiter_of(&self, client: u64) -> Option<Waiter>
        requires { client < MAX_CLIENTS }
        ensures { result ≡ waiter_of (meaning self.now) client }
    {
        self.state.waiter_of(client)
    }

    /// The clients that the client waits for, in ascending order: at the slot at which it waits,
    /// those that wait before it, and those that hold what is not compatible with what it wants.
    /// Nobody if it does not wait, or if it waits for a push of its own to be acknowledged,
    /// or, while the server recovers, only for the missing. It takes no memory.
    pub fn waited_for(&self, client: u64) -> ArrayVec<u64, MAX_CLIENTS>
        requires { client < MAX_CLIENTS }
        ensures { result.items ≡ waited_for (meaning self.now) client }
    {
        self.state.waited_for(client)
    }

    /// At how many slots the client holds a mode other than N. It looks at all rows that the table
    /// keeps, and takes no memory.
    pub fn held_slots(&self, client: u64) -> u64
        requires { client < MAX_CLIENTS }
        ensures { HoldsAt (meaning self.now).rows client result }
    {
        self.state.table.held_slots(client)
    }

    /// What the client holds on the first slot from this point on where its mode is not N: the
    /// slot's span, the mode, and the entry's value if the mode reads it. None if there is no
    /// such slot. So a caller that begins at 0, and continues at the span's end each time, sees all
    /// that the client holds. It looks at the rows that the table keeps from the point on as far as
    /// that slot, and takes no memory.
    pub fn next_holding(&self, client: u64, from: u64) -> Option<Holding>
        requires { client < MAX_CLIENTS }
        ensures { MatchOption result (HoldsNoMore (meaning self.now) client from)
            (IsNextHolding (meaning self.now) client from) }
    {
        self.state.next_holding(client, from)
    }

    /// Whether the client would get the slot at once to read it: the server serves, nobody waits
    /// there, and what all others hold there lets it be read. It takes no memory, and changes
    /// nothing.
    pub fn may_read(&self, client: u64, slot: Point) -> bool
        requires { client < MAX_CLIENTS }
        ensures { result ≡ may_read (meaning self.now) client slot }
    {
        self.state.may_read(client, slot)
    }
}
