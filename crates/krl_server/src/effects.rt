//! What each case makes of the state.
ghost use Rattle.std.specs.Prelude.{◌≡◌, ◌<◌, ◌≤◌, false, length, IsSome, IsSomeAnd};
ghost use Rattle.std.specs.Prelude.{IfOk, OnOk, OnErr, if◌then◌else◌};
ghost use Rattle.krl_modes.specs.declared.point.TheConstants.{END};
ghost use Rattle.krl_messages.specs.Writes.{op_key};
ghost use Rattle.krl_durable.specs.Registers.{IsIncarnation, record_of};
ghost use Rattle.krl_table.specs.Reports.{conflicts};
ghost use Rattle.krl_table.specs.Sound.{IsTable};
ghost use Rattle.krl_server.specs.StateMeaning.{meaning};
ghost use Rattle.krl_server.specs.FoundCases.{IsFormed};
ghost use Rattle.krl_server.specs.Outboxes.{Sends};
ghost use Rattle.krl_table.specs.Waiters.{WaitsNowhere};
ghost use Rattle.krl_durable.specs.Writes.{index_after};
ghost use Rattle.krl_table.specs.KeptRows.{IsOver};
ghost use Rattle.krl_server.specs.Cases.{judged};
ghost use Rattle.krl_server.specs.Effects.{rows_after, registers, departs, adopts, acknowledged};
ghost use Rattle.krl_server.specs.Effects.{lowers};
ghost use Rattle.krl_server.specs.Effects.{queues, writes, tells_outcome};
ghost use Rattle.krl_modes.specs.declared.limits.TheConstants.{MAX_CLIENTS};

use crate::out::Outbox;
use crate::state::State;
use krl_messages::{Outcome, Pieces, PushBody, WriteOp};
use krl_modes::{Mode, Point, Span};
use krl_queue::WaitNode;
use krl_table::{in_order, is_in_order};
use std::alloc::{AllocError, Global};

impl State {
    /// Registers a new incarnation of the client: nothing that the one before held or waited for
    /// stays.
    ///
    /// # Errors
    ///
    /// `AllocError` if the memory for a new client is refused. Nothing has changed then.
    pub(crate) fn register(&mut self, client: u64, incarnation: u64) -> Result<(), AllocError>
        requires formed { IsFormed self.old }
        requires client { client < MAX_CLIENTS }
        requires incarnation { IsIncarnation incarnation }
        ensures registers { OnOk result
            (meaning self.new ≡ registers (meaning self.old) client incarnation) }
        ensures formed { OnOk result (IsFormed self.new) }
        ensures refused { OnErr result (self.new ≡ self.old) }
    {
        self.durable.register(client, incarnation)?;
        self.table.clear(client);
        self.sessions.clear(client);
        self.missing.remove(client);
        Ok(())
    }

    /// The client has left: it holds nothing, no longer waits, and nobody waits for its report.
    pub(crate) fn depart(&mut self, client: u64)
        requires formed { IsFormed self.old }
        requires client { client < MAX_CLIENTS }
        requires known { IsSome (record_of self.old.durable.register client) }
        ensures departs { meaning self.new ≡ departs (meaning self.old) client }
        ensures formed { IsFormed self.new }
    {
        self.durable.leave(client);
        self.table.clear(client);
        self.missing.remove(client);
    }

    /// Takes a missing client's report, unless it contradicts what others hold: then it answers
    /// `true`, and nothing has changed. A report in no order is brought into order first, since the
    /// table would read all of it for each slot.
    ///
    /// # Errors
    ///
    /// `AllocError` if the memory for a report in order is refused. Nothing has changed then.
    pub(crate) fn report(
        &mut self,
        alloc: Global,
        client: u64,
        pieces: &Pieces,
    ) -> Result<bool, AllocError>
        requires formed { IsFormed self.old }
        requires client { client < MAX_CLIENTS }
        ensures contradicts { IfOk result (λ contradicts. contradicts
            ≡ conflicts self.old.durable.index (meaning self.old).rows client pieces.now) }
        ensures adopts { IfOk result (λ contradicts. meaning self.new
            ≡ (if contradicts then meaning self.old
            else adopts (meaning self.old) client pieces.now)) }
        ensures formed { OnOk result (IsFormed self.new) }
        ensures refused { OnErr result (self.new ≡ self.old) }
    {
        if is_in_order(pieces) {
            return Ok(self.adopt_report(client, pieces));
        }
        let ordered = in_order(alloc, pieces)?;
        Ok(self.adopt_report(client, &ordered))
    }

    /// Takes the report as it stands, unless it contradicts what others hold: then it answers
    /// `true`, and nothing has changed.
    fn adopt_report(&mut self, client: u64, pieces: &Pieces) -> bool
        requires formed { IsFormed self.old }
        requires client { client < MAX_CLIENTS }
        ensures contradicts { result
            ≡ conflicts self.old.durable.index (meaning self.old).rows client pieces.now }
        ensures adopts { meaning self.new
            ≡ (if result then meaning self.old else adopts (meaning self.old) client pieces.now) }
        ensures formed { IsFormed self.new }
    {
        let adopted = self.table.adopt_report(&self.durable, client, pieces);
        if adopted.is_err() {
            return true;
        }
        self.missing.remove(client);
        false
    }

    /// The last push counts as acknowledged, and the client's modes on the span are lowered.
    pub(crate) fn lower(&mut self, client: u64, span: Span, keep: Mode)
        requires formed { IsFormed self.old }
        requires client { client < MAX_CLIENTS }
        ensures lowers { meaning self.new
            ≡ lowers (acknowledged (meaning self.old) client) client span keep }
        ensures formed { IsFormed self.new }
    {
        self.acknowledge(client);
        self.table.lower(&self.durable, client, span, keep);
    }

    /// The last push counts as acknowledged, and a lock request is taken.
    pub(crate) fn enqueue(&mut self, node: WaitNode)
        requires formed { IsFormed self.old }
        requires client { node.client < MAX_CLIENTS }
        requires free { WaitsNowhere (meaning self.old).rows node.client }
        ensures queues { meaning self.new
            ≡ queues (acknowledged (meaning self.old) node.client) node }
        ensures formed { IsFormed self.new }
    {
        let waiter = node.waiter();
        self.note_request(waiter.client, waiter.req);
        self.table.enqueue(&self.durable, node);
    }

    /// Judges the client's next write, and does and notes it. It takes no memory.
    pub(crate) fn write(&mut self, client: u64, op: WriteOp) -> Outcome
        requires formed { IsFormed self.old }
        requires client { client < MAX_CLIENTS }
        requires key { op_key op < END }
        requires unspent { IsSomeAnd (record_of self.old.durable.register client)
            (λ r. r.last < END) }
        ensures outcome { result ≡ judged (meaning self.old) client op }
        ensures writes { meaning self.new ≡ writes (meaning self.old) client op result }
        ensures formed { IsFormed self.new }
    {
        // Copies: the prover takes a value that is handed on as moved.
        let (needed, judged, slots) = (*&op, *&op, *&op);
        let held = self.table.held(&self.durable, client, needed);
        let outcome = self.durable.judge(judged, held);
        self.change_slots(client, slots, outcome);
        let _outcome = self.durable.apply(client, op, held);
        outcome
    }

    /// An insert that is applied makes a slot, and a delete takes one away. It takes no memory.
    fn change_slots(&mut self, client: u64, op: WriteOp, outcome: Outcome)
        requires formed { IsFormed self.old }
        requires client { client < MAX_CLIENTS }
        requires key { op_key op < END }
        requires judged { judged (meaning self.old) client op ≡ outcome }
        ensures rows { (meaning self.new).rows
            ≡ rows_after self.old.durable.index (meaning self.old).rows client op outcome }
        ensures slots { IsOver (index_after self.old.durable.index op outcome) self.new.table.map }
        ensures room { self.new.table.room ≡ self.old.table.room }
        ensures rest { self.new ≡ record self.old { table = self.new.table } }
    {
        if let Outcome::Applied = outcome {
            match op {
                WriteOp::Insert { key, value: _ } => {
                    let key = Point::new(key).unwrap();
                    self.table.split(&self.durable, key, client);
                }
                WriteOp::Put { .. } => {}
                WriteOp::Delete { key } => self.table.merge(&self.durable, key),
            }
        }
    }

    /// Answers a write, with what the client holds now on the slot of its key.
    pub(crate) fn answer_write(
        &mut self,
        client: u64,
        number: u64,
        op: WriteOp,
        outcome: Outcome,
        outbox: &mut Outbox,
    )
        requires formed { IsFormed self.old }
        requires client { client < MAX_CLIENTS }
        requires key { op_key op < END }
        requires room { length outbox.old.sent < outbox.old.room }
        ensures server { meaning self.new
            ≡ (tells_outcome (meaning self.old) client number op outcome).server }
        ensures sent { Sends outbox.old outbox.new
            (tells_outcome (meaning self.old) client number op outcome).outs }
        ensures formed { IsFormed self.new }
    {
        let slot = self.durable.slot_of(op.key());
        let holding = self.holding(slot, client);
        // Copies: the prover takes a value that is handed on as moved.
        let (first, second) = (*&holding, *&holding);
        let (judged, told) = (*&outcome, *&outcome);
        let kept = PushBody::Answer {
            number,
            outcome: judged,
            holding: first,
        };
        let body = PushBody::Answer {
            number,
            outcome: told,
            holding: second,
        };
        self.push(client, kept, body, outbox);
    }
}
