//! A step: a message is judged and done, and each waiter that can be answered is.
ghost use Rattle.std.specs.Prelude.{◌≡◌, ◌≤◌, ◌<◌, ◌+◌, [], length, IfOk, OnOk, OnErr};
ghost use Rattle.krl_server.specs.StateMeaning.{meaning};
ghost use Rattle.krl_server.specs.FoundCases.{meant, case_of_pieces, IsFormed};
ghost use Rattle.krl_table.specs.Sound.{IsTable};
ghost use Rattle.krl_server.specs.Soundness.{IsSound};
ghost use Rattle.krl_server.specs.Cases.{case_of};
ghost use Rattle.krl_server.specs.Changes.{change_of};
ghost use Rattle.krl_server.specs.CodeSteps.{waiting_clients};
ghost use Rattle.krl_server.specs.CodeSteps.{room_for, own_of, IsPerformed, HasPerformed, HasRoom};
ghost use Rattle.krl_server.specs.CodeSteps.{HasFinished, HasStepped, IsServer};
ghost use Rattle.krl_server.specs.GrantRooms.{HasGrantRooms, HasRoomFor};
ghost use Rattle.krl_modes.specs.declared.limits.TheConstants.{MAX_CLIENTS};

use crate::case::{After, Case, Performed};
use crate::grant_room::slots_asked;
use crate::grant_rooms::GrantRooms;
use crate::out::{Outbox, ServerOut};
use crate::state::State;
use krl_durable::Change;
use krl_messages::{ToServer, ToServerBody};
use krl_modes::MAX_CLIENTS;
use krl_queue::{WaitNode, Waiter};
use std::alloc::{AllocError, Global};

impl State {
    /// How many clients wait.
    pub(crate) fn count_waiting(&self) -> usize
        requires { IsFormed self.now }
        ensures count { result ≡ waiting_clients (meaning self.now) }
        ensures few { result ≤ MAX_CLIENTS }
    {
        if self.table.nobody_waits() {
            return 0;
        }
        let mut count = 0;
        for client in 0..MAX_CLIENTS as u64 {
            if self.waits(client) {
                count += 1;
            }
        }
        count
    }

    /// How many messages a step can send: its own, an answer to each waiter, and a callback to each
    /// other client for each that still waits.
    fn room(&self, case: &Case) -> usize
        requires { IsFormed self.now }
        ensures { result ≡ room_for (waiting_clients (meaning self.now)) case.now }
    {
        match *case {
            Case::Ignored => 0,
            Case::Tells | Case::Repeats => 1,
            Case::Lowers { .. } => self.count_waiting(),
            Case::Leaves | Case::Reports | Case::Acknowledges => MAX_CLIENTS * self.count_waiting(),
            Case::Registers
            | Case::Judges { .. }
            | Case::SeizesLock { .. }
            | Case::AnswersAgain { .. } => 1 + MAX_CLIENTS * self.count_waiting(),
            Case::Waits { .. } => MAX_CLIENTS * (self.count_waiting() + 1),
        }
    }

    /// Takes the report that a missing client makes, or reports Alarm.
    ///
    /// # Errors
    ///
    /// `AllocError` if memory is refused. Nothing has changed then.
    fn take_report(&mut self, alloc: Global, message: &ToServer) -> Result<After, AllocError>
        requires formed { IsFormed self.old }
        requires case { case_of_pieces (meaning self.old) message.now.client message.now.body
            ≡ case_of (meaning self.old) message.now }
        ensures performed { IfOk result (λ after. IsPerformed (meaning self.old) message.now
            (meaning self.new) after []) }
        ensures formed { OnOk result (IsFormed self.new) }
        ensures refused { OnErr result (self.new ≡ self.old) }
    {
        match &message.body {
            ToServerBody::Report { epoch: _, pieces } => {
                if self.report(alloc, message.client, pieces)? {
                    Ok(After::Alarm)
                } else {
                    Ok(After::Calls)
                }
            }
            ToServerBody::Hello | ToServerBody::Bye | ToServerBody::Request(_) => {
                Ok(After::Nothing)
            }
        }
    }

    /// Does what the case asks for.
    ///
    /// # Errors
    ///
    /// `AllocError` if memory is refused. Nothing has changed then.
    fn perform(
        &mut self,
        alloc: Global,
        message: &ToServer,
        case: &Case,
        outbox: &mut Outbox,
    ) -> Result<Performed, AllocError>
        requires server { IsServer self.old }
        requires case { meant (meaning self.old) message.now.client message.now.body case.now
            ≡ case_of (meaning self.old) message.now }
        requires room { length outbox.old.sent + own_of case.now ≤ outbox.old.room }
        ensures performed { IfOk result (λ done. HasPerformed
            (meaning self.old) message.now (meaning self.new) done.after outbox.old outbox.new) }
        ensures change { IfOk result
            (λ done. done.change ≡ change_of message.now (case_of (meaning self.old) message.now)) }
        ensures formed { OnOk result (IsFormed self.new) }
        ensures refused { OnErr result (self.new ≡ self.old) }
    {
        let client = message.client;
        match *case {
            Case::Ignored => Ok(After::Nothing.unchanging()),
            Case::Registers => {
                let incarnation = message.incarnation;
                self.register(client, incarnation)?;
                outbox.send(self.epoch_to(client));
                let registered = Change::Registered {
                    client,
                    incarnation,
                };
                Ok(After::Calls.changing(registered))
            }
            Case::Leaves => {
                self.depart(client);
                Ok(After::Calls.changing(Change::Left { client }))
            }
            Case::Tells => {
                outbox.send(self.epoch_to(client));
                Ok(After::Nothing.unchanging())
            }
            Case::Reports => Ok(self.take_report(alloc, message)?.unchanging()),
            Case::Repeats => {
                let again = self.push_again(alloc, client)?;
                outbox.send_some(again);
                Ok(After::Nothing.unchanging())
            }
            Case::Acknowledges => {
                self.acknowledge(client);
                Ok(After::Calls.unchanging())
            }
            Case::Lowers { span, keep } => {
                self.lower(client, span, keep);
                Ok(After::Answers.unchanging())
            }
            Case::Waits {
                req,
                point,
                hi,
                mode,
            } => {
                let node = WaitNode::try_new(
                    alloc,
                    Waiter {
                        client,
                        req,
                        point,
                        hi,
                        mode,
                    },
                )?;
                self.enqueue(node);
                Ok(After::Calls.unchanging())
            }
            Case::Judges { number, op } => {
                // Copies: the prover takes a value that is handed on as moved.
                let (written, answered) = (*&op, *&op);
                let outcome = self.write(client, written);
                self.acknowledge(client);
                self.answer_write(client, number, answered, outcome, outbox);
                let judged = Change::Judged {
                    client,
                    number,
                    op,
                    outcome,
                };
                Ok(After::Calls.changing(judged))
            }
            Case::SeizesLock { number, op } => {
                // Copies: the prover takes a value that is handed on as moved.
                let (written, answered) = (*&op, *&op);
                let outcome = self.write_with_lock(client, written);
                self.acknowledge(client);
                self.answer_write(client, number, answered, outcome, outbox);
                let judged = Change::Judged {
                    client,
                    number,
                    op,
                    outcome,
                };
                Ok(After::Calls.changing(judged))
            }
            Case::AnswersAgain {
                number,
                op,
                outcome,
            } => {
                self.acknowledge(client);
                self.answer_write(client, number, op, outcome, outbox);
                Ok(After::Calls.unchanging())
            }
        }
    }

    /// One step.
    ///
    /// # Errors
    ///
    /// `AllocError` if memory is refused. Nothing has changed then, and nothing is sent.
    pub(crate) fn step(
        &mut self,
        alloc: Global,
        message: &ToServer,
        rooms: &mut GrantRooms,
    ) -> Result<ServerOut, AllocError>
        requires server { IsServer self.old }
        requires rooms { HasGrantRooms (meaning self.old) rooms.old }
        ensures rooms { HasGrantRooms (meaning self.new) rooms.new }
        ensures stepped { IfOk result
            (λ out. HasStepped (meaning self.old) message.now (meaning self.new) out) }
        ensures formed { OnOk result (IsFormed self.new) }
        ensures refused { OnErr result (self.new ≡ self.old) }
    {
        let case = self.case_of(message);
        match self.step_at_once(alloc, message, &case)? {
            Some(out) => Ok(out),
            None => self.step_through_queue(alloc, message, &case, rooms),
        }
    }

    /// Room for the grant of the client that comes to wait by this case, if one does.
    ///
    /// # Errors
    ///
    /// `AllocError` if memory is refused.
    fn reserve_room(
        &self,
        alloc: Global,
        message: &ToServer,
        case: &Case,
        rooms: &mut GrantRooms,
    ) -> Result<(), AllocError>
        requires case { meant (meaning self.now) message.now.client message.now.body case.now
            ≡ case_of (meaning self.now) message.now }
        requires rooms { HasGrantRooms (meaning self.now) rooms.old }
        ensures rooms { HasGrantRooms (meaning self.now) rooms.new }
        ensures room { OnOk result
            (HasRoomFor (meaning self.now) message.now.client case.now rooms.new) }
    {
        let Case::Waits {
            req: _,
            point,
            hi,
            mode: _,
        } = *case
        else {
            return Ok(());
        };
        rooms.reserve(alloc, message.client, slots_asked(&self.durable, point, hi))
    }

    /// One step of this case: it is done, and then each waiter that can be answered is.
    ///
    /// # Errors
    ///
    /// `AllocError` if memory is refused. Nothing has changed then, and nothing is sent.
    fn step_through_queue(
        &mut self,
        alloc: Global,
        message: &ToServer,
        case: &Case,
        rooms: &mut GrantRooms,
    ) -> Result<ServerOut, AllocError>
        requires server { IsServer self.old }
        requires case { meant (meaning self.old) message.now.client message.now.body case.now
            ≡ case_of (meaning self.old) message.now }
        requires rooms { HasGrantRooms (meaning self.old) rooms.old }
        ensures rooms { HasGrantRooms (meaning self.new) rooms.new }
        ensures stepped { IfOk result
            (λ out. HasStepped (meaning self.old) message.now (meaning self.new) out) }
        ensures formed { OnOk result (IsFormed self.new) }
        ensures refused { OnErr result (self.new ≡ self.old) }
    {
        let mut outbox = Outbox::new(alloc, self.room(case))?;
        self.reserve_room(alloc, message, case, rooms)?;
        let done = self.perform(alloc, message, case, &mut outbox)?;
        self.finish(done.after, rooms, &mut outbox);
        Ok(ServerOut {
            messages: outbox.into_items(),
            alarm: done.after.alarm(message.client),
            change: done.change,
        })
    }

    /// Does what is left to be done, while the server serves: it answers all waiters that can be
    /// answered, and calls back the clients that block others.
    fn finish(&mut self, after: After, rooms: &mut GrantRooms, outbox: &mut Outbox)
        requires formed { IsFormed self.old }
        requires sound { IsSound (meaning self.old) }
        requires table { IsTable self.old.durable.index (meaning self.old).rows }
        requires room { HasRoom (meaning self.old) after outbox.old }
        requires rooms { HasGrantRooms (meaning self.old) rooms.old }
        ensures rooms { HasGrantRooms (meaning self.new) rooms.new }
        ensures finished { HasFinished (meaning self.old) after
            (meaning self.new) outbox.old outbox.new }
        ensures formed { IsFormed self.new }
    {
        if !after.answers() {
            return;
        }
        if self.missing.is_recovering() {
            return;
        }
        let slots = self.table.waiting_slots(&self.durable);
        self.answer_waiters(slots.as_slice(), rooms, outbox);
        if !after.calls_back() {
            return;
        }
        self.call_back(slots.as_slice(), outbox);
    }
}
