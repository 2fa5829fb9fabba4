//! A write that seizes the lock that it needs, if that is free.
ghost use Rattle.std.specs.Prelude.{◌≡◌, ◌<◌, true, IsSomeAnd, if◌then◌else◌};
ghost use Rattle.krl_modes.specs.declared.point.TheConstants.{END};
ghost use Rattle.krl_modes.specs.declared.limits.TheConstants.{MAX_CLIENTS};
ghost use Rattle.krl_messages.specs.declared.outcome.Outcome.TheVariants.{Applied};
ghost use Rattle.krl_messages.specs.Writes.{op_key};
ghost use Rattle.krl_durable.specs.Registers.{record_of};
ghost use Rattle.krl_server.specs.StateMeaning.{meaning};
ghost use Rattle.krl_server.specs.FoundCases.{IsFormed};
ghost use Rattle.krl_server.specs.Soundness.{IsSound};
ghost use Rattle.krl_server.specs.Cases.{judged};
ghost use Rattle.krl_server.specs.Effects.{seizes, writes};
ghost use Rattle.krl_server.specs.Seizing.{least_mode, lock_for, may_seize};

use crate::state::State;
use krl_messages::{Outcome, WriteOp};
use krl_modes::{Mode, Point};
use krl_queue::Waiter;

/// The least mode that lets the write be applied.
fn least_mode(op: WriteOp) -> Mode
    ensures { result ≡ least_mode op }
{
    match op {
        WriteOp::Insert { .. } => Mode::RangeIN,
        WriteOp::Put { .. } => Mode::X,
        WriteOp::Delete { .. } => Mode::RangeXX,
    }
}

/// The lock on the slot of the write's key, as a waiter would ask for it.
fn lock_for(client: u64, op: WriteOp) -> Waiter
    requires { op_key op < END }
    ensures { result ≡ lock_for client op }
{
    // Copies: the prover takes a value that is handed on as moved.
    let (keyed, asked) = (*&op, *&op);
    let key = keyed.key();
    Waiter {
        client,
        req: 0,
        point: Point::new(key).unwrap(),
        hi: key + 1,
        mode: least_mode(asked),
    }
}

impl State {
    /// Whether the write is applied once the client has the lock that it needs, and that is free.
    fn may_seize(&self, client: u64, op: WriteOp) -> bool
        requires client { client < MAX_CLIENTS }
        requires key { op_key op < END }
        ensures { result ≡ may_seize (meaning self.now) client op }
    {
        // Copies: the prover takes a value that is handed on as moved.
        let (sought, judged, keyed, locked) = (*&op, *&op, *&op, *&op);
        if !sought.can_seize() {
            return false;
        }
        let Outcome::Applied = self.durable.judge(judged, true) else {
            return false;
        };
        let slot = self.durable.slot_of(keyed.key());
        self.table.is_open_to(slot, &lock_for(client, locked))
    }

    /// Gives the client the lock that its write needs, which is free. It takes no memory.
    fn seize(&mut self, client: u64, op: WriteOp)
        requires formed { IsFormed self.old }
        requires client { client < MAX_CLIENTS }
        requires key { op_key op < END }
        requires free { may_seize (meaning self.old) client op ≡ true }
        ensures seizes { meaning self.new ≡ seizes (meaning self.old) client op }
        ensures formed { IsFormed self.new }
    {
        // Copies: the prover takes a value that is handed on as moved.
        let (keyed, locked) = (*&op, *&op);
        let slot = self.durable.slot_of(keyed.key());
        let waiter = lock_for(client, locked);
        self.table.raise(&self.durable, slot, &waiter);
    }

    /// The client's next write, done and noted: with the lock that it needs, if that is free and the
    /// write is applied with it, and otherwise with what the client holds. It takes no memory.
    pub(crate) fn write_with_lock(&mut self, client: u64, op: WriteOp) -> Outcome
        requires formed { IsFormed self.old }
        requires sound { IsSound (meaning self.old) }
        requires client { client < MAX_CLIENTS }
        requires key { op_key op < END }
        requires unspent { IsSomeAnd (record_of self.old.durable.register client)
            (λ r. r.last < END) }
        ensures outcome { result ≡ (if may_seize (meaning self.old) client op
            then Applied else judged (meaning self.old) client op) }
        ensures writes { meaning self.new ≡ (if may_seize (meaning self.old) client op
            then writes (seizes (meaning self.old) client op) client op Applied
            else writes (meaning self.old) client op (judged (meaning self.old) client op)) }
        ensures formed { IsFormed self.new }
    {
        // Copies: the prover takes a value that is handed on as moved.
        let (asked, sought) = (*&op, *&op);
        if self.may_seize(client, asked) {
            self.seize(client, sought);
        }
        self.write(client, op)
    }
}
