//! The row of a slot.
ghost use Rattle.std.specs.Prelude.{◌≡◌, ◌||◌, ◌↔◌, ℕ, true, ◌<◌, [], length, nat_eq, IfSome};
ghost use Rattle.krl_modes.specs.Modes.{range_of, compatible, meet};
ghost use Rattle.krl_modes.specs.declared.mode.Mode.TheVariants as mode;
ghost use Rattle.krl_queue.specs.Turns.{without_first};
ghost use Rattle.krl_table.specs.Calls.{queue_with, split_modes, mode_beside, wanted, with_mode};
ghost use Rattle.krl_table.specs.Calls.{grant_first};
ghost use Rattle.krl_table.specs.Kept.{mode_of, row_of};
ghost use Rattle.krl_table.specs.Rows.{blank_row, all_below, is_compatible_in_row};
ghost use Rattle.krl_table.specs.Rows.{set_mode};
ghost use Rattle.krl_table.specs.Waiters.{front_of};
ghost use Rattle.krl_table.specs.FirstReplies.{row_reply};
ghost use Rattle.krl_modes.specs.declared.limits.TheConstants.{MAX_CLIENTS};
ghost use Rattle.krl_modes.specs.Constants.{max_clients};

use crate::reply::{self, Reply};
use krl_modes::{KeyPart, MAX_CLIENTS, Mode, RangePart};
use krl_queue::{WaitList, WaitNode, Waiter};

/// What is kept of a slot where somebody holds or waits.
#[derive(Drop)]
pub struct SlotRow {
    /// The mode of each client there.
    pub(crate) modes: [Mode; MAX_CLIENTS],
    /// The waiters there.
    pub(crate) queue: WaitList,
}

impl SlotRow {
    /// A row in which nobody holds anything, and nobody waits. It takes no memory.
    pub(crate) fn blank() -> SlotRow
        ensures { row_of result ≡ blank_row }
    {
        SlotRow {
            modes: [Mode::N; MAX_CLIENTS],
            queue: WaitList::new(),
        }
    }

    /// Whether nobody holds anything there, and nobody waits.
    pub(crate) fn is_blank(&self) -> bool
        ensures { (result ≡ true) ↔ (row_of self.now ≡ blank_row) }
    {
        self.queue.is_empty() && all_are_n(&self.modes)
    }

    /// Whether nobody but the client holds anything there, and nobody waits.
    pub(crate) fn is_blank_beside(&self, client: u64) -> bool
        requires { client < MAX_CLIENTS }
        ensures { (result ≡ true) ↔ (with_mode (row_of self.now) client mode.N ≡ blank_row) }
    {
        let mut modes = self.all_modes();
        modes[client as usize] = Mode::N;
        self.queue.is_empty() && all_are_n(&modes)
    }

    /// The client's mode.
    pub(crate) fn mode(&self, client: u64) -> Mode
        requires { client < MAX_CLIENTS }
        ensures { result ≡ mode_of self.now.modes client }
    {
        self.modes[client as usize]
    }

    /// The mode of each client.
    pub(crate) fn all_modes(&self) -> [Mode; MAX_CLIENTS]
        ensures modes { result ≡ self.now.modes }
        ensures full { length self.now.modes ≡ MAX_CLIENTS }
    {
        self.modes
    }

    /// The client has this mode from now on.
    pub(crate) fn set(&mut self, client: u64, mode: Mode)
        requires { client < MAX_CLIENTS }
        ensures { row_of self.new ≡ with_mode (row_of self.old) client mode }
    {
        self.modes[client as usize] = mode;
    }

    /// Lowers the client's mode to this one.
    pub(crate) fn lower(&mut self, client: u64, keep: Mode)
        requires { client < MAX_CLIENTS }
        ensures { row_of self.new
            ≡ with_mode (row_of self.old) client (meet (mode_of self.old.modes client) keep) }
    {
        let kept = self.mode(client).meet(keep);
        self.set(client, kept);
    }

    /// The client holds nothing, and its first waiter goes.
    pub(crate) fn clear(&mut self, client: u64)
        requires { client < MAX_CLIENTS }
        ensures modes { row_of self.new
            ≡ record {
              modes = set_mode (mode_of self.old.modes) client mode.N;
              queue = without_first client self.old.queue;
            } }
    {
        self.set(client, Mode::N);
        let _waiter = self.queue.remove_client(client);
    }

    /// Puts the waiter after all others, or before them if its client holds a mode.
    pub(crate) fn enqueue(&mut self, node: WaitNode)
        requires { node.client < MAX_CLIENTS }
        ensures { self.new ≡ record self.old { queue = queue_with (row_of self.old) node } }
    {
        if self.mode(node.waiter().client).at_most(Mode::N) {
            self.queue.push_back(node);
        } else {
            self.queue.push_front(node);
        }
    }

    /// The first waiter gets what it wants, and no longer waits.
    pub(crate) fn grant(&mut self) -> Option<Waiter>
        requires { IfSome (front_of self.old.queue) (λ u. u.client < MAX_CLIENTS) }
        ensures row { row_of self.new ≡ grant_first (row_of self.old) self.old.queue }
        ensures waiter { result ≡ front_of self.old.queue }
    {
        let waiter = self.queue.pop_front()?;
        self.raise(&waiter);
        Some(waiter)
    }

    /// The waiter's client gets what it wants.
    pub(crate) fn raise(&mut self, waiter: &Waiter)
        requires { waiter.now.client < MAX_CLIENTS }
        ensures { row_of self.new ≡ with_mode (row_of self.old) waiter.now.client
            (wanted (row_of self.old) waiter.now) }
    {
        let wanted = self.mode(waiter.client).join(waiter.mode);
        self.set(waiter.client, wanted);
    }

    /// Whether the mode is compatible with what all others hold.
    pub(crate) fn is_compatible_there(&self, client: u64, mode: Mode) -> bool
        ensures { result ≡ all_below max_clients
            (λ d. nat_eq d client || compatible mode (mode_of self.now.modes d)) }
    {
        for other in 0..MAX_CLIENTS as u64 {
            let held = self.mode(other);
            // Most clients hold nothing here, and that is found at once.
            if held != Mode::N && other != client && !mode.compatible(held) {
                return false;
            }
        }
        true
    }

    /// Whether what the waiter wants is compatible with what all others hold.
    pub(crate) fn is_wanted_compatible(&self, waiter: &Waiter) -> bool
        requires { waiter.now.client < MAX_CLIENTS }
        ensures { result
            ≡ is_compatible_in_row (row_of self.now) waiter.now.client
            (wanted (row_of self.now) waiter.now) }
    {
        let wanted = self.mode(waiter.client).join(waiter.mode);
        self.is_compatible_there(waiter.client, wanted)
    }

    /// What the first waiter on this slot can be answered.
    pub(crate) fn reply(&self, slot: u64) -> Option<Reply>
        requires { IfSome (front_of self.now.queue) (λ u. u.client < MAX_CLIENTS) }
        ensures { result ≡ row_reply slot (row_of self.now) }
    {
        let waiter = self.queue.front()?;
        if reply::asks_absent(slot, &waiter) {
            Some(Reply::Absent)
        } else if self.is_wanted_compatible(&waiter) {
            Some(Reply::Grant)
        } else {
            None
        }
    }

    /// The row of a new slot that its writer parts from this one. Nobody waits there.
    pub(crate) fn split(&self, client: u64) -> SlotRow
        requires { client < MAX_CLIENTS }
        ensures { row_of result
            ≡ record { modes = split_modes (mode_of self.now.modes) client; queue = [] } }
    {
        // By its clause `full` the prover knows that there are 64.
        let _modes = self.all_modes();
        let mut row = SlotRow::blank();
        for other in 0..MAX_CLIENTS as u64 {
            let (range, _) = self.mode(other).parts();
            row.modes[other as usize] = if other == client {
                Mode::at_or_above(range, KeyPart::X)
            } else {
                mode_beside(range)
            };
        }
        row
    }
}

/// Whether all modes are N.
fn all_are_n(modes: &[Mode; MAX_CLIENTS]) -> bool
    ensures { (result ≡ true) ↔ ((c : ℕ) → mode_of modes.now c ≡ mode.N) }
{
    let modes = *modes;
    // With no early end the compiler compares many modes at a time.
    let mut all = true;
    for client in 0..MAX_CLIENTS {
        all = all & (modes[client] == Mode::N);
    }
    all
}

/// What another client than the writer has of a new slot, by its range part on the old one.
fn mode_beside(range: RangePart) -> Mode
    ensures { result ≡ mode_beside range }
{
    match range {
        RangePart::I => Mode::RangeIN,
        RangePart::N | RangePart::S | RangePart::X => Mode::N,
    }
}
