//! Which messages wait.
ghost use Rattle.std.specs.Prelude.{◌≡◌, ◌≢◌, ℕ, nat_lt, ◌+◌, ◌<◌, ◌^◌, true, length, slice_get};
ghost use Rattle.std.specs.Prelude.{Some, OnOk};
ghost use Rattle.krl_script.specs.Undelivered.{none_sent, sent_to, without, none_waiting};
ghost use Rattle.krl_script.specs.Undelivered.{waiting_after};

use std::alloc::{AllocError, Global};
use std::collections::VecDeque;
use std::marker::Model;

/// The messages that wait, by their numbers. Each call takes one turn for each message that was
/// sent, or has stopped waiting, since the last.
#[derive(Drop)]
pub struct Undelivered {
    // So many messages come before those of the flags. None of them waits.
    past: u64,
    // A flag for each message after those, in order: whether it no longer waits.
    flags: VecDeque<bool>,
}

impl Model for Undelivered {
    ghost use Rattle.std.specs.Prelude.{◌+◌, ◌<◌, ◌^◌, length};
    ghost use Rattle.krl_script.specs.Undelivered.{Waits, waiting_after};

    ghost Value = { Waits };

    ghost view = { λ w. record {
      sent = w.past + length w.flags.items;
      waiting = waiting_after w.past w.flags.items;
    } };

    ghost invariant = { λ w. w.past + length w.flags.items < 2 ^ 64 };
}

// Takes the flags of messages that no longer wait off the front, as long as there are some there.
// Reports how many messages then come before the others.
fn pass(past: u64, flags: &mut VecDeque<bool>) -> u64
    requires { past + length flags.old.items < 2 ^ 64 }
    ensures sent { result + length flags.new.items ≡ past + length flags.old.items }
    ensures waiting { waiting_after result flags.new.items ≡ waiting_after past flags.old.items }
    ensures first { slice_get flags.new.items 0 ≢ Some true }
{
    let mut past = past;
    'passing: while let Some(true) = flags.front().copied() {
        let _ = flags.pop_front();
        past += 1;
    }
    past
}

// How many messages wait by these flags.
fn waiting_among(flags: &VecDeque<bool>) -> usize
    ensures { (past : ℕ) → result ≡ length (waiting_after past flags.now.items) }
{
    let mut waiting = 0;
    'flags: for i in 0..flags.len() {
        if !flags[i] {
            waiting += 1;
        }
    }
    waiting
}

impl Undelivered {
    /// Nothing was sent yet.
    pub fn new(alloc: Global) -> Undelivered
        ensures { result ≡ none_sent }
    {
        Undelivered {
            past: 0,
            flags: VecDeque::new(alloc),
        }
    }

    /// So many messages were sent by now. Those that are new wait, after the others.
    #[tactic(auto, using(crate::proofs::WaitingLemmas::counts_more))]
    pub fn count(&mut self, sent: u64) -> Result<(), AllocError>
        ensures { OnOk result (self.new ≡ sent_to self.old sent) }
    {
        let counted = self.past + self.flags.len() as u64;
        let more = sent.saturating_sub(counted);
        for _ in 0..more {
            self.flags.push_back(false)?;
        }
        Ok(())
    }

    /// The number of the oldest that waits.
    #[tactic(auto, using(crate::proofs::WaitingLemmas::first_waits))]
    pub fn oldest(&mut self) -> Option<u64>
        ensures oldest { result ≡ slice_get self.old.waiting 0 }
        ensures same { self.new ≡ self.old }
    {
        self.past = pass(self.past, &mut self.flags);
        if self.flags.is_empty() {
            return None;
        }
        Some(self.past + 1)
    }

    /// Whether more than so many messages wait. It takes one turn for each message that was sent
    /// after the oldest that waits, and for that one.
    pub fn exceeds(&self, most: usize) -> bool
        ensures { result ≡ nat_lt most (length self.now.waiting) }
    {
        waiting_among(&self.flags) > most
    }

    /// The message of this number no longer waits.
    #[tactic(auto, using(crate::proofs::WaitingLemmas::not_among))]
    pub fn remove(&mut self, number: u64)
        ensures { self.new ≡ without self.old number }
    {
        if number > self.past && number - self.past <= self.flags.len() as u64 {
            let at = (number - self.past - 1) as usize;
            self.flags[at] = true;
        }
    }

    /// No message waits any more.
    pub fn drop_all(&mut self)
        ensures { self.new ≡ none_waiting self.old }
    {
        self.past += self.flags.len() as u64;
        self.flags.clear();
    }
}
