//! Commands that send nothing.
ghost use Rattle.std.specs.Prelude.{◌≡◌, false, None, Some, IfOk, IfErr, OnErr, OnOk, MatchOption};
ghost use Rattle.krl_cache.specs.Beliefs.{CoversAll};
ghost use Rattle.krl_client.specs.declared.refused.CommandRefused.TheVariants.{OutOfMemory};
ghost use Rattle.krl_client.specs.declared.scan_answer.ScanAnswer.TheVariants.{Pending};
ghost use Rattle.krl_client.specs.Clients as clients;
ghost use Rattle.krl_client.specs.Commands as commands;
ghost use Rattle.krl_client.specs.Fields.{meaning};
ghost use Rattle.krl_client.specs.FieldSteps.{IsDue};
ghost use Rattle.krl_client.specs.Finds.{answer_of};

use crate::client::Client;
use crate::find_answer::FindAnswer;
use crate::refused::CommandRefused;
use crate::scan_answer::ScanAnswer;
use krl_cache::{Belief, Found, Scanned};
use krl_modes::{MAX_PINS, Span};

impl Client {
    /// Pins the points from `lo` on below `hi`, and gives the pin's id: the least that is free,
    /// from 0 to 7. What is held of them is given back neither to a callback nor by `forget`. It
    /// takes no memory.
    ///
    /// # Errors
    ///
    /// In this order: `BadSpan` if `lo` is not below `hi`, or `hi` is above TOP; `TooManyPins`
    /// if no id is free. The client is as it was.
    pub fn pin(&mut self, lo: u64, hi: u64) -> Result<u64, CommandRefused>
        ensures due { IfErr result
            (λ r. commands.pin_refusal (meaning self.old) (record { lo = lo; hi = hi }) ≡ Some r) }
        ensures unchanged { OnErr result (self.new ≡ self.old) }
        ensures none_due { OnOk result
            (commands.pin_refusal (meaning self.old) (record { lo = lo; hi = hi }) ≡ None) }
        ensures id { IfOk result (λ id. clients.free_pin (meaning self.old) ≡ Some id) }
        ensures pinned { IfOk result
            (λ id. meaning self.new
            ≡ commands.pinned (meaning self.old) (record { lo = lo; hi = hi }) id) }
    {
        let Ok(span) = Span::new(lo, hi) else {
            return Err(CommandRefused::BadSpan);
        };
        let Some(id) = self.pins.free() else {
            return Err(CommandRefused::TooManyPins);
        };
        self.pins.pin(id, span);
        Ok(id)
    }

    /// Frees the pin of this id. It takes no memory.
    ///
    /// # Errors
    ///
    /// `NotHeld` if there is no such pin. The client is as it was.
    pub fn unpin(&mut self, id: u64) -> Result<(), CommandRefused>
        ensures due { IfErr result (λ r. commands.unpin_refusal (meaning self.old) id ≡ Some r) }
        ensures unchanged { OnErr result (self.new ≡ self.old) }
        ensures none_due { OnOk result (commands.unpin_refusal (meaning self.old) id ≡ None) }
        ensures unpinned { OnOk result
            (meaning self.new ≡ commands.unpinned (meaning self.old) id) }
    {
        if id >= MAX_PINS as u64 || self.pins.get(id).is_none() {
            return Err(CommandRefused::NotHeld);
        }
        self.pins.unpin(id);
        Ok(())
    }

    // The answer to a scan of a span that contains the outstanding write's key.
    fn pending_key_in(&self, span: Span) -> Option<u64>
        ensures { MatchOption result (clients.is_writing_in (meaning self.now) span ≡ false)
            (λ key. commands.ScanGives (meaning self.now) span (Pending key)) }
    {
        let key = self.written.outstanding()?.key();
        if span.lo() <= key && key < span.hi() {
            Some(key)
        } else {
            None
        }
    }

    /// What its own cache states of the points from `lo` on below `hi`: their entries, if it knows
    /// each of these points; otherwise the least that it does not know. If the key of its
    /// outstanding write is one of them, that key. Only entries take memory.
    ///
    /// # Errors
    ///
    /// In this order: `BadSpan` if `lo` is not below `hi`, or `hi` is above TOP; `OutOfMemory`
    /// if the memory for the entries is refused.
    pub fn scan(&self, lo: u64, hi: u64) -> Result<ScanAnswer, CommandRefused>
        ensures due { IfErr result
            (λ r. IsDue (commands.scan_refusal (record { lo = lo; hi = hi })) r) }
        ensures memory { IfErr result
            (λ r. r ≡ OutOfMemory
            → (clients.is_writing_in (meaning self.now) (record { lo = lo; hi = hi }) ≡ false)
            × CoversAll (meaning self.now).belief (record { lo = lo; hi = hi })) }
        ensures none_due { OnOk result
            (commands.scan_refusal (record { lo = lo; hi = hi }) ≡ None) }
        ensures answer { IfOk result
            (commands.ScanGives (meaning self.now) (record { lo = lo; hi = hi })) }
    {
        let Ok(span) = Span::new(lo, hi) else {
            return Err(CommandRefused::BadSpan);
        };
        if let Some(key) = self.pending_key_in(span) {
            return Ok(ScanAnswer::Pending(key));
        }
        match self.cache.scan(self.alloc, span)? {
            Scanned::Rows(rows) => Ok(ScanAnswer::Rows(rows)),
            Scanned::Miss(p) => Ok(ScanAnswer::Miss(p)),
        }
    }

    /// What a scan of these points answers, with the entries where they stand in the cache. It
    /// takes no memory.
    ///
    /// # Errors
    ///
    /// `BadSpan` if `lo` is not below `hi`, or `hi` is above TOP.
    pub fn find(&self, lo: u64, hi: u64) -> Result<FindAnswer<'_>, CommandRefused>
        ensures due { IfErr result
            (λ r. commands.scan_refusal (record { lo = lo; hi = hi }) ≡ Some r) }
        ensures none_due { OnOk result
            (commands.scan_refusal (record { lo = lo; hi = hi }) ≡ None) }
        ensures answer { IfOk result
            (λ x. commands.ScanGives (meaning self.now) (record { lo = lo; hi = hi })
            (answer_of x)) }
    {
        let Ok(span) = Span::new(lo, hi) else {
            return Err(CommandRefused::BadSpan);
        };
        if let Some(key) = self.pending_key_in(span) {
            return Ok(FindAnswer::Pending(key));
        }
        match self.cache.find(span) {
            Found::Rows(rows) => Ok(FindAnswer::Rows(rows)),
            Found::Miss(p) => Ok(FindAnswer::Miss(p)),
        }
    }
}
