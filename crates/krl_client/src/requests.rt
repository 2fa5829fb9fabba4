//! Commands that send.
ghost use Rattle.std.specs.Prelude.{◌≡◌, None, Some, [], ◌∷◌, IfOk, IfErr, OnErr, OnOk, ◌<◌};
ghost use Rattle.krl_modes.specs.declared.point.TheConstants.{END};
ghost use Rattle.krl_modes.specs.declared.mode.Mode.TheVariants.{N};
ghost use Rattle.krl_messages.specs.Writes.{op_key};
ghost use Rattle.krl_client.specs.Commands as commands;
ghost use Rattle.krl_client.specs.Fields.{meaning};
ghost use Rattle.krl_client.specs.FieldSteps.{IsDue};

use crate::client::Client;
use crate::last_write::LastWrite;
use crate::lock_request::LockRequest;
use crate::refused::CommandRefused;
use crate::view::one;
use krl_cache::Belief;
use krl_messages::{RequestBody, ToServer, ToServerBody, WriteOp};
use krl_modes::{END, KeyPart, Mode, RangePart, Span, TOP};
use std::alloc::AllocError;

impl Client {
    /// Why it refuses to ask for a lock of the points from `point` on below `hi`, memory aside: the
    /// first of `BadPoint`, `BadSpan`, `NotJoined`, `Busy`, `Spent`. `lock` judges by it.
    pub fn lock_refusal(&self, point: u64, hi: u64) -> Option<CommandRefused>
        ensures { result ≡ commands.lock_refusal (meaning self.now) point hi }
    {
        if point > END {
            return Some(CommandRefused::BadPoint);
        }
        if hi <= point || hi > TOP {
            return Some(CommandRefused::BadSpan);
        }
        if !self.has_joined() {
            return Some(CommandRefused::NotJoined);
        }
        if self.asked.is_waiting() {
            return Some(CommandRefused::Busy);
        }
        if self.req >= END {
            return Some(CommandRefused::Spent);
        }
        None
    }

    /// Asks for a lock of this mode on the slot of the point, from 0 to END, and on the slots after
    /// it that begin below `hi`, as far as they are free. The request waits for its answer, and
    /// each tick sends it again.
    ///
    /// # Errors
    ///
    /// In this order: `BadPoint` if the point is above END; `BadSpan` if `hi` is not above
    /// the point, or is above TOP; `NotJoined` before the client learned an epoch; `Busy` while a
    /// request waits; `Spent` if no number is left for it; `OutOfMemory`. The client is as it
    /// was.
    pub fn lock(&mut self, point: u64, hi: u64, mode: Mode) -> Result<Vec<ToServer>, CommandRefused>
        ensures due { IfErr result
            (λ r. IsDue (commands.lock_refusal (meaning self.old) point hi) r) }
        ensures unchanged { OnErr result (self.new ≡ self.old) }
        ensures none_due { OnOk result (commands.lock_refusal (meaning self.old) point hi ≡ None) }
        ensures client { OnOk result
            (meaning self.new ≡ commands.locked (meaning self.old) point hi mode) }
        ensures says { IfOk result
            (λ list. list.items ≡ commands.says_lock
            (commands.locked (meaning self.old) point hi mode) point hi mode ∷ []) }
    {
        if let Some(refusal) = self.lock_refusal(point, hi) {
            return Err(refusal);
        }
        let req = self.req + 1;
        let list = one(
            self.alloc,
            self.requests(RequestBody::Lock {
                req,
                point,
                hi,
                mode,
            }),
        )?;
        self.req = req;
        self.asked = LockRequest::Waiting { point, hi, mode };
        Ok(list)
    }

    // Whether it holds what the write needs.
    fn holds_for(&self, change: WriteOp) -> bool
        requires { op_key change < END }
        ensures { result ≡ commands.holds_for (meaning self.now).belief change }
    {
        match change {
            WriteOp::Insert { key, .. } => RangePart::I.at_most(self.cache.range_at(key)),
            WriteOp::Put { key, .. } => self.cache.key_at(key) == KeyPart::X,
            WriteOp::Delete { key } => {
                self.cache.key_at(key) == KeyPart::X
                    && self.cache.range_at(key) == RangePart::X
                    && self.cache.range_at(key + 1) == RangePart::X
            }
        }
    }

    /// Why it refuses to write, memory aside: the first of `BadPoint`, `NotJoined`, `Writing`,
    /// `NotHeld`, `Spent`. `write` judges by it.
    pub fn write_refusal(&self, change: WriteOp) -> Option<CommandRefused>
        ensures { result ≡ commands.write_refusal (meaning self.now) change }
    {
        let asked = change;
        if asked.key() >= END {
            return Some(CommandRefused::BadPoint);
        }
        if !self.has_joined() {
            return Some(CommandRefused::NotJoined);
        }
        if self.written.outstanding().is_some() {
            return Some(CommandRefused::Writing);
        }
        if !self.holds_for(change) {
            return Some(CommandRefused::NotHeld);
        }
        if self.writes >= END {
            return Some(CommandRefused::Spent);
        }
        None
    }

    /// Asks for a change of the index. The write is outstanding until it is answered, across epochs
    /// too, and each tick sends it again. It needs what lets its holder make the change: for an
    /// insert a range part of I or X at the key; for a put the key part X there; for a delete the
    /// key part X, and the range part X both at the key and one past it.
    ///
    /// # Errors
    ///
    /// In this order: `BadPoint` if the key is END or more; `NotJoined` before the client has
    /// learned an epoch; `Writing` while a write is outstanding; `NotHeld` if the client does not
    /// hold what the write needs; `Spent` if no number is left for it; `OutOfMemory`. The client is
    /// as it was.
    pub fn write(&mut self, change: WriteOp) -> Result<Vec<ToServer>, CommandRefused>
        ensures due { IfErr result
            (λ r. IsDue (commands.write_refusal (meaning self.old) change) r) }
        ensures unchanged { OnErr result (self.new ≡ self.old) }
        ensures none_due { OnOk result (commands.write_refusal (meaning self.old) change ≡ None) }
        ensures client { OnOk result (meaning self.new ≡ commands.wrote (meaning self.old) change) }
        ensures says { IfOk result
            (λ list. list.items ≡ commands.says_write
            (commands.wrote (meaning self.old) change) change ∷ []) }
    {
        let asked = change;
        if let Some(refusal) = self.write_refusal(asked) {
            return Err(refusal);
        }
        let number = self.writes + 1;
        let op = change;
        let seizes = false;
        let list = one(
            self.alloc,
            self.requests(RequestBody::Write { number, op, seizes }),
        )?;
        self.writes = number;
        self.written = LastWrite::Outstanding(change);
        self.seizes = seizes;
        Ok(list)
    }

    /// Why it refuses to write with the lock that it seizes, memory aside: the first of `BadPoint`,
    /// `NotJoined`, `Writing`, `NotHeld`, `Spent`. `seize` judges by it.
    pub fn seize_refusal(&self, change: WriteOp) -> Option<CommandRefused>
        ensures { result ≡ commands.seize_refusal (meaning self.now) change }
    {
        let (asked, seized) = (change, change);
        if asked.key() >= END {
            return Some(CommandRefused::BadPoint);
        }
        if !self.has_joined() {
            return Some(CommandRefused::NotJoined);
        }
        if self.written.outstanding().is_some() {
            return Some(CommandRefused::Writing);
        }
        if !seized.can_seize() && !self.holds_for(change) {
            return Some(CommandRefused::NotHeld);
        }
        if self.writes >= END {
            return Some(CommandRefused::Spent);
        }
        None
    }

    /// Asks for a change of the index, as `write` does, and for the lock that it needs: if nobody
    /// waits for the slot of the key and nobody's lock forbids it, the server gives the client that
    /// lock and makes the change in one step. Otherwise the change is judged by what the client
    /// holds, and may be `NotHeld`. The answer states what the client then holds on the key's slot.
    ///
    /// A delete needs the locks of two slots, and seizes neither: it is asked for as by `write`.
    ///
    /// # Errors
    ///
    /// In this order: `BadPoint` if the key is END or more; `NotJoined` before the client has
    /// learned an epoch; `Writing` while a write is outstanding; `NotHeld` if a delete lacks what
    /// it needs; `Spent` if no number is left for it; `OutOfMemory`. The client is as it was.
    pub fn seize(&mut self, change: WriteOp) -> Result<Vec<ToServer>, CommandRefused>
        ensures due { IfErr result
            (λ r. IsDue (commands.seize_refusal (meaning self.old) change) r) }
        ensures unchanged { OnErr result (self.new ≡ self.old) }
        ensures none_due { OnOk result (commands.seize_refusal (meaning self.old) change ≡ None) }
        ensures client { OnOk result
            (meaning self.new ≡ commands.seized (meaning self.old) change) }
        ensures says { IfOk result
            (λ list. list.items ≡ commands.says_write
            (commands.seized (meaning self.old) change) change ∷ []) }
    {
        let (asked, kept) = (change, change);
        if let Some(refusal) = self.seize_refusal(asked) {
            return Err(refusal);
        }
        let number = self.writes + 1;
        let op = change;
        let seizes = true;
        let list = one(
            self.alloc,
            self.requests(RequestBody::Write { number, op, seizes }),
        )?;
        self.writes = number;
        self.written = LastWrite::Outstanding(kept);
        self.seizes = seizes;
        Ok(list)
    }

    // Why it refuses to lower the span.
    fn span_refusal(&self, span: Span) -> Option<CommandRefused>
        ensures { result ≡ commands.lower_refusal (meaning self.now) span }
    {
        if !self.has_joined() {
            return Some(CommandRefused::NotJoined);
        }
        if self.is_writing_in(span) {
            return Some(CommandRefused::Writing);
        }
        if self.meets_pin(span) {
            return Some(CommandRefused::Pinned);
        }
        None
    }

    /// Why it refuses to give back anything of the points from `lo` on below `hi`, memory aside:
    /// the first of `BadSpan`, `NotJoined`, `Writing`, `Pinned`. `lower` and `forget` judge by the
    /// same tests.
    pub fn lower_refusal(&self, lo: u64, hi: u64) -> Option<CommandRefused>
        ensures { result ≡ commands.lower_refusal (meaning self.now)
            (record { lo = lo; hi = hi }) }
    {
        match Span::new(lo, hi) {
            Ok(span) => self.span_refusal(span),
            Err(_) => Some(CommandRefused::BadSpan),
        }
    }

    /// Gives back, of what it holds of the points from `lo` on below `hi`, all that is above
    /// `keep`: at each of them it continues to hold the meet of what it held and `keep`. Outside
    /// these points it holds what it held. The one message that it gives is the Release that
    /// reports this.
    ///
    /// A pin keeps all that is held of its points, so `keep` makes no difference to a refusal.
    ///
    /// # Errors
    ///
    /// In this order: `BadSpan` if `lo` is not below `hi`, or `hi` is above TOP; `NotJoined`
    /// before the client learned an epoch; `Writing` if the outstanding write's key is one of
    /// the points; `Pinned` if a pin has one of them; `OutOfMemory`. The client is as it was.
    pub fn lower(&mut self, lo: u64, hi: u64, keep: Mode) -> Result<Vec<ToServer>, CommandRefused>
        ensures due { IfErr result
            (λ r. IsDue (commands.lower_refusal (meaning self.old)
            (record { lo = lo; hi = hi })) r) }
        ensures unchanged { OnErr result (self.new ≡ self.old) }
        ensures none_due { OnOk result
            (commands.lower_refusal (meaning self.old) (record { lo = lo; hi = hi }) ≡ None) }
        ensures client { OnOk result
            (meaning self.new
            ≡ commands.belief_lowered (meaning self.old) (record { lo = lo; hi = hi }) keep) }
        ensures says { IfOk result
            (λ list. list.items ≡ commands.says_release (meaning self.old)
            (record { lo = lo; hi = hi }) keep ∷ []) }
    {
        let Ok(span) = Span::new(lo, hi) else {
            return Err(CommandRefused::BadSpan);
        };
        if let Some(refusal) = self.span_refusal(span) {
            return Err(refusal);
        }
        let list = self.lower_span(span, keep)?;
        Ok(list)
    }

    /// Gives back all that it holds of the points from `lo` on below `hi`: it is `lower` to N.
    ///
    /// # Errors
    ///
    /// Those of `lower`, in the same order. The client is as it was.
    pub fn forget(&mut self, lo: u64, hi: u64) -> Result<Vec<ToServer>, CommandRefused>
        ensures due { IfErr result
            (λ r. IsDue (commands.lower_refusal (meaning self.old)
            (record { lo = lo; hi = hi })) r) }
        ensures unchanged { OnErr result (self.new ≡ self.old) }
        ensures none_due { OnOk result
            (commands.lower_refusal (meaning self.old) (record { lo = lo; hi = hi }) ≡ None) }
        ensures client { OnOk result
            (meaning self.new
            ≡ commands.belief_lowered (meaning self.old) (record { lo = lo; hi = hi }) N) }
        ensures says { IfOk result
            (λ list. list.items ≡ commands.says_release (meaning self.old)
            (record { lo = lo; hi = hi }) N ∷ []) }
    {
        self.lower(lo, hi, Mode::N)
    }

    /// Leaves: sends Bye, which gives back all that it holds, and is gone.
    ///
    /// # Errors
    ///
    /// The client, unchanged, if memory is refused.
    pub fn leave(self) -> Result<Vec<ToServer>, Client>
        ensures unchanged { IfErr result (λ client. client ≡ self) }
        ensures says { IfOk result (λ list. list.items ≡ commands.says_bye (meaning self) ∷ []) }
    {
        match one(self.alloc, self.says(ToServerBody::Bye)) {
            Ok(list) => Ok(list),
            Err(_) => Err(self),
        }
    }
}
