//! What a client does with a message.
ghost use Rattle.std.specs.Prelude.{◌≡◌, true, None, Some, suc, ◌≤◌, [], ◌∷◌, IfOk, OnErr, ◌&&◌};
ghost use Rattle.std.specs.Prelude.{nat_eq, nat_le};
ghost use Rattle.krl_modes.specs.declared.point.TheConstants.{END};
ghost use Rattle.krl_messages.specs.declared.to_client.ToClientBody.TheVariants as told;
ghost use Rattle.krl_messages.specs.declared.to_client.PushBody.TheVariants as push;
ghost use Rattle.krl_messages.specs.Holdings.{has_its_value, have_values};
ghost use Rattle.krl_client.specs.Messages as messages;
ghost use Rattle.krl_client.specs.Messages.{Adopts, Accepts, Lowers, AcksAgain, Ignores};
ghost use Rattle.krl_client.specs.Fields.{meaning};
ghost use Rattle.krl_client.specs.FieldSteps.{Follows};

use crate::client::Client;
use crate::lock_request::LockRequest;
use crate::view::one;
use krl_cache::Belief;
use krl_messages::{
    Holding, Holdings, Outcome, PushBody, Request, RequestBody, ToClient, ToClientBody, ToServer,
    ToServerBody,
};
use krl_modes::{END, Mode, Span};
use std::alloc::AllocError;

// Whether each holding of a push has its value by the rule.
fn fits(body: &PushBody) -> bool
    ensures { result ≡ messages.fits body.now }
{
    match body {
        PushBody::Grant { holdings, .. } => holdings.have_values(),
        PushBody::Answer { holding, .. } => holding.has_its_value(),
        PushBody::Absent { .. } => true,
    }
}

impl Client {
    // Joins the epoch, and reports.
    fn join(&mut self, epoch: u64) -> Result<Vec<ToServer>, AllocError>
        ensures unchanged { OnErr result (self.new ≡ self.old) }
        ensures follows { IfOk result
            (λ list. Follows (meaning self.old) (Adopts epoch) (meaning self.new) list.items) }
    {
        let report = self.report(epoch)?;
        let list = one(self.alloc, report)?;
        self.epoch = epoch;
        self.seen = 0;
        self.req = 0;
        self.asked = self.asked.dropped();
        Ok(list)
    }

    // Lowers the span, and reports it.
    pub(crate) fn lower_span(&mut self, span: Span, keep: Mode) -> Result<Vec<ToServer>, AllocError>
        ensures unchanged { OnErr result (self.new ≡ self.old) }
        ensures follows { IfOk result
            (λ list. Follows (meaning self.old) (Lowers span keep) (meaning self.new) list.items) }
    {
        let release = self.requests(RequestBody::Release { span, mode: keep });
        let list = one(self.alloc, release)?;
        self.cache.lower(span, keep)?;
        Ok(list)
    }

    // Acknowledges again the last push that it accepted.
    fn ack_again(&self) -> Result<Vec<ToServer>, AllocError>
        ensures { IfOk result
            (λ list. Follows (meaning self.now) AcksAgain (meaning self.now) list.items) }
    {
        // By `?` the prover has two cases, refused and done.
        let list = one(self.alloc, self.requests(RequestBody::Ack))?;
        Ok(list)
    }

    // The Ack of the next push.
    fn ack_next(&self) -> Result<Vec<ToServer>, AllocError>
        requires { suc (self.now).seen ≤ END }
        ensures { IfOk result
            (λ list. list.items ≡ messages.says_ack
            (record (meaning self.now) { seen = suc (self.now).seen }) ∷ []) }
    {
        let seen = self.seen + 1;
        let request = Request {
            epoch: self.epoch,
            seen,
            body: RequestBody::Ack,
        };
        one(self.alloc, self.says(ToServerBody::Request(request)))
    }

    // Takes over what is granted.
    fn accept_grant(&mut self, req: u64, holdings: &Holdings) -> Result<Vec<ToServer>, AllocError>
        requires last { suc (self.old).seen ≤ END }
        requires fits { have_values holdings.now ≡ true }
        ensures unchanged { OnErr result (self.new ≡ self.old) }
        ensures follows { IfOk result
            (λ list. Follows (meaning self.old) (Accepts (push.Grant req holdings.now))
            (meaning self.new) list.items) }
    {
        let list = self.ack_next()?;
        self.cache.adopt_all(holdings)?;
        self.asked = self.asked.answered(req == self.req, LockRequest::Granted);
        self.seen += 1;
        Ok(list)
    }

    // Hears that there is no entry to lock. The point is named only in the contract.
    fn accept_absent(&mut self, req: u64, _point: u64) -> Result<Vec<ToServer>, AllocError>
        requires last { suc (self.old).seen ≤ END }
        ensures unchanged { OnErr result (self.new ≡ self.old) }
        ensures follows { IfOk result
            (λ list. Follows (meaning self.old) (Accepts (push.Absent req _point))
            (meaning self.new) list.items) }
    {
        let list = self.ack_next()?;
        self.asked = self.asked.answered(req == self.req, LockRequest::Absent);
        self.seen += 1;
        Ok(list)
    }

    // Takes over what became of a write.
    fn accept_answer(
        &mut self,
        number: u64,
        outcome: Outcome,
        holding: Holding,
    ) -> Result<Vec<ToServer>, AllocError>
        requires last { suc (self.old).seen ≤ END }
        requires fits { has_its_value holding ≡ true }
        ensures unchanged { OnErr result (self.new ≡ self.old) }
        ensures follows { IfOk result
            (λ list. Follows (meaning self.old) (Accepts (push.Answer number outcome holding))
            (meaning self.new) list.items) }
    {
        let list = self.ack_next()?;
        self.cache.adopt(holding)?;
        self.written = self.written.judged(number == self.writes, outcome);
        self.seen += 1;
        Ok(list)
    }

    // Takes over what the push brings.
    fn accept(&mut self, body: &PushBody) -> Result<Vec<ToServer>, AllocError>
        requires last { suc (self.old).seen ≤ END }
        requires fits { messages.fits body.now ≡ true }
        ensures unchanged { OnErr result (self.new ≡ self.old) }
        ensures follows { IfOk result
            (λ list. Follows (meaning self.old) (Accepts body.now) (meaning self.new) list.items) }
    {
        match body {
            PushBody::Grant { req, holdings } => self.accept_grant(*req, holdings),
            PushBody::Absent { req, point } => self.accept_absent(*req, *point),
            PushBody::Answer {
                number,
                outcome,
                holding,
            } => self.accept_answer(*number, *outcome, *holding),
        }
    }

    // Whether the number is the next push's.
    fn is_next(&self, number: u64) -> bool
        ensures { result ≡ (nat_eq number (suc (self.now).seen) && nat_le number END) }
    {
        number > 0 && number - 1 == self.seen && number <= END
    }

    // Joins a later epoch.
    fn hear_epoch(&mut self, epoch: u64) -> Result<Vec<ToServer>, AllocError>
        ensures unchanged { OnErr result (self.new ≡ self.old) }
        ensures follows { IfOk result
            (λ list. Follows (meaning self.old)
            (messages.client_case_of_body (meaning self.old) (told.Epoch epoch))
            (meaning self.new) list.items) }
    {
        if epoch <= self.epoch {
            return Ok(Vec::new(self.alloc));
        }
        self.join(epoch)
    }

    // Accepts the next push of its epoch, and acknowledges the last one again.
    fn hear_push(
        &mut self,
        epoch: u64,
        number: u64,
        body: &PushBody,
    ) -> Result<Vec<ToServer>, AllocError>
        ensures unchanged { OnErr result (self.new ≡ self.old) }
        ensures follows { IfOk result
            (λ list. Follows (meaning self.old)
            (messages.client_case_of_body (meaning self.old) (told.Push epoch number body.now))
            (meaning self.new) list.items) }
    {
        if epoch != self.epoch {
            return Ok(Vec::new(self.alloc));
        }
        if !fits(body) {
            return Ok(Vec::new(self.alloc));
        }
        if self.is_next(number) {
            return self.accept(body);
        }
        if number == self.seen {
            return self.ack_again();
        }
        Ok(Vec::new(self.alloc))
    }

    // Lowers a span of its epoch that it does not need.
    fn hear_callback(
        &mut self,
        epoch: u64,
        span: Span,
        keep: Mode,
    ) -> Result<Vec<ToServer>, AllocError>
        ensures unchanged { OnErr result (self.new ≡ self.old) }
        ensures follows { IfOk result
            (λ list. Follows (meaning self.old)
            (messages.client_case_of_body (meaning self.old) (told.Callback epoch span keep))
            (meaning self.new) list.items) }
    {
        if epoch != self.epoch {
            return Ok(Vec::new(self.alloc));
        }
        if self.is_writing_in(span) {
            return Ok(Vec::new(self.alloc));
        }
        if self.meets_pin(span) {
            return Ok(Vec::new(self.alloc));
        }
        self.lower_span(span, keep)
    }

    /// Does what the message asks for, and gives its answer: at most one message. A
    /// message for another client or incarnation, or of another epoch, is passed over, except that
    /// it joins a later epoch.
    ///
    /// # Errors
    ///
    /// `AllocError` if memory is refused. Nothing has changed then.
    pub fn step(&mut self, message: &ToClient) -> Result<Vec<ToServer>, AllocError>
        ensures unchanged { OnErr result (self.new ≡ self.old) }
        ensures follows { IfOk result
            (λ list. Follows (meaning self.old)
            (messages.client_case_of (meaning self.old) message.now)
            (meaning self.new) list.items) }
    {
        if message.client != self.number {
            return Ok(Vec::new(self.alloc));
        }
        if message.incarnation != self.incarnation {
            return Ok(Vec::new(self.alloc));
        }
        match &message.body {
            ToClientBody::Epoch { epoch } => self.hear_epoch(*epoch),
            ToClientBody::Push {
                epoch,
                number,
                body,
            } => self.hear_push(*epoch, *number, body),
            ToClientBody::Callback { epoch, span, keep } => self.hear_callback(
                *epoch, *span, *keep,
            ),
        }
    }
}
