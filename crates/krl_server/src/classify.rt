//! Which case a message meets, in the order of judging.
ghost use Rattle.std.specs.Prelude.{◌≡◌, ◌<◌, ℕ, suc, nat_eq, Some};
ghost use Rattle.krl_table.specs.Rows.{waits};
ghost use Rattle.krl_server.specs.StateMeaning.{meaning, sessions_of};
ghost use Rattle.krl_server.specs.FoundCases.{meant, IsFormed};
ghost use Rattle.krl_messages.specs.declared.to_server.ToServerBody.{ToServerBody};
ghost use Rattle.krl_server.specs.Servers.{Server};
ghost use Rattle.krl_server.specs.Cases.{is_malformed, case_of, case_of_record, case_of_newer};
ghost use Rattle.krl_server.specs.Cases.{case_of_body, case_of_request, case_of_seen, case_of_late};
ghost use Rattle.krl_server.specs.Cases.{case_of_lock, case_of_write, case_of_repeated_write};
ghost use Rattle.krl_server.specs.Cases.{is_bad_write, case_of_new_write};
ghost use Rattle.krl_modes.specs.declared.limits.TheConstants.{MAX_CLIENTS};

use crate::case::Case;
use crate::session::Session;
use crate::state::State;
use krl_durable::Record;
use krl_messages::{Outcome, Request, RequestBody, ToServer, ToServerBody, WriteOp};
use krl_modes::{END, MAX_CLIENTS, Mode, Point, TOP};

/// Whether the sender's number or incarnation is none of a client.
#[tactic(auto, using(crate::proofs::Outputs::Numbers::sixty_four))]
fn is_malformed(message: &ToServer) -> bool
    ensures { result ≡ is_malformed message.now }
{
    message.client >= MAX_CLIENTS as u64 || message.incarnation == 0 || message.incarnation > END
}

/// Whether the request is the one after the last that was taken.
fn is_next(req: u64, session: &Session) -> bool
    ensures { result ≡ nat_eq req (suc session.now.last_request) }
{
    req.checked_sub(1) == Some(session.last_request)
}

/// The case of a message of an incarnation that is not registered yet.
fn case_of_newer(body: &ToServerBody) -> Case
    ensures { (s : Server) (c : ℕ) (b : ToServerBody)
        → meant s c b result ≡ case_of_newer body.now }
{
    match body {
        ToServerBody::Hello => Case::Registers,
        ToServerBody::Bye | ToServerBody::Report { .. } | ToServerBody::Request(_) => Case::Ignored,
    }
}

/// The case of a request that has not seen the last push.
fn case_of_late(seen: u64, session: &Session) -> Case
    ensures { (s : Server) (c : ℕ) (b : ToServerBody) → s.sessions c ≡ session.now
        → meant s c b result ≡ case_of_late seen session.now.last_push session.now.unacked }
{
    if session.unacked.is_some() && session.last_push.checked_sub(1) == Some(seen) {
        Case::Repeats
    } else {
        Case::Ignored
    }
}

/// The case of the last write's number.
fn case_of_repeated_write(number: u64, op: WriteOp, outcome: Option<Outcome>) -> Case
    ensures { (s : Server) (c : ℕ) (b : ToServerBody)
        → meant s c b result ≡ case_of_repeated_write number op outcome }
{
    match outcome {
        Some(outcome) => Case::AnswersAgain {
            number,
            op,
            outcome,
        },
        None => Case::Acknowledges,
    }
}

/// Whether the write names no key, or has no number of a write.
fn is_bad_write(number: u64, op: WriteOp) -> bool
    ensures { result ≡ is_bad_write number op }
{
    op.key() >= END || number == 0 || number > END
}

/// The case of a new write, which may seize the lock that it needs.
fn case_of_new_write(number: u64, op: WriteOp, seizes: bool) -> Case
    ensures { (s : Server) (c : ℕ) (b : ToServerBody)
        → meant s c b result ≡ case_of_new_write s c number op seizes }
{
    if seizes {
        Case::SeizesLock { number, op }
    } else {
        Case::Judges { number, op }
    }
}

/// The case of a write, by its number.
fn case_of_write(known: &Record, number: u64, op: WriteOp, seizes: bool) -> Case
    ensures { (s : Server) (c : ℕ) (b : ToServerBody)
        → meant s c b result ≡ case_of_write s c known.now number op seizes }
{
    let asked = op;
    if is_bad_write(number, asked) {
        Case::Acknowledges
    } else if number - 1 == known.last {
        case_of_new_write(number, op, seizes)
    } else if number == known.last {
        case_of_repeated_write(number, op, known.outcome)
    } else {
        Case::Acknowledges
    }
}

impl State {
    /// The case that the message meets.
    pub(crate) fn case_of(&self, message: &ToServer) -> Case
        requires { IsFormed self.now }
        ensures { meant (meaning self.now) message.now.client message.now.body result
            ≡ case_of (meaning self.now) message.now }
    {
        if is_malformed(message) {
            return Case::Ignored;
        }
        match self.durable.record(message.client) {
            Some(record) => self.case_of_record(message, &record),
            None => case_of_newer(&message.body),
        }
    }

    /// The case of a message of a client that ever registered.
    fn case_of_record(&self, message: &ToServer, known: &Record) -> Case
        requires formed { IsFormed self.now }
        requires client { message.now.client < MAX_CLIENTS }
        ensures { meant (meaning self.now) message.now.client message.now.body result
            ≡ case_of_record (meaning self.now) message.now (Some known.now) }
    {
        if known.incarnation < message.incarnation {
            case_of_newer(&message.body)
        } else if message.incarnation < known.incarnation || known.left {
            Case::Ignored
        } else {
            self.case_of_body(message.client, known, &message.body)
        }
    }

    /// The case of what is sent by the registered incarnation, which has not left.
    fn case_of_body(&self, client: u64, known: &Record, body: &ToServerBody) -> Case
        requires formed { IsFormed self.now }
        requires client { client < MAX_CLIENTS }
        ensures { meant (meaning self.now) client body.now result
            ≡ case_of_body (meaning self.now) client known.now body.now }
    {
        match body {
            ToServerBody::Hello => Case::Tells,
            ToServerBody::Bye => Case::Leaves,
            ToServerBody::Report { epoch, pieces: _ } => {
                if *epoch != self.durable.epoch() {
                    Case::Tells
                } else if self.missing.lists(client) {
                    Case::Reports
                } else {
                    Case::Ignored
                }
            }
            ToServerBody::Request(request) => {
                if request.epoch != self.durable.epoch() {
                    Case::Tells
                } else if self.missing.is_recovering() {
                    Case::Ignored
                } else {
                    self.case_of_seen(client, known, request)
                }
            }
        }
    }

    /// The case of a request of this epoch, by the last push that its sender has seen.
    fn case_of_seen(&self, client: u64, known: &Record, request: &Request) -> Case
        requires formed { IsFormed self.now }
        requires client { client < MAX_CLIENTS }
        ensures { (b : ToServerBody)
            → meant (meaning self.now) client b result
            ≡ case_of_seen (meaning self.now) client known.now request.now }
    {
        let session = self.session(client);
        if request.seen == session.last_push {
            self.case_of_request(client, known, session, &request.body)
        } else {
            case_of_late(request.seen, session)
        }
    }

    /// The case of what is asked by a client that has seen the last push.
    fn case_of_request(
        &self,
        client: u64,
        known: &Record,
        session: &Session,
        body: &RequestBody,
    ) -> Case
        requires formed { IsFormed self.now }
        requires client { client < MAX_CLIENTS }
        requires session { session.now ≡ sessions_of self.now.sessions client }
        ensures { (b : ToServerBody)
            → meant (meaning self.now) client b result
            ≡ case_of_request (meaning self.now) client known.now body.now }
    {
        match *body {
            RequestBody::Lock {
                req,
                point,
                hi,
                mode,
            } => self.case_of_lock(client, session, req, point, hi, mode),
            RequestBody::Write { number, op, seizes } => case_of_write(known, number, op, seizes),
            RequestBody::Release { span, mode } => Case::Lowers { span, keep: mode },
            RequestBody::Ack => Case::Acknowledges,
        }
    }

    /// The case of a lock request: it is taken, or passed over.
    fn case_of_lock(
        &self,
        client: u64,
        session: &Session,
        req: u64,
        point: u64,
        hi: u64,
        mode: Mode,
    ) -> Case
        requires formed { IsFormed self.now }
        requires client { client < MAX_CLIENTS }
        requires session { session.now ≡ sessions_of self.now.sessions client }
        ensures { (b : ToServerBody)
            → meant (meaning self.now) client b result
            ≡ case_of_lock (meaning self.now) client req point hi mode }
    {
        if !is_next(req, session) {
            return Case::Acknowledges;
        }
        if self.waits(client) {
            return Case::Acknowledges;
        }
        if hi <= point || hi > TOP {
            return Case::Acknowledges;
        }
        match Point::new(point) {
            Some(point) => Case::Waits {
                req,
                point,
                hi,
                mode,
            },
            None => Case::Acknowledges,
        }
    }

    /// Whether the client waits.
    pub(crate) fn waits(&self, client: u64) -> bool
        requires formed { IsFormed self.now }
        requires client { client < MAX_CLIENTS }
        ensures { result ≡ waits self.now.durable.index (meaning self.now).rows client }
    {
        self.table.waiter_of(client).is_some()
    }
}
