//! What a client shows of itself, and what it sends under its name.
ghost use Rattle.std.specs.Prelude.{◌≡◌, false, IfOk, [], ◌∷◌};
ghost use Rattle.krl_client.specs.Clients as clients;
ghost use Rattle.krl_client.specs.Shown as shown;
ghost use Rattle.krl_client.specs.Fields.{meaning};
ghost use Rattle.krl_client.specs.Keeps.{IsClient};

use crate::client::Client;
use crate::status::Status;
use krl_cache::Belief;
use krl_messages::{Request, RequestBody, ToServer, ToServerBody};
use krl_modes::{KeyPart, RangePart, Span};
use std::alloc::{AllocError, Global};

// A list of one message.
pub(crate) fn one(alloc: Global, message: ToServer) -> Result<Vec<ToServer>, AllocError>
    ensures { IfOk result (λ list. list.items ≡ message ∷ []) }
{
    let mut list = Vec::with_capacity(alloc, 1)?;
    list.push(message)?;
    Ok(list)
}

impl Client {
    /// What it believes that it holds at the point: a range part and a key part, both N past END.
    /// It takes no memory.
    pub fn held(&self, p: u64) -> (RangePart, KeyPart)
        ensures { result ≡ shown.held (meaning self.now) p }
    {
        (self.cache.range_at(p), self.cache.key_at(p))
    }

    /// What it shows of itself. It takes no memory.
    pub fn status(&self) -> Status
        ensures status { result ≡ shown.status_of (meaning self.now) }
        ensures client { IsClient (meaning self.now) }
    {
        Status {
            epoch: self.epoch,
            seen: self.seen,
            lock: self.asked.status(),
            write: self.written.status(self.writes),
        }
    }

    // A message of its own.
    pub(crate) fn says(&self, body: ToServerBody) -> ToServer
        ensures { result ≡ clients.from (meaning self.now) body }
    {
        ToServer {
            client: self.number,
            incarnation: self.incarnation,
            body,
        }
    }

    // A request of its own.
    pub(crate) fn requests(&self, body: RequestBody) -> ToServer
        ensures { result ≡ clients.requests (meaning self.now) body }
    {
        self.says(ToServerBody::Request(Request {
            epoch: self.epoch,
            seen: self.seen,
            body,
        }))
    }

    // Whether it has learned an epoch.
    pub(crate) fn has_joined(&self) -> bool
        ensures { result ≡ clients.has_joined (meaning self.now) }
    {
        self.epoch > 0
    }

    // Whether the span contains the outstanding write's key.
    pub(crate) fn is_writing_in(&self, span: Span) -> bool
        ensures { result ≡ clients.is_writing_in (meaning self.now) span }
    {
        match self.written.outstanding() {
            Some(change) => {
                let key = change.key();
                span.lo() <= key && key < span.hi()
            }
            None => false,
        }
    }

    // Whether the span meets a pin.
    pub(crate) fn meets_pin(&self, span: Span) -> bool
        ensures { result ≡ clients.meets_pin (meaning self.now) span }
    {
        self.pins.meet(span)
    }
}
