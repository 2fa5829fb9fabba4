//! Messages to the server.
ghost use Rattle.std.specs.Prelude.{◌≡◌, IfOk};

use crate::pieces::Pieces;
use crate::write_op::WriteOp;
use krl_modes::{Mode, Span};
use std::alloc::{AllocError, Global};

/// A message from a client to the server.
#[derive(PartialEq, Eq, Drop)]
pub struct ToServer {
    /// The sender's number. The server ignores one above 63.
    pub client: u64,
    /// The sender's incarnation, from 1 to END: each start of a client has a greater one.
    pub incarnation: u64,
    /// What is sent.
    pub body: ToServerBody,
}

/// What a client sends to the server.
#[derive(PartialEq, Eq, Drop)]
pub enum ToServerBody {
    /// Sent by a client that has joined no epoch yet, again and again until it learns of one.
    Hello,
    /// Sent by a client as it leaves: all that it held is given back. The client is gone then.
    Bye,
    /// Sent by a client that has adopted a new epoch, again and again until it accepts a push of
    /// that epoch: what it holds. From these reports a server that has started again makes its
    /// table.
    Report {
        /// The epoch that the client has adopted.
        epoch: u64,
        /// What the client holds.
        pieces: Pieces,
    },
    /// Sent by a client that has joined an epoch.
    Request(Request),
}

/// A request, with the head by which the server judges all requests alike.
#[derive(Clone, Copy, PartialEq, Eq)]
pub struct Request {
    /// The epoch that the client has joined.
    pub epoch: u64,
    /// The number of the last push that the client has accepted in this epoch, or 0: it
    /// acknowledges that push.
    pub seen: u64,
    /// What is asked.
    pub body: RequestBody,
}

/// What a request asks.
#[derive(Clone, Copy, PartialEq, Eq)]
pub enum RequestBody {
    /// Asks for a lock on the slot of a point, and on the slots after it that begin below `hi`, as
    /// far as they are free. A client sends it again until it is answered.
    Lock {
        /// The request's number, counted from 1 for each client, incarnation and epoch.
        req: u64,
        /// A point of the first slot: up to END.
        point: u64,
        /// One past the last point that is asked for: above `point`, and at most TOP.
        hi: u64,
        /// The mode that is asked for, next to what the client holds.
        mode: Mode,
    },
    /// Asks for a change of the index. A client sends it again until it is answered, over a restart
    /// of the server too.
    Write {
        /// The write's number, counted from 1 for each client and incarnation.
        number: u64,
        /// The change.
        op: WriteOp,
        /// Whether it seizes the lock that it needs, if that is free: then it is judged with that
        /// lock, and otherwise with what the client holds. A delete seizes none.
        seizes: bool,
    },
    /// Gives a lock back: on this span the client holds at most this mode.
    Release {
        /// Where.
        span: Span,
        /// What the client may still hold there.
        mode: Mode,
    },
    /// Asks nothing: it only acknowledges a push.
    Ack,
}

impl ToServer {
    /// An equal message, with lists of its own.
    ///
    /// # Errors
    ///
    /// `AllocError` if the memory for the lists is refused. Nothing has changed then.
    pub fn try_clone(&self, alloc: Global) -> Result<ToServer, AllocError>
        ensures { IfOk result (λ copy. copy ≡ self.now) }
    {
        Ok(ToServer {
            client: self.client,
            incarnation: self.incarnation,
            body: self.body.try_clone(alloc)?,
        })
    }
}

impl ToServerBody {
    /// An equal body, with lists of its own. Only a report takes memory.
    ///
    /// # Errors
    ///
    /// `AllocError` if the memory for the lists is refused. Nothing has changed then.
    pub fn try_clone(&self, alloc: Global) -> Result<ToServerBody, AllocError>
        ensures { IfOk result (λ copy. copy ≡ self.now) }
    {
        Ok(match self {
            ToServerBody::Hello => ToServerBody::Hello,
            ToServerBody::Bye => ToServerBody::Bye,
            ToServerBody::Report { epoch, pieces } => ToServerBody::Report {
                epoch: *epoch,
                pieces: pieces.try_clone(alloc)?,
            },
            ToServerBody::Request(request) => ToServerBody::Request(*request),
        })
    }
}
