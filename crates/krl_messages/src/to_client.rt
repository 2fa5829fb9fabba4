//! Messages to a client.
ghost use Rattle.std.specs.Prelude.{◌≡◌, IfOk};

use crate::holding::Holding;
use crate::holdings::Holdings;
use crate::outcome::Outcome;
use krl_modes::{Mode, Span};
use std::alloc::{AllocError, Global};

/// A message from the server to one client. A grant has a list in memory of its own.
#[derive(PartialEq, Drop)]
pub struct ToClient {
    /// The number of the client that it is sent to.
    pub client: u64,
    /// The incarnation that it is sent to: a client ignores what is meant for another one.
    pub incarnation: u64,
    /// What is sent.
    pub body: ToClientBody,
}

/// What the server sends to a client.
#[derive(PartialEq, Drop)]
pub enum ToClientBody {
    /// Answers a Hello and a message of another epoch, and reminds a client whose report the server
    /// still waits for. A client that knows only a lower epoch adopts this one and reports what it
    /// holds; others ignore it.
    Epoch {
        /// The server's epoch. Epochs are counted from 1, one for each start of the server.
        epoch: u64,
    },
    /// Made when there is something to report and the push before it is acknowledged; sent again,
    /// unchanged, if the client shows that it has not accepted it yet. A client accepts the
    /// pushes of its epoch in the order of their numbers, each once.
    Push {
        /// The server's epoch.
        epoch: u64,
        /// The push's number, counted from 1 for each client, incarnation and epoch.
        number: u64,
        /// What is pushed.
        body: PushBody,
    },
    /// A hint: someone waits, first in the slot's queue, for what this client's lock forbids.
    /// Nobody acknowledges it, and losing or repeating it does no harm. A client that can do so
    /// answers with a Release.
    Callback {
        /// The server's epoch.
        epoch: u64,
        /// The slot's span, on which the client is asked to hold less.
        span: Span,
        /// The greatest mode that does not stand in the waiter's way.
        keep: Mode,
    },
}

/// What a push carries.
#[derive(PartialEq, Drop)]
pub enum PushBody {
    /// Answers a lock request: it is granted. The client had to wait for it until nobody's lock
    /// forbade it.
    Grant {
        /// The request's number.
        req: u64,
        /// What the client holds now of the slot that it asked for, and of each slot after it that
        /// it got as well.
        holdings: Holdings,
    },
    /// Answers a lock request in mode S, U or X at a point that is no entry: there is nothing to
    /// lock.
    Absent {
        /// The request's number.
        req: u64,
        /// The point that was asked for.
        point: u64,
    },
    /// Answers a write.
    Answer {
        /// The write's number.
        number: u64,
        /// What became of the write.
        outcome: Outcome,
        /// What the client holds, after the write, of the slot on which the written key lies.
        holding: Holding,
    },
}

impl PushBody {
    /// An equal body, with a list of its own. Only a grant takes memory.
    ///
    /// # Errors
    ///
    /// `AllocError` if the memory for the list is refused. Nothing has changed then.
    pub fn try_clone(&self, alloc: Global) -> Result<PushBody, AllocError>
        ensures { IfOk result (λ copy. copy ≡ self.now) }
    {
        Ok(match self {
            PushBody::Grant { req, holdings } => PushBody::Grant {
                req: *req,
                holdings: holdings.try_clone(alloc)?,
            },
            PushBody::Absent { req, point } => PushBody::Absent {
                req: *req,
                point: *point,
            },
            PushBody::Answer {
                number,
                outcome,
                holding,
            } => PushBody::Answer {
                number: *number,
                outcome: *outcome,
                holding: *holding,
            },
        })
    }
}
