//! The case that a message meets.
ghost use Rattle.std.specs.Prelude.{◌≡◌, Some, None, if◌then◌else◌};
ghost use Rattle.krl_server.specs.Afters.{does_answer, does_call, does_alarm};

use krl_durable::Change;
use krl_messages::{Outcome, WriteOp};
use krl_modes::{Mode, Point, Span};

/// The case that a message meets, as far as it can be known before anything is tried.
#[derive(Drop)]
pub(crate) enum Case {
    /// Nothing happens.
    Ignored,
    /// A new incarnation registers.
    Registers,
    /// The client leaves.
    Leaves,
    /// The client learns the epoch.
    Tells,
    /// A missing client reports.
    Reports,
    /// The push that is not acknowledged is sent again.
    Repeats,
    /// The last push is acknowledged, and nothing more.
    Acknowledges,
    /// Modes are given back.
    Lowers {
        span: Span,
        keep: Mode,
    },
    /// A lock request gets its place in a queue.
    Waits {
        req: u64,
        point: Point,
        hi: u64,
        mode: Mode,
    },
    /// A new write.
    Judges {
        number: u64,
        op: WriteOp,
    },
    /// A new write that seizes the lock that it needs, if that is free.
    SeizesLock {
        number: u64,
        op: WriteOp,
    },
    /// The last write again.
    AnswersAgain {
        number: u64,
        op: WriteOp,
        outcome: Outcome,
    },
}

/// What a message's case leaves to be done.
#[derive(Clone, Copy)]
pub(crate) enum After {
    /// Nothing.
    Nothing,
    /// A contradiction has to be reported.
    Alarm,
    /// Waiters are answered.
    Answers,
    /// Waiters are answered, and clients that block others are called back.
    Calls,
}

/// What a message's case has done.
#[derive(Clone, Copy)]
pub(crate) struct Performed {
    /// What it leaves to be done.
    pub(crate) after: After,
    /// What it changed in what survives.
    pub(crate) change: Option<Change>,
}

impl After {
    /// What survives has changed so.
    pub(crate) fn changing(self, change: Change) -> Performed
        ensures { result ≡ record { after = self; change = Some change } }
    {
        Performed {
            after: self,
            change: Some(change),
        }
    }

    /// What survives is as it was.
    pub(crate) fn unchanging(self) -> Performed
        ensures { result ≡ record { after = self; change = None } }
    {
        Performed {
            after: self,
            change: None,
        }
    }

    /// Whether waiters are answered.
    pub(crate) fn answers(self) -> bool
        ensures { result ≡ does_answer self }
    {
        matches!(self, After::Answers | After::Calls)
    }

    /// Whether clients that block others are called back.
    pub(crate) fn calls_back(self) -> bool
        ensures { result ≡ does_call self }
    {
        matches!(self, After::Calls)
    }

    /// The client whose contradiction has to be reported.
    pub(crate) fn alarm(self, client: u64) -> Option<u64>
        ensures { result ≡ (if does_alarm self then Some client else None) }
    {
        match self {
            After::Alarm => Some(client),
            After::Nothing | After::Answers | After::Calls => None,
        }
    }
}
