//! The last write of an incarnation.
ghost use Rattle.std.specs.Prelude.{◌≡◌, IfOk};
ghost use Rattle.krl_modes.specs.Spans.{contains};
ghost use Rattle.krl_client.specs.Clients as clients;
ghost use Rattle.krl_client.specs.Shown as shown;
ghost use Rattle.krl_client.specs.Fields.{written_of};
ghost use Rattle.krl_client.specs.FieldSteps.{judged_where};

use crate::status::WriteStatus;
use krl_messages::{Outcome, WriteOp};

/// What became of the last write.
#[derive(Clone, Copy)]
pub enum LastWrite {
    /// There was none.
    Unwritten,
    /// It is not answered yet.
    Outstanding(WriteOp),
    /// It was judged so.
    Judged(Outcome),
}

impl LastWrite {
    /// The write that is not answered yet.
    pub fn outstanding(self) -> Option<WriteOp>
        ensures { result ≡ clients.outstanding (written_of self) }
    {
        match self {
            LastWrite::Outstanding(change) => Some(change),
            LastWrite::Unwritten | LastWrite::Judged(_) => None,
        }
    }

    /// What a client shows of it, if it has this number.
    pub fn status(self, number: u64) -> WriteStatus
        ensures { result ≡ shown.write_status number (written_of self) }
    {
        match self {
            LastWrite::Unwritten => WriteStatus::NotWritten,
            LastWrite::Outstanding(_) => WriteStatus::Waiting(number),
            LastWrite::Judged(outcome) => WriteStatus::Judged(number, outcome),
        }
    }

    /// What becomes of it by an answer, which may be to an older one.
    pub fn judged(self, is_to_it: bool, outcome: Outcome) -> LastWrite
        ensures { written_of result ≡ judged_where is_to_it outcome (written_of self) }
    {
        match self {
            LastWrite::Outstanding(_) if is_to_it => LastWrite::Judged(outcome),
            _ => self,
        }
    }
}
