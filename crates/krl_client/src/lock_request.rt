//! The last lock request of an incarnation.
ghost use Rattle.std.specs.Prelude.{◌≡◌, ◌&&◌, if◌then◌else◌};
ghost use Rattle.krl_client.specs.Clients as clients;
ghost use Rattle.krl_client.specs.Shown as shown;
ghost use Rattle.krl_client.specs.Messages as messages;
ghost use Rattle.krl_client.specs.Fields.{asked_of};

use crate::status::LockStatus;
use krl_modes::Mode;

/// What became of the last lock request.
#[derive(Clone, Copy)]
pub enum LockRequest {
    /// There was none.
    NotAsked,
    /// It is not answered yet.
    Waiting {
        /// The first point that it asked for.
        point: u64,
        /// One past the last point that it asked for.
        hi: u64,
        /// The mode that it asked for.
        mode: Mode,
    },
    /// It was granted.
    Granted,
    /// There was no entry to lock.
    Absent,
    /// A new epoch took it away.
    Dropped,
}

impl LockRequest {
    /// Whether it is not answered yet.
    pub fn is_waiting(self) -> bool
        ensures { result ≡ clients.is_waiting (asked_of self) }
    {
        match self {
            LockRequest::Waiting { .. } => true,
            LockRequest::NotAsked
            | LockRequest::Granted
            | LockRequest::Absent
            | LockRequest::Dropped => false,
        }
    }

    /// What a client shows of it.
    pub fn status(self) -> LockStatus
        ensures { result ≡ shown.lock_status (asked_of self) }
    {
        match self {
            LockRequest::NotAsked => LockStatus::NotAsked,
            LockRequest::Waiting { .. } => LockStatus::Waiting,
            LockRequest::Granted => LockStatus::Granted,
            LockRequest::Absent => LockStatus::Absent,
            LockRequest::Dropped => LockStatus::Dropped,
        }
    }

    /// What becomes of it in a new epoch.
    pub fn dropped(self) -> LockRequest
        ensures { asked_of result ≡ messages.request_dropped (asked_of self) }
    {
        match self {
            LockRequest::Waiting { .. } => LockRequest::Dropped,
            LockRequest::NotAsked
            | LockRequest::Granted
            | LockRequest::Absent
            | LockRequest::Dropped => self,
        }
    }

    /// What becomes of it by a reply, which may be to an older one.
    pub fn answered(self, is_to_it: bool, reply: LockRequest) -> LockRequest
        ensures { asked_of result
            ≡ (if clients.is_waiting (asked_of self) && is_to_it
            then asked_of reply else asked_of self) }
    {
        if self.is_waiting() && is_to_it {
            reply
        } else {
            self
        }
    }
}
