//! A client's session: the numbers between the server and it.
ghost use Rattle.std.specs.Prelude.{◌≡◌};
ghost use Rattle.krl_server.specs.Servers.{blank_session};
ghost use Rattle.krl_server.specs.Answering.{can_push};

use krl_messages::PushBody;
use krl_modes::END;

/// What was pushed to one client, and asked by it, in this epoch.
#[derive(Drop)]
pub struct Session {
    /// The number of the last push, or 0.
    pub last_push: u64,
    /// That push, until it is acknowledged.
    pub unacked: Option<PushBody>,
    /// The number of the last request that was taken, or 0. A stranger that asks under a client's
    /// name may drive it past END.
    pub last_request: u64,
}

impl Session {
    /// Nothing was pushed or asked.
    pub(crate) fn blank() -> Session
        ensures { result ≡ blank_session }
    {
        Session {
            last_push: 0,
            unacked: None,
            last_request: 0,
        }
    }

    /// Whether another push may be made: the last one is acknowledged, and there is a number for
    /// the next.
    pub(crate) fn can_push(&self) -> bool
        ensures { result ≡ can_push self.now }
    {
        self.unacked.is_none() && self.last_push < END
    }
}
