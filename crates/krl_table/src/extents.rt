//! Between which slots each client holds and waits.
ghost use Rattle.std.specs.Prelude.{◌≡◌, ◌≢◌, ◌<◌, ℕ};
ghost use Rattle.krl_table.specs.Extents.{Lies, AreWider, extent_in};
ghost use Rattle.krl_modes.specs.declared.limits.TheConstants.{MAX_CLIENTS};

use crate::extent::Extent;
use krl_modes::MAX_CLIENTS;

/// For each client an extent in which it holds and waits. It may do so at few of these slots: an
/// extent grows, and begins again if the client is forgotten.
#[derive(Drop)]
pub(crate) struct Extents {
    pub(crate) by_client: [Extent; MAX_CLIENTS],
}

impl Extents {
    /// Nobody holds anything, or waits.
    pub(crate) fn nowhere() -> Extents {
        Extents {
            by_client: [Extent::nowhere(); MAX_CLIENTS],
        }
    }

    /// The extent of the client.
    pub(crate) fn of(&self, client: u64) -> Extent
        requires { client < MAX_CLIENTS }
        ensures { result ≡ extent_in self.now.by_client client }
    {
        self.by_client[client as usize]
    }

    /// The client may hold or wait there from now on.
    pub(crate) fn note(&mut self, client: u64, slot: u64)
        requires { client < MAX_CLIENTS }
        ensures wider { AreWider self.old.by_client self.new.by_client }
        ensures there { Lies (extent_in self.new.by_client client) slot }
    {
        let extent = self.of(client).including(slot);
        self.by_client[client as usize] = extent;
    }

    /// A client that may hold or wait at the first slot may do so at the second from now on.
    pub(crate) fn follow(&mut self, from: u64, to: u64)
        ensures wider { AreWider self.old.by_client self.new.by_client }
        ensures there { (c : ℕ) → c < MAX_CLIENTS → Lies (extent_in self.old.by_client c) from
            → Lies (extent_in self.new.by_client c) to }
    {
        for client in 0..MAX_CLIENTS as u64 {
            let extent = self.of(client).following(from, to);
            self.by_client[client as usize] = extent;
        }
    }

    /// The client holds nothing, and does not wait.
    pub(crate) fn forget(&mut self, client: u64)
        requires { client < MAX_CLIENTS }
        ensures { (c : ℕ) → c ≢ client
            → extent_in self.new.by_client c ≡ extent_in self.old.by_client c }
    {
        self.by_client[client as usize] = Extent::nowhere();
    }
}
