//! The clients that are missing.
ghost use Rattle.std.specs.Prelude.{◌≡◌, IfOk};
ghost use Rattle.krl_server.specs.Servers.{is_recovering, lists, unlist};

use std::alloc::{AllocError, Global};
use std::marker::Model;

/// The clients that were registered at the start and have since neither reported, nor registered
/// again, nor left, in order of first registration.
#[derive(Drop)]
pub struct Missing {
    clients: Vec<u64>,
}

impl Model for Missing {
    ghost use Rattle.std.specs.Prelude.{ℕ, List};

    ghost Value = { List ℕ };

    ghost view = { λ m. m.clients.items };
}

impl Missing {
    /// These clients.
    pub(crate) fn new(clients: Vec<u64>) -> Missing
        ensures { result ≡ clients.items }
    {
        Missing { clients }
    }

    /// Whether somebody is missing.
    pub(crate) fn is_recovering(&self) -> bool
        ensures { result ≡ is_recovering self.now }
    {
        !self.clients.is_empty()
    }

    /// Whether the client is missing.
    pub(crate) fn lists(&self, client: u64) -> bool
        ensures { result ≡ lists self.now client }
    {
        self.clients.iter().any(|other| client == *other)
    }

    /// The client is no longer missing.
    pub(crate) fn remove(&mut self, client: u64)
        ensures { self.new ≡ unlist self.old client }
    {
        self.clients.retain(|other| client != *other);
    }

    /// A copy of the list.
    ///
    /// # Errors
    ///
    /// `AllocError` if the copy's memory is refused.
    pub(crate) fn to_vec(&self, alloc: Global) -> Result<Vec<u64>, AllocError>
        ensures { IfOk result (λ clients. clients.items ≡ self.now) }
    {
        self.clients.to_vec(alloc)
    }
}
