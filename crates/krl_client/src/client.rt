//! A client.
ghost use Rattle.std.specs.Prelude.{◌≡◌, None, Some, IfOk, IfErr, OnOk};
ghost use Rattle.krl_client.specs.Clients as clients;
ghost use Rattle.krl_client.specs.Commands as commands;
ghost use Rattle.krl_client.specs.Ticks as ticks;
ghost use Rattle.krl_client.specs.Fields.{meaning};

use crate::last_write::LastWrite;
use crate::lock_request::LockRequest;
use crate::pins::Pins;
use crate::refused::StartRefused;
use krl_cache::Cache;
use krl_messages::{ToServer, ToServerBody};
use krl_modes::{END, MAX_CLIENTS};
use std::alloc::Global;
use std::marker::Model;

/// A client: what it learned, what it asked and wrote, what it believes, and the spans that it
/// pins.
#[derive(Drop)]
pub struct Client {
    pub(crate) alloc: Global,
    pub(crate) number: u64,
    pub(crate) incarnation: u64,
    /// 0 before it has joined one.
    pub(crate) epoch: u64,
    /// The number of the last push that it accepted in this epoch.
    pub(crate) seen: u64,
    /// The number of its last lock request in this epoch.
    pub(crate) req: u64,
    pub(crate) asked: LockRequest,
    /// The number of its last write.
    pub(crate) writes: u64,
    pub(crate) written: LastWrite,
    /// Whether its last write seizes the lock that it needs, if that is free.
    pub(crate) seizes: bool,
    pub(crate) cache: Cache,
    pub(crate) pins: Pins,
}

impl Model for Client {
    ghost use Rattle.krl_client.specs.Fields.{KeptClient, meaning};
    ghost use Rattle.krl_client.specs.Keeps.{IsClient};

    ghost Value = { KeptClient };

    ghost view = { λ c. record {
      number = c.number;
      incarnation = c.incarnation;
      epoch = c.epoch;
      seen = c.seen;
      req = c.req;
      asked = c.asked;
      writes = c.writes;
      written = c.written;
      seizes = c.seizes;
      cache = c.cache;
      pins = c.pins;
    } };

    ghost invariant = { λ c. IsClient (meaning (record {
      number = c.number;
      incarnation = c.incarnation;
      epoch = c.epoch;
      seen = c.seen;
      req = c.req;
      asked = c.asked;
      writes = c.writes;
      written = c.written;
      seizes = c.seizes;
      cache = c.cache;
      pins = c.pins;
    })) };
}

impl Client {
    /// A client of this number, from 0 to 63, that starts, and the Hello that it sends. Each start
    /// of a number has a greater incarnation, from 0 to END. It takes no memory.
    ///
    /// # Errors
    ///
    /// `BadClient` if the number is above 63; otherwise `Spent` if the incarnation is above END.
    pub fn start(
        alloc: Global,
        number: u64,
        incarnation: u64,
    ) -> Result<(Client, ToServer), StartRefused>
        ensures due { IfErr result (λ r. commands.start_refusal number incarnation ≡ Some r) }
        ensures none_due { OnOk result (commands.start_refusal number incarnation ≡ None) }
        ensures client { IfOk result (λ x. meaning x.0 ≡ clients.begun number incarnation) }
        ensures hello { IfOk result
            (λ x. x.1 ≡ ticks.says_hello (clients.begun number incarnation)) }
    {
        if number >= MAX_CLIENTS as u64 {
            return Err(StartRefused::BadClient);
        }
        if incarnation > END {
            return Err(StartRefused::Spent);
        }
        let client = Client {
            alloc,
            number,
            incarnation,
            epoch: 0,
            seen: 0,
            req: 0,
            asked: LockRequest::NotAsked,
            writes: 0,
            written: LastWrite::Unwritten,
            seizes: false,
            cache: Cache::new(alloc),
            pins: Pins::new(),
        };
        let hello = client.says(ToServerBody::Hello);
        Ok((client, hello))
    }
}
