//! Ticks.
ghost use Rattle.std.specs.Prelude.{◌≡◌, None, Some, IfOk, OnOk, ◌++◌};
ghost use Rattle.krl_client.specs.Clients as clients;
ghost use Rattle.krl_client.specs.Commands as commands;
ghost use Rattle.krl_client.specs.Messages as messages;
ghost use Rattle.krl_client.specs.Ticks as ticks;
ghost use Rattle.krl_client.specs.Fields.{meaning};
ghost use Rattle.krl_client.specs.FieldSteps.{IsReport, IsOpening, IsTick, as_list};

use crate::client::Client;
use crate::lock_request::LockRequest;
use crate::view::one;
use krl_cache::Belief;
use krl_messages::{RequestBody, ToServer, ToServerBody};
use std::alloc::AllocError;

// Adds the message, if there is one.
fn push_if(list: &mut Vec<ToServer>, message: Option<ToServer>) -> Result<(), AllocError>
    ensures { OnOk result (list.new.items ≡ list.old.items ++ as_list message) }
{
    if let Some(message) = message {
        list.push(message)?;
    }
    Ok(())
}

impl Client {
    // A Report of what it believes, in an epoch that it has joined or joins.
    pub(crate) fn report(&self, epoch: u64) -> Result<ToServer, AllocError>
        ensures { IfOk result (IsReport (meaning self.now) epoch) }
    {
        let pieces = self.cache.pieces(self.alloc)?;
        Ok(self.says(ToServerBody::Report { epoch, pieces }))
    }

    // The lock request that waits, again.
    fn lock_again(&self) -> Option<ToServer>
        ensures { as_list result ≡ ticks.lock_again (meaning self.now) (meaning self.now).asked }
    {
        match self.asked {
            LockRequest::Waiting { point, hi, mode } => {
                let req = self.req;
                Some(self.requests(RequestBody::Lock {
                    req,
                    point,
                    hi,
                    mode,
                }))
            }
            LockRequest::NotAsked
            | LockRequest::Granted
            | LockRequest::Absent
            | LockRequest::Dropped => None,
        }
    }

    // The outstanding write, again.
    fn write_again(&self) -> Option<ToServer>
        ensures { as_list result
            ≡ ticks.write_again (meaning self.now)
            (clients.outstanding (meaning self.now).written) }
    {
        let op = self.written.outstanding()?;
        let number = self.writes;
        let seizes = self.seizes;
        Some(self.requests(RequestBody::Write { number, op, seizes }))
    }

    // What it sends first in an epoch that it has joined: its Report if it has accepted no push
    // of it, otherwise an Ack.
    fn opening(&self) -> Result<ToServer, AllocError>
        ensures { IfOk result (IsOpening (meaning self.now)) }
    {
        if self.seen == 0 {
            return self.report(self.epoch);
        }
        Ok(self.requests(RequestBody::Ack))
    }

    /// What it sends again and again: before it has joined an epoch, Hello; after that its Report
    /// if it has accepted no push of the epoch, and otherwise an Ack, then its waiting lock
    /// request and its outstanding write.
    ///
    /// # Errors
    ///
    /// `AllocError` if memory is refused.
    pub fn tick(&self) -> Result<Vec<ToServer>, AllocError>
        ensures { IfOk result (λ list. IsTick (meaning self.now) list.items) }
    {
        if !self.has_joined() {
            // By `?` the prover has two cases, refused and done.
            let hellos = one(self.alloc, self.says(ToServerBody::Hello))?;
            return Ok(hellos);
        }
        let mut list = Vec::with_capacity(self.alloc, 3)?;
        let opening = self.opening()?;
        list.push(opening)?;
        push_if(&mut list, self.lock_again())?;
        push_if(&mut list, self.write_again())?;
        Ok(list)
    }
}
