//! Memory for the grants of waiters, which is taken when they begin to wait.
ghost use Rattle.std.specs.Prelude.{◌≡◌, ◌<◌, ◌≤◌, ℕ, None, IfOk, OnOk, length, set, slice_index_or};
ghost use Rattle.krl_modes.specs.declared.limits.TheConstants.{MAX_CLIENTS};
ghost use Rattle.krl_server.specs.GrantRooms.{room_of};

use crate::grant_room::GrantRoom;
use krl_modes::MAX_CLIENTS;
use std::alloc::{AllocError, Global};
use std::marker::Model;

/// For each client the room for a grant, from when it comes to wait until it is granted. If it
/// stops waiting without a grant, the room is kept for the next time.
#[derive(Drop)]
pub(crate) struct GrantRooms {
    each: Vec<Option<GrantRoom>>,
}

impl Model for GrantRooms {
    ghost use Rattle.std.specs.Prelude.{List, Option, ℕ};

    ghost Value = { List (Option ℕ) };

    ghost view = { λ r. r.each.items };
}

// No room for any client.
fn no_rooms(alloc: Global) -> Result<Vec<Option<GrantRoom>>, AllocError>
    ensures { IfOk result (λ rooms. length rooms.items ≡ MAX_CLIENTS) }
{
    let mut each = Vec::with_capacity(alloc, MAX_CLIENTS)?;
    for _client in 0..MAX_CLIENTS {
        each.push_reserved(None);
    }
    Ok(each)
}

impl GrantRooms {
    /// No room for any client.
    ///
    /// # Errors
    ///
    /// `AllocError` if memory is refused.
    pub(crate) fn none(alloc: Global) -> Result<GrantRooms, AllocError>
        ensures { IfOk result (λ rooms. length rooms ≡ MAX_CLIENTS) }
    {
        let each = no_rooms(alloc)?;
        Ok(GrantRooms { each })
    }

    // For how many slots there is room in the client's grant.
    fn room(&self, client: u64) -> usize
        requires { client < length self.now }
        ensures { result ≡ room_of self.now client }
    {
        match &self.each[client as usize] {
            None => 0,
            Some(room) => room.slots(),
        }
    }

    /// Makes room for so many slots in the client's grant, unless there is as much.
    ///
    /// # Errors
    ///
    /// `AllocError` if memory is refused. Nothing has changed then.
    pub(crate) fn reserve(
        &mut self,
        alloc: Global,
        client: u64,
        slots: usize,
    ) -> Result<(), AllocError>
        requires { client < length self.old }
        ensures full { length self.new ≡ length self.old }
        ensures room { OnOk result (slots ≤ room_of self.new client) }
        ensures kept { (c : ℕ) → room_of self.old c ≤ room_of self.new c }
    {
        if self.room(client) >= slots {
            return Ok(());
        }
        let room = GrantRoom::new(alloc, slots)?;
        self.each[client as usize] = Some(room);
        Ok(())
    }

    /// The client's room, if there is one. It is the caller's from now on.
    pub(crate) fn take(&mut self, client: u64) -> Option<GrantRoom>
        requires { client < length self.old }
        ensures room { result ≡ slice_index_or self.old client None }
        ensures left { self.new ≡ set self.old client None }
    {
        self.each[client as usize].take()
    }
}
