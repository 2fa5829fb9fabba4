//! How an office is opened and closed, and how clients are seated.
ghost use Rattle.std.specs.Prelude.{◌≡◌, ◌≢◌, ◌<◌, true, false, None, [], replicate, nat_lt};
ghost use Rattle.std.specs.Prelude.{if◌then◌else◌, MatchResult, MatchBool};
ghost use Rattle.krl_world.specs.States.{fresh, durable_of};
ghost use Rattle.krl_world.specs.Steps.{CanBegin, CannotBegin};
ghost use Rattle.krl_world.specs.Fields.{node_of};
ghost use Rattle.krl_nodes.specs.Shown.{shown};
ghost use Rattle.krl_nodes.specs.Steps.{blank_of, joined_view, with_chair, IsLive, IsBlank};
ghost use Rattle.krl_nodes.specs.Nodes.{HoldsPost, Changes, IsSeated, IsOpened, IsNewClient};
ghost use Rattle.krl_nodes.specs.Nodes.{NotSeatedFor};
ghost use Rattle.krl_nodes.specs.Nodes.{with_seated, IsRetired, NoneSeated, SomeSeated, Survives};
ghost use Rattle.krl_modes.specs.declared.limits.TheConstants.{MAX_CLIENTS};

use crate::client::ClientNode;
use crate::office::Office;
use crate::post::{Chair, Post};
use crate::refused::{NotClosed, NotRetired, NotSeated};
use crate::rule::{Blanks, Opening, Ticket};
use crate::server::ServerNode;
use atomic_table::Table;
use krl_durable::Durable;
use krl_messages::{Items, Value};
use krl_modes::MAX_CLIENTS;
use krl_server::Server;
use krl_world::{ClientPlace, Refused, ServerPlace};
use std::alloc::Global;
use std::marker::Brand;
use std::snapshot::Snapshot;
use std::sync::Wait;

impl Office {
    /// An office with its server, which runs on these entries. No client is seated.
    ///
    /// # Errors
    ///
    /// `Full` above 65,536 entries; otherwise the first bad entry in order, by `BadKey` if its key
    /// is END or more, or by `Twice` if its key stands before; and `OutOfMemory` at any point.
    pub fn open(alloc: Global, entries: Vec<(u64, Value)>) -> Result<(Office, ServerNode), Refused>
        ensures { MatchResult result
            (λ r. CanBegin entries.items × IsOpened r.0 entries.items r.1)
            (CannotBegin entries.items) }
    {
        let durable = Durable::new(alloc, entries.as_slice())?;
        // By its clause `kept` the prover knows what holds of all that survives.
        durable.epoch();
        let server = match Server::start(alloc, durable) {
            Ok(server) => server,
            Err(_) => return Err(Refused::OutOfMemory),
        };
        let opening = Opening {
            entries: Items::from(entries),
            desk: ServerPlace::Up(server),
        };
        let about = Snapshot::of(&opening);
        let mut slots = Vec::with_capacity(alloc, 1)?;
        let post = Post::new(alloc, &opening.entries)?;
        slots.push(post)?;
        let Ok((table, ticket)) = Table::new(alloc, &[0], slots, &about) else {
            return Err(Refused::OutOfMemory);
        };
        let Opening { entries: _, desk } = opening;
        let node = ServerNode {
            alloc,
            desk,
            seated: [false; MAX_CLIENTS],
            ticket,
        };
        Ok((Office { table }, node))
    }

    // A blank seat next to a node's.
    fn blank(&self, ticket: &mut Ticket) -> Ticket
        requires own { ticket.old.table_id ≡ self.now }
        requires live { IsLive (shown ticket.old.me.0.node) }
        ensures same { (ticket.new.table_id ≡ ticket.old.table_id)
            × (ticket.new.id ≡ ticket.old.id) × (ticket.new.me ≡ ticket.old.me) }
        ensures blank { (result.table_id ≡ ticket.old.table_id)
            × (result.me ≡ (blank_of ticket.old.me.0, [])) }
    {
        self.table.shared.split_seat::<Blanks>(ticket)
    }

    // Takes in a blank seat.
    fn unblank(&self, ticket: &mut Ticket, other: Ticket)
        requires own { (ticket.old.table_id ≡ self.now) × (other.table_id ≡ self.now) }
        requires blank { (other.me.1 ≡ []) × IsBlank other.me.0 }
        ensures same { (ticket.new.table_id ≡ ticket.old.table_id)
            × (ticket.new.id ≡ ticket.old.id) }
        ensures joined { ticket.new.me ≡ (joined_view ticket.old.me.0 other.me.0, ticket.old.me.1) }
    {
        self.table.shared.join_seat::<Blanks>(ticket, other);
    }

    // Reads a client's chair in the post that the seat holds, and takes it if it is free.
    fn sit(&self, ticket: &mut Ticket, number: u64) -> Chair
        requires own { ticket.old.table_id ≡ self.now }
        requires holds { HoldsPost ticket.old.me }
        requires small { number < MAX_CLIENTS }
        ensures own { (ticket.new.table_id ≡ ticket.old.table_id)
            × (ticket.new.id ≡ ticket.old.id) }
        ensures sits { Changes ticket.old.me ticket.new.me (IsSeated number result) }
    {
        let post = ticket.slot_mut(&self.table.shared, 0);
        post.sit(number)
    }

    // Notes in the post that the seat holds that a client is not seated.
    fn get_up(&self, ticket: &mut Ticket, number: u64, incarnation: u64)
        requires own { ticket.old.table_id ≡ self.now }
        requires holds { HoldsPost ticket.old.me }
        requires small { number < MAX_CLIENTS }
        ensures own { (ticket.new.table_id ≡ ticket.old.table_id)
            × (ticket.new.id ≡ ticket.old.id) }
        ensures gets_up { Changes ticket.old.me ticket.new.me
            (λ mail mail'. mail' ≡ with_chair mail number (Chair.Free incarnation)) }
    {
        let post = ticket.slot_mut(&self.table.shared, 0);
        post.set_chair(number, Chair::Free(incarnation));
    }

    /// Seats a client, which is down.
    ///
    /// # Errors
    ///
    /// `BadClient` if the number is above 63, otherwise `Seated` if the post notes the client as
    /// seated. Nothing has changed then.
    pub fn seat_client<R: Wait>(
        &self,
        rt: &R,
        server: &mut ServerNode,
        number: u64,
    ) -> Result<ClientNode, NotSeated>
        requires { server.old.office ≡ self.now }
        ensures { MatchResult result
            (λ n. (number < MAX_CLIENTS) × IsNewClient server.old number n
            × (server.new ≡ with_seated server.old number true))
            (NotSeatedFor number server.old server.new) }
    {
        if number >= MAX_CLIENTS as u64 {
            return Err(NotSeated::BadClient);
        }
        let mut ticket = self.blank(&mut server.ticket);
        self.take(rt, &mut ticket);
        match self.sit(&mut ticket, number) {
            Chair::Taken => {
                self.give_back::<Brand>(&mut ticket);
                self.unblank(&mut server.ticket, ticket);
                Err(NotSeated::Seated)
            }
            Chair::Free(last_incarnation) => {
                let seat = ClientPlace {
                    last_incarnation,
                    client: None,
                };
                self.give_client::<Brand>(&mut ticket, number, &seat);
                server.seated[number as usize] = true;
                Ok(ClientNode {
                    alloc: server.alloc,
                    number,
                    seat,
                    ticket,
                })
            }
        }
    }

    /// Takes a client's seat back.
    ///
    /// # Errors
    ///
    /// A client that runs comes back as it was.
    pub fn retire<R: Wait>(
        &self,
        rt: &R,
        server: &mut ServerNode,
        client: ClientNode,
    ) -> Result<(), NotRetired>
        requires { (server.old.office ≡ self.now) × (client.office ≡ self.now) }
        ensures { MatchResult result
            (λ _. (client.seat.client ≡ None) × IsRetired client server.old server.new)
            (λ back. (client.seat.client ≢ None) × (back.still_up ≡ client)
            × (server.new ≡ server.old)) }
    {
        if client.seat.client.is_some() {
            return Err(NotRetired { still_up: client });
        }
        let ClientNode {
            alloc: _,
            number,
            seat,
            mut ticket,
        } = client;
        self.take(rt, &mut ticket);
        self.get_up(&mut ticket, number, seat.last_incarnation);
        self.give_back::<Brand>(&mut ticket);
        self.unblank(&mut server.ticket, ticket);
        server.seated[number as usize] = false;
        Ok(())
    }

    /// Closes the office, and gives what is durable.
    ///
    /// # Errors
    ///
    /// If the server seated a client that is not retired, both come back as they were.
    pub fn close(self, server: ServerNode) -> Result<Durable, NotClosed>
        requires { server.office ≡ self }
        ensures { MatchResult result
            (λ d. NoneSeated server.seated × (d ≡ durable_of (node_of server.desk))
            × Survives server.opening d)
            (λ back. SomeSeated server.seated × (back.office ≡ self) × (back.server ≡ server)) }
    {
        if any_seated(&server.seated) {
            return Err(NotClosed {
                office: self,
                server,
            });
        }
        let ServerNode {
            alloc: _,
            desk,
            seated: _,
            ticket: _,
        } = server;
        Ok(desk.into_durable())
    }
}

fn any_seated(seated: &[bool; MAX_CLIENTS]) -> bool
    ensures { MatchBool result (SomeSeated seated.now) (NoneSeated seated.now) }
{
    for one in seated {
        if *one {
            return true;
        }
    }
    false
}
