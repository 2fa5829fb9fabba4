//! The post: the letters that wait, and who is seated.
ghost use Rattle.std.specs.Prelude.{◌≡◌, ◌<◌, ℕ, [], replicate, IfOk, OnOk, OnErr};
ghost use Rattle.std.specs.Prelude.{Some, slice_get, MatchBool, MatchResult};
ghost use Rattle.krl_server.specs.StateMeaning as server_states;
ghost use Rattle.krl_server.specs.Steps as steps;
ghost use Rattle.krl_client.specs.Fields as client_fields;
ghost use Rattle.krl_world.specs.Fields.{node_of, place_of};
ghost use Rattle.krl_steps.specs.declared.refused.Refused.TheVariants as refused;
ghost use Rattle.krl_nodes.specs.declared.orders.ServerOrder.TheVariants as server_order;
ghost use Rattle.krl_nodes.specs.declared.orders.ClientOrder.TheVariants as client_order;
ghost use Rattle.krl_nodes.specs.Letters.{IsReader, waiting_for, with_sent};
ghost use Rattle.krl_nodes.specs.declared.policy.Pick.{Pick};
ghost use Rattle.krl_nodes.specs.Steps.{with_chair};
ghost use Rattle.krl_nodes.specs.Turns.{ServerActs, ClientActs, HasTicked, did_of, done_if};
ghost use Rattle.krl_nodes.specs.Sorting.{is_for, HasHeard, HasRead, HasOne, HasNone};
ghost use Rattle.krl_nodes.specs.Sorting.{HasTaken, IsNew};
ghost use Rattle.krl_nodes.specs.Nodes.{IsSeated};
ghost use Rattle.krl_modes.specs.declared.limits.TheConstants.{MAX_CLIENTS};

use crate::inbox::Inbox;
use crate::orders::Turn;
use crate::policy::Pick;
use crate::sorting::sort_all;
use krl_client::Client;
use krl_messages::{Items, ToClient, ToServer, Value};
use krl_modes::MAX_CLIENTS;
use krl_server::Server;
use krl_world::network::{MAX_OF_A_SERVER, send_to_clients};
use krl_world::{
    Answer, ClientPlace, Command, Message, Refused, ServerPlace, client_steps, server_steps,
};
use std::alloc::{AllocError, Global};
use std::marker::Model;
use std::snapshot::Snapshot;

/// What the post notes of a client: that it is seated, or the greatest incarnation that it had.
#[derive(Clone, Copy)]
pub enum Chair {
    /// It is seated.
    Taken,
    /// It is not.
    Free(u64),
}

/// The node that reads a letter.
#[derive(Clone, Copy)]
pub enum Reader {
    /// The server.
    Server,
    /// The client of this number.
    Client(u64),
}

/// The letters to each node, oldest first, and the chairs; for contracts, the opening entries too.
#[derive(Drop)]
pub struct Post {
    opening: Snapshot<Items<(u64, Value)>>,
    to_server: Inbox<ToServer>,
    to_clients: Vec<Inbox<ToClient>>,
    // What was sent last. A step has room for what it sends before it runs, and knows only then
    // whom it sends to; `sort` leaves none of it unless memory is refused.
    unsorted: Vec<Message>,
    chairs: [Chair; MAX_CLIENTS],
}

impl Model for Post {
    ghost use Rattle.krl_nodes.specs.Mail.{Mail};
    ghost use Rattle.krl_nodes.specs.Letters.{mail_of};

    ghost Value = { Mail };

    ghost use Rattle.std.specs.Prelude.{◌≡◌, length};
    ghost use Rattle.krl_modes.specs.declared.limits.TheConstants.{MAX_CLIENTS};

    ghost view = { λ p.
        mail_of p.opening.value p.to_server p.to_clients.items p.unsorted.items p.chairs };

    ghost invariant = { λ p. (length p.chairs ≡ MAX_CLIENTS)
        × (length p.to_clients.items ≡ MAX_CLIENTS) };
}

// Inboxes for 64 clients, without letters.
fn inboxes(alloc: Global) -> Result<Vec<Inbox<ToClient>>, AllocError>
    ensures { IfOk result (λ inboxes. inboxes.items ≡ replicate MAX_CLIENTS []) }
{
    let mut inboxes = Vec::with_capacity(alloc, MAX_CLIENTS)?;
    for _ in 0..MAX_CLIENTS as u64 {
        inboxes.push(Inbox::new(alloc))?;
    }
    Ok(inboxes)
}

fn is_for(reader: Reader, message: &Message) -> bool
    ensures { result ≡ is_for reader message.now }
{
    match message {
        Message::ToServer(_) => match reader {
            Reader::Server => true,
            Reader::Client(_) => false,
        },
        Message::ToClient(letter) => match reader {
            Reader::Server => false,
            Reader::Client(client) => letter.client == client,
        },
    }
}

// Whether some message is to the reader.
fn any_for(messages: &[Message], reader: Reader) -> bool
    ensures { MatchBool result (HasOne reader messages.now) (HasNone reader messages.now) }
{
    for message in messages {
        if is_for(reader, message) {
            return true;
        }
    }
    false
}

// The server reads the letter, and what it sends goes after the messages. One that is down loses
// the letter.
fn hear(
    alloc: Global,
    desk: &mut ServerPlace,
    messages: &mut Vec<Message>,
    letter: &ToServer,
) -> Result<(), AllocError>
    ensures ok { OnOk result (HasHeard (node_of desk.old) letter.now (node_of desk.new)
        messages.old.items messages.new.items) }
    ensures err { OnErr result
        ((desk.new ≡ desk.old) × (messages.new.items ≡ messages.old.items)) }
{
    let ServerPlace::Up(server) = desk else {
        return Ok(());
    };
    messages.reserve(MAX_OF_A_SERVER)?;
    let out = server.step(alloc, letter)?;
    send_to_clients(messages, out.messages);
    Ok(())
}

// So does a client.
fn read(
    seat: &mut ClientPlace,
    messages: &mut Vec<Message>,
    letter: &ToClient,
) -> Result<(), AllocError>
    ensures ok { OnOk result (HasRead (place_of seat.old) letter.now (place_of seat.new)
        messages.old.items messages.new.items) }
    ensures err { OnErr result
        ((seat.new ≡ seat.old) × (messages.new.items ≡ messages.old.items)) }
{
    let Some(client) = &mut seat.client else {
        return Ok(());
    };
    client_steps::read(client, messages, letter)
}

// The server reads the letter that is picked, if there is one.
fn hear_one(
    alloc: Global,
    inbox: &mut Inbox<ToServer>,
    desk: &mut ServerPlace,
    messages: &mut Vec<Message>,
    pick: Pick,
) -> Result<Turn, Refused>
    ensures { HasTaken HasHeard pick inbox.old (node_of desk.old) messages.old.items
        inbox.new (node_of desk.new) messages.new.items result }
{
    if inbox.len() == 0 {
        return Ok(Turn::Idle);
    }
    let at = pick.place(inbox.len());
    match pick {
        Pick::Take(_) => {
            hear(alloc, desk, messages, inbox.letter(at))?;
            inbox.remove(at);
            Ok(Turn::Did(Answer::Done))
        }
        Pick::Copy(_) => {
            hear(alloc, desk, messages, inbox.letter(at))?;
            Ok(Turn::Did(Answer::Done))
        }
        Pick::Lose(_) => {
            inbox.remove(at);
            Ok(Turn::Lost)
        }
    }
}

// So does a client.
fn read_one(
    inbox: &mut Inbox<ToClient>,
    seat: &mut ClientPlace,
    messages: &mut Vec<Message>,
    pick: Pick,
) -> Result<Turn, Refused>
    ensures { HasTaken HasRead pick inbox.old (place_of seat.old) messages.old.items
        inbox.new (place_of seat.new) messages.new.items result }
{
    if inbox.len() == 0 {
        return Ok(Turn::Idle);
    }
    let at = pick.place(inbox.len());
    match pick {
        Pick::Take(_) => {
            read(seat, messages, inbox.letter(at))?;
            inbox.remove(at);
            Ok(Turn::Did(Answer::Done))
        }
        Pick::Copy(_) => {
            read(seat, messages, inbox.letter(at))?;
            Ok(Turn::Did(Answer::Done))
        }
        Pick::Lose(_) => {
            inbox.remove(at);
            Ok(Turn::Lost)
        }
    }
}

impl Post {
    /// The post of a new office.
    ///
    /// # Errors
    ///
    /// `AllocError` if memory is refused.
    pub(crate) fn new(alloc: Global, opening: &Items<(u64, Value)>) -> Result<Post, AllocError>
        ensures { IfOk result (λ post. IsNew opening.now post) }
    {
        Ok(Post {
            opening: Snapshot::of(opening),
            to_server: Inbox::new(alloc),
            to_clients: inboxes(alloc)?,
            unsorted: Vec::new(alloc),
            chairs: [Chair::Free(0); MAX_CLIENTS],
        })
    }

    fn chair(&self, client: u64) -> Chair
        requires { client < MAX_CLIENTS }
        ensures { slice_get self.now.chairs client ≡ Some result }
    {
        self.chairs[client as usize]
    }

    /// Notes that the client is seated, or that it is not.
    pub(crate) fn set_chair(&mut self, client: u64, chair: Chair)
        requires { client < MAX_CLIENTS }
        ensures { self.new ≡ with_chair self.old client chair }
    {
        self.chairs[client as usize] = chair;
    }

    /// Seats the client if its chair is free, and reports how it was.
    pub(crate) fn sit(&mut self, client: u64) -> Chair
        requires { client < MAX_CLIENTS }
        ensures { IsSeated client result self.old self.new }
    {
        let chair = self.chair(client);
        if let Chair::Free(_) = chair {
            self.set_chair(client, Chair::Taken);
        }
        chair
    }

    /// Puts what was sent last after the letters to each node, as far as memory allows. Contracts
    /// see nothing of it.
    pub(crate) fn sort(&mut self)
        ensures { self.new ≡ self.old }
    {
        sort_all(
            &mut self.to_server,
            &mut self.to_clients,
            &mut self.unsorted,
        );
    }

    /// How many letters wait for the reader.
    ///
    /// # Errors
    ///
    /// `OutOfMemory` if some letter to it is not sorted, since memory was refused.
    pub(crate) fn count_for(&self, reader: Reader) -> Result<usize, Refused>
        requires { IsReader reader }
        ensures { MatchResult result (λ n. n ≡ waiting_for reader self.now)
            (λ r. (r ≡ refused.OutOfMemory) × (0 < waiting_for reader self.now)) }
    {
        if any_for(&self.unsorted, reader) {
            return Err(Refused::OutOfMemory);
        }
        match reader {
            Reader::Server => Ok(self.to_server.len()),
            Reader::Client(client) => Ok(self.to_clients[client as usize].len()),
        }
    }

    /// The server reads the letter that is picked, if there is one, and what it sends goes to the
    /// end of the letters to each client. A server that is down loses the letter.
    ///
    /// # Errors
    ///
    /// `OutOfMemory` if memory is refused. Nothing has changed then.
    pub(crate) fn serve(
        &mut self,
        alloc: Global,
        desk: &mut ServerPlace,
        pick: Pick,
    ) -> Result<Turn, Refused>
        ensures { ServerActs pick server_order.Letter self.old (node_of desk.old) self.new
            (node_of desk.new) result }
    {
        if any_for(&self.unsorted, Reader::Server) {
            return Err(Refused::OutOfMemory);
        }
        hear_one(alloc, &mut self.to_server, desk, &mut self.unsorted, pick)
    }

    /// The client of this number reads the letter that is picked, if there is one, and what it
    /// sends goes to the end of the letters to the server. One that is down loses the letter.
    ///
    /// # Errors
    ///
    /// `OutOfMemory` if memory is refused. Nothing has changed then.
    pub(crate) fn hand(
        &mut self,
        number: u64,
        seat: &mut ClientPlace,
        pick: Pick,
    ) -> Result<Turn, Refused>
        requires { number < MAX_CLIENTS }
        ensures { ClientActs pick client_order.Letter number self.old (place_of seat.old) self.new
            (place_of seat.new) result }
    {
        if any_for(&self.unsorted, Reader::Client(number)) {
            return Err(Refused::OutOfMemory);
        }
        let inbox = &mut self.to_clients[number as usize];
        read_one(inbox, seat, &mut self.unsorted, pick)
    }

    /// The server is nudged for a client.
    ///
    /// # Errors
    ///
    /// `AllocError` if memory is refused. Nothing has changed then.
    pub(crate) fn nudge(
        &mut self,
        alloc: Global,
        server: &Server,
        client: u64,
    ) -> Result<(), AllocError>
        ensures ok { OnOk result (self.new ≡ with_sent self.old
            (steps.nudge (server_states.meaning server.now) client)) }
        ensures err { OnErr result (self.new ≡ self.old) }
    {
        server_steps::nudge(alloc, server, &mut self.unsorted, client)
    }

    /// The client at the seat, if one runs, obeys the command.
    ///
    /// # Errors
    ///
    /// `Down` if none runs, otherwise what the client refuses. Nothing has changed then.
    pub(crate) fn obey(&mut self, seat: &mut ClientPlace, what: Command) -> Result<Answer, Refused>
        ensures { (p : Pick) (c : ℕ) → ClientActs p (client_order.Command what) c self.old
            (place_of seat.old) self.new (place_of seat.new) (did_of result) }
    {
        client_steps::obey(seat, &mut self.unsorted, what)
    }

    /// The client sends again what is not answered.
    ///
    /// # Errors
    ///
    /// `AllocError` if memory is refused. Nothing has changed then.
    pub(crate) fn tick(&mut self, client: &Client) -> Result<(), AllocError>
        ensures ok { OnOk result (HasTicked (client_fields.meaning client.now) self.old self.new) }
        ensures err { OnErr result (self.new ≡ self.old) }
    {
        client_steps::tick(client, &mut self.unsorted)
    }

    /// A client of this number starts at its seat, with the next incarnation.
    ///
    /// # Errors
    ///
    /// As `krl_world` refuses it. Nothing has changed then.
    pub(crate) fn start(
        &mut self,
        alloc: Global,
        seat: &mut ClientPlace,
        number: u64,
    ) -> Result<(), Refused>
        ensures { (p : Pick) → ClientActs p client_order.Start number self.old (place_of seat.old)
            self.new (place_of seat.new) (did_of (done_if result)) }
    {
        client_steps::start(alloc, seat, &mut self.unsorted, number)
    }
}
