//! A client's node.
ghost use Rattle.std.specs.Prelude.{◌≡◌, ◌<◌, suc};
ghost use Rattle.krl_world.specs.Fields.{place_of};
ghost use Rattle.krl_world.specs.States.{range_believed, key_believed};
ghost use Rattle.krl_nodes.specs.declared.policy.Pick.TheVariants.{Take};
ghost use Rattle.krl_nodes.specs.Turns.{ClientActs, ClientActsBy};
ghost use Rattle.krl_nodes.specs.Nodes.{HoldsPost, Changes, ClientTurns, ClientTurnsBy};
ghost use Rattle.krl_nodes.specs.Nodes.{IsSameClient};
ghost use Rattle.krl_nodes.specs.Nodes.{ScansAs, ScansIndex, client_of_node, status_at};
ghost use Rattle.krl_modes.specs.declared.limits.TheConstants.{MAX_CLIENTS};

use crate::office::Office;
use crate::orders::{ClientOrder, Turn};
use crate::policy::{Pick, Policy};
use crate::rule::Ticket;
use crate::turns::{do_client_order, do_client_order_by};
use krl_client::{ScanAnswer, Status};
use krl_modes::{KeyPart, RangePart};
use krl_world::{ClientPlace, Refused};
use std::alloc::Global;
use std::marker::{Brand, Model};
use std::sync::Wait;

/// A client with its seat. Contracts see the office, the entries that the world began with, what
/// its last turn did with the post, how often its seat gave the post back, the client's number, and
/// the client.
#[derive(Drop)]
pub struct ClientNode {
    pub(crate) alloc: Global,
    pub(crate) number: u64,
    pub(crate) seat: ClientPlace,
    pub(crate) ticket: Ticket,
}

impl Model for ClientNode {
    ghost use Rattle.krl_nodes.specs.Nodes.{SeatedClient};
    ghost use Rattle.std.specs.Coded.{codes};
    ghost use Rattle.atomic_table.specs.Seated.{table_id_coded};
    ghost use Rattle.krl_world.specs.contracts.node.ClientPlace as client_seat;
    ghost use Rattle.krl_nodes.specs.contracts.view.Exchange as exchange;

    ghost Value = { SeatedClient };

    ghost coded = { Prim.hlevel
        (codes, table_id_coded, client_seat.the_row.coded, exchange.the_row.coded) };

    ghost use Rattle.std.specs.Prelude.{◌<◌};
    ghost use Rattle.krl_nodes.specs.Nodes.{IsAt};
    ghost use Rattle.krl_nodes.specs.declared.view.Node.TheVariants.{Client};
    ghost use Rattle.krl_modes.specs.declared.limits.TheConstants.{MAX_CLIENTS};

    ghost view = { λ n. record {
      office = n.ticket.table_id;
      opening = n.ticket.me.0.opening;
      last = n.ticket.me.0.last;
      given = n.ticket.me.0.given;
      number = n.number;
      seat = n.seat;
    } };

    ghost invariant = { λ n. IsAt n.ticket (Client n.number n.seat) × (n.number < MAX_CLIENTS) };
}

// One order, on the post that the seat holds.
fn do_order(
    alloc: Global,
    office: &Office,
    ticket: &mut Ticket,
    number: u64,
    seat: &mut ClientPlace,
    order: ClientOrder,
) -> Result<Turn, Refused>
    requires own { ticket.old.table_id ≡ office.now }
    requires holds { HoldsPost ticket.old.me }
    requires small { number < MAX_CLIENTS }
    ensures own { (ticket.new.table_id ≡ ticket.old.table_id) × (ticket.new.id ≡ ticket.old.id) }
    ensures acts { Changes ticket.old.me ticket.new.me (λ mail mail'. ClientActs (Take 0) order
        number mail (place_of seat.old) mail' (place_of seat.new) result) }
{
    let post = ticket.slot_mut(&office.table.shared, 0);
    post.sort();
    let answer = do_client_order(alloc, post, number, seat, order, Pick::Take(0));
    post.sort();
    answer
}

// So by the policy's pick.
fn do_order_by<P: Policy>(
    alloc: Global,
    office: &Office,
    ticket: &mut Ticket,
    number: u64,
    seat: &mut ClientPlace,
    order: ClientOrder,
    policy: &mut P,
) -> Result<Turn, Refused>
    requires own { ticket.old.table_id ≡ office.now }
    requires holds { HoldsPost ticket.old.me }
    requires small { number < MAX_CLIENTS }
    ensures own { (ticket.new.table_id ≡ ticket.old.table_id) × (ticket.new.id ≡ ticket.old.id) }
    ensures acts { Changes ticket.old.me ticket.new.me (λ mail mail'. ClientActsBy P.picks order
        number mail (place_of seat.old) policy.old mail' (place_of seat.new) result policy.new) }
{
    let post = ticket.slot_mut(&office.table.shared, 0);
    post.sort();
    let answer = do_client_order_by(alloc, post, number, seat, order, policy);
    post.sort();
    answer
}

impl ClientNode {
    /// Takes the post, does one order and gives the post back. `Letter` reads the oldest letter to
    /// this client, which loses it if it is down. What is sent goes to the end of the letters to
    /// the server.
    ///
    /// # Errors
    ///
    /// The first of these, and the post goes back as it was: `Running` for `Start` if the client
    /// runs, and `Down` for `Command`, `Tick` and `Crash` if it doesn't; `Spent` if there is
    /// no incarnation for a start; what the client refuses of a command; `OutOfMemory` if memory
    /// is refused.
    pub fn turn<R: Wait>(
        &mut self,
        rt: &R,
        office: &Office,
        order: ClientOrder,
    ) -> Result<Turn, Refused>
        requires { self.old.office ≡ office.now }
        ensures same { IsSameClient self.old self.new }
        ensures turns { ClientTurns order self.old result self.new }
        ensures once { self.new.given ≡ suc self.old.given }
    {
        office.take(rt, &mut self.ticket);
        let number = self.number;
        let answer = do_order(
            self.alloc,
            office,
            &mut self.ticket,
            number,
            &mut self.seat,
            order,
        );
        office.give_client::<Brand>(&mut self.ticket, number, &self.seat);
        answer
    }

    /// Like `turn`, except for `Letter`: if some letter to this client waits, the policy is asked
    /// which one is delivered, and whether it is taken out or stays; or which one is lost. A lost
    /// letter is taken out, and the client is as it was: the answer is `Lost`.
    ///
    /// # Errors
    ///
    /// As of `turn`.
    pub fn turn_by<R: Wait, P: Policy>(
        &mut self,
        rt: &R,
        office: &Office,
        order: ClientOrder,
        policy: &mut P,
    ) -> Result<Turn, Refused>
        requires { self.old.office ≡ office.now }
        ensures same { IsSameClient self.old self.new }
        ensures turns { ClientTurnsBy P.picks order self.old policy.old result self.new policy.new }
        ensures once { self.new.given ≡ suc self.old.given }
    {
        office.take(rt, &mut self.ticket);
        let number = self.number;
        let answer = do_order_by(
            self.alloc,
            office,
            &mut self.ticket,
            number,
            &mut self.seat,
            order,
            policy,
        );
        office.give_client::<Brand>(&mut self.ticket, number, &self.seat);
        answer
    }

    /// The client's number.
    pub fn number(&self) -> u64
        ensures { result ≡ self.now.number }
    {
        self.number
    }

    /// What the client believes that it holds at the point: a range part and a key part, both N
    /// past END, and if the client does not run. It takes no memory, and neither the post nor a
    /// runtime value.
    pub fn held(&self, point: u64) -> (RangePart, KeyPart)
        ensures { let client = client_of_node self.now in
            result ≡ (range_believed client point, key_believed client point) }
    {
        match &self.seat.client {
            Some(client) => client.held(point),
            None => (RangePart::N, KeyPart::N),
        }
    }

    /// What the client shows of itself, if it runs. It takes no memory, and neither the post nor
    /// a runtime value.
    pub fn status(&self) -> Option<Status>
        ensures { result ≡ status_at (client_of_node self.now) }
    {
        match &self.seat.client {
            Some(client) => Some(client.status()),
            None => None,
        }
    }

    /// What the client's own cache states of the points from `lo` on below `hi`. The rows are the
    /// entries of the server's index in that span, at this moment, and no message is sent: neither
    /// the post nor a runtime value is taken.
    ///
    /// # Errors
    ///
    /// `Down` if the client does not run; otherwise `BadSpan` if `lo` is not below `hi`, or `hi`
    /// is above TOP; otherwise `OutOfMemory` if the memory for the rows is refused.
    pub fn scan(&self, lo: u64, hi: u64) -> Result<ScanAnswer, Refused>
        ensures answers { ScansAs (client_of_node self.now) lo hi result }
        ensures there { ScansIndex self.now lo hi result }
    {
        match &self.seat.client {
            Some(client) => Ok(client.scan(lo, hi)?),
            None => Err(Refused::Down),
        }
    }
}
