//! The server's node.
ghost use Rattle.std.specs.Prelude.{◌≡◌, suc};
ghost use Rattle.krl_world.specs.Fields.{node_of};
ghost use Rattle.krl_nodes.specs.declared.policy.Pick.TheVariants.{Take};
ghost use Rattle.krl_nodes.specs.Turns.{ServerActs, ServerActsBy};
ghost use Rattle.krl_nodes.specs.Nodes.{HoldsPost, Changes, ServerTurns, ServerTurnsBy};
ghost use Rattle.krl_nodes.specs.Nodes.{IsSameServer};

use crate::office::Office;
use crate::orders::{ServerOrder, Turn};
use crate::policy::{Pick, Policy};
use crate::rule::Ticket;
use crate::turns::{do_server_order, do_server_order_by};
use krl_modes::MAX_CLIENTS;
use krl_world::{Refused, ServerPlace};
use std::alloc::Global;
use std::marker::{Brand, Model};
use std::sync::Wait;

/// The server with its seat. Contracts see the office, the entries that the world began with, what
/// its last turn did with the post, how often its seat and those of retired clients gave the post
/// back, the server, and which clients it seated.
#[derive(Drop)]
pub struct ServerNode {
    pub(crate) alloc: Global,
    pub(crate) desk: ServerPlace,
    pub(crate) seated: [bool; MAX_CLIENTS],
    pub(crate) ticket: Ticket,
}

impl Model for ServerNode {
    ghost use Rattle.krl_nodes.specs.Nodes.{SeatedServer};
    ghost use Rattle.std.specs.Coded.{codes};
    ghost use Rattle.atomic_table.specs.Seated.{table_id_coded};
    ghost use Rattle.krl_world.specs.contracts.node.ServerPlace as server_node;
    ghost use Rattle.krl_nodes.specs.contracts.view.Exchange as exchange;

    ghost Value = { SeatedServer };

    ghost coded = { Prim.hlevel
        (codes, table_id_coded, server_node.the_row.coded, exchange.the_row.coded) };

    ghost use Rattle.krl_nodes.specs.Nodes.{IsAt};
    ghost use Rattle.krl_nodes.specs.declared.view.Node.TheVariants.{Server};

    ghost view = { λ n. record {
      office = n.ticket.table_id;
      opening = n.ticket.me.0.opening;
      last = n.ticket.me.0.last;
      given = n.ticket.me.0.given;
      desk = n.desk;
      seated = n.seated;
    } };

    ghost use Rattle.std.specs.Prelude.{◌≡◌, length};
    ghost use Rattle.krl_modes.specs.declared.limits.TheConstants.{MAX_CLIENTS};

    ghost invariant = { λ n. IsAt n.ticket (Server n.desk) × (length n.seated ≡ MAX_CLIENTS) };
}

// One order, on the post that the seat holds.
fn do_order(
    alloc: Global,
    office: &Office,
    ticket: &mut Ticket,
    desk: &mut ServerPlace,
    order: ServerOrder,
) -> Result<Turn, Refused>
    requires own { ticket.old.table_id ≡ office.now }
    requires holds { HoldsPost ticket.old.me }
    ensures own { (ticket.new.table_id ≡ ticket.old.table_id) × (ticket.new.id ≡ ticket.old.id) }
    ensures acts { Changes ticket.old.me ticket.new.me (λ mail mail'. ServerActs (Take 0) order
        mail (node_of desk.old) mail' (node_of desk.new) result) }
{
    let post = ticket.slot_mut(&office.table.shared, 0);
    post.sort();
    let answer = do_server_order(alloc, post, desk, order, Pick::Take(0));
    post.sort();
    answer
}

// So by the policy's pick.
fn do_order_by<P: Policy>(
    alloc: Global,
    office: &Office,
    ticket: &mut Ticket,
    desk: &mut ServerPlace,
    order: ServerOrder,
    policy: &mut P,
) -> Result<Turn, Refused>
    requires own { ticket.old.table_id ≡ office.now }
    requires holds { HoldsPost ticket.old.me }
    ensures own { (ticket.new.table_id ≡ ticket.old.table_id) × (ticket.new.id ≡ ticket.old.id) }
    ensures acts { Changes ticket.old.me ticket.new.me (λ mail mail'. ServerActsBy P.picks order
        mail (node_of desk.old) policy.old mail' (node_of desk.new) result policy.new) }
{
    let post = ticket.slot_mut(&office.table.shared, 0);
    post.sort();
    let answer = do_server_order_by(alloc, post, desk, order, policy);
    post.sort();
    answer
}

impl ServerNode {
    /// Takes the post, does one order and gives the post back. `Letter` reads the oldest letter to
    /// the server, which loses it if it is down. What is sent goes to the end of the letters to
    /// each client.
    ///
    /// # Errors
    ///
    /// The first of these, and the post goes back as it was: `BadClient` for a `Nudge` of a number
    /// above 63; `Running` for `Start` if the server runs, and `Down` for `Nudge` and `Crash`
    /// if it doesn't; `Spent` if there is no epoch for a start; `OutOfMemory` if memory is
    /// refused.
    pub fn turn<R: Wait>(
        &mut self,
        rt: &R,
        office: &Office,
        order: ServerOrder,
    ) -> Result<Turn, Refused>
        requires { self.old.office ≡ office.now }
        ensures same { IsSameServer self.old self.new }
        ensures turns { ServerTurns order self.old result self.new }
        ensures once { self.new.given ≡ suc self.old.given }
    {
        office.take(rt, &mut self.ticket);
        let answer = do_order(self.alloc, office, &mut self.ticket, &mut self.desk, order);
        office.give_server::<Brand>(&mut self.ticket, &self.desk);
        answer
    }

    /// Like `turn`, except for `Letter`: if some letter to the server waits, the policy is asked
    /// which one is delivered, and whether it is taken out or stays; or which one is lost. A lost
    /// letter is taken out, and the server is as it was: the answer is `Lost`.
    ///
    /// # Errors
    ///
    /// As of `turn`.
    pub fn turn_by<R: Wait, P: Policy>(
        &mut self,
        rt: &R,
        office: &Office,
        order: ServerOrder,
        policy: &mut P,
    ) -> Result<Turn, Refused>
        requires { self.old.office ≡ office.now }
        ensures same { IsSameServer self.old self.new }
        ensures turns { ServerTurnsBy P.picks order self.old policy.old result self.new policy.new }
        ensures once { self.new.given ≡ suc self.old.given }
    {
        office.take(rt, &mut self.ticket);
        let answer = do_order_by(
            self.alloc,
            office,
            &mut self.ticket,
            &mut self.desk,
            order,
            policy,
        );
        office.give_server::<Brand>(&mut self.ticket, &self.desk);
        answer
    }
}
