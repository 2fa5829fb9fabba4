//! One order of a node, on the post that it took.
ghost use Rattle.std.specs.Prelude.{◌≡◌, ◌<◌, ℕ, IfOk, IfErr};
ghost use Rattle.krl_steps.specs.declared.refused.Refused.TheVariants as refused;
ghost use Rattle.krl_world.specs.Fields.{node_of, place_of};
ghost use Rattle.krl_nodes.specs.declared.orders.ServerOrder.TheVariants as to_server;
ghost use Rattle.krl_nodes.specs.declared.orders.ClientOrder.TheVariants as to_client;
ghost use Rattle.krl_nodes.specs.declared.policy.Pick.{Pick};
ghost use Rattle.krl_nodes.specs.Mail.{Mail};
ghost use Rattle.krl_nodes.specs.Letters.{IsReader, waiting_for};
ghost use Rattle.krl_nodes.specs.Turns.{ServerActs, ClientActs, ServerActsBy, ClientActsBy};
ghost use Rattle.krl_nodes.specs.Turns.{Asks, did_of};
ghost use Rattle.krl_modes.specs.declared.limits.TheConstants.{MAX_CLIENTS};

use crate::orders::{ClientOrder, ServerOrder, Turn};
use crate::policy::{Pick, Policy};
use crate::post::{Post, Reader};
use core::mem::replace_with;
use krl_modes::MAX_CLIENTS;
use krl_world::{Answer, ClientPlace, Refused, ServerPlace};
use std::alloc::Global;

// What was done is what the turn did.
fn did(answer: Result<Answer, Refused>) -> Result<Turn, Refused>
    ensures { result ≡ did_of answer }
{
    match answer {
        Ok(answer) => Ok(Turn::Did(answer)),
        Err(refused) => Err(refused),
    }
}

// A server stops. `_nothing` stands where a start has its memory: `replace_with` hands on both.
fn crashed(desk: ServerPlace, _nothing: ()) -> (ServerPlace, Result<Turn, Refused>)
    ensures { (p : Pick) (mail : Mail) → ServerActs p to_server.Crash mail (node_of desk) mail
        (node_of result.0) result.1 }
{
    let (desk, answer) = desk.crash();
    (desk, did(answer))
}

// A server begins to run.
fn started(desk: ServerPlace, alloc: Global) -> (ServerPlace, Result<Turn, Refused>)
    ensures { (p : Pick) (mail : Mail) → ServerActs p to_server.Start mail (node_of desk) mail
        (node_of result.0) result.1 }
{
    let (desk, answer) = desk.start(alloc);
    (desk, did(answer))
}

// The server is nudged.
fn nudge(alloc: Global, post: &mut Post, desk: &ServerPlace, client: u64) -> Result<Turn, Refused>
    ensures { (p : Pick) → ServerActs p (to_server.Nudge client) post.old (node_of desk.now)
        post.new (node_of desk.now) result }
{
    if client >= MAX_CLIENTS as u64 {
        return Err(Refused::BadClient);
    }
    let ServerPlace::Up(server) = desk else {
        return Err(Refused::Down);
    };
    match post.nudge(alloc, server, client) {
        Ok(()) => Ok(Turn::Did(Answer::Done)),
        Err(_) => Err(Refused::OutOfMemory),
    }
}

/// One order of the server.
pub(crate) fn do_server_order(
    alloc: Global,
    post: &mut Post,
    desk: &mut ServerPlace,
    order: ServerOrder,
    pick: Pick,
) -> Result<Turn, Refused>
    ensures { ServerActs pick order post.old (node_of desk.old) post.new (node_of desk.new)
        result }
{
    match order {
        ServerOrder::Letter => post.serve(alloc, desk, pick),
        ServerOrder::Nudge(client) => nudge(alloc, post, desk, client),
        ServerOrder::Crash => replace_with(desk, (), crashed),
        ServerOrder::Start => replace_with(desk, alloc, started),
    }
}

// The client sends again what is not answered.
fn tick(post: &mut Post, seat: &ClientPlace) -> Result<Turn, Refused>
    ensures { (p : Pick) (c : ℕ) → ClientActs p to_client.Tick c post.old (place_of seat.now)
        post.new (place_of seat.now) result }
{
    let Some(client) = &seat.client else {
        return Err(Refused::Down);
    };
    match post.tick(client) {
        Ok(()) => Ok(Turn::Did(Answer::Done)),
        Err(_) => Err(Refused::OutOfMemory),
    }
}

// The client stops.
fn crash(seat: &mut ClientPlace) -> Result<Turn, Refused>
    ensures { (p : Pick) (c : ℕ) (mail : Mail) → ClientActs p to_client.Crash c mail
        (place_of seat.old) mail (place_of seat.new) result }
{
    match seat.client.take() {
        Some(_) => Ok(Turn::Did(Answer::Done)),
        None => Err(Refused::Down),
    }
}

/// One order of a client.
pub(crate) fn do_client_order(
    alloc: Global,
    post: &mut Post,
    number: u64,
    seat: &mut ClientPlace,
    order: ClientOrder,
    pick: Pick,
) -> Result<Turn, Refused>
    requires { number < MAX_CLIENTS }
    ensures { ClientActs pick order number post.old (place_of seat.old) post.new (place_of seat.new)
        result }
{
    match order {
        ClientOrder::Letter => post.hand(number, seat, pick),
        ClientOrder::Command(what) => did(post.obey(seat, what)),
        ClientOrder::Tick => tick(post, seat),
        ClientOrder::Start => match post.start(alloc, seat, number) {
            Ok(()) => Ok(Turn::Did(Answer::Done)),
            Err(refused) => Err(refused),
        },
        ClientOrder::Crash => crash(seat),
    }
}

// Asks the policy, if some letter waits for the reader.
fn choose<P: Policy>(post: &Post, reader: Reader, policy: &mut P) -> Result<Pick, Refused>
    requires { IsReader reader }
    ensures ok { IfOk result (λ p.
        Asks P.picks (waiting_for reader post.now) policy.old p policy.new) }
    ensures err { IfErr result (λ r. (r ≡ refused.OutOfMemory)
        × (0 < waiting_for reader post.now) × (policy.new ≡ policy.old)) }
{
    let letters = post.count_for(reader)?;
    if letters == 0 {
        return Ok(Pick::Take(0));
    }
    Ok(policy.pick(letters))
}

/// One order of the server, by the policy's pick.
pub(crate) fn do_server_order_by<P: Policy>(
    alloc: Global,
    post: &mut Post,
    desk: &mut ServerPlace,
    order: ServerOrder,
    policy: &mut P,
) -> Result<Turn, Refused>
    ensures { ServerActsBy P.picks order post.old (node_of desk.old) policy.old
        post.new (node_of desk.new) result policy.new }
{
    if let ServerOrder::Letter = order {
        return match choose(post, Reader::Server, policy) {
            Ok(pick) => do_server_order(alloc, post, desk, order, pick),
            Err(refused) => Err(refused),
        };
    }
    do_server_order(alloc, post, desk, order, Pick::Take(0))
}

/// One order of a client, by the policy's pick.
pub(crate) fn do_client_order_by<P: Policy>(
    alloc: Global,
    post: &mut Post,
    number: u64,
    seat: &mut ClientPlace,
    order: ClientOrder,
    policy: &mut P,
) -> Result<Turn, Refused>
    requires { number < MAX_CLIENTS }
    ensures { ClientActsBy P.picks order number post.old (place_of seat.old) policy.old
        post.new (place_of seat.new) result policy.new }
{
    if let ClientOrder::Letter = order {
        return match choose(post, Reader::Client(number), policy) {
            Ok(pick) => do_client_order(alloc, post, number, seat, order, pick),
            Err(refused) => Err(refused),
        };
    }
    do_client_order(alloc, post, number, seat, order, Pick::Take(0))
}
