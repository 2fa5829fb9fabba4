//! How the nodes of a run come by their letters.
ghost use Rattle.std.specs.Prelude.{◌≡◌, ◌&&◌, None, Some, false, is_some, suc};
ghost use Rattle.krl_draws.specs.Generator.{generator_of};
ghost use Rattle.krl_nodes.specs.Nodes.{IsSameServer, IsSameClient};
ghost use Rattle.krl_nodes_demo.specs.Deliveries.{ClientFetches, ServerFetches, is_idle};
ghost use Rattle.krl_nodes_demo.specs.Deliveries.{ClientReadsBy, ServerReadsBy};

use krl_nodes::{ClientNode, ClientOrder, Drawn, Office, ServerNode, ServerOrder, Turn};
use krl_world::Refused;
use std::sync::Wait;

/// How a node of a run comes by its letters: the oldest first, or as a policy picks. If a policy
/// may have lost one, a turn that found none is followed by one that sends again what is not
/// answered.
#[derive(Drop)]
pub(crate) struct Delivery {
    policy: Option<Drawn>,
    // What the policy was drawn from.
    seed: Option<u64>,
    may_lack: bool,
}

// Whether the turn found no letter.
fn is_idle(answer: &Result<Turn, Refused>) -> bool
    ensures { result ≡ is_idle answer.now }
{
    matches!(answer, Ok(Turn::Idle))
}

// The client's turn for a letter: the oldest, or the one that its policy picks.
fn client_fetches<R: Wait>(
    rt: &R,
    office: &Office,
    node: &mut ClientNode,
    policy: &mut Option<Drawn>,
) -> Result<Turn, Refused>
    requires { node.old.office ≡ office.now }
    ensures same { IsSameClient node.old node.new }
    ensures fetches { ClientFetches policy.old node.old result node.new policy.new }
    ensures once { node.new.given ≡ suc node.old.given }
{
    match policy {
        Some(policy) => node.turn_by(rt, office, ClientOrder::Letter, policy),
        None => node.turn(rt, office, ClientOrder::Letter),
    }
}

// So for the server.
fn server_fetches<R: Wait>(
    rt: &R,
    office: &Office,
    node: &mut ServerNode,
    policy: &mut Option<Drawn>,
) -> Result<Turn, Refused>
    requires { node.old.office ≡ office.now }
    ensures same { IsSameServer node.old node.new }
    ensures fetches { ServerFetches policy.old node.old result node.new policy.new }
    ensures once { node.new.given ≡ suc node.old.given }
{
    match policy {
        Some(policy) => node.turn_by(rt, office, ServerOrder::Letter, policy),
        None => node.turn(rt, office, ServerOrder::Letter),
    }
}

impl Delivery {
    /// The oldest letter first.
    pub(crate) fn in_order() -> Delivery
        ensures { result ≡ record { policy = None; seed = None; may_lack = false } }
    {
        Delivery {
            policy: None,
            seed: None,
            may_lack: false,
        }
    }

    /// By picks that are drawn from the seed.
    pub(crate) fn drawn(seed: u64) -> Delivery
        ensures { result
            ≡ record { policy = Some (generator_of seed); seed = Some seed; may_lack = false } }
    {
        Delivery {
            policy: Some(Drawn::new(seed)),
            seed: Some(seed),
            may_lack: false,
        }
    }

    /// The seed of its policy, if it has one.
    pub(crate) fn seed(&self) -> Option<u64>
        ensures { result ≡ self.now.seed }
    {
        self.seed
    }

    // Notes what the turn for a letter came to, and reports whether there was none.
    fn note(&mut self, is_idle: bool) -> bool
        ensures idle { result ≡ is_idle }
        ensures same { (self.new.policy ≡ self.old.policy) × (self.new.seed ≡ self.old.seed) }
        ensures notes { self.new.may_lack ≡ (is_idle && is_some self.old.policy) }
    {
        self.may_lack = is_idle && self.policy.is_some();
        is_idle
    }

    /// Whether the turn before found no letter, though one may be lost. It is asked once.
    pub(crate) fn may_lack(&mut self) -> bool
        ensures lacks { result ≡ self.old.may_lack }
        ensures once { self.new
            ≡ record { policy = self.old.policy; seed = self.old.seed; may_lack = false } }
    {
        let may_lack = self.may_lack;
        self.may_lack = false;
        may_lack
    }

    /// The client reads a letter, and this reports whether there was none.
    pub(crate) fn read<R: Wait>(&mut self, rt: &R, office: &Office, node: &mut ClientNode) -> bool
        requires { node.old.office ≡ office.now }
        ensures same { IsSameClient node.old node.new }
        ensures reads { ClientReadsBy self.old node.old result self.new node.new }
        ensures once { node.new.given ≡ suc node.old.given }
    {
        let answer = client_fetches(rt, office, node, &mut self.policy);
        self.note(is_idle(&answer))
    }

    /// The server reads a letter.
    pub(crate) fn serve<R: Wait>(&mut self, rt: &R, office: &Office, node: &mut ServerNode)
        requires { node.old.office ≡ office.now }
        ensures same { IsSameServer node.old node.new }
        ensures reads { ServerReadsBy self.old node.old self.new node.new }
        ensures once { node.new.given ≡ suc node.old.given }
    {
        let answer = server_fetches(rt, office, node, &mut self.policy);
        let _ = self.note(is_idle(&answer));
    }
}
