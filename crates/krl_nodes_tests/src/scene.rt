//! An office with its server and two clients, as one value: tests give it orders, and look at what
//! it answers. A call that is refused for want of memory is made again, twice at most.
ghost use Rattle.std.specs.Prelude.{◌≡◌};

use crate::acts;
use crate::acts::Came;
use krl_client::ScanAnswer;
use krl_durable::Durable;
use krl_modes::{KeyPart, RangePart};
use krl_nodes::{ClientNode, ClientOrder, NotSeated, Office, Policy, ServerNode, ServerOrder};
use krl_world::Refused;
use std::alloc::Global;
use std::marker::Model;
use std::sync::Wait;

/// Which of the two clients.
#[derive(Clone, Copy)]
pub enum Who {
    First,
    Second,
}

/// An office, its server, and two clients, each if it has a seat. Contracts see nothing of it: a
/// test looks only at answers.
pub struct Scene {
    office: Office,
    server: ServerNode,
    first: Option<ClientNode>,
    second: Option<ClientNode>,
}

impl Model for Scene {
    ghost use Rattle.std.specs.Prelude.{◌≡◌, IfSome};

    ghost Value = { Unit {0} };

    ghost view = { λ _. tt };

    ghost invariant = { λ s. (s.server.office ≡ s.office)
        × IfSome s.first (λ c. c.office ≡ s.office)
        × IfSome s.second (λ c. c.office ≡ s.office) };
}

impl Drop for Scene {
    fn drop(self) {
        let Scene {
            office: _,
            server: _,
            first: _,
            second: _,
        } = self;
    }
}

impl Scene {
    /// An office with a server on these entries, in which nobody has a seat.
    fn empty(alloc: Global, entries: &[(u64, u64)]) -> Option<Scene> {
        match acts::open(alloc, entries) {
            Ok((office, server)) => Some(Scene {
                office,
                server,
                first: None,
                second: None,
            }),
            Err(_) => None,
        }
    }

    /// An office with a server on these entries, and with clients of these numbers, which are down.
    pub fn open<R: Wait + AllocGlobal>(
        rt: &R,
        entries: &[(u64, u64)],
        first: u64,
        second: u64,
    ) -> Option<Scene> {
        let mut scene = Scene::empty(rt.alloc(), entries)?;
        if scene.seat(rt, Who::First, first).is_none()
            && scene.seat(rt, Who::Second, second).is_none()
        {
            return Some(scene);
        }
        None
    }

    /// Seats the client of this number. Why it gets no seat, if it gets none.
    pub fn seat<R: Wait>(&mut self, rt: &R, who: Who, number: u64) -> Option<NotSeated> {
        let server = &mut self.server;
        match who {
            Who::First => acts::seat(rt, &self.office, server, &mut self.first, number),
            Who::Second => acts::seat(rt, &self.office, server, &mut self.second, number),
        }
    }

    /// Whether the client gives its seat back. One that runs keeps it.
    pub fn retires<R: Wait>(&mut self, rt: &R, who: Who) -> bool {
        let server = &mut self.server;
        match who {
            Who::First => acts::retire(rt, &self.office, server, &mut self.first),
            Who::Second => acts::retire(rt, &self.office, server, &mut self.second),
        }
    }

    /// What is durable once the office is closed.
    ///
    /// # Errors
    ///
    /// The scene as it was, if some client has a seat.
    pub fn close(self) -> Result<Durable, Scene> {
        let Scene {
            office,
            server,
            first,
            second,
        } = self;
        match office.close(server) {
            Ok(durable) => Ok(durable),
            Err(open) => Err(Scene {
                office: open.office,
                server: open.server,
                first,
                second,
            }),
        }
    }

    /// The server's turn.
    pub fn serve<R: Wait>(&mut self, rt: &R, order: ServerOrder) -> Came {
        acts::serve(rt, &self.office, &mut self.server, order)
    }

    /// A client's turn.
    pub fn act<R: Wait>(&mut self, rt: &R, who: Who, order: ClientOrder) -> Came {
        match who {
            Who::First => acts::act(rt, &self.office, &mut self.first, order),
            Who::Second => acts::act(rt, &self.office, &mut self.second, order),
        }
    }

    /// The server's turn by the policy.
    pub fn serve_by<R: Wait, P: Policy>(
        &mut self,
        rt: &R,
        order: ServerOrder,
        policy: &mut P,
    ) -> Came {
        acts::serve_by(rt, &self.office, &mut self.server, order, policy)
    }

    /// A client's turn by the policy.
    pub fn act_by<R: Wait, P: Policy>(
        &mut self,
        rt: &R,
        who: Who,
        order: ClientOrder,
        policy: &mut P,
    ) -> Came {
        match who {
            Who::First => acts::act_by(rt, &self.office, &mut self.first, order, policy),
            Who::Second => acts::act_by(rt, &self.office, &mut self.second, order, policy),
        }
    }

    fn client(&self, who: Who) -> Option<&ClientNode> {
        match who {
            Who::First => self.first.as_ref(),
            Who::Second => self.second.as_ref(),
        }
    }

    /// A client's scan of its own cache. One that has no seat is no client.
    fn scan(&self, who: Who, lo: u64, hi: u64) -> Result<ScanAnswer, Refused> {
        match self.client(who) {
            Some(client) => acts::scan(client, lo, hi),
            None => Err(Refused::BadClient),
        }
    }

    /// Whether the client has a seat, and is down.
    pub fn is_down(&self, who: Who) -> bool {
        match self.client(who) {
            Some(client) => client.status().is_none(),
            None => false,
        }
    }

    /// What the client holds at the point.
    pub fn held(&self, who: Who, point: u64) -> (RangePart, KeyPart) {
        match self.client(who) {
            Some(client) => client.held(point),
            None => (RangePart::N, KeyPart::N),
        }
    }

    /// Whether the server's turn does something.
    pub fn serves<R: Wait>(&mut self, rt: &R, order: ServerOrder) -> bool {
        self.serve(rt, order).did()
    }

    /// Whether the client's turn does something.
    pub fn acts<R: Wait>(&mut self, rt: &R, who: Who, order: ClientOrder) -> bool {
        self.act(rt, who, order).did()
    }

    /// Delivers the letters of the server and the first client until neither has one.
    pub fn settle<R: Wait>(&mut self, rt: &R) {
        for _ in 0..100u64 {
            let served = self.serves(rt, ServerOrder::Letter);
            let acted = self.acts(rt, Who::First, ClientOrder::Letter);
            if !served & !acted {
                return;
            }
        }
    }

    /// Whether the client's cache has just these rows in the span, each value a number.
    pub fn reads(&self, who: Who, lo: u64, hi: u64, expected: &[(u64, u64)]) -> bool {
        match self.scan(who, lo, hi) {
            Ok(ScanAnswer::Rows(rows)) => acts::are_numbers(rows.as_slice(), expected),
            _ => false,
        }
    }

    /// Whether this is the first point that the client's cache misses in the span.
    pub fn misses(&self, who: Who, lo: u64, hi: u64, expected: u64) -> bool {
        match self.scan(who, lo, hi) {
            Ok(ScanAnswer::Miss(point)) => point == expected,
            _ => false,
        }
    }

    /// Whether the client's scan is refused so.
    pub fn scan_is_refused(&self, who: Who, lo: u64, hi: u64, expected: Refused) -> bool {
        match self.scan(who, lo, hi) {
            Ok(_) => false,
            Err(refused) => refused == expected,
        }
    }
}
