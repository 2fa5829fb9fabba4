//! What changes in a world in the course of a run.
use krl_drawing::{History, Holding, MAX_POINTS, Node, Part, Turn};
use krl_messages::{PushBody, RequestBody, ToClientBody, ToServerBody};
use krl_modes::MAX_CLIENTS;
use krl_world::{Message, World};
use std::alloc::{AllocError, Global};

/// The history of a run, and what was so at the last look.
#[derive(Drop)]
pub struct Watch {
    pub history: History,
    // What each client holds of each point now, and which nodes are up: the clients, and the server
    // after them.
    parts: Vec<Part>,
    ups: Vec<bool>,
}

fn held(world: &World, client: u64, point: u64) -> Part {
    let (range, key) = world.held(client, point);
    Part { range, key }
}

/// Whether the node is up.
pub fn is_up(world: &World, node: Node) -> bool {
    match node {
        Node::Server => world.server().is_some(),
        Node::Client(client) => world.client(client).is_some(),
    }
}

impl Watch {
    pub fn new(alloc: Global) -> Result<Watch, AllocError> {
        let mut parts = Vec::new(alloc);
        for _ in 0..MAX_CLIENTS * MAX_POINTS {
            parts.push(Part::NONE)?;
        }
        let mut ups = Vec::new(alloc);
        for _ in 0..=MAX_CLIENTS {
            ups.push(false)?;
        }
        let history = History::new(alloc);
        Ok(Watch {
            history,
            parts,
            ups,
        })
    }

    /// The message is about points that may be held from now on.
    pub fn note(&mut self, message: &Message) -> Result<(), AllocError> {
        match message {
            Message::ToServer(message) => {
                if let ToServerBody::Request(request) = &message.body {
                    if let RequestBody::Write { op, .. } = &request.body {
                        self.history.note_point(op.key())?;
                    }
                }
            }
            Message::ToClient(message) => {
                if let ToClientBody::Push { body, .. } = &message.body {
                    if let PushBody::Grant { holdings, .. } = body {
                        for holding in holdings.as_slice() {
                            self.history.note_point(holding.slot())?;
                        }
                    }
                }
            }
        }
        Ok(())
    }

    /// Notes at this line what has changed in the world since the last look.
    pub fn look(&mut self, world: &World, line: usize) -> Result<(), AllocError> {
        self.look_at(world, line, MAX_CLIENTS, Node::Server)?;
        for place in 0..MAX_CLIENTS {
            let client = place as u64;
            self.look_at(world, line, place, Node::Client(client))?;
            self.look_at_holdings(world, line, client)?;
        }
        Ok(())
    }

    fn look_at(
        &mut self,
        world: &World,
        line: usize,
        place: usize,
        node: Node,
    ) -> Result<(), AllocError> {
        let now = is_up(world, node);
        if let Some(known) = self.ups.get_mut(place) {
            if *known != now {
                *known = now;
                self.history.turns.push(Turn {
                    node,
                    line,
                    is_up: now,
                })?;
            }
        }
        Ok(())
    }

    fn look_at_holdings(
        &mut self,
        world: &World,
        line: usize,
        client: u64,
    ) -> Result<(), AllocError> {
        let first = (client as usize).wrapping_mul(MAX_POINTS);
        let History {
            holdings,
            points,
            ..
        } = &mut self.history;
        for (i, point) in points.iter().enumerate() {
            let part = held(world, client, *point);
            if let Some(known) = self.parts.get_mut(first.wrapping_add(i)) {
                if *known != part {
                    *known = part;
                    holdings.push(Holding {
                        client,
                        point: *point,
                        line,
                        part,
                    })?;
                }
            }
        }
        Ok(())
    }
}
