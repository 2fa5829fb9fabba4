//! Which nodes a picture shows, from left to right.
use crate::row::{Node, Row};
use std::alloc::{AllocError, Global};

/// The most clients of a picture; what others send and receive is not drawn.
pub const MAX_CLIENTS: usize = 7;

/// The nodes of a picture: the first client, the server, and the other clients, by their numbers.
#[derive(Drop)]
pub struct Layout {
    clients: Vec<u64>,
}

// The client of the node is one of these, in ascending order.
fn note(clients: &mut Vec<u64>, node: Node) -> Result<(), AllocError> {
    let Node::Client(client) = node else {
        return Ok(());
    };
    let at = clients.iter().take_while(|known| **known < client).count();
    if clients.get(at) != Some(&client) {
        clients.insert(at, client)?;
    }
    Ok(())
}

impl Layout {
    /// The nodes of these lines.
    pub fn of(alloc: Global, rows: &[Row]) -> Result<Layout, AllocError> {
        let mut clients = Vec::new(alloc);
        for row in rows {
            match row {
                Row::Arrow(arrow) => {
                    note(&mut clients, arrow.from)?;
                    note(&mut clients, arrow.to)?;
                }
                Row::Mark { node, .. } => note(&mut clients, *node)?,
                Row::Line(_) | Row::Printed(_) | Row::More => {}
            }
        }
        clients.truncate(MAX_CLIENTS);
        Ok(Layout { clients })
    }

    /// How many nodes there are.
    pub fn count(&self) -> usize {
        self.clients.len().saturating_add(1)
    }

    /// The node's place from the left, counted from 0; None if the picture does not show it.
    pub fn place(&self, node: Node) -> Option<usize> {
        match node {
            Node::Server => Some(self.clients.len().min(1)),
            Node::Client(client) => {
                let at = self.clients.iter().position(|known| *known == client)?;
                Some(if at == 0 { 0 } else { at.saturating_add(1) })
            }
        }
    }

    /// The node at this place.
    pub fn node(&self, place: usize) -> Option<Node> {
        if place == self.clients.len().min(1) {
            return Some(Node::Server);
        }
        let at = if place == 0 { 0 } else { place - 1 };
        Some(Node::Client(*self.clients.get(at)?))
    }
}
