//! Where everything stands in a drawing.
use crate::layout::Layout;
use crate::row::{Node, Row};
use std::alloc::{AllocError, Global};

// Pixels: before the first node, and from one node to the next.
const MARGIN: usize = 230;

const APART: usize = 280;

// Pixels: the names of the nodes, a line of the script, and a line with a message.
const HEAD: usize = 26;

const SCRIPT_LINE: usize = 15;

const NODES_LINE: usize = 22;

/// The places of the nodes and of the lines.
#[derive(Drop)]
pub struct Sheet {
    pub layout: Layout,
    // How far down each line stands, and before them where the strokes begin.
    downs: Vec<usize>,
}

fn height(row: &Row) -> usize {
    match row {
        Row::Arrow(_) | Row::Mark { .. } => NODES_LINE,
        Row::Line(_) | Row::Printed(_) | Row::More => SCRIPT_LINE,
    }
}

impl Sheet {
    /// The sheet of these lines.
    pub fn of(alloc: Global, rows: &[Row]) -> Result<Sheet, AllocError> {
        let layout = Layout::of(alloc, rows)?;
        let mut downs = Vec::new(alloc);
        let mut down = HEAD;
        downs.push(down)?;
        for row in rows {
            down = down.wrapping_add(height(row));
            downs.push(down)?;
        }
        Ok(Sheet { layout, downs })
    }

    /// How many lines there are.
    pub fn lines(&self) -> usize {
        self.downs.len().saturating_sub(1)
    }

    /// How far down the line stands: the first one is 1, and what is so at the beginning is at 0.
    pub fn down(&self, line: usize) -> usize {
        match self.downs.get(line) {
            Some(down) => *down,
            None => self.bottom(),
        }
    }

    /// How far down the last line stands.
    pub fn bottom(&self) -> usize {
        match self.downs.last() {
            Some(down) => *down,
            None => HEAD,
        }
    }

    /// How far right the node at this place stands.
    pub fn across(&self, place: usize) -> usize {
        place.wrapping_mul(APART).wrapping_add(MARGIN)
    }

    /// How far right the node stands; None if the drawing does not show it.
    pub fn column(&self, node: Node) -> Option<usize> {
        match self.layout.place(node) {
            Some(place) => Some(self.across(place)),
            None => None,
        }
    }

    /// The width of the drawing.
    pub fn width(&self) -> usize {
        self.across(self.layout.count()).saturating_sub(APART / 2)
    }
}
