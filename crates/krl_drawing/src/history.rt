//! When each node is up in the course of a run, and what each client holds.
use crate::row::Node;
use krl_modes::{KeyPart, RangePart};
use std::alloc::{AllocError, Global};

/// The most points of which a drawing shows who holds them: the first ones that are granted or
/// written.
pub const MAX_POINTS: usize = 6;

/// What a client holds of a point.
#[derive(Clone, Copy, PartialEq, Eq)]
pub struct Part {
    pub range: RangePart,
    pub key: KeyPart,
}

/// From this line on a client holds this of a point.
#[derive(Clone, Copy)]
pub struct Holding {
    pub client: u64,
    pub point: u64,
    pub line: usize,
    pub part: Part,
}

/// From this line on a node is up, or is not.
#[derive(Clone, Copy)]
pub struct Turn {
    pub node: Node,
    pub line: usize,
    pub is_up: bool,
}

/// What changed in the course of a run, in the order of the lines.
#[derive(Drop)]
pub struct History {
    pub turns: Vec<Turn>,
    pub holdings: Vec<Holding>,
    /// The points of which it knows who holds them, in the order in which they were noted.
    pub points: Vec<u64>,
}

impl Part {
    /// Nothing.
    pub const NONE: Part = Part {
        range: RangePart::N,
        key: KeyPart::N,
    };
}

impl History {
    /// Of a run that has not begun.
    pub fn new(alloc: Global) -> History {
        History {
            turns: Vec::new(alloc),
            holdings: Vec::new(alloc),
            points: Vec::new(alloc),
        }
    }

    /// The points of which it knows who holds them, in ascending order.
    pub fn sorted_points(&self, alloc: Global) -> Result<Vec<u64>, AllocError> {
        let mut points = Vec::from_slice(alloc, &self.points)?;
        points.sort_unstable();
        Ok(points)
    }

    /// The point is one of those from now on, if there is room for it.
    pub fn note_point(&mut self, point: u64) -> Result<(), AllocError> {
        if self.points.len() < MAX_POINTS && !self.points.contains(&point) {
            self.points.push(point)?;
        }
        Ok(())
    }
}
