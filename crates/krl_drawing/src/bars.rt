//! What of a node's life a drawing shows at its stroke: when it is up, and what it holds.
use crate::history::{Holding, Part, Turn};
use crate::row::Node;
use krl_modes::{KeyPart, RangePart};
use std::alloc::{AllocError, Global};

/// The lines from one on to another one, through which something is so.
#[derive(Clone, Copy)]
pub struct Stretch {
    pub from: usize,
    pub to: usize,
}

/// Through these lines a client holds this.
#[derive(Clone, Copy)]
pub struct Bar {
    pub lines: Stretch,
    pub part: Part,
}

/// The class of a bar: what its holder may do at most.
pub fn class(part: Part) -> &'static str {
    match (part.range, part.key) {
        (RangePart::X, _) | (_, KeyPart::X) => "writes",
        (_, KeyPart::U) => "updates",
        (RangePart::I, _) => "inserts",
        _ => "reads",
    }
}

/// When the node is up, in a drawing of so many lines.
pub fn lives(
    alloc: Global,
    turns: &[Turn],
    node: Node,
    lines: usize,
) -> Result<Vec<Stretch>, AllocError> {
    let mut stretches = Vec::new(alloc);
    let mut began = None;
    for turn in turns {
        if turn.node == node {
            if let Some(from) = began {
                stretches.push(Stretch {
                    from,
                    to: turn.line,
                })?;
            }
            began = if turn.is_up { Some(turn.line) } else { None };
        }
    }
    if let Some(from) = began {
        stretches.push(Stretch { from, to: lines })?;
    }
    Ok(stretches)
}

/// What the client holds of the point, in a drawing of so many lines.
pub fn held(
    alloc: Global,
    holdings: &[Holding],
    client: u64,
    point: u64,
    lines: usize,
) -> Result<Vec<Bar>, AllocError> {
    let mut bars = Vec::new(alloc);
    let mut now = Part::NONE;
    let mut from = 0;
    for holding in holdings {
        if holding.client == client && holding.point == point {
            if now != Part::NONE {
                let to = holding.line;
                bars.push(Bar {
                    lines: Stretch { from, to },
                    part: now,
                })?;
            }
            now = holding.part;
            from = holding.line;
        }
    }
    if now != Part::NONE {
        bars.push(Bar {
            lines: Stretch { from, to: lines },
            part: now,
        })?;
    }
    Ok(bars)
}
