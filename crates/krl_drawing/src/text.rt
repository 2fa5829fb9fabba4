//! A picture in plain text.
use crate::canvas::{Canvas, WIDTH};
use crate::layout::Layout;
use crate::row::{Arrow, Fate, Node, Row};
use std::alloc::{AllocError, Global};

// The columns before the first node.
const MARGIN: usize = 26;

// The columns of the last node's name.
const NAME: usize = 10;

// The most columns from one node to the next.
const MAX_APART: usize = 34;

fn column(layout: &Layout, place: usize) -> usize {
    let gaps = layout.count().saturating_sub(1).max(1);
    let apart = ((WIDTH - MARGIN - NAME) / gaps).min(MAX_APART);
    place.wrapping_mul(apart).wrapping_add(MARGIN)
}

// A line with a stroke for each node.
fn strokes(layout: &Layout) -> Canvas {
    let mut canvas = Canvas::blank();
    for place in 0..layout.count() {
        canvas.set(column(layout, place), b'|');
    }
    canvas
}

fn name(alloc: Global, node: Node) -> Result<String, AllocError> {
    match node {
        Node::Server => format!(in alloc; "server"),
        Node::Client(client) => format!(in alloc; "client {client}"),
    }
}

// The names of the nodes.
fn head(alloc: Global, layout: &Layout) -> Result<Canvas, AllocError> {
    let mut canvas = Canvas::blank();
    for place in 0..layout.count() {
        if let Some(node) = layout.node(place) {
            let name = name(alloc, node)?;
            canvas.put(column(layout, place), WIDTH, name.as_bytes());
        }
    }
    Ok(canvas)
}

fn fate_word(fate: Fate) -> &'static str {
    match fate {
        Fate::Delivered => "",
        Fate::Repeated => " again",
        Fate::Unread => " to a node that is down",
        Fate::Lost => " lost",
    }
}

// What stands at the end of an arrow.
fn tip(fate: Fate, is_right: bool) -> u8 {
    match fate {
        Fate::Delivered | Fate::Repeated if is_right => b'>',
        Fate::Delivered | Fate::Repeated => b'<',
        Fate::Unread | Fate::Lost => b'x',
    }
}

// Puts an arrow from the column of one node to that of another.
fn put_arrow(canvas: &mut Canvas, from: usize, to: usize, fate: Fate, label: &str) {
    let is_right = from < to;
    let (left, right) = if is_right { (from, to) } else { (to, from) };
    canvas.rule(left.saturating_add(1), right);
    canvas.put(left.saturating_add(3), right.saturating_sub(3), b" ");
    canvas.put(
        left.saturating_add(4),
        right.saturating_sub(3),
        label.as_bytes(),
    );
    let after = left.saturating_add(4).saturating_add(label.len());
    canvas.put(after, right.saturating_sub(2), b" ");
    let end = if is_right {
        right.saturating_sub(1)
    } else {
        left.saturating_add(1)
    };
    canvas.set(end, tip(fate, is_right));
}

fn arrow(alloc: Global, layout: &Layout, arrow: &Arrow) -> Result<Canvas, AllocError> {
    let mut canvas = strokes(layout);
    let Arrow { number, fate, .. } = arrow;
    let word = fate_word(*fate);
    let note = format!(in alloc; "  {number}{word}")?;
    canvas.put(0, MARGIN, note.as_bytes());
    if let (Some(from), Some(to)) = (layout.place(arrow.from), layout.place(arrow.to)) {
        put_arrow(
            &mut canvas,
            column(layout, from),
            column(layout, to),
            *fate,
            &arrow.label,
        );
    }
    Ok(canvas)
}

fn mark(layout: &Layout, node: Node, text: &str) -> Canvas {
    let mut canvas = strokes(layout);
    if let Some(place) = layout.place(node) {
        let at = column(layout, place);
        canvas.set(at, b'*');
        canvas.put(at.saturating_add(2), WIDTH, text.as_bytes());
    }
    canvas
}

fn drawn(alloc: Global, layout: &Layout, row: &Row) -> Result<Canvas, AllocError> {
    match row {
        Row::Line(text) => {
            let mut canvas = strokes(layout);
            canvas.put(0, MARGIN - 1, text);
            Ok(canvas)
        }
        Row::Printed(text) => {
            let mut canvas = Canvas::blank();
            canvas.put(0, WIDTH, b"    = ");
            canvas.put(6, WIDTH, text);
            Ok(canvas)
        }
        Row::Arrow(sent) => arrow(alloc, layout, sent),
        Row::Mark { node, text } => Ok(mark(layout, *node, text)),
        Row::More => {
            let mut canvas = Canvas::blank();
            canvas.put(
                0,
                WIDTH,
                b"The run goes on; a picture has room for 20,000 lines.",
            );
            Ok(canvas)
        }
    }
}

/// The picture of these lines.
pub fn draw_text(alloc: Global, rows: &[Row]) -> Result<Vec<u8>, AllocError> {
    let layout = Layout::of(alloc, rows)?;
    let mut picture = head(alloc, &layout)?.line(alloc)?;
    for row in rows {
        let line = drawn(alloc, &layout, row)?.line(alloc)?;
        picture.extend_from_slice(&line)?;
    }
    Ok(picture)
}
