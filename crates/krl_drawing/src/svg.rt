//! A picture as a drawing in SVG.
use crate::bars::{Bar, Stretch, class, held, lives};
use crate::history::{History, MAX_POINTS};
use crate::markup::{text, title};
use crate::row::{Arrow, Fate, Node, Row};
use crate::sheet::Sheet;
use crate::style::STYLE;
use std::alloc::{AllocError, Global};

// Pixels: of a bar, and from one bar to the next.
const BAR: usize = 5;

const BARS_APART: usize = 7;

fn head(alloc: Global, sheet: &Sheet) -> Result<String, AllocError> {
    let width = sheet.width();
    let height = sheet.bottom().saturating_add(40);
    format!(in alloc;
        "<svg xmlns=\"http://www.w3.org/2000/svg\" viewBox=\"0 0 {width} {height}\" \
         width=\"{width}\" height=\"{height}\">\n\
         {STYLE}<rect class=\"ground\" width=\"100%\" height=\"100%\"/>\n"
    )
}

fn name(alloc: Global, node: Node) -> Result<String, AllocError> {
    match node {
        Node::Server => format!(in alloc; "server"),
        Node::Client(client) => format!(in alloc; "client {client}"),
    }
}

// What the colors mean, and of which points the bars are.
fn legend(alloc: Global, sheet: &Sheet, points: &[u64]) -> Result<String, AllocError> {
    let y = sheet.bottom().saturating_add(28);
    let mut out = String::new(alloc);
    let mut x: usize = 4;
    for (class, word) in [
        ("reads", "reads"),
        ("updates", "reads, writes next"),
        ("inserts", "inserts"),
        ("writes", "writes"),
    ] {
        let words = text(alloc, "note", x.wrapping_add(14), y, word.as_bytes())?;
        let top = y.saturating_sub(9);
        let square = format!(in alloc;
            "<rect class=\"{class}\" x=\"{x}\" y=\"{top}\" width=\"10\" height=\"10\"/>{words}"
        )?;
        out.push_str(&square)?;
        x = x.wrapping_add(word.len().wrapping_mul(8)).wrapping_add(30);
    }
    if !points.is_empty() {
        let mut note = format!(in alloc; "bars, from the left:")?;
        for point in points {
            let word = format!(in alloc; " {point}")?;
            note.push_str(&word)?;
        }
        let words = text(alloc, "note", x, y, note.as_bytes())?;
        out.push_str(&words)?;
    }
    Ok(out)
}

// A part of a node's stroke.
fn life(alloc: Global, sheet: &Sheet, x: usize, lines: Stretch) -> Result<String, AllocError> {
    let (y1, y2) = (sheet.down(lines.from), sheet.down(lines.to));
    format!(in alloc; "<line class=\"life\" x1=\"{x}\" y1=\"{y1}\" x2=\"{x}\" y2=\"{y2}\"/>\n")
}

fn bar(
    alloc: Global,
    sheet: &Sheet,
    x: usize,
    holder: u64,
    point: u64,
    bar: Bar,
) -> Result<String, AllocError> {
    let y = sheet.down(bar.lines.from);
    let height = sheet.down(bar.lines.to).saturating_sub(y);
    let (range, key) = (bar.part.range.name(), bar.part.key.name());
    let class = class(bar.part);
    let what = format!(in alloc;
        "client {holder} holds {range} of the gap at {point}, and {key} of its entry"
    )?;
    let title = title(alloc, what.as_bytes())?;
    format!(in alloc;
        "<rect class=\"{class}\" x=\"{x}\" y=\"{y}\" width=\"{BAR}\" height=\"{height}\">\
         {title}</rect>\n"
    )
}

// What the client holds, in a bar for each point.
fn bars(
    alloc: Global,
    sheet: &Sheet,
    history: &History,
    points: &[u64],
    client: u64,
    x: usize,
) -> Result<String, AllocError> {
    let mut out = String::new(alloc);
    for (i, point) in points.iter().take(MAX_POINTS).enumerate() {
        let from_the_right = points.len().saturating_sub(i);
        let left = x.saturating_sub(from_the_right.wrapping_mul(BARS_APART));
        for one in held(alloc, &history.holdings, client, *point, sheet.lines())? {
            let drawn = bar(alloc, sheet, left, client, *point, one)?;
            out.push_str(&drawn)?;
        }
    }
    Ok(out)
}

// A node's name, its stroke while it is up, and what it holds.
fn node(
    alloc: Global,
    sheet: &Sheet,
    history: &History,
    points: &[u64],
    place: usize,
) -> Result<String, AllocError> {
    let Some(node) = sheet.layout.node(place) else {
        return Ok(String::new(alloc));
    };
    let x = sheet.across(place);
    let name = name(alloc, node)?;
    let mut out = text(alloc, "name", x.saturating_sub(20), 14, name.as_bytes())?;
    for lines in lives(alloc, &history.turns, node, sheet.lines())? {
        let stroke = life(alloc, sheet, x, lines)?;
        out.push_str(&stroke)?;
    }
    if let Node::Client(client) = node {
        let bars = bars(alloc, sheet, history, points, client, x)?;
        out.push_str(&bars)?;
    }
    Ok(out)
}

fn fate_words(fate: Fate) -> (&'static str, &'static str) {
    match fate {
        Fate::Delivered => ("", ""),
        Fate::Repeated => (" again", " again"),
        Fate::Unread => (" to a node that is down", " unread"),
        Fate::Lost => (" lost", " lost"),
    }
}

// A line that ends with a tip if the message arrives, and otherwise with a cross: on its way if it
// is lost.
fn line(alloc: Global, x1: usize, x2: usize, y: usize, fate: Fate) -> Result<String, AllocError> {
    let end = if fate == Fate::Lost {
        x1 / 2 + x2 / 2
    } else {
        x2
    };
    if matches!(fate, Fate::Delivered | Fate::Repeated) {
        return format!(in alloc;
            "<line x1=\"{x1}\" y1=\"{y}\" x2=\"{x2}\" y2=\"{y}\" marker-end=\"url(#tip)\"/>"
        );
    }
    format!(in alloc;
        "<line x1=\"{x1}\" y1=\"{y}\" x2=\"{end}\" y2=\"{y}\"/>\
         <path class=\"cross\" d=\"M-3,-3L3,3M-3,3L3,-3\" transform=\"translate({end},{y})\"/>"
    )
}

fn arrow(alloc: Global, sheet: &Sheet, y: usize, arrow: &Arrow) -> Result<String, AllocError> {
    let (Some(x1), Some(x2)) = (sheet.column(arrow.from), sheet.column(arrow.to)) else {
        return Ok(String::new(alloc));
    };
    let (word, class) = fate_words(arrow.fate);
    let quiet = if arrow.is_quiet { " quiet" } else { "" };
    let Arrow {
        number,
        label,
        whole,
        ..
    } = arrow;
    let title = title(alloc, whole.as_bytes())?;
    let note = format!(in alloc; "{number} {label}{word}")?;
    let left = x1.min(x2).wrapping_add(12);
    let words = text(alloc, "label", left, y.saturating_sub(5), note.as_bytes())?;
    let line = line(alloc, x1, x2, y, arrow.fate)?;
    format!(in alloc; "<g class=\"arrow{quiet}{class}\">{title}{line}{words}</g>\n")
}

fn mark(
    alloc: Global,
    sheet: &Sheet,
    y: usize,
    node: Node,
    what: &str,
) -> Result<String, AllocError> {
    match sheet.column(node) {
        Some(x) => {
            let below = y.saturating_add(4);
            let words = text(alloc, "label", x.wrapping_add(10), below, what.as_bytes())?;
            format!(in alloc; "{words}<circle class=\"mark\" cx=\"{x}\" cy=\"{y}\" r=\"5\"/>\n")
        }
        None => Ok(String::new(alloc)),
    }
}

fn drawn(alloc: Global, sheet: &Sheet, y: usize, row: &Row) -> Result<String, AllocError> {
    match row {
        Row::Line(words) => text(alloc, "script", 4, y, words),
        Row::Printed(words) => text(alloc, "note", 24, y, words),
        Row::Arrow(sent) => arrow(alloc, sheet, y, sent),
        Row::Mark { node, text } => mark(alloc, sheet, y, *node, text),
        Row::More => text(
            alloc,
            "note",
            4,
            y,
            b"The run goes on; a picture has room for 20,000 lines.",
        ),
    }
}

/// The drawing of these lines, and of what each node held meanwhile.
pub fn draw_svg(alloc: Global, rows: &[Row], history: &History) -> Result<Vec<u8>, AllocError> {
    let sheet = Sheet::of(alloc, rows)?;
    let points = history.sorted_points(alloc)?;
    let mut drawing = head(alloc, &sheet)?;
    for place in 0..sheet.layout.count() {
        let drawn = node(alloc, &sheet, history, &points, place)?;
        drawing.push_str(&drawn)?;
    }
    for (i, row) in rows.iter().enumerate() {
        let line = drawn(alloc, &sheet, sheet.down(i.saturating_add(1)), row)?;
        drawing.push_str(&line)?;
    }
    let legend = legend(alloc, &sheet, &points)?;
    drawing.push_str(&legend)?;
    drawing.push_str("</svg>\n")?;
    Ok(drawing.into_bytes())
}
