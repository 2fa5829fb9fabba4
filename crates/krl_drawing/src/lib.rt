//! Drawings of a run: its lines as rows of plain data, and what they look like in plain text and in
//! SVG.
//!
//! Nothing is promised of a drawing but that making it is safe and ends.
#![tactic(auto)]

mod bars;
mod canvas;
mod history;
mod label;
mod layout;
mod markup;
mod row;
mod sheet;
mod style;
mod svg;
mod text;

pub use history::{History, Holding, MAX_POINTS, Part, Turn};
pub use label::Label;
pub use row::{Arrow, Fate, Node, Row};
pub use svg::draw_svg;
pub use text::draw_text;
