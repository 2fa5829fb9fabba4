//! What a lock holds and where: the parts of a mode, the thirteen modes, points and spans.
#![tactic(auto)]

pub mod laws;
mod limits;
mod mode;
mod part;
mod point;
mod span;

pub use limits::{
    MAX_CLIENTS, MAX_HOLDINGS, MAX_PINS, MAX_ROOM, MAX_VALUE_BYTES, STANDARD_REACH, STANDARD_ROOM,
};
pub use mode::Mode;
pub use part::{KeyPart, RangePart};
pub use point::{END, Point, TOP};
pub use span::{BadSpan, Span};
