//! What a client reports, as data.
use crate::again::CALLS;
use crate::requests;
use krl_messages::Pieces;
use krl_modes::{KeyPart, RangePart};
use std::alloc::Global;

/// A range part, by the ends of its span.
pub type Range = (u64, u64, RangePart);

/// Range parts, and key parts at points.
#[derive(Clone, Copy)]
pub struct Report(pub &'static [Range], pub &'static [(u64, KeyPart)]);

/// The pieces of the report, asked for again if memory was refused.
pub fn pieces(alloc: Global, report: Report) -> Option<Pieces> {
    let Report(ranges, keys) = report;
    for _ in 0..CALLS {
        if let Ok(pieces) = requests::pieces(alloc, ranges, keys) {
            return Some(pieces);
        }
    }
    None
}
