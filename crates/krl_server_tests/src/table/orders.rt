//! Reports in no order, and what they are in order.
use super::report::{self, Report};
use crate::again::CALLS;
use krl_messages::Pieces;
use krl_modes::{END, KeyPart, RangePart, TOP};
use krl_table::{in_order, is_in_order};
use std::alloc::Global;

/// Each report, and the one in order that states the same.
pub static ORDERS: [(Report, Report); 6] = [
    (Report(&[], &[]), Report(&[], &[])),
    // The last first.
    (
        Report(
            &[
                (20, 30, RangePart::S),
                (10, 20, RangePart::I),
                (0, 5, RangePart::X),
            ],
            &[(END, KeyPart::S), (9, KeyPart::X)],
        ),
        Report(
            &[
                (0, 5, RangePart::X),
                (10, 20, RangePart::I),
                (20, 30, RangePart::S),
            ],
            &[(9, KeyPart::X), (END, KeyPart::S)],
        ),
    ),
    // One begins in the other, and ends after it.
    (
        Report(&[(0, 11, RangePart::S), (5, 15, RangePart::I)], &[]),
        Report(
            &[
                (0, 5, RangePart::S),
                (5, 11, RangePart::X),
                (11, 15, RangePart::I),
            ],
            &[],
        ),
    ),
    // One lies in the other, which comes after it.
    (
        Report(&[(5, 7, RangePart::I), (0, TOP, RangePart::S)], &[]),
        Report(
            &[
                (0, 5, RangePart::S),
                (5, 7, RangePart::X),
                (7, TOP, RangePart::S),
            ],
            &[],
        ),
    ),
    // Twice the same points, and a third piece that ends with both.
    (
        Report(
            &[
                (3, 9, RangePart::S),
                (3, 9, RangePart::S),
                (8, 9, RangePart::X),
            ],
            &[],
        ),
        Report(&[(3, 8, RangePart::S), (8, 9, RangePart::X)], &[]),
    ),
    // Each to the end.
    (
        Report(
            &[
                (0, TOP, RangePart::S),
                (4, TOP, RangePart::S),
                (6, TOP, RangePart::I),
            ],
            &[],
        ),
        Report(
            &[
                (0, 4, RangePart::S),
                (4, 6, RangePart::S),
                (6, TOP, RangePart::X),
            ],
            &[],
        ),
    ),
];

/// The pieces in order, asked for again if memory was refused.
fn ordered(alloc: Global, pieces: &Pieces) -> Option<Pieces> {
    for _ in 0..CALLS {
        if let Ok(ordered) = in_order(alloc, pieces) {
            return Some(ordered);
        }
    }
    None
}

/// Whether the report in order is the expected one, which is in order itself.
pub fn is_brought_into_order(alloc: Global, given: Report, expected: Report) -> bool {
    let Some(pieces) = report::pieces(alloc, given) else {
        return false;
    };
    let Some(ordered) = ordered(alloc, &pieces) else {
        return false;
    };
    let Some(expected) = report::pieces(alloc, expected) else {
        return false;
    };
    ordered == expected && is_in_order(&expected)
}
