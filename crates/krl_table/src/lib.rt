//! The table of the server: which client holds which mode on which slot, and the waiters there.
#![tactic(auto)]

mod all_rows;
mod conflict;
mod extent;
mod extents;
mod first;
mod needs;
mod order;
mod pieces;
mod reply;
mod reports;
mod row;
mod row_ops;
mod sweep;
mod table;
mod waiting;

pub use conflict::Conflict;
pub use first::FirstWaiter;
pub use order::{in_order, is_in_order};
pub use reply::Reply;
pub use row::SlotRow;
pub use table::Table;
