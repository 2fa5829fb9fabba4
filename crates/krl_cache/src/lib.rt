//! What a client believes of the index and of its locks: a range part at each point, and key parts
//! with values at some points.
//!
//! From it a client answers a scan with no message: a point is known if its entry or its gap is
//! read. The parts are those of key-range locking (the SQL Server guide; Lomet, VLDB 1993).
#![tactic(auto)]

mod adopt;
mod back;
mod belief;
mod cache;
mod entry;
mod found;
mod joined;
mod maps;
mod parts;
mod rows;
mod scanned;
mod several;
mod sift;
mod walk;

pub use belief::Belief;
pub use cache::Cache;
pub use entry::Entry;
pub use found::{Found, RowsInPlace};
pub use parts::{part_of, reads_gap, reads_key, value_of};
pub use rows::Rows;
pub use scanned::Scanned;
