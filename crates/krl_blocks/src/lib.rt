//! General containers: entries in key order in short blocks, a map that takes all its memory at the
//! start, and a box that is kept as its pointer.
#![tactic(auto)]

mod block;
mod blocks;
mod detached_box;
mod entries;
mod finger;
mod found;
mod halves;
mod layout;
mod reserved_map;
mod search;
mod shelf;
mod spot;

pub use blocks::Blocks;
pub use detached_box::DetachedBox;
pub use entries::Entries;
pub use finger::Finger;
pub use found::Found;
pub use reserved_map::ReservedMap;
