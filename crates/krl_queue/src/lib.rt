//! The clients that wait for one slot, in order.
//!
//! A waiter's node is made beforehand, so that its memory has been asked for before it is put into
//! a list. No other call takes memory, and none can be refused.
#![tactic(auto)]

mod list;
mod node;
mod node_chain;
mod node_ptr;
mod waiter;

pub use list::WaitList;
pub use node::WaitNode;
pub use waiter::Waiter;
