//! What a client and the server send to each other, as plain data.
//!
//! A point, a key or a number in a message is a plain `u64`: a stranger may set it to anything, and
//! its receiver judges it. A span or a mode is one by its type. Whatever needs no memory is `Copy`;
//! what holds lists has a `try_clone`.
#![tactic(auto)]

mod gathering;
mod holding;
mod holdings;
mod items;
mod key_pieces;
mod outcome;
mod pieces;
mod range_pieces;
mod to_client;
mod to_server;
mod value;
mod write_op;

pub use gathering::Gathering;
pub use holding::Holding;
pub use holdings::Holdings;
pub use items::Items;
pub use key_pieces::{KeyPiece, KeyPieces};
pub use outcome::Outcome;
pub use pieces::Pieces;
pub use range_pieces::{RangePiece, RangePieces};
pub use to_client::{PushBody, ToClient, ToClientBody};
pub use to_server::{Request, RequestBody, ToServer, ToServerBody};
pub use value::Value;
pub use write_op::WriteOp;
