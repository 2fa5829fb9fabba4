//! A client or a server of the lock server behind a handle, for a program in C or Rust.
//!
//! The program owns the handle, its sockets and its disk. `krl.h` declares the exports.
#![tactic(auto)]

mod changes;
mod client_calls;
mod client_exports;
mod client_shows;
mod code;
mod endpoint;
mod exports;
mod frames;
mod handle;
mod laws;
mod lease_rows;
mod lease_table;
mod leased_scan;
mod leases;
mod lent;
mod notes;
mod opening;
mod owned;
mod page;
mod reader;
mod records;
mod reply;
mod rows;
mod server_calls;
mod server_exports;
mod server_shows;
mod shards;
mod version;
