//! The server: it judges each message, keeps the index and the table, and answers waiters.
#![tactic(auto)]

mod answering;
mod at_once;
mod callbacks;
mod case;
mod classify;
mod effects;
mod grant_room;
mod grant_rooms;
mod laws;
mod missing;
mod nudging;
mod out;
mod phase;
mod seizing;
mod server;
mod session;
mod sessions;
mod shown;
mod start_refused;
mod state;
mod step;

pub use missing::Missing;
pub use out::ServerOut;
pub use phase::Phase;
pub use server::Server;
pub use session::Session;
pub use start_refused::{NotStarted, ServerNotStarted};
pub use state::State;
