//! Pictures of a script's run: the nodes side by side, and a line for each message that is delivered,
//! repeated or lost, each crash and each start, and what each line of the script printed. A picture
//! takes the same steps as the script's transcript, by the same interpreter.
//!
//! Nothing is promised of a picture but that making it is safe and ends.
#![tactic(auto)]

mod recorder;
mod watch;

pub use recorder::{write_drawing, write_picture};
