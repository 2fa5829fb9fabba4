//! How far a random run is.

/// Receives the progress of a random run.
pub trait Progress {
    /// Called after every 10,000th step, with the number of steps taken.
    fn taken(&mut self, steps: u64);
}

/// Ignores the progress.
#[derive(Drop)]
pub struct Untold;

impl Progress for Untold {
    fn taken(&mut self, _steps: u64) {}
}
