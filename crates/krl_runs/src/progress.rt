//! How far a random run is, on standard error.
use krl_script::Progress;

/// Reports on standard error, if reports are wanted.
#[derive(Drop)]
pub struct Told<'a, R> {
    rt: &'a R,
    is_told: bool,
    all: u64,
}

impl<'a, R> Told<'a, R> {
    /// Reports a run of so many steps.
    pub fn new(rt: &'a R, is_told: bool, all: u64) -> Told<'a, R> {
        Told { rt, is_told, all }
    }
}

impl<R: Eprint> Progress for Told<'_, R> {
    // A line that can't be written is passed over: the run is the same without it.
    fn taken(&mut self, steps: u64) {
        if self.is_told {
            let _ = eprintln!(self.rt; "krl: {steps} of {} steps", self.all);
        }
    }
}
