//! Policies: which letter is read, and whether it stays.
use krl_nodes::{Pick, Policy};

/// Each letter is delivered twice: it stays the first time.
#[derive(Drop)]
pub struct Twice {
    /// Whether the letter that waits was delivered once.
    pub is_second: bool,
}

impl Policy for Twice {
    ghost picks = { λ _ _ _ _. Unit {0} };

    fn pick(&mut self, _letters: usize) -> Pick {
        self.is_second = !self.is_second;
        if self.is_second {
            Pick::Copy(0)
        } else {
            Pick::Take(0)
        }
    }
}

/// Every letter is lost.
#[derive(Drop)]
pub struct Loses;

impl Policy for Loses {
    ghost picks = { λ _ _ _ _. Unit {0} };

    fn pick(&mut self, _letters: usize) -> Pick {
        Pick::Lose(0)
    }
}

/// The youngest letter is delivered first.
#[derive(Drop)]
pub struct Youngest;

impl Policy for Youngest {
    ghost picks = { λ _ _ _ _. Unit {0} };

    fn pick(&mut self, _letters: usize) -> Pick {
        Pick::Take(usize::MAX)
    }
}
