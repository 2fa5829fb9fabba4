//! A policy that is drawn.
ghost use Rattle.std.specs.Prelude.{◌≡◌};
ghost use Rattle.krl_draws.specs.Generator.{generator_of};
ghost use Rattle.krl_nodes.specs.Picks.{drawn_picks};

use crate::policy::{Pick, Policy};
use krl_draws::Generator;
use std::marker::Model;

/// Picks that are drawn from a seed: of eight letters one is lost, two are delivered and stay, and
/// five are delivered and taken out; and each of the letters that wait may be the one.
#[derive(Drop)]
pub struct Drawn {
    draws: Generator,
}

impl Model for Drawn {
    ghost use Rattle.rand_pcg.specs.Lcg.{Lcg};

    ghost Value = { Lcg };

    ghost view = { λ d. d.draws };
}

impl Drawn {
    /// The picks of a seed.
    pub fn new(seed: u64) -> Drawn
        ensures { result ≡ generator_of seed }
    {
        Drawn {
            draws: Generator::new(seed),
        }
    }
}

impl Policy for Drawn {
    ghost picks = { drawn_picks };

    fn pick(&mut self, letters: usize) -> Pick {
        let kind = self.draws.below(8);
        let at = self.draws.below(letters as u64) as usize;
        match kind {
            0 => Pick::Lose(at),
            1 | 2 => Pick::Copy(at),
            _ => Pick::Take(at),
        }
    }
}
