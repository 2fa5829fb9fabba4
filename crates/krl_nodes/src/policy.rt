//! Which of the letters to a node is picked, and what becomes of it.
ghost use Rattle.std.specs.Prelude.{◌≡◌, ◌<◌, ℕ};
ghost use Rattle.krl_nodes.specs.declared.policy.Pick.{Pick};
ghost use Rattle.krl_nodes.specs.Letters.{position_of};

/// What becomes of one of the letters to a node. Letters are counted from 0, the oldest first, and
/// a number past the youngest stands for the youngest.
#[derive(Clone, Copy)]
pub enum Pick {
    /// The letter is delivered, and taken out.
    Take(usize),
    /// The letter is delivered, and stays.
    Copy(usize),
    /// The letter is taken out, and nobody reads it.
    Lose(usize),
}

impl Pick {
    /// The place of the letter among so many.
    pub(crate) fn place(self, letters: usize) -> usize
        requires { 0 < letters }
        ensures place { result ≡ position_of self letters }
        ensures below { result < letters }
    {
        let (Pick::Take(at) | Pick::Copy(at) | Pick::Lose(at)) = self;
        if at < letters { at } else { letters - 1 }
    }
}

/// Picks among the letters to a node.
pub trait Policy {
    ghost picks: { Self → ℕ → Pick → Self → Type 0 };

    /// Picks one of so many letters, of which there is at least one. It is asked while the post is
    /// taken.
    fn pick(&mut self, letters: usize) -> Pick
        requires { 0 < letters }
        ensures { picks self.old letters result self.new };
}
