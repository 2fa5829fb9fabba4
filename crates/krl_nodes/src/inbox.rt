//! The letters to one node.
ghost use Rattle.std.specs.Prelude.{◌≡◌, ◌<◌, ◌++◌, ◌∷◌, [], Some, MatchResult};
ghost use Rattle.std.specs.Prelude.{length, remove, slice_get};

use std::alloc::{AllocFailed, Global};
use std::collections::VecDeque;
use std::marker::Model;

/// The letters to one node, oldest first.
#[derive(Drop)]
pub(crate) struct Inbox<T> {
    letters: VecDeque<T>,
}

impl<T> Model for Inbox<T> {
    ghost use Rattle.std.specs.Prelude.{List};
    ghost use Rattle.std.specs.Coded.{coded_list};

    ghost Value = { List T };

    ghost coded = { coded_list T.code };

    ghost view = { λ inbox. inbox.letters.items };
}

impl<T> Inbox<T> {
    /// No letters. It takes no memory.
    pub(crate) fn new(alloc: Global) -> Inbox<T>
        ensures { result ≡ [] }
    {
        Inbox {
            letters: VecDeque::new(alloc),
        }
    }

    /// How many letters there are.
    pub(crate) fn len(&self) -> usize
        ensures { result ≡ length self.now }
    {
        self.letters.len()
    }

    /// The letter at this place.
    pub(crate) fn letter(&self, at: usize) -> &T
        requires { at < length self.now }
        ensures { slice_get self.now at ≡ Some result.now }
    {
        &self.letters[at]
    }

    /// Puts a letter after the others. It comes back if memory is refused.
    pub(crate) fn push(&mut self, letter: T) -> Result<(), AllocFailed<T>>
        ensures { MatchResult result
            (λ _. self.new ≡ self.old ++ letter ∷ [])
            (λ back. (back.value ≡ letter) × (self.new ≡ self.old)) }
    {
        self.letters.push_back(letter)
    }
}

impl<T: Drop> Inbox<T> {
    /// Takes out the letter at this place. If it is the oldest, no other moves.
    pub(crate) fn remove(&mut self, at: usize)
        requires { at < length self.old }
        ensures { self.new ≡ remove self.old at }
    {
        let _ = self.letters.remove(at);
    }
}
