//! The one list type of messages.
ghost use Rattle.std.specs.Prelude.{◌≡◌, IfOk};

use std::alloc::{AllocError, Global};
use std::marker::Model;

/// A list that a message carries, seen as a list. It is made from a `Vec` and gives it back;
/// neither takes memory.
#[derive(Drop)]
pub struct Items<T> {
    items: Vec<T>,
}

impl<T> Model for Items<T> {
    ghost use Rattle.std.specs.Prelude.{List};
    ghost use Rattle.std.specs.Coded.{coded_list};

    ghost Value = { List T };

    ghost coded = { coded_list T.code };

    ghost view = { λ list. list.items.items };
}

impl<T> From<Vec<T>> for Items<T> {
    ghost from_gives = { λ vec list. list ≡ vec.items };

    /// The list of these items, in their order. It takes no memory.
    fn from(items: Vec<T>) -> Items<T> {
        Items { items }
    }
}

impl<T: PartialEq> PartialEq for Items<T> {
    ghost use Rattle.std.specs.Cmp.Lexicographic.{pointwise, lists_per};

    ghost eq = { pointwise T.eq };

    ghost laws = { lists_per T.laws };

    fn eq(&self, other: &Items<T>) -> bool {
        self.items == other.items
    }
}

impl<T: Eq> Eq for Items<T> {
    ghost use Rattle.std.specs.Cmp.Lexicographic.{lists_equiv};

    ghost laws = { lists_equiv T.Eq.laws };
}

impl<T> Items<T> {
    /// The items, in order.
    pub fn as_slice(&self) -> &[T]
        ensures { result.now ≡ self.now }
    {
        self.items.as_slice()
    }

    /// The items, in order. It takes no memory.
    pub fn into_vec(self) -> Vec<T>
        ensures { result.items ≡ self }
    {
        let Items { items } = self;
        items
    }
}

impl<T: Copy> Items<T> {
    /// An equal list.
    ///
    /// # Errors
    ///
    /// `AllocError` if the list's memory is refused. Nothing has changed then.
    pub fn try_clone(&self, alloc: Global) -> Result<Items<T>, AllocError>
        ensures { IfOk result (λ copy. copy ≡ self.now) }
    {
        let items = Vec::from_slice(alloc, self.as_slice())?;
        Ok(Items { items })
    }
}
