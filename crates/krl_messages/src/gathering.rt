//! Holdings that are gathered one by one.
ghost use Rattle.std.specs.Prelude.{◌≡◌, ◌<◌, ◌≤◌, [], ◌∷◌, ◌++◌, length, IfOk};
ghost use Rattle.krl_messages.specs.Ascending.{Ascend};
ghost use Rattle.krl_modes.specs.declared.limits.TheConstants.{MAX_HOLDINGS};

use crate::holding::Holding;
use crate::holdings::Holdings;
use std::alloc::{AllocError, Global};
use std::marker::Model;
use std::slice::from_ref;

/// A list of holdings with room that was made before it is filled. A clause sees the holdings, and
/// for how many there is room.
#[derive(Drop)]
pub struct Gathering {
    items: Vec<Holding>,
}

impl Model for Gathering {
    ghost use Rattle.std.specs.Prelude.{vec_capacity};
    ghost use Rattle.std.specs.Coded.{codes, coded_list};
    ghost use Rattle.krl_messages.specs.Gathered.{Gathered};
    ghost use Rattle.krl_messages.specs.contracts.holding.Holding as holding;

    ghost Value = { Gathered };

    ghost coded = { Prim.hlevel (codes, coded_list holding.the_row.coded) };

    ghost view = { λ g. record { holdings = g.items.items; room = vec_capacity g.items } };
}

impl Gathering {
    /// No holding yet, and room for so many.
    ///
    /// # Errors
    ///
    /// `AllocError` if the memory is refused.
    pub fn new(alloc: Global, room: usize) -> Result<Gathering, AllocError>
        ensures { IfOk result (λ g. g ≡ record { holdings = []; room = room }) }
    {
        let items = Vec::with_capacity(alloc, room)?;
        Ok(Gathering { items })
    }

    /// Puts the holding of a slot after all others. It takes no memory.
    pub fn push(&mut self, holding: Holding)
        requires { length self.old.holdings < self.old.room }
        ensures holdings { self.new.holdings ≡ self.old.holdings ++ holding ∷ [] }
        ensures room { self.old.room ≤ self.new.room }
    {
        self.items.extend_from_slice(from_ref(&holding)).unwrap();
    }

    /// An equal list in this room, in which nothing was gathered. It takes no memory.
    pub fn into_copy(self, list: &Holdings) -> Holdings
        requires empty { self.holdings ≡ [] }
        requires room { length list.now ≤ self.room }
        ensures { result ≡ list.now }
    {
        let Gathering { items } = self;
        let mut items = items;
        items.extend_from_slice(list.as_slice()).unwrap();
        Holdings::of(items)
    }

    /// The list of what was gathered. It takes no memory.
    pub fn into_holdings(self) -> Holdings
        requires some { 1 ≤ length self.holdings }
        requires few { length self.holdings ≤ MAX_HOLDINGS }
        requires order { Ascend self.holdings }
        ensures { result ≡ self.holdings }
    {
        let Gathering { items } = self;
        Holdings::of(items)
    }
}
