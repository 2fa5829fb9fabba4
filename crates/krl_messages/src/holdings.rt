//! What a client holds of several slots.
ghost use Rattle.std.specs.Prelude.{◌≡◌, ◌≤◌, ◌↔◌, length, IfOk, IsSome, IfSome};
ghost use Rattle.krl_messages.specs.Ascending.{Ascend, ascend_from, are_holdings};
ghost use Rattle.krl_modes.specs.declared.limits.TheConstants.{MAX_HOLDINGS};
ghost use Rattle.krl_messages.specs.Places.{AreHoldings};
ghost use Rattle.krl_messages.specs.Holdings.{have_values};

use crate::holding::Holding;
use krl_modes::MAX_HOLDINGS;
use std::alloc::{AllocError, Global};
use std::marker::Model;

/// What the server's table gives a client of 1 to 128 slots, in ascending order, no point twice.
/// The list has memory of its own.
#[derive(Drop)]
pub struct Holdings {
    items: Vec<Holding>,
}

impl Model for Holdings {
    ghost use Rattle.std.specs.Prelude.{List};
    ghost use Rattle.std.specs.Coded.{coded_list};
    ghost use Rattle.krl_messages.specs.declared.holding.Holding.{Holding};
    ghost use Rattle.krl_messages.specs.contracts.holding.Holding as holding;

    ghost Value = { List Holding };

    ghost coded = { coded_list holding.the_row.coded };

    ghost use Rattle.krl_messages.specs.Places.{AreHoldings};

    ghost view = { λ h. h.items.items };

    ghost invariant = { λ h. AreHoldings h.items.items };
}

impl PartialEq for Holdings {
    ghost use Rattle.std.specs.Cmp.Lexicographic.{pointwise, lists_per};
    ghost use Rattle.krl_messages.specs.contracts.holding.HoldingPartialEq.TheImpl as same;
    ghost use Rattle.krl_messages.specs.contracts.holding.HoldingPartialEq.TheImpl.Laws as holds;

    ghost eq = { pointwise same.ghosts.eq };

    ghost laws = { lists_per holds.lawful.laws };

    fn eq(&self, other: &Holdings) -> bool {
        self.items == other.items
    }
}

// Whether each of these has its value by the rule.
fn all_have_values(list: &[Holding]) -> bool
    ensures { result ≡ have_values list.now }
{
    for holding in list {
        if !holding.has_its_value() {
            return false;
        }
    }
    true
}

// Whether each span begins where the one before it ends, or later.
fn ascend(list: &[Holding]) -> bool
    ensures { result ≡ ascend_from 0 list.now }
{
    let mut least = 0;
    for holding in list {
        if holding.span.lo() < least {
            return false;
        }
        least = holding.span.hi();
    }
    true
}

// Whether a message can carry these.
fn are_holdings(list: &[Holding]) -> bool
    ensures { result ≡ are_holdings list.now }
{
    1 <= list.len() && list.len() <= MAX_HOLDINGS && ascend(list)
}

impl Holdings {
    /// These holdings; None unless there are 1 to 128 of them, in ascending order, no point twice.
    /// It takes no memory.
    pub fn new(items: Vec<Holding>) -> Option<Holdings>
        ensures holdings { IfSome result (λ holdings. holdings ≡ items.items) }
        ensures due { IsSome result ↔ AreHoldings items.items }
    {
        if are_holdings(items.as_slice()) {
            Some(Holdings { items })
        } else {
            None
        }
    }

    /// These holdings. It takes no memory.
    pub(crate) fn of(items: Vec<Holding>) -> Holdings
        requires some { 1 ≤ length items.items }
        requires few { length items.items ≤ MAX_HOLDINGS }
        requires order { Ascend items.items }
        ensures { result ≡ items.items }
    {
        Holdings { items }
    }

    /// An equal list, with memory of its own.
    ///
    /// # Errors
    ///
    /// `AllocError` if the list's memory is refused. Nothing has changed then.
    pub fn try_clone(&self, alloc: Global) -> Result<Holdings, AllocError>
        ensures { IfOk result (λ copy. copy ≡ self.now) }
    {
        let items = Vec::from_slice(alloc, self.as_slice())?;
        Ok(Holdings { items })
    }

    /// Whether each has its value by the rule.
    pub fn have_values(&self) -> bool
        ensures { result ≡ have_values self.now }
    {
        all_have_values(self.as_slice())
    }

    /// The holdings, in order: 1 to 128.
    pub fn as_slice(&self) -> &[Holding]
        ensures holdings { result.now ≡ self.now }
        ensures few { (1 ≤ length self.now) × (length self.now ≤ MAX_HOLDINGS) }
        ensures ascend { Ascend self.now }
    {
        self.items.as_slice()
    }
}
