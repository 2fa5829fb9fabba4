//! A box that is lent, as C keeps it.
ghost use Rattle.std.specs.Prelude.{◌≡◌, ℕ, Some, Option, IsSome};
ghost use Rattle.std.specs.Coded.{coded_option};
ghost use Rattle.krl_embed.specs.declared.endpoint.Endpoint.{Endpoint};
ghost use Rattle.krl_embed.specs.contracts.endpoint.Endpoint.{the_row};

use crate::endpoint::Endpoint;
use std::marker::Model;

/// A pointer, and what is lent to it, with a part of the right to end the loan. So the loan lasts
/// as long as this does. If nothing is lent the pointer means nothing.
#[repr(C)]
#[derive(Drop)]
pub(crate) struct Lent {
    at: *mut u8,
    ghost life: { ℕ },
    pub(crate) ghost value: { Option Endpoint } by { coded_option the_row.coded },
}

impl Model for Lent {
    ghost use Rattle.krl_embed.specs.Owning.{may_read};

    ghost also_owns = { λ l. may_read l.at l.life l.value };
}

impl Lent {
    ghost use Rattle.std.specs.Borrow.{sem};
    ghost use Rattle.std.specs.Io.BufRead.{Rests};
    ghost use Rattle.krl_embed.specs.contracts.lent.Lent.{the_row as lent_row};

    // What is lent. It stays lent.
    pub(crate) fn shown(&mut self) -> &Endpoint
        requires { IsSome self.old.value }
        ensures* stays { sem 𝓛 (Rests lent_row self.entry (λ lent. lent.value ≡ self.old.value)) }
        ensures shown { self.old.value ≡ Some result.now }
    {
        let at = self.at as *const Endpoint;
        unsafe { &*at }
    }
}
