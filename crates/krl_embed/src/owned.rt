//! A box that may be there, as C keeps it.
ghost use Rattle.std.specs.Prelude.{◌≡◌, None, Some, Option, IsSome};
ghost use Rattle.krl_embed.specs.declared.endpoint.Endpoint.{Endpoint};
ghost use Rattle.std.specs.declared.alloc.Global.{Global};
ghost use Rattle.std.specs.Coded.{coded_option};
ghost use Rattle.krl_embed.specs.contracts.endpoint.Endpoint.{the_row};

use crate::endpoint::Endpoint;
use krl_blocks::DetachedBox;
use std::alloc::Global;
use std::marker::Model;
use std::ptr::null_mut;

/// A pointer, and what it owns. If it owns nothing the pointer means nothing.
#[repr(C)]
#[derive(Drop)]
pub(crate) struct Owned {
    pub(crate) at: *mut u8,
    pub(crate) ghost heap: { Global },
    pub(crate) ghost value: { Option Endpoint } by { coded_option the_row.coded },
}

impl Model for Owned {
    ghost use Rattle.krl_embed.specs.Owning.{may_own};

    ghost also_owns = { λ o. may_own o.at o.heap o.value };
}

impl Owned {
    pub(crate) fn none() -> Owned
        ensures { result.value ≡ None }
    {
        Owned { at: null_mut() }
    }

    pub(crate) fn of(detached_box: DetachedBox<Endpoint, Global>) -> Owned
        ensures { result.value ≡ Some detached_box.value }
    {
        let DetachedBox { at, alloc: _ } = detached_box;
        let at = at as *mut u8;
        Owned { at }
    }

    pub(crate) fn into_detached_box(self, alloc: Global) -> DetachedBox<Endpoint, Global>
        requires { IsSome self.value }
        ensures { self.value ≡ Some result.value }
    {
        let Owned { at } = self;
        let at = at as *mut Endpoint;
        DetachedBox { at, alloc }
    }
}
