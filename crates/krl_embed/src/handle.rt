//! Handles.
ghost use Rattle.std.specs.Prelude.{◌≡◌, is_some, Some, None, IsNone, MatchOption};
ghost use Rattle.std.specs.Thread.{IsSend};

use crate::endpoint::Endpoint;
use crate::owned::Owned;
use krl_blocks::DetachedBox;
use std::alloc::Global;
use std::mem::replace;

/// A client or a server, as C keeps it. One of zeros is closed. C neither reads, writes nor copies
/// one that is open.
#[repr(C)]
#[derive(Drop)]
pub struct Handle {
    is_open: bool,
    owned: Owned,
    ghost state: { is_open ≡ is_some owned.value },
}

pub(crate) fn take(alloc: Global, handle: &mut Handle) -> Option<Box<Endpoint>>
    ensures taken { MatchOption result (handle.new ≡ handle.old)
        (λ endpoint. (handle.old.owned.value ≡ Some endpoint.value)
        × (handle.new.owned.value ≡ None)) }
    ensures closed { IsNone result → handle.old.owned.value ≡ None }
{
    if !handle.is_open {
        return None;
    }
    let closed = Handle {
        is_open: false,
        owned: Owned::none(),
    };
    let Handle { is_open: _, owned } = replace(handle, closed);
    Some(owned.into_detached_box(alloc).into_box())
}

// The value. It may go to another thread: no other value has a proof of this call's bound.
fn crosses<T: Send>(value: T) -> T
    ensures same { result ≡ value }
    ensures sent { IsSend T.row }
{
    value
}

// A handle may be used on any thread: all that it keeps may go there.
pub(crate) fn put(handle: &mut Handle, endpoint: Box<Endpoint>)
    ensures { handle.new.owned.value ≡ Some endpoint.value }
{
    *handle = Handle {
        is_open: true,
        owned: Owned::of(DetachedBox::of(crosses(endpoint))),
    };
}
