//! Where a node lies, and which one of a chain it is.
ghost use Rattle.std.specs.Prelude.{◌≡◌, ◌+◌, ℕ, ⊤};
ghost use base.Fml.{ftrue};
ghost use denote.RawPtr.{null_ptr, Testable};
ghost use Rattle.krl_queue.specs.Null.{is_null_ptr};

use crate::node::Node;
use std::alloc::AllocError;
use std::marker::{Model, PhantomData, Send, Sync};
use std::ptr::null_mut;

/// Where a node lies, or null. It owns nothing.
#[derive(Drop)]
pub(crate) struct NodePtr {
    pub(crate) ptr: *mut Node,
}

impl NodePtr {
    pub(crate) fn null() -> NodePtr
        ensures { result.ptr ≡ null_ptr }
    {
        NodePtr { ptr: null_mut() }
    }

    pub(crate) fn is_null(self) -> bool
        requires { Testable self.ptr }
        ensures { result ≡ is_null_ptr self.ptr }
    {
        self.ptr.is_null()
    }
}

impl Clone for NodePtr {
    ghost is_clone = { λ x y. y ≡ x };

    ghost is_infallible = { λ _. ⊤ };

    fn clone(&self) -> Result<NodePtr, AllocError> {
        Ok(*self)
    }
}

impl Copy for NodePtr {}

unsafe impl Send for NodePtr {}

unsafe impl Sync for NodePtr {}

/// How many nodes of a chain lie before one. It takes no space, and only clauses read it: so a
/// chain may have more nodes than a `usize` counts.
#[derive(Drop)]
pub(crate) struct Index {
    mark: PhantomData<u8>,
    pub(crate) ghost at: { ℕ },
}

impl Model for Index {
    ghost also_owns = { λ _. ftrue };
}

impl Index {
    pub(crate) fn first() -> Index
        ensures { result.at ≡ 0 }
    {
        Index { mark: PhantomData }
    }

    pub(crate) fn next(&self) -> Index
        ensures { result.at ≡ self.now.at + 1 }
    {
        let _ = self;
        Index { mark: PhantomData }
    }
}
