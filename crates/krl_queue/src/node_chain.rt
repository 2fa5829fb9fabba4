//! The owner of a list's nodes, and the steps that go through raw pointers.
ghost use Rattle.std.specs.Prelude.{◌≡◌, ◌+◌, ◌<◌, ◌≤◌, List, [], ◌∷◌, ◌++◌, take, drop, length};
ghost use Rattle.std.specs.Prelude.{slice_get};
ghost use denote.RawPtr.{null_ptr};
ghost use Rattle.krl_queue.specs.Ends.{IsPlace, ArePlaces};
ghost use Rattle.krl_queue.specs.Waiting.{first_of};
ghost use Rattle.krl_queue.specs.Turns.{without_first};
ghost use Rattle.krl_queue.specs.Segment.{Spot, spot, waiters, first_or, last_or, segment};
ghost use Rattle.krl_queue.specs.Segment.{segment_lent};

use crate::node::Node;
use crate::node_ptr::{Index, NodePtr};
use crate::waiter::Waiter;
use krl_blocks::DetachedBox;
use std::alloc::Global;
use std::marker::{Model, PhantomData, Send, Sync};
use std::ptr::null_mut;

/// The owner of the memory of linked nodes. It takes no space: a list keeps the pointers to its
/// ends. No step below makes or frees a node.
pub(crate) struct NodeChain {
    mark: PhantomData<*mut Node>,
    pub(crate) ghost spots: { List Spot },
}

impl Model for NodeChain {
    ghost also_owns = { λ c. segment null_ptr c.spots null_ptr };

    ghost also_shares = { λ c _ κ. segment_lent null_ptr c.spots null_ptr κ };
}

// A chain is the only owner of its nodes, and the C library's heap takes a block back from any
// thread.
unsafe impl Send for NodeChain {}

unsafe impl Sync for NodeChain {}

impl NodeChain {
    pub(crate) fn none() -> NodeChain
        ensures { result.spots ≡ [] }
    {
        NodeChain { mark: PhantomData }
    }

    /// Ends a chain with no node.
    pub(crate) fn done(self)
        requires { self.spots ≡ [] }
    {
        let NodeChain { mark: _ } = self;
    }

    /// A chain of this node only.
    pub(crate) fn one(cell: DetachedBox<Node, Global>) -> (NodePtr, NodeChain)
        ensures spots { result.1.spots ≡ spot result.0.ptr cell.value.waiter cell.value.alloc ∷ [] }
        ensures place { IsPlace result.0.ptr }
    {
        let DetachedBox { at, alloc: _ } = cell;
        unsafe {
            (*at).prev = null_mut();
            (*at).next = null_mut();
        }
        (NodePtr { ptr: at }, NodeChain { mark: PhantomData })
    }

    /// The node of a chain that has only one.
    pub(crate) fn into_one(self, at: NodePtr) -> DetachedBox<Node, Global>
        requires { (length self.spots ≡ 1) × (at.ptr ≡ first_or null_ptr self.spots) }
        ensures { waiters self.spots ≡ result.value.waiter ∷ [] }
    {
        let NodeChain { mark: _ } = self;
        let at = at.ptr;
        let alloc = unsafe { (*at).alloc };
        DetachedBox { at, alloc }
    }

    /// Puts the nodes of `other` after those of this chain.
    pub(crate) fn link(&mut self, last: NodePtr, first: NodePtr, other: NodeChain)
        requires some { (0 < length self.old.spots) × (0 < length other.spots) }
        requires places { (last.ptr ≡ last_or null_ptr self.old.spots)
            × (first.ptr ≡ first_or null_ptr other.spots) }
        ensures { self.new.spots ≡ self.old.spots ++ other.spots }
    {
        let NodeChain { mark: _ } = other;
        let last = last.ptr;
        let first = first.ptr;
        unsafe {
            (*last).next = first;
            (*first).prev = last;
        }
    }

    /// Takes out the nodes from this index on.
    pub(crate) fn cut(&mut self, last: NodePtr, first: NodePtr, i: &Index) -> NodeChain
        requires within { (0 < i.now.at) × (i.now.at < length self.old.spots) }
        requires places { (last.ptr ≡ last_or null_ptr (take i.now.at self.old.spots))
            × (first.ptr ≡ first_or null_ptr (drop i.now.at self.old.spots)) }
        ensures { (self.new.spots ≡ take i.now.at self.old.spots)
            × (result.spots ≡ drop i.now.at self.old.spots) }
    {
        let last = last.ptr;
        let first = first.ptr;
        unsafe {
            (*last).next = null_mut();
            (*first).prev = null_mut();
        }
        NodeChain { mark: PhantomData }
    }

    /// Where the node after the one at this index lies, or null.
    pub(crate) fn next(&self, at: NodePtr, i: &Index) -> NodePtr
        requires { (i.now.at < length self.now.spots)
            × (at.ptr ≡ first_or null_ptr (drop i.now.at self.now.spots)) }
        ensures { result.ptr ≡ first_or null_ptr (drop (i.now.at + 1) self.now.spots) }
    {
        NodePtr {
            ptr: unsafe { (*at.ptr).next },
        }
    }

    /// Where the node before the one at this index lies, or null.
    pub(crate) fn prev(&self, at: NodePtr, i: &Index) -> NodePtr
        requires { (i.now.at < length self.now.spots)
            × (at.ptr ≡ first_or null_ptr (drop i.now.at self.now.spots)) }
        ensures { result.ptr ≡ last_or null_ptr (take i.now.at self.now.spots) }
    {
        NodePtr {
            ptr: unsafe { (*at.ptr).prev },
        }
    }

    /// The waiter of the node at this index.
    pub(crate) fn waiter<'a>(&'a self, at: NodePtr, i: &Index) -> &'a Waiter
        requires { (i.now.at < length self.now.spots)
            × (at.ptr ≡ first_or null_ptr (drop i.now.at self.now.spots)) }
        ensures { drop i.now.at (waiters self.now.spots)
            ≡ result.now ∷ drop (i.now.at + 1) (waiters self.now.spots) }
    {
        unsafe { &(*at.ptr).waiter }
    }

    /// Where the client's first waiter lies, and its index; null and the chain's length if it
    /// has none.
    pub(crate) fn find(&self, head: NodePtr, client: u64) -> (NodePtr, Index)
        requires head { head.ptr ≡ first_or null_ptr self.now.spots }
        requires places { ArePlaces self.now.spots }
        ensures place { (result.1.at ≤ length self.now.spots)
            × (result.0.ptr ≡ first_or null_ptr (drop result.1.at self.now.spots)) }
        ensures first { first_of client (waiters self.now.spots)
            ≡ slice_get (waiters self.now.spots) result.1.at }
        ensures rest { without_first client (waiters self.now.spots)
            ≡ take result.1.at (waiters self.now.spots)
            ++ drop (result.1.at + 1) (waiters self.now.spots) }
    {
        let mut at = head;
        let mut i = Index::first();
        while !at.is_null() {
            if self.waiter(at, &i).client == client {
                return (at, i);
            }
            at = self.next(at, &i);
            i = i.next();
        }
        (at, i)
    }
}
