//! A waiter's place in a list.
ghost use Rattle.std.specs.Prelude.{◌≡◌, nat_le, IfOk, IfErr};

use crate::waiter::Waiter;
use krl_modes::Point;
use std::alloc::{AllocFailed, Global};
use std::fmt;
use std::marker::{Model, Send, Sync};
use std::ptr::null_mut;

/// A waiter with the links that tie it to its neighbours in a list: null if there is none.
#[derive(Drop)]
pub(crate) struct Node {
    pub(crate) prev: *mut Node,
    pub(crate) next: *mut Node,
    pub(crate) waiter: Waiter,
    // A list is made without an allocator, so each node keeps the one that frees it. It takes no
    // bytes.
    pub(crate) alloc: Global,
}

// What a node's links point to is its list's, which goes to another thread as a whole.
unsafe impl Send for Node {}

unsafe impl Sync for Node {}

impl fmt::Debug for Node {
    fn fmt<W: fmt::Write>(&self, f: &mut fmt::Formatter<W>) -> fmt::Result {
        self.waiter.fmt(f)
    }
}

/// A waiter with the memory that it takes in a list, made before it goes there. Dropping it frees
/// that memory.
#[derive(Debug, Drop)]
pub struct WaitNode {
    pub(crate) cell: Box<Node>,
}

impl Model for WaitNode {
    ghost use Rattle.krl_queue.specs.declared.waiter.Waiter.{Waiter};

    ghost Value = { Waiter };

    ghost view = { λ node. node.cell.value.waiter };
}

impl WaitNode {
    /// A node of this waiter. No other call of this crate takes memory.
    ///
    /// # Errors
    ///
    /// `AllocFailed`, with the waiter back, if the node's memory is refused.
    pub fn try_new(alloc: Global, waiter: Waiter) -> Result<WaitNode, AllocFailed<Waiter>>
        ensures made { IfOk result (λ node. node ≡ waiter) }
        ensures returned { IfErr result (λ refused. refused.value ≡ waiter) }
    {
        let node = Node {
            prev: null_mut(),
            next: null_mut(),
            waiter,
            alloc,
        };
        match Box::new(alloc, node) {
            Ok(cell) => Ok(WaitNode { cell }),
            Err(refused) => Err(AllocFailed {
                value: refused.value.waiter,
            }),
        }
    }

    /// The node's waiter.
    pub fn waiter(&self) -> Waiter
        ensures { result ≡ self.now }
    {
        self.cell.waiter
    }

    /// Whether the waiter's point is at most this one.
    pub(crate) fn is_up_to(&self, point: Point) -> bool
        ensures { result ≡ nat_le self.now.point point }
    {
        self.waiter().point <= point
    }

    /// The node's waiter. The node's memory is freed.
    pub(crate) fn into_waiter(self) -> Waiter
        ensures { result ≡ self }
    {
        let WaitNode { cell } = self;
        Box::into_inner(cell).waiter
    }
}
