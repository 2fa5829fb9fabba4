//! Lists of waiters.
ghost use Rattle.std.specs.Prelude.{◌≡◌, ◌↔◌, [], ◌∷◌, ◌++◌, length, drop, min, slice_get, IsTrue};
ghost use Rattle.std.specs.Prelude.{MatchOption};
ghost use Rattle.krl_queue.specs.Waiting.{first_of, up_to, beyond};
ghost use Rattle.krl_queue.specs.Turns.{without_first, goes_before};

use crate::node::WaitNode;
use crate::node_chain::NodeChain;
use crate::node_ptr::{Index, NodePtr};
use crate::waiter::Waiter;
use krl_blocks::DetachedBox;
use krl_modes::Point;
use std::fmt;
use std::marker::Model;
use std::mem::{replace, swap};

/// The waiters of one slot, in the order in which they are answered. Dropping the list frees the
/// memory of every waiter in it.
///
/// The nodes are linked both ways, and the list takes no memory next to theirs. So no call can be
/// refused.
pub struct WaitList {
    head: NodePtr,
    tail: NodePtr,
    chain: NodeChain,
}

impl Model for WaitList {
    ghost use Rattle.std.specs.Prelude.{List};
    ghost use Rattle.krl_queue.specs.declared.waiter.Waiter.{Waiter};
    ghost use Rattle.krl_queue.specs.Segment.{waiters};
    ghost use Rattle.krl_queue.specs.Ends.{HasEnds};

    ghost Value = { List Waiter };

    ghost view = { λ list. waiters list.chain.spots };

    ghost invariant = { λ list. HasEnds list.head.ptr list.tail.ptr list.chain.spots };
}

impl WaitList {
    /// An empty list.
    pub fn new() -> WaitList
        ensures { result ≡ [] }
    {
        WaitList {
            head: NodePtr::null(),
            tail: NodePtr::null(),
            chain: NodeChain::none(),
        }
    }

    /// How many wait, or the greatest `usize` if more do. It takes time in proportion to the
    /// list's length: no count is kept.
    pub fn len(&self) -> usize
        ensures { result ≡ min (length self.now) usize.MAX }
    {
        let mut count: usize = 0;
        let mut at = self.head;
        let mut i = Index::first();
        while !at.is_null() {
            count = count.saturating_add(1);
            at = self.chain.next(at, &i);
            i = i.next();
        }
        count
    }

    /// Whether nobody waits. It takes constant time.
    pub fn is_empty(&self) -> bool
        ensures { IsTrue result ↔ (self.now ≡ []) }
    {
        self.head.is_null()
    }

    /// Puts the node after all others. It takes constant time.
    pub fn push_back(&mut self, node: WaitNode)
        ensures pushed { self.new ≡ self.old ++ node ∷ [] }
    {
        self.append(WaitList::of(node));
    }

    /// Puts the node before all others. It takes constant time.
    pub fn push_front(&mut self, node: WaitNode)
        ensures pushed { self.new ≡ node ∷ self.old }
    {
        self.splice_front(WaitList::of(node));
    }

    /// The first waiter; None if nobody waits.
    pub fn front(&self) -> Option<Waiter>
        ensures { result ≡ slice_get self.now 0 }
    {
        if self.head.is_null() {
            return None;
        }
        Some(*self.chain.waiter(self.head, &Index::first()))
    }

    /// Whether the other client waits, and the client does not wait before it. It takes time in
    /// proportion to the places that it passes.
    pub fn goes_before(&self, client: u64, other: u64) -> bool
        ensures { result ≡ goes_before client other self.now }
    {
        let mut at = self.head;
        let mut i = Index::first();
        while !at.is_null() {
            let waits = self.chain.waiter(at, &i).client;
            if waits == client {
                return false;
            }
            if waits == other {
                return true;
            }
            at = self.chain.next(at, &i);
            i = i.next();
        }
        false
    }

    /// Takes the first waiter out and frees its node; None if nobody waits. It takes constant
    /// time.
    pub fn pop_front(&mut self) -> Option<Waiter>
        ensures first { result ≡ slice_get self.old 0 }
        ensures rest { self.new ≡ drop 1 self.old }
    {
        self.pop_node().map(|node| node.into_waiter())
    }

    /// Takes the first waiter of this client out and frees its node; None if the client has none
    /// here. It takes time in proportion to the waiter's place.
    pub fn remove_client(&mut self, client: u64) -> Option<Waiter>
        ensures taken { result ≡ first_of client self.old }
        ensures rest { self.new ≡ without_first client self.old }
    {
        let (at, i) = self.chain.find(self.head, client);
        if at.is_null() {
            return None;
        }
        let prev = self.chain.prev(at, &i);
        if prev.is_null() {
            return self.pop_front();
        }
        let next = self.chain.next(at, &i);
        let mut only = self.chain.cut(prev, at, &i);
        if next.is_null() {
            self.tail = prev;
        } else {
            let behind = only.cut(at, next, &Index::first().next());
            self.chain.link(prev, next, behind);
        }
        let node = WaitNode {
            cell: only.into_one(at).into_box(),
        };
        Some(node.into_waiter())
    }

    /// Takes those waiters out whose point is at most this one. Both lists keep their order. It
    /// takes time in proportion to the list's length.
    pub fn split_at(&mut self, point: Point) -> WaitList
        ensures taken { result ≡ up_to point self.old }
        ensures kept { self.new ≡ beyond point self.old }
    {
        let mut all = replace(self, WaitList::new());
        let mut taken = WaitList::new();
        while let Some(node) = all.pop_node() {
            if node.is_up_to(point) {
                taken.push_back(node);
            } else {
                self.push_back(node);
            }
        }
        taken
    }

    /// Puts the whole list before this one. It takes constant time.
    pub fn splice_front(&mut self, list: WaitList)
        ensures spliced { self.new ≡ list ++ self.old }
    {
        let mut list = list;
        swap(self, &mut list);
        self.append(list);
    }

    /// The list of this node only.
    fn of(node: WaitNode) -> WaitList
        ensures { result ≡ node ∷ [] }
    {
        let WaitNode { cell } = node;
        let (at, chain) = NodeChain::one(DetachedBox::of(cell));
        WaitList {
            head: at,
            tail: at,
            chain,
        }
    }

    /// Puts the whole list after this one.
    fn append(&mut self, list: WaitList)
        ensures { self.new ≡ self.old ++ list }
    {
        let WaitList { head, tail, chain } = list;
        if head.is_null() {
            chain.done();
        } else if self.head.is_null() {
            replace(&mut self.chain, chain).done();
            self.head = head;
            self.tail = tail;
        } else {
            self.chain.link(self.tail, head, chain);
            self.tail = tail;
        }
    }

    /// Takes the first node out.
    fn pop_node(&mut self) -> Option<WaitNode>
        ensures { MatchOption result ((self.old ≡ []) × (self.new ≡ []))
            (λ node. self.old ≡ node ∷ self.new) }
    {
        let first = self.head;
        if first.is_null() {
            return None;
        }
        let next = self.chain.next(first, &Index::first());
        let rest = if next.is_null() {
            self.tail = next;
            NodeChain::none()
        } else {
            self.chain.cut(first, next, &Index::first().next())
        };
        self.head = next;
        let only = replace(&mut self.chain, rest);
        Some(WaitNode {
            cell: only.into_one(first).into_box(),
        })
    }
}

impl Drop for WaitList {
    fn drop(mut self) {
        while let Some(_waiter) = self.pop_front() {}
        let WaitList {
            head: _,
            tail: _,
            chain,
        } = self;
        chain.done();
    }
}

impl fmt::Debug for WaitList {
    fn fmt<W: fmt::Write>(&self, f: &mut fmt::Formatter<W>) -> fmt::Result {
        let mut out = f.debug_list();
        let mut at = self.head;
        let mut i = Index::first();
        while !at.is_null() {
            out.entry(self.chain.waiter(at, &i));
            at = self.chain.next(at, &i);
            i = i.next();
        }
        out.finish()
    }
}
