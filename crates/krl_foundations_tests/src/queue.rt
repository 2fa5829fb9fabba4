//! Waiting lists. A refused node is asked for again with the waiter that came back, so that each
//! run ends in the same lists, whichever requests for memory are refused. No other call asks for
//! memory.
use crate::again::CALLS;
use krl_modes::{END, Mode, Point};
use krl_queue::{WaitList, WaitNode, Waiter};
use std::alloc::Global;
use std::marker::Send;

/// Clients with the points that they wait for.
static FIVE: [(u64, u64); 5] = [(1, 10), (2, 30), (3, 20), (2, 20), (4, END)];

/// A node, which is asked for again with the waiter that came back.
fn node(alloc: Global, client: u64, point: u64) -> Option<WaitNode> {
    let mut waiter = Waiter {
        client,
        req: 7,
        point: Point::new(point)?,
        hi: point.saturating_add(1),
        mode: Mode::RangeSU,
    };
    for _ in 0..CALLS {
        match WaitNode::try_new(alloc, waiter) {
            Ok(node) => return Some(node),
            Err(refused) => waiter = refused.value,
        }
    }
    None
}

/// Puts those five in: the first before all others, at last.
fn fills(alloc: Global, list: &mut WaitList) -> bool {
    for (client, point) in &FIVE[1..] {
        let Some(node) = node(alloc, *client, *point) else {
            return false;
        };
        list.push_back(node);
    }
    match node(alloc, 1, 10) {
        None => false,
        Some(node) => {
            list.push_front(node);
            true
        }
    }
}

fn is(waiter: Option<Waiter>, client: u64, point: u64) -> bool {
    match waiter {
        Some(w) => w.client == client && w.req == 7 && w.point.get() == point,
        None => false,
    }
}

/// Takes out all that wait, and reports whether they were just these, in this order.
fn drains(list: &mut WaitList, waiting: &[(u64, u64)]) -> bool {
    for (client, point) in waiting {
        if !is(list.pop_front(), *client, *point) {
            return false;
        }
    }
    list.is_empty()
}

/// Whether those five are taken out so: one in the middle, none, the first, then the others.
fn is_taken_out(list: &mut WaitList) -> bool {
    list.len() == 5
        && is(list.front(), 1, 10)
        && is(list.remove_client(2), 2, 30)
        && list.remove_client(5).is_none()
        && is(list.pop_front(), 1, 10)
        && list.len() == 3
        && drains(list, &[(3, 20), (2, 20), (4, END)])
        && list.pop_front().is_none()
}

#[test]
fn takes_out_in_order(rt: HostRuntime) {
    let mut list = WaitList::new();
    assert!(rt; list.is_empty() && list.front().is_none());
    assert!(rt; fills(rt.alloc(), &mut list) && is_taken_out(&mut list));
}

/// Those five without the last and the first, and then all of them.
static EIGHT: [(u64, u64); 8] = [
    (1, 10),
    (2, 30),
    (3, 20),
    (2, 20),
    (2, 30),
    (3, 20),
    (2, 20),
    (4, END),
];

/// Whether an empty list is filled, loses its last and its first, and is filled again.
fn goes_on(alloc: Global, list: &mut WaitList) -> bool {
    fills(alloc, list)
        && is(list.remove_client(4), 4, END)
        && is(list.remove_client(1), 1, 10)
        && fills(alloc, list)
        && list.len() == 8
        && drains(list, &EIGHT)
}

#[test]
fn takes_out_the_last_and_goes_on(rt: HostRuntime) {
    let mut list = WaitList::new();
    assert!(rt; goes_on(rt.alloc(), &mut list));
    // What is empty takes a node again, at either end.
    assert!(rt; fills(rt.alloc(), &mut list) && drains(&mut list, &FIVE));
}

/// Whether those five are split at 20 and put together the other way round.
fn are_split_and_spliced(mut list: WaitList, point: Point) -> bool {
    let mut low = list.split_at(point);
    let is_split = low.len() == 3 && is(low.front(), 1, 10);
    let is_rest = list.len() == 2 && is(list.front(), 2, 30);
    low.splice_front(list);
    low.splice_front(WaitList::new());
    let mut all = WaitList::new();
    all.splice_front(low);
    is_split && is_rest && drains(&mut all, &[(2, 30), (4, END), (1, 10), (3, 20), (2, 20)])
}

#[test]
fn splits_and_splices(rt: HostRuntime) {
    let mut list = WaitList::new();
    assert!(rt; fills(rt.alloc(), &mut list));
    let Some(point) = Point::new(20) else {
        panic!(rt; "20 is no point");
    };
    assert!(rt; are_split_and_spliced(list, point));
}

#[test]
fn a_dropped_list_frees_its_nodes(rt: HostRuntime) {
    let mut list = WaitList::new();
    assert!(rt; fills(rt.alloc(), &mut list));
}

fn crosses<T: Send>(value: T) -> T {
    value
}

/// A list and a node may go to another thread.
#[test]
fn may_go_to_another_thread(rt: HostRuntime) {
    let mut list = crosses(WaitList::new());
    if let Some(node) = node(rt.alloc(), 1, 10) {
        list.push_back(crosses(node));
    }
    assert!(rt; list.len() == 1);
}
