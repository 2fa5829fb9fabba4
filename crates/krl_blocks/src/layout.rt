//! The blocks.
ghost use Rattle.std.specs.Prelude.{◌≡◌, ◌≤◌, ◌<◌, length, max, MatchOption, IfSome, OnOk, OnErr};
ghost use Rattle.std.specs.Prelude.{slice_get, vec_capacity, take, drop, true, false, nat_lt};
ghost use Rattle.std.specs.Prelude.{nat_le, []};
ghost use Rattle.std.specs.List.{AllByRecursion};
ghost use Rattle.krl_blocks.specs.Entries.{NoKey, IsFound, IsInserted, IsRemoved, IsChanged};
ghost use Rattle.krl_blocks.specs.Laid.{flat, last_length, is_thin, IsKept, IsShort, IsNearly};
ghost use Rattle.krl_blocks.specs.Laid.{IsMergeable, IsParted};

use crate::block::{halve, push_in, put_in, set_in, take_from};
use crate::finger::Finger;
use crate::found::Found;
use crate::search::{count_keys, count_tops};
use crate::shelf::{MAX_IN_BLOCK, Shelf};
use std::alloc::{AllocError, Global};

/// Two neighbours with this many entries together, or fewer, are merged.
const FEW: usize = 32;

/// Entries in blocks, none of them empty. `IsKept` states what holds of them, and `flat` which
/// entries they are.
#[derive(Drop)]
pub struct Layout<V> {
    /// The greatest key of each block.
    pub tops: Vec<u64>,
    /// The blocks, in key order.
    pub shelf: Shelf<V>,
    /// Where a search begins that is given no other finger.
    pub finger: Finger,
}

impl<V: Copy + Drop> Layout<V> {
    /// No entries, and room for none.
    pub fn new(alloc: Global) -> Layout<V>
        ensures kept { IsKept result.tops result.shelf }
        ensures shelf { result.shelf ≡ record { blocks = []; most = 0 } }
    {
        Layout {
            tops: Vec::new(alloc),
            shelf: Shelf::new(alloc),
            finger: Finger::new(),
        }
    }

    /// Makes room for at least so many blocks.
    ///
    /// # Errors
    ///
    /// `AllocError` if memory is refused. The blocks are as before then, and so is the room.
    pub fn reserve(&mut self, blocks: usize) -> Result<(), AllocError>
        requires kept { IsKept self.old.tops self.old.shelf }
        ensures kept { IsKept self.new.tops self.new.shelf }
        ensures blocks { self.new.shelf.blocks ≡ self.old.shelf.blocks }
        ensures most { OnOk result (self.new.shelf.most ≡ max self.old.shelf.most blocks) }
        ensures refused { OnErr result (self.new.shelf ≡ self.old.shelf) }
    {
        let missing = blocks.saturating_sub(self.tops.len());
        self.tops.reserve_exact(missing)?;
        self.shelf.reserve(blocks)
    }

    /// Where a point stands.
    pub fn find(&self, point: u64) -> Found<'_, V>
        requires kept { IsKept self.now.tops self.now.shelf }
        ensures { IsFound (flat self.now.shelf.blocks) point result.before result.run.now }
    {
        let mut finger = self.finger;
        self.find_by(point, &mut finger)
    }

    /// Like `find`, by a search that begins at the finger. The finger is where the point stands
    /// from then on.
    pub fn find_by(&self, point: u64, finger: &mut Finger) -> Found<'_, V>
        requires kept { IsKept self.now.tops self.now.shelf }
        ensures { IsFound (flat self.now.shelf.blocks) point result.before result.run.now }
    {
        let tops: &[u64] = &self.tops;
        let b = count_tops(tops, point, finger.block);
        finger.block = b;
        let (front, _) = tops.split_at(b);
        let last = front.last().copied();
        if b >= self.shelf.len() {
            return Found {
                before: last,
                run: &[],
            };
        }
        let entries = self.shelf.get(b);
        let count = count_keys(entries, point, finger.entry);
        finger.entry = count;
        let (below, run) = entries.split_at(count);
        match below.last() {
            None => Found { before: last, run },
            Some(entry) => Found {
                before: Some(entry.0),
                run,
            },
        }
    }

    /// Gives the entry of the key another value, and answers the one before.
    pub fn set(&mut self, key: u64, value: V) -> Option<V>
        requires kept { IsKept self.old.tops self.old.shelf }
        ensures kept { IsKept self.new.tops self.new.shelf }
        ensures most { self.new.shelf.most ≡ self.old.shelf.most }
        ensures changed { MatchOption result
            (NoKey key (flat self.old.shelf.blocks)
            × (flat self.new.shelf.blocks ≡ flat self.old.shelf.blocks))
            (λ was. IsChanged
            (flat self.old.shelf.blocks) (flat self.new.shelf.blocks) key value was) }
    {
        let b = count_tops(&self.tops, key, self.finger.block);
        if b < self.shelf.len() {
            set_in(&mut self.shelf, b, key, value, self.finger.entry)
        } else {
            None
        }
    }

    /// Puts in an entry of a key that no entry has. There is room for one block more.
    pub fn insert(&mut self, key: u64, value: V)
        requires kept { IsKept self.old.tops self.old.shelf }
        requires some { length self.old.shelf.blocks < self.old.shelf.most }
        requires new { NoKey key (flat self.old.shelf.blocks) }
        ensures kept { IsKept self.new.tops self.new.shelf }
        ensures most { self.new.shelf.most ≡ self.old.shelf.most }
        ensures inserted { IsInserted
            (flat self.old.shelf.blocks) (flat self.new.shelf.blocks) key value }
    {
        let b = self.make_room(key);
        self.put(b, key, value);
    }

    // The block where the key belongs, which has room for one entry more: a full one is parted
    // first.
    fn make_room(&mut self, key: u64) -> usize
        requires kept { IsKept self.old.tops self.old.shelf }
        requires some { length self.old.shelf.blocks < self.old.shelf.most }
        ensures kept { IsKept self.new.tops self.new.shelf }
        ensures most { self.new.shelf.most ≡ self.old.shelf.most }
        ensures same { flat self.new.shelf.blocks ≡ flat self.old.shelf.blocks }
        ensures below { AllByRecursion
            (λ t. nat_lt t key ≡ true) (take result self.new.tops.items) }
        ensures rest { AllByRecursion
            (λ t. nat_lt t key ≡ false) (drop result self.new.tops.items) }
        ensures room { IfSome (slice_get self.new.shelf.blocks result) (λ x. length x < 64) }
        ensures some { length self.new.shelf.blocks ≤ result
            → length self.new.shelf.blocks < self.new.shelf.most }
    {
        let b = count_tops(&self.tops, key, self.finger.block);
        if b >= self.shelf.len() || self.shelf.get(b).len() < MAX_IN_BLOCK {
            return b;
        }
        self.part(b);
        if self.tops[b] < key { b + 1 } else { b }
    }

    // Parts the full block there in two halves.
    fn part(&mut self, b: usize)
        requires kept { IsKept self.old.tops self.old.shelf }
        requires some { length self.old.shelf.blocks < self.old.shelf.most }
        requires within { b < length self.old.shelf.blocks }
        requires full { IfSome (slice_get self.old.shelf.blocks b) (λ x. length x ≡ 64) }
        ensures kept { IsKept self.new.tops self.new.shelf }
        ensures most { self.new.shelf.most ≡ self.old.shelf.most }
        ensures same { flat self.new.shelf.blocks ≡ flat self.old.shelf.blocks }
        ensures parted { IsParted self.old.tops.items self.new.tops.items
            self.old.shelf.blocks self.new.shelf.blocks b }
    {
        let top = halve(&mut self.shelf, b);
        self.tops.insert(b, top).unwrap();
    }

    // Puts the entry into the block where its key belongs, which has room, or after all blocks.
    fn put(&mut self, b: usize, key: u64, value: V)
        requires kept { IsKept self.old.tops self.old.shelf }
        requires new { NoKey key (flat self.old.shelf.blocks) }
        requires below { AllByRecursion (λ t. nat_lt t key ≡ true) (take b self.old.tops.items) }
        requires rest { AllByRecursion (λ t. nat_lt t key ≡ false) (drop b self.old.tops.items) }
        requires room { IfSome (slice_get self.old.shelf.blocks b) (λ x. length x < 64) }
        requires some { length self.old.shelf.blocks ≤ b
            → length self.old.shelf.blocks < self.old.shelf.most }
        ensures kept { IsKept self.new.tops self.new.shelf }
        ensures most { self.new.shelf.most ≡ self.old.shelf.most }
        ensures inserted { IsInserted
            (flat self.old.shelf.blocks) (flat self.new.shelf.blocks) key value }
    {
        if b < self.shelf.len() {
            put_in(&mut self.shelf, b, key, value, self.finger.entry);
        } else if self.last_is_full() {
            self.append(key, value);
        } else {
            self.push(key, value);
        }
    }

    // The last block has no room, or there is none.
    fn last_is_full(&self) -> bool
        ensures { result ≡ nat_le 64 (last_length 64 self.now.shelf.blocks) }
    {
        let blocks = self.shelf.len();
        blocks == 0 || self.shelf.get(blocks - 1).len() >= MAX_IN_BLOCK
    }

    // Puts the entry after all others, into the last block, which has room.
    fn push(&mut self, key: u64, value: V)
        requires kept { IsKept self.old.tops self.old.shelf }
        requires below { AllByRecursion (λ t. nat_lt t key ≡ true) self.old.tops.items }
        requires room { last_length 64 self.old.shelf.blocks < 64 }
        ensures kept { IsKept self.new.tops self.new.shelf }
        ensures most { self.new.shelf.most ≡ self.old.shelf.most }
        ensures inserted { IsInserted
            (flat self.old.shelf.blocks) (flat self.new.shelf.blocks) key value }
    {
        let b = self.shelf.len() - 1;
        push_in(&mut self.shelf, b, key, value);
        self.tops[b] = key;
    }

    // Puts the entry after all others, into a block of its own.
    fn append(&mut self, key: u64, value: V)
        requires kept { IsKept self.old.tops self.old.shelf }
        requires some { length self.old.shelf.blocks < self.old.shelf.most }
        requires below { AllByRecursion (λ t. nat_lt t key ≡ true) self.old.tops.items }
        requires full { 64 ≤ last_length 64 self.old.shelf.blocks }
        ensures kept { IsKept self.new.tops self.new.shelf }
        ensures most { self.new.shelf.most ≡ self.old.shelf.most }
        ensures inserted { IsInserted
            (flat self.old.shelf.blocks) (flat self.new.shelf.blocks) key value }
    {
        self.tops.push(key).unwrap();
        self.shelf.push((key, value));
    }

    /// Takes out the entry of the key, if there is one, and answers its value.
    pub fn remove(&mut self, key: u64) -> Option<V>
        requires kept { IsKept self.old.tops self.old.shelf }
        ensures kept { IsKept self.new.tops self.new.shelf }
        ensures most { self.new.shelf.most ≡ self.old.shelf.most }
        ensures removed { MatchOption result
            (NoKey key (flat self.old.shelf.blocks)
            × (flat self.new.shelf.blocks ≡ flat self.old.shelf.blocks))
            (λ v. IsRemoved (flat self.old.shelf.blocks) (flat self.new.shelf.blocks) key v) }
    {
        let b = count_tops(&self.tops, key, self.finger.block);
        if b >= self.shelf.len() {
            return None;
        }
        let value = take_from(&mut self.shelf, b, key, self.finger.entry)?;
        self.settle(b);
        Some(value)
    }

    // Brings the tops and the blocks in order, after the block there has lost an entry.
    fn settle(&mut self, b: usize)
        requires short { IsShort self.old.tops self.old.shelf b }
        ensures kept { IsKept self.new.tops self.new.shelf }
        ensures most { self.new.shelf.most ≡ self.old.shelf.most }
        ensures same { flat self.new.shelf.blocks ≡ flat self.old.shelf.blocks }
    {
        match self.shelf.get(b).last() {
            None => self.discard(b),
            Some(entry) => {
                self.tops[b] = entry.0;
                self.mend(b);
            }
        }
    }

    // Takes out the block there, which is empty.
    fn discard(&mut self, b: usize)
        requires short { IsShort self.old.tops self.old.shelf b }
        requires empty { IfSome (slice_get self.old.shelf.blocks b) (λ x. x ≡ []) }
        ensures kept { IsKept self.new.tops self.new.shelf }
        ensures most { self.new.shelf.most ≡ self.old.shelf.most }
        ensures same { flat self.new.shelf.blocks ≡ flat self.old.shelf.blocks }
    {
        self.tops.remove(b);
        self.shelf.remove(b);
    }

    // Merges the block there with a neighbour, if they have few entries together.
    fn mend(&mut self, b: usize)
        requires nearly { IsNearly self.old.tops self.old.shelf b }
        requires within { b < length self.old.shelf.blocks }
        ensures kept { IsKept self.new.tops self.new.shelf }
        ensures most { self.new.shelf.most ≡ self.old.shelf.most }
        ensures same { flat self.new.shelf.blocks ≡ flat self.old.shelf.blocks }
    {
        if self.is_thin(b) {
            self.merge(b);
        } else if b > 0 && self.is_thin(b - 1) {
            self.merge(b - 1);
        }
    }

    // The block there and the one after it have few entries together.
    fn is_thin(&self, j: usize) -> bool
        requires { j < length self.now.shelf.blocks }
        ensures { result ≡ is_thin self.now.shelf.blocks j }
    {
        let blocks = self.shelf.len();
        if j + 1 == blocks {
            return false;
        }
        self.shelf.get(j).len() + self.shelf.get(j + 1).len() <= FEW
    }

    // Merges the block there and the one after it.
    fn merge(&mut self, j: usize)
        requires mergeable { IsMergeable self.old.tops self.old.shelf j }
        ensures kept { IsKept self.new.tops self.new.shelf }
        ensures most { self.new.shelf.most ≡ self.old.shelf.most }
        ensures same { flat self.new.shelf.blocks ≡ flat self.old.shelf.blocks }
    {
        self.tops.remove(j);
        self.shelf.join(j);
    }
}
