//! Where the blocks lie.
ghost use Rattle.std.specs.Prelude.{◌≡◌, ◌≤◌, ◌<◌, ◌+◌, ◌*◌, suc, length, max, IfSome, OnOk, OnErr};
ghost use Rattle.std.specs.Prelude.{slice_get, slice_set, vec_capacity, Some, [], ◌∷◌, ◌++◌};
ghost use Rattle.std.specs.List.{insert, remove};
ghost use Rattle.krl_blocks.specs.Shelves.{AreFew, IsOneOther, IsSplit, IsJoined, IsFree};

use crate::spot::Spot;
use std::alloc::{AllocError, Global};
use std::marker::Model;

/// The most entries of a block.
pub const MAX_IN_BLOCK: usize = 64;

/// Blocks in an order of their own, seen as their list and as how many there may be with no more
/// memory. Each lies in 64 cells of one list, and stays there when blocks come or go before it. The
/// place of a block that goes is taken again.
#[derive(Drop)]
pub struct Shelf<V> {
    // where each block lies
    order: Vec<Spot>,
    // the places that no block has
    spare: Vec<usize>,
    // 64 cells for each place
    cells: Vec<(u64, V)>,
    most: usize,
}

impl<V> Model for Shelf<V> {
    ghost use Rattle.krl_blocks.specs.Shelves.{Shelved, shown, IsStored};

    ghost Value = { Shelved V };

    ghost view = { λ s. record { blocks = shown s.order.items s.cells.items; most = s.most } };

    ghost invariant = { λ s. IsStored s.order s.spare s.cells s.most };
}

// A place that no block has: a spare one, otherwise the next one, whose cells are made of copies of
// the entry.
fn free_place<V: Copy + Drop>(
    spare: &mut Vec<usize>,
    cells: &mut Vec<(u64, V)>,
    next: usize,
    entry: (u64, V),
) -> usize
    requires next { spare.old.items ≡ [] → 64 * next ≡ length cells.old.items }
    requires room { spare.old.items ≡ [] → length cells.old.items + 64 ≤ vec_capacity cells.old }
    ensures free { IsFree
        spare.old.items spare.new.items cells.old.items cells.new.items result entry }
    ensures spares { vec_capacity spare.new ≡ vec_capacity spare.old }
    ensures cells { vec_capacity cells.old ≤ vec_capacity cells.new }
{
    match spare.pop() {
        Some(place) => place,
        None => {
            cells.resize(cells.len() + MAX_IN_BLOCK, entry).unwrap();
            next
        }
    }
}

impl<V: Copy + Drop> Shelf<V> {
    /// No blocks, and room for none.
    pub fn new(alloc: Global) -> Shelf<V>
        ensures { result ≡ record { blocks = []; most = 0 } }
    {
        Shelf {
            order: Vec::new(alloc),
            spare: Vec::new(alloc),
            cells: Vec::new(alloc),
            most: 0,
        }
    }

    /// Makes room for at least so many blocks, by at most three requests for memory. No other call
    /// takes memory.
    ///
    /// # Errors
    ///
    /// `AllocError` if memory is refused. Nothing has changed then.
    pub fn reserve(&mut self, most: usize) -> Result<(), AllocError>
        ensures blocks { self.new.blocks ≡ self.old.blocks }
        ensures most { OnOk result (self.new.most ≡ max self.old.most most) }
        ensures refused { OnErr result (self.new ≡ self.old) }
    {
        if most <= self.most {
            return Ok(());
        }
        let cells = most.checked_mul(MAX_IN_BLOCK).ok_or(AllocError)?;
        self.order.reserve_exact(most - self.order.len())?;
        self.spare.reserve_exact(most - self.spare.len())?;
        self.cells.reserve_exact(cells - self.cells.len())?;
        self.most = most;
        Ok(())
    }

    /// How many blocks there are.
    pub fn len(&self) -> usize
        ensures { result ≡ length self.now.blocks }
    {
        self.order.len()
    }

    /// The entries of the block there.
    pub fn get(&self, b: usize) -> &[(u64, V)]
        requires { b < length self.now.blocks }
        ensures { Some result.now ≡ slice_get self.now.blocks b }
    {
        let spot = self.order[b];
        let (_, cells) = self.cells.split_at(MAX_IN_BLOCK * spot.place);
        let (block, _) = cells.split_at(spot.len);
        block
    }

    /// Puts an entry into the block there, before the one at i. The block has fewer than 64.
    pub fn insert_at(&mut self, b: usize, i: usize, entry: (u64, V))
        requires within { b < length self.old.blocks }
        requires place { IfSome (slice_get self.old.blocks b)
            (λ x. (i ≤ length x) × (length x < 64)) }
        ensures one { IsOneOther self.old.blocks self.new.blocks b (λ x y. y ≡ insert x i entry) }
        ensures most { self.new.most ≡ self.old.most }
    {
        let spot = self.order[b];
        let from = MAX_IN_BLOCK * spot.place;
        let at = from + i;
        self.cells.copy_within(at..from + spot.len, at + 1);
        self.cells[at] = entry;
        let len = spot.len + 1;
        self.order[b] = Spot { len, ..spot };
    }

    /// Takes the entry at i out of the block there.
    pub fn take(&mut self, b: usize, i: usize)
        requires within { b < length self.old.blocks }
        requires place { IfSome (slice_get self.old.blocks b) (λ x. i < length x) }
        ensures one { IsOneOther self.old.blocks self.new.blocks b (λ x y. y ≡ remove x i) }
        ensures most { self.new.most ≡ self.old.most }
    {
        let spot = self.order[b];
        let from = MAX_IN_BLOCK * spot.place;
        let at = from + i;
        self.cells.copy_within(at + 1..from + spot.len, at);
        let len = spot.len - 1;
        self.order[b] = Spot { len, ..spot };
    }

    /// Puts another entry in the place of the one at i in the block there.
    pub fn set(&mut self, b: usize, i: usize, entry: (u64, V))
        requires within { b < length self.old.blocks }
        requires place { IfSome (slice_get self.old.blocks b) (λ x. i < length x) }
        ensures one { IsOneOther self.old.blocks self.new.blocks b
            (λ x y. y ≡ slice_set x i entry) }
        ensures most { self.new.most ≡ self.old.most }
    {
        let spot = self.order[b];
        let at = MAX_IN_BLOCK * spot.place + i;
        self.cells[at] = entry;
    }

    /// Puts a block of this one entry after the others. There is room for it.
    pub fn push(&mut self, entry: (u64, V))
        requires room { length self.old.blocks < self.old.most }
        ensures blocks { self.new.blocks ≡ self.old.blocks ++ (entry ∷ []) ∷ [] }
        ensures most { self.new.most ≡ self.old.most }
    {
        let next = self.order.len();
        let place = free_place(&mut self.spare, &mut self.cells, next, entry);
        let at = MAX_IN_BLOCK * place;
        self.cells[at] = entry;
        self.order.push(Spot { place, len: 1 }).unwrap();
    }

    /// Moves the entries from i on out of the block there, into a new block after it. There is
    /// room for it.
    pub fn split(&mut self, b: usize, i: usize)
        requires room { length self.old.blocks < self.old.most }
        requires within { b < length self.old.blocks }
        requires place { IfSome (slice_get self.old.blocks b) (λ x. i ≤ length x) }
        ensures split { IsSplit self.old.blocks self.new.blocks b i }
        ensures most { self.new.most ≡ self.old.most }
    {
        let spot = self.order[b];
        let from = MAX_IN_BLOCK * spot.place;
        let entry = self.cells[from];
        let next = self.order.len();
        let place = free_place(&mut self.spare, &mut self.cells, next, entry);
        self.cells
            .copy_within(from + i..from + spot.len, MAX_IN_BLOCK * place);
        self.order[b] = Spot { len: i, ..spot };
        let len = spot.len - i;
        self.order.insert(b + 1, Spot { place, len }).unwrap();
    }

    /// Moves the entries of the block after the one there into it, and takes that block out. They
    /// have at most 64 entries together.
    pub fn join(&mut self, b: usize)
        requires within { suc b < length self.old.blocks }
        requires few { AreFew self.old.blocks b }
        ensures joined { IsJoined self.old.blocks self.new.blocks b }
        ensures most { self.new.most ≡ self.old.most }
    {
        let upper = self.order.remove(b + 1);
        let lower = self.order[b];
        let from = MAX_IN_BLOCK * upper.place;
        let end = MAX_IN_BLOCK * lower.place + lower.len;
        self.cells.copy_within(from..from + upper.len, end);
        let len = lower.len + upper.len;
        self.order[b] = Spot { len, ..lower };
        self.spare.push(upper.place).unwrap();
    }

    /// Takes the block there out.
    pub fn remove(&mut self, b: usize)
        requires { b < length self.old.blocks }
        ensures blocks { self.new.blocks ≡ remove self.old.blocks b }
        ensures most { self.new.most ≡ self.old.most }
    {
        let spot = self.order.remove(b);
        self.spare.push(spot.place).unwrap();
    }
}
