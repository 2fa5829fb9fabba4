//! One block of a shelf: entries whose keys rise. When an entry is looked for, the guess of its
//! place is looked at first.
ghost use Rattle.std.specs.Prelude.{◌≡◌, ◌<◌, length, IfSome, MatchOption, slice_get, ◌++◌, ◌∷◌};
ghost use Rattle.std.specs.Prelude.{[]};
ghost use Rattle.krl_blocks.specs.Entries.{KeysRise, NoKey, IsInserted, IsRemoved, IsChanged};
ghost use Rattle.krl_blocks.specs.Shelves.{IsOneOther};
ghost use Rattle.krl_blocks.specs.Laid.{AreHalved};

use crate::search::count_keys;
use crate::shelf::{MAX_IN_BLOCK, Shelf};

/// Puts an entry of a key that no entry has into the block there, which has room for it.
pub fn put_in<V: Copy + Drop>(shelf: &mut Shelf<V>, b: usize, key: u64, value: V, guess: usize)
    requires within { b < length shelf.old.blocks }
    requires rising { IfSome (slice_get shelf.old.blocks b) (λ x. KeysRise x) }
    requires room { IfSome (slice_get shelf.old.blocks b) (λ x. length x < 64) }
    ensures one { IsOneOther shelf.old.blocks shelf.new.blocks b (λ x y. IsInserted x y key value) }
    ensures most { shelf.new.most ≡ shelf.old.most }
{
    let i = count_keys(shelf.get(b), key, guess);
    shelf.insert_at(b, i, (key, value));
}

/// Puts the entry after those of the block there, which has room for it.
pub fn push_in<V: Copy + Drop>(shelf: &mut Shelf<V>, b: usize, key: u64, value: V)
    requires within { b < length shelf.old.blocks }
    requires room { IfSome (slice_get shelf.old.blocks b) (λ x. length x < 64) }
    ensures one { IsOneOther shelf.old.blocks shelf.new.blocks b
        (λ x y. y ≡ x ++ (key, value) ∷ []) }
    ensures most { shelf.new.most ≡ shelf.old.most }
{
    let i = shelf.get(b).len();
    shelf.insert_at(b, i, (key, value));
}

/// Takes the entry of the key out of the block there, and answers its value.
pub fn take_from<V: Copy + Drop>(
    shelf: &mut Shelf<V>,
    b: usize,
    key: u64,
    guess: usize,
) -> Option<V>
    requires within { b < length shelf.old.blocks }
    requires rising { IfSome (slice_get shelf.old.blocks b) (λ x. KeysRise x) }
    ensures one { IsOneOther shelf.old.blocks shelf.new.blocks b
        (λ x y. MatchOption result (NoKey key x × (y ≡ x)) (λ v. IsRemoved x y key v)) }
    ensures most { shelf.new.most ≡ shelf.old.most }
{
    let block = shelf.get(b);
    let i = count_keys(block, key, guess);
    match block.get(i) {
        Some(entry) if entry.0 == key => {
            let value = entry.1;
            shelf.take(b, i);
            Some(value)
        }
        _ => None,
    }
}

/// Gives the entry of the key in the block there another value, and answers the one before.
pub fn set_in<V: Copy + Drop>(
    shelf: &mut Shelf<V>,
    b: usize,
    key: u64,
    value: V,
    guess: usize,
) -> Option<V>
    requires within { b < length shelf.old.blocks }
    requires rising { IfSome (slice_get shelf.old.blocks b) (λ x. KeysRise x) }
    ensures one { IsOneOther shelf.old.blocks shelf.new.blocks b
        (λ x y. MatchOption result (NoKey key x × (y ≡ x)) (λ was. IsChanged x y key value was)) }
    ensures most { shelf.new.most ≡ shelf.old.most }
{
    let block = shelf.get(b);
    let i = count_keys(block, key, guess);
    match block.get(i) {
        Some(entry) if entry.0 == key => {
            let was = entry.1;
            shelf.set(b, i, (key, value));
            Some(was)
        }
        _ => None,
    }
}

/// Parts the block there, which is full, in two halves, and answers the last key of the lower one.
/// There is room for one block more.
pub fn halve<V: Copy + Drop>(shelf: &mut Shelf<V>, b: usize) -> u64
    requires room { length shelf.old.blocks < shelf.old.most }
    requires within { b < length shelf.old.blocks }
    requires full { IfSome (slice_get shelf.old.blocks b) (λ x. length x ≡ 64) }
    ensures halves { AreHalved shelf.old.blocks shelf.new.blocks b result }
    ensures most { shelf.new.most ≡ shelf.old.most }
{
    let half = MAX_IN_BLOCK / 2;
    let (top, _) = shelf.get(b)[half - 1];
    shelf.split(b, half);
    top
}
