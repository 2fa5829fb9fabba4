//! A box as its pointer, for what keeps boxes in a form of its own.
ghost use Rattle.std.specs.Prelude.{◌≡◌};
ghost use Rattle.std_alloc.specs.Box.Ownership.{box_owns};

use std::alloc::Allocator;
use std::marker::Model;

/// A box that was taken apart. It owns what the box owned.
pub struct DetachedBox<T, A: Allocator> {
    pub at: *mut T,
    pub alloc: A,
    pub ghost value: { T },
}

impl<T, A: Allocator> Model for DetachedBox<T, A> {
    ghost also_owns = { λ l. box_owns (A.dealloc_token l.alloc) T.row l.at l.value };
}

impl<T: Drop, A: Allocator> DetachedBox<T, A> {
    pub fn of(value: Box<T, A>) -> DetachedBox<T, A>
        ensures { result.value ≡ value.value }
    {
        let (at, alloc) = Box::into_raw_with_allocator(value);
        DetachedBox { at, alloc }
    }

    pub fn into_box(self) -> Box<T, A>
        ensures { result.value ≡ self.value }
    {
        let DetachedBox { at, alloc } = self;
        unsafe { Box::from_raw(alloc, at) }
    }
}
