//! The items of a part, one after another.
ghost use Rattle.std.specs.Prelude.{◌≡◌, ⊤};
ghost use Rattle.std.specs.Iterator.{YieldsFirst, item_count};
ghost use Rattle.frame_items.specs.Format.{row_of};

use frame_items::item::Item;
use std::marker::PhantomData;

/// The items that bytes show, from the first to the last that is whole.
#[derive(Drop)]
pub struct Items<'a, I> {
    pub bytes: &'a [u8],
    of: PhantomData<I>,
}

impl<'a, I: Item> Items<'a, I> {
    // The items of a list in bytes.
    pub(crate) fn of(bytes: &'a [u8]) -> Items<'a, I>
        ensures { result.bytes.now ≡ bytes.now }
    {
        Items {
            bytes,
            of: PhantomData,
        }
    }
}

impl<'a, I: Item> Iterator for Items<'a, I> {
    type Item = I;

    ghost can_next = { λ _. ⊤ };

    ghost next_gives = { YieldsFirst (λ s. row_of (I.format 0) s.bytes.now) };

    ghost remaining = { item_count (λ s. row_of (I.format 0) s.bytes.now) };

    fn next(&mut self) -> Option<I> {
        let (item, behind) = self.bytes.split_at_checked(I::width())?;
        self.bytes = behind;
        Some(I::shown(item))
    }
}
