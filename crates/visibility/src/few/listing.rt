//! The items of a list of few.
ghost use Rattle.std.specs.Prelude.{◌≡◌, ◌<◌, ◌≤◌, [], ◌∷◌, ◌++◌, length};
ghost use Rattle.visibility.specs.Few.{items_of};

use crate::few::Few;
use std::ops::DerefSlice;

impl<T, const N: usize> DerefSlice for Few<T, N> {
    type Elem = T;

    ghost deref_gives = { λ few items. (items ≡ items_of few) × (length items ≤ N) };

    fn deref(&self) -> &[T] {
        &self.items[..self.count]
    }
}

impl<T: Copy, const N: usize> Few<T, N> {
    // No items; the blank stands where there is room.
    pub(crate) fn none(blank: T) -> Few<T, N>
        ensures { items_of result ≡ [] }
    {
        Few {
            items: [blank; N],
            count: 0,
        }
    }

    // How many items there are.
    pub(crate) fn len(&self) -> usize
        ensures { result ≡ length (items_of self.now) }
    {
        self.count
    }

    // One item more.
    pub(crate) fn push(&mut self, item: T)
        requires { length (items_of self.old) < N }
        ensures { items_of self.new ≡ items_of self.old ++ item ∷ [] }
    {
        self.items[self.count] = item;
        self.count += 1;
    }
}
