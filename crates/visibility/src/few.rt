//! A list of few items that is copied with its room, as no `ArrayVec` is.
ghost use Rattle.std.specs.Prelude.{⊤, ◌≡◌, ◌≤◌, length};

use std::alloc::AllocError;

mod listing;

/// At most `N` items.
pub(crate) struct Few<T, const N: usize> {
    items: [T; N],
    count: usize,
    ghost few: { count ≤ N },
    ghost room: { length items ≡ N },
}

// By hand, since a derive is refused over a ghost field with a type parameter.
impl<T: Copy, const N: usize> Clone for Few<T, N> {
    ghost is_clone = { λ x y. y ≡ x };

    ghost is_infallible = { λ _. ⊤ };

    fn clone(&self) -> Result<Few<T, N>, AllocError> {
        Ok(*self)
    }
}

impl<T: Copy, const N: usize> Copy for Few<T, N> {}
