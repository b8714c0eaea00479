ghost use Rattle.std.specs.Prelude.{◌≡◌, ◌≤◌, length, ⊤};

use std::alloc::AllocError;

mod asking;
mod removing;
mod stacking;

// A list of at most N items, in fixed memory. No Vec, since no heap is used here; no ArrayVec, since that is not Copy, as what holds these is.
pub struct Bounded<T, const N: usize> {
    count: usize,
    places: [T; N],
    ghost within: { count ≤ N },
    ghost whole: { length places ≡ N },
}

// No place is left.
#[derive(Clone, Copy, PartialEq, Eq, Debug)]
pub struct Full;

// Copy and Clone are written, since a derive is refused for a generic type with ghost fields.
impl<T: Copy, const N: usize> Copy for Bounded<T, N> {}

impl<T: Copy, const N: usize> Clone for Bounded<T, N> {
    ghost is_clone = { λ b c. c ≡ b };

    ghost is_infallible = { λ _. ⊤ };

    fn clone(&self) -> Result<Self, AllocError> {
        Ok(*self)
    }
}
