// A row of at most N items.
ghost use Rattle.std.specs.Prelude.{⊤, ◌≡◌, ◌≤◌, length};

use std::alloc::AllocError;

mod methods;

// The items stand at the front of the memory, and what fills the rest is no part of the row. A row asks for no memory
// and is copied like a number, which the library's vectors of a fixed capacity are not.
#[derive(Copy)]
pub struct Row<T, const N: usize> {
    pub(crate) memory: [T; N],
    pub(crate) count: usize,
    ghost whole: { length memory ≡ N },
    ghost fits: { count ≤ N },
}

// What a row answers that has N items already.
#[derive(Clone, Copy, PartialEq, Eq, Debug)]
pub struct Full;

// By hand: `Clone` is not derived for a generic type with a ghost field.
impl<T: Copy, const N: usize> Clone for Row<T, N> {
    ghost is_clone = { λ row copy. copy ≡ row };

    ghost is_infallible = { λ _. ⊤ };

    fn clone(&self) -> Result<Row<T, N>, AllocError> {
        Ok(*self)
    }
}
