//! Values that lend another one: itself, what a reference leads to, or what a `Box` or an `Rc` holds. So a builder takes owned items
//! and references alike.
ghost use Rattle.std.specs.Prelude.{◌≡◌};

use crate::archive::Archive;
use std::alloc::Allocator;
use std::rc::Rc;

/// A value that lends one of type `T`, as Rust's `Borrow` does.
pub trait Borrow<T> {
    /// What a value lends.
    ghost borrowed: { Self → T };

    /// Returns what the value lends.
    fn borrow(&self) -> &T
        ensures { result.now ≡ borrowed self.now };
}

impl<T: Archive> Borrow<T> for T {
    ghost borrowed = { λ x. x };

    fn borrow(&self) -> &T {
        self
    }
}

impl<'r, T> Borrow<T> for &'r T {
    ghost borrowed = { λ x. x.now };

    fn borrow(&self) -> &T {
        *self
    }
}

impl<T, A: Allocator> Borrow<T> for Box<T, A> {
    ghost borrowed = { λ x. x.value };

    fn borrow(&self) -> &T {
        self.as_ref()
    }
}

impl<T, A: Allocator> Borrow<T> for Rc<T, A> {
    ghost borrowed = { λ x. x.value };

    fn borrow(&self) -> &T {
        self.as_ref()
    }
}
