//! Lists whose length fits the standard's number of elements.
ghost use Rattle.std.specs.Prelude.{◌≡◌, ◌<◌, ◌^◌, length};

use std::marker::Model;

/// Fewer than 2^32 elements, in order.
#[derive(Drop)]
pub struct Vector<T> {
    items: Vec<T>,
}

impl<T> Model for Vector<T> {
    ghost use Rattle.std.specs.Prelude.{List, ◌<◌, ◌^◌, length};

    ghost Value = { List T };

    ghost view = { λ vector. vector.items.items };

    ghost invariant = { λ vector. length vector.items.items < 2 ^ 32 };
}

impl<T> Vector<T> {
    /// The elements of a list. It takes no memory.
    pub fn from_vec(items: Vec<T>) -> Vector<T>
        requires { length items.items < 2 ^ 32 }
        ensures { result ≡ items.items }
    {
        Vector { items }
    }

    /// The list of the elements. It takes no memory.
    pub fn into_vec(self) -> Vec<T>
        ensures items { result.items ≡ self }
        ensures few { length result.items < 2 ^ 32 }
    {
        self.items
    }

    /// The elements in order.
    pub fn as_slice(&self) -> &[T]
        ensures items { result.now ≡ self.now }
        ensures few { length result.now < 2 ^ 32 }
    {
        self.items.as_slice()
    }
}
