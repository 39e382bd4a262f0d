//! The elements of a vector, of which most have one alone.
ghost use Rattle.std.specs.Prelude.{◌≡◌, ◌<◌, ◌^◌, [], ◌∷◌, length};

use std::marker::Model;

/// Fewer than 2^32 elements, in order. One alone lies in place.
#[derive(Drop)]
pub struct Elements<T> {
    items: Items<T>,
}

#[derive(Drop)]
enum Items<T> {
    One([T; 1]),
    Many(Vec<T>),
}

impl<T> Model for Elements<T> {
    ghost use Rattle.std.specs.Prelude.{List};

    ghost Value = { List T };

    ghost use Rattle.ckpt_types.specs.Elements.{elements_in, AreFew};

    ghost view = { λ elements. elements_in elements.items };

    ghost invariant = { λ elements. AreFew elements.items };
}

impl<T> Elements<T> {
    /// One element. It takes no memory.
    pub fn one(element: T) -> Elements<T>
        ensures { result ≡ element ∷ [] }
    {
        Elements {
            items: Items::One([element]),
        }
    }

    /// The elements of a list. It takes no memory.
    pub fn from_vec(items: Vec<T>) -> Elements<T>
        requires { length items.items < 2 ^ 32 }
        ensures { result ≡ items.items }
    {
        Elements {
            items: Items::Many(items),
        }
    }

    /// The elements in order.
    pub fn as_slice(&self) -> &[T]
        ensures items { result.now ≡ self.now }
        ensures few { length result.now < 2 ^ 32 }
    {
        match &self.items {
            Items::One(element) => element.as_slice(),
            Items::Many(items) => items.as_slice(),
        }
    }
}
