//! Large parts of a value that is moved often lie apart from it.
ghost use Rattle.std.specs.Prelude.{◌≡◌, IfOk};

use std::alloc::{AllocError, Global};
use std::marker::Model;

/// A value that lies apart from what has it, which stays small. Contracts see the value.
#[derive(Drop)]
pub struct Apart<T> {
    block: Box<T>,
}

impl<T> Model for Apart<T> {
    ghost Value = { T };

    ghost view = { λ apart. apart.block.value };
}

impl<T: Drop> Apart<T> {
    /// The value, in a block of its own.
    pub fn new(alloc: Global, value: T) -> Result<Apart<T>, AllocError>
        ensures { IfOk result (λ apart. apart ≡ value) }
    {
        let block = Box::new(alloc, value)?;
        Ok(Apart { block })
    }

    /// The value.
    pub fn value(&self) -> &T
        ensures { result.now ≡ self.now }
    {
        &self.block
    }

    /// Another value in its place.
    pub fn put(&mut self, value: T)
        ensures { self.new ≡ value }
    {
        *self.block = value;
    }
}
