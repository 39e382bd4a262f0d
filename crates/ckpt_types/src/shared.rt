//! Values that several owners read, and none changes.
ghost use Rattle.std.specs.Prelude.{◌≡◌, IfOk};

use std::alloc::{AllocError, Global};
use std::marker::Model;
use std::sync::Arc;

/// A share of a value that several owners read. Contracts see the value.
#[derive(Drop)]
pub struct Shared<T> {
    shared: Arc<T>,
}

impl<T> Model for Shared<T> {
    ghost Value = { T };

    ghost view = { λ share. share.shared.value };
}

impl<T: Drop> Shared<T> {
    /// The first share of a value.
    pub fn new(alloc: Global, value: T) -> Result<Shared<T>, AllocError>
        ensures { IfOk result (λ share. share ≡ value) }
    {
        let shared = Arc::new(alloc, value)?;
        Ok(Shared { shared })
    }

    /// One share more. It takes no memory, and is refused only where the shares can't be counted.
    pub fn share(&self) -> Result<Shared<T>, AllocError>
        ensures { IfOk result (λ share. share ≡ self.now) }
    {
        let shared = self.shared.clone()?;
        Ok(Shared { shared })
    }

    /// The value.
    pub fn value(&self) -> &T
        ensures { result.now ≡ self.now }
    {
        &self.shared
    }
}

impl<T: Drop> Clone for Shared<T> {
    ghost is_clone = { λ share copy. copy ≡ share };

    fn clone(&self) -> Result<Shared<T>, AllocError> {
        self.share()
    }
}
