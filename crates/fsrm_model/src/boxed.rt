//! A value on the heap.

ghost use Rattle.std.specs.Prelude.{◌≡◌, IfOk};

use fsrm_base::NoMemory;
use std::alloc::Global;
use std::marker::Model;

/// A value that lies on the heap, so that what has it takes the room of a pointer for it. Contracts see it as the
/// value.
#[derive(Drop)]
pub struct Boxed<T> {
    inner: Box<T>,
}

impl<T> Model for Boxed<T> {
    ghost Value = { T };

    ghost view = { λ b. b.inner.value };
}

impl<T: Drop> Boxed<T> {
    /// Puts a value on the heap. If memory runs out the value is dropped.
    pub fn new(alloc: Global, value: T) -> Result<Boxed<T>, NoMemory>
        ensures { IfOk result (λ made. made ≡ value) }
    {
        let inner = Box::new(alloc, value)?;
        Ok(Boxed { inner })
    }
}

impl<T> Boxed<T> {
    /// The value, lent.
    pub fn as_ref(&self) -> &T
        ensures { result.now ≡ self.now }
    {
        self.inner.as_ref()
    }
}
