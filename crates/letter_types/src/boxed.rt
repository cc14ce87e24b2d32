// A value behind a pointer.
ghost use Rattle.std.specs.Prelude.{◌≡◌, IfOk};

use std::alloc::Global;
use std::marker::Model;
use tv_base::NoMemory;

/// A value behind a pointer. Contracts see the value. It keeps an enum small of which one variant is large and rare,
/// and makes a large value small to move.
#[derive(Drop)]
pub struct Boxed<T> {
    inner: Box<T>,
}

impl<T> Model for Boxed<T> {
    ghost Value = { T };

    ghost view = { λ b. b.inner.value };
}

impl<T: Drop> Boxed<T> {
    /// The value behind a pointer.
    #[inline(always)]
    pub fn new(alloc: Global, value: T) -> Result<Boxed<T>, NoMemory>
        ensures { IfOk result (λ b. b ≡ value) }
    {
        let inner = Box::new(alloc, value)?;
        Ok(Boxed { inner })
    }

    /// The value.
    pub fn get(&self) -> &T
        ensures { result.now ≡ self.now }
    {
        &self.inner
    }
}

impl<T> Boxed<T> {
    /// The value, by value.
    pub fn into_inner(self) -> T
        ensures { result ≡ self }
    {
        Box::into_inner(self.inner)
    }
}

impl<T: Copy> Boxed<T> {
    /// An equal value behind a pointer of its own.
    pub fn copy(&self, alloc: Global) -> Result<Boxed<T>, NoMemory>
        ensures { IfOk result (λ copy. copy ≡ self.now) }
    {
        let inner = Box::new(alloc, *self.inner)?;
        Ok(Boxed { inner })
    }
}
