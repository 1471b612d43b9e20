//! A value behind a pointer of its own.

ghost use Rattle.std.specs.Prelude.{◌≡◌, IfOk, IfErr};

use std::alloc::{AllocError, AllocFailed, Global};
use std::marker::Model;

/// A `Box` that contracts see as its value.
pub struct Boxed<T> {
    inner: Box<T>,
}

// Written by hand, so that the crates above call this, and need not go through the field.
impl<T: Drop> Drop for Boxed<T> {
    #[inline(always)]
    fn drop(self) {
        let Boxed { inner: _ } = self;
    }
}

impl<T> Model for Boxed<T> {
    ghost Value = { T };

    ghost coded = { T.code };

    ghost view = { λ b. b.inner.value };
}

impl<T> Boxed<T> {
    ghost use Rattle.std.specs.Borrow.{Lends, sem};
    ghost use Rattle.rhai_tree.specs.contracts.boxed.Boxed.{the_row};

    /// Moves the value behind a pointer. Where there is no memory the value comes back.
    pub fn try_new(alloc: Global, value: T) -> Result<Boxed<T>, AllocFailed<T>>
        ensures made { IfOk result (λ b. b ≡ value) }
        ensures returned { IfErr result (λ failed. failed.value ≡ value) }
    {
        let inner = Box::new(alloc, value)?;
        Ok(Boxed { inner })
    }

    /// Lends the value.
    pub fn get(&self) -> &T
        ensures { result.now ≡ self.now }
    {
        &self.inner
    }

    /// Lends the value, to be changed in place.
    pub fn get_mut(&mut self) -> &mut T
        ensures* writes_back { sem 𝓛 (Lends (the_row T.row) T.row self.entry result (λ w. w)) }
        ensures value { result.now ≡ self.old }
    {
        &mut self.inner
    }

    /// Moves the value out.
    pub fn into_inner(self) -> T
        ensures { result ≡ self }
    {
        let Boxed { inner } = self;
        Box::into_inner(inner)
    }
}

impl<T: Drop> Boxed<T> {
    /// Moves the value behind a pointer. Where there is no memory the value is let go.
    pub fn new(alloc: Global, value: T) -> Result<Boxed<T>, AllocError>
        ensures { IfOk result (λ b. b ≡ value) }
    {
        Ok(Boxed {
            inner: Box::new(alloc, value)?,
        })
    }
}
