//! What has several owners.

ghost use Rattle.std.specs.Prelude.{◌≡◌, IfOk};

use crate::Memory;
use std::alloc::Global;
use std::marker::Model;
use std::rc::Rc;

/// An `Rc` that contracts see as its value.
#[derive(Drop)]
pub struct Shared<T> {
    inner: Rc<T>,
}

impl<T> Model for Shared<T> {
    ghost Value = { T };

    ghost coded = { T.code };

    ghost view = { λ shared. shared.inner.value };
}

impl<T> Shared<T> {
    /// The value.
    pub fn get(&self) -> &T
        ensures { result.now ≡ self.now }
    {
        Rc::as_ref(&self.inner)
    }

    /// Whether the value has no other owner.
    pub(crate) fn is_sole(&self) -> bool {
        Rc::strong_count(&self.inner) == 1
    }
}

impl<T: Drop> Shared<T> {
    /// The first owner of a value.
    pub fn new(alloc: Global, value: T) -> Result<Shared<T>, Memory>
        ensures { IfOk result (λ made. made ≡ value) }
    {
        Ok(Shared {
            inner: Rc::new(alloc, value)?,
        })
    }

    /// One more owner of the value, of which no copy is made. `Memory` comes where no more can be counted.
    pub fn share(&self) -> Result<Shared<T>, Memory>
        ensures { IfOk result (λ made. made ≡ self.now) }
    {
        Ok(Shared {
            inner: self.inner.clone()?,
        })
    }
}
