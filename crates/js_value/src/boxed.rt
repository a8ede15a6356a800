ghost use Rattle.std.specs.Prelude.{◌≡◌, IfOk};

use crate::NoMemory;
use std::alloc::Global;
use std::boxed;
use std::marker::Model;
use std::ops::Deref;

/// A box that contracts see as the value in it.
#[derive(Debug, Drop)]
pub struct Box<T> {
    inner: boxed::Box<T>,
}

impl<T> Model for Box<T> {
    ghost Value = { T };

    ghost coded = { T.code };

    ghost view = { λ b. b.inner.value };
}

impl<T> Deref for Box<T> {
    type Target = T;

    fn deref(&self) -> &T
        ensures { result.now ≡ self.now }
    {
        &self.inner
    }
}

impl<T> Box<T> {
    pub fn into_inner(self) -> T
        ensures { result ≡ self }
    {
        let Box { inner } = self;
        boxed::Box::into_inner(inner)
    }
}

impl<T: Drop> Box<T> {
    pub fn new(alloc: Global, value: T) -> Result<Box<T>, NoMemory>
        ensures { IfOk result (λ b. b ≡ value) }
    {
        Ok(Box {
            inner: boxed::Box::new(alloc, value)?,
        })
    }
}
