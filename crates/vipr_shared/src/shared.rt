//! A value that several owners share.
ghost use Rattle.std.specs.Prelude.{◌≡◌, IfOk, IsTrue};

use crate::mark::Mark;
use std::alloc::{AllocError, Global};
use std::fmt;
use std::marker::Model;
use std::rc::Rc;

#[derive(Drop)]
struct Block<T> {
    value: T,
    mark: Mark<T>,
}

/// A value that its clones share.
#[derive(Drop)]
pub struct Shared<T> {
    block: Rc<Block<T>>,
}

impl<T> Model for Shared<T> {
    ghost use Rattle.std.specs.Prelude.{◌≡◌};

    ghost Value = { T };

    ghost coded = { T.code };

    ghost view = { λ s. s.block.value.value };

    ghost invariant = { λ s. s.block.value.mark ≡ s.block.value.value };
}

impl<T: Drop> Clone for Shared<T> {
    ghost use Rattle.std.specs.Prelude.{◌≡◌};

    ghost is_clone = { λ s copy. copy ≡ s };

    fn clone(&self) -> Result<Shared<T>, AllocError> {
        Ok(Shared {
            block: self.block.clone()?,
        })
    }
}

impl<T: fmt::Debug> fmt::Debug for Shared<T> {
    ghost debug_output = { λ s. T.debug_output s };

    fn fmt<W: fmt::Write>(&self, formatter: &mut fmt::Formatter<W>) -> fmt::Result {
        fmt::Debug::fmt(self.as_ref(), formatter)
    }
}

impl<T> Shared<T> {
    /// The value, which its clones will share.
    ///
    /// # Errors
    ///
    /// If the growth is refused.
    pub fn new(alloc: Global, value: T) -> Result<Shared<T>, AllocError>
    where
        T: Drop,
        ensures { IfOk result (λ s. s ≡ value) }
    {
        let mark = Mark::new(&value);
        let block = Rc::new(alloc, Block { value, mark })?;
        Ok(Shared { block })
    }

    /// The value.
    pub fn as_ref(&self) -> &T
        ensures { result.now ≡ self.now }
    {
        &self.block.as_ref().value
    }

    /// Whether both share one value, as a value and its clones do. `true` says that their values
    /// are equal.
    pub fn is_one(&self, other: &Shared<T>) -> bool
        ensures { IsTrue result → self.now ≡ other.now }
    {
        self.block.as_ref().mark.is_one(&other.block.as_ref().mark)
    }
}
