//! A list that needs no allocation for one item.

ghost use Rattle.std.specs.Prelude.{◌≡◌, ◌++◌, ◌∷◌, [], OnOk};
ghost use Rattle.std.specs.Mem.{FitsInMemory};
ghost use Rattle.holds.specs.Few.{items_of};

use std::alloc::{AllocError, Global};
use std::{mem, slice};

/// A list that needs no allocation for one item.
#[derive(Drop)]
pub(crate) enum Few<T> {
    Nothing,
    One(T),
    Many(Vec<T>),
}

impl<T: Drop> Few<T> {
    /// The items.
    pub(crate) fn as_slice(&self) -> &[T]
        requires { FitsInMemory T.row }
        ensures { result.now ≡ items_of self.now }
    {
        match self {
            Few::Nothing => &[],
            Few::One(item) => slice::from_ref(item),
            Few::Many(items) => items.as_slice(),
        }
    }

    /// Makes room for `more` items, unless the list has exactly one. Out of memory is the only error; then the items do
    /// not change.
    pub(crate) fn reserve(&mut self, alloc: Global, more: usize) -> Result<(), AllocError>
        ensures { items_of self.new ≡ items_of self.old }
    {
        match self {
            Few::Nothing if more > 1 => *self = Few::Many(Vec::with_capacity(alloc, more)?),
            Few::Nothing | Few::One(_) => {}
            Few::Many(items) => items.reserve(more)?,
        }
        Ok(())
    }

    /// Appends the item. Out of memory is the only error; then the items are lost.
    pub(crate) fn push(&mut self, alloc: Global, item: T) -> Result<(), AllocError>
        ensures { OnOk result (items_of self.new ≡ items_of self.old ++ item ∷ []) }
    {
        match self {
            Few::Nothing => *self = Few::One(item),
            Few::One(_) => {
                let Few::One(first) = mem::replace(self, Few::Nothing) else {
                    unreachable!();
                };
                let mut items = Vec::with_capacity(alloc, 2)?;
                items.push(first)?;
                items.push(item)?;
                *self = Few::Many(items);
            }
            Few::Many(items) => items.push(item)?,
        }
        Ok(())
    }
}
