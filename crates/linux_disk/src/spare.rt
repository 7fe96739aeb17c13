//! Values that are used again and again.

use std::cell::Cell;

/// Keeps a value while nobody uses it.
#[derive(Drop)]
pub struct Spare<T: Drop> {
    kept: Cell<Option<T>>,
}

impl<T: Drop> Spare<T> {
    /// It keeps none.
    pub fn new() -> Spare<T> {
        Spare {
            kept: Cell::new(None),
        }
    }

    /// The value that is kept, if one is.
    pub fn take(&self) -> Option<T> {
        self.kept.replace(None)
    }

    /// Keeps it until it is taken.
    pub fn keep(&self, value: T) {
        self.kept.set(Some(value));
    }
}
