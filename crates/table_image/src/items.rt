//! Lists as contracts see them.

ghost use Rattle.std.specs.Prelude.{◌≡◌, ◌==◌, ◌++◌, [], ◌∷◌, OnOk, OnErr};
ghost use Rattle.std.specs.List.{list_any};

use std::alloc::{AllocError, Global};
use std::marker::Model;

/// A list. Contracts see only its items, and not its capacity.
#[derive(Drop)]
pub struct Items<T> {
    items: Vec<T>,
}

impl<T> Model for Items<T> {
    ghost use Rattle.std.specs.Prelude.{List};

    ghost Value = { List T };

    ghost view = { λ l. l.items.items };
}

impl<T: Drop> Items<T> {
    /// No items.
    pub fn new(alloc: Global) -> Items<T>
        ensures { result ≡ [] }
    {
        Items::from(Vec::new(alloc))
    }

    /// Appends an item. If memory is refused, nothing changes.
    pub fn add(&mut self, item: T) -> Result<(), AllocError>
        ensures ok { OnOk result (self.new ≡ self.old ++ item ∷ []) }
        ensures err { OnErr result (self.new ≡ self.old) }
    {
        self.items.push(item)?;
        Ok(())
    }

    /// An empty list of another item type. It does not allocate.
    pub fn none_of<U>(&self) -> Items<U>
        ensures { result ≡ [] }
    {
        Items {
            items: Vec::new(*self.items.allocator()),
        }
    }

    pub fn as_slice(&self) -> &[T]
        ensures { result.now ≡ self.now }
    {
        self.items.as_slice()
    }

    /// The items as a vector. It does not allocate.
    pub fn into_vec(self) -> Vec<T>
        ensures { result.items ≡ self }
    {
        let Items { items } = self;
        items
    }
}

impl Items<u64> {
    /// Whether the list has the number.
    pub fn contains(&self, number: u64) -> bool
        ensures { result ≡ list_any (λ m. m == number) self.now }
    {
        self.items.iter().any(|m| *m == number)
    }
}

impl<T> From<Vec<T>> for Items<T> {
    ghost from_gives = { λ items l. l ≡ items.items };

    fn from(items: Vec<T>) -> Items<T> {
        Items { items }
    }
}
