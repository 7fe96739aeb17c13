//! Shares of the table's book.

ghost use Rattle.std.specs.Prelude.{◌≡◌, ◌++◌, ◌∷◌, [], IfSome};

use ledger::{Ledgers, Share};

/// A thread's share of the table's book. If it is dropped, the share is given up, and the book cannot be gathered.
pub struct ThreadShare<T: Ledgers> {
    pub share: Share<T>,
}

impl<T: Ledgers> Drop for ThreadShare<T> {
    fn drop(self) {
        let ThreadShare { share } = self;
        share.leave();
    }
}

impl<T: Ledgers> ThreadShare<T> {
    fn into_share(self) -> Share<T>
        ensures { result ≡ self.share }
    {
        let ThreadShare { share } = self;
        share
    }
}

/// The shares that no thread has. If they are dropped, they are given up.
pub struct Shares<T: Ledgers> {
    pub shares: Vec<Share<T>>,
}

impl<T: Ledgers> Drop for Shares<T> {
    fn drop(self) {
        let Shares { shares } = self;
        leak_all(shares);
    }
}

fn leak_all<T: Ledgers>(mut shares: Vec<Share<T>>) {
    while let Some(share) = shares.pop() {
        share.leave();
    }
    shares.destroy_empty();
}

impl<T: Ledgers> Shares<T> {
    pub fn new(shares: Vec<Share<T>>) -> Shares<T>
        ensures { result.shares ≡ shares }
    {
        Shares { shares }
    }

    /// The last one of them, for a thread, if there is one.
    pub fn take(&mut self) -> Option<ThreadShare<T>>
        ensures { IfSome result (λ kept. self.old.shares.items ≡ self.new.shares.items ++ kept.share ∷ []) }
    {
        let share = self.shares.pop()?;
        Some(ThreadShare { share })
    }

    /// Takes one back. There is room for all that were taken.
    pub fn put(&mut self, kept: ThreadShare<T>) {
        let share = kept.into_share();
        if self.shares.len() < self.shares.capacity() {
            self.shares.push_reserved(share);
        } else {
            share.leave();
        }
    }

    /// All of them.
    pub fn into_all(self) -> Vec<Share<T>> {
        let Shares { shares } = self;
        shares
    }
}
