//! A memory tree that several threads call.

ghost use Rattle.std.specs.Prelude.{◌≡◌, ℕ};
ghost use Rattle.backing.specs.SharedTree.{Shows};

use crate::call::{Answer, Call};
use crate::calls::Calls;
use crate::memory::{Failures, MemTree};
use std::marker::Model;
use std::sync::{Arc, Mutex, Wait};

/// One thread's handle to a memory tree that other threads call too. Each call waits for the tree's lock. Contracts see
/// how many of the calls made through this handle have failed.
#[derive(Drop)]
pub struct Shared<H: Wait + Drop> {
    rt: H,
    tree: Arc<Mutex<MemTree>>,
    failures: Failures,
}

impl<H: Wait + Drop> Model for Shared<H> {
    ghost Value = { ℕ };

    ghost view = { λ s. s.failures };
}

impl<H: Wait + Drop> Shared<H> {
    /// A handle to the tree, through which no call was made yet. It has a runtime of its own, since a call is not
    /// passed one.
    pub fn new(rt: H, tree: Arc<Mutex<MemTree>>) -> Shared<H>
        ensures { result ≡ 0 }
    {
        Shared {
            rt,
            tree,
            failures: Failures::new(),
        }
    }

    /// How many of the calls made through this handle have failed.
    pub fn failures(&self) -> u64
        ensures { result ≡ self.now }
    {
        self.failures.count()
    }
}

impl<H: Wait + Drop> Calls for Shared<H> {
    ghost use Rattle.backing.specs.KnownTreeLemmas.{shared_counts};

    ghost gives = { Shows };

    ghost faults = { λ failures. failures };

    ghost counts = { shared_counts };

    fn call(&mut self, call: Call<'_>) -> Answer {
        let mut tree = self.tree.lock(&self.rt);
        tree.call_for(&mut self.failures, call)
    }
}
