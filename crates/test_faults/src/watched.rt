//! A tree in memory whose calls are compared with the expected ones.

use crate::asks::{Ask, is_ask};
use backing::{Answer, Call, Calls, MemTree};

/// A tree in memory, and the calls that are expected.
#[derive(Drop)]
pub struct Watched<'a> {
    pub tree: MemTree,
    due: &'a [Ask],
    /// How many calls were made.
    pub made: usize,
    /// How many of them were not the expected ones.
    pub others: usize,
}

impl<'a> Watched<'a> {
    /// A tree of which these calls are expected, in this order.
    pub fn new(tree: MemTree, due: &'a [Ask]) -> Watched<'a> {
        Watched {
            tree,
            due,
            made: 0,
            others: 0,
        }
    }

    /// Whether just the expected calls were made.
    pub fn is_as_due(&self) -> bool {
        self.others == 0 && self.made == self.due.len()
    }
}

impl Calls for Watched<'_> {
    ghost use Rattle.backing.specs.KnownTreeLemmas.{memory_counts};
    ghost use Rattle.backing.specs.Memory.{Gives};

    ghost gives = { λ old call answer new. Gives old.tree call answer new.tree };

    ghost faults = { λ watched. watched.tree.failed };

    ghost counts = { λ old new call answer given. memory_counts old.tree new.tree call answer given };

    fn call(&mut self, call: Call<'_>) -> Answer {
        let is_due = match self.due.get(self.made) {
            Some(ask) => is_ask(call, *ask),
            None => false,
        };
        self.made = self.made.saturating_add(1);
        if !is_due {
            self.others = self.others.saturating_add(1);
        }
        self.tree.call(call)
    }
}
