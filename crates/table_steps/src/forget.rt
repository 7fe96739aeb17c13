//! FORGET: the client drops lookups of a node.

ghost use Rattle.std.specs.Prelude.{◌≡◌, ◌<◌};
ghost use Rattle.table_steps.specs.Steps.{Forgets};
ghost use Rattle.table_steps.specs.Kept.{IsKept, world_of};

use crate::state::State;
use crate::sweep::sweep;
use ledger::Posting;
use terms::Counts;

impl State {
    /// Takes the smaller of `n` and the node's count from the count, and returns it.
    pub fn forget(&mut self, number: u64, n: u64) -> u64
        requires kept { IsKept self.old }
        requires room { self.old.limits.counts ≡ Counts.Free → 0 < self.old.ledger.room }
        ensures forgets { Forgets (world_of self.old) number n result (world_of self.new) }
        ensures kept { IsKept self.new }
    {
        let Some(node) = self.tree.at(number) else {
            return 0;
        };
        let amount = n.min(node.count);
        if amount == 0 {
            return 0;
        }
        let (generation, count) = (node.generation, node.count - amount);
        self.tree.set_count(number, count);
        self.counts -= amount;
        self.ledger.post(Posting::Forget {
            number,
            generation,
            amount,
        });
        sweep(&mut self.tree, &self.flights, &self.files, number, &[]);
        amount
    }
}
