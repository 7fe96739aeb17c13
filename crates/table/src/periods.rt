//! How far the last period of a ledger is, and ending it when that is due.

ghost use Rattle.std.specs.Prelude.{◌≡◌, ◌↔◌, true};
ghost use Rattle.table.specs.Made.{IsDueBy};
ghost use Rattle.table.specs.Renewing.{Renews};
ghost use Rattle.table_steps.specs.Kept.{world_of};
ghost use Rattle.table_steps.specs.World.{IsLawfulWorld};

use crate::table::Table;
use ledger::Ledgers;

/// How far the last period of a ledger is.
#[derive(Clone, Copy, Debug, PartialEq, Eq)]
pub struct Made {
    /// The postings of the period.
    pub postings: u64,
    /// How many it may have.
    pub limit: u64,
    /// The living nodes except the root.
    pub living: u64,
}

impl Made {
    /// Whether the period is due to end: it has at least half of the postings that it may have, and more than two per
    /// node.
    pub fn is_due(self) -> bool
        ensures { (result ≡ true) ↔ IsDueBy self }
    {
        self.postings >= self.limit / 2 && self.postings.div_ceil(2) > self.living
    }
}

impl<T: Ledgers> Table<T> {
    /// Ends the period if that is due. It does not allocate.
    pub fn renew(&mut self)
        ensures renews { Renews (world_of self.old) (world_of self.new) }
        ensures lawful { IsLawfulWorld (world_of self.new) }
    {
        self.attest(); // proof: its law
        if self.made().is_due() {
            self.close_period();
        }
    }
}
