//! Sums over the ledger of the list table.

use crate::list_table::{Bearer, ListTable, Posted};
use ledger::Totals;

const NOTHING: Totals = Totals {
    born: 0,
    entries: 0,
    backs: 0,
    forgotten: 0,
};

/// The totals with one more posting.
fn with(sums: Totals, posting: Posted) -> Totals {
    match posting {
        Posted::Born(_) => Totals {
            born: sums.born.saturating_add(1),
            ..sums
        },
        Posted::Entry(_) => Totals {
            entries: sums.entries.saturating_add(1),
            ..sums
        },
        Posted::Back(_) => Totals {
            backs: sums.backs.saturating_add(1),
            ..sums
        },
        Posted::Forget(_, amount) => Totals {
            forgotten: sums.forgotten.saturating_add(amount),
            ..sums
        },
    }
}

/// The entries that were not given back or forgotten.
fn left(sums: Totals) -> u64 {
    sums.entries
        .saturating_sub(sums.backs.saturating_add(sums.forgotten))
}

impl Posted {
    pub fn bearer(self) -> Bearer {
        match self {
            Posted::Born(bearer)
            | Posted::Entry(bearer)
            | Posted::Back(bearer)
            | Posted::Forget(bearer, _) => bearer,
        }
    }
}

impl ListTable {
    /// The totals of all numbers.
    pub fn sums(&self) -> Totals {
        let mut sums = NOTHING;
        for posting in &self.postings {
            sums = with(sums, *posting);
        }
        sums
    }

    /// The entries of all numbers that were not given back or forgotten.
    pub fn counted(&self) -> u64 {
        left(self.sums())
    }

    /// The lookup count of a number and generation: the sum of its postings, from the last one back to its birth.
    pub fn count(&self, bearer: Bearer) -> u64 {
        let mut sums = NOTHING;
        for posting in self.postings.iter().rev() {
            if posting.bearer() == bearer {
                sums = with(sums, *posting);
            }
            if *posting == Posted::Born(bearer) {
                break;
            }
        }
        left(sums)
    }

    /// How often the number was born.
    pub fn births(&self, number: u64) -> u64 {
        let mut births = 0u64;
        for posting in &self.postings {
            if let Posted::Born((born, _)) = *posting
                && born == number
            {
                births = births.saturating_add(1);
            }
        }
        births
    }
}
