//! The table under test, with its shares.

use ledger::{Gather, Ledgers, Share, Totals};
use std::alloc::{AllocError, AllocFailed, Global};
use table::{Answered, Begin, Outcome, Settled, Table, Ticket, Want};
use table_image::Image;

/// A table as tests call it. Nothing is claimed of what it answers, so that what is generic over it is checked for none of what a
/// table claims.
pub trait UnderTest {
    fn begin(&mut self, unique: u64, want: Want) -> Begin;

    fn finish(&mut self, ticket: Ticket, outcome: Outcome) -> Answered;

    fn settle(&mut self, answered: Answered, taken: bool) -> Settled;

    fn forget(&mut self, number: u64, n: u64) -> u64;

    fn export(&self) -> Result<Image, AllocError>;

    /// The totals of the shares, if none is missing.
    fn gather(self) -> Option<Totals>;
}

/// A table and two shares.
pub struct Shared<T: Ledgers> {
    pub alloc: Global,
    pub table: Table<T>,
    /// The share that is passed to each finish, and the one that is passed to all other calls.
    pub share: Share<T>,
    pub other: Share<T>,
}

impl<T: Ledgers> UnderTest for Shared<T> {
    fn begin(&mut self, unique: u64, want: Want) -> Begin {
        self.table.begin(unique, want)
    }

    fn finish(&mut self, ticket: Ticket, outcome: Outcome) -> Answered {
        self.table.finish(&mut self.share, ticket, outcome)
    }

    fn settle(&mut self, answered: Answered, taken: bool) -> Settled {
        self.table.settle(&mut self.other, answered, taken)
    }

    fn forget(&mut self, number: u64, n: u64) -> u64 {
        self.table.forget(&mut self.other, number, n)
    }

    fn export(&self) -> Result<Image, AllocError> {
        self.table.export()
    }

    fn gather(self) -> Option<Totals> {
        let Shared {
            alloc,
            table,
            share,
            other,
        } = self;
        match table.gather(shares_of(alloc, share, other)) {
            Ok(totals) => Some(totals),
            Err(Gather::ShareMissing) => None,
        }
    }
}

/// Both shares. If memory for one is refused, it is given up.
fn shares_of<T: Ledgers>(alloc: Global, share: Share<T>, other: Share<T>) -> Vec<Share<T>> {
    let mut shares = Vec::new(alloc);
    if let Err(AllocFailed { value }) = shares.push(share) {
        value.leave();
    }
    if let Err(AllocFailed { value }) = shares.push(other) {
        value.leave();
    }
    shares
}
