//! The end of a period: what is left of each number is what the next period begins with. It cannot fail, since it does
//! not allocate: the next period's postings are stored where those of the last one were.

ghost use Rattle.std.specs.Prelude.{◌≡◌, ◌≢◌, ◌+◌, ◌<◌, ◌≤◌, [], AllPairs, length, ℕ, sum_by};
ghost use Rattle.ledger.specs.declared.births.KeptBirths.{KeptBirths as Kept};
ghost use Rattle.ledger.specs.declared.postings.Posting.TheVariants as posting;
ghost use Rattle.ledger.specs.Periods.{posted};
ghost use Rattle.ledger.specs.Shares.{Fits};
ghost use Rattle.ledger.specs.Sums.{IsCarriedOver, births_closed, births_of, carried_by, totals_over};

use crate::births::{KeptBirths, keep_births};
use crate::postings::{Ledger, Posting};
use crate::shares::Totals;
use std::alloc::Global;
use std::marker::Model;

/// A ledger whose last period is closed, while the next one begins. Contracts see it as a ledger whose last period is
/// the next one.
#[derive(Drop)]
pub struct NextPeriod {
    alloc: Global,
    /// What the period begins with, so far.
    opened: Vec<Posting>,
    /// How often each number was born in the closed periods.
    closed_births: Vec<KeptBirths>,
    /// How often each number was ever born.
    births: Vec<KeptBirths>,
    /// The totals of the closed periods.
    closed: Totals,
    limit: usize,
    room: usize,
    places: usize,
}

impl Model for NextPeriod {
    ghost use Rattle.ledger.specs.Postings.{Postings};

    ghost Value = { Postings };

    ghost use Rattle.ledger.specs.Kept.{IsNextPeriod};

    ghost view = { λ n. record { made = record { births = n.closed_births.items; totals = n.closed; last = n.opened.items }; limit = n.limit; room = n.room; places = n.places } };

    ghost invariant = { λ n. IsNextPeriod (record { births = n.closed_births.items; totals = n.closed; last = n.opened.items }) n.opened n.closed_births n.births n.limit n.room n.places };
}

impl NextPeriod {
    /// Records that `count` entries of the number were left when the period began.
    pub fn open(&mut self, number: u64, generation: u64, count: u64)
        requires { 0 < self.old.room }
        ensures made { self.new.made ≡ posted self.old.made (posting.Opening number generation count) }
        ensures limit { self.new.limit ≡ self.old.limit }
        ensures room { self.new.room + 1 ≡ self.old.room }
        ensures places { self.new.places ≡ self.old.places }
    {
        self.room -= 1;
        self.opened.push_reserved(Posting::Opening {
            number,
            generation,
            count,
        });
    }

    /// The ledger, once the period has everything that was left.
    pub fn begin(self) -> Ledger
        requires left { self.made.totals.backs + self.made.totals.forgotten + sum_by carried_by self.made.last ≡ self.made.totals.entries }
        requires entered { self.made.totals.born ≤ self.made.totals.entries }
        ensures same { result ≡ self }
        ensures carried { IsCarriedOver result.made }
    {
        let NextPeriod {
            alloc,
            opened,
            closed_births,
            births,
            closed,
            limit,
            room,
            places,
        } = self;
        Ledger {
            alloc,
            postings: opened,
            closed_births,
            closed,
            births,
            totals: closed,
            limit,
            room,
            places,
        }
    }
}

impl Ledger {
    /// How many postings the last period has.
    pub fn made(&self) -> usize
        ensures { result ≡ length self.now.made.last }
    {
        self.postings.len()
    }

    /// The totals of the closed periods.
    pub fn closed(&self) -> Totals
        ensures { result ≡ self.now.made.totals }
    {
        self.closed
    }

    /// How often each number was born in the closed periods.
    pub fn closed_births(&self) -> &[KeptBirths]
        ensures { result.now ≡ self.now.made.births }
    {
        &self.closed_births
    }

    /// The totals of all postings ever made.
    pub fn totals(&self) -> Totals
        ensures totals { result ≡ totals_over self.now.made }
        ensures fits { Fits (totals_over self.now.made) }
    {
        self.totals
    }

    /// Closes the last period: births and totals are kept. The next period is empty, and all the room for postings is
    /// now its own.
    pub fn close(self) -> NextPeriod
        ensures births { (n : ℕ) → births_closed n result.made.births ≡ births_of n self.made }
        ensures births_once { AllPairs (λ (b c : Kept). b.number ≢ c.number) result.made.births }
        ensures totals { result.made.totals ≡ totals_over self.made }
        ensures last { result.made.last ≡ [] }
        ensures limit { result.limit ≡ self.limit }
        ensures room { result.room ≡ self.room + length self.made.last }
        ensures places { result.places ≡ self.places }
    {
        let Ledger {
            alloc,
            mut postings,
            mut closed_births,
            closed: _,
            births,
            totals,
            limit,
            room,
            places,
        } = self;
        let room = room + postings.len();
        postings.clear();
        keep_births(&mut closed_births, &births);
        NextPeriod {
            alloc,
            // Each living node has a birth or an opening in the last period, so the next period's openings fit in this
            // buffer.
            opened: postings,
            closed_births,
            births,
            closed: totals,
            limit,
            room,
            places,
        }
    }
}
