//! Tickets and answers of other tables.

ghost use Rattle.std.specs.Prelude.{◌≡◌};

use crate::story::{Asks, DEFAULT, Outcome, ROOT, Told};
use crate::teller::LOOKUP;
use crate::under_test::{Begun, Ended, TestTable};
use ledger::{Blanks, Ledgers};
use std::alloc::{AllocError, Global};
use std::marker::Brand;
use table::{Answered, Seeds, Table, Ticket};

impl<T: Ledgers> TestTable<T> {
    /// Takes over a ticket of another table.
    pub fn take_stranger(&mut self, unique: u64) -> Result<Told, AllocError> {
        self.tickets.reserve(1)?;
        match stranger(self.alloc, self.seeds)? {
            Some(ticket) => {
                self.tickets.push_reserved(Begun { unique, ticket });
                Ok(Told::Shown)
            }
            None => Ok(Told::Otherwise),
        }
    }

    /// Takes over an answer of another table, whose request comes after that many others.
    pub fn take_answer(&mut self, unique: u64, after: u64) -> Result<Told, AllocError> {
        self.answers.reserve(1)?;
        match strangers_answer(self.alloc, self.seeds, after)? {
            Some(answered) => {
                self.answers.push_reserved(Ended { unique, answered });
                Ok(Told::Shown)
            }
            None => Ok(Told::Otherwise),
        }
    }

    /// Looks up a name that many times, and then creates a file.
    fn make_file(&mut self, after: u64) -> Result<Told, AllocError> {
        for _ in 0..after {
            self.look_up(ROOT, "a")?;
        }
        self.begin(LOOKUP, Asks::Create(ROOT, "n"))?;
        self.finish(LOOKUP, Outcome::Entry)
    }
}

fn stranger_on<T: Ledgers>(
    alloc: Global,
    seeds: Seeds,
    blanks: Blanks,
) -> Result<Option<Ticket>, AllocError>
    requires names { blanks ≡ T.names }
    requires shares { T.names.parts ≡ 1 }
{
    let (table, shares) = Table::<T>::open(alloc, DEFAULT, seeds, blanks, 1)?;
    let mut under_test = TestTable::new(alloc, seeds, table, shares);
    let _told = under_test.begin(LOOKUP, Asks::Name(ROOT, "a"));
    Ok(under_test.leave_with_ticket())
}

/// The ticket of the first request of a table, for `a` in the root.
fn stranger(alloc: Global, seeds: Seeds) -> Result<Option<Ticket>, AllocError> {
    stranger_on::<Brand>(alloc, seeds, Blanks::new(1))
}

fn answer_on<T: Ledgers>(
    alloc: Global,
    seeds: Seeds,
    blanks: Blanks,
    after: u64,
) -> Result<Option<Answered>, AllocError>
    requires names { blanks ≡ T.names }
    requires shares { T.names.parts ≡ 1 }
{
    let (table, shares) = Table::<T>::open(alloc, DEFAULT, seeds, blanks, 1)?;
    let mut under_test = TestTable::new(alloc, seeds, table, shares);
    let _told = under_test.make_file(after);
    Ok(under_test.leave_with_answer())
}

/// The answer to a CREATE in a table where `a` was looked up that many times before, and nothing else was done.
fn strangers_answer(
    alloc: Global,
    seeds: Seeds,
    after: u64,
) -> Result<Option<Answered>, AllocError> {
    answer_on::<Brand>(alloc, seeds, Blanks::new(1), after)
}
