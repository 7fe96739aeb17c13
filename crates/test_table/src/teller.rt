//! Running stories on tables.

ghost use Rattle.std.specs.Prelude.{◌≡◌, ◌≤◌};

use crate::shows::{
    are_paths, lists, shows_holds, shows_ledger, shows_nodes, shows_paths, shows_requests,
};
use crate::story::{Asks, Outcome, Reply, Step, Story, Sum, Told};
use crate::under_test::TestTable;
use ledger::{Blanks, Ledgers};
use std::alloc::{AllocError, Global};
use std::marker::Brand;
use std::random::RandomSource;
use std::test::Fail;
use table::{Counts, Limits, Seeds, Table};
use table_image::Image;

/// The unique number of each LOOKUP that is one step.
pub const LOOKUP: u64 = 0;

/// The step with this index, from 0, had another result, which is this.
pub fn mistold(place: usize, told: Told) -> Fail {
    Fail::from(("otherwise", place, told))
}

/// The shares add up to something else, which is this.
pub fn misgathered(sum: Sum) -> Fail {
    Fail::from(("gathers", sum))
}

impl From<bool> for Told {
    fn from(holds: bool) -> Told {
        if holds { Told::Shown } else { Told::Otherwise }
    }
}

/// Checks that the image is lawful, after the step with this index.
pub fn expect_lawful(image: &Image, place: usize) -> Result<(), Fail> {
    if image.lawful() {
        return Ok(());
    }
    Err(Fail::from(("unlawful after", place)))
}

/// Whether the image is as the step says.
fn shows(alloc: Global, image: &Image, step: &Step) -> Result<bool, AllocError> {
    match *step {
        Step::Nodes(nodes) => Ok(shows_nodes(image, nodes)),
        Step::Ledger(postings) => Ok(shows_ledger(image, postings)),
        Step::Requests(requests) => Ok(shows_requests(image, requests)),
        Step::Holds(holds) => shows_holds(alloc, image, holds),
        Step::Size(nodes, postings, requests) => {
            Ok(
                (nodes, postings, requests)
                    == (
                        image.nodes.as_slice().len(),
                        image.postings.as_slice().len(),
                        image.records.as_slice().len(),
                    ),
            )
        }
        _ => Ok(false),
    }
}

impl<T: Ledgers> TestTable<T> {
    /// A LOOKUP from its begin to its settle as taken. Returns the result of its finish, or of its begin if that
    /// refused it.
    pub fn look_up(&mut self, parent: u64, name: &str) -> Result<Told, AllocError> {
        let begun = self.begin(LOOKUP, Asks::Name(parent, name))?;
        if begun != Told::Go {
            return Ok(begun);
        }
        let told = self.finish(LOOKUP, Outcome::Entry)?;
        match self.settle(LOOKUP, Reply::Taken) {
            Told::Settled(_) => Ok(told),
            settled => Ok(settled),
        }
    }

    fn has_paths(&self, unique: u64, paths: &[&str]) -> Result<bool, AllocError> {
        match self.tickets.iter().find(|begun| begun.unique == unique) {
            Some(begun) => shows_paths(self.alloc, &begun.ticket, paths),
            None => Ok(false),
        }
    }

    /// Whether the ticket of the request says that it closed the last handle of a hidden file, or that it did not.
    fn has_last(&self, unique: u64, last: bool) -> bool {
        match self.tickets.iter().find(|begun| begun.unique == unique) {
            Some(begun) => begun.ticket.last() == last,
            None => false,
        }
    }

    fn has_leftover(&self, paths: &[&str]) -> Result<bool, AllocError> {
        are_paths(self.alloc, self.table.leftover()?.as_slice(), paths)
    }

    fn has_listed(&self, unique: u64, said: &[Option<(u64, u64)>]) -> bool {
        match self.answers.iter().find(|ended| ended.unique == unique) {
            Some(ended) => lists(&ended.answered, said),
            None => false,
        }
    }

    fn has_share(&self, index: usize, sum: Sum) -> bool {
        let mut shares = [&self.share].into_iter().chain(self.others.iter());
        shares.any(|share| share.index() == index && Sum::from(share.totals()) == sum)
    }

    /// Whether the table, its tickets and its shares are as the step says.
    fn is_as(&self, step: &Step) -> Result<bool, AllocError> {
        match *step {
            Step::Paths(unique, paths) => self.has_paths(unique, paths),
            Step::Last(unique, last) => Ok(self.has_last(unique, last)),
            Step::Leftover(paths) => self.has_leftover(paths),
            Step::Lists(unique, said) => Ok(self.has_listed(unique, said)),
            Step::Share(index, sum) => Ok(self.has_share(index, sum)),
            Step::File(handle, number) => Ok(
                self.table.file(handle).map(|file| file.number) == number,
            ),
            _ => shows(self.alloc, &self.image()?, step),
        }
    }

    /// The result of a step.
    pub fn take(&mut self, step: &Step) -> Result<Told, AllocError> {
        match *step {
            Step::Begin(unique, asks, _) => self.begin(unique, asks),
            Step::Finish(unique, outcome, _) => self.finish(unique, outcome),
            Step::Settle(unique, reply, _) => Ok(self.settle(unique, reply)),
            Step::Forget(number, n, _) => Ok(self.forget(number, n)),
            Step::ClosePeriod(_) => Ok(Told::Closed(self.table.close_period())),
            Step::LookUp(parent, name, _) => self.look_up(parent, name),
            Step::Stranger(unique) => self.take_stranger(unique),
            Step::StrangersAnswer(unique, after) => self.take_answer(unique, after),
            Step::Worker(worker) => Ok(self.pass(worker).into()),
            Step::LeaveShare => Ok(self.leave_share().into()),
            _ => Ok(self.is_as(step)?.into()),
        }
    }

    /// Takes a step, and checks that the table is lawful afterwards.
    fn tell_one(&mut self, place: usize, step: &Step) -> Result<(), Fail> {
        let told = self.take(step)?;
        if told != step.said() {
            return Err(mistold(place, told));
        }
        self.attest(place)
    }

    /// Checks that the table is lawful, after the step with this index.
    pub fn attest(&self, place: usize) -> Result<(), Fail> {
        expect_lawful(&self.image()?, place)
    }

    /// Takes each step.
    pub fn tell(&mut self, steps: &[Step]) -> Result<(), Fail> {
        for (place, step) in steps.iter().enumerate() {
            self.tell_one(place, step)?;
        }
        Ok(())
    }
}

/// Something to be done with a table, for any type parameter of its ledgers.
pub trait Play {
    fn play<T: Ledgers>(&mut self, under_test: &mut TestTable<T>) -> Result<(), Fail>;
}

impl Play for Story<'_> {
    fn play<T: Ledgers>(&mut self, under_test: &mut TestTable<T>) -> Result<(), Fail> {
        under_test.tell(self.steps)
    }
}

fn play_on<T: Ledgers, P: Play>(
    alloc: Global,
    limits: Limits,
    seeds: Seeds,
    blanks: Blanks,
    play: &mut P,
) -> Result<Sum, Fail>
    requires root { 1 ≤ limits.nodes }
    requires free { limits.counts ≡ Counts.Free → limits.nodes ≤ limits.postings }
    requires names { blanks ≡ T.names }
    requires shares { T.names.parts ≡ 2 }
{
    let (table, shares) = Table::<T>::open(alloc, limits, seeds, blanks, 2)?;
    let mut under_test = TestTable::new(alloc, seeds, table, shares);
    let played = play.play(&mut under_test);
    let sum = under_test.end();
    played?;
    Ok(sum)
}

/// Opens a table with two shares, plays with it, and gathers the shares.
pub fn play_new<R: RandomSource + AllocGlobal, P: Play>(
    rt: &R,
    limits: Limits,
    play: &mut P,
) -> Result<Sum, Fail> {
    if limits.nodes == 0 {
        return Err(Fail::from("a table has at least one node"));
    }
    if limits.counts == Counts::Free && limits.postings < limits.nodes {
        return Err(Fail::from("a period has room for all nodes"));
    }
    let seeds = Seeds::new(rt)?;
    play_on::<Brand, P>(rt.alloc(), limits, seeds, Blanks::new(2), play)
}

/// Runs a story on a new table with two shares. Fails at the first unexpected result.
pub fn run<R: RandomSource + AllocGlobal>(rt: &R, story: &Story) -> Result<(), Fail> {
    let mut told = *story;
    let sum = play_new(rt, story.limits, &mut told)?;
    if sum != story.gathers {
        return Err(misgathered(sum));
    }
    Ok(())
}
