//! Ten thousand random calls, of which three in four are about what exists. The result of each must be a possible one,
//! each kind of result must come often, and the table must stay lawful.

use crate::beginnings::begun;
use crate::change::Change;
use crate::choices::hidden_name;
use crate::draws::Draws;
use crate::endings::{entries_of, finished};
use crate::event::{Event, still};
use crate::givings_back::{Gains, forgotten, settled};
use crate::looks::count_of;
use crate::story::{Asks, DEFAULT, Outcome, Reply, Step, Sum, TOP, Told};
use crate::tallies::Tallies;
use crate::task::Task;
use crate::teller::{Play, expect_lawful, misgathered, mistold, play_new};
use crate::under_test::TestTable;
use ledger::{Ledgers, Posting, Totals};
use std::alloc::{AllocError, Global};
use std::random::RandomSource;
use std::test::Fail;
use table::Limits;
use table_image::Image;

const STEPS: usize = 10_000;

/// Few nodes, requests and open files, so that they run out.
const LIMITS: Limits = Limits {
    nodes: 8,
    flights: 6,
    files: 5,
    ..DEFAULT
};

/// The table after all requests have ended, all files were closed, all lookups were forgotten, and hidden files were
/// removed.
const NOTHING_LEFT: &[Step] = &[Step::Nodes(&[TOP]), Step::Requests(&[]), Step::Holds(&[])];

/// A run, with the requests in progress, and those that have ended with what their answers give, each with its unique
/// number.
#[derive(Drop)]
struct LongRun {
    draws: Draws,
    working: Vec<(u64, Task)>,
    ended: Vec<(u64, Gains)>,
    tallies: Tallies,
    sum: Sum,
}

/// Takes out the value with that unique number.
fn take_out<T: Copy>(values: &mut Vec<(u64, T)>, unique: u64) -> Option<T> {
    let place = values.iter().position(|(other, _)| *other == unique)?;
    let (_, value) = values.remove(place);
    Some(value)
}

/// The totals of the postings of all periods.
fn sum_of(image: &Image) -> Sum {
    let Totals {
        mut born,
        mut entries,
        mut backs,
        mut forgotten,
    } = image.closed;
    for posting in image.postings.as_slice() {
        match *posting {
            Posting::Born { .. } => born = born.saturating_add(1),
            Posting::Entry { .. } => entries = entries.saturating_add(1),
            Posting::Back { .. } => backs = backs.saturating_add(1),
            Posting::Forget { amount, .. } => forgotten = forgotten.saturating_add(amount),
            Posting::Opening { .. } => {}
        }
    }
    Sum::All(born, entries, backs, forgotten)
}

/// What the answer to this result gives to the client, after its file was opened, if one was.
fn gains_of(told: Told, change: Change, after: &Image) -> Gains {
    let handle = match change.opened {
        0 => None,
        _ => Some(after.last_handle),
    };
    Gains {
        entries: entries_of(told),
        handle,
    }
}

/// The result of ending a period: an opening is left of each node except the root, and nothing else has changed.
fn period_ended(told: Told, before: &Image, after: &Image) -> Option<Event> {
    let Told::Closed(fewer) = told else {
        return None;
    };
    let left = after.postings.as_slice().len() as u64;
    let was = before.postings.as_slice().len() as u64;
    let nodes = after.nodes.as_slice().len() as u64;
    if left.saturating_add(fewer) == was && left.saturating_add(1) == nodes {
        still(Change::between(before, after), Event::PeriodEnded)
    } else {
        None
    }
}

/// A request from its begin to its settle, with the outcome Done.
fn done(unique: u64, asks: Asks) -> [Step; 3] {
    [
        Step::Begin(unique, asks, Told::Shown),
        Step::Finish(unique, Outcome::Done, Told::Shown),
        Step::Settle(unique, Reply::Taken, Told::Shown),
    ]
}

impl LongRun {
    fn new(alloc: Global, seed: u64) -> Result<LongRun, AllocError> {
        let tallies = Tallies::new(alloc)?;
        Ok(LongRun {
            draws: Draws { x: seed },
            working: Vec::new(alloc),
            ended: Vec::new(alloc),
            tallies,
            sum: Sum::ShareMissing,
        })
    }

    /// A random call, or none if it would be about a request and there is none.
    fn draw<'a>(&mut self, unique: u64, image: &'a Image) -> Option<Step<'a>> {
        match self.draws.among(11) {
            0..=3 => Some(Step::Begin(unique, self.draws.asks(image), Told::Shown)),
            4..=6 => {
                let place = self.draws.place(self.working.len());
                let (unique, task) = *self.working.get(place)?;
                Some(Step::Finish(unique, self.draws.outcome(task), Told::Shown))
            }
            7..=9 => {
                let place = self.draws.place(self.ended.len());
                let (unique, _) = *self.ended.get(place)?;
                Some(Step::Settle(unique, self.draws.reply(), Told::Shown))
            }
            _ => Some(self.draws.forget(image)),
        }
    }

    /// The result of a call, whose ticket says whether it may hide, or none if it is not a possible one.
    fn judge(
        &mut self,
        step: &Step,
        told: Told,
        hides: bool,
        before: &Image,
        after: &Image,
    ) -> Result<Option<Event>, AllocError> {
        let change = Change::between(before, after);
        match *step {
            Step::Begin(unique, asks, _) => {
                if told == Told::Go {
                    self.working.push((unique, Task::of(asks, hides, before)))?;
                }
                Ok(begun(asks, told, hides, before, change))
            }
            Step::Finish(unique, outcome, _) => {
                let Some(task) = take_out(&mut self.working, unique) else {
                    return Ok(None);
                };
                self.ended.push((unique, gains_of(told, change, after)))?;
                Ok(finished(task, outcome, told, change))
            }
            Step::Settle(unique, reply, _) => match take_out(&mut self.ended, unique) {
                Some(gains) => Ok(settled(reply, gains, told, before, change)),
                None => Ok(None),
            },
            Step::Forget(number, n, _) => Ok(forgotten(n, count_of(before, number), told, change)),
            Step::ClosePeriod(_) => Ok(period_ended(told, before, after)),
            _ => Ok(None),
        }
    }

    /// What a call returned, its result, and the table after it.
    fn make<T: Ledgers>(
        &mut self,
        under_test: &mut TestTable<T>,
        step: &Step,
        before: &Image,
    ) -> Result<(Told, Option<Event>, Image), AllocError> {
        let told = under_test.take(step)?;
        let hides = match *step {
            Step::Begin(unique, _, _) => under_test.hides(unique),
            _ => false,
        };
        let after = under_test.image()?;
        let event = self.judge(step, told, hides, before, &after)?;
        Ok((told, event, after))
    }

    /// Makes one call, the one with that index, given the table before it. Returns the table after it.
    fn go<T: Ledgers>(
        &mut self,
        under_test: &mut TestTable<T>,
        place: usize,
        step: &Step,
        before: &Image,
    ) -> Result<Image, Fail> {
        match self.make(under_test, step, before)? {
            (_, Some(event), after) => {
                self.tallies.note(event);
                Ok(after)
            }
            (told, None, _) => Err(mistold(place, told)),
        }
    }

    /// Chooses a random call, the one with that index, and makes it. After every 250 calls a period ends. The image
    /// follows the table.
    fn turn<T: Ledgers>(
        &mut self,
        under_test: &mut TestTable<T>,
        place: usize,
        image: &mut Image,
    ) -> Result<(), Fail> {
        let _passed = under_test.pass(self.draws.place(2));
        if let Some(step) = self.draw(place as u64, image) {
            let after = self.go(under_test, place, &step, image)?;
            *image = after;
        }
        if place % 250 == 249 {
            let after = self.go(under_test, place, &Step::ClosePeriod(Told::Shown), image)?;
            *image = after;
        }
        Ok(())
    }

    /// Makes random calls. After each of the first ones the table is checked to be lawful, and later from time to time.
    fn turns<T: Ledgers>(&mut self, under_test: &mut TestTable<T>) -> Result<(), Fail> {
        let mut image = under_test.image()?;
        for place in 0..STEPS {
            self.turn(under_test, place, &mut image)?;
            if place < 500 || place % 50 == 0 || place % 250 == 249 {
                expect_lawful(&image, place)?;
            }
        }
        Ok(())
    }

    /// Makes these calls after the others.
    fn go_all<T: Ledgers>(
        &mut self,
        under_test: &mut TestTable<T>,
        steps: &[Step],
    ) -> Result<(), Fail> {
        let mut image = under_test.image()?;
        for step in steps {
            image = self.go(under_test, STEPS, step, &image)?;
        }
        Ok(())
    }

    /// Ends all requests, forgets every lookup, and releases each open file.
    fn last_steps(&self, alloc: Global, image: &Image) -> Result<Vec<Step<'static>>, AllocError> {
        let mut steps = Vec::new(alloc);
        for (unique, _) in &self.working {
            steps.push(Step::Finish(*unique, Outcome::Failed, Told::Shown))?;
            steps.push(Step::Settle(*unique, Reply::Taken, Told::Shown))?;
        }
        for (unique, _) in &self.ended {
            steps.push(Step::Settle(*unique, Reply::Taken, Told::Shown))?;
        }
        for number in 0..LIMITS.nodes + 2 {
            steps.push(Step::Forget(number, u64::MAX, Told::Shown))?;
        }
        for filed in image.files.as_slice() {
            let asks = Asks::Release(filed.file.number, filed.handle);
            steps.extend_from_slice(&done(filed.handle, asks))?;
        }
        Ok(steps)
    }

    /// Ends everything that was begun, and closes all files.
    fn end_all<T: Ledgers>(&mut self, under_test: &mut TestTable<T>) -> Result<(), Fail> {
        let steps = self.last_steps(under_test.alloc, &under_test.image()?)?;
        self.go_all(under_test, steps.as_slice())
    }

    /// Removes a hidden file, if there is one.
    fn remove_hidden<T: Ledgers>(&mut self, under_test: &mut TestTable<T>) -> Result<(), Fail> {
        let image = under_test.image()?;
        match hidden_name(&image) {
            Some((parent, name)) => self.go_all(under_test, &done(0, Asks::Remove(parent, name))),
            None => Ok(()),
        }
    }
}

impl Play for LongRun {
    fn play<T: Ledgers>(&mut self, under_test: &mut TestTable<T>) -> Result<(), Fail> {
        self.turns(under_test)?;
        self.end_all(under_test)?;
        for _node in 0..LIMITS.nodes {
            self.remove_hidden(under_test)?;
        }
        under_test.tell(NOTHING_LEFT)?;
        self.sum = sum_of(&under_test.image()?);
        Ok(())
    }
}

/// A run with that seed. The shares add up to the postings, and all entries were taken back.
fn run_from<R: RandomSource + AllocGlobal>(rt: &R, seed: u64) -> Result<(), Fail> {
    let mut run = LongRun::new(rt.alloc(), seed)?;
    let sum = play_new(rt, LIMITS, &mut run)?;
    if let Some(place) = run.tallies.too_few() {
        return Err(Fail::from(("too few", place)));
    }
    match sum {
        Sum::All(_, entries, backs, forgotten)
            if sum == run.sum && entries == backs.saturating_add(forgotten) => { Ok(()) }
        _ => Err(misgathered(sum)),
    }
}

#[test]
fn long_run(rt: HostRuntime) -> Result<(), Fail> {
    run_from(&rt, 1)
}

#[test]
fn another_long_run(rt: HostRuntime) -> Result<(), Fail> {
    run_from(&rt, 2)
}
