//! Driving both tables with the same calls, and checking that they agree after each.

ghost use Rattle.std.specs.Prelude.{◌≡◌, ◌≤◌, ◌<◌, vec_len};

use crate::asks::{Step, Told};
use crate::both::{Answers, Both};
use crate::draws::Draws;
use crate::known::Known;
use crate::tallies::{Came, Tallies};
use crate::under_test::{Shared, UnderTest};
use ledger::{Blanks, Ledgers, Share};
use std::alloc::{AllocError, Global};
use std::marker::Brand;
use std::random::RandomSource;
use std::test::Fail;
use table::{Counts, Limits, Seeds, Table};

/// The choice of steps.
#[derive(Clone, Copy)]
pub enum Manner {
    /// Any steps.
    Any,
    /// Steps of which three in four are about what exists.
    Biased,
}

/// How both are driven.
#[derive(Clone, Copy)]
pub struct Drive {
    pub limits: Limits,
    pub manner: Manner,
    pub draws: Draws,
    pub steps: usize,
    /// The results that must come, five times each.
    pub expected: &'static [Came],
}

/// How many times a run must have each expected result.
const LEAST: usize = 5;

impl<U: UnderTest> Both<U> {
    /// Both tables, new.
    fn new(known: Known, other: U) -> Both<U> {
        let alloc = known.list.alloc;
        Both {
            known,
            other,
            tickets: Vec::new(alloc),
            working: Vec::new(alloc),
            answers: Vec::new(alloc),
        }
    }

    fn draw(&self, manner: Manner, draws: &mut Draws) -> Step {
        let answers = self.answers.len();
        match manner {
            Manner::Any => draws.any_step(self.tickets.len(), answers),
            Manner::Biased => {
                draws.biased_step(&self.known.list, self.working.as_slice(), answers)
            }
        }
    }

    /// What differs between the tables as they stand, if anything.
    fn difference(&mut self) -> Result<Option<&'static str>, AllocError> {
        let image = self.other.export()?;
        self.known.difference(&image)
    }

    /// What differs after a call, if anything.
    fn differs(&mut self, answers: Answers) -> Result<Option<&'static str>, AllocError> {
        if answers.list != answers.other {
            return Ok(Some("answers"));
        }
        if let Some(what) = self.difference()? {
            return Ok(Some(what));
        }
        match answers.list {
            Told::Go { .. } if !self.same_paths()? => Ok(Some("paths of the ticket")),
            Told::Ended { .. } if !self.same_given() => Ok(Some("nodes given")),
            _ => Ok(None),
        }
    }

    /// Makes the step with that index on both, and checks that they agree afterwards.
    fn turn(&mut self, place: usize, step: Step) -> Result<Told, Fail> {
        let answers = self.call(place as u64, step)?;
        match self.differs(answers)? {
            Some(what) => {
                Err(Fail::from((what, place, answers.list.row(), answers.other.row())))
            }
            None => Ok(answers.list),
        }
    }

    /// Makes the steps, and notes what came.
    fn take(&mut self, drive: Drive, tallies: &mut Tallies) -> Result<(), Fail> {
        let mut draws = drive.draws;
        for place in 0..drive.steps {
            let step = self.draw(drive.manner, &mut draws);
            let told = self.turn(place, step)?;
            tallies.note(step, told)?;
        }
        Ok(())
    }

    fn turns(&mut self, drive: Drive) -> Result<(), Fail> {
        let mut tallies = Tallies::new(self.known.list.alloc);
        self.take(drive, &mut tallies)?;
        match tallies.too_few(drive.expected, LEAST) {
            Some(few) => Err(Fail::from(("too few", few))),
            None => Ok(()),
        }
    }
}

/// The table under test, new.
fn shared<T: Ledgers>(alloc: Global, table: Table<T>, mut shares: Vec<Share<T>>) -> Shared<T>
    requires { vec_len shares ≡ 2 }
{
    let share = shares.remove(0);
    let other = shares.remove(0);
    shares.destroy_empty();
    Shared {
        alloc,
        table,
        share,
        other,
    }
}

/// Makes the steps on both, which end in any case. The shares of the one add up to the postings of the other.
fn drive_known<U: UnderTest>(known: Known, other: U, drive: Drive) -> Result<(), Fail> {
    let mut both = Both::new(known, other);
    let turned = both.turns(drive);
    let sums = both.known.list.sums();
    let gathered = both.end();
    turned?;
    if gathered != Some(sums) {
        return Err(Fail::from(("gathers", sums, gathered)));
    }
    Ok(())
}

fn drive_on<T: Ledgers>(
    alloc: Global,
    drive: Drive,
    seeds: Seeds,
    blanks: Blanks,
) -> Result<(), Fail>
    requires root { 1 ≤ drive.limits.nodes }
    requires free { drive.limits.counts ≡ Counts.Free → drive.limits.nodes ≤ drive.limits.postings }
    requires names { blanks ≡ T.names }
    requires shares { T.names.parts ≡ 2 }
{
    let known = Known::new(alloc, drive.limits, drive.draws.longest)?;
    let (table, shares) = Table::<T>::open(alloc, drive.limits, seeds, blanks, 2)?;
    drive_known(known, shared(alloc, table, shares), drive)
}

/// Drives both from new tables. The shares of the one add up to the postings of the other.
pub fn drive_both<R: RandomSource + AllocGlobal>(rt: &R, drive: Drive) -> Result<(), Fail> {
    if drive.limits.nodes == 0 {
        return Err(Fail::from("a table has at least one node"));
    }
    if drive.limits.counts == Counts::Free && drive.limits.postings < drive.limits.nodes {
        return Err(Fail::from("a period has room for all nodes"));
    }
    let seeds = Seeds::new(rt)?;
    drive_on::<Brand>(rt.alloc(), drive, seeds, Blanks::new(2))
}
