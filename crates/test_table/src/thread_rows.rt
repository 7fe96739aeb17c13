//! A table behind a lock, and two threads that forget lookups.

ghost use Rattle.std.specs.Prelude.{◌≡◌};

use crate::story::Told::Given;
use crate::story::{DEFAULT, ROOT, Step, Sum, TOP};
use crate::teller::misgathered;
use crate::under_test::TestTable;
use ledger::{Blanks, Ledgers, Share};
use std::alloc::{AllocError, Global};
use std::marker::Brand;
use std::random::RandomSource;
use std::sync::{Mutex, Wait};
use std::test::Fail;
use std::thread;
use std::thread::Threads;
use table::{Seeds, Table};

/// The shares of three workers after the first has looked `a` up 100 times, and the others have forgotten that.
const WORKED: &[Step] = &[
    Step::Nodes(&[TOP]),
    Step::Size(1, 201, 0),
    Step::Share(0, Sum::All(1, 100, 0, 0)),
    Step::Share(1, Sum::All(0, 0, 0, 50)),
    Step::Share(2, Sum::All(0, 0, 0, 50)),
];

/// Forgets 50 lookups of node 2, one at a time. Returns how many were taken.
fn forget_often<T: Ledgers, R: Wait>(rt: &R, table: &Mutex<Table<T>>, share: &mut Share<T>) -> u64 {
    let mut amount = 0u64;
    for _call in 0..50 {
        let mut table = table.lock(rt);
        amount = amount.saturating_add(table.forget(share, 2, 1));
    }
    amount
}

/// The first of three workers looks `a` up 100 times, and the others forget that at the same time.
fn forget_in_threads<R: Threads + Wait + Sync, T: Ledgers + Send + Sync>(
    rt: &R,
    alloc: Global,
    seeds: Seeds,
    blanks: Blanks,
    lookups: &[Step],
) -> Result<Sum, Fail>
    requires names { blanks ≡ T.names }
    requires shares { T.names.parts ≡ 3 }
{
    let (table, shares) = Table::<T>::open(alloc, DEFAULT, seeds, blanks, 3)?;
    let mut under_test = TestTable::new(alloc, seeds, table, shares);
    let looked_up = under_test.tell(lookups);
    let TestTable {
        alloc,
        seeds,
        table,
        share,
        mut others,
        tickets,
        answers,
    } = under_test;
    let shared = Mutex::new(table);
    let lock = &shared;
    let amounts = match others.as_mut_slice() {
        [second, third] => thread::join(
            rt,
            move || forget_often(rt, lock, second),
            move || forget_often(rt, lock, third),
        ),
        _ => (0, 0),
    };
    let mut under_test = TestTable {
        alloc,
        seeds,
        table: shared.into_inner(),
        share,
        others,
        tickets,
        answers,
    };
    let worked = match looked_up {
        Ok(()) => under_test.tell(WORKED),
        Err(fail) => Err(fail),
    };
    let sum = under_test.end();
    worked?;
    if amounts != (50, 50) {
        return Err(Fail::from(("came back to each", amounts.0, amounts.1)));
    }
    Ok(sum)
}

/// A step for each of the lookups.
fn lookups(alloc: Global) -> Result<Vec<Step<'static>>, AllocError> {
    let mut steps = Vec::new(alloc);
    for _step in 0..100 {
        steps.push(Step::LookUp(ROOT, "a", Given(2, 0)))?;
    }
    Ok(steps)
}

fn tell_of_threads<R: Threads + Wait + RandomSource + Sync>(
    rt: &R,
    alloc: Global,
) -> Result<Sum, Fail> {
    let lookups = lookups(alloc)?;
    let seeds = Seeds::new(rt)?;
    forget_in_threads::<R, Brand>(rt, alloc, seeds, Blanks::new(3), lookups.as_slice())
}

#[test]
fn two_threads(rt: HostRuntime) -> Result<(), Fail> {
    let sum = tell_of_threads(&rt, rt.alloc())?;
    if sum != Sum::All(1, 100, 0, 100) {
        return Err(misgathered(sum));
    }
    Ok(())
}
