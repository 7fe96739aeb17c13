//! Two workers are in calls of the directory at the same time.

use crate::client::Fates;
use crate::story::{Comes, Shows, Story, holds_of};
use crate::teller::check_by;
use backing::{Answer, Call, Calls, Shared};
use engine::SessionEnd;
use std::alloc::{AllocError, Global};
use std::sync::atomic::{AtomicU32, Ordering};
use std::sync::{Arc, Wait};
use std::test::Fail;
use std::thread;
use std::time::{Clock, Duration};
use wire::Operation::{Destroy, Lookup, Unlink};

/// How often a first call polls before it gives up.
pub const LOOKS: u32 = 10_000_000;

/// A handle to a tree. Its first call waits for the first call of another handle.
#[derive(Drop)]
struct Meets<H: Wait + Drop> {
    tree: Shared<H>,
    has_called: bool,
    /// How many first calls came.
    came: Arc<AtomicU32>,
    /// How many of them saw another one.
    met: Arc<AtomicU32>,
}

/// Waits for the first call of another handle, unless it has waited already.
fn meet(has_called: &mut bool, came: &AtomicU32, met: &AtomicU32) {
    if *has_called {
        return;
    }
    *has_called = true;
    came.fetch_add(1, Ordering::SeqCst);
    for _look in 0..LOOKS {
        if came.load(Ordering::SeqCst) > 1 {
            met.fetch_add(1, Ordering::SeqCst);
            return;
        }
        thread::yield_now();
    }
}

impl<H: Wait + Drop> Calls for Meets<H> {
    ghost use Rattle.backing.specs.KnownTreeLemmas.{shared_counts};
    ghost use Rattle.backing.specs.SharedTree.{Shows};

    ghost gives = { λ old call answer new. Shows old.tree call answer new.tree };

    ghost faults = { λ meets. meets.tree };

    ghost counts = { λ old new call answer shown. shared_counts old.tree new.tree call answer shown };

    fn call(&mut self, call: Call<'_>) -> Answer {
        meet(&mut self.has_called, &self.came, &self.met);
        self.tree.call(call)
    }
}

/// Each handle waits for the others.
fn meeting<H: Wait + Drop>(
    alloc: Global,
    holds: Vec<Shared<H>>,
    met: &Arc<AtomicU32>,
) -> Result<Vec<Meets<H>>, AllocError> {
    let came = Arc::new(alloc, AtomicU32::new(0))?;
    let mut trees = Vec::new(alloc);
    for tree in holds {
        trees.push(Meets {
            tree,
            has_called: false,
            came: Arc::try_clone(&came)?,
            met: Arc::try_clone(met)?,
        })?;
    }
    Ok(trees)
}

/// How many milliseconds a slow call takes: longer than the other worker needs to begin, also where other programs run.
const SLOW: u64 = 50;

/// A handle to a tree whose calls take a while.
#[derive(Drop)]
struct Slowed<H: Wait + Clock + Drop> {
    tree: Shared<H>,
    clock: H,
}

impl<H: Wait + Clock + Drop> Calls for Slowed<H> {
    ghost use Rattle.backing.specs.KnownTreeLemmas.{shared_counts};
    ghost use Rattle.backing.specs.SharedTree.{Shows};

    ghost gives = { λ old call answer new. Shows old.tree call answer new.tree };

    ghost faults = { λ slowed. slowed.tree };

    ghost counts = { λ old new call answer shown. shared_counts old.tree new.tree call answer shown };

    fn call(&mut self, call: Call<'_>) -> Answer {
        thread::sleep(&self.clock, Duration::from_millis(SLOW));
        self.tree.call(call)
    }
}

const SAME_NAME: Story = Story {
    says: "one name is removed by two requests at once",
    workers: 2,
    comes: Comes::Together,
    asks: &[
        (1, Unlink { name: b"a" }),
        (1, Unlink { name: b"a" }),
        (0, Destroy),
    ],
    rest: &[],
    fates: Fates::Taken,
    end: SessionEnd::Destroyed,
    offers: 4,
    last: 4,
    taken: 3,
    births: None,
    totals: Some((0, 0, 0)),
    shows: Shows::Nothing,
};

// One of them waits until the other is done.
#[test]
fn a_request_waits_for_another(rt: HostRuntime) -> Result<(), Fail> {
    let mut trees = Vec::new(rt.alloc());
    for tree in holds_of(&rt, rt.alloc(), SAME_NAME.workers)? {
        let clock = rt.clone()?;
        trees.push(Slowed { tree, clock })?;
    }
    check_by(&rt, rt.alloc(), &SAME_NAME, trees)
}

/// Its entries are of one node, which is born once.
pub const TWO: Story = Story {
    says: "two entries by two workers at once",
    workers: 2,
    comes: Comes::Together,
    asks: &[(1, Lookup { name: b"a" }), (1, Lookup { name: b"a" })],
    rest: &[],
    fates: Fates::Taken,
    end: SessionEnd::Closed { rest: 0 },
    offers: 3,
    last: 0,
    taken: 3,
    births: Some(1),
    totals: Some((2, 0, 0)),
    shows: Shows::File,
};

#[test]
fn two_workers_overlap(rt: HostRuntime) -> Result<(), Fail> {
    let met = Arc::new(rt.alloc(), AtomicU32::new(0))?;
    let holds = holds_of(&rt, rt.alloc(), TWO.workers)?;
    check_by(&rt, rt.alloc(), &TWO, meeting(rt.alloc(), holds, &met)?)?;
    assert_eq!(rt; met.load(Ordering::SeqCst), 2);
    Ok(())
}

const ONE_BY_ONE: Story = Story {
    says: "a call that waits for a request that comes after it",
    comes: Comes::Alone,
    ..TWO
};

// The call of the first entry waits for the call of the second, whose request has not been received yet.
#[test]
fn a_call_that_waits_stops_nobody(rt: HostRuntime) -> Result<(), Fail> {
    let met = Arc::new(rt.alloc(), AtomicU32::new(0))?;
    let holds = holds_of(&rt, rt.alloc(), ONE_BY_ONE.workers)?;
    check_by(
        &rt,
        rt.alloc(),
        &ONE_BY_ONE,
        meeting(rt.alloc(), holds, &met)?,
    )?;
    assert_eq!(rt; met.load(Ordering::SeqCst), 2);
    Ok(())
}
