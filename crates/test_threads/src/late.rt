//! A client that for a while does not take its replies.

ghost use Rattle.std.specs.Prelude.{◌≡◌};

use crate::client::{Fates, Hears};
use crate::story::{Comes, Shows, Story, holds_of};
use crate::teller::{Client, check_over, client_of};
use backing::{Answer, Call, Calls, Shared};
use engine::{LinkOut, Sent, SessionEnd};
use std::alloc::{AllocError, Global};
use std::sync::atomic::{AtomicU32, Ordering};
use std::sync::{Arc, Wait};
use std::test::Fail;
use std::thread;
use wire::Operation::Lookup;

/// How often the client polls before it gives up.
const LOOKS: u32 = 10_000_000;

/// How many calls it waits for: one per entry.
const CALLS: u32 = 4;

/// A handle to a tree that counts its calls together with those of the other handles.
#[derive(Drop)]
struct Counted<H: Wait + Drop> {
    tree: Shared<H>,
    calls: Arc<AtomicU32>,
}

impl<H: Wait + Drop> Calls for Counted<H> {
    ghost use Rattle.backing.specs.KnownTreeLemmas.{shared_counts};
    ghost use Rattle.backing.specs.SharedTree.{Shows};

    ghost gives = { λ old call answer new. Shows old.tree call answer new.tree };

    ghost faults = { λ counted. counted.tree };

    ghost counts = { λ old new call answer shown. shared_counts old.tree new.tree call answer shown };

    fn call(&mut self, call: Call<'_>) -> Answer {
        self.calls.fetch_add(1, Ordering::SeqCst);
        self.tree.call(call)
    }
}

/// Takes its first reply only when all calls have been made.
#[derive(Drop)]
struct Late<H: Wait + Drop> {
    hears: Hears<H>,
    calls: Arc<AtomicU32>,
    /// 1 if they had been made when the first reply was taken, otherwise 0.
    were_made: Arc<AtomicU32>,
}

/// Waits until the calls have been made.
fn wait_for(calls: &AtomicU32, were_made: &AtomicU32) {
    for _look in 0..LOOKS {
        if calls.load(Ordering::SeqCst) >= CALLS {
            were_made.store(1, Ordering::SeqCst);
            return;
        }
        thread::yield_now();
    }
}

impl<H: Wait + Drop> LinkOut for Late<H> {
    ghost use Rattle.engine.specs.Links.{counted, missed};

    ghost sends = { λ old _ sent new. new.hears.failures ≡ counted old.hears.failures (missed sent) };

    ghost failed_sends = { λ link. link.hears.failures };

    ghost counts_sends = { λ _ _ _ _ counts. counts };

    fn send(&mut self, frame: &[u8]) -> Sent {
        if self.were_made.load(Ordering::SeqCst) == 0 {
            wait_for(&self.calls, &self.were_made);
        }
        self.hears.send(frame)
    }
}

fn counting<H: Wait + Drop>(
    alloc: Global,
    holds: Vec<Shared<H>>,
    calls: &Arc<AtomicU32>,
) -> Result<Vec<Counted<H>>, AllocError> {
    let mut trees = Vec::new(alloc);
    for tree in holds {
        trees.push(Counted {
            tree,
            calls: Arc::try_clone(calls)?,
        })?;
    }
    Ok(trees)
}

const FOUR: Story = Story {
    says: "four entries while the reply to INIT is not taken",
    workers: 2,
    comes: Comes::Alone,
    asks: &[
        (1, Lookup { name: b"a" }),
        (1, Lookup { name: b"a" }),
        (1, Lookup { name: b"a" }),
        (1, Lookup { name: b"a" }),
    ],
    rest: &[],
    fates: Fates::Taken,
    end: SessionEnd::Closed { rest: 0 },
    offers: 5,
    last: 0,
    taken: 5,
    births: Some(1),
    totals: Some((4, 0, 0)),
    shows: Shows::File,
};

// The thread that offers the reply to INIT is blocked until the other thread has read the later requests and made their
// calls.
#[test]
fn a_link_that_is_full_stops_no_work(rt: HostRuntime) -> Result<(), Fail> {
    let calls = Arc::new(rt.alloc(), AtomicU32::new(0))?;
    let were_made = Arc::new(rt.alloc(), AtomicU32::new(0))?;
    let trees = counting(rt.alloc(), holds_of(&rt, rt.alloc(), FOUR.workers)?, &calls)?;
    let Client { asks, hears, heard } = client_of(&rt, rt.alloc(), &FOUR)?;
    let late = Late {
        hears,
        calls: Arc::try_clone(&calls)?,
        were_made: Arc::try_clone(&were_made)?,
    };
    let client = Client {
        asks,
        hears: late,
        heard,
    };
    check_over(&rt, rt.alloc(), &FOUR, client, trees)?;
    assert_eq!(rt; were_made.load(Ordering::SeqCst), 1);
    Ok(())
}
