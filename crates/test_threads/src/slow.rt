//! A client that takes its replies slowly, while there are more replies than the reply queue has room for.

ghost use Rattle.std.specs.Prelude.{◌≡◌};

use crate::client::{Fates, Hears};
use crate::story::{Comes, Shows, Story, holds_of};
use crate::teller::{Client, check_over, client_of};
use engine::{LinkOut, Sent, SessionEnd};
use std::alloc::{AllocError, Global};
use std::sync::Wait;
use std::test::Fail;
use std::thread;
use std::time::{Clock, Duration};
use wire::Operation::Lookup;

/// How many microseconds it takes to take a reply.
const SLOW: u64 = 100;

/// Takes each reply after a while.
#[derive(Drop)]
struct Slow<H: Wait + Clock + Drop> {
    hears: Hears<H>,
    clock: H,
}

impl<H: Wait + Clock + Drop> LinkOut for Slow<H> {
    ghost use Rattle.engine.specs.Links.{counted, missed};

    ghost sends = { λ old _ sent new. new.hears.failures ≡ counted old.hears.failures (missed sent) };

    ghost failed_sends = { λ link. link.hears.failures };

    ghost counts_sends = { λ _ _ _ _ counts. counts };

    fn send(&mut self, frame: &[u8]) -> Sent {
        thread::sleep(&self.clock, Duration::from_micros(SLOW));
        self.hears.send(frame)
    }
}

/// The client of a story that takes replies slowly.
fn slow_client<H: Wait + Clock + Clone + Drop>(
    rt: &H,
    alloc: Global,
    story: &Story<'_>,
) -> Result<Client<H, Slow<H>>, AllocError> {
    let Client { asks, hears, heard } = client_of(rt, alloc, story)?;
    let Ok(clock) = rt.clone() else {
        return Err(AllocError);
    };
    Ok(Client {
        asks,
        hears: Slow { hears, clock },
        heard,
    })
}

const MANY: Story = Story {
    says: "a hundred entries whose replies are taken slowly",
    workers: 4,
    comes: Comes::Together,
    asks: &[(1, Lookup { name: b"a" }); 100],
    rest: &[],
    fates: Fates::Taken,
    end: SessionEnd::Closed { rest: 0 },
    offers: 101,
    last: 0,
    taken: 101,
    births: Some(1),
    totals: Some((100, 0, 0)),
    shows: Shows::File,
};

#[test]
fn one_worker_and_a_hundred_at_once(rt: HostRuntime) -> Result<(), Fail> {
    let one = Story {
        says: "a hundred entries at once by one worker",
        workers: 1,
        ..MANY
    };
    let trees = holds_of(&rt, rt.alloc(), 1)?;
    check_over(
        &rt,
        rt.alloc(),
        &one,
        slow_client(&rt, rt.alloc(), &one)?,
        trees,
    )
}

// If all threads waited for room in the reply queue, none would be left to offer replies to the client.
#[test]
fn more_replies_than_places(rt: HostRuntime) -> Result<(), Fail> {
    for _ in 0..5 {
        let trees = holds_of(&rt, rt.alloc(), MANY.workers)?;
        let client = slow_client(&rt, rt.alloc(), &MANY)?;
        check_over(&rt, rt.alloc(), &MANY, client, trees)?;
    }
    Ok(())
}
