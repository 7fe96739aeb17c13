//! Numbers that requests in flight pin. Small ones are counted in a list, which is made longer as numbers rise; the
//! pins of others are loose.

use std::alloc::{AllocError, Global};
use std::hash::RandomState;
use std::test::Fail;
use table_requests::{Pins, RequestInFlight, RequestsInFlight, Stage};

/// The least number for which the list is never made longer.
const LOOSE: u64 = 1 << 28;

/// Numbers that the list never reaches.
const FAR: &[u64] = &[LOOSE, 1 << 40, u64::MAX];

enum Step<'a> {
    /// One more request is in flight, with these pins. The first one has the id 0, the next one 1.
    Add(&'a [u64]),
    /// The request with this id is removed.
    Take(u64),
    /// All of these are pinned.
    Pinned(&'a [u64]),
    /// None of these is pinned.
    Free(&'a [u64]),
}

fn pins_of(alloc: Global, numbers: &[u64]) -> Result<Pins, AllocError> {
    let mut pins = Pins::with_capacity(alloc, numbers.len())?;
    for number in numbers {
        pins.add(*number);
    }
    Ok(pins)
}

/// Adds an answered request with these pins.
fn add(alloc: Global, requests: &mut RequestsInFlight, numbers: &[u64]) -> Result<(), AllocError> {
    let pins = pins_of(alloc, numbers)?;
    requests.reserve()?;
    let id = requests.free_id();
    let _promised = requests.promised(); // proof: what is promised is within 64 bits
    let before = numbers.len();
    requests.add(RequestInFlight {
        id,
        unique: id,
        stage: Stage::Answered {
            before,
            opened: None,
        },
        pins,
    })
}

/// Whether each of the numbers is pinned, or none is.
fn are_all(requests: &RequestsInFlight, numbers: &[u64], pinned: bool) -> bool {
    for number in numbers {
        if requests.pins(*number) != pinned {
            return false;
        }
    }
    true
}

/// Whether the step has the right result.
fn holds(alloc: Global, requests: &mut RequestsInFlight, step: &Step) -> Result<bool, AllocError> {
    match *step {
        Step::Add(numbers) => {
            add(alloc, requests, numbers)?;
            Ok(true)
        }
        Step::Take(id) => Ok(requests.take(id).is_some()),
        Step::Pinned(numbers) => Ok(are_all(requests, numbers, true)),
        Step::Free(numbers) => Ok(are_all(requests, numbers, false)),
    }
}

/// Fails at the first step with a wrong result.
fn tell(alloc: Global, requests: &mut RequestsInFlight, steps: &[Step]) -> Result<(), Fail> {
    for (place, step) in steps.iter().enumerate() {
        if !holds(alloc, requests, step)? {
            return Err(Fail::from(("another answer at the step", place)));
        }
    }
    Ok(())
}

fn run(rt: &HostRuntime, steps: &[Step]) -> Result<(), Fail> {
    let mut requests = RequestsInFlight::new(rt.alloc(), RandomState::new(rt)?);
    tell(rt.alloc(), &mut requests, steps)
}

/// Two requests pin the number 1, one of them twice.
const COUNTED: &[Step] = &[
    Step::Free(&[0, 1, 2]),
    Step::Add(&[1, 0, 1]),
    Step::Add(&[1, 2]),
    Step::Pinned(&[0, 1, 2]),
    Step::Free(&[3, 1025, 4_000]),
    Step::Take(0),
    Step::Pinned(&[1, 2]),
    Step::Free(&[0]),
    Step::Take(1),
    Step::Free(&[0, 1, 2]),
];

const BEYOND: &[Step] = &[
    Step::Add(FAR),
    Step::Pinned(FAR),
    Step::Free(&[1, LOOSE - 1, LOOSE + 1, u64::MAX - 1]),
    Step::Add(&[1, LOOSE, LOOSE]),
    Step::Take(0),
    Step::Pinned(&[1, LOOSE]),
    Step::Free(&[1 << 40, u64::MAX]),
    Step::Take(1),
    Step::Free(FAR),
];

/// The list reaches 3,000 for the second request, but not for the first. The first is removed before the second.
const FIRST_GOES: &[Step] = &[
    Step::Add(&[3_000]),
    Step::Pinned(&[3_000]),
    Step::Add(&[3_000]),
    Step::Take(0),
    Step::Pinned(&[3_000]),
    Step::Free(&[2_999]),
    Step::Take(1),
    Step::Free(&[3_000]),
];

/// The same, but the second is removed before the first, and the list is made longer once more.
const SECOND_GOES: &[Step] = &[
    Step::Add(&[3_000]),
    Step::Add(&[3_000]),
    Step::Take(1),
    Step::Pinned(&[3_000]),
    Step::Add(&[20_000]),
    Step::Add(&[20_000, 3_000]),
    Step::Pinned(&[3_000, 20_000]),
    Step::Take(2),
    Step::Take(0),
    Step::Pinned(&[3_000, 20_000]),
    Step::Take(3),
    Step::Free(&[3_000, 20_000]),
];

#[test]
fn numbers_are_pinned_until_all_requests_went(rt: HostRuntime) -> Result<(), Fail> {
    for steps in &[COUNTED, BEYOND, FIRST_GOES, SECOND_GOES] {
        run(&rt, steps)?;
    }
    Ok(())
}

/// A thousand requests, each with a loose pin and a counted one; every other request is removed.
fn halve(alloc: Global, requests: &mut RequestsInFlight) -> Result<(), AllocError> {
    for i in 0..1_000 {
        add(alloc, requests, &[LOOSE + i, i])?;
    }
    for i in 0..500 {
        requests.take(2 * i);
    }
    Ok(())
}

/// Fails at the first request whose pins are not as they should be.
fn expect_halved(requests: &RequestsInFlight) -> Result<(), Fail> {
    for i in 0..1_000 {
        let pinned = i % 2 == 1;
        if requests.pins(LOOSE + i) != pinned || requests.pins(i) != pinned {
            return Err(Fail::from(("pinned otherwise", i)));
        }
    }
    Ok(())
}

#[test]
fn many_pins_are_loose(rt: HostRuntime) -> Result<(), Fail> {
    let mut requests = RequestsInFlight::new(rt.alloc(), RandomState::new(&rt)?);
    halve(rt.alloc(), &mut requests)?;
    expect_halved(&requests)
}
