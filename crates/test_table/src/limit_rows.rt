//! Requests that are refused because of a limit, right at the limit.

use crate::story::Asks::{Move, Name, Node, Remove};
use crate::story::Told::{Amount, Ended, Given, Go, NotGiven, Refused, Settled};
use crate::story::{DEFAULT, Outcome, ROOT, Reply, Step, Story, Sum};
use crate::teller::run;
use errno::{EAGAIN, ENFILE};
use std::alloc::{AllocError, Global};
use std::test::Fail;
use table::Limits;

#[test]
fn default_limits(rt: HostRuntime) {
    assert_eq!(rt; Limits::default(), DEFAULT);
}

/// With the root and `a` there are as many nodes as there may be.
const NODES: Story = Story {
    limits: Limits {
        nodes: 2,
        ..DEFAULT
    },
    steps: &[
        Step::LookUp(ROOT, "a", Given(2, 0)),
        Step::Begin(1, Name(ROOT, "e"), Refused(ENFILE)),
        Step::Begin(1, Name(ROOT, "zz"), Refused(ENFILE)),
        Step::Begin(1, Node(2), Go),
        Step::Finish(1, Outcome::Done, Ended),
        Step::Settle(1, Reply::Taken, Settled(0)),
        Step::Begin(2, Remove(ROOT, "b"), Go),
        Step::Begin(3, Move(ROOT, "c", ROOT, "d"), Go),
        Step::LookUp(ROOT, "a", Given(2, 0)),
        Step::Forget(2, 2, Amount(2)),
        Step::LookUp(ROOT, "e", Given(2, 1)),
    ],
    gathers: Sum::All(2, 3, 0, 2),
};

#[test]
fn node_limit(rt: HostRuntime) -> Result<(), Fail> {
    run(&rt, &NODES)
}

/// Each LOOKUP that begins is promised a node if there is none, even if two are for the same name.
const PROMISED_NODES: Story = Story {
    limits: Limits {
        nodes: 3,
        ..DEFAULT
    },
    steps: &[
        Step::Begin(1, Name(ROOT, "a"), Go),
        Step::Begin(2, Name(ROOT, "a"), Go),
        Step::Begin(3, Name(ROOT, "a"), Refused(ENFILE)),
        Step::Begin(3, Name(ROOT, "e"), Refused(ENFILE)),
        Step::Finish(1, Outcome::Entry, Given(2, 0)),
        Step::Begin(3, Name(ROOT, "a"), Go),
        Step::Begin(4, Name(ROOT, "e"), Refused(ENFILE)),
        Step::Finish(2, Outcome::Failed, NotGiven),
        Step::Begin(4, Name(ROOT, "e"), Go),
        Step::Finish(4, Outcome::Entry, Given(3, 0)),
        Step::Begin(5, Name(ROOT, "zz"), Refused(ENFILE)),
    ],
    gathers: Sum::All(2, 2, 0, 0),
};

#[test]
fn node_promised(rt: HostRuntime) -> Result<(), Fail> {
    run(&rt, &PROMISED_NODES)
}

/// Four postings were made, and an entry needs three.
const POSTINGS: Story = Story {
    limits: Limits {
        postings: 6,
        ..DEFAULT
    },
    steps: &[
        Step::LookUp(ROOT, "a", Given(2, 0)),
        Step::LookUp(ROOT, "a", Given(2, 0)),
        Step::Forget(2, 2, Amount(2)),
        Step::Begin(1, Name(ROOT, "e"), Refused(ENFILE)),
        Step::Begin(1, Name(ROOT, "a"), Refused(ENFILE)),
        Step::Begin(1, Remove(ROOT, "a"), Go),
    ],
    gathers: Sum::All(1, 2, 0, 2),
};

/// One posting more is enough.
const ENOUGH_POSTINGS: Story = Story {
    limits: Limits {
        postings: 7,
        ..DEFAULT
    },
    steps: &[
        Step::LookUp(ROOT, "a", Given(2, 0)),
        Step::LookUp(ROOT, "a", Given(2, 0)),
        Step::Forget(2, 2, Amount(2)),
        Step::LookUp(ROOT, "e", Given(2, 1)),
    ],
    gathers: Sum::All(2, 3, 0, 2),
};

/// Three postings are promised for each entry, and one is kept for each count.
const PROMISED_POSTINGS: Story = Story {
    limits: Limits {
        postings: 6,
        ..DEFAULT
    },
    steps: &[
        Step::Begin(1, Name(ROOT, "a"), Go),
        Step::Begin(2, Name(ROOT, "e"), Go),
        Step::Begin(3, Name(ROOT, "b"), Refused(ENFILE)),
        Step::Finish(1, Outcome::Entry, Given(2, 0)),
        Step::Begin(3, Name(ROOT, "a"), Refused(ENFILE)),
        Step::Finish(2, Outcome::Failed, NotGiven),
        Step::Begin(3, Name(ROOT, "a"), Go),
        Step::Finish(3, Outcome::Entry, Given(2, 0)),
        Step::Forget(2, 1, Amount(1)),
        Step::Forget(2, 1, Amount(1)),
    ],
    gathers: Sum::All(1, 2, 0, 2),
};

/// Two postings are enough for a birth and an entry, but then the entry could not be forgotten.
const TOO_FEW_POSTINGS: Story = Story {
    limits: Limits {
        postings: 2,
        ..DEFAULT
    },
    steps: &[
        Step::Begin(1, Name(ROOT, "a"), Refused(ENFILE)),
        Step::Begin(1, Node(ROOT), Go),
    ],
    gathers: Sum::All(0, 0, 0, 0),
};

#[test]
fn posting_limit(rt: HostRuntime) -> Result<(), Fail> {
    for story in [
        &POSTINGS,
        &ENOUGH_POSTINGS,
        &PROMISED_POSTINGS,
        &TOO_FEW_POSTINGS,
    ] {
        run(&rt, story)?;
    }
    Ok(())
}

/// One request may be in flight, and it is in flight until it is settled.
const FLIGHTS: Story = Story {
    limits: Limits {
        flights: 1,
        ..DEFAULT
    },
    steps: &[
        Step::Begin(1, Name(ROOT, "a"), Go),
        Step::Begin(2, Name(ROOT, "e"), Refused(EAGAIN)),
        Step::Begin(2, Node(ROOT), Refused(EAGAIN)),
        Step::Finish(1, Outcome::Entry, Given(2, 0)),
        Step::Begin(2, Name(ROOT, "e"), Refused(EAGAIN)),
        Step::Settle(1, Reply::Taken, Settled(1)),
        Step::Begin(2, Name(ROOT, "e"), Go),
        Step::Begin(3, Name(ROOT, "a"), Refused(EAGAIN)),
    ],
    gathers: Sum::All(1, 1, 0, 0),
};

#[test]
fn flight_limit(rt: HostRuntime) -> Result<(), Fail> {
    run(&rt, &FLIGHTS)
}

/// What the requests ask for, in turn.
const NAMES: [&str; 4] = ["a", "b", "c", "d"];

/// As many requests at once as may be in flight, with ample memory: 4 births and 64 entries.
fn full_table(alloc: Global) -> Result<Vec<Step<'static>>, AllocError> {
    let mut steps = Vec::new(alloc);
    for request in 0..64u64 {
        let name = NAMES[(request % 4) as usize];
        steps.push(Step::Begin(request, Name(ROOT, name), Go))?;
    }
    steps.push(Step::Begin(64, Name(ROOT, "a"), Refused(EAGAIN)))?;
    for request in 0..64u64 {
        let told = Given(2 + request % 4, 0);
        steps.push(Step::Finish(request, Outcome::Entry, told))?;
    }
    steps.push(Step::Size(5, 68, 64))?;
    Ok(steps)
}

#[test]
fn never_out_of_memory(rt: HostRuntime) -> Result<(), Fail> {
    let steps = full_table(rt.alloc())?;
    let story = Story {
        limits: DEFAULT,
        steps: steps.as_slice(),
        gathers: Sum::All(4, 64, 0, 0),
    };
    run(&rt, &story)
}
