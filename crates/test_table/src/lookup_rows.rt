//! Names that are looked up, forgotten, and given back.

use crate::story::Asks::Name;
use crate::story::Posted::{Back, Born, Entry, Forget};
use crate::story::Spot::At;
use crate::story::Told::{Amount, Given, Go, Settled};
use crate::story::{DEFAULT, Living, Outcome, ROOT, Reply, Step, Story, Sum, TOP};
use crate::teller::run;
use std::test::Fail;

/// A name is looked up, and its reply is taken.
const FRESH: Story = Story {
    limits: DEFAULT,
    steps: &[
        Step::Begin(7, Name(ROOT, "a"), Go),
        Step::Finish(7, Outcome::Entry, Given(2, 0)),
        Step::Settle(7, Reply::Taken, Settled(1)),
        Step::Nodes(&[TOP, Living(2, 0, At(ROOT, "a"), 1)]),
        Step::Ledger(&[Born(2, 0), Entry(2, 0)]),
        Step::Requests(&[]),
    ],
    gathers: Sum::All(1, 1, 0, 0),
};

#[test]
fn fresh_lookup(rt: HostRuntime) -> Result<(), Fail> {
    run(&rt, &FRESH)
}

/// A FORGET of more than the count takes the whole count: the node is dropped, and its number is born again.
const ABOVE_COUNT: Story = Story {
    limits: DEFAULT,
    steps: &[
        Step::LookUp(ROOT, "a", Given(2, 0)),
        Step::LookUp(ROOT, "a", Given(2, 0)),
        Step::Forget(2, 5, Amount(2)),
        Step::Ledger(&[Born(2, 0), Entry(2, 0), Entry(2, 0), Forget(2, 0, 2)]),
        Step::Nodes(&[TOP]),
        Step::LookUp(ROOT, "e", Given(2, 1)),
        Step::Nodes(&[TOP, Living(2, 1, At(ROOT, "e"), 1)]),
    ],
    gathers: Sum::All(2, 3, 0, 2),
};

#[test]
fn forget_above_count(rt: HostRuntime) -> Result<(), Fail> {
    run(&rt, &ABOVE_COUNT)
}

/// Forgetting lookups of an unknown number, of the root, or no lookups, takes nothing.
const IN_PIECES: Story = Story {
    limits: DEFAULT,
    steps: &[
        Step::LookUp(ROOT, "a", Given(2, 0)),
        Step::LookUp(ROOT, "a", Given(2, 0)),
        Step::LookUp(ROOT, "a", Given(2, 0)),
        Step::Forget(2, 0, Amount(0)),
        Step::Forget(2, 1, Amount(1)),
        Step::Forget(9, 1, Amount(0)),
        Step::Forget(ROOT, 9, Amount(0)),
        Step::Nodes(&[TOP, Living(2, 0, At(ROOT, "a"), 2)]),
        Step::Forget(2, u64::MAX, Amount(2)),
        Step::Forget(2, 1, Amount(0)),
        Step::Nodes(&[TOP]),
        Step::Ledger(&[
            Born(2, 0),
            Entry(2, 0),
            Entry(2, 0),
            Entry(2, 0),
            Forget(2, 0, 1),
            Forget(2, 0, 2),
        ]),
    ],
    gathers: Sum::All(1, 3, 0, 3),
};

#[test]
fn forget_in_pieces(rt: HostRuntime) -> Result<(), Fail> {
    run(&rt, &IN_PIECES)
}

/// The client did not take the reply.
const UNTAKEN: Story = Story {
    limits: DEFAULT,
    steps: &[
        Step::Begin(7, Name(ROOT, "a"), Go),
        Step::Finish(7, Outcome::Entry, Given(2, 0)),
        Step::Settle(7, Reply::Untaken, Settled(1)),
        Step::Ledger(&[Born(2, 0), Entry(2, 0), Back(2, 0)]),
        Step::Nodes(&[TOP]),
        Step::Requests(&[]),
        Step::LookUp(ROOT, "a", Given(2, 1)),
    ],
    gathers: Sum::All(2, 2, 1, 0),
};

#[test]
fn untaken_lookup(rt: HostRuntime) -> Result<(), Fail> {
    run(&rt, &UNTAKEN)
}

/// The entry is forgotten before its reply is found to be untaken: the settle posts nothing. Until then the request
/// pins node 2, so that its number is not used again.
const FORGOTTEN_FIRST: Story = Story {
    limits: DEFAULT,
    steps: &[
        Step::Begin(1, Name(ROOT, "a"), Go),
        Step::Finish(1, Outcome::Entry, Given(2, 0)),
        Step::Forget(2, 1, Amount(1)),
        Step::Ledger(&[Born(2, 0), Entry(2, 0), Forget(2, 0, 1)]),
        Step::Nodes(&[TOP, Living(2, 0, At(ROOT, "a"), 0)]),
        Step::LookUp(ROOT, "e", Given(3, 0)),
        Step::Settle(1, Reply::Untaken, Settled(1)),
        Step::Ledger(&[
            Born(2, 0),
            Entry(2, 0),
            Forget(2, 0, 1),
            Born(3, 0),
            Entry(3, 0),
        ]),
        Step::Nodes(&[TOP, Living(3, 0, At(ROOT, "e"), 1)]),
        Step::LookUp(ROOT, "a", Given(2, 1)),
    ],
    gathers: Sum::All(3, 3, 0, 1),
};

#[test]
fn forget_before_settle(rt: HostRuntime) -> Result<(), Fail> {
    run(&rt, &FORGOTTEN_FIRST)
}
