//! Periods that end.

use crate::story::Asks::{Name, Node};
use crate::story::Posted::{Born, Entry, Forget, Opening};
use crate::story::Spot::At;
use crate::story::Told::{Amount, Closed, Ended, Given, Go, Refused, Settled};
use crate::story::{DEFAULT, Living, Outcome, ROOT, Reply, Step, Story, Sum, TOP};
use crate::teller::run;
use errno::ENFILE;
use std::test::Fail;
use table::Limits;

/// In a new table nothing is closed. A number whose node was dropped is born again after a period has ended, just as
/// before.
const GONE: Story = Story {
    limits: DEFAULT,
    steps: &[
        Step::ClosePeriod(Closed(0)),
        Step::LookUp(ROOT, "a", Given(2, 0)),
        Step::LookUp(ROOT, "a", Given(2, 0)),
        Step::Forget(2, 5, Amount(2)),
        Step::ClosePeriod(Closed(4)),
        Step::Ledger(&[]),
        Step::Nodes(&[TOP]),
        Step::ClosePeriod(Closed(0)),
        Step::LookUp(ROOT, "e", Given(2, 1)),
        Step::Ledger(&[Born(2, 1), Entry(2, 1)]),
    ],
    gathers: Sum::All(2, 3, 0, 2),
};

#[test]
fn births_are_kept(rt: HostRuntime) -> Result<(), Fail> {
    run(&rt, &GONE)
}

/// With room for six postings a name can be looked up more often, since periods end.
const SIX: Story = Story {
    limits: Limits {
        postings: 6,
        ..DEFAULT
    },
    steps: &[
        Step::LookUp(ROOT, "a", Given(2, 0)),
        Step::LookUp(ROOT, "a", Given(2, 0)),
        Step::ClosePeriod(Closed(2)),
        Step::Ledger(&[Opening(2, 0, 2)]),
        Step::LookUp(ROOT, "a", Given(2, 0)),
        Step::Ledger(&[Opening(2, 0, 2), Entry(2, 0)]),
        Step::Begin(4, Name(ROOT, "a"), Refused(ENFILE)),
        Step::Forget(2, 3, Amount(3)),
        Step::Ledger(&[Opening(2, 0, 2), Entry(2, 0), Forget(2, 0, 3)]),
        Step::ClosePeriod(Closed(3)),
        Step::Ledger(&[]),
        Step::LookUp(ROOT, "e", Given(2, 1)),
    ],
    gathers: Sum::All(2, 4, 0, 3),
};

#[test]
fn room_comes_back(rt: HostRuntime) -> Result<(), Fail> {
    run(&rt, &SIX)
}

/// A node that is kept alive only by a pin is in the next period with count 0. Two nodes are listed by rising number,
/// whatever the order of their births.
const UNCOUNTED: Story = Story {
    limits: DEFAULT,
    steps: &[
        Step::LookUp(ROOT, "a", Given(2, 0)),
        Step::LookUp(ROOT, "b", Given(3, 0)),
        Step::Forget(2, 1, Amount(1)),
        Step::LookUp(ROOT, "c", Given(2, 1)),
        Step::Begin(1, Node(3), Go),
        Step::Forget(3, 1, Amount(1)),
        Step::ClosePeriod(Closed(6)),
        Step::Ledger(&[Opening(2, 1, 1), Opening(3, 0, 0)]),
        Step::Nodes(&[
            TOP,
            Living(2, 1, At(ROOT, "c"), 1),
            Living(3, 0, At(ROOT, "b"), 0),
        ]),
        Step::LookUp(ROOT, "b", Given(3, 0)),
        Step::Finish(1, Outcome::Done, Ended),
        Step::Settle(1, Reply::Taken, Settled(0)),
        Step::Forget(3, 1, Amount(1)),
        Step::ClosePeriod(Closed(3)),
        Step::Ledger(&[Opening(2, 1, 1)]),
        Step::LookUp(ROOT, "b", Given(3, 1)),
    ],
    gathers: Sum::All(4, 5, 0, 3),
};

#[test]
fn uncounted_nodes_go_on(rt: HostRuntime) -> Result<(), Fail> {
    run(&rt, &UNCOUNTED)
}
