//! Free counts: the period ends before a call for which it has no room.

use crate::story::Asks::{Name, Node};
use crate::story::Posted::{Back, Born, Entry, Forget, Opening};
use crate::story::Spot::At;
use crate::story::Told::{Amount, Ended, Given, Go, Refused, Settled};
use crate::story::{DEFAULT, Living, Outcome, ROOT, Reply, Step, Story, Sum, TOP};
use crate::teller::run;
use errno::ENFILE;
use std::test::Fail;
use table::{Counts, Limits};

/// Three nodes, and six postings in a period.
const SIX: Limits = Limits {
    nodes: 3,
    postings: 6,
    counts: Counts::Free,
    ..DEFAULT
};

/// Two nodes, and five postings.
const FIVE: Limits = Limits {
    nodes: 2,
    postings: 5,
    counts: Counts::Free,
    ..DEFAULT
};

/// Three nodes, and five postings.
const TOO_FEW: Limits = Limits { nodes: 3, ..FIVE };

/// A name is looked up more often than a period has postings. The lookup that would need a seventh ends the period.
const LOOKED_UP: Story = Story {
    limits: SIX,
    steps: &[
        Step::LookUp(ROOT, "a", Given(2, 0)),
        Step::LookUp(ROOT, "a", Given(2, 0)),
        Step::LookUp(ROOT, "a", Given(2, 0)),
        Step::Ledger(&[Born(2, 0), Entry(2, 0), Entry(2, 0), Entry(2, 0)]),
        Step::LookUp(ROOT, "a", Given(2, 0)),
        Step::Ledger(&[Opening(2, 0, 3), Entry(2, 0)]),
        Step::Forget(2, 1, Amount(1)),
        Step::Forget(2, 1, Amount(1)),
        Step::Forget(2, 1, Amount(1)),
        Step::Forget(2, 9, Amount(1)),
        Step::Nodes(&[TOP]),
        Step::LookUp(ROOT, "e", Given(2, 1)),
        Step::Ledger(&[Born(2, 1), Entry(2, 1)]),
    ],
    gathers: Sum::All(2, 5, 0, 4),
};

/// Counts are forgotten one by one, and the last forget ends the period.
const FORGOTTEN: Story = Story {
    limits: FIVE,
    steps: &[
        Step::LookUp(ROOT, "a", Given(2, 0)),
        Step::LookUp(ROOT, "a", Given(2, 0)),
        Step::LookUp(ROOT, "a", Given(2, 0)),
        Step::Forget(2, 1, Amount(1)),
        Step::Forget(2, 1, Amount(1)),
        Step::LookUp(ROOT, "a", Given(2, 0)),
        Step::LookUp(ROOT, "a", Given(2, 0)),
        Step::Ledger(&[Opening(2, 0, 1), Entry(2, 0), Entry(2, 0)]),
        Step::Forget(2, 1, Amount(1)),
        Step::Forget(2, 1, Amount(1)),
        Step::Forget(2, 1, Amount(1)),
        Step::Ledger(&[Opening(2, 0, 1), Forget(2, 0, 1)]),
        Step::Nodes(&[TOP]),
    ],
    gathers: Sum::All(1, 5, 0, 5),
};

/// An entry whose reply was not taken is given back in a period that begins for it.
const UNTAKEN: Story = Story {
    limits: SIX,
    steps: &[
        Step::Begin(1, Name(ROOT, "a"), Go),
        Step::Finish(1, Outcome::Entry, Given(2, 0)),
        Step::LookUp(ROOT, "a", Given(2, 0)),
        Step::LookUp(ROOT, "a", Given(2, 0)),
        Step::Forget(2, 1, Amount(1)),
        Step::Forget(2, 1, Amount(1)),
        Step::Settle(1, Reply::Untaken, Settled(1)),
        Step::Ledger(&[Opening(2, 0, 1), Back(2, 0)]),
        Step::Nodes(&[TOP]),
    ],
    gathers: Sum::All(1, 3, 1, 2),
};

/// A node that a request pins is carried over with count 0 while the request is in progress.
const PINNED: Story = Story {
    limits: SIX,
    steps: &[
        Step::LookUp(ROOT, "a", Given(2, 0)),
        Step::Begin(1, Node(2), Go),
        Step::Forget(2, 1, Amount(1)),
        Step::LookUp(ROOT, "e", Given(3, 0)),
        Step::LookUp(ROOT, "e", Given(3, 0)),
        Step::Ledger(&[Opening(2, 0, 0), Opening(3, 0, 1), Entry(3, 0)]),
        Step::Finish(1, Outcome::Done, Ended),
        Step::Settle(1, Reply::Taken, Settled(0)),
        Step::Nodes(&[TOP, Living(3, 0, At(ROOT, "e"), 2)]),
    ],
    gathers: Sum::All(2, 3, 0, 1),
};

/// If a period that has just begun would not have room for all nodes and for what is promised, the request is refused.
const REFUSED: Story = Story {
    limits: TOO_FEW,
    steps: &[
        Step::Begin(1, Name(ROOT, "a"), Refused(ENFILE)),
        Step::Begin(1, Node(ROOT), Go),
    ],
    gathers: Sum::All(0, 0, 0, 0),
};

#[test]
fn periods_end_for_want_of_room(rt: HostRuntime) -> Result<(), Fail> {
    for story in [&LOOKED_UP, &FORGOTTEN, &UNTAKEN, &PINNED, &REFUSED] {
        run(&rt, story)?;
    }
    Ok(())
}
