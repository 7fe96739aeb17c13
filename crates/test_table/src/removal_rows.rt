//! Removals of names.

use crate::story::Asks::{Name, Node, Remove};
use crate::story::Posted::{Born, Entry, Forget};
use crate::story::Spot::{At, Cut};
use crate::story::Told::{Amount, Ended, Given, Go, Refused, Settled};
use crate::story::{DEFAULT, Flying, Holding, Living, Outcome, ROOT, Reply, Step, Story, Sum, TOP};
use crate::teller::run;
use errno::ESTALE;
use std::test::Fail;
use table_image::ImageStage::{Answered, Working};

/// The folder `d` is node 2, and `x` in it is node 3.
const KNOWN: &[Living] = &[
    TOP,
    Living(2, 0, At(ROOT, "d"), 1),
    Living(3, 0, At(2, "x"), 1),
];

/// A removed folder is cut with what is in it, and its nodes stay alive until they are forgotten.
const FOLDER: Story = Story {
    limits: DEFAULT,
    steps: &[
        Step::LookUp(ROOT, "d", Given(2, 0)),
        Step::LookUp(2, "x", Given(3, 0)),
        Step::Begin(1, Remove(ROOT, "d"), Go),
        Step::Paths(1, &["d"]),
        Step::Holds(&[Holding("d", 0, 1)]),
        Step::Nodes(KNOWN),
        Step::Requests(&[Flying(1, Working, &[1, 2])]),
        Step::Finish(1, Outcome::Done, Ended),
        Step::Nodes(&[TOP, Living(2, 0, Cut, 1), Living(3, 0, Cut, 1)]),
        Step::Ledger(&[Born(2, 0), Entry(2, 0), Born(3, 0), Entry(3, 0)]),
        Step::Begin(2, Node(3), Refused(ESTALE)),
        Step::Begin(2, Node(2), Refused(ESTALE)),
        Step::Begin(2, Name(2, "x"), Refused(ESTALE)),
        Step::Begin(2, Remove(2, "x"), Refused(ESTALE)),
        Step::Nodes(&[TOP, Living(2, 0, Cut, 1), Living(3, 0, Cut, 1)]),
        Step::Requests(&[Flying(1, Answered, &[1, 2])]),
        Step::Holds(&[]),
        Step::Settle(1, Reply::Taken, Settled(0)),
        Step::Requests(&[]),
        Step::Forget(2, 1, Amount(1)),
        Step::Nodes(&[TOP, Living(3, 0, Cut, 1)]),
        Step::Forget(3, 1, Amount(1)),
        Step::Nodes(&[TOP]),
        Step::Ledger(&[
            Born(2, 0),
            Entry(2, 0),
            Born(3, 0),
            Entry(3, 0),
            Forget(2, 0, 1),
            Forget(3, 0, 1),
        ]),
    ],
    gathers: Sum::All(2, 2, 0, 2),
};

#[test]
fn removed_folder(rt: HostRuntime) -> Result<(), Fail> {
    run(&rt, &FOLDER)
}

/// If the name has no node, its removal changes none.
const OF_NOTHING: Story = Story {
    limits: DEFAULT,
    steps: &[
        Step::LookUp(ROOT, "d", Given(2, 0)),
        Step::LookUp(2, "x", Given(3, 0)),
        Step::Begin(1, Remove(ROOT, "x"), Go),
        Step::Nodes(KNOWN),
        Step::Finish(1, Outcome::Done, Ended),
        Step::Nodes(KNOWN),
        Step::Settle(1, Reply::Untaken, Settled(0)),
        Step::Nodes(KNOWN),
        Step::Requests(&[]),
    ],
    gathers: Sum::All(2, 2, 0, 0),
};

#[test]
fn removal_of_nothing(rt: HostRuntime) -> Result<(), Fail> {
    run(&rt, &OF_NOTHING)
}

/// A removal that failed removes nothing.
const FAILED: Story = Story {
    limits: DEFAULT,
    steps: &[
        Step::LookUp(ROOT, "d", Given(2, 0)),
        Step::LookUp(2, "x", Given(3, 0)),
        Step::Begin(1, Remove(ROOT, "d"), Go),
        Step::Finish(1, Outcome::Failed, Ended),
        Step::Nodes(KNOWN),
        Step::Settle(1, Reply::Taken, Settled(0)),
        Step::Nodes(KNOWN),
        Step::Requests(&[]),
        Step::LookUp(ROOT, "d", Given(2, 0)),
        Step::Begin(2, Node(3), Go),
        Step::Finish(2, Outcome::Failed, Ended),
    ],
    gathers: Sum::All(2, 3, 0, 0),
};

/// An outcome that does not fit a removal removes nothing.
const MISFIT: Story = Story {
    limits: DEFAULT,
    steps: &[
        Step::LookUp(ROOT, "d", Given(2, 0)),
        Step::LookUp(2, "x", Given(3, 0)),
        Step::Begin(1, Remove(ROOT, "d"), Go),
        Step::Finish(1, Outcome::Entry, Ended),
        Step::Nodes(KNOWN),
        Step::Settle(1, Reply::Taken, Settled(0)),
        Step::Nodes(KNOWN),
        Step::Requests(&[]),
        Step::LookUp(ROOT, "d", Given(2, 0)),
        Step::Begin(2, Node(3), Go),
        Step::Finish(2, Outcome::Entry, Ended),
    ],
    gathers: Sum::All(2, 3, 0, 0),
};

/// A removal without candidates hides nothing, whatever its outcome, and neither does a request for a node.
const UNHIDDEN: Story = Story {
    limits: DEFAULT,
    steps: &[
        Step::LookUp(ROOT, "d", Given(2, 0)),
        Step::LookUp(2, "x", Given(3, 0)),
        Step::Begin(1, Remove(ROOT, "d"), Go),
        Step::Finish(1, Outcome::Hidden(0), Ended),
        Step::Nodes(KNOWN),
        Step::Settle(1, Reply::Taken, Settled(0)),
        Step::Begin(2, Remove(ROOT, "d"), Go),
        Step::Finish(2, Outcome::HiddenMove(9, true), Ended),
        Step::Nodes(KNOWN),
        Step::Settle(2, Reply::Taken, Settled(0)),
        Step::Begin(3, Node(3), Go),
        Step::Finish(3, Outcome::Hidden(0), Ended),
        Step::Nodes(KNOWN),
        Step::Settle(3, Reply::Taken, Settled(0)),
        Step::Requests(&[]),
    ],
    gathers: Sum::All(2, 2, 0, 0),
};

#[test]
fn nothing_hidden_without_candidates(rt: HostRuntime) -> Result<(), Fail> {
    run(&rt, &UNHIDDEN)
}

#[test]
fn removal_failed(rt: HostRuntime) -> Result<(), Fail> {
    run(&rt, &FAILED)
}

#[test]
fn removal_misfit(rt: HostRuntime) -> Result<(), Fail> {
    run(&rt, &MISFIT)
}

/// The removal that cuts node 2 keeps it alive until it is settled.
const PINNED_BY_REMOVAL: Story = Story {
    limits: DEFAULT,
    steps: &[
        Step::LookUp(ROOT, "a", Given(2, 0)),
        Step::Begin(1, Remove(ROOT, "a"), Go),
        Step::Forget(2, 1, Amount(1)),
        Step::Nodes(&[TOP, Living(2, 0, At(ROOT, "a"), 0)]),
        Step::Finish(1, Outcome::Done, Ended),
        Step::Nodes(&[TOP, Living(2, 0, Cut, 0)]),
        Step::Settle(1, Reply::Taken, Settled(0)),
        Step::Nodes(&[TOP]),
    ],
    gathers: Sum::All(1, 1, 0, 1),
};

/// Its count keeps node 2 alive after its removal is settled.
const KEPT_BY_COUNT: Story = Story {
    limits: DEFAULT,
    steps: &[
        Step::LookUp(ROOT, "a", Given(2, 0)),
        Step::Begin(1, Remove(ROOT, "a"), Go),
        Step::Finish(1, Outcome::Done, Ended),
        Step::Settle(1, Reply::Taken, Settled(0)),
        Step::Nodes(&[TOP, Living(2, 0, Cut, 1)]),
        Step::Forget(2, 1, Amount(1)),
        Step::Nodes(&[TOP]),
    ],
    gathers: Sum::All(1, 1, 0, 1),
};

/// A request for node 2 keeps it alive when it was cut and forgotten, and its removal settled.
const PINNED_BY_NODE: Story = Story {
    limits: DEFAULT,
    steps: &[
        Step::LookUp(ROOT, "a", Given(2, 0)),
        Step::Begin(1, Node(2), Go),
        Step::Finish(1, Outcome::Done, Ended),
        Step::Begin(2, Remove(ROOT, "a"), Go),
        Step::Finish(2, Outcome::Done, Ended),
        Step::Settle(2, Reply::Taken, Settled(0)),
        Step::Forget(2, 1, Amount(1)),
        Step::Nodes(&[TOP, Living(2, 0, Cut, 0)]),
        Step::Requests(&[Flying(1, Answered, &[2])]),
        Step::Settle(1, Reply::Taken, Settled(0)),
        Step::Nodes(&[TOP]),
    ],
    gathers: Sum::All(1, 1, 0, 1),
};

#[test]
fn pinned_until_settled(rt: HostRuntime) -> Result<(), Fail> {
    for story in [&PINNED_BY_REMOVAL, &KEPT_BY_COUNT, &PINNED_BY_NODE] {
        run(&rt, story)?;
    }
    Ok(())
}
