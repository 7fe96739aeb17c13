//! Moves of names.

use crate::story::Asks::{Move, Name, Node};
use crate::story::Posted::{Born, Entry, Forget};
use crate::story::Spot::{At, Cut};
use crate::story::Told::{Amount, Busy, Ended, Given, Go, Refused, Settled};
use crate::story::{DEFAULT, Flying, Holding, Living, Outcome, ROOT, Reply, Step, Story, Sum, TOP};
use crate::teller::run;
use errno::{EINVAL, ENOTEMPTY, ESTALE};
use std::test::Fail;
use table_image::ImageStage::{Answered, Working};

/// The folder `d` is node 2, and `x` in it is node 3.
const KNOWN: &[Living] = &[
    TOP,
    Living(2, 0, At(ROOT, "d"), 1),
    Living(3, 0, At(2, "x"), 1),
];

/// A folder is moved with what is in it. Meanwhile both names are held, although the new one has no node.
const FOLDER: Story = Story {
    limits: DEFAULT,
    steps: &[
        Step::LookUp(ROOT, "d", Given(2, 0)),
        Step::LookUp(2, "x", Given(3, 0)),
        Step::Begin(1, Move(ROOT, "d", ROOT, "f"), Go),
        Step::Paths(1, &["d", "f"]),
        Step::Holds(&[Holding("d", 0, 1), Holding("f", 0, 1)]),
        Step::Begin(2, Node(3), Busy),
        Step::Begin(2, Name(ROOT, "f"), Busy),
        Step::Begin(2, Name(ROOT, "e"), Go),
        Step::Finish(1, Outcome::Done, Ended),
        Step::Nodes(&[
            TOP,
            Living(2, 0, At(ROOT, "f"), 1),
            Living(3, 0, At(2, "x"), 1),
        ]),
        Step::Requests(&[Flying(1, Answered, &[1, 2]), Flying(2, Working, &[1])]),
        Step::Begin(3, Node(3), Go),
        Step::Paths(3, &["f/x"]),
        Step::Finish(3, Outcome::Done, Ended),
        Step::Finish(2, Outcome::Entry, Given(4, 0)),
        Step::LookUp(ROOT, "f", Given(2, 0)),
        Step::LookUp(2, "x", Given(3, 0)),
        Step::LookUp(ROOT, "d", Given(5, 0)),
    ],
    gathers: Sum::All(4, 6, 0, 0),
};

#[test]
fn moved_folder(rt: HostRuntime) -> Result<(), Fail> {
    run(&rt, &FOLDER)
}

/// A path cannot be moved below itself, nor onto a path above it; moving it onto itself changes nothing.
const OWN_FRONTS: Story = Story {
    limits: DEFAULT,
    steps: &[
        Step::LookUp(ROOT, "d", Given(2, 0)),
        Step::LookUp(2, "x", Given(3, 0)),
        Step::Begin(1, Move(ROOT, "d", 3, "y"), Refused(EINVAL)),
        Step::Begin(1, Move(ROOT, "d", 2, "x"), Refused(EINVAL)),
        Step::Begin(1, Move(2, "x", ROOT, "d"), Refused(ENOTEMPTY)),
        Step::Begin(1, Move(3, "c", ROOT, "d"), Refused(ENOTEMPTY)),
        Step::Nodes(KNOWN),
        Step::Requests(&[]),
        Step::Begin(1, Move(ROOT, "d", ROOT, "d"), Go),
        Step::Paths(1, &["d", "d"]),
        Step::Holds(&[Holding("d", 0, 1)]),
        Step::Finish(1, Outcome::Done, Ended),
        Step::Settle(1, Reply::Taken, Settled(0)),
        Step::Nodes(KNOWN),
        Step::Requests(&[]),
        Step::Begin(2, Move(2, "x", 2, "y"), Go),
        Step::Paths(2, &["d/x", "d/y"]),
        Step::Holds(&[
            Holding("d", 1, 0),
            Holding("d/x", 0, 1),
            Holding("d/y", 0, 1),
        ]),
        Step::Finish(2, Outcome::Failed, Ended),
        Step::Nodes(KNOWN),
    ],
    gathers: Sum::All(2, 2, 0, 0),
};

#[test]
fn moves_onto_own_prefixes(rt: HostRuntime) -> Result<(), Fail> {
    run(&rt, &OWN_FRONTS)
}

/// A file is moved to the name of a folder: the folder is cut with what is in it.
const ONTO_A_FOLDER: Story = Story {
    limits: DEFAULT,
    steps: &[
        Step::LookUp(ROOT, "d", Given(2, 0)),
        Step::LookUp(2, "x", Given(3, 0)),
        Step::LookUp(ROOT, "a", Given(4, 0)),
        Step::Begin(1, Move(ROOT, "a", ROOT, "d"), Go),
        Step::Requests(&[Flying(1, Working, &[1, 2, 4])]),
        Step::Finish(1, Outcome::Done, Ended),
        Step::Nodes(&[
            TOP,
            Living(2, 0, Cut, 1),
            Living(3, 0, Cut, 1),
            Living(4, 0, At(ROOT, "d"), 1),
        ]),
        Step::Ledger(&[
            Born(2, 0),
            Entry(2, 0),
            Born(3, 0),
            Entry(3, 0),
            Born(4, 0),
            Entry(4, 0),
        ]),
        Step::Requests(&[Flying(1, Answered, &[1, 2, 4])]),
        Step::Begin(2, Node(3), Refused(ESTALE)),
        Step::Begin(2, Node(4), Go),
        Step::Paths(2, &["d"]),
        Step::Finish(2, Outcome::Done, Ended),
        Step::LookUp(ROOT, "a", Given(5, 0)),
        Step::LookUp(ROOT, "d", Given(4, 0)),
    ],
    gathers: Sum::All(4, 5, 0, 0),
};

#[test]
fn moved_onto_a_folder(rt: HostRuntime) -> Result<(), Fail> {
    run(&rt, &ONTO_A_FOLDER)
}

/// If the old name has no node, only what is at the new one is cut, and it is dropped if nothing keeps it alive.
const FROM_NOTHING: Story = Story {
    limits: DEFAULT,
    steps: &[
        Step::LookUp(ROOT, "d", Given(2, 0)),
        Step::LookUp(2, "x", Given(3, 0)),
        Step::Begin(1, Move(ROOT, "zz", 2, "x"), Go),
        Step::Requests(&[Flying(1, Working, &[1, 2, 3])]),
        Step::Forget(3, 1, Amount(1)),
        Step::Nodes(&[
            TOP,
            Living(2, 0, At(ROOT, "d"), 1),
            Living(3, 0, At(2, "x"), 0),
        ]),
        Step::Finish(1, Outcome::Done, Ended),
        Step::Nodes(&[TOP, Living(2, 0, At(ROOT, "d"), 1), Living(3, 0, Cut, 0)]),
        Step::Settle(1, Reply::Taken, Settled(0)),
        Step::Nodes(&[TOP, Living(2, 0, At(ROOT, "d"), 1)]),
        Step::Ledger(&[
            Born(2, 0),
            Entry(2, 0),
            Born(3, 0),
            Entry(3, 0),
            Forget(3, 0, 1),
        ]),
    ],
    gathers: Sum::All(2, 2, 0, 1),
};

#[test]
fn moved_from_nothing(rt: HostRuntime) -> Result<(), Fail> {
    run(&rt, &FROM_NOTHING)
}

/// A move that failed changes nothing, and afterwards holds nothing.
const FAILED: Story = Story {
    limits: DEFAULT,
    steps: &[
        Step::LookUp(ROOT, "d", Given(2, 0)),
        Step::LookUp(2, "x", Given(3, 0)),
        Step::Begin(1, Move(2, "x", ROOT, "a"), Go),
        Step::Finish(1, Outcome::Failed, Ended),
        Step::Nodes(KNOWN),
        Step::Ledger(&[Born(2, 0), Entry(2, 0), Born(3, 0), Entry(3, 0)]),
        Step::Holds(&[]),
        Step::Begin(2, Node(3), Go),
        Step::Paths(2, &["d/x"]),
    ],
    gathers: Sum::All(2, 2, 0, 0),
};

/// An outcome that does not fit a move changes nothing.
const MISFIT: Story = Story {
    limits: DEFAULT,
    steps: &[
        Step::LookUp(ROOT, "d", Given(2, 0)),
        Step::LookUp(2, "x", Given(3, 0)),
        Step::Begin(1, Move(2, "x", ROOT, "a"), Go),
        Step::Finish(1, Outcome::Entry, Ended),
        Step::Nodes(KNOWN),
        Step::Ledger(&[Born(2, 0), Entry(2, 0), Born(3, 0), Entry(3, 0)]),
        Step::Holds(&[]),
        Step::Begin(2, Node(3), Go),
        Step::Paths(2, &["d/x"]),
    ],
    gathers: Sum::All(2, 2, 0, 0),
};

#[test]
fn failed_move(rt: HostRuntime) -> Result<(), Fail> {
    for story in [&FAILED, &MISFIT] {
        run(&rt, story)?;
    }
    Ok(())
}
