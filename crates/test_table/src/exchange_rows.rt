//! Exchanges of names, and moves that keep what is at their target.

use crate::story::Asks::{Exchange, Keep, Name, Node, Open, Unlink};
use crate::story::Spot::{At, Cut, Hidden};
use crate::story::Told::{Busy, Ended, Given, Go, Refused, Settled};
use crate::story::{DEFAULT, Flying, Holding, Living, Outcome, ROOT, Reply, Step, Story, Sum, TOP};
use crate::teller::run;
use errno::EINVAL;
use std::test::Fail;
use table_image::ImageStage::Working;

/// A file and a folder are exchanged, with what is in the folder. Meanwhile both names are held.
const FILE_AND_FOLDER: Story = Story {
    limits: DEFAULT,
    steps: &[
        Step::LookUp(ROOT, "a", Given(2, 0)),
        Step::LookUp(ROOT, "d", Given(3, 0)),
        Step::LookUp(3, "x", Given(4, 0)),
        Step::Begin(1, Exchange(ROOT, "a", ROOT, "d"), Go),
        Step::Paths(1, &["a", "d"]),
        Step::Holds(&[Holding("a", 0, 1), Holding("d", 0, 1)]),
        Step::Requests(&[Flying(1, Working, &[1, 2, 3])]),
        Step::Begin(2, Node(4), Busy),
        Step::Begin(2, Node(2), Busy),
        Step::Begin(2, Name(ROOT, "d"), Busy),
        Step::Finish(1, Outcome::Done, Ended),
        Step::Settle(1, Reply::Taken, Settled(0)),
        Step::Nodes(&[
            TOP,
            Living(2, 0, At(ROOT, "d"), 1),
            Living(3, 0, At(ROOT, "a"), 1),
            Living(4, 0, At(3, "x"), 1),
        ]),
        Step::Begin(2, Node(2), Go),
        Step::Paths(2, &["d"]),
        Step::Begin(3, Node(3), Go),
        Step::Paths(3, &["a"]),
        Step::Begin(4, Node(4), Go),
        Step::Paths(4, &["a/x"]),
        Step::Begin(5, Exchange(ROOT, "d", ROOT, "e"), Busy),
        Step::LookUp(ROOT, "a", Given(3, 0)),
        Step::LookUp(ROOT, "d", Given(2, 0)),
    ],
    gathers: Sum::All(3, 5, 0, 0),
};

#[test]
fn exchanged_file_and_folder(rt: HostRuntime) -> Result<(), Fail> {
    run(&rt, &FILE_AND_FOLDER)
}

/// The folder `d` is node 2, and `x` in it is node 3.
const KNOWN: &[Living] = &[
    TOP,
    Living(2, 0, At(ROOT, "d"), 1),
    Living(3, 0, At(2, "x"), 1),
];

/// A name cannot be exchanged with one below it, and exchanging it with itself changes nothing.
const OWN_FRONTS: Story = Story {
    limits: DEFAULT,
    steps: &[
        Step::LookUp(ROOT, "d", Given(2, 0)),
        Step::LookUp(2, "x", Given(3, 0)),
        Step::Begin(1, Exchange(ROOT, "d", 2, "x"), Refused(EINVAL)),
        Step::Begin(1, Exchange(2, "x", ROOT, "d"), Refused(EINVAL)),
        Step::Begin(1, Exchange(3, "c", ROOT, "d"), Refused(EINVAL)),
        Step::Begin(1, Exchange(2, "x", 2, "x"), Go),
        Step::Paths(1, &["d/x", "d/x"]),
        Step::Holds(&[Holding("d", 1, 0), Holding("d/x", 0, 1)]),
        Step::Finish(1, Outcome::Done, Ended),
        Step::Nodes(KNOWN),
    ],
    gathers: Sum::All(2, 2, 0, 0),
};

#[test]
fn exchanges_with_own_prefixes(rt: HostRuntime) -> Result<(), Fail> {
    run(&rt, &OWN_FRONTS)
}

/// If only one of the names has a node, it moves to the other, whichever it is. If neither has one, nothing changes,
/// and neither does anything for an outcome that does not fit.
const ACROSS_FOLDERS: Story = Story {
    limits: DEFAULT,
    steps: &[
        Step::LookUp(ROOT, "d", Given(2, 0)),
        Step::LookUp(2, "x", Given(3, 0)),
        Step::LookUp(ROOT, "e", Given(4, 0)),
        Step::LookUp(4, "z", Given(5, 0)),
        Step::Begin(1, Exchange(2, "x", 4, "y"), Go),
        Step::Paths(1, &["d/x", "e/y"]),
        Step::Holds(&[
            Holding("d", 1, 0),
            Holding("d/x", 0, 1),
            Holding("e", 1, 0),
            Holding("e/y", 0, 1),
        ]),
        Step::Finish(1, Outcome::Done, Ended),
        Step::Settle(1, Reply::Taken, Settled(0)),
        Step::Begin(2, Exchange(2, "x", 4, "z"), Go),
        Step::Finish(2, Outcome::Done, Ended),
        Step::Settle(2, Reply::Taken, Settled(0)),
        Step::Begin(3, Exchange(2, "v", 4, "w"), Go),
        Step::Finish(3, Outcome::Done, Ended),
        Step::Settle(3, Reply::Taken, Settled(0)),
        Step::Begin(4, Exchange(2, "x", 4, "y"), Go),
        Step::Finish(4, Outcome::HiddenMove(0, true), Ended),
        Step::Settle(4, Reply::Taken, Settled(0)),
        Step::Begin(5, Exchange(2, "x", 4, "y"), Go),
        Step::Finish(5, Outcome::Failed, Ended),
        Step::Settle(5, Reply::Taken, Settled(0)),
        Step::Nodes(&[
            TOP,
            Living(2, 0, At(ROOT, "d"), 1),
            Living(3, 0, At(4, "y"), 1),
            Living(4, 0, At(ROOT, "e"), 1),
            Living(5, 0, At(2, "x"), 1),
        ]),
    ],
    gathers: Sum::All(4, 4, 0, 0),
};

#[test]
fn exchanged_across_folders(rt: HostRuntime) -> Result<(), Fail> {
    run(&rt, &ACROSS_FOLDERS)
}

/// Names are not exchanged while requests use nodes at them, nor while others hold paths of them.
const IN_FLIGHT: Story = Story {
    limits: DEFAULT,
    steps: &[
        Step::LookUp(ROOT, "d", Given(2, 0)),
        Step::LookUp(2, "x", Given(3, 0)),
        Step::Begin(1, Node(3), Go),
        Step::Begin(2, Exchange(ROOT, "d", ROOT, "a"), Busy),
        Step::Begin(2, Exchange(ROOT, "a", 2, "x"), Busy),
        Step::Begin(2, Exchange(ROOT, "a", ROOT, "b"), Go),
        Step::Begin(3, Name(ROOT, "b"), Busy),
        Step::Begin(3, Name(ROOT, "a"), Busy),
        Step::Finish(1, Outcome::Done, Ended),
        Step::Begin(4, Exchange(ROOT, "d", ROOT, "c"), Go),
        Step::Finish(4, Outcome::Done, Ended),
        Step::Finish(2, Outcome::Done, Ended),
        Step::Nodes(&[
            TOP,
            Living(2, 0, At(ROOT, "c"), 1),
            Living(3, 0, At(2, "x"), 1),
        ]),
    ],
    gathers: Sum::All(2, 2, 0, 0),
};

#[test]
fn exchanges_in_flight(rt: HostRuntime) -> Result<(), Fail> {
    run(&rt, &IN_FLIGHT)
}

/// A hidden mark stays with its node, and an exchange hides no open file.
const MARKED: Story = Story {
    limits: DEFAULT,
    steps: &[
        Step::LookUp(ROOT, "a", Given(2, 0)),
        Step::Begin(1, Open(2), Go),
        Step::Finish(1, Outcome::Done, Ended),
        Step::Settle(1, Reply::Taken, Settled(0)),
        Step::Begin(2, Unlink(ROOT, "a"), Go),
        Step::Finish(2, Outcome::Hidden(0), Ended),
        Step::Settle(2, Reply::Taken, Settled(0)),
        Step::LookUp(ROOT, "b", Given(3, 0)),
        Step::Begin(
            3,
            Exchange(ROOT, "b", ROOT, ".fuse_hidden0000000200000000"),
            Go,
        ),
        Step::Paths(3, &["b", ".fuse_hidden0000000200000000"]),
        Step::Finish(3, Outcome::Done, Ended),
        Step::Settle(3, Reply::Taken, Settled(0)),
        Step::Nodes(&[
            TOP,
            Living(2, 0, Hidden(ROOT, "b"), 1),
            Living(3, 0, At(ROOT, ".fuse_hidden0000000200000000"), 1),
        ]),
    ],
    gathers: Sum::All(2, 2, 0, 0),
};

#[test]
fn exchanged_marks(rt: HostRuntime) -> Result<(), Fail> {
    run(&rt, &MARKED)
}

/// A move that keeps its target hides no open file there: its ticket has two paths, no outcome hides, and when it is
/// done it is a move.
const KEPT: Story = Story {
    limits: DEFAULT,
    steps: &[
        Step::LookUp(ROOT, "a", Given(2, 0)),
        Step::LookUp(ROOT, "b", Given(3, 0)),
        Step::Begin(1, Open(2), Go),
        Step::Finish(1, Outcome::Done, Ended),
        Step::Settle(1, Reply::Taken, Settled(0)),
        Step::Begin(2, Keep(ROOT, "b", ROOT, "a"), Go),
        Step::Paths(2, &["b", "a"]),
        Step::Holds(&[Holding("a", 0, 1), Holding("b", 0, 1)]),
        Step::Finish(2, Outcome::HiddenMove(0, true), Ended),
        Step::Settle(2, Reply::Taken, Settled(0)),
        Step::Nodes(&[
            TOP,
            Living(2, 0, At(ROOT, "a"), 1),
            Living(3, 0, At(ROOT, "b"), 1),
        ]),
        Step::Begin(3, Keep(ROOT, "b", ROOT, "a"), Go),
        Step::Finish(3, Outcome::Done, Ended),
        Step::Settle(3, Reply::Taken, Settled(0)),
        Step::Nodes(&[TOP, Living(2, 0, Cut, 1), Living(3, 0, At(ROOT, "a"), 1)]),
    ],
    gathers: Sum::All(2, 2, 0, 0),
};

#[test]
fn moves_that_keep(rt: HostRuntime) -> Result<(), Fail> {
    run(&rt, &KEPT)
}
