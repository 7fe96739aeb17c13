//! Files that are open when their names are removed.

use crate::story::Asks::{Open, Remove, Unlink};
use crate::story::Told::{Amount, Busy, Ended, Given, Go, Settled};
use crate::story::{DEFAULT, Living, Outcome, ROOT, Reply, Spot, Step, Story, Sum, TOP};
use crate::teller::run;
use std::test::Fail;

/// The name `a`, and the first candidates for its file.
const PATHS: &[&str] = &[
    "a",
    ".fuse_hidden0000000200000000",
    ".fuse_hidden0000000200000001",
    ".fuse_hidden0000000200000002",
    ".fuse_hidden0000000200000003",
    ".fuse_hidden0000000200000004",
    ".fuse_hidden0000000200000005",
    ".fuse_hidden0000000200000006",
    ".fuse_hidden0000000200000007",
    ".fuse_hidden0000000200000008",
    ".fuse_hidden0000000200000009",
];

/// The file of `a` is open, so its node is moved to the second candidate and marked, and stays alive without a lookup.
/// Ten names are used up: those of the next file to be hidden have the counters from ten on.
const HIDDEN: Story = Story {
    limits: DEFAULT,
    steps: &[
        Step::LookUp(ROOT, "a", Given(2, 0)),
        Step::Begin(1, Open(2), Go),
        Step::Finish(1, Outcome::Done, Ended),
        Step::Settle(1, Reply::Taken, Settled(0)),
        Step::Begin(2, Unlink(ROOT, "a"), Go),
        Step::Paths(2, PATHS),
        Step::Begin(3, Remove(ROOT, ".fuse_hidden0000000200000009"), Busy),
        Step::Finish(2, Outcome::Hidden(1), Ended),
        Step::Settle(2, Reply::Taken, Settled(0)),
        Step::Forget(2, 1, Amount(1)),
        Step::Nodes(&[
            TOP,
            Living(2, 0, Spot::Hidden(ROOT, ".fuse_hidden0000000200000001"), 0),
        ]),
        Step::LookUp(ROOT, "a", Given(3, 0)),
        Step::Begin(3, Unlink(ROOT, "a"), Go),
        Step::Paths(3, &["a"]),
        Step::Finish(3, Outcome::Hidden(0), Ended),
        Step::Settle(3, Reply::Taken, Settled(0)),
        Step::Begin(4, Open(3), Go),
        Step::Finish(4, Outcome::Done, Ended),
        Step::Settle(4, Reply::Taken, Settled(0)),
        Step::Begin(5, Unlink(ROOT, "a"), Go),
        Step::Finish(5, Outcome::Hidden(0), Ended),
        Step::Settle(5, Reply::Taken, Settled(0)),
        Step::Nodes(&[
            TOP,
            Living(2, 0, Spot::Hidden(ROOT, ".fuse_hidden0000000200000001"), 0),
            Living(3, 0, Spot::Hidden(ROOT, ".fuse_hidden000000030000000a"), 1),
        ]),
    ],
    gathers: Sum::All(2, 2, 0, 1),
};

/// A removal that may not hide cuts the node, whose file stays open; so does one with the outcome Done, and an outcome
/// that does not fit changes nothing.
const UNHIDDEN: Story = Story {
    limits: DEFAULT,
    steps: &[
        Step::LookUp(ROOT, "a", Given(2, 0)),
        Step::Begin(1, Open(2), Go),
        Step::Finish(1, Outcome::Done, Ended),
        Step::Settle(1, Reply::Taken, Settled(0)),
        Step::Begin(2, Unlink(ROOT, "a"), Go),
        Step::Finish(2, Outcome::Hidden(10), Ended),
        Step::Settle(2, Reply::Taken, Settled(0)),
        Step::Begin(3, Unlink(ROOT, "a"), Go),
        Step::Finish(3, Outcome::HiddenMove(0, true), Ended),
        Step::Settle(3, Reply::Taken, Settled(0)),
        Step::Nodes(&[TOP, Living(2, 0, Spot::At(ROOT, "a"), 1)]),
        Step::Begin(4, Remove(ROOT, "a"), Go),
        Step::Paths(4, &["a"]),
        Step::Finish(4, Outcome::Done, Ended),
        Step::Settle(4, Reply::Taken, Settled(0)),
        Step::Nodes(&[TOP, Living(2, 0, Spot::Cut, 1)]),
    ],
    gathers: Sum::All(1, 1, 0, 0),
};

#[test]
fn hidden_on_removal(rt: HostRuntime) -> Result<(), Fail> {
    run(&rt, &HIDDEN)
}

#[test]
fn removed_though_open(rt: HostRuntime) -> Result<(), Fail> {
    run(&rt, &UNHIDDEN)
}
