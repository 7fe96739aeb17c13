//! Files that are open when another name is moved to theirs.

use crate::story::Asks::{Move, Name, Open, Remove, Unlink};
use crate::story::Told::{Amount, Busy, Ended, Given, Go, Refused, Settled};
use crate::story::{DEFAULT, Living, Outcome, ROOT, Reply, Spot, Step, Story, Sum, TOP};
use crate::teller::run;
use errno::{EINVAL, ENOTEMPTY, ESTALE};
use std::test::Fail;

/// The name `e`, then `a`, and the first candidates for the file of `a`, node 2.
const PATHS: &[&str] = &[
    "e",
    "a",
    ".fuse_hidden0000000200000000",
    ".fuse_hidden0000000200000001",
    ".fuse_hidden0000000200000002",
    ".fuse_hidden0000000200000003",
    ".fuse_hidden0000000200000004",
    ".fuse_hidden0000000200000005",
    ".fuse_hidden0000000200000006",
    ".fuse_hidden0000000200000007",
    ".fuse_hidden0000000200000008",
    ".fuse_hidden0000000200000009",
];

/// The name `e`, then `d/x`, and the first candidates in its folder for the file of `d/x`, node 3.
const DEEP_PATHS: &[&str] = &[
    "e",
    "d/x",
    "d/.fuse_hidden0000000300000000",
    "d/.fuse_hidden0000000300000001",
    "d/.fuse_hidden0000000300000002",
    "d/.fuse_hidden0000000300000003",
    "d/.fuse_hidden0000000300000004",
    "d/.fuse_hidden0000000300000005",
    "d/.fuse_hidden0000000300000006",
    "d/.fuse_hidden0000000300000007",
    "d/.fuse_hidden0000000300000008",
    "d/.fuse_hidden0000000300000009",
];

/// The files of `a` and of `e` are open, and `e` is moved to `a`: what was `a` is hidden under the first candidate and
/// is still open, and so is the other file. Ten names are used up: those of the next file to be hidden have the
/// counters from ten on.
const REPLACED: Story = Story {
    limits: DEFAULT,
    steps: &[
        Step::LookUp(ROOT, "a", Given(2, 0)),
        Step::LookUp(ROOT, "e", Given(3, 0)),
        Step::Begin(1, Open(2), Go),
        Step::Finish(1, Outcome::Done, Ended),
        Step::Settle(1, Reply::Taken, Settled(0)),
        Step::Begin(2, Open(3), Go),
        Step::Finish(2, Outcome::Done, Ended),
        Step::Settle(2, Reply::Taken, Settled(0)),
        Step::Begin(3, Move(ROOT, "e", ROOT, "a"), Go),
        Step::Paths(3, PATHS),
        Step::Begin(4, Remove(ROOT, ".fuse_hidden0000000200000009"), Busy),
        Step::Begin(4, Remove(ROOT, ".fuse_hidden000000020000000a"), Go),
        Step::Finish(3, Outcome::HiddenMove(0, true), Ended),
        Step::Settle(3, Reply::Taken, Settled(0)),
        Step::Forget(2, 1, Amount(1)),
        Step::Nodes(&[
            TOP,
            Living(2, 0, Spot::Hidden(ROOT, ".fuse_hidden0000000200000000"), 0),
            Living(3, 0, Spot::At(ROOT, "a"), 1),
        ]),
        Step::File(1, Some(2)),
        Step::File(2, Some(3)),
        Step::LookUp(ROOT, "e", Given(4, 0)),
        Step::Begin(5, Move(ROOT, "e", ROOT, "a"), Go),
        Step::Finish(5, Outcome::HiddenMove(9, true), Ended),
        Step::Settle(5, Reply::Taken, Settled(0)),
        Step::Nodes(&[
            TOP,
            Living(2, 0, Spot::Hidden(ROOT, ".fuse_hidden0000000200000000"), 0),
            Living(3, 0, Spot::Hidden(ROOT, ".fuse_hidden0000000300000013"), 1),
            Living(4, 0, Spot::At(ROOT, "a"), 1),
        ]),
    ],
    gathers: Sum::All(3, 3, 0, 1),
};

/// The file to be replaced was hidden, but the move failed: `e` is where it was, and nothing has the name `a`.
const FAILED_AFTER: Story = Story {
    limits: DEFAULT,
    steps: &[
        Step::LookUp(ROOT, "a", Given(2, 0)),
        Step::LookUp(ROOT, "e", Given(3, 0)),
        Step::Begin(1, Open(2), Go),
        Step::Finish(1, Outcome::Done, Ended),
        Step::Settle(1, Reply::Taken, Settled(0)),
        Step::Begin(2, Move(ROOT, "e", ROOT, "a"), Go),
        Step::Finish(2, Outcome::HiddenMove(3, false), Ended),
        Step::Settle(2, Reply::Taken, Settled(0)),
        Step::Nodes(&[
            TOP,
            Living(2, 0, Spot::Hidden(ROOT, ".fuse_hidden0000000200000003"), 1),
            Living(3, 0, Spot::At(ROOT, "e"), 1),
        ]),
        Step::File(1, Some(2)),
        Step::LookUp(ROOT, "a", Given(4, 0)),
    ],
    gathers: Sum::All(3, 3, 0, 0),
};

/// An outcome that does not fit changes nothing, and a move that was done without hiding cuts what was at its target,
/// whose file stays open.
const UNHIDDEN: Story = Story {
    limits: DEFAULT,
    steps: &[
        Step::LookUp(ROOT, "a", Given(2, 0)),
        Step::LookUp(ROOT, "e", Given(3, 0)),
        Step::Begin(1, Open(2), Go),
        Step::Finish(1, Outcome::Done, Ended),
        Step::Settle(1, Reply::Taken, Settled(0)),
        Step::Begin(2, Move(ROOT, "e", ROOT, "a"), Go),
        Step::Finish(2, Outcome::HiddenMove(10, true), Ended),
        Step::Settle(2, Reply::Taken, Settled(0)),
        Step::Begin(3, Move(ROOT, "e", ROOT, "a"), Go),
        Step::Finish(3, Outcome::Hidden(0), Ended),
        Step::Settle(3, Reply::Taken, Settled(0)),
        Step::Nodes(&[
            TOP,
            Living(2, 0, Spot::At(ROOT, "a"), 1),
            Living(3, 0, Spot::At(ROOT, "e"), 1),
        ]),
        Step::Begin(4, Move(ROOT, "e", ROOT, "a"), Go),
        Step::Finish(4, Outcome::Done, Ended),
        Step::Settle(4, Reply::Taken, Settled(0)),
        Step::Nodes(&[
            TOP,
            Living(2, 0, Spot::Cut, 1),
            Living(3, 0, Spot::At(ROOT, "a"), 1),
        ]),
        Step::File(1, Some(2)),
    ],
    gathers: Sum::All(2, 2, 0, 0),
};

/// A move of an open file to itself hides nothing, and neither does one to a name whose file is not open: the
/// candidates for the first file that is then hidden have the counters from zero on.
const NOTHING_TO_HIDE: Story = Story {
    limits: DEFAULT,
    steps: &[
        Step::LookUp(ROOT, "a", Given(2, 0)),
        Step::LookUp(ROOT, "e", Given(3, 0)),
        Step::Begin(1, Open(2), Go),
        Step::Finish(1, Outcome::Done, Ended),
        Step::Settle(1, Reply::Taken, Settled(0)),
        Step::Begin(2, Move(ROOT, "a", ROOT, "a"), Go),
        Step::Paths(2, &["a", "a"]),
        Step::Finish(2, Outcome::HiddenMove(0, true), Ended),
        Step::Settle(2, Reply::Taken, Settled(0)),
        Step::Begin(3, Move(ROOT, "a", ROOT, "e"), Go),
        Step::Paths(3, &["a", "e"]),
        Step::Finish(3, Outcome::HiddenMove(0, true), Ended),
        Step::Settle(3, Reply::Taken, Settled(0)),
        Step::Nodes(&[
            TOP,
            Living(2, 0, Spot::At(ROOT, "a"), 1),
            Living(3, 0, Spot::At(ROOT, "e"), 1),
        ]),
        Step::Begin(4, Move(ROOT, "e", ROOT, "a"), Go),
        Step::Paths(4, PATHS),
        Step::Finish(4, Outcome::Failed, Ended),
        Step::Settle(4, Reply::Taken, Settled(0)),
    ],
    gathers: Sum::All(2, 2, 0, 0),
};

/// The candidates are in the folder of the target, and held exclusively there; other names in it are free.
const ACROSS_FOLDERS: Story = Story {
    limits: DEFAULT,
    steps: &[
        Step::LookUp(ROOT, "d", Given(2, 0)),
        Step::LookUp(2, "x", Given(3, 0)),
        Step::LookUp(ROOT, "e", Given(4, 0)),
        Step::Begin(1, Open(3), Go),
        Step::Finish(1, Outcome::Done, Ended),
        Step::Settle(1, Reply::Taken, Settled(0)),
        Step::Begin(2, Move(ROOT, "e", 2, "x"), Go),
        Step::Paths(2, DEEP_PATHS),
        Step::Begin(3, Name(2, ".fuse_hidden0000000300000000"), Busy),
        Step::Begin(3, Remove(ROOT, "d"), Busy),
        Step::Begin(3, Remove(ROOT, ".fuse_hidden0000000300000000"), Go),
        Step::Begin(4, Name(2, "y"), Go),
        Step::Finish(2, Outcome::HiddenMove(1, true), Ended),
        Step::Settle(2, Reply::Taken, Settled(0)),
        Step::Nodes(&[
            TOP,
            Living(2, 0, Spot::At(ROOT, "d"), 1),
            Living(3, 0, Spot::Hidden(2, ".fuse_hidden0000000300000001"), 1),
            Living(4, 0, Spot::At(2, "x"), 1),
        ]),
    ],
    gathers: Sum::All(3, 3, 0, 0),
};

/// Only a request that begins uses up names: not one that conflicts with another, nor one that is refused.
const COUNTED: Story = Story {
    limits: DEFAULT,
    steps: &[
        Step::LookUp(ROOT, "d", Given(2, 0)),
        Step::LookUp(2, "x", Given(3, 0)),
        Step::Begin(1, Open(3), Go),
        Step::Finish(1, Outcome::Done, Ended),
        Step::Settle(1, Reply::Taken, Settled(0)),
        Step::Begin(2, Open(2), Go),
        Step::Finish(2, Outcome::Done, Ended),
        Step::Settle(2, Reply::Taken, Settled(0)),
        Step::Begin(3, Move(ROOT, "e", 9, "x"), Refused(ESTALE)),
        Step::Begin(3, Move(ROOT, "d", 2, "x"), Refused(EINVAL)),
        Step::Begin(3, Move(2, "x", ROOT, "d"), Refused(ENOTEMPTY)),
        Step::Begin(3, Open(3), Go),
        Step::Begin(4, Move(ROOT, "e", 2, "x"), Busy),
        Step::Finish(3, Outcome::Failed, Ended),
        Step::Settle(3, Reply::Taken, Settled(0)),
        Step::Begin(5, Move(ROOT, "e", 2, "x"), Go),
        Step::Finish(5, Outcome::Failed, Ended),
        Step::Settle(5, Reply::Taken, Settled(0)),
        Step::Begin(6, Unlink(2, "x"), Go),
        Step::Finish(6, Outcome::Hidden(0), Ended),
        Step::Settle(6, Reply::Taken, Settled(0)),
        Step::Nodes(&[
            TOP,
            Living(2, 0, Spot::At(ROOT, "d"), 1),
            Living(3, 0, Spot::Hidden(2, ".fuse_hidden000000030000000a"), 1),
        ]),
    ],
    gathers: Sum::All(2, 2, 0, 0),
};

#[test]
fn hidden_when_replaced(rt: HostRuntime) -> Result<(), Fail> {
    run(&rt, &REPLACED)
}

#[test]
fn hidden_before_a_failed_move(rt: HostRuntime) -> Result<(), Fail> {
    run(&rt, &FAILED_AFTER)
}

#[test]
fn replaced_though_open(rt: HostRuntime) -> Result<(), Fail> {
    run(&rt, &UNHIDDEN)
}

#[test]
fn moves_that_hide_nothing(rt: HostRuntime) -> Result<(), Fail> {
    run(&rt, &NOTHING_TO_HIDE)
}

#[test]
fn hidden_beside_the_target(rt: HostRuntime) -> Result<(), Fail> {
    run(&rt, &ACROSS_FOLDERS)
}

#[test]
fn names_taken_by_moves(rt: HostRuntime) -> Result<(), Fail> {
    run(&rt, &COUNTED)
}
