//! Names under which open files are hidden, the counter that keeps them apart, and what is left of hidden files.

use crate::long_rows::{first, long_name};
use crate::story::Asks::{Move, Name, Node, Open, Remove, Unlink};
use crate::story::Told::{Busy, Ended, Given, Go, NotGiven, Refused, Settled};
use crate::story::{
    DEFAULT, Flying, Holding, Living, Outcome, ROOT, Reply, Spot, Step, Story, Sum, TOP,
};
use crate::teller::run;
use errno::{EAGAIN, ENAMETOOLONG};
use std::test::Fail;
use table::Limits;
use table_image::ImageStage::Working;

/// The name `a`, and the candidates for the file of node 2 while the counter is 0.
const OF_TWO: &[&str] = &[
    "a",
    ".fuse_hidden0000000200000000",
    ".fuse_hidden0000000200000001",
    ".fuse_hidden0000000200000002",
    ".fuse_hidden0000000200000003",
    ".fuse_hidden0000000200000004",
    ".fuse_hidden0000000200000005",
    ".fuse_hidden0000000200000006",
    ".fuse_hidden0000000200000007",
    ".fuse_hidden0000000200000008",
    ".fuse_hidden0000000200000009",
];

/// The name `b`, and the candidates for the file of node 3 while the counter is ten.
const OF_THREE: &[&str] = &[
    "b",
    ".fuse_hidden000000030000000a",
    ".fuse_hidden000000030000000b",
    ".fuse_hidden000000030000000c",
    ".fuse_hidden000000030000000d",
    ".fuse_hidden000000030000000e",
    ".fuse_hidden000000030000000f",
    ".fuse_hidden0000000300000010",
    ".fuse_hidden0000000300000011",
    ".fuse_hidden0000000300000012",
    ".fuse_hidden0000000300000013",
];

/// These are held exclusively for the removal.
const HELD: &[Holding] = &[
    Holding("b", 0, 1),
    Holding(".fuse_hidden000000030000000a", 0, 1),
    Holding(".fuse_hidden000000030000000b", 0, 1),
    Holding(".fuse_hidden000000030000000c", 0, 1),
    Holding(".fuse_hidden000000030000000d", 0, 1),
    Holding(".fuse_hidden000000030000000e", 0, 1),
    Holding(".fuse_hidden000000030000000f", 0, 1),
    Holding(".fuse_hidden0000000300000010", 0, 1),
    Holding(".fuse_hidden0000000300000011", 0, 1),
    Holding(".fuse_hidden0000000300000012", 0, 1),
    Holding(".fuse_hidden0000000300000013", 0, 1),
];

/// Only a removal that begins uses up ten counters: not one that must wait, is refused, or finds no open file. One that
/// fails afterwards has used them up.
const COUNTERS: Story = Story {
    limits: Limits {
        flights: 2,
        ..DEFAULT
    },
    steps: &[
        Step::LookUp(ROOT, "a", Given(2, 0)),
        Step::LookUp(ROOT, "b", Given(3, 0)),
        Step::Begin(1, Open(2), Go),
        Step::Finish(1, Outcome::Done, Ended),
        Step::Settle(1, Reply::Taken, Settled(0)),
        Step::Begin(1, Open(3), Go),
        Step::Finish(1, Outcome::Done, Ended),
        Step::Settle(1, Reply::Taken, Settled(0)),
        Step::Begin(1, Node(ROOT), Go),
        Step::Begin(2, Remove(ROOT, "b"), Go),
        Step::Begin(3, Unlink(ROOT, "b"), Busy),
        Step::Begin(3, Unlink(ROOT, "a"), Refused(EAGAIN)),
        Step::Finish(1, Outcome::Done, Ended),
        Step::Settle(1, Reply::Taken, Settled(0)),
        Step::Finish(2, Outcome::Failed, Ended),
        Step::Settle(2, Reply::Taken, Settled(0)),
        Step::Begin(3, Unlink(ROOT, "e"), Go),
        Step::Paths(3, &["e"]),
        Step::Finish(3, Outcome::Done, Ended),
        Step::Settle(3, Reply::Taken, Settled(0)),
        Step::Begin(4, Unlink(ROOT, "a"), Go),
        Step::Paths(4, OF_TWO),
        Step::Finish(4, Outcome::Failed, Ended),
        Step::Settle(4, Reply::Taken, Settled(0)),
        Step::Begin(5, Unlink(ROOT, "b"), Go),
        Step::Paths(5, OF_THREE),
        Step::Holds(HELD),
        Step::Requests(&[Flying(5, Working, &[ROOT, 3])]),
        Step::Finish(5, Outcome::Hidden(9), Ended),
        Step::Settle(5, Reply::Taken, Settled(0)),
        Step::Holds(&[]),
        Step::Nodes(&[
            TOP,
            Living(2, 0, Spot::At(ROOT, "a"), 1),
            Living(3, 0, Spot::Hidden(ROOT, ".fuse_hidden0000000300000013"), 1),
        ]),
    ],
    gathers: Sum::All(2, 2, 0, 0),
};

#[test]
fn ten_counters_a_removal(rt: HostRuntime) -> Result<(), Fail> {
    run(&rt, &COUNTERS)
}

/// A node at a candidate is pinned, and cut if that candidate is used. What is hidden may be hidden again, and keeps
/// its mark.
const TAKEN_NAME: Story = Story {
    limits: DEFAULT,
    steps: &[
        Step::LookUp(ROOT, "a", Given(2, 0)),
        Step::LookUp(ROOT, ".fuse_hidden0000000200000003", Given(3, 0)),
        Step::Begin(1, Open(2), Go),
        Step::Finish(1, Outcome::Done, Ended),
        Step::Settle(1, Reply::Taken, Settled(0)),
        Step::Begin(2, Unlink(ROOT, "a"), Go),
        Step::Requests(&[Flying(2, Working, &[ROOT, 2, 3])]),
        Step::Finish(2, Outcome::Hidden(3), Ended),
        Step::Settle(2, Reply::Taken, Settled(0)),
        Step::Nodes(&[
            TOP,
            Living(2, 0, Spot::Hidden(ROOT, ".fuse_hidden0000000200000003"), 1),
            Living(3, 0, Spot::Cut, 1),
        ]),
        Step::Begin(3, Unlink(ROOT, ".fuse_hidden0000000200000003"), Go),
        Step::Finish(3, Outcome::Hidden(1), Ended),
        Step::Settle(3, Reply::Taken, Settled(0)),
        Step::Nodes(&[
            TOP,
            Living(2, 0, Spot::Hidden(ROOT, ".fuse_hidden000000020000000b"), 1),
            Living(3, 0, Spot::Cut, 1),
        ]),
        Step::File(1, Some(2)),
    ],
    gathers: Sum::All(2, 2, 0, 0),
};

#[test]
fn candidate_is_taken(rt: HostRuntime) -> Result<(), Fail> {
    run(&rt, &TAKEN_NAME)
}

/// The files of `e`, `d/x` and `a` are hidden in this order, and listed by the numbers of their nodes. A folder that is
/// moved takes its hidden file along, and one that is removed takes away the mark.
const LEFTOVERS: Story = Story {
    limits: DEFAULT,
    steps: &[
        Step::LookUp(ROOT, "d", Given(2, 0)),
        Step::LookUp(2, "x", Given(3, 0)),
        Step::LookUp(ROOT, "a", Given(4, 0)),
        Step::LookUp(ROOT, "e", Given(5, 0)),
        Step::Begin(1, Open(3), Go),
        Step::Finish(1, Outcome::Done, Ended),
        Step::Begin(2, Open(4), Go),
        Step::Finish(2, Outcome::Done, Ended),
        Step::Begin(3, Open(5), Go),
        Step::Finish(3, Outcome::Done, Ended),
        Step::Leftover(&[]),
        Step::Begin(4, Unlink(ROOT, "e"), Go),
        Step::Leftover(&[]),
        Step::Finish(4, Outcome::Hidden(0), Ended),
        Step::Leftover(&[".fuse_hidden0000000500000000"]),
        Step::Begin(5, Unlink(2, "x"), Go),
        Step::Finish(5, Outcome::Hidden(0), Ended),
        Step::Begin(6, Unlink(ROOT, "a"), Go),
        Step::Finish(6, Outcome::Hidden(0), Ended),
        Step::Leftover(&[
            "d/.fuse_hidden000000030000000a",
            ".fuse_hidden0000000400000014",
            ".fuse_hidden0000000500000000",
        ]),
        Step::Begin(7, Move(ROOT, "d", ROOT, "f"), Go),
        Step::Finish(7, Outcome::Done, Ended),
        Step::Leftover(&[
            "f/.fuse_hidden000000030000000a",
            ".fuse_hidden0000000400000014",
            ".fuse_hidden0000000500000000",
        ]),
        Step::Begin(8, Remove(ROOT, "f"), Go),
        Step::Finish(8, Outcome::Done, Ended),
        Step::Leftover(&[
            ".fuse_hidden0000000400000014",
            ".fuse_hidden0000000500000000",
        ]),
        Step::Nodes(&[
            TOP,
            Living(2, 0, Spot::Cut, 1),
            Living(3, 0, Spot::Cut, 1),
            Living(4, 0, Spot::Hidden(ROOT, ".fuse_hidden0000000400000014"), 1),
            Living(5, 0, Spot::Hidden(ROOT, ".fuse_hidden0000000500000000"), 1),
        ]),
    ],
    gathers: Sum::All(4, 4, 0, 0),
};

#[test]
fn leftovers_by_number(rt: HostRuntime) -> Result<(), Fail> {
    run(&rt, &LEFTOVERS)
}

/// A path of 4,067 bytes with a candidate in it has 4,096 bytes. In a folder whose path is one byte longer the removal
/// of an open file is refused, though the path of the file is short enough, and before any conflict.
#[test]
fn candidate_is_too_long(rt: HostRuntime) -> Result<(), Fail> {
    let name = long_name(rt.alloc(), 4_067)?;
    let above = name.as_str();
    let fits = first(above, 4_066);
    let steps = [
        Step::LookUp(ROOT, fits, Given(2, 0)),
        Step::LookUp(2, "a", Given(3, 0)),
        Step::LookUp(ROOT, above, Given(4, 0)),
        Step::LookUp(4, "a", Given(5, 0)),
        Step::Begin(1, Unlink(4, "a"), Go),
        Step::Finish(1, Outcome::Failed, Ended),
        Step::Begin(2, Open(3), Go),
        Step::Finish(2, Outcome::Done, Ended),
        Step::Begin(3, Open(5), Go),
        Step::Finish(3, Outcome::Done, Ended),
        Step::Begin(4, Name(4, "a"), Go),
        Step::Begin(5, Unlink(4, "a"), Refused(ENAMETOOLONG)),
        Step::Begin(5, Remove(4, "a"), Busy),
        Step::Finish(4, Outcome::Failed, NotGiven),
        Step::Begin(5, Unlink(4, "a"), Refused(ENAMETOOLONG)),
        Step::Begin(5, Remove(4, "a"), Go),
        Step::Begin(6, Unlink(2, "a"), Go),
        Step::Finish(6, Outcome::Hidden(0), Ended),
        Step::Finish(5, Outcome::Failed, Ended),
    ];
    let story = Story {
        limits: DEFAULT,
        steps: steps.as_slice(),
        gathers: Sum::All(4, 4, 0, 0),
    };
    run(&rt, &story)
}
