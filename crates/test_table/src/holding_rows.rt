//! Requests that hold names and wait for one another.

use crate::story::Asks::{Move, Name, Node, Page, Remove, Unlink};
use crate::story::Posted::{Born, Entry};
use crate::story::Spot::{At, Cut};
use crate::story::Told::{Busy, Ended, Gave, Given, Go, NotGiven, Refused, Settled};
use crate::story::{DEFAULT, Flying, Holding, Living, Outcome, ROOT, Reply, Step, Story, Sum, TOP};
use crate::teller::run;
use errno::{ENFILE, ESTALE};
use std::test::Fail;
use table::Limits;
use table_image::ImageStage::{Answered, Working};

/// The LOOKUP of a name waits for its removal, which may hide, even if it has no node. Afterwards the directory does not
/// have the name.
const AT_NO_NODE: Story = Story {
    limits: DEFAULT,
    steps: &[
        Step::Begin(1, Unlink(ROOT, "a"), Go),
        Step::Begin(2, Name(ROOT, "a"), Busy),
        Step::Holds(&[Holding("a", 0, 1)]),
        Step::Requests(&[Flying(1, Working, &[1])]),
        Step::Finish(1, Outcome::Done, Ended),
        Step::Begin(2, Name(ROOT, "a"), Go),
        Step::Finish(2, Outcome::Failed, NotGiven),
        Step::Settle(1, Reply::Taken, Settled(0)),
        Step::Settle(2, Reply::Taken, Settled(0)),
        Step::Nodes(&[TOP]),
        Step::Ledger(&[]),
        Step::Requests(&[]),
    ],
    gathers: Sum::All(0, 0, 0, 0),
};

/// There may be three nodes, so that a promised one shows.
const THREE_NODES: Limits = Limits {
    nodes: 3,
    ..DEFAULT
};

/// While `a` is being removed, others wait. Then node 2 is cut, and a LOOKUP of `a` is promised the third node.
const WAITS_AND_IS_DONE: Story = Story {
    limits: THREE_NODES,
    steps: &[
        Step::LookUp(ROOT, "a", Given(2, 0)),
        Step::Begin(1, Remove(ROOT, "a"), Go),
        Step::Begin(2, Name(ROOT, "a"), Busy),
        Step::Begin(2, Node(2), Busy),
        Step::Begin(2, Name(2, "x"), Busy),
        Step::Begin(2, Remove(2, "x"), Busy),
        Step::Begin(2, Remove(ROOT, "a"), Busy),
        Step::Begin(2, Move(ROOT, "a", ROOT, "b"), Busy),
        Step::Begin(2, Move(ROOT, "b", ROOT, "a"), Busy),
        Step::Nodes(&[TOP, Living(2, 0, At(ROOT, "a"), 1)]),
        Step::Requests(&[Flying(1, Working, &[1, 2])]),
        Step::Finish(1, Outcome::Done, Ended),
        Step::Nodes(&[TOP, Living(2, 0, Cut, 1)]),
        Step::Begin(2, Node(2), Refused(ESTALE)),
        Step::Begin(2, Name(ROOT, "a"), Go),
        Step::Begin(3, Name(ROOT, "e"), Refused(ENFILE)),
        Step::Finish(2, Outcome::Entry, Given(3, 0)),
        Step::Nodes(&[TOP, Living(2, 0, Cut, 1), Living(3, 0, At(ROOT, "a"), 1)]),
        Step::Requests(&[Flying(1, Answered, &[1, 2]), Flying(2, Answered, &[1, 3])]),
        Step::Ledger(&[Born(2, 0), Entry(2, 0), Born(3, 0), Entry(3, 0)]),
    ],
    gathers: Sum::All(2, 2, 0, 0),
};

/// If the removal fails, node 2 is as before: a LOOKUP of `a` needs no other, and the third node is free.
const WAITS_AND_FAILS: Story = Story {
    limits: THREE_NODES,
    steps: &[
        Step::LookUp(ROOT, "a", Given(2, 0)),
        Step::Begin(1, Remove(ROOT, "a"), Go),
        Step::Begin(2, Name(ROOT, "a"), Busy),
        Step::Finish(1, Outcome::Failed, Ended),
        Step::Nodes(&[TOP, Living(2, 0, At(ROOT, "a"), 1)]),
        Step::Begin(2, Name(ROOT, "a"), Go),
        Step::Begin(3, Name(ROOT, "e"), Go),
        Step::Finish(2, Outcome::Entry, Given(2, 0)),
        Step::Finish(3, Outcome::Failed, NotGiven),
        Step::Nodes(&[TOP, Living(2, 0, At(ROOT, "a"), 2)]),
        Step::Requests(&[
            Flying(1, Answered, &[1, 2]),
            Flying(2, Answered, &[1, 2]),
            Flying(3, Answered, &[1]),
        ]),
        Step::Ledger(&[Born(2, 0), Entry(2, 0), Entry(2, 0)]),
    ],
    gathers: Sum::All(1, 2, 0, 0),
};

#[test]
fn lookup_waits_for_remove(rt: HostRuntime) -> Result<(), Fail> {
    for story in [&AT_NO_NODE, &WAITS_AND_IS_DONE, &WAITS_AND_FAILS] {
        run(&rt, story)?;
    }
    Ok(())
}

/// LOOKUPs share a name, and its removal waits for both. A request that is answered holds nothing.
const HELD_TWICE: Story = Story {
    limits: DEFAULT,
    steps: &[
        Step::Begin(1, Name(ROOT, "a"), Go),
        Step::Begin(2, Remove(ROOT, "a"), Busy),
        Step::Begin(2, Name(ROOT, "a"), Go),
        Step::Begin(3, Remove(ROOT, "b"), Go),
        Step::Holds(&[Holding("a", 2, 0), Holding("b", 0, 1)]),
        Step::Size(1, 0, 3),
        Step::Finish(1, Outcome::Entry, Given(2, 0)),
        Step::Begin(4, Remove(ROOT, "a"), Busy),
        Step::Holds(&[Holding("a", 1, 0), Holding("b", 0, 1)]),
        Step::Finish(2, Outcome::Entry, Given(2, 0)),
        Step::Begin(4, Remove(ROOT, "a"), Go),
        Step::Holds(&[Holding("a", 0, 1), Holding("b", 0, 1)]),
        Step::Finish(4, Outcome::Done, Ended),
        Step::Nodes(&[TOP, Living(2, 0, Cut, 2)]),
        Step::Finish(3, Outcome::Done, Ended),
        Step::Nodes(&[TOP, Living(2, 0, Cut, 2)]),
        Step::Holds(&[]),
        Step::Requests(&[
            Flying(1, Answered, &[1, 2]),
            Flying(2, Answered, &[1, 2]),
            Flying(3, Answered, &[1]),
            Flying(4, Answered, &[1, 2]),
        ]),
        Step::Ledger(&[Born(2, 0), Entry(2, 0), Entry(2, 0)]),
    ],
    gathers: Sum::All(1, 2, 0, 0),
};

#[test]
fn remove_waits_for_lookup(rt: HostRuntime) -> Result<(), Fail> {
    run(&rt, &HELD_TWICE)
}

/// A folder is not removed while a request for something in it is in progress, and no request for an entry begins while
/// the folder is being removed.
const FOLDER: Story = Story {
    limits: DEFAULT,
    steps: &[
        Step::LookUp(ROOT, "d", Given(2, 0)),
        Step::LookUp(2, "x", Given(3, 0)),
        Step::Begin(1, Node(3), Go),
        Step::Holds(&[Holding("d", 1, 0), Holding("d/x", 1, 0)]),
        Step::Begin(2, Remove(ROOT, "d"), Busy),
        Step::Begin(2, Remove(2, "x"), Busy),
        Step::Begin(2, Remove(2, "y"), Go),
        Step::Holds(&[
            Holding("d", 2, 0),
            Holding("d/x", 1, 0),
            Holding("d/y", 0, 1),
        ]),
        Step::Finish(1, Outcome::Done, Ended),
        Step::Begin(3, Remove(ROOT, "d"), Busy),
        Step::Finish(2, Outcome::Done, Ended),
        Step::Begin(3, Remove(ROOT, "d"), Go),
        Step::Begin(4, Node(3), Busy),
        Step::Begin(4, Name(2, "y"), Busy),
        Step::Begin(4, Node(ROOT), Go),
        Step::Holds(&[Holding("d", 0, 1)]),
        Step::Finish(4, Outcome::Done, Ended),
        Step::Finish(3, Outcome::Failed, Ended),
        Step::Nodes(&[
            TOP,
            Living(2, 0, At(ROOT, "d"), 1),
            Living(3, 0, At(2, "x"), 1),
        ]),
        Step::Requests(&[
            Flying(1, Answered, &[3]),
            Flying(2, Answered, &[2]),
            Flying(3, Answered, &[1, 2]),
            Flying(4, Answered, &[1]),
        ]),
    ],
    gathers: Sum::All(2, 2, 0, 0),
};

#[test]
fn folder_waits_for_what_is_in_it(rt: HostRuntime) -> Result<(), Fail> {
    run(&rt, &FOLDER)
}

/// The request that began alone keeps holding what it holds, whatever requests come and go: no other takes its place
/// until it ends.
const FIRST_STAYS: Story = Story {
    limits: DEFAULT,
    steps: &[
        Step::LookUp(ROOT, "d", Given(2, 0)),
        Step::Begin(1, Remove(2, "x"), Go),
        Step::Holds(&[Holding("d", 1, 0), Holding("d/x", 0, 1)]),
        Step::Begin(2, Name(2, "x"), Busy),
        Step::Begin(2, Remove(2, "x"), Busy),
        Step::Begin(2, Remove(ROOT, "d"), Busy),
        Step::Begin(2, Name(2, "y"), Go),
        Step::Begin(3, Page(2, &["x", "y"]), Go),
        Step::Holds(&[
            Holding("d", 3, 0),
            Holding("d/x", 0, 1),
            Holding("d/y", 1, 0),
        ]),
        Step::Begin(4, Remove(2, "y"), Busy),
        Step::Finish(3, Outcome::Entries(&[true, true]), Gave(1)),
        Step::Lists(3, &[None, Some((3, 0))]),
        Step::Finish(2, Outcome::Entry, Given(3, 0)),
        Step::Holds(&[Holding("d", 1, 0), Holding("d/x", 0, 1)]),
        Step::Begin(4, Name(2, "x"), Busy),
        Step::Begin(4, Move(ROOT, "d", ROOT, "e"), Busy),
        Step::Begin(4, Remove(2, "y"), Go),
        Step::Finish(1, Outcome::Done, Ended),
        Step::Holds(&[Holding("d", 1, 0), Holding("d/y", 0, 1)]),
        Step::Begin(5, Name(2, "y"), Busy),
        Step::Begin(5, Name(2, "x"), Go),
        Step::Holds(&[
            Holding("d", 2, 0),
            Holding("d/x", 1, 0),
            Holding("d/y", 0, 1),
        ]),
        Step::Finish(4, Outcome::Failed, Ended),
        Step::Begin(6, Remove(ROOT, "d"), Busy),
        Step::Finish(5, Outcome::Failed, NotGiven),
        Step::Holds(&[]),
        Step::Begin(6, Remove(ROOT, "d"), Go),
        Step::Holds(&[Holding("d", 0, 1)]),
    ],
    gathers: Sum::All(2, 3, 0, 0),
};

#[test]
fn first_stays_while_others_go(rt: HostRuntime) -> Result<(), Fail> {
    run(&rt, &FIRST_STAYS)
}

/// A removal of `d` and LOOKUPs of `a` and of `e` below it hold what they name, whether or not these have nodes.
const WHAT_IS_HELD: Story = Story {
    limits: DEFAULT,
    steps: &[
        Step::Holds(&[]),
        Step::LookUp(ROOT, "a", Given(2, 0)),
        Step::Holds(&[]),
        Step::Begin(1, Remove(ROOT, "d"), Go),
        Step::Holds(&[Holding("d", 0, 1)]),
        Step::Begin(2, Name(2, "e"), Go),
        Step::Begin(3, Name(ROOT, "a"), Go),
        Step::Holds(&[Holding("d", 0, 1), Holding("a", 2, 0), Holding("a/e", 1, 0)]),
        Step::Finish(1, Outcome::Failed, Ended),
        Step::Finish(2, Outcome::Failed, NotGiven),
        Step::Finish(3, Outcome::Failed, NotGiven),
        Step::Holds(&[]),
        Step::Requests(&[
            Flying(1, Answered, &[1]),
            Flying(2, Answered, &[2]),
            Flying(3, Answered, &[1, 2]),
        ]),
    ],
    gathers: Sum::All(1, 1, 0, 0),
};

#[test]
fn export_shows_what_is_held(rt: HostRuntime) -> Result<(), Fail> {
    run(&rt, &WHAT_IS_HELD)
}

/// The path of a ticket is that of its node, or of its name.
const PATHS: Story = Story {
    limits: DEFAULT,
    steps: &[
        Step::LookUp(ROOT, "d", Given(2, 0)),
        Step::LookUp(2, "x", Given(3, 0)),
        Step::Begin(1, Node(ROOT), Go),
        Step::Paths(1, &[""]),
        Step::Begin(2, Node(2), Go),
        Step::Paths(2, &["d"]),
        Step::Begin(3, Node(3), Go),
        Step::Paths(3, &["d/x"]),
        Step::Begin(4, Name(3, "e"), Go),
        Step::Paths(4, &["d/x/e"]),
        Step::Begin(5, Remove(2, "y"), Go),
        Step::Paths(5, &["d/y"]),
        Step::Begin(6, Move(2, "z", ROOT, "f"), Go),
        Step::Paths(6, &["d/z", "f"]),
    ],
    gathers: Sum::All(2, 2, 0, 0),
};

#[test]
fn path_of_node(rt: HostRuntime) -> Result<(), Fail> {
    run(&rt, &PATHS)
}
