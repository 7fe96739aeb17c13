//! Further names of files.

use crate::story::Asks::{Create, Link, Move, Name, Node, Remove};
use crate::story::Posted::{Back, Born, Entry};
use crate::story::Spot::{At, Cut};
use crate::story::Told::{Amount, Busy, Ended, Given, Go, NotGiven, Refused, Settled};
use crate::story::{DEFAULT, Flying, Holding, Living, Outcome, ROOT, Reply, Step, Story, Sum, TOP};
use crate::teller::run;
use errno::{ENFILE, ESTALE};
use std::test::Fail;
use table::Limits;
use table_image::ImageStage::{Answered, Working};

/// The further name gets a node of its own, and the old one stays as it is. Meanwhile both paths are shared.
const NEW_NODE: Story = Story {
    limits: DEFAULT,
    steps: &[
        Step::LookUp(ROOT, "a", Given(2, 0)),
        Step::LookUp(ROOT, "d", Given(3, 0)),
        Step::Begin(1, Link(2, 3, "x"), Go),
        Step::Paths(1, &["a", "d/x"]),
        Step::Last(1, false),
        Step::Holds(&[Holding("a", 1, 0), Holding("d", 1, 0), Holding("d/x", 1, 0)]),
        Step::Requests(&[Flying(1, Working, &[2, 3])]),
        Step::Finish(1, Outcome::Entry, Given(4, 0)),
        Step::Holds(&[]),
        Step::Requests(&[Flying(1, Answered, &[2, 3, 4])]),
        Step::Settle(1, Reply::Taken, Settled(1)),
        Step::Nodes(&[
            TOP,
            Living(2, 0, At(ROOT, "a"), 1),
            Living(3, 0, At(ROOT, "d"), 1),
            Living(4, 0, At(3, "x"), 1),
        ]),
        Step::Ledger(&[
            Born(2, 0),
            Entry(2, 0),
            Born(3, 0),
            Entry(3, 0),
            Born(4, 0),
            Entry(4, 0),
        ]),
        Step::LookUp(ROOT, "a", Given(2, 0)),
        Step::LookUp(3, "x", Given(4, 0)),
    ],
    gathers: Sum::All(3, 5, 0, 0),
};

/// If the name has a node, a further lookup is counted on it, even if the name is that of the LINK's node: then the one
/// path is held once.
const KNOWN_NAME: Story = Story {
    limits: DEFAULT,
    steps: &[
        Step::LookUp(ROOT, "a", Given(2, 0)),
        Step::LookUp(ROOT, "b", Given(3, 0)),
        Step::Begin(1, Link(2, ROOT, "b"), Go),
        Step::Requests(&[Flying(1, Working, &[1, 2, 3])]),
        Step::Finish(1, Outcome::Entry, Given(3, 0)),
        Step::Settle(1, Reply::Taken, Settled(1)),
        Step::Begin(2, Link(2, ROOT, "a"), Go),
        Step::Holds(&[Holding("a", 1, 0)]),
        Step::Finish(2, Outcome::Entry, Given(2, 0)),
        Step::Settle(2, Reply::Taken, Settled(1)),
        Step::Nodes(&[
            TOP,
            Living(2, 0, At(ROOT, "a"), 2),
            Living(3, 0, At(ROOT, "b"), 2),
        ]),
        Step::Ledger(&[
            Born(2, 0),
            Entry(2, 0),
            Born(3, 0),
            Entry(3, 0),
            Entry(3, 0),
            Entry(2, 0),
        ]),
    ],
    gathers: Sum::All(2, 4, 0, 0),
};

#[test]
fn nodes_of_further_names(rt: HostRuntime) -> Result<(), Fail> {
    run(&rt, &NEW_NODE)?;
    run(&rt, &KNOWN_NAME)
}

/// Neither an unknown node nor one that is cut gets a further name, and there are no names under either. The path of a
/// LINK's node may be that of the root.
const STALE: Story = Story {
    limits: DEFAULT,
    steps: &[
        Step::LookUp(ROOT, "a", Given(2, 0)),
        Step::LookUp(ROOT, "d", Given(3, 0)),
        Step::Begin(1, Remove(ROOT, "d"), Go),
        Step::Finish(1, Outcome::Done, Ended),
        Step::Settle(1, Reply::Taken, Settled(0)),
        Step::Nodes(&[TOP, Living(2, 0, At(ROOT, "a"), 1), Living(3, 0, Cut, 1)]),
        Step::Begin(2, Link(9, ROOT, "x"), Refused(ESTALE)),
        Step::Begin(2, Link(3, ROOT, "x"), Refused(ESTALE)),
        Step::Begin(2, Link(2, 9, "x"), Refused(ESTALE)),
        Step::Begin(2, Link(2, 3, "x"), Refused(ESTALE)),
        Step::Begin(2, Link(9, 3, "x"), Refused(ESTALE)),
        Step::Begin(2, Link(0, ROOT, "x"), Refused(ESTALE)),
        Step::Requests(&[]),
        Step::Begin(2, Link(ROOT, ROOT, "x"), Go),
        Step::Paths(2, &["", "x"]),
        Step::Holds(&[Holding("x", 1, 0)]),
        Step::Requests(&[Flying(2, Working, &[1])]),
    ],
    gathers: Sum::All(2, 2, 0, 0),
};

#[test]
fn links_of_stale_nodes(rt: HostRuntime) -> Result<(), Fail> {
    run(&rt, &STALE)
}

/// While a RENAME holds `d` and `e`, a LINK waits whose node or whose name is at one of them or below. Afterwards the
/// node is where it was moved.
const LINK_WAITS: Story = Story {
    limits: DEFAULT,
    steps: &[
        Step::LookUp(ROOT, "d", Given(2, 0)),
        Step::LookUp(2, "x", Given(3, 0)),
        Step::LookUp(ROOT, "a", Given(4, 0)),
        Step::Begin(1, Move(ROOT, "d", ROOT, "e"), Go),
        Step::Begin(2, Link(2, ROOT, "b"), Busy),
        Step::Begin(2, Link(3, ROOT, "b"), Busy),
        Step::Begin(2, Link(4, ROOT, "d"), Busy),
        Step::Begin(2, Link(4, ROOT, "e"), Busy),
        Step::Begin(2, Link(4, 2, "y"), Busy),
        Step::Begin(2, Link(4, ROOT, "b"), Go),
        Step::Finish(2, Outcome::Failed, NotGiven),
        Step::Settle(2, Reply::Taken, Settled(0)),
        Step::Finish(1, Outcome::Done, Ended),
        Step::Settle(1, Reply::Taken, Settled(0)),
        Step::Begin(3, Link(3, ROOT, "d"), Go),
        Step::Paths(3, &["e/x", "d"]),
        Step::Finish(3, Outcome::Entry, Given(5, 0)),
        Step::Nodes(&[
            TOP,
            Living(2, 0, At(ROOT, "e"), 1),
            Living(3, 0, At(2, "x"), 1),
            Living(4, 0, At(ROOT, "a"), 1),
            Living(5, 0, At(ROOT, "d"), 1),
        ]),
    ],
    gathers: Sum::All(4, 4, 0, 0),
};

/// While a LINK of `d/x` to `e` is in progress, neither name is moved, removed or replaced, nor is the folder. Other
/// names are, and requests that only share a path go.
const OTHERS_WAIT: Story = Story {
    limits: DEFAULT,
    steps: &[
        Step::LookUp(ROOT, "d", Given(2, 0)),
        Step::LookUp(2, "x", Given(3, 0)),
        Step::Begin(1, Link(3, ROOT, "e"), Go),
        Step::Holds(&[Holding("d", 1, 0), Holding("d/x", 1, 0), Holding("e", 1, 0)]),
        Step::Begin(2, Move(2, "x", ROOT, "b"), Busy),
        Step::Begin(2, Move(ROOT, "b", 2, "x"), Busy),
        Step::Begin(2, Move(ROOT, "d", ROOT, "b"), Busy),
        Step::Begin(2, Move(ROOT, "b", ROOT, "e"), Busy),
        Step::Begin(2, Remove(2, "x"), Busy),
        Step::Begin(2, Remove(ROOT, "e"), Busy),
        Step::Begin(2, Move(2, "y", ROOT, "b"), Go),
        Step::Begin(3, Node(3), Go),
        Step::Begin(4, Name(ROOT, "e"), Go),
        Step::Begin(5, Create(ROOT, "e"), Go),
        Step::Finish(1, Outcome::Failed, NotGiven),
        Step::Finish(3, Outcome::Done, Ended),
        Step::Begin(6, Remove(2, "x"), Go),
        Step::Begin(7, Remove(ROOT, "e"), Busy),
    ],
    gathers: Sum::All(2, 2, 0, 0),
};

#[test]
fn links_hold_both_paths(rt: HostRuntime) -> Result<(), Fail> {
    run(&rt, &LINK_WAITS)?;
    run(&rt, &OTHERS_WAIT)
}

/// Two LINKs of one node go at once, also to one name: the node that the first gives to it is the second's.
const AT_ONCE: Story = Story {
    limits: DEFAULT,
    steps: &[
        Step::LookUp(ROOT, "a", Given(2, 0)),
        Step::Begin(1, Link(2, ROOT, "b"), Go),
        Step::Begin(2, Link(2, ROOT, "c"), Go),
        Step::Begin(3, Link(2, ROOT, "b"), Go),
        Step::Holds(&[Holding("a", 3, 0), Holding("b", 2, 0), Holding("c", 1, 0)]),
        Step::Finish(2, Outcome::Entry, Given(3, 0)),
        Step::Finish(1, Outcome::Entry, Given(4, 0)),
        Step::Holds(&[Holding("a", 1, 0), Holding("b", 1, 0)]),
        Step::Finish(3, Outcome::Entry, Given(4, 0)),
        Step::Settle(1, Reply::Taken, Settled(1)),
        Step::Settle(2, Reply::Taken, Settled(1)),
        Step::Settle(3, Reply::Untaken, Settled(1)),
        Step::Nodes(&[
            TOP,
            Living(2, 0, At(ROOT, "a"), 1),
            Living(3, 0, At(ROOT, "c"), 1),
            Living(4, 0, At(ROOT, "b"), 1),
        ]),
    ],
    gathers: Sum::All(3, 4, 1, 0),
};

#[test]
fn two_links_at_once(rt: HostRuntime) -> Result<(), Fail> {
    run(&rt, &AT_ONCE)
}

/// A LINK that failed gives nothing, and neither does one whose outcome does not fit. An entry that was not taken is
/// given back, and its node is dropped.
const NOTHING_GIVEN: Story = Story {
    limits: DEFAULT,
    steps: &[
        Step::LookUp(ROOT, "a", Given(2, 0)),
        Step::Begin(1, Link(2, ROOT, "b"), Go),
        Step::Finish(1, Outcome::Failed, NotGiven),
        Step::Lists(1, &[None]),
        Step::Settle(1, Reply::Taken, Settled(0)),
        Step::Begin(2, Link(2, ROOT, "b"), Go),
        Step::Finish(2, Outcome::Done, NotGiven),
        Step::Settle(2, Reply::Untaken, Settled(0)),
        Step::Begin(3, Link(2, ROOT, "b"), Go),
        Step::Finish(3, Outcome::Hidden(0), NotGiven),
        Step::Settle(3, Reply::Taken, Settled(0)),
        Step::Ledger(&[Born(2, 0), Entry(2, 0)]),
        Step::Begin(4, Link(2, ROOT, "b"), Go),
        Step::Finish(4, Outcome::Entry, Given(3, 0)),
        Step::Lists(4, &[Some((3, 0))]),
        Step::Settle(4, Reply::Untaken, Settled(1)),
        Step::Nodes(&[TOP, Living(2, 0, At(ROOT, "a"), 1)]),
        Step::Ledger(&[Born(2, 0), Entry(2, 0), Born(3, 0), Entry(3, 0), Back(3, 0)]),
    ],
    gathers: Sum::All(2, 2, 1, 0),
};

#[test]
fn links_that_give_nothing(rt: HostRuntime) -> Result<(), Fail> {
    run(&rt, &NOTHING_GIVEN)
}

/// There may be three nodes. A LINK is promised one if its name has none. Its node stays until it is settled, although
/// it was forgotten.
const PROMISES: Story = Story {
    limits: Limits {
        nodes: 3,
        ..DEFAULT
    },
    steps: &[
        Step::LookUp(ROOT, "a", Given(2, 0)),
        Step::Begin(1, Link(2, ROOT, "b"), Go),
        Step::Begin(2, Link(2, ROOT, "c"), Refused(ENFILE)),
        Step::Begin(2, Name(ROOT, "c"), Refused(ENFILE)),
        Step::Begin(2, Link(2, ROOT, "a"), Go),
        Step::Forget(2, 1, Amount(1)),
        Step::Finish(2, Outcome::Failed, NotGiven),
        Step::Settle(2, Reply::Taken, Settled(0)),
        Step::Finish(1, Outcome::Entry, Given(3, 0)),
        Step::Nodes(&[
            TOP,
            Living(2, 0, At(ROOT, "a"), 0),
            Living(3, 0, At(ROOT, "b"), 1),
        ]),
        Step::Settle(1, Reply::Taken, Settled(1)),
        Step::Nodes(&[TOP, Living(3, 0, At(ROOT, "b"), 1)]),
    ],
    gathers: Sum::All(2, 2, 0, 1),
};

#[test]
fn links_are_promised_nodes(rt: HostRuntime) -> Result<(), Fail> {
    run(&rt, &PROMISES)
}
