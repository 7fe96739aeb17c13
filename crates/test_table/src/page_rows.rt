//! Several names of a folder in one request.

use crate::story::Asks::{Move, Name, Node, Page, Remove};
use crate::story::Posted::{Back, Born, Entry, Forget};
use crate::story::Spot::At;
use crate::story::Told::{Amount, Busy, Ended, Gave, Given, Go, Lost, NotGiven, Refused, Settled};
use crate::story::{DEFAULT, Flying, Holding, Living, Outcome, ROOT, Reply, Step, Story, Sum, TOP};
use crate::teller::run;
use errno::{ENFILE, ESTALE};
use std::test::Fail;
use table::Limits;
use table_image::ImageStage::{Answered, Working};

/// A page holds none of its names, so `a` can be removed meanwhile. It gets no entry while it is held exclusively.
const REMOVED_MEANWHILE: Story = Story {
    limits: DEFAULT,
    steps: &[
        Step::Begin(1, Page(ROOT, &["a", "e"]), Go),
        Step::Paths(1, &["", "a", "e"]),
        Step::Holds(&[]),
        Step::Begin(2, Remove(ROOT, "a"), Go),
        Step::Holds(&[Holding("a", 0, 1)]),
        Step::Finish(1, Outcome::Entries(&[true, true]), Gave(1)),
        Step::Lists(1, &[None, Some((2, 0))]),
        Step::Ledger(&[Born(2, 0), Entry(2, 0)]),
        Step::Nodes(&[TOP, Living(2, 0, At(ROOT, "e"), 1)]),
        Step::Requests(&[Flying(1, Answered, &[1, 2]), Flying(2, Working, &[1])]),
        Step::Finish(2, Outcome::Done, Ended),
        Step::Settle(1, Reply::Taken, Settled(1)),
    ],
    gathers: Sum::All(1, 1, 0, 0),
};

#[test]
fn name_removed_meanwhile(rt: HostRuntime) -> Result<(), Fail> {
    run(&rt, &REMOVED_MEANWHILE)
}

/// After the removal has ended, no request holds the name any more, and an entry is given for a new node.
const REMOVED_BEFORE: Story = Story {
    limits: DEFAULT,
    steps: &[
        Step::LookUp(ROOT, "a", Given(2, 0)),
        Step::Begin(1, Page(ROOT, &["a"]), Go),
        Step::Begin(2, Remove(ROOT, "a"), Go),
        Step::Finish(2, Outcome::Done, Ended),
        Step::Finish(1, Outcome::Entries(&[true]), Given(3, 0)),
        Step::Ledger(&[Born(2, 0), Entry(2, 0), Born(3, 0), Entry(3, 0)]),
    ],
    gathers: Sum::All(2, 2, 0, 0),
};

#[test]
fn name_removed_before(rt: HostRuntime) -> Result<(), Fail> {
    run(&rt, &REMOVED_BEFORE)
}

/// A move holds both of its names. What is below a name that is held exclusively is in another folder.
const MOVED_MEANWHILE: Story = Story {
    limits: DEFAULT,
    steps: &[
        Step::LookUp(ROOT, "d", Given(2, 0)),
        Step::Begin(1, Page(ROOT, &["a", "b", "c"]), Go),
        Step::Begin(2, Page(2, &["a"]), Go),
        Step::Begin(3, Move(ROOT, "a", ROOT, "b"), Go),
        Step::Begin(4, Remove(2, "c"), Go),
        Step::Finish(1, Outcome::Entries(&[true, true, true]), Gave(1)),
        Step::Lists(1, &[None, None, Some((3, 0))]),
        Step::Finish(2, Outcome::Entries(&[true]), Given(4, 0)),
    ],
    gathers: Sum::All(3, 3, 0, 0),
};

#[test]
fn names_moved_meanwhile(rt: HostRuntime) -> Result<(), Fail> {
    run(&rt, &MOVED_MEANWHILE)
}

/// Nodes with the names are pinned, and get another entry. A name that was not found gets none.
const KNOWN: Story = Story {
    limits: DEFAULT,
    steps: &[
        Step::LookUp(ROOT, "a", Given(2, 0)),
        Step::LookUp(ROOT, "d", Given(3, 0)),
        Step::Begin(1, Page(ROOT, &["d", "b", "a", "c"]), Go),
        Step::Requests(&[Flying(1, Working, &[1, 2, 3])]),
        Step::Forget(2, 1, Amount(1)),
        Step::Finish(1, Outcome::Entries(&[true, false, true, true]), Gave(3)),
        Step::Lists(1, &[Some((3, 0)), None, Some((2, 0)), Some((4, 0))]),
        Step::Requests(&[Flying(1, Answered, &[1, 2, 3, 4])]),
        Step::Settle(1, Reply::Taken, Settled(3)),
        Step::Nodes(&[
            TOP,
            Living(2, 0, At(ROOT, "a"), 1),
            Living(3, 0, At(ROOT, "d"), 2),
            Living(4, 0, At(ROOT, "c"), 1),
        ]),
        Step::Forget(3, 2, Amount(2)),
    ],
    gathers: Sum::All(3, 5, 0, 3),
};

#[test]
fn known_names(rt: HostRuntime) -> Result<(), Fail> {
    run(&rt, &KNOWN)
}

/// Postings are in the order of the names, and a name that comes twice gets two entries.
const IN_ORDER: Story = Story {
    limits: DEFAULT,
    steps: &[
        Step::Begin(1, Page(ROOT, &["e", "a", "e"]), Go),
        Step::Finish(1, Outcome::Entries(&[true, true, true]), Gave(3)),
        Step::Lists(1, &[Some((2, 0)), Some((3, 0)), Some((2, 0))]),
        Step::Ledger(&[
            Born(2, 0),
            Entry(2, 0),
            Born(3, 0),
            Entry(3, 0),
            Entry(2, 0),
        ]),
    ],
    gathers: Sum::All(2, 3, 0, 0),
};

#[test]
fn names_in_order(rt: HostRuntime) -> Result<(), Fail> {
    run(&rt, &IN_ORDER)
}

/// Each entry of a page that was not taken is given back, in order, if its count is above 0.
const UNTAKEN: Story = Story {
    limits: DEFAULT,
    steps: &[
        Step::Begin(1, Page(ROOT, &["a", "b", "c"]), Go),
        Step::Finish(1, Outcome::Entries(&[true, true, true]), Gave(3)),
        Step::Forget(3, 1, Amount(1)),
        Step::Settle(1, Reply::Untaken, Settled(3)),
        Step::Ledger(&[
            Born(2, 0),
            Entry(2, 0),
            Born(3, 0),
            Entry(3, 0),
            Born(4, 0),
            Entry(4, 0),
            Forget(3, 0, 1),
            Back(2, 0),
            Back(4, 0),
        ]),
        Step::Nodes(&[TOP]),
        Step::Requests(&[]),
    ],
    gathers: Sum::All(3, 3, 2, 1),
};

#[test]
fn untaken_page(rt: HostRuntime) -> Result<(), Fail> {
    run(&rt, &UNTAKEN)
}

/// A page shares the path of its folder and its prefixes.
const HELD: Story = Story {
    limits: DEFAULT,
    steps: &[
        Step::LookUp(ROOT, "d", Given(2, 0)),
        Step::LookUp(2, "f", Given(3, 0)),
        Step::Begin(1, Page(3, &["x"]), Go),
        Step::Paths(1, &["d/f", "d/f/x"]),
        Step::Holds(&[Holding("d", 1, 0), Holding("d/f", 1, 0)]),
        Step::Begin(2, Remove(2, "f"), Busy),
        Step::Begin(2, Move(ROOT, "d", ROOT, "b"), Busy),
        Step::Begin(2, Remove(3, "x"), Go),
        Step::Begin(3, Name(3, "x"), Busy),
        Step::Begin(3, Page(3, &["x"]), Go),
        Step::Finish(1, Outcome::Failed, NotGiven),
        Step::Finish(3, Outcome::Entries(&[true]), NotGiven),
        Step::Finish(2, Outcome::Done, Ended),
        Step::Begin(4, Remove(2, "f"), Go),
        Step::Begin(5, Page(3, &["x"]), Busy),
    ],
    gathers: Sum::All(2, 2, 0, 0),
};

#[test]
fn folder_is_held(rt: HostRuntime) -> Result<(), Fail> {
    run(&rt, &HELD)
}

/// An outcome that does not fit a page, or is not about as many names, acts as a failure; a page's outcome does not fit
/// another request.
const MISFIT: Story = Story {
    limits: DEFAULT,
    steps: &[
        Step::Begin(1, Page(ROOT, &["a", "e"]), Go),
        Step::Finish(1, Outcome::Entries(&[true]), Gave(0)),
        Step::Lists(1, &[None, None]),
        Step::Begin(2, Page(ROOT, &["a", "e"]), Go),
        Step::Finish(2, Outcome::Entries(&[true, true, true]), Gave(0)),
        Step::Begin(3, Page(ROOT, &["a"]), Go),
        Step::Finish(3, Outcome::Entry, NotGiven),
        Step::Begin(4, Page(ROOT, &["a", "e"]), Go),
        Step::Finish(4, Outcome::Done, Gave(0)),
        Step::Begin(5, Name(ROOT, "a"), Go),
        Step::Finish(5, Outcome::Entries(&[true]), NotGiven),
        Step::Begin(6, Node(ROOT), Go),
        Step::Finish(6, Outcome::Entries(&[]), Ended),
        Step::Begin(7, Remove(ROOT, "a"), Go),
        Step::Finish(7, Outcome::Entries(&[true]), Ended),
        Step::Settle(1, Reply::Untaken, Settled(0)),
        Step::Nodes(&[TOP]),
        Step::Ledger(&[]),
    ],
    gathers: Sum::All(0, 0, 0, 0),
};

#[test]
fn misfit_pages(rt: HostRuntime) -> Result<(), Fail> {
    run(&rt, &MISFIT)
}

/// A page without names gives nothing, on a living folder.
const EMPTY: Story = Story {
    limits: DEFAULT,
    steps: &[
        Step::Begin(1, Page(ROOT, &[]), Go),
        Step::Paths(1, &[""]),
        Step::Finish(1, Outcome::Entries(&[]), Ended),
        Step::Begin(2, Page(9, &[]), Refused(ESTALE)),
        Step::Begin(2, Page(9, &["a"]), Refused(ESTALE)),
    ],
    gathers: Sum::All(0, 0, 0, 0),
};

#[test]
fn empty_page(rt: HostRuntime) -> Result<(), Fail> {
    run(&rt, &EMPTY)
}

/// The ticket of another table ends the page with its id, and the page's own ticket is then lost.
const STRANGER: Story = Story {
    limits: DEFAULT,
    steps: &[
        Step::Begin(1, Page(ROOT, &["a", "e"]), Go),
        Step::Stranger(9),
        Step::Finish(9, Outcome::Entries(&[false, true]), Gave(1)),
        Step::Lists(9, &[None, Some((2, 0))]),
        Step::Finish(1, Outcome::Entries(&[true, true]), Lost),
        Step::Lists(1, &[]),
        Step::Settle(1, Reply::Untaken, Settled(0)),
        Step::Ledger(&[Born(2, 0), Entry(2, 0)]),
    ],
    gathers: Sum::All(1, 1, 0, 0),
};

#[test]
fn lost_page(rt: HostRuntime) -> Result<(), Fail> {
    run(&rt, &STRANGER)
}

/// A page is promised a node for each of its names, even for one with a node.
const NODES: Story = Story {
    limits: Limits {
        nodes: 4,
        ..DEFAULT
    },
    steps: &[
        Step::LookUp(ROOT, "a", Given(2, 0)),
        Step::LookUp(ROOT, "b", Given(3, 0)),
        Step::Begin(1, Page(ROOT, &["a", "b"]), Refused(ENFILE)),
        Step::Begin(1, Page(ROOT, &["a"]), Go),
        Step::Begin(2, Page(ROOT, &["b"]), Refused(ENFILE)),
        Step::Begin(2, Page(ROOT, &[]), Go),
        Step::Finish(1, Outcome::Entries(&[true]), Given(2, 0)),
        Step::Begin(3, Page(ROOT, &["b"]), Go),
    ],
    gathers: Sum::All(2, 3, 0, 0),
};

#[test]
fn nodes_promised_to_pages(rt: HostRuntime) -> Result<(), Fail> {
    run(&rt, &NODES)
}

/// And three postings for each name.
const POSTINGS: Story = Story {
    limits: Limits {
        postings: 9,
        ..DEFAULT
    },
    steps: &[
        Step::LookUp(ROOT, "a", Given(2, 0)),
        Step::Begin(1, Page(ROOT, &["a", "b", "c"]), Refused(ENFILE)),
        Step::Begin(1, Page(ROOT, &["a", "b"]), Go),
        Step::Begin(2, Name(ROOT, "a"), Refused(ENFILE)),
        Step::Finish(1, Outcome::Entries(&[true, true]), Gave(2)),
        Step::Settle(1, Reply::Taken, Settled(2)),
        Step::Begin(2, Name(ROOT, "a"), Refused(ENFILE)),
    ],
    gathers: Sum::All(2, 3, 0, 0),
};

#[test]
fn postings_promised_to_pages(rt: HostRuntime) -> Result<(), Fail> {
    run(&rt, &POSTINGS)
}
