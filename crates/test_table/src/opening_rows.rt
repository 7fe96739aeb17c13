//! Opening files, and what their handles may be used for.

use crate::story::Asks::{Create, Open, Page, Read};
use crate::story::Told::{Amount, Ended, Gave, Given, Go, NotGiven, Refused, Settled};
use crate::story::{DEFAULT, Living, Outcome, Posted, ROOT, Reply, Spot, Step, Story, Sum};
use crate::teller::run;
use errno::{EBADF, ENFILE};
use std::test::Fail;
use table::Limits;

/// A file is created, and the reply is not taken: its handle is closed, and the entry is given back.
const UNTAKEN: Story = Story {
    limits: DEFAULT,
    steps: &[
        Step::Begin(1, Create(ROOT, "n"), Go),
        Step::Finish(1, Outcome::Entry, Given(2, 0)),
        Step::File(1, Some(2)),
        Step::Settle(1, Reply::Untaken, Settled(1)),
        Step::File(1, None),
        Step::Ledger(&[Posted::Born(2, 0), Posted::Entry(2, 0), Posted::Back(2, 0)]),
        Step::Nodes(&[Living(ROOT, 0, Spot::Root, 0)]),
        Step::Begin(2, Create(ROOT, "n"), Go),
        Step::Finish(2, Outcome::Entry, Given(2, 1)),
        Step::File(1, None),
        Step::File(2, Some(2)),
        Step::Settle(2, Reply::Taken, Settled(1)),
    ],
    gathers: Sum::All(2, 2, 1, 0),
};

#[test]
fn untaken_create(rt: HostRuntime) -> Result<(), Fail> {
    run(&rt, &UNTAKEN)
}

/// One file may be open: that of `a`, whose node is kept alive only by it after its lookup is forgotten.
const ONE_FILE: Story = Story {
    limits: Limits {
        files: 1,
        ..DEFAULT
    },
    steps: &[
        Step::LookUp(ROOT, "a", Given(2, 0)),
        Step::Begin(1, Read(2, 1), Refused(EBADF)),
        Step::Begin(1, Open(2), Go),
        Step::Begin(2, Open(2), Refused(ENFILE)),
        Step::Finish(1, Outcome::Done, Ended),
        Step::Settle(1, Reply::Taken, Settled(0)),
        Step::File(1, Some(2)),
        Step::Begin(2, Open(2), Refused(ENFILE)),
        Step::Begin(2, Create(ROOT, "n"), Refused(ENFILE)),
        Step::Begin(2, Read(ROOT, 1), Refused(EBADF)),
        Step::Begin(2, Read(2, 2), Refused(EBADF)),
        Step::Forget(2, 1, Amount(1)),
        Step::Nodes(&[
            Living(ROOT, 0, Spot::Root, 0),
            Living(2, 0, Spot::At(ROOT, "a"), 0),
        ]),
        Step::Begin(2, Read(2, 1), Go),
        Step::Finish(2, Outcome::Done, Ended),
        Step::Settle(2, Reply::Taken, Settled(0)),
    ],
    gathers: Sum::All(1, 1, 0, 1),
};

#[test]
fn one_open_file(rt: HostRuntime) -> Result<(), Fail> {
    run(&rt, &ONE_FILE)
}

/// No outcome that does not fit opens a file: an entry or findings for an OPEN, and findings or Done for a CREATE.
const MISFITS: Story = Story {
    limits: DEFAULT,
    steps: &[
        Step::LookUp(ROOT, "a", Given(2, 0)),
        Step::Begin(1, Open(2), Go),
        Step::Finish(1, Outcome::Entry, Ended),
        Step::Settle(1, Reply::Taken, Settled(0)),
        Step::Begin(2, Open(2), Go),
        Step::Finish(2, Outcome::Entries(&[]), Ended),
        Step::Settle(2, Reply::Taken, Settled(0)),
        Step::Begin(3, Create(ROOT, "n"), Go),
        Step::Finish(3, Outcome::Entries(&[true]), NotGiven),
        Step::Settle(3, Reply::Taken, Settled(0)),
        Step::Begin(4, Create(ROOT, "n"), Go),
        Step::Finish(4, Outcome::Done, NotGiven),
        Step::Settle(4, Reply::Taken, Settled(0)),
        Step::File(1, None),
        Step::Begin(5, Page(ROOT, &["a", "n"]), Go),
        Step::Begin(6, Create(ROOT, "n"), Go),
        Step::Finish(6, Outcome::Entry, Given(3, 0)),
        Step::File(1, Some(3)),
        Step::Finish(5, Outcome::Entries(&[true, true]), Gave(2)),
        Step::Lists(5, &[Some((2, 0)), Some((3, 0))]),
        Step::Settle(6, Reply::Untaken, Settled(1)),
        Step::File(1, None),
        Step::Settle(5, Reply::Taken, Settled(2)),
        Step::Nodes(&[
            Living(ROOT, 0, Spot::Root, 0),
            Living(2, 0, Spot::At(ROOT, "a"), 2),
            Living(3, 0, Spot::At(ROOT, "n"), 1),
        ]),
    ],
    gathers: Sum::All(2, 4, 1, 0),
};

#[test]
fn misfits_open_nothing(rt: HostRuntime) -> Result<(), Fail> {
    run(&rt, &MISFITS)
}
