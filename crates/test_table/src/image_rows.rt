//! What an export shows.

use crate::story::Asks::Name;
use crate::story::Posted::{Born, Entry, Forget};
use crate::story::Spot::At;
use crate::story::Told::{Amount, Given, Go};
use crate::story::{DEFAULT, Flying, Holding, Living, Outcome, ROOT, Step, Story, Sum, TOP};
use crate::teller::run;
use std::test::Fail;
use table_image::ImageStage::{Answered, Working};

const OPENED: Story = Story {
    limits: DEFAULT,
    steps: &[
        Step::Nodes(&[TOP]),
        Step::Ledger(&[]),
        Step::Requests(&[]),
        Step::Holds(&[]),
    ],
    gathers: Sum::All(0, 0, 0, 0),
};

#[test]
fn opened_table_exports_the_root(rt: HostRuntime) -> Result<(), Fail> {
    run(&rt, &OPENED)
}

/// Node 2 is `a` with two lookups, one of which was given back; node 3 is `x` below it, not settled; `e` was begun.
const WORKED: Story = Story {
    limits: DEFAULT,
    steps: &[
        Step::LookUp(ROOT, "a", Given(2, 0)),
        Step::LookUp(ROOT, "a", Given(2, 0)),
        Step::Forget(2, 1, Amount(1)),
        Step::Begin(1, Name(2, "x"), Go),
        Step::Finish(1, Outcome::Entry, Given(3, 0)),
        Step::Begin(2, Name(ROOT, "e"), Go),
        Step::Nodes(&[
            TOP,
            Living(2, 0, At(ROOT, "a"), 1),
            Living(3, 0, At(2, "x"), 1),
        ]),
        Step::Ledger(&[
            Born(2, 0),
            Entry(2, 0),
            Entry(2, 0),
            Forget(2, 0, 1),
            Born(3, 0),
            Entry(3, 0),
        ]),
        Step::Requests(&[Flying(1, Answered, &[2, 3]), Flying(2, Working, &[1])]),
        Step::Holds(&[Holding("e", 1, 0)]),
    ],
    gathers: Sum::All(2, 3, 0, 1),
};

#[test]
fn export_shows_what_was_done(rt: HostRuntime) -> Result<(), Fail> {
    run(&rt, &WORKED)
}
