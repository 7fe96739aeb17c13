//! Outcomes that do not fit, and tickets and answers of another table.

use crate::story::Asks::{Create, Name, Open};
use crate::story::Posted::{Back, Born, Entry};
use crate::story::Spot::At;
use crate::story::Told::{Ended, Given, Go, Lost, NotGiven, Settled};
use crate::story::{DEFAULT, Flying, Living, Outcome, ROOT, Reply, Step, Story, Sum, TOP};
use crate::teller::run;
use std::test::Fail;
use table_image::ImageStage::Answered;

/// An outcome that does not fit a LOOKUP acts as a failure.
const MISFIT: Story = Story {
    limits: DEFAULT,
    steps: &[
        Step::Begin(1, Name(ROOT, "a"), Go),
        Step::Finish(1, Outcome::Done, NotGiven),
        Step::Nodes(&[TOP]),
        Step::Ledger(&[]),
        Step::Requests(&[Flying(1, Answered, &[1])]),
        Step::Settle(1, Reply::Taken, Settled(0)),
        Step::Nodes(&[TOP]),
        Step::Ledger(&[]),
        Step::Requests(&[]),
    ],
    gathers: Sum::All(0, 0, 0, 0),
};

#[test]
fn misfit_outcome(rt: HostRuntime) -> Result<(), Fail> {
    run(&rt, &MISFIT)
}

/// A ticket of another table is passed to a table without requests in progress.
const STRANGER: Story = Story {
    limits: DEFAULT,
    steps: &[
        Step::LookUp(ROOT, "b", Given(2, 0)),
        Step::Stranger(9),
        Step::Finish(9, Outcome::Entry, Lost),
        Step::Nodes(&[TOP, Living(2, 0, At(ROOT, "b"), 1)]),
        Step::Ledger(&[Born(2, 0), Entry(2, 0)]),
        Step::Requests(&[]),
        Step::Settle(9, Reply::Untaken, Settled(0)),
        Step::Nodes(&[TOP, Living(2, 0, At(ROOT, "b"), 1)]),
        Step::Ledger(&[Born(2, 0), Entry(2, 0)]),
        Step::Requests(&[]),
    ],
    gathers: Sum::All(1, 1, 0, 0),
};

#[test]
fn foreign_ticket(rt: HostRuntime) -> Result<(), Fail> {
    run(&rt, &STRANGER)
}

/// It is passed to a table where a request with the same id is in progress: the name of that request decides, and not
/// `a`.
const STRANGER_OF_A_LIKE_ID: Story = Story {
    limits: DEFAULT,
    steps: &[
        Step::Begin(1, Name(ROOT, "b"), Go),
        Step::Stranger(9),
        Step::Finish(9, Outcome::Entry, Given(2, 0)),
        Step::Finish(1, Outcome::Entry, Lost),
        Step::Nodes(&[TOP, Living(2, 0, At(ROOT, "b"), 1)]),
        Step::Ledger(&[Born(2, 0), Entry(2, 0)]),
        Step::Requests(&[Flying(1, Answered, &[1, 2])]),
        Step::Settle(9, Reply::Taken, Settled(1)),
        Step::Requests(&[]),
    ],
    gathers: Sum::All(1, 1, 0, 0),
};

#[test]
fn foreign_ticket_on_a_like_id(rt: HostRuntime) -> Result<(), Fail> {
    run(&rt, &STRANGER_OF_A_LIKE_ID)
}

/// An answer of another table is passed to a table whose request with the same id gave and opened nothing. It has node
/// 3 and handle 1, which exist there: both remain, and the only effect is that request's end.
const ANSWER_TO_NOTHING: Story = Story {
    limits: DEFAULT,
    steps: &[
        Step::LookUp(ROOT, "a", Given(2, 0)),
        Step::Begin(1, Open(2), Go),
        Step::Finish(1, Outcome::Done, Ended),
        Step::Settle(1, Reply::Taken, Settled(0)),
        Step::LookUp(ROOT, "b", Given(3, 0)),
        Step::Begin(2, Name(ROOT, "c"), Go),
        Step::Finish(2, Outcome::Failed, NotGiven),
        Step::StrangersAnswer(9, 3),
        Step::Lists(9, &[Some((3, 0))]),
        Step::Settle(9, Reply::Untaken, Settled(1)),
        Step::Requests(&[]),
        Step::File(1, Some(2)),
        Step::Nodes(&[
            TOP,
            Living(2, 0, At(ROOT, "a"), 1),
            Living(3, 0, At(ROOT, "b"), 1),
        ]),
        Step::Ledger(&[Born(2, 0), Entry(2, 0), Born(3, 0), Entry(3, 0)]),
        Step::Settle(2, Reply::Untaken, Settled(0)),
        Step::File(1, Some(2)),
        Step::Ledger(&[Born(2, 0), Entry(2, 0), Born(3, 0), Entry(3, 0)]),
    ],
    gathers: Sum::All(2, 2, 0, 0),
};

/// The same if that request created a file of its own: its entry is given back and its file is closed, and no others.
const ANSWER_TO_ANOTHER: Story = Story {
    limits: DEFAULT,
    steps: &[
        Step::LookUp(ROOT, "a", Given(2, 0)),
        Step::Begin(1, Open(2), Go),
        Step::Finish(1, Outcome::Done, Ended),
        Step::Settle(1, Reply::Taken, Settled(0)),
        Step::LookUp(ROOT, "b", Given(3, 0)),
        Step::Begin(2, Create(ROOT, "c"), Go),
        Step::Finish(2, Outcome::Entry, Given(4, 0)),
        Step::File(2, Some(4)),
        Step::StrangersAnswer(9, 3),
        Step::Settle(9, Reply::Untaken, Settled(1)),
        Step::Requests(&[]),
        Step::File(1, Some(2)),
        Step::File(2, None),
        Step::Nodes(&[
            TOP,
            Living(2, 0, At(ROOT, "a"), 1),
            Living(3, 0, At(ROOT, "b"), 1),
        ]),
        Step::Ledger(&[
            Born(2, 0),
            Entry(2, 0),
            Born(3, 0),
            Entry(3, 0),
            Born(4, 0),
            Entry(4, 0),
            Back(4, 0),
        ]),
    ],
    gathers: Sum::All(3, 3, 1, 0),
};

/// An answer that gave and opened something is passed, as taken, to a table whose first request gave something else:
/// everything remains.
const TAKEN_ANSWER: Story = Story {
    limits: DEFAULT,
    steps: &[
        Step::Begin(1, Name(ROOT, "b"), Go),
        Step::Finish(1, Outcome::Entry, Given(2, 0)),
        Step::StrangersAnswer(9, 0),
        Step::Settle(9, Reply::Taken, Settled(1)),
        Step::Requests(&[]),
        Step::File(1, None),
        Step::Nodes(&[TOP, Living(2, 0, At(ROOT, "b"), 1)]),
        Step::Ledger(&[Born(2, 0), Entry(2, 0)]),
    ],
    gathers: Sum::All(1, 1, 0, 0),
};

#[test]
fn foreign_answers(rt: HostRuntime) -> Result<(), Fail> {
    for story in [&ANSWER_TO_NOTHING, &ANSWER_TO_ANOTHER, &TAKEN_ANSWER] {
        run(&rt, story)?;
    }
    Ok(())
}
