//! Handles, which are tested before everything else.

use crate::story::Asks::{Create, Node, Open, Read, Release, Remove};
use crate::story::Told::{Busy, Ended, Given, Go, Refused, Settled};
use crate::story::{DEFAULT, Outcome, ROOT, Reply, Step, Story, Sum};
use crate::teller::run;
use errno::{EAGAIN, EBADF, ENFILE, ESTALE};
use std::test::Fail;
use table::Limits;

#[test]
fn error_number_of_a_bad_handle(rt: HostRuntime) {
    assert_eq!(rt; EBADF, 9);
}

/// The handle is tested first: also if no node has the number, if the handle is that of another node or open only for
/// writing, if there is a conflict, and if the node has no path any more.
const HANDLE_FIRST: Story = Story {
    limits: DEFAULT,
    steps: &[
        Step::LookUp(ROOT, "a", Given(2, 0)),
        Step::Begin(1, Open(2), Go),
        Step::Finish(1, Outcome::Done, Ended),
        Step::Settle(1, Reply::Taken, Settled(0)),
        Step::Begin(2, Create(ROOT, "n"), Go),
        Step::Finish(2, Outcome::Entry, Given(3, 0)),
        Step::Settle(2, Reply::Taken, Settled(1)),
        Step::Begin(3, Node(9), Refused(ESTALE)),
        Step::Begin(3, Read(9, 7), Refused(EBADF)),
        Step::Begin(3, Read(9, 1), Refused(EBADF)),
        Step::Begin(3, Read(3, 2), Refused(EBADF)),
        Step::Begin(3, Release(9, 7), Refused(EBADF)),
        Step::Begin(3, Release(9, 1), Refused(EBADF)),
        Step::Begin(3, Remove(ROOT, "a"), Go),
        Step::Begin(4, Read(2, 1), Busy),
        Step::Begin(4, Read(2, 2), Refused(EBADF)),
        Step::Begin(4, Release(2, 1), Busy),
        Step::Begin(4, Release(2, 2), Refused(EBADF)),
        Step::Finish(3, Outcome::Done, Ended),
        Step::Settle(3, Reply::Taken, Settled(0)),
        Step::Begin(4, Node(2), Refused(ESTALE)),
        Step::Begin(4, Open(2), Refused(ESTALE)),
        Step::Begin(4, Read(2, 1), Refused(ESTALE)),
        Step::Begin(4, Read(2, 2), Refused(EBADF)),
        Step::Begin(4, Release(2, 1), Go),
        Step::Begin(5, Read(2, 1), Refused(EBADF)),
        Step::Begin(5, Release(2, 1), Refused(EBADF)),
        Step::File(1, None),
        Step::File(2, Some(3)),
    ],
    gathers: Sum::All(2, 2, 0, 0),
};

/// It is tested before the requests in flight too, and so is the limit on open files. A release that is refused closes
/// nothing.
const HANDLE_BEFORE_FLIGHTS: Story = Story {
    limits: Limits {
        flights: 1,
        files: 1,
        ..DEFAULT
    },
    steps: &[
        Step::LookUp(ROOT, "a", Given(2, 0)),
        Step::Begin(1, Open(2), Go),
        Step::Begin(2, Open(2), Refused(ENFILE)),
        Step::Finish(1, Outcome::Done, Ended),
        Step::Begin(2, Open(9), Refused(ESTALE)),
        Step::Begin(2, Open(2), Refused(ENFILE)),
        Step::Begin(2, Create(9, "n"), Refused(ESTALE)),
        Step::Begin(2, Create(ROOT, "n"), Refused(ENFILE)),
        Step::Begin(2, Read(2, 1), Refused(EAGAIN)),
        Step::Begin(2, Read(2, 9), Refused(EBADF)),
        Step::Begin(2, Release(2, 1), Refused(EAGAIN)),
        Step::Begin(2, Release(2, 9), Refused(EBADF)),
        Step::File(1, Some(2)),
        Step::Settle(1, Reply::Taken, Settled(0)),
        Step::Begin(2, Release(2, 1), Go),
        Step::File(1, None),
    ],
    gathers: Sum::All(1, 1, 0, 0),
};

#[test]
fn handle_is_tested_first(rt: HostRuntime) -> Result<(), Fail> {
    for story in [&HANDLE_FIRST, &HANDLE_BEFORE_FLIGHTS] {
        run(&rt, story)?;
    }
    Ok(())
}
