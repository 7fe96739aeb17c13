//! Closing files: when the handle is closed, and what its node reserves meanwhile.

use crate::story::Asks::{Name, Open, Read, Release, Remove, Unlink};
use crate::story::Spot::{At, Cut, Hidden};
use crate::story::Told::{Amount, Busy, Ended, Given, Go, Refused, Settled};
use crate::story::{DEFAULT, Flying, Holding, Living, Outcome, ROOT, Reply, Step, Story, Sum, TOP};
use crate::teller::run;
use errno::EBADF;
use std::test::Fail;
use table::Limits;
use table_image::ImageStage::Working;

/// One file may be open. Its handle is closed when the release begins, so that another file may then be opened, under
/// the next handle; and it stays closed whatever the outcome of the release.
const AT_ONCE: Story = Story {
    limits: Limits {
        files: 1,
        ..DEFAULT
    },
    steps: &[
        Step::LookUp(ROOT, "a", Given(2, 0)),
        Step::Begin(1, Open(2), Go),
        Step::Finish(1, Outcome::Done, Ended),
        Step::Settle(1, Reply::Taken, Settled(0)),
        Step::Begin(2, Release(ROOT, 1), Refused(EBADF)),
        Step::Begin(2, Release(2, 2), Refused(EBADF)),
        Step::File(1, Some(2)),
        Step::Begin(2, Release(2, 1), Go),
        Step::File(1, None),
        Step::Paths(2, &["a"]),
        Step::Holds(&[Holding("a", 1, 0)]),
        Step::Requests(&[Flying(2, Working, &[2])]),
        Step::Begin(3, Release(2, 1), Refused(EBADF)),
        Step::Begin(3, Open(2), Go),
        Step::Finish(3, Outcome::Done, Ended),
        Step::File(1, None),
        Step::File(2, Some(2)),
        Step::Finish(2, Outcome::Failed, Ended),
        Step::Settle(2, Reply::Untaken, Settled(0)),
        Step::Settle(3, Reply::Taken, Settled(0)),
        Step::File(1, None),
        Step::Begin(4, Read(2, 1), Refused(EBADF)),
        Step::Nodes(&[TOP, Living(2, 0, At(ROOT, "a"), 1)]),
    ],
    gathers: Sum::All(1, 1, 0, 0),
};

#[test]
fn released_at_once(rt: HostRuntime) -> Result<(), Fail> {
    run(&rt, &AT_ONCE)
}

/// A name is removed while two files of its node are open. A release waits for the removal. After the node is cut, a
/// release holds, pins and has nothing, and that of the last file drops the node at once.
const OF_A_CUT_NODE: Story = Story {
    limits: DEFAULT,
    steps: &[
        Step::LookUp(ROOT, "a", Given(2, 0)),
        Step::Begin(1, Open(2), Go),
        Step::Finish(1, Outcome::Done, Ended),
        Step::Settle(1, Reply::Taken, Settled(0)),
        Step::Begin(2, Open(2), Go),
        Step::Finish(2, Outcome::Done, Ended),
        Step::Settle(2, Reply::Taken, Settled(0)),
        Step::Forget(2, 1, Amount(1)),
        Step::Begin(3, Remove(ROOT, "a"), Go),
        Step::Begin(4, Release(2, 1), Busy),
        Step::File(1, Some(2)),
        Step::Finish(3, Outcome::Done, Ended),
        Step::Settle(3, Reply::Taken, Settled(0)),
        Step::Nodes(&[TOP, Living(2, 0, Cut, 0)]),
        Step::Begin(4, Release(2, 1), Go),
        Step::Paths(4, &[]),
        Step::Holds(&[]),
        Step::Requests(&[Flying(4, Working, &[])]),
        Step::Nodes(&[TOP, Living(2, 0, Cut, 0)]),
        Step::Begin(5, Release(2, 2), Go),
        Step::Nodes(&[TOP]),
        Step::Begin(6, Release(2, 2), Refused(EBADF)),
        Step::Finish(4, Outcome::Done, Ended),
        Step::Finish(5, Outcome::Done, Ended),
        Step::Settle(4, Reply::Taken, Settled(0)),
        Step::Settle(5, Reply::Taken, Settled(0)),
        Step::LookUp(ROOT, "b", Given(2, 1)),
        Step::Begin(7, Open(2), Go),
        Step::Finish(7, Outcome::Done, Ended),
        Step::File(2, None),
        Step::File(3, Some(2)),
        Step::Settle(7, Reply::Taken, Settled(0)),
    ],
    gathers: Sum::All(2, 2, 0, 1),
};

#[test]
fn release_of_a_cut_node(rt: HostRuntime) -> Result<(), Fail> {
    run(&rt, &OF_A_CUT_NODE)
}

/// Two files of `d/a` are open when it is hidden. The release of the first is like any other. That of the second says
/// that it is the last, and holds the hidden name exclusively. When it is done the node is cut: the node is dropped
/// when the request is settled, and its folder, which nothing keeps alive any more, at once.
const OF_A_HIDDEN_FILE: Story = Story {
    limits: DEFAULT,
    steps: &[
        Step::LookUp(ROOT, "d", Given(2, 0)),
        Step::LookUp(2, "a", Given(3, 0)),
        Step::Begin(1, Open(3), Go),
        Step::Finish(1, Outcome::Done, Ended),
        Step::Settle(1, Reply::Taken, Settled(0)),
        Step::Begin(2, Open(3), Go),
        Step::Finish(2, Outcome::Done, Ended),
        Step::Settle(2, Reply::Taken, Settled(0)),
        Step::Begin(3, Unlink(2, "a"), Go),
        Step::Last(3, false),
        Step::Finish(3, Outcome::Hidden(0), Ended),
        Step::Settle(3, Reply::Taken, Settled(0)),
        Step::Forget(3, 1, Amount(1)),
        Step::Forget(2, 1, Amount(1)),
        Step::Begin(4, Release(3, 1), Go),
        Step::Last(4, false),
        Step::Paths(4, &["d/.fuse_hidden0000000300000000"]),
        Step::Holds(&[
            Holding("d", 1, 0),
            Holding("d/.fuse_hidden0000000300000000", 1, 0),
        ]),
        Step::Finish(4, Outcome::Done, Ended),
        Step::Settle(4, Reply::Taken, Settled(0)),
        Step::Nodes(&[
            TOP,
            Living(2, 0, At(ROOT, "d"), 0),
            Living(3, 0, Hidden(2, ".fuse_hidden0000000300000000"), 0),
        ]),
        Step::Begin(5, Release(3, 2), Go),
        Step::Last(5, true),
        Step::Paths(5, &["d/.fuse_hidden0000000300000000"]),
        Step::Holds(&[
            Holding("d", 1, 0),
            Holding("d/.fuse_hidden0000000300000000", 0, 1),
        ]),
        Step::Requests(&[Flying(5, Working, &[3])]),
        Step::Begin(6, Name(2, ".fuse_hidden0000000300000000"), Busy),
        Step::Finish(5, Outcome::Done, Ended),
        Step::Nodes(&[TOP, Living(3, 0, Cut, 0)]),
        Step::Settle(5, Reply::Taken, Settled(0)),
        Step::Nodes(&[TOP]),
    ],
    gathers: Sum::All(2, 2, 0, 2),
};

#[test]
fn last_release_of_a_hidden_file(rt: HostRuntime) -> Result<(), Fail> {
    run(&rt, &OF_A_HIDDEN_FILE)
}

/// A release of the last handle that failed leaves the hidden file, with its mark.
const OF_A_FILE_THAT_STAYS: Story = Story {
    limits: DEFAULT,
    steps: &[
        Step::LookUp(ROOT, "a", Given(2, 0)),
        Step::Begin(1, Open(2), Go),
        Step::Finish(1, Outcome::Done, Ended),
        Step::Settle(1, Reply::Taken, Settled(0)),
        Step::Begin(2, Unlink(ROOT, "a"), Go),
        Step::Finish(2, Outcome::Hidden(0), Ended),
        Step::Settle(2, Reply::Taken, Settled(0)),
        Step::Forget(2, 1, Amount(1)),
        Step::Begin(3, Release(2, 1), Go),
        Step::Last(3, true),
        Step::File(1, None),
        Step::Finish(3, Outcome::Failed, Ended),
        Step::Settle(3, Reply::Taken, Settled(0)),
        Step::Nodes(&[
            TOP,
            Living(2, 0, Hidden(ROOT, ".fuse_hidden0000000200000000"), 0),
        ]),
    ],
    gathers: Sum::All(1, 1, 0, 1),
};

#[test]
fn hidden_file_stays(rt: HostRuntime) -> Result<(), Fail> {
    run(&rt, &OF_A_FILE_THAT_STAYS)
}
