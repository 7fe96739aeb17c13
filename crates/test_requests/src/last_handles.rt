//! The last handle of a hidden file: its RELEASE removes it, and no earlier one does.

use crate::requests::CREATE_X;
use crate::stories::Says::{Bytes, Created, Done, Entry, Failed, Opened};
use crate::stories::Stands::{File, Folder, Nothing};
use crate::stories::{NOTHING, Story, tell_all};
use backing::PlannedFault::{After, Before};
use errno::{EBADF, EIO, ENOTEMPTY};
use std::test::Fail;
use wire::Operation::{self, Lookup, Open, Read, Release, RemoveDir, Unlink};

/// The first candidate for the file of node 2.
const FIRST: &str = ".fuse_hidden0000000200000000";

/// The first candidate for the file of node 3 after ten names were used up.
const OF_THREE: &str = ".fuse_hidden000000030000000a";

/// `a` is looked up, opened, removed, read through either of two handles, and closed.
const FOUND: (u64, Operation<'static>) = (1, Lookup { name: b"a" });

const OPENED: (u64, Operation<'static>) = (2, Open { flags: 0 });

const REMOVED: (u64, Operation<'static>) = (1, Unlink { name: b"a" });

const READ_ONE: (u64, Operation<'static>) = (
    2,
    Read {
        fh: 1,
        offset: 0,
        size: 10,
    },
);

const READ_TWO: (u64, Operation<'static>) = (
    2,
    Read {
        fh: 2,
        offset: 0,
        size: 10,
    },
);

const CLOSED_ONE: (u64, Operation<'static>) = (2, Release { fh: 1 });

const CLOSED_TWO: (u64, Operation<'static>) = (2, Release { fh: 2 });

/// It is opened once, removed and closed: five calls, the last of which removes it.
const ONCE: &[(u64, Operation)] = &[FOUND, OPENED, REMOVED, CLOSED_ONE];

/// Hidden files that are closed.
const STORIES: &[Story] = &[
    Story {
        says: "a removed file stays until its last handle is given up",
        asks: &[
            FOUND, OPENED, OPENED, REMOVED, READ_ONE, CLOSED_ONE, READ_TWO, CLOSED_TWO,
        ],
        // the removal by the last RELEASE, and then the one at the end
        faults: &[(8, Before(EIO)), (9, Before(EIO))],
        replies: &[
            Entry(2, File(3)),
            Opened(1),
            Opened(2),
            Done,
            Bytes(b"abc"),
            Done,
            Bytes(b"abc"),
            Done,
        ],
        after: &[(&["a"], Nothing), (&[FIRST], File(3))],
        ..NOTHING
    },
    Story {
        says: "it is gone with its last handle, and the next hidden file has the next names",
        asks: &[
            FOUND,
            OPENED,
            OPENED,
            REMOVED,
            READ_ONE,
            CLOSED_ONE,
            READ_TWO,
            CLOSED_TWO,
            (1, Lookup { name: b"e" }),
            (3, Open { flags: 0 }),
            (1, Unlink { name: b"e" }),
        ],
        // the removal at the end
        faults: &[(13, Before(EIO))],
        replies: &[
            Entry(2, File(3)),
            Opened(1),
            Opened(2),
            Done,
            Bytes(b"abc"),
            Done,
            Bytes(b"abc"),
            Done,
            Entry(3, File(0)),
            Opened(3),
            Done,
        ],
        after: &[
            (&["a"], Nothing),
            (&[FIRST], Nothing),
            (&["e"], Nothing),
            (&[OF_THREE], File(0)),
        ],
        ..NOTHING
    },
    Story {
        says: "its folder is empty once its last handle is given up",
        asks: &[
            (1, Lookup { name: b"d" }),
            (2, CREATE_X),
            (2, Unlink { name: b"x" }),
            (1, RemoveDir { name: b"d" }),
            (3, Release { fh: 1 }),
            (3, Release { fh: 1 }),
            (1, RemoveDir { name: b"d" }),
        ],
        replies: &[
            Entry(2, Folder),
            Created(3, 1),
            Done,
            Failed(ENOTEMPTY),
            Done,
            Failed(EBADF),
            Done,
        ],
        after: &[(&["d"], Nothing)],
        ..NOTHING
    },
    Story {
        says: "its removal fails: the client is told that it is closed, and the end of the session removes it",
        asks: ONCE,
        faults: &[(5, Before(EIO))],
        replies: &[Entry(2, File(3)), Opened(1), Done, Done],
        after: &[(&["a"], Nothing), (&[FIRST], Nothing)],
        ..NOTHING
    },
    Story {
        says: "its removal fails, and that at the end too: it is left",
        asks: ONCE,
        faults: &[(5, Before(EIO)), (6, Before(EIO))],
        replies: &[Entry(2, File(3)), Opened(1), Done, Done],
        after: &[(&["a"], Nothing), (&[FIRST], File(3))],
        ..NOTHING
    },
    Story {
        says: "its removal fails after its work: the client is told that it is closed",
        asks: ONCE,
        faults: &[(5, After(EIO))],
        replies: &[Entry(2, File(3)), Opened(1), Done, Done],
        after: &[(&["a"], Nothing), (&[FIRST], Nothing)],
        ..NOTHING
    },
];

#[test]
fn last_handle_of_a_hidden_file(rt: HostRuntime) -> Result<(), Fail> {
    tell_all(&rt, rt.alloc(), STORIES)
}
