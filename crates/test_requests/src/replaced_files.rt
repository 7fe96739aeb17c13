//! Files to whose names others are moved while they are open: they are hidden, and used through their handles.

use crate::requests::CREATE_X;
use crate::stories::Says::{Attributes, Bytes, Created, Done, Entry, Failed, Opened, Wrote};
use crate::stories::Stands::{File, Folder, Nothing};
use crate::stories::{NOTHING, Story, tell_all};
use backing::PlannedFault::Before;
use errno::{EBUSY, EIO, ENOENT, ENOTDIR};
use std::test::Fail;
use wire::Operation::{self, GetAttr, Lookup, Open, Read, Release, Rename, Unlink, Write};

/// The first candidate for the file of node 2.
const FIRST: &str = ".fuse_hidden0000000200000000";

/// The first candidate for the file of node 3.
const OF_THREE: &str = ".fuse_hidden0000000300000000";

/// `a` is looked up and opened, with two calls.
const FOUND: (u64, Operation<'static>) = (1, Lookup { name: b"a" });

const OPENED: (u64, Operation<'static>) = (2, Open { flags: 0 });

/// Another file is moved onto it.
const MOVED: (u64, Operation<'static>) = (
    1,
    Rename {
        name: b"e",
        new_parent: 1,
        new_name: b"a",
    },
);

/// It is read through its handle.
const READ: (u64, Operation<'static>) = (
    2,
    Read {
        fh: 1,
        offset: 0,
        size: 10,
    },
);

/// A move onto an open file, and how it fails.
const HIDDEN_THEN_RENAME_FAILS: &[Story] = &[
    Story {
        says: "the file is hidden, and then the move fails",
        asks: &[
            FOUND,
            OPENED,
            MOVED,
            FOUND,
            READ,
            (1, Lookup { name: b"e" }),
        ],
        // the fourth call of the RENAME, and the removal at the end
        faults: &[(6, Before(EIO)), (10, Before(EIO))],
        replies: &[
            Entry(2, File(3)),
            Opened(1),
            Failed(EIO),
            Failed(ENOENT),
            Bytes(b"abc"),
            Entry(3, File(0)),
        ],
        after: &[(&["a"], Nothing), (&[FIRST], File(3)), (&["e"], File(0))],
        ..NOTHING
    },
    Story {
        says: "the file is hidden, and another stands at its place",
        asks: &[
            FOUND,
            (1, Lookup { name: b"e" }),
            OPENED,
            MOVED,
            FOUND,
            READ,
            (2, GetAttr),
        ],
        // the removal at the end
        faults: &[(11, Before(EIO))],
        replies: &[
            Entry(2, File(3)),
            Entry(3, File(0)),
            Opened(1),
            Done,
            Entry(3, File(0)),
            Bytes(b"abc"),
            Attributes(2, File(3)),
        ],
        after: &[(&["a"], File(0)), (&[FIRST], File(3)), (&["e"], Nothing)],
        ..NOTHING
    },
    Story {
        says: "the file is not hidden, and then nothing is moved",
        asks: &[FOUND, OPENED, MOVED, READ],
        faults: &[(5, Before(EIO))],
        replies: &[Entry(2, File(3)), Opened(1), Failed(EIO), Bytes(b"abc")],
        after: &[(&["a"], File(3)), (&[FIRST], Nothing), (&["e"], File(0))],
        ..NOTHING
    },
    Story {
        says: "a look at a name fails",
        asks: &[FOUND, OPENED, MOVED],
        faults: &[(4, Before(EIO))],
        replies: &[Entry(2, File(3)), Opened(1), Failed(EIO)],
        after: &[(&["a"], File(3)), (&["e"], File(0))],
        ..NOTHING
    },
    Story {
        says: "the look at the source fails",
        asks: &[FOUND, OPENED, MOVED],
        faults: &[(3, Before(EIO))],
        replies: &[Entry(2, File(3)), Opened(1), Failed(EIO)],
        after: &[(&["a"], File(3)), (&["e"], File(0))],
        ..NOTHING
    },
    Story {
        says: "nothing stands at the source, and a folder takes the place of no file",
        asks: &[
            FOUND,
            OPENED,
            (
                1,
                Rename {
                    name: b"zz",
                    new_parent: 1,
                    new_name: b"a",
                },
            ),
            (
                1,
                Rename {
                    name: b"d",
                    new_parent: 1,
                    new_name: b"a",
                },
            ),
            READ,
        ],
        replies: &[
            Entry(2, File(3)),
            Opened(1),
            Failed(ENOENT),
            Failed(ENOTDIR),
            Bytes(b"abc"),
        ],
        after: &[(&["a"], File(3)), (&["d"], Folder)],
        ..NOTHING
    },
    Story {
        says: "all ten names are taken",
        files: &[
            &[FIRST],
            &[".fuse_hidden0000000200000001"],
            &[".fuse_hidden0000000200000002"],
            &[".fuse_hidden0000000200000003"],
            &[".fuse_hidden0000000200000004"],
            &[".fuse_hidden0000000200000005"],
            &[".fuse_hidden0000000200000006"],
            &[".fuse_hidden0000000200000007"],
            &[".fuse_hidden0000000200000008"],
            &[".fuse_hidden0000000200000009"],
        ],
        asks: &[FOUND, OPENED, MOVED, READ],
        replies: &[Entry(2, File(3)), Opened(1), Failed(EBUSY), Bytes(b"abc")],
        after: &[(&["a"], File(3)), (&[FIRST], File(0)), (&["e"], File(0))],
        ..NOTHING
    },
];

#[test]
fn hidden_then_rename_fails(rt: HostRuntime) -> Result<(), Fail> {
    tell_all(&rt, rt.alloc(), HIDDEN_THEN_RENAME_FAILS)
}

/// Where the handle of a file leads that was moved, or onto which another was moved.
const REPLACED: &[Story] = &[
    Story {
        says: "an open file that is moved onto itself stays as it is",
        asks: &[
            FOUND,
            OPENED,
            (
                1,
                Rename {
                    name: b"a",
                    new_parent: 1,
                    new_name: b"a",
                },
            ),
            FOUND,
            READ,
        ],
        replies: &[
            Entry(2, File(3)),
            Opened(1),
            Done,
            Entry(2, File(3)),
            Bytes(b"abc"),
        ],
        after: &[(&["a"], File(3)), (&[FIRST], Nothing)],
        ..NOTHING
    },
    Story {
        says: "an open file that is moved to a free name is not hidden",
        asks: &[
            FOUND,
            OPENED,
            (
                1,
                Rename {
                    name: b"a",
                    new_parent: 1,
                    new_name: b"b",
                },
            ),
            READ,
        ],
        replies: &[Entry(2, File(3)), Opened(1), Done, Bytes(b"abc")],
        after: &[(&["a"], Nothing), (&["b"], File(3)), (&[FIRST], Nothing)],
        ..NOTHING
    },
    Story {
        says: "a file that nobody has open is replaced, and not hidden",
        asks: &[FOUND, OPENED, (2, Release { fh: 1 }), MOVED],
        // the only call of the RENAME
        faults: &[(3, Before(EIO))],
        replies: &[Entry(2, File(3)), Opened(1), Done, Failed(EIO)],
        after: &[(&["a"], File(3)), (&["e"], File(0)), (&[FIRST], Nothing)],
        ..NOTHING
    },
    Story {
        says: "across folders, and then the name is removed and made anew: each handle leads to its file",
        asks: &[
            (1, Lookup { name: b"d" }),
            (2, CREATE_X),
            (
                3,
                Write {
                    fh: 1,
                    offset: 0,
                    data: b"old",
                },
            ),
            (
                1,
                Rename {
                    name: b"a",
                    new_parent: 2,
                    new_name: b"x",
                },
            ),
            (
                3,
                Read {
                    fh: 1,
                    offset: 0,
                    size: 10,
                },
            ),
            (2, Unlink { name: b"x" }),
            (2, CREATE_X),
            (
                4,
                Write {
                    fh: 2,
                    offset: 0,
                    data: b"newer",
                },
            ),
            (
                3,
                Read {
                    fh: 1,
                    offset: 0,
                    size: 10,
                },
            ),
            (
                4,
                Read {
                    fh: 2,
                    offset: 0,
                    size: 10,
                },
            ),
        ],
        // the removal at the end
        faults: &[(16, Before(EIO))],
        replies: &[
            Entry(2, Folder),
            Created(3, 1),
            Wrote(3),
            Done,
            Bytes(b"old"),
            Done,
            Created(4, 2),
            Wrote(5),
            Bytes(b"old"),
            Bytes(b"newer"),
        ],
        after: &[
            (&["a"], Nothing),
            (&["d", "x"], File(5)),
            (&["d", OF_THREE], File(3)),
        ],
        ..NOTHING
    },
];

#[test]
fn moved_onto_while_open(rt: HostRuntime) -> Result<(), Fail> {
    tell_all(&rt, rt.alloc(), REPLACED)
}
