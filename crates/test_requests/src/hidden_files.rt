//! Files that are removed while they are open: hidden, used through their handles, and gone at the end of the session
//! if not before.

use crate::requests::CREATE_A;
use crate::stories::Says::{Attributes, Bytes, Created, Done, Entry, Failed, Opened, Wrote};
use crate::stories::Stands::{File, Folder, Nothing};
use crate::stories::{NOTHING, Story, tell_all};
use backing::PlannedFault::{After, Before};
use errno::{EBUSY, EIO, ENOENT, ENOTDIR};
use std::test::Fail;
use wire::Operation::{GetAttr, Lookup, Open, Read, Release, RemoveDir, Unlink, Write};

/// The first two candidates for the file of node 2, and the eleventh name.
const FIRST: &str = ".fuse_hidden0000000200000000";

const SECOND: &str = ".fuse_hidden0000000200000001";

const ELEVENTH: &str = ".fuse_hidden000000020000000a";

/// Files that are removed while they are open.
const HIDDEN: &[Story] = &[
    Story {
        says: "a removed file is read and written by its handle",
        asks: &[
            (1, Lookup { name: b"a" }),
            (2, Open { flags: 2 }),
            (1, Unlink { name: b"a" }),
            (1, Lookup { name: b"a" }),
            (
                2,
                Read {
                    fh: 1,
                    offset: 0,
                    size: 10,
                },
            ),
            (
                2,
                Write {
                    fh: 1,
                    offset: 3,
                    data: b"de",
                },
            ),
            (2, GetAttr),
            (2, Release { fh: 1 }),
        ],
        replies: &[
            Entry(2, File(3)),
            Opened(1),
            Done,
            Failed(ENOENT),
            Bytes(b"abc"),
            Wrote(2),
            Attributes(2, File(5)),
            Done,
        ],
        after: &[
            (&["a"], Nothing),
            (&[FIRST], Nothing),
            (&["d"], Folder),
            (&["e"], File(0)),
        ],
        ..NOTHING
    },
    Story {
        says: "the input ends while a removed file is open",
        asks: &[
            (1, Lookup { name: b"a" }),
            (2, Open { flags: 0 }),
            (1, Unlink { name: b"a" }),
        ],
        replies: &[Entry(2, File(3)), Opened(1), Done],
        after: &[(&["d"], Folder), (&["e"], File(0))],
        names: &["d", "e"],
        ..NOTHING
    },
    Story {
        says: "another file of its name has bytes of its own",
        asks: &[
            (1, Lookup { name: b"a" }),
            (2, Open { flags: 0 }),
            (1, Unlink { name: b"a" }),
            (1, CREATE_A),
            (
                3,
                Write {
                    fh: 2,
                    offset: 0,
                    data: b"late",
                },
            ),
            (
                2,
                Read {
                    fh: 1,
                    offset: 0,
                    size: 10,
                },
            ),
            (
                3,
                Read {
                    fh: 2,
                    offset: 0,
                    size: 10,
                },
            ),
        ],
        replies: &[
            Entry(2, File(3)),
            Opened(1),
            Done,
            Created(3, 2),
            Wrote(4),
            Bytes(b"abc"),
            Bytes(b"late"),
        ],
        after: &[(&["a"], File(4)), (&[FIRST], Nothing)],
        ..NOTHING
    },
    Story {
        says: "the first name that is free is taken",
        files: &[&[FIRST]],
        asks: &[
            (1, Lookup { name: b"a" }),
            (2, Open { flags: 0 }),
            (1, Unlink { name: b"a" }),
        ],
        // the removal at the end fails
        faults: &[(6, Before(EIO))],
        replies: &[Entry(2, File(3)), Opened(1), Done],
        after: &[(&["a"], Nothing), (&[FIRST], File(0)), (&[SECOND], File(3))],
        ..NOTHING
    },
    Story {
        says: "all ten names are taken, and the next ten are not",
        files: &[
            &[FIRST],
            &[SECOND],
            &[".fuse_hidden0000000200000002"],
            &[".fuse_hidden0000000200000003"],
            &[".fuse_hidden0000000200000004"],
            &[".fuse_hidden0000000200000005"],
            &[".fuse_hidden0000000200000006"],
            &[".fuse_hidden0000000200000007"],
            &[".fuse_hidden0000000200000008"],
            &[".fuse_hidden0000000200000009"],
        ],
        asks: &[
            (1, Lookup { name: b"a" }),
            (2, Open { flags: 0 }),
            (1, Unlink { name: b"a" }),
            (1, Lookup { name: b"a" }),
            (1, Unlink { name: b"a" }),
        ],
        // the removal at the end, so that the file can be seen under its hidden name
        faults: &[(16, Before(EIO))],
        replies: &[
            Entry(2, File(3)),
            Opened(1),
            Failed(EBUSY),
            Entry(2, File(3)),
            Done,
        ],
        after: &[
            (&["a"], Nothing),
            (&[FIRST], File(0)),
            (&[ELEVENTH], File(3)),
        ],
        ..NOTHING
    },
    Story {
        says: "a look at a name fails",
        asks: &[
            (1, Lookup { name: b"a" }),
            (2, Open { flags: 0 }),
            (1, Unlink { name: b"a" }),
        ],
        faults: &[(3, Before(EIO))],
        replies: &[Entry(2, File(3)), Opened(1), Failed(EIO)],
        after: &[(&["a"], File(3))],
        ..NOTHING
    },
    Story {
        says: "it is moved, and the move fails: the file is left, and the node named as it was",
        asks: &[
            (1, Lookup { name: b"a" }),
            (2, Open { flags: 0 }),
            (1, Unlink { name: b"a" }),
            (2, GetAttr),
        ],
        faults: &[(4, After(EIO))],
        replies: &[Entry(2, File(3)), Opened(1), Failed(EIO), Failed(ENOENT)],
        after: &[(&["a"], Nothing), (&[FIRST], File(3))],
        ..NOTHING
    },
    Story {
        says: "a file that nobody has open is removed, and a folder is never hidden",
        asks: &[
            (1, Lookup { name: b"a" }),
            (2, Open { flags: 0 }),
            (1, RemoveDir { name: b"a" }),
            (2, Release { fh: 1 }),
            (1, Unlink { name: b"a" }),
        ],
        replies: &[Entry(2, File(3)), Opened(1), Failed(ENOTDIR), Done, Done],
        after: &[(&["a"], Nothing), (&[FIRST], Nothing)],
        ..NOTHING
    },
];

#[test]
fn unlinked_while_open(rt: HostRuntime) -> Result<(), Fail> {
    tell_all(&rt, rt.alloc(), HIDDEN)
}
