//! Files that are opened and created, and how many may be open.

use crate::requests::CREATE_N;
use crate::stories::Says::{Attributes, Bytes, Created, Entry, Failed, Opened};
use crate::stories::Stands::{File, Folder, Nothing};
use crate::stories::{NOTHING, Story, tell_all};
use backing::PlannedFault::Before;
use errno::{EACCES, EEXIST, EINVAL, EIO, EISDIR, ENFILE, EPERM, ESTALE};
use std::test::Fail;
use wire::Operation::{Create, GetAttr, Lookup, Open, Read};

/// Files that are created or opened, and those that may not be.
const OPENED: &[Story] = &[
    Story {
        says: "a file is opened twice, and one is made",
        asks: &[
            (1, Lookup { name: b"a" }),
            (2, Open { flags: 0 }),
            (2, Open { flags: 0x8002 }),
            (
                1,
                Create {
                    name: b"n",
                    flags: 1,
                    mode: 0,
                    umask: 0,
                },
            ),
            (3, GetAttr),
        ],
        replies: &[
            Entry(2, File(3)),
            Opened(1),
            Opened(2),
            Created(3, 3),
            Attributes(3, File(0)),
        ],
        after: &[(&["n"], File(0))],
        ..NOTHING
    },
    Story {
        says: "no access, before an unknown node and before a name that stands there",
        asks: &[
            (9, Open { flags: 3 }),
            (9, Open { flags: 0 }),
            (
                1,
                Create {
                    name: b"a",
                    flags: 3,
                    mode: 0,
                    umask: 0,
                },
            ),
            (
                1,
                Create {
                    name: b"a",
                    flags: 0,
                    mode: 0,
                    umask: 0,
                },
            ),
            (
                9,
                Create {
                    name: b"n",
                    flags: 0,
                    mode: 0,
                    umask: 0,
                },
            ),
        ],
        replies: &[
            Failed(EINVAL),
            Failed(ESTALE),
            Failed(EINVAL),
            Failed(EEXIST),
            Failed(ESTALE),
        ],
        after: &[(&["a"], File(3)), (&["n"], Nothing)],
        ..NOTHING
    },
    Story {
        says: "a folder, and a reserved name",
        asks: &[
            (1, Open { flags: 0 }),
            (1, Lookup { name: b"d" }),
            (2, Open { flags: 2 }),
            (
                1,
                Create {
                    name: b".fuse_hidden0",
                    flags: 3,
                    mode: 0,
                    umask: 0,
                },
            ),
        ],
        replies: &[
            Failed(EISDIR),
            Entry(2, Folder),
            Failed(EISDIR),
            Failed(EPERM),
        ],
        after: &[(&[".fuse_hidden0"], Nothing)],
        ..NOTHING
    },
    Story {
        says: "it fails before the file is made, and after it",
        asks: &[
            (
                1,
                Create {
                    name: b"n",
                    flags: 0,
                    mode: 0,
                    umask: 0,
                },
            ),
            (
                1,
                Create {
                    name: b"m",
                    flags: 0,
                    mode: 0,
                    umask: 0,
                },
            ),
            (
                1,
                Create {
                    name: b"m",
                    flags: 0,
                    mode: 0,
                    umask: 0,
                },
            ),
            (
                1,
                Create {
                    name: b"k",
                    flags: 0,
                    mode: 0,
                    umask: 0,
                },
            ),
        ],
        faults: &[(1, Before(EACCES)), (3, Before(EIO))],
        replies: &[Failed(EACCES), Failed(EIO), Failed(EEXIST), Created(2, 1)],
        after: &[(&["n"], Nothing), (&["m"], File(0)), (&["k"], File(0))],
        ..NOTHING
    },
];

#[test]
fn opened_files(rt: HostRuntime) -> Result<(), Fail> {
    tell_all(&rt, rt.alloc(), OPENED)
}

/// One file may be open.
const FILE_LIMIT: &[Story] = &[Story {
    says: "the file is open already, so none is opened or made",
    open_files: 1,
    asks: &[
        (1, Lookup { name: b"a" }),
        (2, Open { flags: 0 }),
        (2, Open { flags: 0 }),
        (1, CREATE_N),
        (
            2,
            Read {
                fh: 1,
                offset: 0,
                size: 9,
            },
        ),
    ],
    replies: &[
        Entry(2, File(3)),
        Opened(1),
        Failed(ENFILE),
        Failed(ENFILE),
        Bytes(b"abc"),
    ],
    after: &[(&["n"], Nothing)],
    ..NOTHING
}];

#[test]
fn file_limit(rt: HostRuntime) -> Result<(), Fail> {
    tell_all(&rt, rt.alloc(), FILE_LIMIT)
}
