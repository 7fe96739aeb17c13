//! Handles of files: invented, of another node, without the access, and closed.

use crate::requests::NOTHING_NEW;
use crate::stories::Says::{Attributes, Bytes, Done, Entry, Failed, Opened, Wrote};
use crate::stories::Stands::File;
use crate::stories::{NOTHING, Story, tell_all};
use errno::{EBADF, ENFILE, EPERM};
use std::test::Fail;
use wire::Operation::{Flush, Lookup, Open, Read, Release, SetAttr, Sync, Write};

/// Handles that are not open, are open on another node, or lack the access.
const HANDLES: &[Story] = &[
    Story {
        says: "handles that were made up, before an unknown node",
        asks: &[
            (1, Lookup { name: b"a" }),
            (1, Lookup { name: b"e" }),
            (2, Open { flags: 2 }),
            (
                2,
                Read {
                    fh: 0,
                    offset: 0,
                    size: 1,
                },
            ),
            (
                3,
                Read {
                    fh: 1,
                    offset: 0,
                    size: 1,
                },
            ),
            (
                9,
                Write {
                    fh: 1,
                    offset: 0,
                    data: b"x",
                },
            ),
            (
                2,
                Write {
                    fh: 2,
                    offset: 0,
                    data: b"x",
                },
            ),
            (
                2,
                Sync {
                    fh: 18446744073709551615,
                },
            ),
            (3, Sync { fh: 1 }),
            (2, Flush { fh: 2 }),
            (3, Flush { fh: 1 }),
            (
                2,
                SetAttr {
                    valid: 0x48,
                    fh: 2,
                    size: 0,
                    attributes: NOTHING_NEW,
                },
            ),
            (2, Flush { fh: 1 }),
        ],
        replies: &[
            Entry(2, File(3)),
            Entry(3, File(0)),
            Opened(1),
            Failed(EBADF),
            Failed(EBADF),
            Failed(EBADF),
            Failed(EBADF),
            Failed(EBADF),
            Failed(EBADF),
            Failed(EBADF),
            Failed(EBADF),
            Failed(EBADF),
            Done,
        ],
        after: &[(&["a"], File(3)), (&["e"], File(0))],
        ..NOTHING
    },
    Story {
        says: "a file that is open for reading alone",
        asks: &[
            (1, Lookup { name: b"a" }),
            (2, Open { flags: 0 }),
            (
                2,
                Write {
                    fh: 1,
                    offset: 0,
                    data: b"x",
                },
            ),
            (
                2,
                SetAttr {
                    valid: 0x48,
                    fh: 1,
                    size: 0,
                    attributes: NOTHING_NEW,
                },
            ),
            (
                2,
                SetAttr {
                    valid: 0x49,
                    fh: 1,
                    size: 0,
                    attributes: NOTHING_NEW,
                },
            ),
            (
                2,
                SetAttr {
                    valid: 8,
                    fh: 1,
                    size: 2,
                    attributes: NOTHING_NEW,
                },
            ),
            (
                2,
                Read {
                    fh: 1,
                    offset: 0,
                    size: 9,
                },
            ),
            (2, Sync { fh: 1 }),
        ],
        replies: &[
            Entry(2, File(3)),
            Opened(1),
            Failed(EBADF),
            Failed(EBADF),
            Failed(EPERM),
            Attributes(2, File(2)),
            Bytes(b"ab"),
            Done,
        ],
        after: &[(&["a"], File(2))],
        ..NOTHING
    },
    Story {
        says: "a file that is open for writing alone",
        asks: &[
            (1, Lookup { name: b"a" }),
            (2, Open { flags: 1 }),
            (
                2,
                Read {
                    fh: 1,
                    offset: 0,
                    size: 9,
                },
            ),
            (
                2,
                Write {
                    fh: 1,
                    offset: 0,
                    data: b"x",
                },
            ),
            (2, Sync { fh: 1 }),
            (
                2,
                SetAttr {
                    valid: 0x248,
                    fh: 1,
                    size: 2,
                    attributes: NOTHING_NEW,
                },
            ),
            (
                2,
                SetAttr {
                    valid: 0x40,
                    fh: 1,
                    size: 9,
                    attributes: NOTHING_NEW,
                },
            ),
        ],
        replies: &[
            Entry(2, File(3)),
            Opened(1),
            Failed(EBADF),
            Wrote(1),
            Done,
            Attributes(2, File(2)),
            Attributes(2, File(2)),
        ],
        after: &[(&["a"], File(2))],
        ..NOTHING
    },
];

#[test]
fn handles_of_files(rt: HostRuntime) -> Result<(), Fail> {
    tell_all(&rt, rt.alloc(), HANDLES)
}

/// Handles that are closed.
const RELEASED: &[Story] = &[
    Story {
        says: "a handle is given up once, and given to no other file",
        asks: &[
            (1, Lookup { name: b"a" }),
            (2, Open { flags: 0 }),
            (2, Open { flags: 2 }),
            (1, Release { fh: 1 }),
            (2, Release { fh: 1 }),
            (2, Release { fh: 1 }),
            (2, Flush { fh: 1 }),
            (2, Flush { fh: 2 }),
            (2, Open { flags: 0 }),
        ],
        replies: &[
            Entry(2, File(3)),
            Opened(1),
            Opened(2),
            Failed(EBADF),
            Done,
            Failed(EBADF),
            Failed(EBADF),
            Done,
            Opened(3),
        ],
        ..NOTHING
    },
    Story {
        says: "one file may be open, so another is once it was given up",
        open_files: 1,
        asks: &[
            (1, Lookup { name: b"a" }),
            (2, Open { flags: 0 }),
            (2, Open { flags: 0 }),
            (2, Release { fh: 1 }),
            (2, Open { flags: 0 }),
        ],
        replies: &[
            Entry(2, File(3)),
            Opened(1),
            Failed(ENFILE),
            Done,
            Opened(2),
        ],
        ..NOTHING
    },
];

#[test]
fn released_files(rt: HostRuntime) -> Result<(), Fail> {
    tell_all(&rt, rt.alloc(), RELEASED)
}
