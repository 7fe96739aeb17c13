//! Requests for attributes, or that set a size, with their errors.

use crate::requests::{MAKE_M, NOTHING_NEW};
use crate::stories::Says::{Attributes, Entry, Failed, Sizes};
use crate::stories::Stands::{File, Folder, Nothing};
use crate::stories::{NOTHING, Story, tell_all};
use backing::PlannedFault::Before;
use errno::{EACCES, EBADF, EFBIG, EIO, EISDIR, ENFILE, ENOSPC, EPERM, ESTALE};
use std::test::Fail;
use wire::Operation::{GetAttr, Lookup, SetAttr, StatFs};

/// The attributes of nodes, and the sizes of the file system.
const ATTRIBUTES: &[Story] = &[
    Story {
        says: "attributes of the root, a file and a folder",
        asks: &[
            (1, GetAttr),
            (1, Lookup { name: b"a" }),
            (2, GetAttr),
            (1, Lookup { name: b"d" }),
            (3, GetAttr),
        ],
        replies: &[
            Attributes(1, Folder),
            Entry(2, File(3)),
            Attributes(2, File(3)),
            Entry(3, Folder),
            Attributes(3, Folder),
        ],
        ..NOTHING
    },
    Story {
        says: "attributes of an unknown node, and where the directory fails",
        asks: &[(9, GetAttr), (1, GetAttr)],
        faults: &[(1, Before(EACCES))],
        replies: &[Failed(ESTALE), Failed(EACCES)],
        ..NOTHING
    },
    Story {
        says: "statistics of any node, without a call",
        asks: &[(1, StatFs), (99, StatFs), (1, Lookup { name: b"zz" })],
        faults: &[(1, Before(EACCES))],
        replies: &[Sizes, Sizes, Failed(EACCES)],
        ..NOTHING
    },
];

#[test]
fn attributes(rt: HostRuntime) -> Result<(), Fail> {
    tell_all(&rt, rt.alloc(), ATTRIBUTES)
}

/// Sizes that are set.
const SIZES: &[Story] = &[
    Story {
        says: "a size of 600 bytes, with a lock owner too, and no field at all",
        asks: &[
            (1, Lookup { name: b"a" }),
            (
                2,
                SetAttr {
                    valid: 8,
                    fh: 0,
                    size: 600,
                    attributes: NOTHING_NEW,
                },
            ),
            (
                2,
                SetAttr {
                    valid: 0x208,
                    fh: 0,
                    size: 1025,
                    attributes: NOTHING_NEW,
                },
            ),
            (
                2,
                SetAttr {
                    valid: 0,
                    fh: 0,
                    size: 5,
                    attributes: NOTHING_NEW,
                },
            ),
        ],
        replies: &[
            Entry(2, File(3)),
            Attributes(2, File(600)),
            Attributes(2, File(1025)),
            Attributes(2, File(1025)),
        ],
        after: &[(&["a"], File(1025))],
        ..NOTHING
    },
    Story {
        says: "other fields, and a handle that is not open",
        asks: &[
            (1, Lookup { name: b"a" }),
            (
                2,
                SetAttr {
                    valid: 1,
                    fh: 0,
                    size: 0,
                    attributes: NOTHING_NEW,
                },
            ),
            (
                2,
                SetAttr {
                    valid: 9,
                    fh: 0,
                    size: 0,
                    attributes: NOTHING_NEW,
                },
            ),
            (
                2,
                SetAttr {
                    valid: 0x48,
                    fh: 0,
                    size: 0,
                    attributes: NOTHING_NEW,
                },
            ),
            (
                2,
                SetAttr {
                    valid: 0x49,
                    fh: 0,
                    size: 0,
                    attributes: NOTHING_NEW,
                },
            ),
        ],
        replies: &[
            Entry(2, File(3)),
            Failed(EPERM),
            Failed(EPERM),
            Failed(EBADF),
            Failed(EPERM),
        ],
        after: &[(&["a"], File(3))],
        ..NOTHING
    },
    Story {
        says: "a folder, and too long a file",
        asks: &[
            (1, Lookup { name: b"d" }),
            (
                2,
                SetAttr {
                    valid: 8,
                    fh: 0,
                    size: 0,
                    attributes: NOTHING_NEW,
                },
            ),
            (1, Lookup { name: b"a" }),
            (
                3,
                SetAttr {
                    valid: 8,
                    fh: 0,
                    size: 1048577,
                    attributes: NOTHING_NEW,
                },
            ),
        ],
        replies: &[
            Entry(2, Folder),
            Failed(EISDIR),
            Entry(3, File(3)),
            Failed(EFBIG),
        ],
        after: &[(&["a"], File(3))],
        ..NOTHING
    },
    Story {
        says: "the size fails",
        asks: &[
            (1, Lookup { name: b"a" }),
            (
                2,
                SetAttr {
                    valid: 8,
                    fh: 0,
                    size: 600,
                    attributes: NOTHING_NEW,
                },
            ),
        ],
        faults: &[(2, Before(ENOSPC))],
        replies: &[Entry(2, File(3)), Failed(ENOSPC)],
        after: &[(&["a"], File(3))],
        ..NOTHING
    },
    Story {
        says: "the size is set, and what stands there is not told",
        asks: &[
            (1, Lookup { name: b"a" }),
            (
                2,
                SetAttr {
                    valid: 8,
                    fh: 0,
                    size: 600,
                    attributes: NOTHING_NEW,
                },
            ),
        ],
        faults: &[(3, Before(EIO))],
        replies: &[Entry(2, File(3)), Failed(EIO)],
        after: &[(&["a"], File(600))],
        ..NOTHING
    },
];

#[test]
fn sizes(rt: HostRuntime) -> Result<(), Fail> {
    tell_all(&rt, rt.alloc(), SIZES)
}

/// There may be one node besides the root.
const NODE_LIMIT: &[Story] = &[Story {
    says: "two nodes",
    nodes: 2,
    asks: &[
        (1, Lookup { name: b"a" }),
        (1, Lookup { name: b"e" }),
        (1, Lookup { name: b"zz" }),
        (2, GetAttr),
        (1, MAKE_M),
        (1, Lookup { name: b"a" }),
    ],
    replies: &[
        Entry(2, File(3)),
        Failed(ENFILE),
        Failed(ENFILE),
        Attributes(2, File(3)),
        Failed(ENFILE),
        Entry(2, File(3)),
    ],
    after: &[(&["m"], Nothing)],
    ..NOTHING
}];

#[test]
fn node_limit(rt: HostRuntime) -> Result<(), Fail> {
    tell_all(&rt, rt.alloc(), NODE_LIMIT)
}
