//! READDIRPLUS: the lookups that its entries count, and pages that are refused.

use crate::stories::Says::{Attributes, Done, Entries, Entry, Failed, Names, NoReply, Opened};
use crate::stories::Stands::{File, Folder};
use crate::stories::{NOTHING, Story, tell_all, tell_all_plainly};
use errno::{EBADF, EINVAL, ENFILE, ESTALE};
use std::test::Fail;
use wire::Operation::{
    Forget, GetAttr, Lookup, OpenDir, ReadDir, ReadDirPlus, ReleaseDir, RemoveDir,
};

/// Each entry in a reply counts, and no other.
const COUNTS: &[Story] = &[
    Story {
        says: "one that had no room is unknown, and one that was told twice goes with two",
        asks: &[
            (1, OpenDir),
            (
                1,
                ReadDirPlus {
                    fh: 1,
                    offset: 2,
                    size: 319,
                },
            ),
            (3, GetAttr),
            (
                1,
                ReadDirPlus {
                    fh: 1,
                    offset: 2,
                    size: 160,
                },
            ),
            (2, Forget { nlookup: 1 }),
            (2, GetAttr),
            (2, Forget { nlookup: 1 }),
            (2, GetAttr),
        ],
        replies: &[
            Opened(1),
            Entries(2, &[("a", File(3), 2)]),
            Failed(ESTALE),
            Entries(2, &[("a", File(3), 2)]),
            NoReply,
            Attributes(2, File(3)),
            NoReply,
            Failed(ESTALE),
        ],
        ..NOTHING
    },
    Story {
        says: "a page keeps a node free for each name, also for those that are known",
        nodes: 3,
        asks: &[
            (1, OpenDir),
            (1, Lookup { name: b"a" }),
            (
                1,
                ReadDirPlus {
                    fh: 1,
                    offset: 2,
                    size: 4096,
                },
            ),
            (
                1,
                ReadDirPlus {
                    fh: 1,
                    offset: 2,
                    size: 160,
                },
            ),
            (
                1,
                ReadDirPlus {
                    fh: 1,
                    offset: 0,
                    size: 320,
                },
            ),
        ],
        replies: &[
            Opened(1),
            Entry(2, File(3)),
            Failed(ENFILE),
            Entries(2, &[("a", File(3), 2)]),
            Entries(0, &[(".", Folder, 0), ("..", Folder, 0)]),
        ],
        ..NOTHING
    },
];

#[test]
fn entries_count(rt: HostRuntime) -> Result<(), Fail> {
    tell_all(&rt, rt.alloc(), COUNTS)?;
    tell_all_plainly(&rt, rt.alloc(), COUNTS)
}

/// Handles that do not exist, pages that do not fit, and folders that are gone.
const REFUSALS: &[Story] = &[
    Story {
        says: "a handle of another node, one that was not given, and one that was given up",
        asks: &[
            (1, Lookup { name: b"d" }),
            (1, OpenDir),
            (
                2,
                ReadDirPlus {
                    fh: 1,
                    offset: 0,
                    size: 4096,
                },
            ),
            (
                1,
                ReadDirPlus {
                    fh: 2,
                    offset: 0,
                    size: 4096,
                },
            ),
            (
                1,
                ReadDirPlus {
                    fh: 0,
                    offset: 0,
                    size: 4096,
                },
            ),
            (1, ReleaseDir { fh: 1 }),
            (
                1,
                ReadDirPlus {
                    fh: 1,
                    offset: 0,
                    size: 4096,
                },
            ),
            (
                9,
                ReadDirPlus {
                    fh: 1,
                    offset: 0,
                    size: 4096,
                },
            ),
        ],
        replies: &[
            Entry(2, Folder),
            Opened(1),
            Failed(EBADF),
            Failed(EBADF),
            Failed(EBADF),
            Done,
            Failed(EBADF),
            Failed(EBADF),
        ],
        ..NOTHING
    },
    Story {
        says: "the first entry does not fit",
        asks: &[
            (1, OpenDir),
            (
                1,
                ReadDirPlus {
                    fh: 1,
                    offset: 0,
                    size: 159,
                },
            ),
            (
                1,
                ReadDirPlus {
                    fh: 1,
                    offset: 2,
                    size: 159,
                },
            ),
            (
                1,
                ReadDirPlus {
                    fh: 1,
                    offset: 4,
                    size: 0,
                },
            ),
        ],
        replies: &[Opened(1), Failed(EINVAL), Failed(EINVAL), Failed(EINVAL)],
        ..NOTHING
    },
    Story {
        says: "a folder that was removed is stale, also where the page has no names, but EINVAL comes first",
        asks: &[
            (1, Lookup { name: b"d" }),
            (2, OpenDir),
            (1, RemoveDir { name: b"d" }),
            (
                2,
                ReadDirPlus {
                    fh: 1,
                    offset: 0,
                    size: 320,
                },
            ),
            (
                2,
                ReadDirPlus {
                    fh: 1,
                    offset: 2,
                    size: 0,
                },
            ),
            (
                2,
                ReadDirPlus {
                    fh: 1,
                    offset: 0,
                    size: 100,
                },
            ),
            (
                2,
                ReadDir {
                    fh: 1,
                    offset: 0,
                    size: 32,
                },
            ),
        ],
        replies: &[
            Entry(2, Folder),
            Opened(1),
            Done,
            Failed(ESTALE),
            Failed(ESTALE),
            Failed(EINVAL),
            Names(0, &[(".", Folder)]),
        ],
        ..NOTHING
    },
];

#[test]
fn refused_pages(rt: HostRuntime) -> Result<(), Fail> {
    tell_all(&rt, rt.alloc(), REFUSALS)?;
    tell_all_plainly(&rt, rt.alloc(), REFUSALS)
}
