//! READDIRPLUS: pages of an open folder with the nodes of their names.

use crate::requests::MAKE_A;
use crate::stories::Says::{Attributes, Done, Entries, Entry, Failed, Opened};
use crate::stories::Stands::{File, Folder};
use crate::stories::{NOTHING, Story, tell_all};
use backing::PlannedFault::{After, Before};
use errno::{EACCES, ESTALE};
use std::test::Fail;
use wire::Operation::{GetAttr, Lookup, OpenDir, ReadDirPlus, Rename, Unlink};

/// What a client reads of an open folder, by pages.
const PAGES: &[Story] = &[
    Story {
        says: "the root whole, and its names known from then on",
        asks: &[
            (1, OpenDir),
            (
                1,
                ReadDirPlus {
                    fh: 1,
                    offset: 0,
                    size: 4096,
                },
            ),
            (2, GetAttr),
            (1, Lookup { name: b"e" }),
        ],
        replies: &[
            Opened(1),
            Entries(
                0,
                &[
                    (".", Folder, 0),
                    ("..", Folder, 0),
                    ("a", File(3), 2),
                    ("d", Folder, 3),
                    ("e", File(0), 4),
                ],
            ),
            Attributes(2, File(3)),
            Entry(4, File(0)),
        ],
        ..NOTHING
    },
    Story {
        says: "page after page to the end, and past it",
        asks: &[
            (1, OpenDir),
            (
                1,
                ReadDirPlus {
                    fh: 1,
                    offset: 0,
                    size: 320,
                },
            ),
            (
                1,
                ReadDirPlus {
                    fh: 1,
                    offset: 2,
                    size: 320,
                },
            ),
            (
                1,
                ReadDirPlus {
                    fh: 1,
                    offset: 4,
                    size: 479,
                },
            ),
            (
                1,
                ReadDirPlus {
                    fh: 1,
                    offset: 5,
                    size: 0,
                },
            ),
            (
                1,
                ReadDirPlus {
                    fh: 1,
                    offset: 0xffffffffffffffff,
                    size: 4096,
                },
            ),
        ],
        replies: &[
            Opened(1),
            Entries(0, &[(".", Folder, 0), ("..", Folder, 0)]),
            Entries(2, &[("a", File(3), 2), ("d", Folder, 3)]),
            Entries(4, &[("e", File(0), 4)]),
            Entries(5, &[]),
            Entries(0, &[]),
        ],
        ..NOTHING
    },
    Story {
        says: "names of a folder below the root, and those that the server keeps for itself are left out",
        files: &[&["d", ".fuse_hidden0"], &["d", "x"]],
        asks: &[
            (1, Lookup { name: b"d" }),
            (2, OpenDir),
            (
                2,
                ReadDirPlus {
                    fh: 1,
                    offset: 0,
                    size: 4096,
                },
            ),
        ],
        replies: &[
            Entry(2, Folder),
            Opened(1),
            Entries(0, &[(".", Folder, 0), ("..", Folder, 0), ("x", File(0), 3)]),
        ],
        ..NOTHING
    },
];

#[test]
fn pages_of_entries(rt: HostRuntime) -> Result<(), Fail> {
    tell_all(&rt, rt.alloc(), PAGES)
}

/// Names that no longer are as they were listed.
const LOOKS: &[Story] = &[
    Story {
        says: "one that is gone has no node and is not counted, and the kind of its listing",
        asks: &[
            (1, OpenDir),
            (1, Unlink { name: b"a" }),
            (
                1,
                ReadDirPlus {
                    fh: 1,
                    offset: 2,
                    size: 4096,
                },
            ),
            (2, GetAttr),
            (4, GetAttr),
        ],
        replies: &[
            Opened(1),
            Done,
            Entries(2, &[("a", File(0), 0), ("d", Folder, 2), ("e", File(0), 3)]),
            Attributes(2, Folder),
            Failed(ESTALE),
        ],
        ..NOTHING
    },
    Story {
        says: "one that is another thing is told as it stands",
        asks: &[
            (1, OpenDir),
            (1, Unlink { name: b"a" }),
            (1, MAKE_A),
            (
                1,
                ReadDirPlus {
                    fh: 1,
                    offset: 2,
                    size: 160,
                },
            ),
        ],
        replies: &[
            Opened(1),
            Done,
            Entry(2, Folder),
            Entries(2, &[("a", Folder, 2)]),
        ],
        ..NOTHING
    },
    Story {
        says: "one whose look fails is left out, and the others are told",
        asks: &[
            (1, OpenDir),
            (
                1,
                ReadDirPlus {
                    fh: 1,
                    offset: 1,
                    size: 4096,
                },
            ),
            (1, Lookup { name: b"e" }),
        ],
        faults: &[(2, Before(EACCES)), (4, After(5000))],
        replies: &[
            Opened(1),
            Entries(
                1,
                &[
                    ("..", Folder, 0),
                    ("a", File(0), 0),
                    ("d", Folder, 2),
                    ("e", File(0), 0),
                ],
            ),
            Entry(3, File(0)),
        ],
        ..NOTHING
    },
    Story {
        says: "its folder has moved, and its names are found where it stands",
        files: &[&["d", "x"]],
        asks: &[
            (1, Lookup { name: b"d" }),
            (2, OpenDir),
            (
                1,
                Rename {
                    name: b"d",
                    new_parent: 1,
                    new_name: b"y",
                },
            ),
            (
                2,
                ReadDirPlus {
                    fh: 1,
                    offset: 2,
                    size: 160,
                },
            ),
        ],
        replies: &[
            Entry(2, Folder),
            Opened(1),
            Done,
            Entries(2, &[("x", File(0), 3)]),
        ],
        ..NOTHING
    },
];

#[test]
fn names_looked_up_again(rt: HostRuntime) -> Result<(), Fail> {
    tell_all(&rt, rt.alloc(), LOOKS)
}
