//! Names that are exchanged (RENAME2).

use crate::stories::Says::{Attributes, Bytes, Done, Entry, Failed, Opened, Wrote};
use crate::stories::Stands::{File, Folder, Nothing};
use crate::stories::{NOTHING, Story, tell_all};
use backing::PlannedFault::{After, Before};
use errno::{EIO, ENOENT};
use std::test::Fail;
use wire::Operation::{GetAttr, Lookup, Open, Read, Rename2, Write};

/// Names that are exchanged.
const EXCHANGES: &[Story] = &[
    Story {
        says: "a file and a folder change places: nodes keep their numbers, with all below",
        files: &[&["d", "x"]],
        asks: &[
            (1, Lookup { name: b"a" }),
            (1, Lookup { name: b"d" }),
            (3, Lookup { name: b"x" }),
            (2, Open { flags: 0 }),
            (
                1,
                Rename2 {
                    name: b"a",
                    new_parent: 1,
                    flags: 2,
                    new_name: b"d",
                },
            ),
            (1, Lookup { name: b"a" }),
            (1, Lookup { name: b"d" }),
            (3, Lookup { name: b"x" }),
            (2, GetAttr),
            (
                2,
                Read {
                    fh: 1,
                    offset: 0,
                    size: 10,
                },
            ),
        ],
        replies: &[
            Entry(2, File(3)),
            Entry(3, Folder),
            Entry(4, File(0)),
            Opened(1),
            Done,
            Entry(3, Folder),
            Entry(2, File(3)),
            Entry(4, File(0)),
            Attributes(2, File(3)),
            Bytes(b"abc"),
        ],
        after: &[
            (&["a"], Folder),
            (&["a", "x"], File(0)),
            (&["d"], File(3)),
            (&["d", "x"], Nothing),
        ],
        ..NOTHING
    },
    Story {
        says: "names of two folders",
        files: &[&["d", "x"]],
        asks: &[
            (1, Lookup { name: b"d" }),
            (
                1,
                Rename2 {
                    name: b"a",
                    new_parent: 2,
                    flags: 2,
                    new_name: b"x",
                },
            ),
            (2, Lookup { name: b"x" }),
            (1, Lookup { name: b"a" }),
            (
                2,
                Rename2 {
                    name: b"x",
                    new_parent: 1,
                    flags: 2,
                    new_name: b"a",
                },
            ),
            (3, GetAttr),
            (4, GetAttr),
        ],
        replies: &[
            Entry(2, Folder),
            Done,
            Entry(3, File(3)),
            Entry(4, File(0)),
            Done,
            Attributes(3, File(3)),
            Attributes(4, File(0)),
        ],
        after: &[(&["a"], File(3)), (&["d", "x"], File(0))],
        ..NOTHING
    },
    Story {
        says: "two open files, neither of which is hidden",
        asks: &[
            (1, Lookup { name: b"a" }),
            (1, Lookup { name: b"e" }),
            (2, Open { flags: 0 }),
            (3, Open { flags: 2 }),
            (
                1,
                Rename2 {
                    name: b"e",
                    new_parent: 1,
                    flags: 2,
                    new_name: b"a",
                },
            ),
            (
                3,
                Write {
                    fh: 2,
                    offset: 0,
                    data: b"late",
                },
            ),
            (
                2,
                Read {
                    fh: 1,
                    offset: 0,
                    size: 10,
                },
            ),
            (
                3,
                Read {
                    fh: 2,
                    offset: 0,
                    size: 10,
                },
            ),
            (1, Lookup { name: b"a" }),
            (1, Lookup { name: b"e" }),
        ],
        replies: &[
            Entry(2, File(3)),
            Entry(3, File(0)),
            Opened(1),
            Opened(2),
            Done,
            Wrote(4),
            Bytes(b"abc"),
            Bytes(b"late"),
            Entry(3, File(4)),
            Entry(2, File(3)),
        ],
        after: &[
            (&["a"], File(4)),
            (&["e"], File(3)),
            (&[".fuse_hidden0000000200000000"], Nothing),
            (&[".fuse_hidden0000000300000000"], Nothing),
        ],
        ..NOTHING
    },
    Story {
        says: "a name with itself",
        asks: &[
            (1, Lookup { name: b"a" }),
            (
                1,
                Rename2 {
                    name: b"a",
                    new_parent: 1,
                    flags: 2,
                    new_name: b"a",
                },
            ),
            (
                1,
                Rename2 {
                    name: b"zz",
                    new_parent: 1,
                    flags: 2,
                    new_name: b"zz",
                },
            ),
            (2, GetAttr),
        ],
        replies: &[
            Entry(2, File(3)),
            Done,
            Failed(ENOENT),
            Attributes(2, File(3)),
        ],
        after: &[(&["a"], File(3))],
        ..NOTHING
    },
    Story {
        says: "it fails before its work",
        asks: &[
            (1, Lookup { name: b"a" }),
            (
                1,
                Rename2 {
                    name: b"a",
                    new_parent: 1,
                    flags: 2,
                    new_name: b"e",
                },
            ),
            (2, GetAttr),
        ],
        faults: &[(2, Before(EIO))],
        replies: &[Entry(2, File(3)), Failed(EIO), Attributes(2, File(3))],
        after: &[(&["a"], File(3)), (&["e"], File(0))],
        ..NOTHING
    },
    Story {
        says: "it fails after its work, so its nodes keep the old names",
        asks: &[
            (1, Lookup { name: b"a" }),
            (
                1,
                Rename2 {
                    name: b"a",
                    new_parent: 1,
                    flags: 2,
                    new_name: b"e",
                },
            ),
            (2, GetAttr),
        ],
        faults: &[(2, After(EIO))],
        replies: &[Entry(2, File(3)), Failed(EIO), Attributes(2, File(0))],
        after: &[(&["a"], File(0)), (&["e"], File(3))],
        ..NOTHING
    },
];

#[test]
fn exchanges(rt: HostRuntime) -> Result<(), Fail> {
    tell_all(&rt, rt.alloc(), EXCHANGES)
}
