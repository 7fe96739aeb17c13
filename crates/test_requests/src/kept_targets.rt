//! Moves that replace nothing (RENAME2), with their errors.

use crate::stories::Says::{Attributes, Bytes, Done, Entry, Failed, Opened};
use crate::stories::Stands::{File, Folder, Nothing};
use crate::stories::{NOTHING, Story, tell_all};
use backing::PlannedFault::{After, Before};
use errno::{EEXIST, EINVAL, EIO, ENOENT, ENOTEMPTY, ESTALE};
use std::test::Fail;
use wire::Operation::{GetAttr, Lookup, Open, Read, RemoveDir, Rename2};

/// Names that are moved, and targets that exist already.
const KEPT: &[Story] = &[
    Story {
        says: "what stands there is not replaced, and an open file not hidden",
        asks: &[
            (1, Lookup { name: b"a" }),
            (1, Lookup { name: b"e" }),
            (3, Open { flags: 0 }),
            (
                1,
                Rename2 {
                    name: b"a",
                    new_parent: 1,
                    flags: 1,
                    new_name: b"e",
                },
            ),
            (
                1,
                Rename2 {
                    name: b"a",
                    new_parent: 1,
                    flags: 1,
                    new_name: b"d",
                },
            ),
            (
                1,
                Rename2 {
                    name: b"d",
                    new_parent: 1,
                    flags: 1,
                    new_name: b"a",
                },
            ),
            (
                3,
                Read {
                    fh: 1,
                    offset: 0,
                    size: 10,
                },
            ),
            (2, GetAttr),
        ],
        replies: &[
            Entry(2, File(3)),
            Entry(3, File(0)),
            Opened(1),
            Failed(EEXIST),
            Failed(EEXIST),
            Failed(EEXIST),
            Bytes(b""),
            Attributes(2, File(3)),
        ],
        after: &[
            (&["a"], File(3)),
            (&["e"], File(0)),
            (&[".fuse_hidden0000000300000000"], Nothing),
        ],
        ..NOTHING
    },
    Story {
        says: "a file and a folder are moved to what is free",
        asks: &[
            (1, Lookup { name: b"a" }),
            (1, Lookup { name: b"d" }),
            (
                1,
                Rename2 {
                    name: b"a",
                    new_parent: 3,
                    flags: 1,
                    new_name: b"x",
                },
            ),
            (
                1,
                Rename2 {
                    name: b"d",
                    new_parent: 1,
                    flags: 1,
                    new_name: b"b",
                },
            ),
            (3, Lookup { name: b"x" }),
            (2, GetAttr),
            (1, Lookup { name: b"a" }),
        ],
        replies: &[
            Entry(2, File(3)),
            Entry(3, Folder),
            Done,
            Done,
            Entry(2, File(3)),
            Attributes(2, File(3)),
            Failed(ENOENT),
        ],
        after: &[(&["b", "x"], File(3)), (&["a"], Nothing), (&["d"], Nothing)],
        ..NOTHING
    },
    Story {
        says: "a name to itself, below itself, and above itself",
        files: &[&["d", "x"]],
        asks: &[
            (1, Lookup { name: b"d" }),
            (
                1,
                Rename2 {
                    name: b"d",
                    new_parent: 1,
                    flags: 1,
                    new_name: b"d",
                },
            ),
            (
                1,
                Rename2 {
                    name: b"zz",
                    new_parent: 1,
                    flags: 1,
                    new_name: b"zz",
                },
            ),
            (
                1,
                Rename2 {
                    name: b"d",
                    new_parent: 2,
                    flags: 1,
                    new_name: b"y",
                },
            ),
            (
                2,
                Rename2 {
                    name: b"x",
                    new_parent: 1,
                    flags: 1,
                    new_name: b"d",
                },
            ),
        ],
        replies: &[
            Entry(2, Folder),
            Failed(EEXIST),
            Failed(ENOENT),
            Failed(EINVAL),
            Failed(ENOTEMPTY),
        ],
        after: &[(&["d", "x"], File(0))],
        ..NOTHING
    },
    Story {
        says: "what is absent, and a folder that no longer stands",
        asks: &[
            (1, Lookup { name: b"d" }),
            (1, RemoveDir { name: b"d" }),
            (
                1,
                Rename2 {
                    name: b"zz",
                    new_parent: 1,
                    flags: 1,
                    new_name: b"a",
                },
            ),
            (
                1,
                Rename2 {
                    name: b"a",
                    new_parent: 2,
                    flags: 1,
                    new_name: b"x",
                },
            ),
        ],
        replies: &[Entry(2, Folder), Done, Failed(ENOENT), Failed(ESTALE)],
        after: &[(&["a"], File(3)), (&["d"], Nothing)],
        ..NOTHING
    },
    Story {
        says: "flags 0 hide an open file that is replaced",
        asks: &[
            (1, Lookup { name: b"a" }),
            (2, Open { flags: 0 }),
            (
                1,
                Rename2 {
                    name: b"e",
                    new_parent: 1,
                    flags: 0,
                    new_name: b"a",
                },
            ),
            (1, Lookup { name: b"a" }),
            (
                2,
                Read {
                    fh: 1,
                    offset: 0,
                    size: 10,
                },
            ),
        ],
        replies: &[
            Entry(2, File(3)),
            Opened(1),
            Done,
            Entry(3, File(0)),
            Bytes(b"abc"),
        ],
        after: &[(&["a"], File(0)), (&["e"], Nothing)],
        ..NOTHING
    },
    Story {
        says: "it fails before its work, and after it",
        asks: &[
            (1, Lookup { name: b"a" }),
            (
                1,
                Rename2 {
                    name: b"a",
                    new_parent: 1,
                    flags: 1,
                    new_name: b"b",
                },
            ),
            (
                1,
                Rename2 {
                    name: b"a",
                    new_parent: 1,
                    flags: 1,
                    new_name: b"b",
                },
            ),
            (2, GetAttr),
            (1, Lookup { name: b"b" }),
        ],
        faults: &[(2, Before(EIO)), (3, After(EIO))],
        replies: &[
            Entry(2, File(3)),
            Failed(EIO),
            Failed(EIO),
            Failed(ENOENT),
            Entry(3, File(3)),
        ],
        after: &[(&["a"], Nothing), (&["b"], File(3))],
        ..NOTHING
    },
];

#[test]
fn moves_that_replace_nothing(rt: HostRuntime) -> Result<(), Fail> {
    tell_all(&rt, rt.alloc(), KEPT)
}
