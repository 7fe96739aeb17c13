//! RENAME2 that is refused before any call of the directory, and by it.

use crate::stories::Says::{Attributes, Entry, Failed};
use crate::stories::Stands::{File, Folder, Nothing};
use crate::stories::{NOTHING, Story, tell_all};
use errno::{EINVAL, ENOENT, EPERM, ESTALE};
use std::test::Fail;
use wire::Operation::{GetAttr, Lookup, Rename2};

/// Names that are not exchanged.
const REFUSED: &[Story] = &[
    Story {
        says: "a name above or below, absent names and unknown folders",
        files: &[&["d", "x"]],
        asks: &[
            (1, Lookup { name: b"a" }),
            (1, Lookup { name: b"d" }),
            (
                1,
                Rename2 {
                    name: b"d",
                    new_parent: 3,
                    flags: 2,
                    new_name: b"x",
                },
            ),
            (
                3,
                Rename2 {
                    name: b"x",
                    new_parent: 1,
                    flags: 2,
                    new_name: b"d",
                },
            ),
            (
                1,
                Rename2 {
                    name: b"a",
                    new_parent: 1,
                    flags: 2,
                    new_name: b"zz",
                },
            ),
            (
                1,
                Rename2 {
                    name: b"zz",
                    new_parent: 1,
                    flags: 2,
                    new_name: b"a",
                },
            ),
            (
                1,
                Rename2 {
                    name: b"a",
                    new_parent: 9,
                    flags: 2,
                    new_name: b"b",
                },
            ),
            (
                9,
                Rename2 {
                    name: b"a",
                    new_parent: 1,
                    flags: 2,
                    new_name: b"b",
                },
            ),
            (2, GetAttr),
            (3, GetAttr),
        ],
        replies: &[
            Entry(2, File(3)),
            Entry(3, Folder),
            Failed(EINVAL),
            Failed(EINVAL),
            Failed(ENOENT),
            Failed(ENOENT),
            Failed(ESTALE),
            Failed(ESTALE),
            Attributes(2, File(3)),
            Attributes(3, Folder),
        ],
        after: &[
            (&["a"], File(3)),
            (&["d"], Folder),
            (&["d", "x"], File(0)),
            (&["zz"], Nothing),
        ],
        ..NOTHING
    },
    Story {
        says: "reserved names come before flags",
        asks: &[
            (
                1,
                Rename2 {
                    name: b".fuse_hidden",
                    new_parent: 1,
                    flags: 4,
                    new_name: b"b",
                },
            ),
            (
                1,
                Rename2 {
                    name: b"a",
                    new_parent: 1,
                    flags: 2,
                    new_name: b".fuse_hiddenb",
                },
            ),
            (
                1,
                Rename2 {
                    name: b"a",
                    new_parent: 1,
                    flags: 1,
                    new_name: b".fuse_hiddenb",
                },
            ),
            (
                1,
                Rename2 {
                    name: b"a",
                    new_parent: 1,
                    flags: 4,
                    new_name: b"b",
                },
            ),
            (
                1,
                Rename2 {
                    name: b"a",
                    new_parent: 1,
                    flags: 3,
                    new_name: b"b",
                },
            ),
            (
                9,
                Rename2 {
                    name: b"a",
                    new_parent: 9,
                    flags: 8,
                    new_name: b"b",
                },
            ),
        ],
        replies: &[
            Failed(EPERM),
            Failed(EPERM),
            Failed(EPERM),
            Failed(EINVAL),
            Failed(EINVAL),
            Failed(EINVAL),
        ],
        after: &[(&["a"], File(3)), (&["b"], Nothing)],
        ..NOTHING
    },
];

#[test]
fn refused_exchanges(rt: HostRuntime) -> Result<(), Fail> {
    tell_all(&rt, rt.alloc(), REFUSED)
}
