//! Symbolic links that are removed and renamed, and other names that are moved onto them.

use crate::links::SHOWN;
use crate::requests::LINK_L;
use crate::stories::Says::{Attributes, Bytes, Done, Entry, Failed, Opened};
use crate::stories::Stands::{File, Folder, Link, Nothing};
use crate::stories::{Story, tell_all};
use errno::{EEXIST, EISDIR, ENOENT, ENOTDIR, ESTALE};
use std::test::Fail;
use wire::Operation::{
    self, GetAttr, Lookup, Open, Read, ReadLink, Release, Rename, Rename2, Unlink,
};

/// The link is moved onto the file `a`.
const ONTO_A: (u64, Operation<'static>) = (
    1,
    Rename {
        name: b"l",
        new_parent: 1,
        new_name: b"a",
    },
);

const MOVED: &[Story] = &[
    Story {
        says: "a link is removed",
        asks: &[
            LINK_L,
            (1, Unlink { name: b"l" }),
            (1, Lookup { name: b"l" }),
            (2, ReadLink),
        ],
        replies: &[Entry(2, Link(6)), Done, Failed(ENOENT), Failed(ESTALE)],
        after: &[(&["l"], Nothing)],
        names: &["a", "d", "e"],
        ..SHOWN
    },
    Story {
        says: "a link is moved onto a file",
        asks: &[
            LINK_L,
            (1, Lookup { name: b"a" }),
            ONTO_A,
            (2, ReadLink),
            (1, Lookup { name: b"a" }),
            (1, Lookup { name: b"l" }),
            (3, GetAttr),
        ],
        replies: &[
            Entry(2, Link(6)),
            Entry(3, File(3)),
            Done,
            Bytes(b"d/none"),
            Entry(2, Link(6)),
            Failed(ENOENT),
            Failed(ESTALE),
        ],
        after: &[(&["a"], Link(6)), (&["l"], Nothing)],
        names: &["a", "d", "e"],
        ..SHOWN
    },
    Story {
        says: "a file is moved onto a link",
        asks: &[
            LINK_L,
            (
                1,
                Rename {
                    name: b"a",
                    new_parent: 1,
                    new_name: b"l",
                },
            ),
            (1, Lookup { name: b"l" }),
            (2, ReadLink),
        ],
        replies: &[Entry(2, Link(6)), Done, Entry(3, File(3)), Failed(ESTALE)],
        after: &[(&["l"], File(3)), (&["a"], Nothing)],
        ..SHOWN
    },
    Story {
        says: "no link replaces a folder, and no folder a link",
        asks: &[
            LINK_L,
            (
                1,
                Rename {
                    name: b"l",
                    new_parent: 1,
                    new_name: b"d",
                },
            ),
            (
                1,
                Rename {
                    name: b"d",
                    new_parent: 1,
                    new_name: b"l",
                },
            ),
        ],
        replies: &[Entry(2, Link(6)), Failed(EISDIR), Failed(ENOTDIR)],
        after: &[(&["l"], Link(6)), (&["d"], Folder)],
        ..SHOWN
    },
    Story {
        says: "a link is moved onto an open file, which is read until it is closed",
        asks: &[
            (1, Lookup { name: b"a" }),
            (2, Open { flags: 0 }),
            LINK_L,
            ONTO_A,
            (
                2,
                Read {
                    fh: 1,
                    offset: 0,
                    size: 10,
                },
            ),
            (3, ReadLink),
            (1, Lookup { name: b"a" }),
            (2, Release { fh: 1 }),
        ],
        replies: &[
            Entry(2, File(3)),
            Opened(1),
            Entry(3, Link(6)),
            Done,
            Bytes(b"abc"),
            Bytes(b"d/none"),
            Entry(3, Link(6)),
            Done,
        ],
        after: &[(&["a"], Link(6)), (&["l"], Nothing)],
        names: &["a", "d", "e"],
        ..SHOWN
    },
    Story {
        says: "a link replaces nothing where it shall not, and is exchanged with a file",
        asks: &[
            LINK_L,
            (1, Lookup { name: b"a" }),
            (
                1,
                Rename2 {
                    name: b"l",
                    new_parent: 1,
                    flags: 1,
                    new_name: b"a",
                },
            ),
            (
                1,
                Rename2 {
                    name: b"l",
                    new_parent: 1,
                    flags: 2,
                    new_name: b"a",
                },
            ),
            (2, ReadLink),
            (1, Lookup { name: b"a" }),
            (3, GetAttr),
        ],
        replies: &[
            Entry(2, Link(6)),
            Entry(3, File(3)),
            Failed(EEXIST),
            Done,
            Bytes(b"d/none"),
            Entry(2, Link(6)),
            Attributes(3, File(3)),
        ],
        after: &[(&["a"], Link(6)), (&["l"], File(3))],
        ..SHOWN
    },
];

#[test]
fn removed_and_moved(rt: HostRuntime) -> Result<(), Fail> {
    tell_all(&rt, rt.alloc(), MOVED)
}
