//! Requests of symbolic links that are refused, or fail.

use crate::links::SHOWN;
use crate::requests::{CREATE_N, LINK_L, MAKE_M, NOTHING_NEW};
use crate::stories::Says::{Bytes, Entry, Failed};
use crate::stories::Stands::{File, Folder, Link, Nothing};
use crate::stories::{NOTHING, Story, tell_all};
use backing::PlannedFault::{After, Before};
use errno::{EACCES, EEXIST, EINVAL, EIO, ENOENT, ENOSYS, ENOTDIR, EPERM, ESTALE};
use std::test::Fail;
use wire::Operation::{
    Create, Lookup, MakeDir, MakeLink, Open, OpenDir, ReadLink, RemoveDir, SetAttr,
};

/// All kinds of files are shown but in the last.
const REFUSED: &[Story] = &[
    Story {
        says: "what is no link has no text",
        asks: &[
            (1, Lookup { name: b"a" }),
            (2, ReadLink),
            (1, Lookup { name: b"d" }),
            (3, ReadLink),
            (1, ReadLink),
            (9, ReadLink),
        ],
        replies: &[
            Entry(2, File(3)),
            Failed(EINVAL),
            Entry(3, Folder),
            Failed(EINVAL),
            Failed(EINVAL),
            Failed(ESTALE),
        ],
        ..SHOWN
    },
    Story {
        says: "a link is made where something stands",
        asks: &[
            (
                1,
                MakeLink {
                    name: b"a",
                    text: b"x",
                },
            ),
            (
                1,
                MakeLink {
                    name: b"d",
                    text: b"x",
                },
            ),
            LINK_L,
            (
                1,
                MakeLink {
                    name: b"l",
                    text: b"x",
                },
            ),
        ],
        replies: &[
            Failed(EEXIST),
            Failed(EEXIST),
            Entry(2, Link(6)),
            Failed(EEXIST),
        ],
        after: &[(&["a"], File(3)), (&["d"], Folder), (&["l"], Link(6))],
        ..SHOWN
    },
    Story {
        says: "no text, a reserved name, an unknown folder, and a link below a file",
        asks: &[
            (
                1,
                MakeLink {
                    name: b"l",
                    text: b"",
                },
            ),
            (
                1,
                MakeLink {
                    name: b"a",
                    text: b"",
                },
            ),
            (
                1,
                MakeLink {
                    name: b".fuse_hiddenx",
                    text: b"x",
                },
            ),
            (
                9,
                MakeLink {
                    name: b"l",
                    text: b"x",
                },
            ),
            (1, Lookup { name: b"a" }),
            (
                2,
                MakeLink {
                    name: b"l",
                    text: b"x",
                },
            ),
        ],
        replies: &[
            Failed(ENOENT),
            Failed(ENOENT),
            Failed(EPERM),
            Failed(ESTALE),
            Entry(2, File(3)),
            Failed(ENOTDIR),
        ],
        names: &["a", "d", "e"],
        ..SHOWN
    },
    Story {
        says: "a link is no file and no folder, and its name is taken",
        asks: &[
            LINK_L,
            (2, Open { flags: 0 }),
            (2, Open { flags: 2 }),
            (2, OpenDir),
            (2, Lookup { name: b"none" }),
            (2, MAKE_M),
            (2, CREATE_N),
            (
                1,
                Create {
                    name: b"l",
                    flags: 2,
                    mode: 0,
                    umask: 0,
                },
            ),
            (
                1,
                MakeDir {
                    name: b"l",
                    mode: 0,
                    umask: 0,
                },
            ),
            (1, RemoveDir { name: b"l" }),
            (
                2,
                SetAttr {
                    valid: 8,
                    fh: 0,
                    size: 2,
                    attributes: NOTHING_NEW,
                },
            ),
        ],
        replies: &[
            Entry(2, Link(6)),
            Failed(EINVAL),
            Failed(EINVAL),
            Failed(ENOTDIR),
            Failed(ENOTDIR),
            Failed(ENOTDIR),
            Failed(ENOTDIR),
            Failed(EEXIST),
            Failed(EEXIST),
            Failed(ENOTDIR),
            Failed(EINVAL),
        ],
        after: &[(&["l"], Link(6))],
        names: &["a", "d", "e", "l"],
        ..SHOWN
    },
    Story {
        says: "it is not made",
        asks: &[LINK_L, (1, Lookup { name: b"l" })],
        faults: &[(1, Before(EACCES))],
        replies: &[Failed(EACCES), Failed(ENOENT)],
        after: &[(&["l"], Nothing)],
        ..SHOWN
    },
    Story {
        says: "it is made, and told as failed",
        asks: &[LINK_L, (1, Lookup { name: b"l" })],
        faults: &[(1, After(EIO))],
        replies: &[Failed(EIO), Entry(2, Link(6))],
        after: &[(&["l"], Link(6))],
        ..SHOWN
    },
    Story {
        says: "it is made and then not found: it stays, and nothing is given",
        asks: &[LINK_L, (1, Lookup { name: b"e" })],
        faults: &[(2, Before(EIO))],
        replies: &[Failed(EIO), Entry(2, File(0))],
        after: &[(&["l"], Link(6))],
        ..SHOWN
    },
    Story {
        says: "its text is not read, and then it is",
        asks: &[LINK_L, (2, ReadLink), (2, ReadLink)],
        faults: &[(3, Before(EIO))],
        replies: &[Entry(2, Link(6)), Failed(EIO), Bytes(b"d/none")],
        ..SHOWN
    },
    Story {
        says: "files and folders alone: neither request is served, whatever it has",
        asks: &[
            LINK_L,
            (
                1,
                MakeLink {
                    name: b"l",
                    text: b"",
                },
            ),
            (
                9,
                MakeLink {
                    name: b".fuse_hiddenx",
                    text: b"x",
                },
            ),
            (1, ReadLink),
            (9, ReadLink),
        ],
        replies: &[
            Failed(ENOSYS),
            Failed(ENOSYS),
            Failed(ENOSYS),
            Failed(ENOSYS),
            Failed(ENOSYS),
        ],
        names: &["a", "d", "e"],
        ..NOTHING
    },
];

#[test]
fn refused_and_failed(rt: HostRuntime) -> Result<(), Fail> {
    tell_all(&rt, rt.alloc(), REFUSED)
}
