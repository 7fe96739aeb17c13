//! Names that are no UTF-8: a session takes them, or refuses each request that has one.

use crate::stories::Says::{Created, Done, Entry, Failed};
use crate::stories::Stands::{File, Folder, Link};
use crate::stories::{NOTHING, Says, Story, tell};
use errno::{EEXIST, EINVAL, ENOENT};
use ops::Settings;
use std::alloc::Global;
use std::random::RandomSource;
use std::sync::Wait;
use std::test::Fail;
use terms::Names;
use test_support::ALL;
use wire::Operation::{
    self, Create, Lookup, MakeDir, MakeLink, RemoveDir, Rename, Rename2, Unlink,
};

/// The requests that have names, but LINK, with the reply where all bytes are taken. Names differ by one byte.
const ASKS: &[(u64, Operation)] = &[
    (
        1,
        MakeDir {
            name: b"\xff",
            mode: 0,
            umask: 0,
        },
    ),
    (
        1,
        MakeDir {
            name: b"\xff",
            mode: 0,
            umask: 0,
        },
    ),
    (
        2,
        Create {
            name: b"a\xc3",
            flags: 2,
            mode: 0,
            umask: 0,
        },
    ),
    (
        1,
        MakeLink {
            name: b"l\xfe",
            text: b"\xff",
        },
    ),
    (2, Lookup { name: b"a\xc3" }),
    (2, Lookup { name: b"a\xc2" }),
    (
        2,
        Rename {
            name: b"a\xc3",
            new_parent: 1,
            new_name: b"\xc3(",
        },
    ),
    (1, Lookup { name: b"\xc3(" }),
    (
        1,
        Rename2 {
            name: b"\xc3(",
            new_parent: 1,
            flags: 2,
            new_name: b"l\xfe",
        },
    ),
    (1, Lookup { name: b"l\xfe" }),
    (1, Unlink { name: b"l\xfe" }),
    (1, Unlink { name: b"\xc3(" }),
    (1, RemoveDir { name: b"\xff" }),
    (1, Lookup { name: b"\xff" }),
];

const REPLIES: &[Says] = &[
    Entry(2, Folder),
    Failed(EEXIST),
    Created(3, 1),
    Entry(4, Link(1)),
    Entry(3, File(0)),
    Failed(ENOENT),
    Done,
    Entry(3, File(0)),
    Done,
    Entry(3, File(0)),
    Done,
    Done,
    Done,
    Failed(ENOENT),
];

#[test]
fn names_of_any_bytes(rt: HostRuntime) -> Result<(), Fail> {
    let story = Story {
        says: "names of any bytes",
        settings: Settings {
            names: Names::Bytes,
            ..ALL
        },
        asks: ASKS,
        replies: REPLIES,
        ..NOTHING
    };
    tell(&rt, rt.alloc(), &story)
}

/// A name that begins as the server's own, whatever follows.
const RESERVED: (u64, Operation) = (
    1,
    Lookup {
        name: b".fuse_hidden\xff",
    },
);

/// What the server keeps for itself is refused by its first bytes, and a text is taken.
#[test]
fn reserved_names_and_texts(rt: HostRuntime) -> Result<(), Fail> {
    let story = Story {
        says: "a reserved name and texts, where names are bytes",
        settings: Settings {
            names: Names::Bytes,
            ..ALL
        },
        asks: &[
            RESERVED,
            (
                1,
                MakeDir {
                    name: b"\xc3\xa4",
                    mode: 0,
                    umask: 0,
                },
            ),
            (1, Lookup { name: b"a" }),
        ],
        replies: &[Failed(ENOENT), Entry(2, Folder), Entry(3, File(3))],
        after: &[(&["ä"], Folder)],
        names: &["a", "d", "e", "ä"],
        ..NOTHING
    };
    tell(&rt, rt.alloc(), &story)
}

/// A story of these requests and replies, and of what is in the root at the end.
fn tell_asks<'a, H: Wait + RandomSource>(
    rt: &H,
    alloc: Global,
    asks: &'a [(u64, Operation<'a>)],
    replies: &'a [Says<'a>],
    names: &'a [&'a str],
) -> Result<(), Fail> {
    let story = Story {
        says: "a name that is no text",
        settings: ALL,
        asks,
        replies,
        names,
        ..NOTHING
    };
    tell(rt, alloc, &story)
}

/// Asks that of the root, and of a node that is not known.
fn tell_refused<'a, H: Wait + RandomSource>(
    rt: &H,
    alloc: Global,
    operation: Operation<'a>,
) -> Result<(), Fail> {
    let asks = [(1, operation), (9, operation), (1, Lookup { name: b"e" })];
    let replies = [Failed(EINVAL), Failed(EINVAL), Entry(2, File(0))];
    tell_asks(rt, alloc, &asks, &replies, &["a", "d", "e"])
}

/// Where names are texts each of them is refused, whatever its folder is, and nothing is changed.
#[test]
fn names_that_are_no_text(rt: HostRuntime) -> Result<(), Fail> {
    for (_, operation) in ASKS {
        tell_refused(&rt, rt.alloc(), *operation)?;
    }
    Ok(())
}
