//! The session whose calls and replies fail in turn, as data: over the sample tree, one request of each kind that
//! changes something.

use crate::asks::Ask;
use crate::items::Told;
use ledger::Posting;
use wire::Operation;

/// The name under which the open file is hidden.
pub const HIDDEN: &[u8] = b".fuse_hidden0000000200000000";

/// The requests and their nodes, one after another, numbered from 1.
pub const REQUESTS: &[(u64, Operation<'static>)] = &[
    (
        0,
        Operation::Init {
            major: 7,
            minor: 31,
            max_readahead: 131072,
            flags: 0,
        },
    ),
    (1, Operation::Lookup { name: b"a" }),
    (2, Operation::Open { flags: 2 }),
    (
        2,
        Operation::Write {
            fh: 1,
            offset: 3,
            data: b"de",
        },
    ),
    (1, Operation::Unlink { name: b"a" }),
    (1, Operation::Lookup { name: b"e" }),
    (
        1,
        Operation::Rename {
            name: b"e",
            new_parent: 1,
            new_name: b"b",
        },
    ),
    (
        1,
        Operation::MakeDir {
            name: b"m",
            mode: 0,
            umask: 0,
        },
    ),
    (1, Operation::RemoveDir { name: b"m" }),
    (
        1,
        Operation::MakeLink {
            name: b"l",
            text: b"a/b",
        },
    ),
    (5, Operation::ReadLink),
    (1, Operation::OpenDir),
    (
        1,
        Operation::ReadDirPlus {
            fh: 1,
            offset: 0,
            size: 4096,
        },
    ),
    (
        1,
        Operation::Link {
            old_node: 3,
            name: b"h",
        },
    ),
    (2, Operation::Release { fh: 1 }),
    (1, Operation::ReleaseDir { fh: 1 }),
    (0, Operation::Destroy),
];

/// The calls of the tree if nothing fails, in order.
pub const ASKS: &[Ask] = &[
    Ask::Stat(b"a"),
    Ask::Stat(b"a"),
    Ask::Write(b"a", 3, b"de"),
    Ask::Stat(HIDDEN),
    Ask::Rename(b"a", HIDDEN),
    Ask::Stat(b"e"),
    Ask::Rename(b"e", b"b"),
    Ask::MakeDir(b"m"),
    Ask::Stat(b"m"),
    Ask::RemoveDir(b"m"),
    Ask::MakeLink(b"l", b"a/b"),
    Ask::Stat(b"l"),
    Ask::ReadLink(b"l"),
    Ask::List,
    Ask::Stat(b"b"),
    Ask::Stat(b"d"),
    Ask::Stat(b"l"),
    Ask::Link(b"b", b"h"),
    Ask::Remove(HIDDEN),
];

/// The ledger at the end if nothing fails.
pub const LEDGER: &[Posting] = &[
    Posting::Born {
        number: 2,
        generation: 0,
    },
    Posting::Entry {
        number: 2,
        generation: 0,
    },
    Posting::Born {
        number: 3,
        generation: 0,
    },
    Posting::Entry {
        number: 3,
        generation: 0,
    },
    Posting::Born {
        number: 4,
        generation: 0,
    },
    Posting::Entry {
        number: 4,
        generation: 0,
    },
    Posting::Born {
        number: 5,
        generation: 0,
    },
    Posting::Entry {
        number: 5,
        generation: 0,
    },
    Posting::Entry {
        number: 3,
        generation: 0,
    },
    Posting::Born {
        number: 6,
        generation: 0,
    },
    Posting::Entry {
        number: 6,
        generation: 0,
    },
    Posting::Entry {
        number: 5,
        generation: 0,
    },
];

/// What is at names of the root at the end if nothing fails.
pub const STANDS: &[(&[u8], Told)] = &[
    (b"a", Told::Error(2)),
    (b"b", Told::File(0)),
    (b"d", Told::Folder),
    (b"l", Told::Link(3)),
    (b"e", Told::Error(2)),
    (b"h", Told::Error(2)),
    (b"m", Told::Error(2)),
    (HIDDEN, Told::Error(2)),
];
