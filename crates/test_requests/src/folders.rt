//! Requests that make folders and remove names, with their errors.

use crate::requests::{MAKE_A, MAKE_D, MAKE_M, MAKE_N, MAKE_RESERVED};
use crate::stories::Says::{Done, Entry, Failed};
use crate::stories::Stands::{File, Folder, Nothing};
use crate::stories::{NOTHING, Story, tell_all};
use backing::PlannedFault::{After, Before};
use errno::{EACCES, EEXIST, EIO, EISDIR, ENOENT, ENOTDIR, ENOTEMPTY, EPERM, ESTALE};
use std::test::Fail;
use wire::Operation::{GetAttr, Lookup, RemoveDir, Unlink};

/// Folders that are made.
const NEW_FOLDERS: &[Story] = &[
    Story {
        says: "a new folder, one in it, and one that stands",
        asks: &[(1, MAKE_M), (2, MAKE_N), (1, MAKE_D)],
        replies: &[Entry(2, Folder), Entry(3, Folder), Failed(EEXIST)],
        after: &[(&["m"], Folder), (&["m", "n"], Folder)],
        ..NOTHING
    },
    Story {
        says: "a reserved name, an unknown folder, and one below a file",
        asks: &[
            (1, MAKE_RESERVED),
            (9, MAKE_RESERVED),
            (9, MAKE_M),
            (1, Lookup { name: b"a" }),
            (2, MAKE_M),
        ],
        replies: &[
            Failed(EPERM),
            Failed(EPERM),
            Failed(ESTALE),
            Entry(2, File(3)),
            Failed(ENOTDIR),
        ],
        after: &[(&[".fuse_hiddenx"], Nothing)],
        ..NOTHING
    },
    Story {
        says: "it is not made",
        asks: &[(1, MAKE_M), (1, Lookup { name: b"m" })],
        faults: &[(1, Before(EACCES))],
        replies: &[Failed(EACCES), Failed(ENOENT)],
        after: &[(&["m"], Nothing)],
        ..NOTHING
    },
    Story {
        says: "it is made, and told as failed",
        asks: &[(1, MAKE_M), (1, Lookup { name: b"m" })],
        faults: &[(1, After(EIO))],
        replies: &[Failed(EIO), Entry(2, Folder)],
        after: &[(&["m"], Folder)],
        ..NOTHING
    },
    Story {
        says: "it is made and then not found: it stays, and nothing is given",
        asks: &[(1, MAKE_M), (1, Lookup { name: b"e" })],
        faults: &[(2, Before(EIO))],
        replies: &[Failed(EIO), Entry(2, File(0))],
        after: &[(&["m"], Folder)],
        ..NOTHING
    },
];

#[test]
fn new_folders(rt: HostRuntime) -> Result<(), Fail> {
    tell_all(&rt, rt.alloc(), NEW_FOLDERS)
}

/// Files and folders that are removed.
const REMOVALS: &[Story] = &[
    Story {
        says: "a file, a folder and nothing are unlinked",
        asks: &[
            (1, Unlink { name: b"a" }),
            (1, Unlink { name: b"d" }),
            (1, Unlink { name: b"zz" }),
        ],
        replies: &[Done, Failed(EISDIR), Failed(ENOENT)],
        after: &[(&["a"], Nothing), (&["d"], Folder)],
        ..NOTHING
    },
    Story {
        says: "a folder with a name, one without, a file and nothing are removed as folders",
        asks: &[
            (1, Lookup { name: b"d" }),
            (2, MAKE_M),
            (1, RemoveDir { name: b"d" }),
            (2, RemoveDir { name: b"m" }),
            (1, RemoveDir { name: b"d" }),
            (1, RemoveDir { name: b"a" }),
            (1, RemoveDir { name: b"zz" }),
        ],
        replies: &[
            Entry(2, Folder),
            Entry(3, Folder),
            Failed(ENOTEMPTY),
            Done,
            Done,
            Failed(ENOTDIR),
            Failed(ENOENT),
        ],
        after: &[(&["d"], Nothing), (&["a"], File(3))],
        ..NOTHING
    },
    Story {
        says: "names that are the server's own",
        asks: &[
            (
                1,
                Unlink {
                    name: b".fuse_hidden",
                },
            ),
            (
                9,
                RemoveDir {
                    name: b".fuse_hidden0",
                },
            ),
        ],
        replies: &[Failed(EPERM), Failed(EPERM)],
        ..NOTHING
    },
    Story {
        says: "a removed node is stale, and the same name is another node",
        asks: &[
            (1, Lookup { name: b"a" }),
            (1, Unlink { name: b"a" }),
            (2, GetAttr),
            (1, MAKE_A),
            (2, GetAttr),
        ],
        replies: &[
            Entry(2, File(3)),
            Done,
            Failed(ESTALE),
            Entry(3, Folder),
            Failed(ESTALE),
        ],
        after: &[(&["a"], Folder)],
        ..NOTHING
    },
    Story {
        says: "it fails before its work",
        asks: &[(1, Unlink { name: b"a" }), (1, RemoveDir { name: b"d" })],
        faults: &[(1, Before(EACCES)), (2, Before(EIO))],
        replies: &[Failed(EACCES), Failed(EIO)],
        after: &[(&["a"], File(3)), (&["d"], Folder)],
        ..NOTHING
    },
];

#[test]
fn removals(rt: HostRuntime) -> Result<(), Fail> {
    tell_all(&rt, rt.alloc(), REMOVALS)
}

/// UNLINK of `d/x` fails after its work, so its node keeps its name until its folder is removed.
const FAILED_REMOVE_THEN_RMDIR: &[Story] = &[Story {
    says: "a failed removal, and then its folder's",
    files: &[&["d", "x"]],
    asks: &[
        (1, Lookup { name: b"d" }),
        (2, Lookup { name: b"x" }),
        (2, Unlink { name: b"x" }),
        (3, GetAttr),
        (1, RemoveDir { name: b"d" }),
        (3, GetAttr),
        (2, GetAttr),
    ],
    faults: &[(3, After(EIO))],
    replies: &[
        Entry(2, Folder),
        Entry(3, File(0)),
        Failed(EIO),
        Failed(ENOENT),
        Done,
        Failed(ESTALE),
        Failed(ESTALE),
    ],
    after: &[(&["d"], Nothing)],
    ..NOTHING
}];

#[test]
fn failed_remove_then_rmdir(rt: HostRuntime) -> Result<(), Fail> {
    tell_all(&rt, rt.alloc(), FAILED_REMOVE_THEN_RMDIR)
}
