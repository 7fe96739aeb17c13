//! Open folders: what a client reads from them, and handles that do not exist.

use crate::requests::MAKE_M;
use crate::stories::Says::{Done, Entry, Failed, Names, Opened};
use crate::stories::Stands::{File, Folder};
use crate::stories::{NOTHING, Story, tell_all, tell_all_plainly};
use backing::PlannedFault::{After, Before};
use errno::{EACCES, EBADF, EINVAL, EIO, ENOTDIR, ESTALE};
use std::test::Fail;
use wire::Operation::{Lookup, OpenDir, ReadDir, ReleaseDir, RemoveDir, SyncDir};

/// What a client reads from an open folder.
const PAGES: &[Story] = &[
    Story {
        says: "the root, whole and in pages that just fit, and one that does not",
        asks: &[
            (1, OpenDir),
            (
                1,
                ReadDir {
                    fh: 1,
                    offset: 0,
                    size: 131072,
                },
            ),
            (
                1,
                ReadDir {
                    fh: 1,
                    offset: 2,
                    size: 96,
                },
            ),
            (
                1,
                ReadDir {
                    fh: 1,
                    offset: 2,
                    size: 95,
                },
            ),
            (
                1,
                ReadDir {
                    fh: 1,
                    offset: 2,
                    size: 31,
                },
            ),
            (
                1,
                ReadDir {
                    fh: 1,
                    offset: 5,
                    size: 31,
                },
            ),
            (
                1,
                ReadDir {
                    fh: 1,
                    offset: 0xffffffffffffffff,
                    size: 0,
                },
            ),
        ],
        replies: &[
            Opened(1),
            Names(
                0,
                &[
                    (".", Folder),
                    ("..", Folder),
                    ("a", File(3)),
                    ("d", Folder),
                    ("e", File(0)),
                ],
            ),
            Names(2, &[("a", File(3)), ("d", Folder), ("e", File(0))]),
            Names(2, &[("a", File(3)), ("d", Folder)]),
            Failed(EINVAL),
            Names(5, &[]),
            Names(0, &[]),
        ],
        ..NOTHING
    },
    Story {
        says: "names stand by their bytes, reserved ones are left out, and a listing is that of its OPENDIR",
        files: &[
            &["d", "z"],
            &["d", "a-b"],
            &["d", "a"],
            &["d", ".fuse_hidden0"],
        ],
        asks: &[
            (1, Lookup { name: b"d" }),
            (2, OpenDir),
            (2, MAKE_M),
            (
                2,
                ReadDir {
                    fh: 1,
                    offset: 1,
                    size: 4096,
                },
            ),
            (2, OpenDir),
            (
                2,
                ReadDir {
                    fh: 2,
                    offset: 3,
                    size: 4096,
                },
            ),
        ],
        replies: &[
            Entry(2, Folder),
            Opened(1),
            Entry(3, Folder),
            Names(
                1,
                &[
                    ("..", Folder),
                    ("a", File(0)),
                    ("a-b", File(0)),
                    ("z", File(0)),
                ],
            ),
            Opened(2),
            Names(3, &[("a-b", File(0)), ("m", Folder), ("z", File(0))]),
        ],
        ..NOTHING
    },
];

#[test]
fn pages_of_names(rt: HostRuntime) -> Result<(), Fail> {
    tell_all(&rt, rt.alloc(), PAGES)?;
    tell_all_plainly(&rt, rt.alloc(), PAGES)
}

/// Handles that do not exist, and folders that are not opened.
const HANDLES: &[Story] = &[
    Story {
        says: "a handle of another node, one that was not given, and one that was given up",
        asks: &[
            (1, Lookup { name: b"d" }),
            (1, OpenDir),
            (
                2,
                ReadDir {
                    fh: 1,
                    offset: 0,
                    size: 4096,
                },
            ),
            (2, SyncDir { fh: 1 }),
            (2, ReleaseDir { fh: 1 }),
            (
                1,
                ReadDir {
                    fh: 2,
                    offset: 0,
                    size: 4096,
                },
            ),
            (1, SyncDir { fh: 0 }),
            (1, ReleaseDir { fh: 2 }),
            (1, SyncDir { fh: 1 }),
            (1, ReleaseDir { fh: 1 }),
            (1, ReleaseDir { fh: 1 }),
            (1, SyncDir { fh: 1 }),
            (
                1,
                ReadDir {
                    fh: 1,
                    offset: 0,
                    size: 4096,
                },
            ),
            (1, OpenDir),
        ],
        replies: &[
            Entry(2, Folder),
            Opened(1),
            Failed(EBADF),
            Failed(EBADF),
            Failed(EBADF),
            Failed(EBADF),
            Failed(EBADF),
            Failed(EBADF),
            Done,
            Done,
            Failed(EBADF),
            Failed(EBADF),
            Failed(EBADF),
            Opened(2),
        ],
        ..NOTHING
    },
    Story {
        says: "a file, an unknown node, and a directory that fails before its work and after it",
        asks: &[
            (1, Lookup { name: b"a" }),
            (2, OpenDir),
            (9, OpenDir),
            (1, OpenDir),
            (1, OpenDir),
            (1, OpenDir),
        ],
        faults: &[(3, Before(EACCES)), (4, After(5000))],
        replies: &[
            Entry(2, File(3)),
            Failed(ENOTDIR),
            Failed(ESTALE),
            Failed(EACCES),
            Failed(EIO),
            Opened(1),
        ],
        ..NOTHING
    },
    Story {
        says: "a folder that was removed is read on, and its node is gone for the table alone",
        asks: &[
            (1, Lookup { name: b"d" }),
            (2, OpenDir),
            (1, RemoveDir { name: b"d" }),
            (2, OpenDir),
            (
                2,
                ReadDir {
                    fh: 1,
                    offset: 0,
                    size: 32,
                },
            ),
            (2, ReleaseDir { fh: 1 }),
        ],
        replies: &[
            Entry(2, Folder),
            Opened(1),
            Done,
            Failed(ESTALE),
            Names(0, &[(".", Folder)]),
            Done,
        ],
        ..NOTHING
    },
];

#[test]
fn handles_of_folders(rt: HostRuntime) -> Result<(), Fail> {
    tell_all(&rt, rt.alloc(), HANDLES)?;
    tell_all_plainly(&rt, rt.alloc(), HANDLES)
}
