//! Requests that rename, with their errors.

use crate::requests::{MAKE_A, MAKE_B, MAKE_C, MAKE_X};
use crate::stories::Says::{Attributes, Done, Entry, Failed};
use crate::stories::Stands::{File, Folder, Nothing};
use crate::stories::{NOTHING, Story, tell_all};
use backing::PlannedFault::{After, Before};
use errno::{EACCES, EINVAL, EIO, EISDIR, ENOENT, ENOTDIR, ENOTEMPTY, EPERM, ESTALE};
use std::test::Fail;
use wire::Operation::{GetAttr, Lookup, Rename, Unlink};

/// Files and folders that are renamed.
const RENAMES: &[Story] = &[
    Story {
        says: "a file is renamed, and keeps its number",
        asks: &[
            (1, Lookup { name: b"a" }),
            (
                1,
                Rename {
                    name: b"a",
                    new_parent: 1,
                    new_name: b"b",
                },
            ),
            (2, GetAttr),
            (1, Lookup { name: b"b" }),
            (1, Lookup { name: b"a" }),
        ],
        replies: &[
            Entry(2, File(3)),
            Done,
            Attributes(2, File(3)),
            Entry(2, File(3)),
            Failed(ENOENT),
        ],
        after: &[(&["a"], Nothing), (&["b"], File(3))],
        ..NOTHING
    },
    Story {
        says: "a file replaces another, whose node is stale then",
        asks: &[
            (1, Lookup { name: b"e" }),
            (
                1,
                Rename {
                    name: b"a",
                    new_parent: 1,
                    new_name: b"e",
                },
            ),
            (2, GetAttr),
            (1, Lookup { name: b"e" }),
        ],
        replies: &[Entry(2, File(0)), Done, Failed(ESTALE), Entry(3, File(3))],
        after: &[(&["a"], Nothing), (&["e"], File(3))],
        ..NOTHING
    },
    Story {
        says: "a file is moved into a folder, and the folder moved with it",
        asks: &[
            (1, Lookup { name: b"d" }),
            (
                1,
                Rename {
                    name: b"a",
                    new_parent: 2,
                    new_name: b"x",
                },
            ),
            (
                1,
                Rename {
                    name: b"d",
                    new_parent: 1,
                    new_name: b"f",
                },
            ),
            (2, Lookup { name: b"x" }),
        ],
        replies: &[Entry(2, Folder), Done, Done, Entry(3, File(3))],
        after: &[(&["f", "x"], File(3)), (&["d"], Nothing)],
        ..NOTHING
    },
    Story {
        says: "what the directory refuses",
        asks: &[
            (
                1,
                Rename {
                    name: b"zz",
                    new_parent: 1,
                    new_name: b"b",
                },
            ),
            (
                1,
                Rename {
                    name: b"zz",
                    new_parent: 1,
                    new_name: b"zz",
                },
            ),
            (
                1,
                Rename {
                    name: b"a",
                    new_parent: 1,
                    new_name: b"d",
                },
            ),
            (
                1,
                Rename {
                    name: b"d",
                    new_parent: 1,
                    new_name: b"a",
                },
            ),
        ],
        replies: &[
            Failed(ENOENT),
            Failed(ENOENT),
            Failed(EISDIR),
            Failed(ENOTDIR),
        ],
        after: &[(&["a"], File(3)), (&["d"], Folder)],
        ..NOTHING
    },
    Story {
        says: "names that are the server's own, and unknown folders",
        asks: &[
            (
                1,
                Rename {
                    name: b".fuse_hidden",
                    new_parent: 1,
                    new_name: b"b",
                },
            ),
            (
                9,
                Rename {
                    name: b"a",
                    new_parent: 9,
                    new_name: b".fuse_hiddenb",
                },
            ),
            (
                9,
                Rename {
                    name: b"a",
                    new_parent: 1,
                    new_name: b"b",
                },
            ),
            (
                1,
                Rename {
                    name: b"a",
                    new_parent: 9,
                    new_name: b"b",
                },
            ),
        ],
        replies: &[Failed(EPERM), Failed(EPERM), Failed(ESTALE), Failed(ESTALE)],
        after: &[(&["a"], File(3))],
        ..NOTHING
    },
    Story {
        says: "it fails before its work",
        asks: &[(
            1,
            Rename {
                name: b"a",
                new_parent: 1,
                new_name: b"b",
            },
        )],
        faults: &[(1, Before(EACCES))],
        replies: &[Failed(EACCES)],
        after: &[(&["a"], File(3)), (&["b"], Nothing)],
        ..NOTHING
    },
    Story {
        says: "it fails after its work, so its node keeps the old name",
        asks: &[
            (1, Lookup { name: b"a" }),
            (
                1,
                Rename {
                    name: b"a",
                    new_parent: 1,
                    new_name: b"b",
                },
            ),
            (2, GetAttr),
            (1, Lookup { name: b"b" }),
        ],
        faults: &[(2, After(EIO))],
        replies: &[
            Entry(2, File(3)),
            Failed(EIO),
            Failed(ENOENT),
            Entry(3, File(3)),
        ],
        after: &[(&["a"], Nothing), (&["b"], File(3))],
        ..NOTHING
    },
];

#[test]
fn renames(rt: HostRuntime) -> Result<(), Fail> {
    tell_all(&rt, rt.alloc(), RENAMES)
}

/// A folder cannot be moved below itself, nor a name onto one above it; moving it onto itself changes nothing.
const MOVES_ONTO_OWN_FRONTS: &[Story] = &[
    Story {
        says: "a folder is moved below itself",
        asks: &[
            (1, Lookup { name: b"d" }),
            (2, MAKE_X),
            (
                1,
                Rename {
                    name: b"d",
                    new_parent: 3,
                    new_name: b"y",
                },
            ),
            (3, GetAttr),
        ],
        replies: &[
            Entry(2, Folder),
            Entry(3, Folder),
            Failed(EINVAL),
            Attributes(3, Folder),
        ],
        after: &[(&["d", "x"], Folder)],
        ..NOTHING
    },
    Story {
        says: "a name is moved onto a folder above it",
        files: &[&["d", "b"]],
        asks: &[
            (1, Lookup { name: b"d" }),
            (2, MAKE_X),
            (3, MAKE_C),
            (
                3,
                Rename {
                    name: b"c",
                    new_parent: 1,
                    new_name: b"d",
                },
            ),
            (4, GetAttr),
        ],
        replies: &[
            Entry(2, Folder),
            Entry(3, Folder),
            Entry(4, Folder),
            Failed(ENOTEMPTY),
            Attributes(4, Folder),
        ],
        after: &[(&["d", "x", "c"], Folder)],
        ..NOTHING
    },
    Story {
        says: "a name is moved onto the first of the two folders above it",
        asks: &[
            (1, Unlink { name: b"a" }),
            (1, MAKE_A),
            (2, MAKE_B),
            (3, MAKE_C),
            (
                3,
                Rename {
                    name: b"c",
                    new_parent: 1,
                    new_name: b"a",
                },
            ),
            (4, GetAttr),
        ],
        replies: &[
            Done,
            Entry(2, Folder),
            Entry(3, Folder),
            Entry(4, Folder),
            Failed(ENOTEMPTY),
            Attributes(4, Folder),
        ],
        after: &[(&["a", "b", "c"], Folder)],
        ..NOTHING
    },
    Story {
        says: "a file is moved onto its own folder and onto itself, and the folder below the file",
        files: &[&["d", "b"]],
        asks: &[
            (1, Lookup { name: b"d" }),
            (2, Lookup { name: b"b" }),
            (
                2,
                Rename {
                    name: b"b",
                    new_parent: 1,
                    new_name: b"d",
                },
            ),
            (
                1,
                Rename {
                    name: b"d",
                    new_parent: 2,
                    new_name: b"b",
                },
            ),
            (
                2,
                Rename {
                    name: b"b",
                    new_parent: 2,
                    new_name: b"b",
                },
            ),
            (3, GetAttr),
        ],
        replies: &[
            Entry(2, Folder),
            Entry(3, File(0)),
            Failed(ENOTEMPTY),
            Failed(EINVAL),
            Done,
            Attributes(3, File(0)),
        ],
        after: &[(&["d"], Folder), (&["d", "b"], File(0))],
        ..NOTHING
    },
    Story {
        says: "a name is moved onto itself",
        asks: &[
            (1, Lookup { name: b"a" }),
            (
                1,
                Rename {
                    name: b"a",
                    new_parent: 1,
                    new_name: b"a",
                },
            ),
            (2, GetAttr),
        ],
        replies: &[Entry(2, File(3)), Done, Attributes(2, File(3))],
        after: &[(&["a"], File(3))],
        ..NOTHING
    },
];

#[test]
fn moves_onto_own_prefixes(rt: HostRuntime) -> Result<(), Fail> {
    tell_all(&rt, rt.alloc(), MOVES_ONTO_OWN_FRONTS)
}
