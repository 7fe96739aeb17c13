//! Further names for files. A tree in memory gives none, so each of these requests is refused.

use crate::links::SHOWN;
use crate::stories::Says::{Attributes, Done, Entry, Failed, Opened};
use crate::stories::Stands::{File, Folder, Nothing};
use crate::stories::{NOTHING, Story, tell_all};
use backing::PlannedFault::{After, Before};
use errno::{EACCES, EEXIST, EIO, ENFILE, ENOENT, ENOSYS, ENOTDIR, EPERM, ESTALE};
use std::test::Fail;
use wire::Operation::{self, GetAttr, Link, Lookup, Open, Release, Unlink};

/// The name `l` in the root for node 2.
const NAME_L: (u64, Operation<'static>) = (
    1,
    Link {
        old_node: 2,
        name: b"l",
    },
);

/// All kinds of files are shown but in the last.
const REFUSED: &[Story] = &[
    Story {
        says: "what stands in a tree of paths has one name",
        asks: &[
            (1, Lookup { name: b"a" }),
            NAME_L,
            (1, Lookup { name: b"l" }),
            (2, GetAttr),
        ],
        replies: &[
            Entry(2, File(3)),
            Failed(EPERM),
            Failed(ENOENT),
            Attributes(2, File(3)),
        ],
        after: &[(&["a"], File(3)), (&["l"], Nothing)],
        names: &["a", "d", "e"],
        ..SHOWN
    },
    Story {
        says: "the root is refused at once, and so is a reserved name; then nodes that are unknown, and a folder that is none",
        asks: &[
            (
                9,
                Link {
                    old_node: 1,
                    name: b"l",
                },
            ),
            (
                9,
                Link {
                    old_node: 9,
                    name: b".fuse_hiddenx",
                },
            ),
            NAME_L,
            (1, Lookup { name: b"a" }),
            (
                9,
                Link {
                    old_node: 2,
                    name: b"l",
                },
            ),
            (
                2,
                Link {
                    old_node: 2,
                    name: b"l",
                },
            ),
        ],
        replies: &[
            Failed(EPERM),
            Failed(EPERM),
            Failed(ESTALE),
            Entry(2, File(3)),
            Failed(ESTALE),
            Failed(ENOTDIR),
        ],
        names: &["a", "d", "e"],
        ..SHOWN
    },
    Story {
        says: "a name that is taken, also by the file itself",
        asks: &[
            (1, Lookup { name: b"a" }),
            (
                1,
                Link {
                    old_node: 2,
                    name: b"a",
                },
            ),
            (
                1,
                Link {
                    old_node: 2,
                    name: b"d",
                },
            ),
            (
                1,
                Link {
                    old_node: 2,
                    name: b"e",
                },
            ),
        ],
        replies: &[
            Entry(2, File(3)),
            Failed(EEXIST),
            Failed(EEXIST),
            Failed(EEXIST),
        ],
        after: &[(&["a"], File(3)), (&["d"], Folder), (&["e"], File(0))],
        ..SHOWN
    },
    Story {
        says: "a folder, and a name in one",
        asks: &[
            (1, Lookup { name: b"d" }),
            NAME_L,
            (
                2,
                Link {
                    old_node: 2,
                    name: b"x",
                },
            ),
            (1, Lookup { name: b"a" }),
            (
                2,
                Link {
                    old_node: 3,
                    name: b"x",
                },
            ),
        ],
        replies: &[
            Entry(2, Folder),
            Failed(EPERM),
            Failed(EPERM),
            Entry(3, File(3)),
            Failed(EPERM),
        ],
        after: &[(&["d", "x"], Nothing)],
        names: &["a", "d", "e"],
        ..SHOWN
    },
    Story {
        says: "a file that was removed",
        asks: &[
            (1, Lookup { name: b"a" }),
            (1, Unlink { name: b"a" }),
            NAME_L,
        ],
        replies: &[Entry(2, File(3)), Done, Failed(ESTALE)],
        names: &["d", "e"],
        ..SHOWN
    },
    Story {
        says: "a file whose removal was told as failed",
        asks: &[
            (1, Lookup { name: b"a" }),
            (1, Unlink { name: b"a" }),
            NAME_L,
        ],
        faults: &[(2, After(EIO))],
        replies: &[Entry(2, File(3)), Failed(EIO), Failed(ENOENT)],
        names: &["d", "e"],
        ..SHOWN
    },
    Story {
        says: "an open file that was removed, and is hidden",
        asks: &[
            (1, Lookup { name: b"a" }),
            (2, Open { flags: 0 }),
            (1, Unlink { name: b"a" }),
            NAME_L,
            (2, Release { fh: 1 }),
        ],
        replies: &[Entry(2, File(3)), Opened(1), Done, Failed(EPERM), Done],
        names: &["d", "e"],
        ..SHOWN
    },
    Story {
        says: "the directory's own fault, and then its refusal",
        asks: &[(1, Lookup { name: b"a" }), NAME_L, NAME_L],
        faults: &[(2, Before(EACCES))],
        replies: &[Entry(2, File(3)), Failed(EACCES), Failed(EPERM)],
        names: &["a", "d", "e"],
        ..SHOWN
    },
    Story {
        says: "no node is left for the new name",
        nodes: 2,
        asks: &[(1, Lookup { name: b"a" }), NAME_L],
        replies: &[Entry(2, File(3)), Failed(ENFILE)],
        names: &["a", "d", "e"],
        ..SHOWN
    },
    Story {
        says: "files and folders alone: it is not served, whatever it has",
        asks: &[
            (1, Lookup { name: b"a" }),
            NAME_L,
            (
                1,
                Link {
                    old_node: 1,
                    name: b"l",
                },
            ),
            (
                9,
                Link {
                    old_node: 9,
                    name: b".fuse_hiddenx",
                },
            ),
        ],
        replies: &[
            Entry(2, File(3)),
            Failed(ENOSYS),
            Failed(ENOSYS),
            Failed(ENOSYS),
        ],
        names: &["a", "d", "e"],
        ..NOTHING
    },
];

#[test]
fn no_further_names(rt: HostRuntime) -> Result<(), Fail> {
    tell_all(&rt, rt.alloc(), REFUSED)
}
