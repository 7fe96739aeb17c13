//! Attributes of the host, from a tree in memory.

use crate::stories::Says::{Attributes, Created, Entries, Entry, Opened};
use crate::stories::Stands::{File, Folder};
use crate::stories::{NOTHING, Story, tell_all};
use std::test::Fail;
use test_support::OF_HOST;
use wire::Operation::{Create, GetAttr, Lookup, MakeDir, OpenDir, ReadDirPlus};

/// Attributes are the host's, and there are no requests.
pub const HOST: Story = Story {
    settings: OF_HOST,
    ..NOTHING
};

/// Reporting attributes, and creating with a mode.
const TOLD: &[Story] = &[
    Story {
        says: "attributes of the root, a file and a folder",
        asks: &[
            (1, GetAttr),
            (1, Lookup { name: b"a" }),
            (2, GetAttr),
            (1, Lookup { name: b"d" }),
            (3, GetAttr),
        ],
        replies: &[
            Attributes(1, Folder),
            Entry(2, File(3)),
            Attributes(2, File(3)),
            Entry(3, Folder),
            Attributes(3, Folder),
        ],
        ..HOST
    },
    Story {
        says: "a page of entries",
        asks: &[
            (1, OpenDir),
            (
                1,
                ReadDirPlus {
                    fh: 1,
                    offset: 1,
                    size: 4096,
                },
            ),
        ],
        replies: &[
            Opened(1),
            Entries(
                1,
                &[
                    ("..", Folder, 0),
                    ("a", File(3), 2),
                    ("d", Folder, 3),
                    ("e", File(0), 4),
                ],
            ),
        ],
        ..HOST
    },
    Story {
        says: "a folder and a file that are made",
        asks: &[
            (
                1,
                MakeDir {
                    name: b"m",
                    mode: 0o40700,
                    umask: 0o022,
                },
            ),
            (
                2,
                Create {
                    name: b"n",
                    flags: 2,
                    mode: 0o100600,
                    umask: 0o077,
                },
            ),
        ],
        replies: &[Entry(2, Folder), Created(3, 1)],
        after: &[(&["m"], Folder), (&["m", "n"], File(0))],
        ..HOST
    },
];

#[test]
fn told_and_made(rt: HostRuntime) -> Result<(), Fail> {
    tell_all(&rt, rt.alloc(), TOLD)
}
