//! Symbolic links that are made, shown and read. None is followed.

use crate::requests::{LINK_L, NOTHING_NEW};
use crate::stories::Says::{Attributes, Bytes, Entries, Entry, Failed, Names, Opened};
use crate::stories::Stands::{File, Folder, Link, Nothing};
use crate::stories::{NOTHING, Says, Story, tell, tell_all};
use errno::{EINVAL, ENAMETOOLONG};
use std::alloc::Global;
use std::random::RandomSource;
use std::sync::Wait;
use std::test::Fail;
use test_support::{ALL, ALL_OF_HOST};
use wire::Operation;
use wire::Operation::{
    GetAttr, Lookup, MakeLink, OpenDir, ReadDir, ReadDirPlus, ReadLink, SetAttr,
};

/// All kinds of files are shown, and there are no requests.
pub const SHOWN: Story = Story {
    settings: ALL,
    ..NOTHING
};

/// Links that are made.
const MADE: &[Story] = &[
    Story {
        says: "a link is made, read, told and found",
        asks: &[
            LINK_L,
            (2, ReadLink),
            (2, GetAttr),
            (1, Lookup { name: b"l" }),
        ],
        replies: &[
            Entry(2, Link(6)),
            Bytes(b"d/none"),
            Attributes(2, Link(6)),
            Entry(2, Link(6)),
        ],
        after: &[
            (&["l"], Link(6)),
            (&["d"], Folder),
            (&["d", "none"], Nothing),
        ],
        names: &["a", "d", "e", "l"],
        ..SHOWN
    },
    Story {
        says: "a text is any bytes, also the link's own name",
        asks: &[
            (
                1,
                MakeLink {
                    name: b"l",
                    text: b"\xff/../ \x01",
                },
            ),
            (2, ReadLink),
            (
                1,
                MakeLink {
                    name: b"m",
                    text: b"m",
                },
            ),
            (3, ReadLink),
        ],
        replies: &[
            Entry(2, Link(7)),
            Bytes(b"\xff/../ \x01"),
            Entry(3, Link(1)),
            Bytes(b"m"),
        ],
        after: &[(&["l"], Link(7)), (&["m"], Link(1))],
        ..SHOWN
    },
    Story {
        says: "a link in a folder, and in pages of names and of entries",
        asks: &[
            LINK_L,
            (1, OpenDir),
            (
                1,
                ReadDir {
                    fh: 1,
                    offset: 2,
                    size: 4096,
                },
            ),
            (
                1,
                ReadDirPlus {
                    fh: 1,
                    offset: 4,
                    size: 4096,
                },
            ),
        ],
        replies: &[
            Entry(2, Link(6)),
            Opened(1),
            Names(
                2,
                &[
                    ("a", File(3)),
                    ("d", Folder),
                    ("e", File(0)),
                    ("l", Link(6)),
                ],
            ),
            Entries(4, &[("e", File(0), 3), ("l", Link(6), 2)]),
        ],
        ..SHOWN
    },
    Story {
        says: "attributes of the host, of which a length cannot be set",
        settings: ALL_OF_HOST,
        asks: &[
            LINK_L,
            (
                2,
                SetAttr {
                    valid: 1,
                    fh: 0,
                    size: 0,
                    attributes: NOTHING_NEW,
                },
            ),
            (
                2,
                SetAttr {
                    valid: 8,
                    fh: 0,
                    size: 2,
                    attributes: NOTHING_NEW,
                },
            ),
            (2, GetAttr),
        ],
        replies: &[
            Entry(2, Link(6)),
            Attributes(2, Link(6)),
            Failed(EINVAL),
            Attributes(2, Link(6)),
        ],
        after: &[(&["l"], Link(6))],
        ..SHOWN
    },
];

#[test]
fn made_and_read(rt: HostRuntime) -> Result<(), Fail> {
    tell_all(&rt, rt.alloc(), MADE)
}

/// A story of these requests and replies.
fn tell_asks<'a, H: Wait + RandomSource>(
    rt: &H,
    alloc: Global,
    asks: &'a [(u64, Operation<'a>)],
    replies: &'a [Says<'a>],
) -> Result<(), Fail> {
    let story = Story {
        says: "a long text",
        asks,
        replies,
        ..SHOWN
    };
    tell(rt, alloc, &story)
}

/// Makes a link with that text in a session of its own.
fn tell_text<H: Wait + RandomSource>(
    rt: &H,
    alloc: Global,
    text: &[u8],
    says: Says<'_>,
) -> Result<(), Fail> {
    let asks = [(1, MakeLink { name: b"l", text })];
    tell_asks(rt, alloc, &asks, &[says])
}

// A link has 4,095 bytes at most, as on Linux.
#[test]
fn long_texts(rt: HostRuntime) -> Result<(), Fail> {
    for (len, says) in [
        (4095, Entry(2, Link(4095))),
        (4096, Failed(ENAMETOOLONG)),
        (65536, Failed(ENAMETOOLONG)),
    ] {
        let mut text = Vec::new(rt.alloc());
        text.resize(len, b'x')?;
        tell_text(&rt, rt.alloc(), &text, says)?;
    }
    Ok(())
}
