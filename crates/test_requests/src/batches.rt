//! Lookups that are forgotten in batches.

use crate::stories::Says::{Entry, Failed, NoReply, Opened};
use crate::stories::Stands::{File, Folder};
use crate::stories::{NOTHING, Story, tell_all};
use errno::ESTALE;
use std::test::Fail;
use wire::Operation::{BatchForget, Lookup, OpenDir};

/// Lookups of two nodes are forgotten at once: both numbers are free again, and the least is used first.
const STORIES: &[Story] = &[Story {
    says: "two nodes, one more that is unknown, the root, and no pair",
    asks: &[
        (1, Lookup { name: b"d" }),
        (1, Lookup { name: b"a" }),
        (
            0,
            BatchForget {
                pairs: b"\x03\0\0\0\0\0\0\0\x01\0\0\0\0\0\0\0\x09\0\0\0\0\0\0\0\x01\0\0\0\0\0\0\0\x01\0\0\0\0\0\0\0\x01\0\0\0\0\0\0\0",
            },
        ),
        (0, BatchForget { pairs: b"" }),
        (3, OpenDir),
        (2, OpenDir),
        (1, OpenDir),
    ],
    replies: &[
        Entry(2, Folder),
        Entry(3, File(3)),
        NoReply,
        NoReply,
        Failed(ESTALE),
        Opened(1),
        Opened(2),
    ],
    ..NOTHING
}];

#[test]
fn batches_of_lookups(rt: HostRuntime) -> Result<(), Fail> {
    tell_all(&rt, rt.alloc(), STORIES)
}
