//! How many folders are open when a session ends.

use crate::sampled::client_of;
use engine::Served;
use mirrord_programs::new_tree;
use std::alloc::Global;
use std::random::RandomSource;
use std::sync::Wait;
use std::test::Fail;
use table::Limits;
use test_support::{FIXED, PlainFolders, serve_client};

/// OPENDIR of the root, unique 3.
const OPEN: &str =
    "30000000 1b000000 0300000000000000 0100000000000000 00000000 00000000 00000000 00000000 00000000 00000000";

/// RELEASEDIR of the root's first handle, unique 4.
const RELEASE: &str =
    "40000000 1d000000 0400000000000000 0100000000000000 00000000 00000000 00000000 00000000 \
    0100000000000000 00000000 00000000 0000000000000000";

/// The same of node 9.
const RELEASE_OTHER: &str =
    "40000000 1d000000 0400000000000000 0900000000000000 00000000 00000000 00000000 00000000 \
    0100000000000000 00000000 00000000 0000000000000000";

/// What a client sends after INIT, the reply that it does not take, counted from 1, or 0, whether its link breaks
/// there, and how many folders are open at the end.
struct Row {
    lines: &'static [&'static str],
    declined: u32,
    breaks: bool,
    open: usize,
}

const ROWS: &[Row] = &[
    Row {
        lines: &[OPEN, OPEN],
        declined: 0,
        breaks: false,
        open: 2,
    },
    Row {
        lines: &[OPEN, OPEN],
        declined: 2,
        breaks: false,
        open: 1,
    },
    Row {
        lines: &[OPEN, OPEN],
        declined: 3,
        breaks: true,
        open: 1,
    },
    Row {
        lines: &[OPEN, RELEASE],
        declined: 0,
        breaks: false,
        open: 0,
    },
    // A RELEASEDIR whose reply is not taken has closed the folder all the same.
    Row {
        lines: &[OPEN, RELEASE, RELEASE],
        declined: 3,
        breaks: false,
        open: 0,
    },
    Row {
        lines: &[OPEN, RELEASE_OTHER],
        declined: 0,
        breaks: false,
        open: 1,
    },
];

/// How many folders are open at the end.
fn open_after<H: Wait + RandomSource>(rt: &H, alloc: Global, row: &Row) -> Result<usize, Fail> {
    let mut client = client_of(alloc, row.lines, row.declined)?;
    if row.breaks {
        client = client.breaking();
    }
    let mut served = Served {
        calls: new_tree(alloc, true)?,
        dirs: PlainFolders::new(alloc),
    };
    let limits = Limits::default();
    serve_client(rt, alloc, FIXED, limits, &mut served, &mut client)?;
    Ok(served.dirs.open())
}

#[test]
fn folders_that_stay_open(rt: HostRuntime) -> Result<(), Fail> {
    for row in ROWS {
        let open = open_after(&rt, rt.alloc(), row)?;
        assert_eq!(rt; open, row.open);
    }
    Ok(())
}
