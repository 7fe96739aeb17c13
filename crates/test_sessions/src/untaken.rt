//! Clients that do not take a reply or begin too early, directories that give strange answers, and what is left of the
//! input at the end.

use crate::file_frames::{CREATE_N, FLUSH, FLUSH_REFUSED, OPEN_A};
use crate::frames::{
    ABSENT, AGREED, DESTROY, ENTRY_A, ENTRY_E_REBORN, INIT, LOOKUP_A, LOOKUP_E, LOOKUP_ZZ,
};
use crate::sampled::{bytes_of, client_from, client_of, serve_samples};
use backing::PlannedFault::{self, Before};
use engine::SessionEnd;
use errno::EACCES;
use ledger::Totals;
use std::alloc::Global;
use std::random::RandomSource;
use std::sync::Wait;
use std::test::Fail;

/// A client with the sample names, and how its session goes.
#[derive(Clone, Copy)]
struct Row {
    says: &'static str,
    /// Its first frame, and those after it.
    first: &'static str,
    lines: &'static [&'static str],
    /// The reply that it does not take, counted from 1.
    declined: u32,
    /// Whether the link breaks at it.
    breaks: bool,
    /// How the first call of the tree fails.
    fault: Option<PlannedFault>,
    end: SessionEnd,
    /// Births, entries, and entries that were given back; nothing is forgotten.
    totals: [u64; 3],
    /// The replies that are taken.
    replies: &'static [&'static str],
}

/// INIT and its reply.
const GREETED: Row = Row {
    says: "nothing",
    first: INIT,
    lines: &[],
    declined: 0,
    breaks: false,
    fault: None,
    end: SessionEnd::Closed { rest: 0 },
    totals: [0, 0, 0],
    replies: &[AGREED],
};

/// LOOKUP `n` in the root, unique 8.
const LOOKUP_N: &str =
    "2a000000 01000000 0800000000000000 0100000000000000 00000000 00000000 00000000 00000000 6e00";

const OPENDIR: &str =
    "30000000 1b000000 0300000000000000 0100000000000000 00000000 00000000 00000000 00000000 00000000 00000000";

/// FSYNCDIR by the first handle.
const SYNC_FIRST: &str =
    "38000000 1e000000 0400000000000000 0100000000000000 00000000 00000000 00000000 00000000 0100000000000000 00000000 00000000";

/// LOOKUP `a` without the last byte of its frame.
const TRUNCATED: &str =
    "2a000000 01000000 0700000000000000 0100000000000000 00000000 00000000 00000000 00000000 61";

/// EIO for unique 7.
const FAILED: &str = "10000000 fbffffff 0700000000000000";

/// The entry is given back, so its node is dropped; the session goes on, and its number is born again for `e`.
const UNTAKEN_LOOKUP: Row = Row {
    says: "the entry of a LOOKUP is given back",
    lines: &[LOOKUP_A, LOOKUP_E],
    declined: 2,
    totals: [2, 2, 1],
    replies: &[AGREED, ENTRY_E_REBORN],
    ..GREETED
};

const ROWS: &[Row] = &[
    Row {
        says: "the handle of an OPENDIR is closed, so it does not exist",
        lines: &[OPENDIR, SYNC_FIRST, OPENDIR],
        declined: 2,
        replies: &[
            AGREED,
            "10000000 f7ffffff 0400000000000000",
            "20000000 00000000 0300000000000000 0200000000000000 00000000 00000000",
        ],
        ..GREETED
    },
    Row {
        says: "the handle of a CREATE is closed, and its entry given back; the file remains",
        lines: &[CREATE_N, FLUSH, LOOKUP_N],
        declined: 2,
        totals: [2, 2, 1],
        replies: &[AGREED, FLUSH_REFUSED, ENTRY_E_REBORN],
        ..GREETED
    },
    Row {
        says: "the handle of an OPEN is closed, and not used again",
        lines: &[LOOKUP_A, OPEN_A, FLUSH, OPEN_A],
        declined: 3,
        totals: [1, 1, 0],
        replies: &[
            AGREED,
            ENTRY_A,
            FLUSH_REFUSED,
            "20000000 00000000 0800000000000000 0200000000000000 00000000 00000000",
        ],
        ..GREETED
    },
    Row {
        says: "an error number below those that there are is EIO",
        lines: &[LOOKUP_A],
        fault: Some(Before(0)),
        replies: &[AGREED, FAILED],
        ..GREETED
    },
    Row {
        says: "a negative error number is EIO",
        lines: &[LOOKUP_A],
        fault: Some(Before(-5)),
        replies: &[AGREED, FAILED],
        ..GREETED
    },
    Row {
        says: "an error number above those that there are is EIO",
        lines: &[LOOKUP_A],
        fault: Some(Before(4096)),
        replies: &[AGREED, FAILED],
        ..GREETED
    },
    Row {
        says: "nothing is left of the input",
        ..GREETED
    },
    Row {
        says: "what is no whole frame at the end is reported, and gets no reply",
        lines: &[TRUNCATED],
        end: SessionEnd::Closed { rest: 41 },
        ..GREETED
    },
    Row {
        says: "an INIT whose reply is not taken has still agreed on a version",
        lines: &[LOOKUP_ZZ],
        declined: 1,
        replies: &[ABSENT],
        ..GREETED
    },
    Row {
        says: "a LOOKUP before INIT is EIO and makes no call: the first call is that of the LOOKUP after it, and fails",
        first: LOOKUP_A,
        lines: &[INIT, LOOKUP_A],
        fault: Some(Before(EACCES)),
        replies: &[FAILED, AGREED, "10000000 f3ffffff 0700000000000000"],
        ..GREETED
    },
    Row {
        says: "the client ends the session, whether or not it takes the reply; what follows is dropped",
        lines: &[DESTROY, LOOKUP_ZZ],
        declined: 2,
        end: SessionEnd::Destroyed,
        ..GREETED
    },
    Row {
        says: "the link that breaks at the reply to a DESTROY is what ends the session",
        lines: &[DESTROY, LOOKUP_ZZ],
        declined: 2,
        breaks: true,
        end: SessionEnd::LinkBroken,
        ..GREETED
    },
    Row {
        says: "nothing is served after the link broke, and the entry whose reply was lost is given back",
        lines: &[LOOKUP_A, LOOKUP_E],
        declined: 2,
        breaks: true,
        end: SessionEnd::LinkBroken,
        totals: [1, 1, 1],
        ..GREETED
    },
];

/// Runs a row. Fails with whether its end and its totals are as it says.
fn tell(rt: &(impl Wait + RandomSource), alloc: Global, row: &Row) -> Result<(), Fail> {
    let mut client = client_from(alloc, row.first, row.lines, row.declined)?;
    if row.breaks {
        client = client.breaking();
    }
    let over = serve_samples(rt, alloc, row.fault, &mut client)?;
    let [born, entries, backs] = row.totals;
    let totals = Totals {
        born,
        entries,
        backs,
        forgotten: 0,
    };
    let mut replies = Vec::new(alloc);
    for reply in row.replies {
        replies.extend_from_slice(&bytes_of(alloc, reply)?)?;
    }
    let (is_end, are_totals) = (over.end == row.end, over.totals == totals);
    if is_end && are_totals && client.taken.as_slice() == replies.as_slice() {
        return Ok(());
    }
    Err(Fail::from((row.says, is_end, are_totals)))
}

#[test]
fn untaken_lookup(rt: HostRuntime) -> Result<(), Fail> {
    tell(&rt, rt.alloc(), &UNTAKEN_LOOKUP)
}

#[test]
fn untaken_replies_and_strange_answers(rt: HostRuntime) -> Result<(), Fail> {
    for row in ROWS {
        tell(&rt, rt.alloc(), row)?;
    }
    Ok(())
}

// The entries of a READDIRPLUS whose reply is not taken are given back, each once, and their nodes are dropped.
#[test]
fn untaken_entries(rt: HostRuntime) -> Result<(), Fail> {
    let alloc = rt.alloc();
    let entries =
        "50000000 2c000000 0400000000000000 0100000000000000 00000000 00000000 00000000 00000000 \
        0100000000000000 0000000000000000 00100000 00000000 0000000000000000 00000000 00000000";
    let mut client = client_of(alloc, &[OPENDIR, entries, LOOKUP_E], 3)?;
    let over = serve_samples(&rt, alloc, None, &mut client)?;
    let totals = Totals {
        born: 4,
        entries: 4,
        backs: 3,
        forgotten: 0,
    };
    // The replies to INIT, OPENDIR and LOOKUP. The table is free to choose the number of the next entry.
    let is_len = client.taken.len() == 80 + 32 + 144;
    if is_len && over.totals == totals && over.end == (SessionEnd::Closed { rest: 0 }) {
        return Ok(());
    }
    Err(Fail::from(("other entries", is_len)))
}
