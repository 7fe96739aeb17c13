//! The program `pipe`, from its arguments to its exit status.

use crate::frames::{
    ABSENT, AGREED, ARE_OF_A, ATTRIBUTES, DESTROY, DESTROYED, ENTRY_A, ENTRY_M, ENTRY_OF_M_ALONE,
    FORGET_A, INIT, LOOKUP_A, MAKE_M, RENAME_A, RENAMED, STALE, bytes_of,
};
use crate::host::Host;
use crate::sample_folders::{Shown, expect, new_folder};
use mirrord_programs::{LinuxDisks, Standard, run};
use std::io::Write;
use std::test::Fail;

/// A run of the program on a new folder.
#[derive(Clone, Copy)]
pub struct Run<'a> {
    /// Names the row if it fails.
    pub says: &'a str,
    /// What the client writes.
    pub asks: &'a [&'a str],
    /// What it reads.
    pub told: &'a [&'a str],
    pub status: u8,
    /// What is written on standard error.
    pub fault: &'a str,
    /// What is in the folder afterwards.
    pub after: &'a [(&'a str, Shown)],
}

/// The result of a run: its exit status, its output, and what was written to standard error.
#[derive(Drop)]
pub struct Outcome<O: Drop> {
    pub status: u8,
    pub output: O,
    pub faults: Vec<u8>,
}

/// Runs the program with these arguments.
pub fn run_words<H: Host, O: Write + Drop>(
    rt: &H,
    host: &HostRuntime,
    words: &[&str],
    asks: &[&str],
    output: O,
) -> Result<Outcome<O>, Fail> {
    let input = bytes_of(rt.alloc(), asks)?;
    let mut faults = Vec::new(rt.alloc());
    let standard = Standard::of_streams(input.as_slice(), output);
    let disks = LinuxDisks::new(rt.alloc());
    let ended = run(rt, host, &disks, words, standard, &mut faults);
    Ok(Outcome {
        status: ended.status,
        output: ended.output,
        faults,
    })
}

/// Runs `pipe` on that folder.
pub fn pipe<H: Host, O: Write + Drop>(
    rt: &H,
    host: &HostRuntime,
    root: &str,
    asks: &[&str],
    output: O,
) -> Result<Outcome<O>, Fail> {
    let words = [
        "mirrord",
        "pipe",
        "--root",
        root,
        "--uid",
        "1000",
        "--gid=100",
    ];
    run_words(rt, host, &words, asks, output)
}

fn run_in(rt: &impl Host, host: &HostRuntime, root: &str, row: &Run) -> Result<(), Fail> {
    let out = pipe(rt, host, root, row.asks, Vec::new(rt.alloc()))?;
    let told = bytes_of(rt.alloc(), row.told)?;
    let is_told = out.output.as_slice() == told.as_slice();
    if !is_told || out.status != row.status || out.faults.as_slice() != row.fault.as_bytes() {
        return Err(Fail::from((row.says, is_told, out.status)));
    }
    expect(rt, root, row.after)
}

/// Each run must end as its row says.
const RUNS: &[Run] = &[
    Run {
        says: "no bytes",
        asks: &[],
        told: &[],
        status: 0,
        fault: "",
        after: &[("a", Shown::File(3))],
    },
    Run {
        says: "a session",
        asks: &[
            INIT, LOOKUP_A, MAKE_M, RENAME_A, ATTRIBUTES, FORGET_A, ATTRIBUTES, LOOKUP_A, DESTROY,
            LOOKUP_A,
        ],
        told: &[
            AGREED, ENTRY_A, ENTRY_M, RENAMED, ARE_OF_A, STALE, ABSENT, DESTROYED,
        ],
        status: 0,
        fault: "",
        after: &[
            ("a", Shown::Nothing),
            ("b", Shown::File(3)),
            ("m", Shown::Folder),
        ],
    },
    Run {
        says: "the end of the input in the middle of a frame",
        asks: &[INIT, "2a000000 01000000 07"],
        told: &[AGREED],
        status: 0,
        fault: "",
        after: &[("a", Shown::File(3))],
    },
    Run {
        says: "a frame length of 39 after another frame",
        asks: &[INIT, MAKE_M, "27000000", RENAME_A],
        told: &[AGREED, ENTRY_OF_M_ALONE],
        status: 3,
        fault: "mirrord: frame length 39 is not between 40 and 69632\n",
        after: &[("a", Shown::File(3)), ("m", Shown::Folder)],
    },
];

#[test]
fn sessions_over_a_pipe(rt: HostRuntime) -> Result<(), Fail> {
    for row in RUNS {
        let root = new_folder(&rt, "pipe")?;
        run_in(&rt, &rt, root.as_str(), row)?;
    }
    Ok(())
}
