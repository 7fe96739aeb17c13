//! The frames that the tests send and the replies that they expect, in hexadecimal digits. Spaces are only for
//! readability.

use mirrord_programs::{DEFAULT_POSTINGS, LinuxDisks, Standard, Streams, TreeServed, hex_run, run};
use std::alloc::{AllocError, Global};
use std::fs::File;
use std::io;
use std::net::Net;
use std::random::RandomSource;
use std::rt::Files;
use std::sync::Wait;
use std::thread::Threads;
use std::time::Clock;
use table::Seeds;
use terms::Kinds;

/// INIT 7.31 with 131,072 bytes read ahead and no flags, unique 1.
pub const INIT: &str =
    "38000000 1a000000 0100000000000000 0000000000000000 00000000 00000000 00000000 00000000 \
    07000000 1f000000 00000200 00000000";

/// The answer to it.
pub const AGREED: &str = "50000000 00000000 0100000000000000 07000000 1f000000 00000100 00000000 \
    0c00 0900 00000100 01000000 0000 0000 \
    00000000 00000000 00000000 00000000 00000000 00000000 00000000 00000000";

/// LOOKUP `a` in the root, unique 7.
pub const LOOKUP_A: &str =
    "2a000000 01000000 0700000000000000 0100000000000000 00000000 00000000 00000000 00000000 6100";

/// The entry of `a`: node 2, generation 0, a file of three bytes.
pub const ENTRY_A: &str = "90000000 00000000 0700000000000000 \
    0200000000000000 0000000000000000 0100000000000000 0100000000000000 00000000 00000000 \
    0200000000000000 0300000000000000 0100000000000000 \
    0000000000000000 0000000000000000 0000000000000000 00000000 00000000 00000000 \
    a4810000 01000000 00000000 00000000 00000000 00100000 00000000";

/// LOOKUP `e` in the root, unique 8.
pub const LOOKUP_E: &str =
    "2a000000 01000000 0800000000000000 0100000000000000 00000000 00000000 00000000 00000000 6500";

/// The entry of `e` if number 2 was born before: node 2, generation 1, an empty file.
pub const ENTRY_E_REBORN: &str = "90000000 00000000 0800000000000000 \
    0200000000000000 0100000000000000 0100000000000000 0100000000000000 00000000 00000000 \
    0200000000000000 0000000000000000 0000000000000000 \
    0000000000000000 0000000000000000 0000000000000000 00000000 00000000 00000000 \
    a4810000 01000000 00000000 00000000 00000000 00100000 00000000";

/// LOOKUP `d` in the root, unique 10.
pub const LOOKUP_D: &str =
    "2a000000 01000000 0a00000000000000 0100000000000000 00000000 00000000 00000000 00000000 6400";

/// The entry of `d`: node 2, generation 0, a folder.
pub const ENTRY_D: &str = "90000000 00000000 0a00000000000000 \
    0200000000000000 0000000000000000 0100000000000000 0100000000000000 00000000 00000000 \
    0200000000000000 0000000000000000 0000000000000000 \
    0000000000000000 0000000000000000 0000000000000000 00000000 00000000 00000000 \
    ed410000 02000000 00000000 00000000 00000000 00100000 00000000";

/// LOOKUP `zz` in the root, unique 7.
pub const LOOKUP_ZZ: &str =
    "2b000000 01000000 0700000000000000 0100000000000000 00000000 00000000 00000000 00000000 7a7a00";

/// ENOENT for unique 7.
pub const ABSENT: &str = "10000000 feffffff 0700000000000000";

/// FORGET of node 2, unique 9, nlookup 5.
pub const FORGET_FIVE: &str =
    "30000000 02000000 0900000000000000 0200000000000000 00000000 00000000 00000000 00000000 0500000000000000";

/// FORGET of node 2, unique 9, nlookup 3.
pub const FORGET_THREE: &str =
    "30000000 02000000 0900000000000000 0200000000000000 00000000 00000000 00000000 00000000 0300000000000000";

/// ENFILE for unique 7.
pub const FULL: &str = "10000000 e9ffffff 0700000000000000";

/// DESTROY, unique 2.
pub const DESTROY: &str =
    "28000000 26000000 0200000000000000 0000000000000000 00000000 00000000 00000000 00000000";

/// The result of a run of the program `hex`.
#[derive(Drop)]
pub struct Run {
    pub status: u8,
    pub output: Vec<u8>,
    pub faults: Vec<u8>,
}

/// The lines without their spaces, each with a line break.
pub fn lines_of(alloc: Global, lines: &[&str]) -> Result<Vec<u8>, AllocError> {
    let mut digits = Vec::new(alloc);
    for line in lines {
        for byte in line.as_bytes() {
            if *byte != b' ' {
                digits.push(*byte)?;
            }
        }
        digits.push(b'\n')?;
    }
    Ok(digits)
}

/// The tree that `hex` serves by default, with or without the sample names.
pub fn tree_with(sample: bool) -> TreeServed {
    TreeServed {
        sample,
        kinds: Kinds::Plain,
        postings: DEFAULT_POSTINGS,
    }
}

/// Runs `hex` on these bytes, with or without the sample names.
pub fn run_from(
    rt: &(impl Wait + RandomSource),
    alloc: Global,
    sample: bool,
    input: &[u8],
) -> io::Result<Run> {
    let mut faults = Vec::new(alloc);
    let seeds = Seeds::new(rt)?;
    let streams = Streams {
        input,
        output: Vec::new(alloc),
    };
    let ended = hex_run(rt, alloc, tree_with(sample), seeds, streams, &mut faults);
    Ok(Run {
        status: ended.status,
        output: ended.output,
        faults,
    })
}

/// Runs `hex` with the sample names on these bytes.
pub fn run_on(rt: &(impl Wait + RandomSource), alloc: Global, input: &[u8]) -> io::Result<Run> {
    run_from(rt, alloc, true, input)
}

/// Runs `hex` with the sample names on these bytes, with that much room for its output.
pub fn run_into(
    rt: &(impl Wait + RandomSource),
    alloc: Global,
    input: &[u8],
    room: &mut [u8],
) -> io::Result<Run> {
    let mut faults = Vec::new(alloc);
    let seeds = Seeds::new(rt)?;
    let streams = Streams {
        input,
        output: room,
    };
    let ended = hex_run(rt, alloc, tree_with(true), seeds, streams, &mut faults);
    Ok(Run {
        status: ended.status,
        output: Vec::new(alloc),
        faults,
    })
}

/// Runs the program with these words on these lines.
pub fn run_words<
    H: Threads
        + Wait
        + Net
        + RandomSource
        + Files<File = File>
        + Clock
        + AllocGlobal
        + Clone
        + Send
        + Sync
        + Drop
        + 'static,
>(rt: &H, host: &HostRuntime, words: &[&str], lines: &[&str]) -> Result<Run, AllocError> {
    let alloc = rt.alloc();
    let input = lines_of(alloc, lines)?;
    let mut faults = Vec::new(alloc);
    let standard = Standard::of_streams(input.as_slice(), Vec::new(alloc));
    let disks = LinuxDisks::new(rt.alloc());
    let ended = run(rt, host, &disks, words, standard, &mut faults);
    Ok(Run {
        status: ended.status,
        output: ended.output,
        faults,
    })
}
