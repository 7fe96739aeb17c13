//! The program `device`, from its arguments to its exit status, over a device that behaves as a row says.

use crate::frames::{AGREED, ENTRY_A, INIT, LOOKUP_A, bytes_of};
use crate::host::Host;
use crate::sample_folders::{Shown, expect, new_folder};
use mirrord_programs::{Device, LinuxDisks, Standard, run};
use std::alloc::Global;
use std::io;
use std::sync::{Arc, Mutex};
use std::test::Fail;
use test_support::Written::{Errno, Part, Whole};
use test_support::{Log, ScriptedReplies, ScriptedRequests, Written};

/// CREATE of `n` in the root, unique 5.
const CREATE_N: &str =
    "3a000000 23000000 0500000000000000 0100000000000000 00000000 00000000 00000000 00000000 \
    02000000 a4810000 00000000 00000000 6e00";

/// LOOKUP `n` in the root, unique 7.
const LOOKUP_N: &str =
    "2a000000 01000000 0700000000000000 0100000000000000 00000000 00000000 00000000 00000000 6e00";

/// The entry of `n`, an empty file: node 2, born for the second time, of user 1000 and group 100.
const ENTRY_OF_N_REBORN: &str = "90000000 00000000 0700000000000000 \
    0200000000000000 0100000000000000 0100000000000000 0100000000000000 00000000 00000000 \
    0200000000000000 0000000000000000 0000000000000000 \
    0000000000000000 0000000000000000 0000000000000000 00000000 00000000 00000000 \
    a4810000 01000000 e8030000 64000000 00000000 00100000 00000000";

/// RELEASE of node 2 by handle 1, unique 8, and EBADF for it.
const RELEASE: &str =
    "40000000 12000000 0800000000000000 0200000000000000 00000000 00000000 00000000 00000000 \
    0100000000000000 00000000 00000000 0000000000000000";

const NO_HANDLE: &str = "10000000 f7ffffff 0800000000000000";

/// OPENDIR of the root, unique 3.
const OPEN_ROOT: &str =
    "30000000 1b000000 0300000000000000 0100000000000000 00000000 00000000 00000000 00000000 00000000 00000000";

/// A run of the program on a new folder with the file `a`. After the listed reads the file system is no longer mounted,
/// and after the listed writes all writes are complete.
#[derive(Clone, Copy)]
pub struct Run<'a> {
    /// Names the row if it fails.
    pub says: &'a str,
    pub reads: &'a [Result<&'a str, i32>],
    pub writes: &'a [Written],
    /// The bytes of each write that took some, in order.
    pub told: &'a [&'a str],
    pub status: u8,
    /// What is written on standard error.
    pub fault: &'a str,
}

/// EINTR is 4, EAGAIN 11, ENOENT 2, ENODEV 19, EIO 5.
const RUNS: &[Run] = &[
    Run {
        says: "nothing is mounted",
        reads: &[],
        writes: &[],
        told: &[],
        status: 0,
        fault: "",
    },
    Run {
        says: "a file is looked up, and the folder is unmounted",
        reads: &[Ok(INIT), Ok(LOOKUP_A)],
        writes: &[],
        told: &[AGREED, ENTRY_A],
        status: 0,
        fault: "",
    },
    Run {
        says: "reads that are made again",
        reads: &[
            Err(4),
            Ok(INIT),
            Err(2),
            Err(11),
            Ok(LOOKUP_A),
            Err(4),
            Err(19),
        ],
        writes: &[],
        told: &[AGREED, ENTRY_A],
        status: 0,
        fault: "",
    },
    Run {
        says: "a read fails",
        reads: &[Ok(INIT), Err(5), Ok(LOOKUP_A)],
        writes: &[],
        told: &[AGREED],
        status: 4,
        fault: "mirrord: the link failed\n",
    },
    Run {
        says: "writes that are made again",
        reads: &[Ok(INIT), Ok(LOOKUP_A)],
        writes: &[Errno(4), Whole, Errno(4), Errno(4)],
        told: &[AGREED, ENTRY_A],
        status: 0,
        fault: "",
    },
    Run {
        says: "nobody waits for the greeting any more",
        reads: &[Ok(INIT), Ok(LOOKUP_A)],
        writes: &[Errno(2)],
        told: &[ENTRY_A],
        status: 0,
        fault: "",
    },
    Run {
        says: "a write fails",
        reads: &[Ok(INIT), Ok(LOOKUP_A)],
        writes: &[Errno(5)],
        told: &[],
        status: 4,
        fault: "mirrord: the link failed\n",
    },
    Run {
        says: "nothing is mounted any more as a reply is written",
        reads: &[Ok(INIT), Ok(LOOKUP_A)],
        writes: &[Whole, Errno(19)],
        told: &[AGREED],
        status: 4,
        fault: "mirrord: the link failed\n",
    },
    Run {
        says: "a write takes a part",
        reads: &[Ok(INIT), Ok(LOOKUP_A)],
        writes: &[Whole, Part(0)],
        told: &[AGREED, ""],
        status: 4,
        fault: "mirrord: the link failed\n",
    },
    Run {
        says: "nobody waits for the entry of a file that was made: it is given back, and its handle closed",
        reads: &[Ok(INIT), Ok(CREATE_N), Ok(LOOKUP_N), Ok(RELEASE)],
        writes: &[Whole, Errno(2)],
        told: &[AGREED, ENTRY_OF_N_REBORN, NO_HANDLE],
        status: 0,
        fault: "",
    },
];

type Scripted = Device<ScriptedRequests, ScriptedReplies>;

fn device_of(alloc: Global, run: &Run, log: &Log) -> io::Result<Scripted> {
    let mut reads = Vec::new(alloc);
    for read in run.reads {
        reads.push(match read {
            Ok(frame) => Ok(bytes_of(alloc, &[*frame])?),
            Err(errno) => Err(*errno),
        })?;
    }
    let writes = Vec::from_slice(alloc, run.writes)?;
    Ok(Device {
        requests: ScriptedRequests::new(reads),
        replies: ScriptedReplies::new(writes, Arc::try_clone(log)?),
    })
}

/// The exit status of the program, and what it wrote to standard error.
#[derive(Drop)]
struct Outcome {
    status: u8,
    faults: Vec<u8>,
}

fn run_over<H: Host>(
    rt: &H,
    host: &HostRuntime,
    root: &str,
    by: &str,
    device: Option<Scripted>,
) -> Outcome {
    let words = [
        "mirrord",
        "device",
        by,
        "--root",
        root,
        "--attributes=fixed",
        "--uid=1000",
        "--gid=100",
    ];
    let standard = Standard {
        input: io::empty(),
        output: io::sink(),
        device,
    };
    let mut faults = Vec::new(rt.alloc());
    let disks = LinuxDisks::new(rt.alloc());
    let ended = run(rt, host, &disks, &words, standard, &mut faults);
    Outcome {
        status: ended.status,
        faults,
    }
}

/// Whether the writes that took bytes are these, which all differ: in this order, or in any where several workers write.
fn is_told(alloc: Global, log: &Log, told: &[&str], in_order: bool) -> io::Result<bool> {
    let Some(taken) = log.try_lock() else {
        return Ok(false);
    };
    if taken.len() != told.len() {
        return Ok(false);
    }
    for (at, reply) in told.iter().enumerate() {
        let bytes = bytes_of(alloc, &[*reply])?;
        let is_taken = if in_order {
            taken[at].as_slice() == bytes.as_slice()
        } else {
            taken.iter().any(|it| it.as_slice() == bytes.as_slice())
        };
        if !is_taken {
            return Ok(false);
        }
    }
    Ok(true)
}

/// Runs the program on that folder by one thread or so many workers. Fails if it does not end as the row says. Of several
/// workers that have a request each, any may reply first.
pub fn run_row<H: Host>(
    rt: &H,
    host: &HostRuntime,
    root: &str,
    by: &str,
    row: &Run,
) -> Result<(), Fail> {
    let alloc = rt.alloc();
    let log: Log = Arc::new(alloc, Mutex::new(Vec::new(alloc)))?;
    let device = device_of(alloc, row, &log)?;
    let out = run_over(rt, host, root, by, Some(device));
    let in_order = by == "-s" || by == "--workers=1";
    let is_told = is_told(alloc, &log, row.told, in_order)?;
    if !is_told || out.status != row.status || out.faults.as_slice() != row.fault.as_bytes() {
        return Err(Fail::from((row.says, is_told, out.status)));
    }
    Ok(())
}

#[test]
fn device_is_served_as_the_rows_say(rt: HostRuntime) -> Result<(), Fail> {
    for row in RUNS {
        let root = new_folder(&rt, "device")?;
        run_row(&rt, &rt, root.as_str(), "-s", row)?;
        expect(&rt, root.as_str(), &[("a", Shown::File(3))])?;
    }
    Ok(())
}

/// The same with workers. Only rows with at most one request after INIT are used, since what they come to does not depend on
/// the order in which the workers run, but for the order of the replies.
#[test]
fn device_is_served_by_workers(rt: HostRuntime) -> Result<(), Fail> {
    for by in ["--workers=1", "--workers=2", "--workers=4"] {
        for row in &RUNS[..2] {
            let root = new_folder(&rt, "device-workers")?;
            run_row(&rt, &rt, root.as_str(), by, row)?;
        }
    }
    Ok(())
}

/// More folders are opened than may be open at a time, and no reply is taken. Each folder is closed again, so one more
/// can be opened.
#[test]
fn opened_folders_that_nobody_waits_for_are_closed(rt: HostRuntime) -> Result<(), Fail> {
    let alloc = rt.alloc();
    let root = new_folder(&rt, "device-folders")?;
    let mut reads = Vec::new(alloc);
    let mut writes = Vec::new(alloc);
    reads.push(Ok(bytes_of(alloc, &[INIT])?))?;
    writes.push(Whole)?;
    for _ in 0..4_200u32 {
        reads.push(Ok(bytes_of(alloc, &[OPEN_ROOT])?))?;
        writes.push(Errno(2))?;
    }
    reads.push(Ok(bytes_of(alloc, &[OPEN_ROOT])?))?;
    let log: Log = Arc::new(alloc, Mutex::new(Vec::new(alloc)))?;
    let device = Device {
        requests: ScriptedRequests::new(reads),
        replies: ScriptedReplies::new(writes, Arc::try_clone(&log)?),
    };
    let out = run_over(&rt, &rt, root.as_str(), "-s", Some(device));
    assert_eq!(rt; out.status, 0);
    let Some(taken) = log.try_lock() else {
        return Err(Fail::from(("log", 0usize)));
    };
    assert_eq!(rt; taken.len(), 2);
    assert_eq!(rt; taken[1].len(), 32);
    Ok(())
}

#[test]
fn no_device_is_told(rt: HostRuntime) -> Result<(), Fail> {
    let root = new_folder(&rt, "no-device")?;
    let out = run_over(&rt, &rt, root.as_str(), "-s", None);
    assert_eq!(rt; out.status, 2);
    assert!(rt;
        out.faults.as_slice() == b"mirrord: standard input is not a character device\n".as_slice()
    );
    Ok(())
}
