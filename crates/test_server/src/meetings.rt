//! The program `serve` with a client in the same process: two threads and a socket between them.

use crate::frames::{
    AGREED, ARE_FIVE, ARE_OF_A, ATTRIBUTES, ATTRIBUTES_OF_THREE, CREATE_N, CREATED_N, DESTROY,
    DESTROYED, ENTRY_A, ENTRY_M, ENTRY_OF_K, ENTRY_OF_M_ALONE, ENTRY_OF_THREE, FORGET_A,
    FORGET_THREE, FSYNC, INIT, LAST_ENTRY, LOOKUP_A, MAKE_M, NO_ENTRY, ONE_ENTRY, OPEN_ROOT,
    OPENED, READ_MORE, READ_ON, READ_ONE, READ_TEN, RELEASE, RENAME_A, RENAME_N, RENAMED, STALE,
    UNLINK_K, UNLINK_N, WRITE_DE, WROTE_DE, bytes_of,
};
use crate::host::Host;
use crate::sample_folders::{Shown, expect, new_folder, place_of, shown_at};
use mirrord_programs::{LinuxDisks, Standard, run};
use std::io::{Read, Write};
use std::os::unix::net::UnixStream;
use std::test::Fail;
use std::time::Duration;
use std::{io, thread};
use test_support::Handles;

/// What a client does next.
#[derive(Clone, Copy)]
pub enum Turn<'a> {
    /// It writes the first, and then expects the second.
    Asks(&'a str, &'a str),
    /// It expects this at a name of the served folder.
    Sees(&'a str, Shown),
}

use Turn::{Asks, Sees};

/// A client: what it does, and what the result must be.
#[derive(Clone, Copy)]
pub struct Meeting<'a> {
    says: &'a str,
    /// What it does, one after another. It disconnects after the last.
    pub turns: &'a [Turn<'a>],
    status: u8,
    pub fault: &'a str,
    after: &'a [(&'a str, Shown)],
}

/// Connects to a socket that will be made in a moment.
pub fn connect(rt: &impl Host, path: &str) -> io::Result<UnixStream> {
    for _try in 0..2000 {
        match UnixStream::connect(rt, path) {
            Ok(stream) => return Ok(stream),
            Err(_) => thread::sleep(rt, Duration::from_millis(5)),
        }
    }
    UnixStream::connect(rt, path)
}

/// Writes the request, and reads as many bytes as are expected. Returns whether they came as expected. Handles of open
/// folders are written as in a script.
fn ask(
    rt: &impl Host,
    stream: &mut UnixStream,
    handles: &mut Handles,
    asked: &str,
    told: &str,
) -> io::Result<bool> {
    let mut asked = bytes_of(rt.alloc(), &[asked])?;
    let told = bytes_of(rt.alloc(), &[told])?;
    handles.write(&mut asked);
    stream.write_all(&asked)?;
    let mut came = Vec::new(rt.alloc());
    came.resize(told.len(), 0)?;
    stream.read_exact(came.as_mut_slice())?;
    handles.read(&mut came)?;
    Ok(came.as_slice() == told.as_slice())
}

/// Whether a turn went as it should.
fn is_right(
    rt: &impl Host,
    root: &str,
    stream: &mut UnixStream,
    handles: &mut Handles,
    turn: Turn,
) -> bool {
    match turn {
        Asks(asked, told) => matches!(ask(rt, stream, handles, asked, told), Ok(true)),
        Sees(name, shown) => matches!(shown_at(rt, root, name), Ok(found) if found == shown),
    }
}

/// Does the turns one after another, up to the first that does not go as it should. Returns how many went as they
/// should.
pub fn be_client(rt: &impl Host, root: &str, path: &str, turns: &[Turn]) -> u64 {
    let mut right = 0u64;
    let Ok(mut stream) = connect(rt, path) else {
        return right;
    };
    let mut handles = Handles::new(rt.alloc());
    for turn in turns {
        if !is_right(rt, root, &mut stream, &mut handles, *turn) {
            return right;
        }
        right = right.saturating_add(1);
    }
    right
}

/// The argument for a session on one thread.
pub const ONE_THREAD: &str = "-s";

/// The argument for four workers.
pub const WORKERS: &str = "--workers=4";

/// Both.
const EITHER: &[&str] = &[ONE_THREAD, WORKERS];

/// Runs `serve`. Returns its status, and whether it wrote just that line.
pub fn be_server(
    rt: &impl Host,
    host: &HostRuntime,
    root: &str,
    path: &str,
    threads: &str,
    fault: &str,
) -> (u8, bool) {
    let words = [
        "mirrord", "serve", threads, "--socket", path, "--root", root, "--uid", "1000", "--gid",
        "100",
    ];
    let mut faults = Vec::new(rt.alloc());
    let standard = Standard::of_streams(b"".as_slice(), Vec::new(rt.alloc()));
    let disks = LinuxDisks::new(rt.alloc());
    let ended = run(rt, host, &disks, &words, standard, &mut faults);
    let is_told = faults.as_slice() == fault.as_bytes();
    (ended.status, is_told && ended.output.is_empty())
}

/// Fails if the result is not what the row says.
pub fn judge(
    rt: &impl Host,
    root: &str,
    row: &Meeting,
    served: (u8, bool),
    right: u64,
) -> Result<(), Fail> {
    if served != (row.status, true) || right != row.turns.len() as u64 {
        return Err(Fail::from((row.says, served, right)));
    }
    // The socket file has been removed.
    expect(rt, root, &[("socket", Shown::Nothing)])?;
    expect(rt, root, row.after)
}

const UNTOUCHED: &[(&str, Shown)] = &[("a", Shown::File(3))];

/// Each client ends its session differently.
pub const MEETINGS: &[Meeting] = &[
    Meeting {
        says: "a whole session",
        turns: &[
            Asks(INIT, AGREED),
            Asks(LOOKUP_A, ENTRY_A),
            Asks(MAKE_M, ENTRY_M),
            Asks(RENAME_A, RENAMED),
            Asks(ATTRIBUTES, ARE_OF_A),
            Asks(FORGET_A, ""),
            Asks(DESTROY, DESTROYED),
        ],
        status: 0,
        fault: "",
        after: &[
            ("a", Shown::Nothing),
            ("b", Shown::File(3)),
            ("m", Shown::Folder),
        ],
    },
    Meeting {
        says: "a file is made, written, moved and read",
        turns: &[
            Asks(INIT, AGREED),
            Asks(CREATE_N, CREATED_N),
            Asks(WRITE_DE, WROTE_DE),
            Asks(RENAME_N, RENAMED),
            Asks(READ_TEN, ARE_FIVE),
            Asks(FSYNC, RENAMED),
        ],
        status: 0,
        fault: "",
        after: &[
            ("a", Shown::File(3)),
            ("n", Shown::Nothing),
            ("k", Shown::File(5)),
        ],
    },
    Meeting {
        says: "a file that is removed while it is open is read still, and is gone at the end",
        turns: &[
            Asks(INIT, AGREED),
            Asks(CREATE_N, CREATED_N),
            Asks(WRITE_DE, WROTE_DE),
            Asks(UNLINK_N, RENAMED),
            Asks(READ_TEN, ARE_FIVE),
            Asks(DESTROY, DESTROYED),
        ],
        status: 0,
        fault: "",
        after: &[
            ("a", Shown::File(3)),
            ("n", Shown::Nothing),
            (".fuse_hidden0000000200000000", Shown::Nothing),
        ],
    },
    Meeting {
        says: "it reads a folder by pages, with the nodes of its names",
        turns: &[
            Asks(INIT, AGREED),
            Asks(MAKE_M, ENTRY_OF_M_ALONE),
            Asks(OPEN_ROOT, OPENED),
            Asks(READ_ONE, ONE_ENTRY),
            Asks(READ_MORE, LAST_ENTRY),
            Asks(READ_ON, NO_ENTRY),
            Asks(DESTROY, DESTROYED),
        ],
        status: 0,
        fault: "",
        after: &[("a", Shown::File(3)), ("m", Shown::Folder)],
    },
    Meeting {
        says: "it leaves at once",
        turns: &[],
        status: 0,
        fault: "",
        after: UNTOUCHED,
    },
    Meeting {
        says: "it leaves in the middle of a frame",
        turns: &[Asks(INIT, AGREED), Asks("2a000000 01000000 07", "")],
        status: 0,
        fault: "",
        after: UNTOUCHED,
    },
    Meeting {
        says: "it leaves in the middle of a reply",
        turns: &[Asks(INIT, "50000000 00000000")],
        status: 4,
        fault: "mirrord: the link failed\n",
        after: UNTOUCHED,
    },
    Meeting {
        says: "it leaves before its reply comes",
        turns: &[Asks(INIT, AGREED), Asks(MAKE_M, "")],
        status: 4,
        fault: "mirrord: the link failed\n",
        after: &[("m", Shown::Folder)],
    },
    Meeting {
        says: "a frame length of 39",
        turns: &[Asks(INIT, AGREED), Asks("27000000", "")],
        status: 3,
        fault: "mirrord: frame length 39 is not between 40 and 69632\n",
        after: UNTOUCHED,
    },
];

/// All that a client of files asks for, with looks at the folder in between. It is a list of its own, since a test over
/// more rows with this one is too large to check.
const WHOLE: &[Meeting] = &[Meeting {
    says: "files are made, moved, listed, forgotten and removed while they are open",
    turns: &[
        Asks(INIT, AGREED),
        Asks(CREATE_N, CREATED_N),
        Asks(WRITE_DE, WROTE_DE),
        Asks(RENAME_N, RENAMED),
        Asks(READ_TEN, ARE_FIVE),
        Asks(OPEN_ROOT, OPENED),
        Asks(READ_ONE, ONE_ENTRY),
        Asks(READ_MORE, ENTRY_OF_K),
        Asks(READ_ON, NO_ENTRY),
        Asks(LOOKUP_A, ENTRY_OF_THREE),
        Asks(FORGET_THREE, ""),
        Asks(ATTRIBUTES_OF_THREE, STALE),
        Asks(UNLINK_K, RENAMED),
        Sees("k", Shown::Nothing),
        Sees(".fuse_hidden0000000200000000", Shown::File(5)),
        Asks(READ_TEN, ARE_FIVE),
        Asks(RELEASE, RENAMED),
        Sees(".fuse_hidden0000000200000000", Shown::Nothing),
        Asks(DESTROY, DESTROYED),
    ],
    status: 0,
    fault: "",
    after: &[
        ("a", Shown::File(3)),
        ("n", Shown::Nothing),
        ("k", Shown::Nothing),
        (".fuse_hidden0000000200000000", Shown::Nothing),
    ],
}];

// The threads are joined in the tests themselves: whether a closure may be sent to a thread depends on the concrete
// runtime, not on a bound.
#[test]
fn clients_over_a_socket(rt: HostRuntime) -> Result<(), Fail> {
    for row in MEETINGS {
        for threads in EITHER {
            let root = new_folder(&rt, "meeting")?;
            let path = place_of(rt.alloc(), root.as_str(), "socket")?;
            let (there, place) = (root.as_str(), path.as_str());
            let (served, right) = thread::join(
                &rt,
                || be_server(&rt, &rt, there, place, threads, row.fault),
                || be_client(&rt, there, place, row.turns),
            );
            judge(&rt, there, row, served, right)?;
        }
    }
    Ok(())
}

// One thread only: workers may handle a request before an earlier FORGET, and no reply shows when a FORGET is done.
#[test]
fn whole_session_over_a_socket(rt: HostRuntime) -> Result<(), Fail> {
    for row in WHOLE {
        let root = new_folder(&rt, "whole")?;
        let path = place_of(rt.alloc(), root.as_str(), "socket")?;
        let (there, place) = (root.as_str(), path.as_str());
        let (served, right) = thread::join(
            &rt,
            || be_server(&rt, &rt, there, place, ONE_THREAD, row.fault),
            || be_client(&rt, there, place, row.turns),
        );
        judge(&rt, there, row, served, right)?;
    }
    Ok(())
}
