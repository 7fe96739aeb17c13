//! Where the socket of `serve` may be, and what else may be there.

use crate::host::Host;
use crate::meetings::{MEETINGS, ONE_THREAD, WORKERS, be_client, be_server, connect, judge};
use crate::sample_folders::{Shown, expect, new_folder, place_of};
use std::fs::File;
use std::os::fd::AsRawFd;
use std::test::Fail;
use std::{env, fs, thread};

// The path is relative to the folder in which the server was started, not to the folder that it serves.
#[test]
fn a_relative_socket(rt: HostRuntime) -> Result<(), Fail> {
    let root = new_folder(&rt, "relative")?;
    let current = env::current_dir(&rt)?;
    let path = place_of(rt.alloc(), current.as_str(), "relative-socket")?;
    let (there, place) = (root.as_str(), path.as_str());
    let row = &MEETINGS[0];
    let (served, right) = thread::join(
        &rt,
        || be_server(&rt, &rt, there, "relative-socket", ONE_THREAD, row.fault),
        || be_client(&rt, there, place, row.turns),
    );
    judge(&rt, there, row, served, right)
}

// The same with workers. It is a test of its own, since the first server has changed the current directory of the process.
#[test]
fn a_relative_socket_with_workers(rt: HostRuntime) -> Result<(), Fail> {
    let root = new_folder(&rt, "relative-workers")?;
    let current = env::current_dir(&rt)?;
    let path = place_of(rt.alloc(), current.as_str(), "relative-socket-of-workers")?;
    let (there, place) = (root.as_str(), path.as_str());
    let row = &MEETINGS[0];
    let (served, right) = thread::join(
        &rt,
        || {
            be_server(
                &rt,
                &rt,
                there,
                "relative-socket-of-workers",
                WORKERS,
                row.fault,
            )
        },
        || be_client(&rt, there, place, row.turns),
    );
    judge(&rt, there, row, served, right)
}

/// A folder in which no path from the root of the file system to a socket is short enough.
const LONG: &str =
    "a-folder-whose-name-alone-has-more-bytes-than-the-system-takes-for-the-whole-path-of-a-socket-which-are-107-at-most";

/// Whether nothing is at that path.
fn is_gone(rt: &impl Host, path: &str) -> bool {
    fs::symlink_metadata(rt, path).is_err()
}

// The client's path leads through the folder as it is open too.
#[test]
fn a_relative_socket_deep_below(rt: HostRuntime) -> Result<(), Fail> {
    let root = new_folder(&rt, "deep")?;
    let deep = place_of(rt.alloc(), root.as_str(), LONG)?;
    fs::create_dir(&rt, deep.as_str())?;
    env::set_current_dir(&rt, deep.as_str())?;
    let directory = File::open(&rt, ".")?;
    let path = format!(in rt.alloc(); "/proc/self/fd/{}/socket", directory.as_raw_fd())?;
    let (there, place) = (root.as_str(), path.as_str());
    let row = &MEETINGS[0];
    let (served, right) = thread::join(
        &rt,
        || be_server(&rt, &rt, there, "socket", ONE_THREAD, row.fault),
        || be_client(&rt, there, place, row.turns),
    );
    assert!(rt; is_gone(&rt, place));
    judge(&rt, there, row, served, right)
}

/// Connects, replaces the socket file by a file of three bytes, and disconnects.
fn replace_socket(rt: &impl Host, path: &str) -> bool {
    let Ok(_stream) = connect(rt, path) else {
        return false;
    };
    fs::remove_file(rt, path).is_ok() && fs::write(rt, path, "abc").is_ok()
}

// If another file has replaced the socket file during the session, the end of the session does not remove it.
#[test]
fn another_file_in_the_place_of_the_socket(rt: HostRuntime) -> Result<(), Fail> {
    let root = new_folder(&rt, "replaced")?;
    let path = place_of(rt.alloc(), root.as_str(), "socket")?;
    let (there, place) = (root.as_str(), path.as_str());
    let (served, is_replaced) = thread::join(
        &rt,
        || be_server(&rt, &rt, there, place, ONE_THREAD, ""),
        || replace_socket(&rt, place),
    );
    if served != (0, true) || !is_replaced {
        return Err(Fail::from(("it came otherwise", served, is_replaced)));
    }
    expect(&rt, there, &[("socket", Shown::File(3))])
}
