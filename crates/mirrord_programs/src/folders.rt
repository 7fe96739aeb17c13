//! The programs `serve` and `device`, without their command lines.

ghost use Rattle.std.specs.Prelude.{◌≡◌};
ghost use Rattle.disk_folder.specs.Gives.{claims};
ghost use Rattle.mirrord_sessions.specs.Ends.{exit_of, Tells};
ghost use Rattle.mirrord_programs.specs.Runs.{RunsDevice, RunsServe, ServesBy, ServesKernel, outside};

use crate::standing::lasting;
use crate::workers_device::serve_device_by;
use crate::workers_socket::serve_socket_by;
use disk::Disk;
use engine::SessionEnd;
use engine_streams::{Device, ReadRequest, WriteReply};
use mirrord_commands::Failure;
use mirrord_sessions::{
    Disks, Terms, Unserved, failure_after, serve_device, serve_socket, status_after, tell_any,
};
use std::fs::File;
use std::io::Write;
use std::net::Net;
use std::random::RandomSource;
use std::rt::Files;
use std::sync::Wait;
use std::thread::Threads;

/// How many threads serve.
#[derive(Clone, Copy, Debug, PartialEq, Eq)]
pub struct Serving {
    /// How many, from 1 to 4.
    pub workers: u8,
    /// Whether one thread does everything, whatever the number of threads is.
    pub single: bool,
}

/// A folder, and how it is served.
#[derive(Clone, Copy, Debug, PartialEq, Eq)]
pub struct FolderServed<'a> {
    pub root: &'a str,
    pub threads: Serving,
    pub terms: Terms,
}

/// How a program ended that is not given the output.
#[derive(Clone, Copy, Debug, PartialEq, Eq)]
pub struct RunEnd {
    /// The exit status.
    pub status: u8,
    /// Whether its line could be written to standard error, if there was one.
    pub told: bool,
}

/// The end after a failure, which is written, or without one.
fn end_after<F: Write>(failure: Option<Failure<'_>>, faults: &mut F) -> RunEnd
    ensures status { result.status ≡ exit_of failure.entry }
    ensures tells { Tells failure.entry result.told (F.contents faults.old) (F.contents faults.new) }
{
    RunEnd {
        status: status_after(failure),
        told: tell_any(faults, failure),
    }
}

/// With one thread serves a folder of the disks, or with several one of Linux.
fn serve_over_socket<
    H: Threads
        + Wait
        + Net
        + RandomSource
        + Files<File = File>
        + AllocGlobal
        + Clone
        + Send
        + Sync
        + Drop
        + 'static,
    D: Disk + Drop,
    P: Disks<Disk = D>,
>(
    rt: &H,
    disks: &P,
    root: &str,
    socket: &str,
    threads: Serving,
    terms: Terms,
) -> Result<SessionEnd, Unserved>
    ensures { ServesBy (claims D.honest D.tree D.has_set D.has_synced) threads terms result }
{
    let single = threads.single;
    if single {
        serve_socket(rt, disks, root, socket, terms)
    } else {
        serve_socket_by(rt, root, socket, threads.workers, terms)
    }
}

/// Serves a folder to the first client that connects to a new socket at `path`: the program `serve` without its command
/// line. It writes nothing to the output. One thread serves a folder of `disks`; several serve one of Linux. From then on the current
/// directory of the process may be another one.
pub fn serve_run<
    H: Threads
        + Wait
        + Net
        + RandomSource
        + Files<File = File>
        + AllocGlobal
        + Clone
        + Send
        + Sync
        + Drop
        + 'static,
    D: Disk + Drop,
    P: Disks<Disk = D>,
    F: Write,
>(
    rt: &H,
    host: &HostRuntime,
    disks: &P,
    served: FolderServed<'_>,
    path: &str,
    faults: &mut F,
) -> RunEnd
    ensures { RunsServe (claims D.honest D.tree D.has_set D.has_synced) served.entry.root path.entry served.entry.threads served.entry.terms (F.contents faults.old) (F.contents faults.new) result.status result.told }
{
    let FolderServed {
        root,
        threads,
        terms,
    } = served;
    let lasting = lasting(host, path);
    let socket = match &lasting {
        Ok(lasting) => lasting.text.as_str(),
        Err(_) => path,
    };
    let ended = serve_over_socket(rt, disks, root, socket, threads, terms);
    end_after(failure_after(ended, root, path), faults)
}

/// The name of the kernel's device.
const STANDARD_INPUT: &str = "standard input";

/// With one thread serves a folder of the disks, or with several one of Linux.
fn serve_kernel<
    H: Threads + Wait + RandomSource + AllocGlobal + Clone + Send + Sync + Drop + 'static,
    D: Disk + Drop,
    P: Disks<Disk = D>,
    R: ReadRequest + Send + Drop + 'static,
    W: WriteReply + Send + Drop + 'static,
>(
    rt: &H,
    disks: &P,
    root: &str,
    threads: Serving,
    terms: Terms,
    device: Device<R, W>,
) -> Result<SessionEnd, Unserved>
    ensures { ServesKernel (outside R.gives W.takes (claims D.honest D.tree D.has_set D.has_synced)) threads terms device result }
{
    let single = threads.single;
    if single {
        serve_device(rt, disks, root, terms, device)
    } else {
        serve_device_by(rt, root, threads.workers, terms, device)
    }
}

/// Serves a folder to the kernel over its device, which is open as standard input, until it is unmounted: the program
/// `device` without its command line. Folders and threads are as for `serve_run`.
pub fn device_run<
    H: Threads + Wait + RandomSource + AllocGlobal + Clone + Send + Sync + Drop + 'static,
    D: Disk + Drop,
    P: Disks<Disk = D>,
    R: ReadRequest + Send + Drop + 'static,
    W: WriteReply + Send + Drop + 'static,
    F: Write,
>(
    rt: &H,
    disks: &P,
    served: FolderServed<'_>,
    device: Option<Device<R, W>>,
    faults: &mut F,
) -> RunEnd
    ensures { RunsDevice (outside R.gives W.takes (claims D.honest D.tree D.has_set D.has_synced)) served.entry.root served.entry.threads served.entry.terms device (F.contents faults.old) (F.contents faults.new) result.status result.told }
{
    let FolderServed {
        root,
        threads,
        terms,
    } = served;
    match device {
        None => end_after(Some(Failure::NoDevice), faults),
        Some(device) => {
            let ended = serve_kernel(rt, disks, root, threads, terms, device);
            end_after(failure_after(ended, root, STANDARD_INPUT), faults)
        }
    }
}
