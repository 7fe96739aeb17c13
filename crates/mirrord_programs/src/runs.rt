//! Whole runs of the programs, without the system around them.

ghost use Rattle.std.specs.Prelude.{◌≡◌, map};
ghost use Rattle.disk_folder.specs.Gives.{claims};
ghost use Rattle.mirrord_programs.specs.Runs.{RunsAsked, RunsWords, outside};

use crate::folders::{FolderServed, RunEnd, Serving, device_run, serve_run};
use crate::standard::Standard;
use disk::Disk;
use engine_streams::{ReadRequest, WriteReply};
use mirrord_commands::{Options, read_options};
use mirrord_sessions::{
    Disks, ProgramEnd, Streams, TreeServed, explain, pipe_run, refuse, run_hex,
};
use std::convert::AsStr;
use std::fs::File;
use std::io::{BufRead, Write};
use std::net::Net;
use std::random::RandomSource;
use std::rt::Files;
use std::sync::Wait;
use std::thread::Threads;

/// The end of a program, with the output that it was not given.
fn returned<O: Write + Drop>(end: RunEnd, output: O) -> ProgramEnd<O>
    ensures { (result.status ≡ end.status) × (result.told ≡ end.told) × (result.output ≡ output) }
{
    ProgramEnd {
        status: end.status,
        told: end.told,
        output,
    }
}

/// The program that was asked for.
fn run_asked<
    H: Threads
        + Wait
        + Net
        + RandomSource
        + Files<File = File>
        + AllocGlobal
        + Clone
        + Send
        + Sync
        + Drop
        + 'static,
    D: Disk + Drop,
    P: Disks<Disk = D>,
    I: BufRead + Drop,
    O: Write + Drop,
    R: ReadRequest + Send + Drop + 'static,
    W: WriteReply + Send + Drop + 'static,
    F: Write,
>(
    rt: &H,
    host: &HostRuntime,
    disks: &P,
    options: Options<'_>,
    standard: Standard<I, O, R, W>,
    faults: &mut F,
) -> ProgramEnd<O>
    ensures { RunsAsked (outside R.gives W.takes (claims D.honest D.tree D.has_set D.has_synced)) options.entry standard.device (I.remaining standard.input) (O.contents standard.output) (O.contents result.output) (F.contents faults.old) (F.contents faults.new) result.status result.told }
{
    let Standard {
        input,
        output,
        device,
    } = standard;
    match options {
        Options::Serve {
            root,
            socket,
            workers,
            single,
            terms,
        } => {
            let threads = Serving { workers, single };
            let served = FolderServed {
                root,
                threads,
                terms,
            };
            let end = serve_run(rt, host, disks, served, socket, faults);
            returned(end, output)
        }
        Options::Device {
            root,
            workers,
            single,
            terms,
        } => {
            let threads = Serving { workers, single };
            let served = FolderServed {
                root,
                threads,
                terms,
            };
            let end = device_run(rt, disks, served, device, faults);
            returned(end, output)
        }
        Options::Pipe { root, terms } => {
            let streams = Streams { input, output };
            pipe_run(rt, disks, root, terms, streams, faults)
        }
        Options::Hex {
            sample,
            kinds,
            postings,
        } => {
            let served = TreeServed {
                sample,
                kinds,
                postings,
            };
            run_hex(rt, served, Streams { input, output }, faults)
        }
        Options::Refused(refusal) => refuse(refusal, output, faults),
    }
}

/// The program `mirrord`, whose first word names it. One thread serves a folder of `disks`, and several serve one of Linux. `host` is
/// the same system as `rt`, as a named type, and tells the current directory.
pub fn run<
    H: Threads
        + Wait
        + Net
        + RandomSource
        + Files<File = File>
        + AllocGlobal
        + Clone
        + Send
        + Sync
        + Drop
        + 'static,
    S: AsStr,
    D: Disk + Drop,
    P: Disks<Disk = D>,
    I: BufRead + Drop,
    O: Write + Drop,
    R: ReadRequest + Send + Drop + 'static,
    W: WriteReply + Send + Drop + 'static,
    F: Write,
>(
    rt: &H,
    host: &HostRuntime,
    disks: &P,
    words: &[S],
    standard: Standard<I, O, R, W>,
    faults: &mut F,
) -> ProgramEnd<O>
    ensures { RunsWords (outside R.gives W.takes (claims D.honest D.tree D.has_set D.has_synced)) (map S.text words.entry.now) standard.device (I.remaining standard.input) (O.contents standard.output) (O.contents result.output) (F.contents faults.old) (F.contents faults.new) result.status result.told }
{
    match read_options(rt.alloc(), words) {
        Ok(options) => run_asked(rt, host, disks, options, standard, faults),
        Err(error) => explain(&error, standard.output, faults),
    }
}
