//! The programs `hex` and `pipe`, without their command lines.

ghost use Rattle.std.specs.Prelude.{◌≡◌};
ghost use Rattle.disk_folder.specs.Gives.{claims};
ghost use Rattle.mirrord_sessions.specs.Runs.{RunsHex, RunsPipe, RunsSeeded, ServesHex, unowned};

use crate::disks::Disks;
use crate::ended::{ProgramEnd, failure_after, failure_of, status_after, tell_any};
use crate::folder::serve_folder;
use crate::hexadecimal::HexLink;
use crate::hosting::serve_known;
use crate::samples::new_tree;
use disk::Disk;
use engine::SessionEnd;
use mirrord_commands::{Failure, Fault, tell};
use std::alloc::Global;
use std::io::{BufRead, Read, Write};
use std::random::RandomSource;
use std::sync::Wait;
use table::Seeds;
use terms::{AttributeSource, Bounds, Kinds, Names, Settings, Terms};

/// A tree in memory, and how it is served.
#[derive(Clone, Copy, Debug, PartialEq, Eq)]
pub struct TreeServed {
    /// Whether it has the sample names.
    pub sample: bool,
    /// Which kinds of files are shown.
    pub kinds: Kinds,
    /// How many postings a period of the ledger may have.
    pub postings: u32,
}

/// The settings for a tree in memory: its owner is user 0 and group 0.
fn unowned(kinds: Kinds, postings: u32) -> Terms
    ensures { result ≡ unowned kinds postings }
{
    Terms {
        settings: Settings {
            attributes: AttributeSource::Fixed { uid: 0, gid: 0 },
            kinds,
            names: Names::Text,
        },
        bounds: Bounds {
            postings,
            ..Bounds::default()
        },
    }
}

/// Serves a new tree in memory over a link of hexadecimal lines.
fn serve_new<H: Wait, I: BufRead + Drop, O: Write + Drop>(
    rt: &H,
    alloc: Global,
    served: TreeServed,
    seeds: Seeds,
    link: &mut HexLink<I, O>,
) -> SessionEnd
    ensures { ServesHex served link.old result link.new }
{
    let Ok(tree) = new_tree(alloc, served.sample) else {
        return SessionEnd::Memory;
    };
    let terms = unowned(served.kinds, served.postings);
    serve_known(rt, alloc, seeds, tree, link, terms).end
}

/// What a client writes, and where it reads its replies.
#[derive(Drop)]
pub struct Streams<I: Drop, O: Drop> {
    pub input: I,
    pub output: O,
}

/// Serves a tree in memory over hexadecimal lines: the program `hex` without its command line.
pub fn hex_run<H: Wait, I: BufRead + Drop, O: Write + Drop, F: Write>(
    rt: &H,
    alloc: Global,
    served: TreeServed,
    seeds: Seeds,
    streams: Streams<I, O>,
    faults: &mut F,
) -> ProgramEnd<O>
    ensures { RunsHex served (I.remaining streams.input) (O.contents streams.output) (O.contents result.output) (F.contents faults.old) (F.contents faults.new) result.status result.told }
{
    let Streams { input, output } = streams;
    let mut link = HexLink::new(alloc, input, output);
    let end = serve_new(rt, alloc, served, seeds, &mut link);
    let failure = failure_of(end, link.cause());
    let told = tell_any(faults, failure);
    ProgramEnd {
        status: status_after(failure),
        told,
        output: link.into_writer(),
    }
}

/// The program `hex` without its command line, with seeds of its own.
pub fn run_hex<H: Wait + RandomSource + AllocGlobal, I: BufRead + Drop, O: Write + Drop, F: Write>(
    rt: &H,
    served: TreeServed,
    streams: Streams<I, O>,
    faults: &mut F,
) -> ProgramEnd<O>
    ensures { RunsSeeded served (I.remaining streams.input) (O.contents streams.output) (O.contents result.output) (F.contents faults.old) (F.contents faults.new) result.status result.told }
{
    let Ok(seeds) = Seeds::new(rt) else {
        let told = tell(faults, Failure::Stopped(Fault::Seed));
        return ProgramEnd {
            status: 4,
            told,
            output: streams.output,
        };
    };
    hex_run(rt, rt.alloc(), served, seeds, streams, faults)
}

/// The name of the input of `pipe`.
const STANDARD_INPUT: &str = "standard input";

/// Serves the folder `root` to the client that writes `input` and reads `output`: the program `pipe` without its
/// command line.
pub fn pipe_run<
    H: Wait + RandomSource + AllocGlobal,
    D: Disk + Drop,
    P: Disks<Disk = D>,
    I: Read + Drop,
    O: Write + Drop,
    F: Write,
>(
    rt: &H,
    disks: &P,
    root: &str,
    terms: Terms,
    streams: Streams<I, O>,
    faults: &mut F,
) -> ProgramEnd<O>
    ensures { RunsPipe (claims D.honest D.tree D.has_set D.has_synced) root.entry terms (I.remaining streams.input) (O.contents streams.output) (O.contents result.output) (F.contents faults.old) (F.contents faults.new) result.status result.told }
{
    let Streams { input, output } = streams;
    let served = serve_folder(rt, disks, root, terms, input, output);
    let failure = failure_after(served.ended, root, STANDARD_INPUT);
    ProgramEnd {
        status: status_after(failure),
        told: tell_any(faults, failure),
        output: served.output,
    }
}
