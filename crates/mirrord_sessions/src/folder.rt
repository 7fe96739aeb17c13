//! Serving a folder of a disk over a stream.

ghost use Rattle.std.specs.Prelude.{◌≡◌, ◌≢◌, IfErr, IfOk};
ghost use Rattle.disk_folder.specs.Gives.{IsNew, claims};
ghost use Rattle.mirrord_sessions.specs.Folders.{IsFolderServed, ServesFolder};
ghost use Rattle.mirrord_sessions.specs.declared.folder.Unserved.TheVariants.{NoSeed, NoSocket};

use crate::disks::{Disks, not_opened};
use crate::hosting::{Finished, serve_alone};
use disk::Disk;
use disk_folder::Folder;
use engine::SessionEnd;
use engine_streams::StreamLink;
use std::hash::RandomState;
use std::io::{Read, Write};
use std::random::RandomSource;
use std::sync::Wait;
use table::Seeds;
use terms::{Settings, Terms};
use thiserror::Error;

/// Why nothing was served. No contract names these words: what the programs write is a `Failure`, which has the path too.
#[derive(Clone, Copy, Debug, PartialEq, Eq, Error)]
pub enum Unserved {
    #[error("the folder cannot be opened")]
    NoFolder,
    /// The system does not let the process reach what it has open by `/proc/self/fd`.
    #[error("/proc/self/fd cannot be used")]
    NoDescriptors,
    /// The system gives no random bytes.
    #[error("no random seed")]
    NoSeed,
    #[error("no client can be awaited at the path")]
    NoSocket,
    #[error("out of memory")]
    Memory,
}

/// The result of serving over a stream.
#[derive(Drop)]
pub struct StreamEnd<O: Drop> {
    /// How the session ended, or why there was none.
    pub ended: Result<SessionEnd, Unserved>,
    /// The writer of the replies, returned.
    pub output: O,
}

/// A session over a stream that is over.
#[derive(Drop)]
pub struct FolderEnd<D: Disk + Drop, O: Drop> {
    /// How it ended.
    pub end: SessionEnd,
    /// The folder, returned.
    pub folder: Folder<D>,
    /// The writer of the replies, returned.
    pub output: O,
}

/// A seed for what is hashed.
pub fn new_seed<H: RandomSource>(rt: &H) -> Result<RandomState, Unserved>
    ensures { IfErr result (λ why. why ≡ NoSeed) }
{
    match RandomState::new(rt) {
        Ok(seed) => Ok(seed),
        Err(_) => Err(Unserved::NoSeed),
    }
}

/// Seeds for a new table.
pub fn new_seeds<H: RandomSource>(rt: &H) -> Result<Seeds, Unserved>
    ensures { IfErr result (λ why. why ≡ NoSeed) }
{
    match Seeds::new(rt) {
        Ok(seeds) => Ok(seeds),
        Err(_) => Err(Unserved::NoSeed),
    }
}

/// Opens the folder to be served, of which the kinds of files and the names of these settings are shown.
pub fn open_folder<H: RandomSource, D: Disk + Drop, P: Disks<Disk = D>>(
    rt: &H,
    disks: &P,
    root: &str,
    settings: Settings,
) -> Result<Folder<D>, Unserved>
    ensures new { IfOk result IsNew }
    ensures why { IfErr result (λ why. why ≢ NoSocket) }
{
    let seed = new_seed(rt)?;
    let disk = disks.open(root, settings)?;
    match Folder::new(disk, disks.capacity(), seed) {
        Ok(folder) => Ok(folder),
        Err(error) => Err(not_opened(error)),
    }
}

/// The folder to be served, and seeds for its table.
pub(crate) fn open_seeded<H: RandomSource, D: Disk + Drop, P: Disks<Disk = D>>(
    rt: &H,
    disks: &P,
    root: &str,
    settings: Settings,
) -> Result<(Folder<D>, Seeds), Unserved>
    ensures new { IfOk result (λ opened. IsNew opened.0) }
    ensures why { IfErr result (λ why. why ≢ NoSocket) }
{
    let folder = open_folder(rt, disks, root, settings)?;
    let seeds = new_seeds(rt)?;
    Ok((folder, seeds))
}

/// Serves a folder of any disk over a stream.
pub fn serve_opened<H: Wait + AllocGlobal, D: Disk + Drop, I: Read + Drop, O: Write + Drop>(
    rt: &H,
    folder: Folder<D>,
    seeds: Seeds,
    terms: Terms,
    input: I,
    output: O,
) -> FolderEnd<D, O>
    ensures { IsFolderServed (claims D.honest D.tree D.has_set D.has_synced) terms folder result.folder (I.remaining input) (O.contents output) result.end (O.contents result.output) }
{
    let mut link = StreamLink::new(rt.alloc(), input, output);
    let Finished { end, calls } = serve_alone(rt, rt.alloc(), seeds, folder, &mut link, terms);
    FolderEnd {
        end,
        folder: calls,
        output: link.into_writer(),
    }
}

/// Serves the folder at `root` to the client that writes `input` and reads `output`, until its session ends.
pub fn serve_folder<
    H: Wait + RandomSource + AllocGlobal,
    D: Disk + Drop,
    P: Disks<Disk = D>,
    I: Read + Drop,
    O: Write + Drop,
>(rt: &H, disks: &P, root: &str, terms: Terms, input: I, output: O) -> StreamEnd<O>
    ensures { ServesFolder (claims D.honest D.tree D.has_set D.has_synced) terms (I.remaining input) (O.contents output) result.ended (O.contents result.output) }
{
    match open_seeded(rt, disks, root, terms.settings) {
        Ok((folder, seeds)) => {
            let over = serve_opened(rt, folder, seeds, terms, input, output);
            StreamEnd {
                ended: Ok(over.end),
                output: over.output,
            }
        }
        Err(why) => StreamEnd {
            ended: Err(why),
            output,
        },
    }
}
