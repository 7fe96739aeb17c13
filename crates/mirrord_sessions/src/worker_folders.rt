//! One folder of Linux for several threads: each has a folder of its own on the same root, and all share the files that are kept open.

ghost use Rattle.std.specs.Prelude.{◌≡◌, ◌≢◌, ◌≤◌, [], IfErr, IfOk, replicate, vec_capacity, vec_len};
ghost use Rattle.mirrord_sessions.specs.declared.folder.Unserved.TheVariants.{NoSocket};

use crate::disks::{not_opened, not_started};
use crate::folder::{Unserved, new_seed};
use crate::told_folder::ToldFolder;
use backing::{Answer, Call, Calls};
use linux_disk::{LibC, Linux, OpenFd, SharedFiles, room_for_open};
use std::marker::Model;
use std::num::NonZeroUsize;
use std::random::RandomSource;
use std::sync::Wait;
use terms::Settings;

/// The folder of Linux that all workers serve, with the files that they share.
type HostDisk<H> = Linux<LibC, SharedFiles<OpenFd, H>>;

/// A folder that another thread may use. Of its disk nothing is known.
pub struct HostFolder<H: Wait + Clone + Drop> {
    folder: ToldFolder<HostDisk<H>>,
}

impl<H: Wait + Clone + Drop> Drop for HostFolder<H> {
    // This is a call so that code that drops a folder is not checked for each part of its disk.
    fn drop(self) {
        let HostFolder { folder: _ } = self;
    }
}

impl<H: Wait + Clone + Drop> Model for HostFolder<H> {
    ghost use Rattle.std.specs.Prelude.{ℕ};

    ghost Value = { ℕ };

    ghost view = { λ f. f.folder };
}

impl<H: Wait + Clone + Drop> Calls for HostFolder<H> {
    ghost use Rattle.disk_folder.specs.Explained.{Tells};
    ghost use Rattle.disk_folder.specs.CallLemmas.{gives_counts};

    ghost gives = { Tells };

    ghost faults = { λ failures. failures };

    ghost counts = { gives_counts };

    fn call(&mut self, call: Call<'_>) -> Answer {
        self.folder.call(call)
    }

    fn offer_room(&mut self, buffer: &mut Vec<u8>) {
        self.folder.offer_room(buffer);
    }
}

/// Of what may be kept open, one half are files, which all workers share, and one half folders, of which each has its own.
fn files_kept() -> NonZeroUsize {
    NonZeroUsize::new(room_for_open() / 2).unwrap_or(NonZeroUsize::MIN)
}

fn folders_kept(workers: u8) -> usize {
    let each = room_for_open() / 2 / usize::from(workers.max(1));
    each.max(1)
}

/// The folder at `root`, of which the kinds of files and the names of these settings are shown.
fn open_first<H: Wait + RandomSource + AllocGlobal + Clone + Drop>(
    rt: &H,
    root: &str,
    settings: Settings,
) -> Result<HostDisk<H>, Unserved>
    ensures { IfErr result (λ why. why ≢ NoSocket) }
{
    let seed = new_seed(rt)?;
    let alloc = rt.alloc();
    let Ok(own) = rt.clone() else {
        return Err(Unserved::Memory);
    };
    let Ok(calls) = LibC::new(alloc, settings) else {
        return Err(Unserved::Memory);
    };
    let Ok(store) = SharedFiles::new(own, alloc, files_kept(), seed) else {
        return Err(Unserved::Memory);
    };
    match Linux::open(calls, store, alloc, root) {
        Ok(linux) => Ok(linux),
        Err(error) => Err(not_started(error)),
    }
}

/// The same folder for one of so many workers.
fn open_next<H: Wait + RandomSource + Clone + Drop>(
    rt: &H,
    first: &HostDisk<H>,
    workers: u8,
) -> Result<HostFolder<H>, Unserved>
    ensures unused { IfOk result (λ folder. folder ≡ 0) }
    ensures why { IfErr result (λ why. why ≢ NoSocket) }
{
    let seed = new_seed(rt)?;
    let shared = match first.share() {
        Ok(shared) => shared,
        Err(error) => return Err(not_opened(error)),
    };
    let folder = ToldFolder::new(shared, folders_kept(workers), seed)?;
    Ok(HostFolder { folder })
}

/// The same folder for each worker, in the vector, which has room for all of them.
fn open_each<H: Wait + RandomSource + Clone + Drop>(
    rt: &H,
    first: &HostDisk<H>,
    workers: u8,
    mut folders: Vec<HostFolder<H>>,
) -> Result<Vec<HostFolder<H>>, Unserved>
    requires none { folders.items ≡ [] }
    requires room { workers ≤ vec_capacity folders }
    ensures unused { IfOk result (λ folders. folders.items ≡ replicate workers 0) }
    ensures len { IfOk result (λ folders. vec_len folders ≡ workers) }
    ensures why { IfErr result (λ why. why ≢ NoSocket) }
{
    for opened in 0..workers {
        folders.push_reserved(open_next(rt, first, workers)?);
    }
    Ok(folders)
}

/// A folder for each worker, all on the same root, of which the kinds of files and the names of these settings
/// are shown.
pub fn open_folders<H: Wait + RandomSource + AllocGlobal + Clone + Drop>(
    rt: &H,
    root: &str,
    settings: Settings,
    workers: u8,
) -> Result<Vec<HostFolder<H>>, Unserved>
    ensures unused { IfOk result (λ folders. folders.items ≡ replicate workers 0) }
    ensures len { IfOk result (λ folders. vec_len folders ≡ workers) }
    ensures why { IfErr result (λ why. why ≢ NoSocket) }
{
    let Ok(folders) = Vec::with_capacity(rt.alloc(), usize::from(workers)) else {
        return Err(Unserved::Memory);
    };
    let first = open_first(rt, root, settings)?;
    open_each(rt, &first, workers, folders)
}
