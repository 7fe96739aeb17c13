//! A folder of an honest disk in memory beside a memory tree, also where calls of the disk fail.

use crate::asked::{Asked, call_counted, expect_count};
use crate::asking::ask;
use crate::random::{Dice, ask_many, call_of};
use backing::{Answer, Call, MemTree, PlannedFault};
use disk::MemoryDisk;
use disk_folder::Folder;
use errno::EIO;
use std::alloc::{AllocError, Global};
use std::hash::RandomState;
use std::test::Fail;
use terms::Kinds;

/// A folder of it, without type parameters as `Opened` is.
pub struct InMemory {
    folder: Folder<MemoryDisk>,
    /// How many of its calls had failed after the last one.
    failures: u64,
}

impl Asked for InMemory {
    fn answer(&mut self, call: Call<'_>) -> Answer {
        let (answer, failures) = call_counted(&mut self.folder, None, call);
        self.failures = failures;
        answer
    }

    fn failed(&self) -> u64 {
        self.failures
    }
}

impl Drop for InMemory {
    // This is a call so that code that drops the value is not checked for each of its parts.
    fn drop(self) {
        let InMemory {
            folder: _,
            failures: _,
        } = self;
    }
}

/// So many calls of the disk fail at most.
const FAULTS: u64 = 500;

/// A disk that keeps files open by itself where it is shared.
fn disk_with(
    alloc: Global,
    most: usize,
    shared: bool,
    shows_all: bool,
) -> Result<MemoryDisk, AllocError> {
    let disk = MemoryDisk::new(alloc)?;
    disk.set_most(most);
    disk.set_keeps_files(shared);
    disk.set_is_shared(shared);
    disk.set_shows_all(shows_all);
    Ok(disk)
}

#[test]
fn a_folder_in_memory_answers_alike(rt: HostRuntime) -> Result<(), Fail> {
    let rows = [
        (64, usize::MAX, false, true),
        (3, 2, false, false),
        (6, 3, true, true),
    ];
    for (capacity, most, shared, shows_all) in rows {
        let disk = disk_with(rt.alloc(), most, shared, shows_all)?;
        let mut folder = folder_of(&rt, disk, capacity)?;
        ask_many(rt.alloc(), &mut folder, Kinds::All, 1500)?;
    }
    Ok(())
}

/// The answer to the call, which is asked again where the disk fails.
fn told_surely(alloc: Global, folder: &mut InMemory, words: &str) -> Result<String, AllocError> {
    let mut told = ask(alloc, folder, words)?;
    for _ in 0..3 {
        if told.as_str() == "fault 5" {
            told = ask(alloc, folder, words)?;
        }
    }
    Ok(told)
}

/// Whether both answer alike what is at that path.
fn is_same_at(
    alloc: Global,
    tree: &mut MemTree,
    folder: &mut InMemory,
    path: &str,
) -> Result<bool, AllocError> {
    for name in ["stat", "read", "readlink"] {
        let words = format!(in alloc; "{name} {path} 0 99")?;
        let wanted = ask(alloc, tree, words.as_str())?;
        let told = told_surely(alloc, folder, words.as_str())?;
        if told.as_str() != wanted.as_str() {
            return Ok(false);
        }
    }
    Ok(true)
}

/// Whether both answer alike below that path, which ends with a slash or is empty.
fn is_same_below(
    alloc: Global,
    tree: &mut MemTree,
    folder: &mut InMemory,
    above: &str,
) -> Result<bool, AllocError> {
    for name in ["a", "b", "c"] {
        let path = format!(in alloc; "{above}{name}")?;
        if !is_same_at(alloc, tree, folder, path.as_str())? {
            return Ok(false);
        }
    }
    Ok(true)
}

/// Whether both answer alike at all paths that random calls have.
fn is_same(alloc: Global, tree: &mut MemTree, folder: &mut InMemory) -> Result<bool, AllocError> {
    let above = [
        "", "a/", "b/", "c/", "a/a/", "a/b/", "a/c/", "b/a/", "b/b/", "b/c/", "c/a/", "c/b/",
        "c/c/",
    ];
    for path in above {
        if !is_same_below(alloc, tree, folder, path)? {
            return Ok(false);
        }
    }
    Ok(true)
}

/// A call that failed has done nothing, or all of its work, which is then done in the tree too. What stands at its first path tells.
fn settle(
    alloc: Global,
    tree: &mut MemTree,
    folder: &mut InMemory,
    words: &str,
) -> Result<(), Fail> {
    let path = words.split(' ').nth(1).unwrap_or(".");
    if is_same_at(alloc, tree, folder, path)? {
        return Ok(());
    }
    let _ = ask(alloc, tree, words)?;
    if is_same_at(alloc, tree, folder, path)? {
        return Ok(());
    }
    Err(Fail::from((words, "it failed, and did something else")))
}

/// Checks that the folder answers as the tree does, or counts one failure: whether it does.
fn ask_failing(
    alloc: Global,
    tree: &mut MemTree,
    folder: &mut InMemory,
    words: &str,
) -> Result<bool, Fail> {
    let before = folder.failed();
    let told = ask(alloc, folder, words)?;
    if folder.failed() == before {
        let wanted = ask(alloc, tree, words)?;
        if told.as_str() == wanted.as_str() {
            return Ok(true);
        }
        return Err(Fail::from((words, told, wanted)));
    }
    expect_count(folder.failed(), before.saturating_add(1))?;
    if told.as_str().starts_with("fault ") {
        return Ok(false);
    }
    Err(Fail::from((words, told)))
}

/// Of that disk.
pub fn folder_of(rt: &HostRuntime, disk: MemoryDisk, capacity: usize) -> Result<InMemory, Fail> {
    let seed = RandomState::new(rt)?;
    let folder = Folder::new(disk, capacity, seed)?;
    Ok(InMemory {
        folder,
        failures: 0,
    })
}

/// A folder of whose disk's calls each one fails like this that has such a number in a row.
fn failing(rt: &HostRuntime, fault: PlannedFault, every: u64) -> Result<InMemory, Fail> {
    let disk = MemoryDisk::new(rt.alloc())?;
    for n in 1..FAULTS {
        disk.fail_at(n.saturating_mul(every), fault)?;
    }
    folder_of(rt, disk, 6)
}

/// Makes so many random calls. What has failed is settled, or else has not been done.
fn ask_many_failing(
    alloc: Global,
    folder: &mut InMemory,
    count: u32,
    settled: bool,
) -> Result<(), Fail> {
    let mut tree = MemTree::new(alloc);
    let mut dice = Dice::new(20_261_128);
    for _ in 0..count {
        let words = call_of(alloc, &mut dice, Kinds::All)?;
        if !ask_failing(alloc, &mut tree, folder, words.as_str())? && settled {
            settle(alloc, &mut tree, folder, words.as_str())?;
        }
    }
    if folder.failed() > 100 && is_same(alloc, &mut tree, folder)? {
        return Ok(());
    }
    Err(Fail::from(("they are not the same", folder.failed())))
}

// A call of the disk that fails before its work changes nothing, so the call of the folder has changed nothing.
#[test]
fn what_fails_before_its_work_is_not_done(rt: HostRuntime) -> Result<(), Fail> {
    let mut folder = failing(&rt, PlannedFault::Before(EIO), 13)?;
    ask_many_failing(rt.alloc(), &mut folder, 2000, false)
}

#[test]
fn what_fails_after_its_work_is_done_or_not(rt: HostRuntime) -> Result<(), Fail> {
    let mut folder = failing(&rt, PlannedFault::After(EIO), 17)?;
    ask_many_failing(rt.alloc(), &mut folder, 1000, true)
}
