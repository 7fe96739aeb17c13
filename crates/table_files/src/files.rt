//! Open files, each with a handle of its own.

ghost use Rattle.std.specs.Prelude.{◌≡◌, ◌<◌, ◌≤◌, ◌+◌, ◌^◌, ◌==◌, AllPairs, IfNone, IfSome, IsOk, OnOk};
ghost use Rattle.collections.specs.Sum.{IsSum};
ghost use Rattle.table_files.specs.declared.listed.OpenEntry.{OpenEntry};
ghost use Rattle.table_files.specs.OpenEntry.{file_in, files_of, opened_in};
ghost use Rattle.table_files.specs.Handles.{AreOpenEntries, after_close, after_open, no_files, of_node};

use crate::counts::{OpenCounts, lower, make_room, no_counts, openings_of, raise};
use crate::data::OpenFile;
use crate::listed::{OpenEntry, index_of};
use std::alloc::{AllocError, Global};
use std::marker::Model;

/// Open files, each with a handle of its own. Handles rise from 1, and none is ever used again.
#[derive(Drop)]
pub struct Files {
    files: Vec<OpenEntry>,
    counts: OpenCounts,
    last: u64,
    /// How many more files may be opened without allocating.
    room: usize,
}

impl Model for Files {
    ghost use Rattle.table_files.specs.OpenEntry.{Filing, filing, IsFiled};

    ghost Value = { Filing };

    ghost view = { λ a. filing a.files a.last a.room };

    ghost invariant = { λ a. IsFiled a.files a.counts a.last a.room };
}

#[tactic(auto, unfolding(crate::specs::OpenEntry::files_of))]
impl Files {
    /// No open files, and no handle in use so far.
    pub fn new(alloc: Global) -> Files
        ensures at { (files_of result).at ≡ no_files }
        ensures many { (files_of result).many ≡ 0 }
        ensures last { (files_of result).last ≡ 0 }
        ensures law { AreOpenEntries (files_of result) }
    {
        Files {
            files: Vec::new(alloc),
            counts: no_counts(alloc),
            last: 0,
            room: 0,
        }
    }

    /// The file open under the handle.
    pub fn get(&self, handle: u64) -> Option<OpenFile>
        ensures at { result ≡ (files_of self.now).at handle }
        ensures law { AreOpenEntries (files_of self.now) }
    {
        let i = index_of(&self.files, handle)?;
        Some(self.files[i].file)
    }

    /// How many files are open.
    pub fn len(&self) -> usize
        ensures many { result ≡ (files_of self.now).many }
        ensures law { AreOpenEntries (files_of self.now) }
    {
        self.files.len()
    }

    /// The last handle that was used, or 0.
    pub fn last(&self) -> u64
        ensures { result ≡ (files_of self.now).last }
    {
        self.last
    }

    /// How many handles are left to be used.
    pub fn handles_left(&self) -> u64
        ensures { result + (files_of self.now).last + 1 ≡ 2 ^ 64 }
    {
        u64::MAX - self.last
    }

    /// Whether a file of the node is open.
    pub fn is_open(&self, number: u64) -> bool
        ensures opened { result ≡ (files_of self.now).opened number }
        ensures law { AreOpenEntries (files_of self.now) }
    {
        openings_of(&self.counts, number) > 0
    }

    /// How many files of the node are open.
    pub fn openings(&self, number: u64) -> u64
        ensures { IsSum (files_of self.now).at (of_node number) result }
    {
        openings_of(&self.counts, number)
    }

    /// All open files, sorted by handle.
    pub fn as_slice(&self) -> &[OpenEntry]
        ensures at { file_in result.now ≡ (files_of self.now).at }
        ensures opened { opened_in result.now ≡ (files_of self.now).opened }
        ensures rising { AllPairs (λ (f g : OpenEntry). f.handle < g.handle) result.now }
        ensures law { AreOpenEntries (files_of self.now) }
    {
        self.files.as_slice()
    }

    /// Makes room for `n` files. Out of memory is the only error, and then the room is as before.
    pub fn reserve(&mut self, n: usize) -> Result<(), AllocError>
        ensures ok { OnOk result (n ≤ (files_of self.new).room) }
        ensures had_room { n ≤ (files_of self.old).room → IsOk result }
        ensures same { files_of self.new ≡ record (files_of self.old) { room = (files_of self.new).room } }
        ensures room { (files_of self.old).room ≤ (files_of self.new).room }
        ensures law { AreOpenEntries (files_of self.new) }
    {
        if n <= self.room {
            return Ok(());
        }
        self.files.reserve(n)?;
        make_room(&mut self.counts, self.files.len() + n)?;
        self.room = n;
        Ok(())
    }

    /// Opens a file under the next handle and returns the handle. There must be room for it.
    pub fn open(&mut self, file: OpenFile) -> u64
        requires room { 0 < (files_of self.old).room }
        requires left { (files_of self.old).last + 1 < 2 ^ 64 }
        ensures handle { result ≡ (files_of self.old).last + 1 }
        ensures new_is { files_of self.new ≡ after_open (files_of self.old) file }
        ensures law { AreOpenEntries (files_of self.new) }
    {
        self.last += 1;
        let handle = self.last;
        self.room -= 1;
        raise(&mut self.counts, file.number);
        self.files.push_reserved(OpenEntry { handle, file });
        handle
    }

    /// Closes the file under the handle, if one is open, and returns it.
    pub fn close(&mut self, handle: u64) -> Option<OpenFile>
        ensures file { result ≡ (files_of self.old).at handle }
        ensures none { IfNone result (self.new ≡ self.old) }
        ensures new_is { IfSome result (λ _. files_of self.new ≡ after_close (files_of self.old) handle (files_of self.new).opened) }
        ensures law { AreOpenEntries (files_of self.new) }
    {
        let i = index_of(&self.files, handle)?;
        let filed = self.files.remove(i);
        lower(&mut self.counts, filed.file.number);
        self.room += 1;
        Some(filed.file)
    }
}
