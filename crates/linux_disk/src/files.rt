//! Files that are kept open, each under a name of a folder, the least used of which goes first.

ghost use Rattle.std.specs.Prelude.{◌≡◌, ◌≢◌, ◌+◌, ◌%◌, ◌^◌, [], IfOk, IfSome};
ghost use Rattle.std.specs.Arc.{arc_value};
ghost use Rattle.std.specs.Map.{lookup};
ghost use Rattle.std.specs.NonZero.{non_zero_usize_get};
ghost use Rattle.lru.specs.LruCache.{lru_cache};
ghost use Rattle.linux_disk.specs.Files.{IsPut, IsServed, Moves, taken_out};
ghost use Rattle.linux_disk.specs.Keys.{is_key};

use crate::keys::{FileKey, Query};
use disk::Access;
use lru::LruCache;
use std::alloc::{AllocError, Global};
use std::hash::RandomState;
use std::num::NonZeroUsize;
use std::sync::Arc;

/// An open file.
#[derive(Drop)]
pub struct KeptFile<F> {
    pub(crate) file: Arc<F>,
    /// What it was opened for.
    pub(crate) access: Access,
    /// When it was last seen under its name, in milliseconds.
    pub(crate) seen: u64,
}

impl<F> KeptFile<F> {
    /// The same file once more, unless no further copy can be counted.
    fn copy(&self) -> Option<KeptFile<F>>
        ensures { IfSome result (λ copy. (arc_value copy.file ≡ arc_value self.now.file) × (copy.seen ≡ self.now.seen)) }
    {
        match Arc::try_clone(&self.file) {
            Ok(file) => Some(KeptFile {
                file,
                access: self.access,
                seen: self.seen,
            }),
            Err(_) => None,
        }
    }
}

/// The files that are kept open.
#[derive(Drop)]
pub struct OpenFiles<F> {
    pub(crate) files: LruCache<FileKey, KeptFile<F>, RandomState>,
    /// How often a name went or moved.
    pub(crate) moves: u64,
}

impl<F: Drop> OpenFiles<F> {
    /// Nothing is kept, and later so many at most.
    pub(crate) fn new(
        alloc: Global,
        capacity: NonZeroUsize,
        seed: RandomState,
    ) -> Result<OpenFiles<F>, AllocError>
        ensures { IfOk result (λ kept. kept.files ≡ lru_cache [] (non_zero_usize_get capacity)) }
    {
        let files = LruCache::with_hasher(alloc, capacity, seed)?;
        Ok(OpenFiles { files, moves: 0 })
    }

    /// The file that is kept there, if it serves. It is the most recently used one from now on.
    pub(crate) fn find(&mut self, query: Query<'_>, access: Access) -> Option<KeptFile<F>>
        ensures found { IfSome result (IsServed self.old.files.entries (is_key query.entry.device query.entry.inode query.entry.name.now) access) }
        ensures moves { self.new.moves ≡ self.old.moves }
    {
        match self.files.get(query) {
            Some(kept) => {
                if kept.access.serves(access) {
                    kept.copy()
                } else {
                    None
                }
            }
            None => None,
        }
    }

    /// Keeps it there, unless a name went or moved since that count was read. What has to go for it is handed back, and so is itself where
    /// it is not kept.
    pub(crate) fn put(
        &mut self,
        key: FileKey,
        kept: KeptFile<F>,
        moves: u64,
    ) -> Option<(FileKey, KeptFile<F>)>
        ensures put { IsPut self.old.files key kept self.new.files }
        ensures late { self.old.moves ≢ moves → self.new.files ≡ self.old.files }
        ensures moves { self.new.moves ≡ self.old.moves }
    {
        if self.moves != moves {
            return Some((key, kept));
        }
        match self.files.push(key, kept) {
            Ok(gone) => gone,
            Err(failed) => Some(failed.value),
        }
    }

    /// What is kept there was seen there at that time.
    pub(crate) fn touch(&mut self, query: Query<'_>, at: u64)
        ensures { self.new.moves ≡ self.old.moves }
    {
        if let Some(kept) = self.files.get_mut(query) {
            kept.seen = at;
        }
    }

    /// Nothing is kept there any more: what was is handed back.
    pub(crate) fn forget(&mut self, query: Query<'_>) -> Option<KeptFile<F>>
        ensures files { self.new.files ≡ taken_out self.old.files (is_key query.entry.device query.entry.inode query.entry.name.now) }
        ensures moves { self.new.moves ≡ (self.old.moves + 1) % 2 ^ 64 }
    {
        self.moves = self.moves.wrapping_add(1);
        self.files.pop(query)
    }

    /// What is kept under the one name is kept under the other. What was kept there is handed back, and what has no room.
    pub(crate) fn relocate(
        &mut self,
        from: Query<'_>,
        to: Query<'_>,
        key: FileKey,
    ) -> (Option<KeptFile<F>>, Option<(FileKey, KeptFile<F>)>)
        ensures files { let rest = taken_out self.old.files (is_key to.entry.device to.entry.inode to.entry.name.now) in let is = is_key from.entry.device from.entry.inode from.entry.name.now in Moves (taken_out rest is) (lookup is rest.entries) key self.new.files }
        ensures moves { self.new.moves ≡ (self.old.moves + 1) % 2 ^ 64 }
    {
        self.moves = self.moves.wrapping_add(1);
        let replaced = self.files.pop(to);
        match self.files.pop(from) {
            Some(kept) => match self.files.push(key, kept) {
                Ok(gone) => (replaced, gone),
                Err(failed) => (replaced, Some(failed.value)),
            },
            None => (replaced, None),
        }
    }
}
