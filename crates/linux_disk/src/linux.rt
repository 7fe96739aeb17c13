//! A folder of Linux.

ghost use Rattle.std.specs.Prelude.{◌≡◌};

use crate::again;
use crate::calls::SystemCalls;
use crate::guard::Guard;
use crate::page::Page;
use crate::spare::Spare;
use crate::start_error::StartError;
use crate::store::FileStore;
use disk::DiskError;
use errno::{ENOENT, ENOMEM};
use std::alloc::{AllocError, Global};
use std::sync::Arc;
use std::sync::atomic::{AtomicBool, AtomicU64, Ordering};

/// What those who serve the same folder tell one another.
#[derive(Drop)]
pub(crate) struct Counts {
    /// How often a folder was removed or moved.
    moves: AtomicU64,
    /// How often anything changed.
    changes: AtomicU64,
    /// How often the rights of a folder were set.
    rights: AtomicU64,
    /// Whether there was ever more than one of them.
    shared: AtomicBool,
}

impl Counts {
    fn new() -> Counts {
        Counts {
            moves: AtomicU64::new(0),
            changes: AtomicU64::new(0),
            rights: AtomicU64::new(0),
            shared: AtomicBool::new(false),
        }
    }

    pub(crate) fn moves(&self) -> u64 {
        self.moves.load(Ordering::SeqCst)
    }

    pub(crate) fn changes(&self) -> u64 {
        self.changes.load(Ordering::SeqCst)
    }

    pub(crate) fn rights(&self) -> u64 {
        self.rights.load(Ordering::SeqCst)
    }

    pub(crate) fn is_shared(&self) -> bool {
        self.shared.load(Ordering::SeqCst)
    }

    /// There is one more of them from now on.
    fn note_share(&self) {
        self.shared.store(true, Ordering::SeqCst);
    }

    /// A folder was removed or moved, or may have been.
    pub(crate) fn note_move(&self) {
        self.moves.fetch_add(1, Ordering::SeqCst);
    }

    /// Something changed, or may have.
    pub(crate) fn note_change(&self) {
        self.changes.fetch_add(1, Ordering::SeqCst);
    }

    /// The rights of a folder were set, or may have been.
    pub(crate) fn note_rights(&self) {
        self.rights.fetch_add(1, Ordering::SeqCst);
    }
}

/// A folder of Linux, and all that is below it. The process's working directory is the folder of its descriptors.
#[derive(Drop)]
pub struct Linux<C: SystemCalls + Drop, S: FileStore<Fd = C::Fd> + Drop> {
    pub(crate) calls: C,
    pub(crate) alloc: Global,
    pub(crate) root: C::Fd,
    pub(crate) guard: Guard<C>,
    pub(crate) counts: Arc<Counts>,
    pub(crate) store: S,
    /// For the texts of one call and the other.
    pub(crate) path: Spare<Box<Page>>,
    pub(crate) other: Spare<Box<Page>>,
    /// For the names in a folder.
    pub(crate) names: Spare<Vec<u8>>,
}

impl<C: SystemCalls + Drop, S: FileStore<Fd = C::Fd> + Drop> Linux<C, S> {
    /// The folder at that path, whose links are followed this once. From then on the process's working directory is the folder of its
    /// descriptors.
    pub fn open(calls: C, store: S, alloc: Global, path: &str) -> Result<Linux<C, S>, StartError> {
        let root = open_top(&calls, alloc, path)?;
        let guard = Guard::new(&calls, alloc)?;
        let Ok(counts) = Arc::new(alloc, Counts::new()) else {
            return Err(StartError::NoMemory);
        };
        Ok(Linux {
            calls,
            alloc,
            root,
            guard,
            counts,
            store,
            path: Spare::new(),
            other: Spare::new(),
            names: Spare::new(),
        })
    }

    /// The same folder for another thread, which shares the files that are kept open and hears of the folders that are removed or moved.
    pub fn share(&self) -> Result<Linux<C, S>, DiskError> {
        let root = again::open_again(&self.calls, &self.root)?;
        match self.share_parts() {
            Ok((calls, store, counts, guard)) => Ok(Linux {
                calls,
                alloc: self.alloc,
                root,
                guard,
                counts,
                store,
                path: Spare::new(),
                other: Spare::new(),
                names: Spare::new(),
            }),
            Err(_) => Err(DiskError::Failed(ENOMEM)),
        }
    }

    fn share_parts(&self) -> Result<(C, S, Arc<Counts>, Guard<C>), AllocError> {
        let calls = self.calls.share()?;
        let store = self.store.share()?;
        self.counts.note_share();
        let counts = Arc::try_clone(&self.counts)?;
        let guard = self.guard.share()?;
        Ok((calls, store, counts, guard))
    }
}

/// The folder that is served. The slash behind its path has the system follow a link there.
fn open_top<C: SystemCalls>(calls: &C, alloc: Global, path: &str) -> Result<C::Fd, StartError> {
    if path.is_empty() {
        return Err(StartError::NoFolder(DiskError::Failed(ENOENT)));
    }
    let Ok(path) = with_slash(alloc, path) else {
        return Err(StartError::NoMemory);
    };
    match calls.open_top(path.as_bytes()) {
        Ok(root) => Ok(root),
        Err(error) => Err(StartError::NoFolder(error)),
    }
}

fn with_slash(alloc: Global, path: &str) -> Result<String, AllocError> {
    let mut text = String::from_str(alloc, path)?;
    text.push_str("/")?;
    Ok(text)
}

/// The page that is kept, or a new one.
pub(crate) fn page_of(alloc: Global, spare: &Spare<Box<Page>>) -> Result<Box<Page>, DiskError> {
    match spare.take() {
        Some(page) => Ok(page),
        None => match Box::new(alloc, Page::new()) {
            Ok(page) => Ok(page),
            Err(_) => Err(DiskError::Failed(ENOMEM)),
        },
    }
}
