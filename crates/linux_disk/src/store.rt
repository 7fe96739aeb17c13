//! Where files are kept open beside the handles of a caller.

ghost use Rattle.std.specs.Prelude.{◌≡◌, Bool, true, false};

use crate::files::{KeptFile, OpenFiles};
use crate::keys::{FileKey, Query};
use disk::Access;
use std::alloc::{AllocError, Global};
use std::hash::RandomState;
use std::marker::PhantomData;
use std::num::NonZeroUsize;
use std::sync::{Arc, Mutex, Wait};

/// Where files are kept open beside the handles of a caller, each under a name of a folder.
pub trait FileStore {
    /// An open file.
    type Fd: Drop;

    /// Whether it keeps any.
    ghost keeps: { Self → Bool };

    /// Whether it keeps any.
    fn keeps(&self) -> bool
        ensures { result ≡ keeps self.now };

    /// How often a name went or moved.
    fn moves(&self) -> u64;

    /// The file that is kept there and serves.
    fn find(&self, query: Query<'_>, access: Access) -> Option<KeptFile<Self::Fd>>;

    /// Keeps it there, unless a name went or moved since that count was read, or there is no memory.
    fn put(&self, query: Query<'_>, kept: KeptFile<Self::Fd>, moves: u64);

    /// What is kept there was seen there at that time, in milliseconds.
    fn touch(&self, query: Query<'_>, at: u64);

    /// The name went: nothing is kept there any more.
    fn forget(&self, query: Query<'_>);

    /// The name moved: what is kept there is kept under the other name, and what was kept under that is not any more.
    fn relocate(&self, from: Query<'_>, to: Query<'_>);

    /// The same store once more.
    fn share(&self) -> Result<Self, AllocError>;
}

/// No file is kept.
#[derive(Drop)]
pub struct NoFiles<F> {
    none: PhantomData<F>,
}

impl<F: Drop> NoFiles<F> {
    pub fn new() -> NoFiles<F> {
        NoFiles { none: PhantomData }
    }
}

impl<F: Drop> FileStore for NoFiles<F> {
    type Fd = F;

    ghost keeps = { λ _. false };

    fn keeps(&self) -> bool {
        false
    }

    fn moves(&self) -> u64 {
        0
    }

    fn find(&self, _query: Query<'_>, _access: Access) -> Option<KeptFile<F>> {
        None
    }

    fn put(&self, _query: Query<'_>, _kept: KeptFile<F>, _moves: u64) {}

    fn touch(&self, _query: Query<'_>, _at: u64) {}

    fn forget(&self, _query: Query<'_>) {}

    fn relocate(&self, _from: Query<'_>, _to: Query<'_>) {}

    fn share(&self) -> Result<NoFiles<F>, AllocError> {
        Ok(NoFiles::new())
    }
}

/// Files that several workers share. Each call waits for the lock, which nobody holds during a call of the system.
#[derive(Drop)]
pub struct SharedFiles<F: Drop, R: Wait + Clone + Drop> {
    rt: R,
    open: Arc<Mutex<OpenFiles<F>>>,
}

impl<F: Drop, R: Wait + Clone + Drop> SharedFiles<F, R> {
    /// None is kept yet, and later so many at most, each of which has a descriptor of the process. It hashes by that seed.
    pub fn new(
        rt: R,
        alloc: Global,
        capacity: NonZeroUsize,
        seed: RandomState,
    ) -> Result<SharedFiles<F, R>, AllocError> {
        let open = OpenFiles::new(alloc, capacity, seed)?;
        Ok(SharedFiles {
            rt,
            open: Arc::new(alloc, Mutex::new(open))?,
        })
    }
}

impl<F: Drop, R: Wait + Clone + Drop> FileStore for SharedFiles<F, R> {
    type Fd = F;

    ghost keeps = { λ _. true };

    fn keeps(&self) -> bool {
        true
    }

    fn moves(&self) -> u64 {
        self.open.lock(&self.rt).moves
    }

    fn find(&self, query: Query<'_>, access: Access) -> Option<KeptFile<F>> {
        self.open.lock(&self.rt).find(query, access)
    }

    fn put(&self, query: Query<'_>, kept: KeptFile<F>, moves: u64) {
        let Ok(key) = query.key() else {
            return;
        };
        let mut open = self.open.lock(&self.rt);
        let gone = open.put(key, kept, moves);
        // What goes is closed after the lock.
        drop(open);
        drop(gone);
    }

    fn touch(&self, query: Query<'_>, at: u64) {
        self.open.lock(&self.rt).touch(query, at);
    }

    fn forget(&self, query: Query<'_>) {
        let mut open = self.open.lock(&self.rt);
        let gone = open.forget(query);
        drop(open);
        drop(gone);
    }

    fn relocate(&self, from: Query<'_>, to: Query<'_>) {
        let Ok(key) = to.key() else {
            self.forget(from);
            self.forget(to);
            return;
        };
        let mut open = self.open.lock(&self.rt);
        let gone = open.relocate(from, to, key);
        drop(open);
        drop(gone);
    }

    fn share(&self) -> Result<SharedFiles<F, R>, AllocError> {
        Ok(SharedFiles {
            rt: self.rt.clone()?,
            open: Arc::try_clone(&self.open)?,
        })
    }
}
