//! A real folder as two workers serve it.

use crate::asked::{Asked, call_counted, expect};
use crate::opening::showing;
use crate::watch::Watch;
use crate::watched::Watched;
use crate::worker_stories::Who;
use backing::{Answer, Call};
use disk::{DiskError, Unknown};
use disk_folder::Folder;
use linux_disk::{LibC, Linux, OpenFd, SharedFiles};
use std::alloc::Global;
use std::hash::RandomState;
use std::num::NonZeroUsize;
use std::random::RandomSource;
use std::rc::Rc;
use std::sync::Wait;
use std::test::Fail;
use terms::Kinds;

/// Linux, whose calls are watched and whose open files others may share.
type System<R> = Linux<Watched<LibC>, SharedFiles<OpenFd, R>>;

/// A folder that one of them serves.
pub struct Worker<R: Wait + Clone + Drop> {
    folder: Folder<Unknown<System<R>>>,
    /// How many of its calls had failed after the last one.
    failures: u64,
}

impl<R: Wait + Clone + Drop> Asked for Worker<R> {
    fn answer(&mut self, call: Call<'_>) -> Answer {
        let (answer, failures) = call_counted(&mut self.folder, None, call);
        self.failures = failures;
        answer
    }

    fn failed(&self) -> u64 {
        self.failures
    }
}

impl<R: Wait + Clone + Drop> Drop for Worker<R> {
    // This is a call so that code that drops the value is not checked for each of its parts.
    fn drop(self) {
        let Worker {
            folder: _,
            failures: _,
        } = self;
    }
}

/// A folder twice, and what is seen of the calls of both. What is told of them knows the workers as what answers calls alone: a test
/// has a type parameter for its runtime, and each function that meets it in a folder's whole type is dear to check.
pub struct Two<A: Asked + Drop> {
    pub first: A,
    pub second: A,
    pub watch: Rc<Watch>,
}

impl<A: Asked + Drop> Two<A> {
    /// Checks that the one who asks has this answer.
    pub fn expect(
        &mut self,
        alloc: Global,
        who: Who,
        words: &str,
        wanted: &str,
    ) -> Result<(), Fail> {
        match who {
            Who::First => expect(alloc, &mut self.first, words, wanted),
            Who::Second => expect(alloc, &mut self.second, words, wanted),
        }
    }
}

impl<A: Asked + Drop> Drop for Two<A> {
    // A call, as above.
    fn drop(self) {
        let Two {
            first: _,
            second: _,
            watch: _,
        } = self;
    }
}

/// The system of the folder at that path, which is watched so and shows these kinds.
fn system_at<R: Wait + RandomSource + Clone + Drop>(
    rt: &R,
    alloc: Global,
    root: &str,
    kinds: Kinds,
    watch: Rc<Watch>,
) -> Result<System<R>, Fail> {
    let Some(room) = NonZeroUsize::new(8) else {
        return Err(Fail::from("no number"));
    };
    let store = SharedFiles::new(rt.clone()?, alloc, room, RandomState::new(rt)?)?;
    let calls = Watched::new(LibC::new(alloc, showing(kinds))?, watch);
    Ok(Linux::open(calls, store, alloc, root)?)
}

/// A worker that serves the system's folder, and hashes by that seed.
fn worker_of<R: Wait + Clone + Drop>(
    system: System<R>,
    seed: RandomState,
) -> Result<Worker<R>, DiskError> {
    let folder = Folder::new(Unknown::new(system), 64, seed)?;
    Ok(Worker {
        folder,
        failures: 0,
    })
}

/// The folder at that path, which is watched so and shows these kinds.
pub fn open_two<R: Wait + RandomSource + Clone + Drop>(
    rt: &R,
    alloc: Global,
    root: &str,
    kinds: Kinds,
    watch: Rc<Watch>,
) -> Result<Two<Worker<R>>, Fail> {
    let (one, other) = (RandomState::new(rt)?, RandomState::new(rt)?);
    let system = system_at(rt, alloc, root, kinds, watch.clone()?)?;
    let shared = system.share()?;
    let first = worker_of(system, one)?;
    let second = worker_of(shared, other)?;
    Ok(Two {
        first,
        second,
        watch,
    })
}
