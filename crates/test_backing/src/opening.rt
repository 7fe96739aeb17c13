//! A real folder, as the programs serve one.

use crate::asked::{Asked, call_counted, expect};
use crate::watch::Watch;
use crate::watched::Watched;
use backing::{Answer, Call};
use disk::{DiskError, Unknown};
use disk_folder::Folder;
use errno::{EIO, ENOMEM};
use linux_disk::{LibC, Linux, NoFiles, OpenFd, StartError};
use std::alloc::{AllocError, Global};
use std::hash::RandomState;
use std::rc::Rc;
use std::test::Fail;
use terms::{AttributeSource, Kinds, Names, Settings};

/// So many files and folders most tests keep open.
pub const CAPACITY: usize = 64;

/// Linux, whose calls are watched.
type System = Linux<Watched<LibC>, NoFiles<OpenFd>>;

/// A folder of it.
type Served = Folder<Unknown<System>>;

/// A folder that is served, and what is seen of its calls of the system. It has no type parameters: so what lends it is not checked for
/// those of the folder.
pub struct Opened {
    folder: Served,
    /// What is to be offered to the folder before its next call.
    room: Option<Vec<u8>>,
    /// How many of its calls had failed after the last one.
    failures: u64,
    pub watch: Rc<Watch>,
    pub kinds: Kinds,
}

impl Asked for Opened {
    // Nothing else here calls the folder, since each function that does is dear to check.
    fn answer(&mut self, call: Call<'_>) -> Answer {
        let (answer, failures) = call_counted(&mut self.folder, self.room.take(), call);
        self.failures = failures;
        answer
    }

    fn failed(&self) -> u64 {
        self.failures
    }
}

impl Opened {
    /// Checks that the call has this answer.
    pub fn expect(&mut self, alloc: Global, words: &str, wanted: &str) -> Result<(), Fail> {
        expect(alloc, self, words, wanted)
    }

    /// A buffer that is needed no longer, which the folder gets right before its next call.
    pub fn offer_room(&mut self, buffer: Vec<u8>) {
        self.room = Some(buffer);
    }
}

impl Drop for Opened {
    // This is a call so that code that drops the value is not checked for each of its parts.
    fn drop(self) {
        let Opened {
            folder: _,
            room: _,
            failures: _,
            watch: _,
            kinds: _,
        } = self;
    }
}

fn error_of(error: StartError) -> DiskError {
    match error {
        StartError::NoFolder(error) => error,
        StartError::NoDescriptors(error) => error,
        StartError::FollowsLinks => DiskError::Failed(EIO),
        StartError::NoMemory => DiskError::Failed(ENOMEM),
    }
}

/// These kinds are shown, and names of any bytes.
pub fn showing(kinds: Kinds) -> Settings {
    Settings {
        attributes: AttributeSource::Host,
        kinds,
        names: Names::Bytes,
    }
}

/// The folder of the system at that path, of which these kinds are shown.
fn system_at(
    alloc: Global,
    root: &str,
    kinds: Kinds,
    watch: Rc<Watch>,
) -> Result<System, DiskError> {
    let Ok(calls) = LibC::new(alloc, showing(kinds)) else {
        return Err(DiskError::Failed(ENOMEM));
    };
    match Linux::open(Watched::new(calls, watch), NoFiles::new(), alloc, root) {
        Ok(system) => Ok(system),
        Err(error) => Err(error_of(error)),
    }
}

/// The same as a folder, which is watched so.
fn folder_at(
    rt: &HostRuntime,
    root: &str,
    capacity: usize,
    kinds: Kinds,
    watch: &Rc<Watch>,
) -> Result<Served, DiskError> {
    let Ok(seed) = RandomState::new(rt) else {
        return Err(DiskError::Failed(EIO));
    };
    let Ok(watch) = watch.clone() else {
        return Err(DiskError::Failed(ENOMEM));
    };
    let system = system_at(rt.alloc(), root, kinds, watch)?;
    Folder::new(Unknown::new(system), capacity, seed)
}

/// What is seen of the calls of the folder at that path.
pub fn watch_at(rt: &HostRuntime, root: &str) -> Result<Rc<Watch>, AllocError> {
    let watch = Watch::new(rt, root)?;
    let shared = Rc::new(rt.alloc(), watch)?;
    Ok(shared)
}

/// The folder at that path, which keeps so many files and folders open at most and shows these kinds. From then on the process's
/// working directory is the folder of its descriptors.
pub fn open_of(
    rt: &HostRuntime,
    root: &str,
    capacity: usize,
    kinds: Kinds,
) -> Result<Opened, DiskError> {
    let Ok(watch) = watch_at(rt, root) else {
        return Err(DiskError::Failed(ENOMEM));
    };
    let folder = folder_at(rt, root, capacity, kinds, &watch)?;
    Ok(Opened {
        folder,
        room: None,
        failures: 0,
        watch,
        kinds,
    })
}

/// The same, of which files and folders alone are shown.
pub fn open_with(rt: &HostRuntime, root: &str, capacity: usize) -> Result<Opened, DiskError> {
    open_of(rt, root, capacity, Kinds::Plain)
}

/// The same, with room for what most tests use.
pub fn open(rt: &HostRuntime, root: &str) -> Result<Opened, DiskError> {
    open_with(rt, root, CAPACITY)
}
