//! What a test sees of the calls of the system, and what it lets go wrong between them.

use crate::sample_trees::place_of;
use disk::DiskError;
use errno::{EACCES, EIO, EPERM};
use std::alloc::AllocError;
use std::cell::{Cell, RefCell};
use std::os::unix::fs::symlink;
use std::{fs, io};

/// What goes wrong.
#[derive(Clone, Copy)]
pub enum Trick {
    Nothing,
    /// Each look at a name fails like this.
    Look(DiskError),
    /// The file `a` becomes a link to the file `e` before it is opened.
    Replace,
    /// A file is made in the folder `d` right before that is removed.
    Enter,
    /// A file is made at a name of the root right before something is renamed to it.
    Arrive,
    /// Each rename fails like this.
    Rename(DiskError),
    /// No name may be opened, and the file `e` belongs to another user.
    Shut,
    /// Nothing is to be found at the name `d`.
    Blind,
}

/// The calls that were made, and what is to come.
#[derive(Drop)]
pub struct Watch {
    rt: HostRuntime,
    root: String,
    /// By whose rights it is served.
    user: Cell<u32>,
    trick: Cell<Trick>,
    /// What the system's clock showed first, in milliseconds.
    begun: Cell<Option<u64>>,
    /// How much time has passed since, in milliseconds.
    passed: Cell<u64>,
    /// A word for each call, with a space before it.
    made: RefCell<String>,
}

/// Whether the name is the last one of the text.
fn ends_with(text: &[u8], name: &str) -> bool {
    match text.rsplit(|byte| *byte == b'/').next() {
        Some(last) => last == name.as_bytes(),
        None => false,
    }
}

/// What the test does fails the call.
fn done(told: io::Result<()>) -> Result<(), DiskError> {
    match told {
        Ok(()) => Ok(()),
        Err(_) => Err(DiskError::Failed(EIO)),
    }
}

impl Watch {
    /// Nothing goes wrong in the folder at that path.
    pub fn new(rt: &HostRuntime, root: &str) -> Result<Watch, AllocError> {
        let alloc = rt.alloc();
        Ok(Watch {
            rt: *rt,
            root: String::from_str(alloc, root)?,
            user: Cell::new(0),
            trick: Cell::new(Trick::Nothing),
            begun: Cell::new(None),
            passed: Cell::new(0),
            made: RefCell::new(String::new(alloc)),
        })
    }

    /// It is served by that user's rights.
    pub fn note_user(&self, user: u32) {
        self.user.set(user);
    }

    /// By whose rights it is served.
    pub fn user(&self) -> u32 {
        self.user.get()
    }

    /// From now on that goes wrong.
    pub fn play(&self, trick: Trick) {
        self.trick.set(trick);
    }

    /// So many milliseconds pass.
    pub fn pass(&self, milliseconds: u64) {
        self.passed
            .set(self.passed.get().saturating_add(milliseconds));
    }

    /// What a clock shows that only moves on where a test says so, where the system's one shows that.
    pub fn time(&self, system: u64) -> u64 {
        let begun = self.begun.get().unwrap_or(system);
        self.begun.set(Some(begun));
        begun.saturating_add(self.passed.get())
    }

    /// Notes a call.
    pub fn note(&self, word: &str) -> Result<(), DiskError> {
        let Ok(mut made) = self.made.try_borrow_mut() else {
            return Err(DiskError::Failed(EIO));
        };
        if made.push_str(" ").is_err() || made.push_str(word).is_err() {
            return Err(DiskError::Failed(EIO));
        }
        Ok(())
    }

    /// The words of the calls that were made, which are then forgotten.
    pub fn take(&self) -> Result<String, DiskError> {
        match self.made.try_replace(String::new(self.rt.alloc())) {
            Ok(made) => Ok(made),
            Err(_) => Err(DiskError::Failed(EIO)),
        }
    }

    /// Right before a look at the name.
    pub fn before_look(&self, name: &[u8]) -> Result<(), DiskError> {
        self.note("look")?;
        match self.trick.get() {
            Trick::Look(error) => Err(error),
            Trick::Blind if ends_with(name, "d") => Err(DiskError::Absent),
            _ => Ok(()),
        }
    }

    /// Right before the name is opened.
    pub fn before_open(&self, path: &[u8]) -> Result<(), DiskError> {
        match self.trick.get() {
            Trick::Replace if ends_with(path, "a") => done(self.replace()),
            Trick::Shut => Err(DiskError::Failed(EACCES)),
            Trick::Blind if ends_with(path, "d") => Err(DiskError::Absent),
            _ => Ok(()),
        }
    }

    /// Replaces the file `a` by a link.
    fn replace(&self) -> io::Result<()> {
        let place = place_of(self.rt.alloc(), self.root.as_str(), "a")?;
        fs::remove_file(&self.rt, place.as_str())?;
        symlink(&self.rt, "e", place.as_str())
    }

    /// Right before the folder is removed.
    pub fn before_rmdir(&self, name: &[u8]) -> Result<(), DiskError> {
        match self.trick.get() {
            Trick::Enter if ends_with(name, "d") => done(self.write("d/late")),
            _ => Ok(()),
        }
    }

    /// Right before something is renamed to that.
    pub fn before_rename(&self, to: &[u8]) -> Result<(), DiskError> {
        match self.trick.get() {
            Trick::Arrive if ends_with(to, "b") => done(self.write("b")),
            Trick::Rename(error) => Err(error),
            _ => Ok(()),
        }
    }

    /// Makes a file there.
    fn write(&self, name: &str) -> io::Result<()> {
        let place = place_of(self.rt.alloc(), self.root.as_str(), name)?;
        fs::write(&self.rt, place.as_str(), "late")
    }

    /// Right before something is set of the name.
    pub fn before_set(&self, path: &[u8]) -> Result<(), DiskError> {
        match self.trick.get() {
            Trick::Shut if ends_with(path, "e") => Err(DiskError::Failed(EPERM)),
            _ => Ok(()),
        }
    }
}
