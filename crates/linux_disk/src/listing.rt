//! The names in a folder.

ghost use Rattle.std.specs.Prelude.{IfOk, OnOk};
ghost use Rattle.linux_disk.specs.Below.{HoldsOfOpen};
ghost use Rattle.linux_disk.specs.Held.{held_value};
ghost use Rattle.linux_disk.specs.Listings.{AddsName, AddsPart, ListsAll, ReadsNext};

use crate::calls::SystemCalls;
use crate::handle::Handle;
use crate::linux::Linux;
use crate::store::FileStore;
use disk::{DiskError, is_lawful};
use errno::{EIO, ENOMEM};
use paths::Name;
use std::alloc::{AllocError, Global};
use terms::Names;

/// So many bytes of names are asked for at once.
const NAMES_ROOM: usize = 32_768;

impl<C: SystemCalls + Drop, S: FileStore<Fd = C::Fd> + Drop> Linux<C, S> {
    /// The names in the folder: one to which a way leads is opened for that.
    pub(crate) fn list_in(
        &self,
        buffer: &mut Vec<u8>,
        dir: &Handle<C>,
    ) -> Result<Vec<Name>, DiskError>
        ensures { IfOk result (λ names. HoldsOfOpen C.did C.guards (C.stamp (held_value dir.now.held)) (C.number (held_value dir.now.held)) dir.now.below (λ stamp. ListsAll (C.names self.now.calls) C.begins C.advances stamp names.items)) }
    {
        match &dir.below {
            None => self.list_open(buffer, dir.fd()),
            Some(way) => {
                let fd = self.open_now(dir.fd(), way)?;
                self.list_open(buffer, &fd)
            }
        }
    }

    /// The names that are shown, but `.` and `..`: `lseek`, and `getdents` until there is none.
    fn list_open(&self, buffer: &mut Vec<u8>, dir: &C::Fd) -> Result<Vec<Name>, DiskError>
        ensures { IfOk result (λ names. ListsAll (C.names self.now.calls) C.begins C.advances (C.stamp dir.now) names.items) }
    {
        let mut at = self.calls.rewind(dir)?;
        let mut names = Vec::new(self.alloc);
        for _part in 0..u64::MAX {
            if !read_names(&self.calls, dir, &mut at, buffer, &mut names)? {
                return Ok(names);
            }
        }
        Err(DiskError::Failed(EIO))
    }

    /// The buffer that is kept, or a new one.
    pub(crate) fn names_room(&self) -> Result<Vec<u8>, DiskError> {
        match self.names.take() {
            Some(room) => Ok(room),
            None => match vec![in self.alloc; 0u8; NAMES_ROOM] {
                Ok(room) => Ok(room),
                Err(_) => Err(DiskError::Failed(ENOMEM)),
            },
        }
    }
}

/// Reads the next names, and adds them. It answers whether there were any.
fn read_names<C: SystemCalls>(
    calls: &C,
    dir: &C::Fd,
    at: &mut C::Cursor,
    buffer: &mut Vec<u8>,
    names: &mut Vec<Name>,
) -> Result<bool, DiskError>
    ensures { IfOk result (ReadsNext (C.names calls.now) C.advances at.old at.new names.old.items names.new.items) }
{
    let n = calls.next_names(dir, at, buffer)?;
    match push_names(calls.names(), names, &buffer[..n]) {
        Ok(()) => Ok(n != 0),
        Err(_) => Err(DiskError::Failed(ENOMEM)),
    }
}

/// Adds the names, each of which has a NUL behind it.
fn push_names(shown: Names, names: &mut Vec<Name>, listed: &[u8]) -> Result<(), AllocError>
    ensures { OnOk result (AddsPart shown listed.now names.old.items names.new.items) }
{
    let mut at = 0;
    while at < listed.len() {
        let (_, rest) = listed.split_at(at);
        let n = os::name_length(rest);
        let (name, _) = rest.split_at(n);
        push_name(shown, names, name)?;
        at += n + 1;
    }
    Ok(())
}

/// Adds the name, if it is one and spelled as those that are shown.
fn push_name(shown: Names, names: &mut Vec<Name>, name: &[u8]) -> Result<(), AllocError>
    ensures { OnOk result (AddsName shown name.now names.old.items names.new.items) }
{
    if !is_lawful(name) || !shown.takes(name) {
        return Ok(());
    }
    let name = Name::copy_of(*names.allocator(), name)?;
    names.push(name)?;
    Ok(())
}
