//! One call on a list of entries.

ghost use Rattle.std.specs.Prelude.{◌≡◌, List};
ghost use Rattle.backing.specs.Calls.{asked};
ghost use Rattle.backing.specs.Entries.{tree_of, IsEntryTree};
ghost use Rattle.backing.specs.Refusals.{Ends, answered, errno_after, settled};
ghost use Rattle.backing.specs.Device.{Sound, After};
ghost use Rattle.backing.specs.Memory.{Treated, PutsDir, PutsFile, PutsSpecial, device_of, treated_as};

use crate::call::{Answer, Call};
use crate::details::set_details;
use crate::entries::{Item, TreeEntry};
use crate::exchanging::exchange;
use crate::linking::link;
use crate::making::{make, make_dir, make_link, put};
use crate::moving::{rename, rename_new};
use crate::plans::PlannedFault;
use crate::reading::{list, read, read_link, stat, sync};
use crate::refusal::Refusal;
use crate::removing::{remove, remove_dir};
use crate::told::Told;
use crate::writing::{set_len, write};
use errno::ENOMEM;
use paths::Path;
use payload::Special;
use std::alloc::Global;

/// The answer and the effect of the tree itself.
pub fn perform(
    alloc: Global,
    entries: &mut Vec<TreeEntry>,
    call: Call<'_>,
) -> Result<Answer, Refusal>
    requires { IsEntryTree entries.old.items }
    ensures ends { Ends (tree_of entries.old.items) (asked call.entry) result (tree_of entries.new.items) }
    ensures lawful { IsEntryTree entries.new.items }
{
    match call {
        Call::Stat(path) => stat(entries, path),
        Call::List(path) => list(alloc, entries, path),
        Call::Make { path, .. } => make(alloc, entries, path),
        Call::MakeDir { path, .. } => make_dir(entries, path),
        Call::MakeLink { path, text } => make_link(alloc, entries, path, text),
        Call::Remove(path) => remove(entries, path),
        Call::RemoveDir(path) => remove_dir(entries, path),
        Call::Rename { from, to } => rename(alloc, entries, from, to),
        Call::RenameNew { from, to } => rename_new(alloc, entries, from, to),
        Call::Exchange { first, second } => exchange(alloc, entries, first, second),
        Call::Link { from, to } => link(entries, from, to),
        Call::Read { path, offset, size } => read(alloc, entries, path, offset, size),
        Call::ReadLink(path) => read_link(alloc, entries, path),
        Call::Write { path, offset, data } => write(entries, path, offset, data),
        Call::SetLen { path, size } => set_len(entries, path, size),
        Call::Sync(path) => sync(entries, path),
        Call::SetPermissions { path, .. } => set_details(entries, path),
        Call::SetOwner { path, .. } => set_details(entries, path),
        Call::SetTimes { path, .. } => set_details(entries, path),
    }
}

/// A call on the device, for which this failure is planned.
pub fn treat(
    alloc: Global,
    entries: &mut Vec<TreeEntry>,
    fault: Option<PlannedFault>,
    call: Call<'_>,
) -> Told
    requires { IsEntryTree entries.old.items }
    ensures treated { Treated (tree_of entries.old.items) (treated_as fault) (asked call.entry) result (tree_of entries.new.items) }
    ensures lawful { IsEntryTree entries.new.items }
{
    match fault {
        None => treat_soundly(alloc, entries, call),
        Some(fault) => treat_as_planned(alloc, entries, fault, call),
    }
}

/// A call that fails as planned.
fn treat_as_planned(
    alloc: Global,
    entries: &mut Vec<TreeEntry>,
    fault: PlannedFault,
    call: Call<'_>,
) -> Told
    requires { IsEntryTree entries.old.items }
    ensures treated { Treated (tree_of entries.old.items) (device_of fault) (asked call.entry) result (tree_of entries.new.items) }
    ensures lawful { IsEntryTree entries.new.items }
{
    match fault {
        PlannedFault::Before(errno) => Told::failure(errno),
        PlannedFault::After(errno) => treat_and_fail(alloc, entries, errno, call),
    }
}

/// A call that fails only if memory is refused.
fn treat_soundly(alloc: Global, entries: &mut Vec<TreeEntry>, call: Call<'_>) -> Told
    requires { IsEntryTree entries.old.items }
    ensures treated { Treated (tree_of entries.old.items) Sound (asked call.entry) result (tree_of entries.new.items) }
    ensures lawful { IsEntryTree entries.new.items }
{
    let ended = perform(alloc, entries, call);
    match answered(ended) {
        Some(answer) => Told {
            answer,
            failed: false,
        },
        None => Told::failure(ENOMEM),
    }
}

/// The tree's own answer, which may be a refusal, or none if memory was refused.
fn answered(ended: Result<Answer, Refusal>) -> Option<Answer>
    ensures { result ≡ answered ended }
{
    match ended {
        Ok(answer) => Some(answer),
        Err(Refusal::Errno(errno)) => Some(Answer::Fault(errno)),
        Err(Refusal::Memory) => None,
    }
}

/// A call that does its work and fails.
fn treat_and_fail(alloc: Global, entries: &mut Vec<TreeEntry>, errno: i32, call: Call<'_>) -> Told
    requires { IsEntryTree entries.old.items }
    ensures treated { Treated (tree_of entries.old.items) (After errno) (asked call.entry) result (tree_of entries.new.items) }
    ensures lawful { IsEntryTree entries.new.items }
{
    let ended = perform(alloc, entries, call);
    Told::failure(errno_after(ended, errno))
}

/// The error number of a call that fails after its work: out of memory takes precedence.
fn errno_after(ended: Result<Answer, Refusal>, errno: i32) -> i32
    ensures { result ≡ errno_after ended errno }
{
    match ended {
        Ok(_) => errno,
        Err(Refusal::Errno(_)) => errno,
        Err(Refusal::Memory) => ENOMEM,
    }
}

/// Adds a folder, without making a call.
pub fn put_dir_in(entries: &mut Vec<TreeEntry>, path: &Path) -> Result<(), i32>
    requires { IsEntryTree entries.old.items }
    ensures puts { PutsDir (tree_of entries.old.items) path.now result (tree_of entries.new.items) }
    ensures lawful { IsEntryTree entries.new.items }
{
    settle(make_dir(entries, path))
}

/// Adds a file, without making a call.
pub fn put_file_in(
    alloc: Global,
    entries: &mut Vec<TreeEntry>,
    path: &Path,
    bytes: &[u8],
) -> Result<(), i32>
    requires { IsEntryTree entries.old.items }
    ensures puts { PutsFile (tree_of entries.old.items) path.now bytes.now result (tree_of entries.new.items) }
    ensures lawful { IsEntryTree entries.new.items }
{
    match settle(make(alloc, entries, path)) {
        Ok(()) => {}
        Err(errno) => return Err(errno),
    }
    settle(write(entries, path, 0, bytes))
}

/// Adds something special, without making a call.
pub fn put_special_in(
    entries: &mut Vec<TreeEntry>,
    path: &Path,
    special: Special,
) -> Result<(), i32>
    requires { IsEntryTree entries.old.items }
    ensures puts { PutsSpecial (tree_of entries.old.items) path.now special result (tree_of entries.new.items) }
    ensures lawful { IsEntryTree entries.new.items }
{
    match put(entries, path, Item::Special(special)) {
        Ok(()) => Ok(()),
        Err(refusal) => Err(refusal.errno()),
    }
}

/// Whether it was done, or its error number.
fn settle(ended: Result<Answer, Refusal>) -> Result<(), i32>
    ensures { result ≡ settled ended }
{
    match ended {
        Ok(_) => Ok(()),
        Err(refusal) => Err(refusal.errno()),
    }
}
