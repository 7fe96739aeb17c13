//! One call of a folder, from its begin to what is told of it.

ghost use Rattle.std.specs.Prelude.{◌≡◌, ◌⊎◌, None, IfOk};
ghost use Rattle.paths.specs.Prefixes.{Names};
ghost use Rattle.path_cache.specs.Cache.{kept_at};
ghost use Rattle.backing.specs.Calls.{asked};
ghost use Rattle.disk_folder.specs.Attributes.{Lasts};
ghost use Rattle.disk_folder.specs.Ends.{Ends};
ghost use Rattle.backing.specs.declared.call.Answer.TheVariants.{Fault};
ghost use Rattle.disk_folder.specs.Explained.{Follows, IsUnserved};
ghost use Rattle.disk_folder.specs.Troubles.{reason_errno};
ghost use Rattle.disk_folder.specs.Gives.{Granted, IsTold, IsUndone, IsUnlinked, is_granted};
ghost use Rattle.disk_folder.specs.Remembered.{IsListed};
ghost use Rattle.disk_folder.specs.Standing.{AllStand};
ghost use Rattle.disk_folder.specs.Suits.{Suits};

use crate::attributes::{set, sync};
use crate::explained::is_explained;
use crate::files::{read, set_len, write};
use crate::linking::link;
use crate::links::{make_link, read_link};
use crate::listed::Listed;
use crate::listing::list;
use crate::making::{make, make_dir};
use crate::moving::rename;
use crate::moving_new::rename_new;
use crate::open_cache::OpenCache;
use crate::removing::{remove, remove_dir};
use crate::stat::stat;
use crate::trouble::{Reason, Trouble};
use backing::{Answer, Call, Told};
use disk::{Change, Disk};
use errno::EINVAL;

/// How many files and folders the call may come to keep open.
fn names_of(call: Call<'_>) -> usize {
    match call {
        Call::Stat(path)
        | Call::List(path)
        | Call::Make { path, .. }
        | Call::MakeDir { path, .. }
        | Call::MakeLink { path, .. }
        | Call::Remove(path)
        | Call::RemoveDir(path)
        | Call::Read { path, .. }
        | Call::ReadLink(path)
        | Call::Write { path, .. }
        | Call::SetLen { path, .. }
        | Call::Sync(path)
        | Call::SetPermissions { path, .. }
        | Call::SetOwner { path, .. }
        | Call::SetTimes { path, .. } => path.len(),
        Call::Rename { from, to } | Call::RenameNew { from, to } | Call::Link { from, to } => {
            from.len().saturating_add(to.len())
        }
        Call::Exchange { .. } => 0,
    }
}

/// Reads the clock, hears whether others have moved or removed folders, and makes room for what the call may open.
pub fn begin<D: Disk>(disk: &D, cache: &mut OpenCache<D::Handle>, call: Call<'_>)
    ensures { (p : Names) → (kept_at cache.new.cache p ≡ kept_at cache.old.cache p) ⊎ (kept_at cache.new.cache p ≡ None) }
{
    cache.time = disk.now();
    let moves = disk.moves();
    if moves != cache.moves {
        cache.moves = moves;
        cache.epoch = cache.epoch.wrapping_add(1);
    }
    cache.make_room(names_of(call));
}

/// Hears of the folder that the call removed. One that it moved is heard of where that was counted.
pub fn note_own<D: Disk>(
    disk: &D,
    cache: &mut OpenCache<D::Handle>,
    call: Call<'_>,
    ended: &Result<Answer, Trouble>,
)
    ensures { cache.new.cache ≡ cache.old.cache }
{
    if matches!(call, Call::RemoveDir(_)) && ended.is_ok() {
        cache.hear_own(disk.moves());
    }
}

/// What the disk answers and does.
pub fn perform<D: Disk>(
    disk: &mut D,
    cache: &mut OpenCache<D::Handle>,
    listed: &mut Option<Listed>,
    spare: &mut Vec<u8>,
    call: Call<'_>,
) -> Result<Answer, Trouble>
    ensures suits { IfOk result (Suits (asked call.entry)) }
    ensures undone { IsUndone (asked call.entry) result }
    ensures ends { IsUnlinked (asked call.entry) result → AllStand (D.tree disk.old) (D.stands disk.old) cache.old → IsListed (D.tree disk.old) listed.old → Ends (D.tree disk.old) (asked call.entry) result (D.tree disk.new) }
    ensures stand { IsUnlinked (asked call.entry) result → AllStand (D.tree disk.old) (D.stands disk.old) cache.old → AllStand (D.tree disk.new) (D.stands disk.new) cache.new }
    ensures listed { IsUnlinked (asked call.entry) result → AllStand (D.tree disk.old) (D.stands disk.old) cache.old → IsListed (D.tree disk.old) listed.old → IsListed (D.tree disk.new) listed.new }
    ensures lasts { IsUnlinked (asked call.entry) result → AllStand (D.tree disk.old) (D.stands disk.old) cache.old → IfOk result (λ _. Lasts (D.has_set disk.new) (D.has_synced disk.new) (asked call.entry)) }
    ensures granted { AllStand (D.tree disk.old) (D.stands disk.old) cache.old → IfOk result (λ _. Granted (D.tree disk.old) (asked call.entry) (D.tree disk.new)) }
{
    match call {
        Call::Stat(path) => stat(disk, cache, listed, path),
        Call::List(path) => list(disk, cache, listed, path),
        Call::Read { path, offset, size } => read(disk, cache, spare, path, offset, size),
        Call::ReadLink(path) => read_link(disk, cache, path),
        Call::Sync(path) => sync(disk, cache, path),
        Call::Make { path, permissions } => make(disk, cache, listed, path, permissions),
        call => {
            *listed = None;
            perform_change(disk, cache, call)
        }
    }
}

/// The same for what changes something.
fn perform_change<D: Disk>(
    disk: &mut D,
    cache: &mut OpenCache<D::Handle>,
    call: Call<'_>,
) -> Result<Answer, Trouble>
    ensures suits { IfOk result (Suits (asked call.entry)) }
    ensures undone { IsUndone (asked call.entry) result }
    ensures ends { IsUnlinked (asked call.entry) result → AllStand (D.tree disk.old) (D.stands disk.old) cache.old → Ends (D.tree disk.old) (asked call.entry) result (D.tree disk.new) }
    ensures stand { IsUnlinked (asked call.entry) result → AllStand (D.tree disk.old) (D.stands disk.old) cache.old → AllStand (D.tree disk.new) (D.stands disk.new) cache.new }
    ensures lasts { IsUnlinked (asked call.entry) result → AllStand (D.tree disk.old) (D.stands disk.old) cache.old → IfOk result (λ _. Lasts (D.has_set disk.new) (D.has_synced disk.new) (asked call.entry)) }
    ensures granted { AllStand (D.tree disk.old) (D.stands disk.old) cache.old → IfOk result (λ _. Granted (D.tree disk.old) (asked call.entry) (D.tree disk.new)) }
{
    match call {
        Call::MakeDir { path, permissions } => make_dir(disk, cache, path, permissions),
        Call::MakeLink { path, text } => make_link(disk, cache, path, text),
        Call::Remove(path) => remove(disk, cache, path),
        Call::RemoveDir(path) => remove_dir(disk, cache, path),
        Call::Rename { from, to } => rename(disk, cache, from, to),
        Call::RenameNew { from, to } => rename_new(disk, cache, from, to),
        Call::Link { from, to } => link(disk, cache, from, to),
        Call::Write { path, offset, data } => write(disk, cache, path, offset, data),
        Call::SetLen { path, size } => set_len(disk, cache, path, size),
        Call::SetPermissions { path, permissions } => {
            set(disk, cache, path, Change::Permissions(permissions))
        }
        Call::SetOwner { path, uid, gid } => set(disk, cache, path, Change::Owner { uid, gid }),
        Call::SetTimes {
            path,
            accessed,
            modified,
        } => set(disk, cache, path, Change::Times { accessed, modified }),
        _ => Err(Trouble::Failed(EINVAL)),
    }
}

/// Whether it gave what stands somewhere a further name.
pub fn is_granted(call: Call<'_>, answer: &Answer) -> bool
    ensures { result ≡ is_granted (asked call.entry) answer.now }
{
    matches!(call, Call::Link { .. }) && matches!(answer, Answer::Done)
}

/// What is told of it: no failure where the call was done, or where what was found explains its error.
pub fn conclude(call: Call<'_>, ended: Result<Answer, Trouble>) -> Told
    requires suits { IfOk ended (Suits (asked call)) }
    requires undone { IsUndone (asked call) ended }
    ensures told { IsTold ended result }
    ensures follows { Follows (asked call.entry) result.failed result.answer }
    ensures unserved { IsUnserved (asked call.entry) result.failed result.answer }
{
    match ended {
        Ok(answer) => Told {
            answer,
            failed: false,
        },
        Err(Trouble::Refused(reason)) => refuse(call, reason),
        Err(Trouble::Failed(errno)) => Told::failure(errno),
    }
}

/// A refusal, which is a failure unless some tree explains it.
fn refuse(call: Call<'_>, reason: Reason) -> Told
    ensures answer { result.answer ≡ Fault (reason_errno reason) }
    ensures follows { Follows (asked call.entry) result.failed result.answer }
{
    Told {
        answer: Answer::Fault(reason.errno()),
        failed: !is_explained(call, reason),
    }
}
