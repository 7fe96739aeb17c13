//! Calls that make files and folders.

ghost use Rattle.std.specs.Prelude.{◌≡◌, ◌++◌, ◌∷◌, [], Some, IfOk, IfSome};
ghost use Rattle.std.specs.Option.{option_map};
ghost use Rattle.paths.specs.Prefixes.{Names};
ghost use Rattle.backing.specs.declared.call.Answer.TheVariants.{Done};
ghost use Rattle.payload.specs.declared.attributes.Kind.TheVariants as kinds;
ghost use Rattle.backing.specs.Calls.{AskMake, AskMakeDir};
ghost use Rattle.backing.specs.Tree.{kind_of};
ghost use Rattle.disk_folder.specs.Changes.{IsTaken, IsWhyNotMade, done};
ghost use Rattle.disk_folder.specs.Ends.{Ends};
ghost use Rattle.disk_folder.specs.Remembered.{IsListed};
ghost use Rattle.disk_folder.specs.Seen.{IsSeen};
ghost use Rattle.disk_folder.specs.Standing.{AllStand, IsEntry, IsFolderAt, IsHeldAt};
ghost use Rattle.disk_folder.specs.Suits.{Suits};

use crate::listed::{Listed, Moment, remember_one};
use crate::look::{Seen, look_only, look_open};
use crate::open_cache::OpenCache;
use crate::opened::{Entry, Open};
use crate::trouble::{Reason, Trouble, failure};
use crate::walk::go_above;
use backing::Answer;
use disk::{Access, Disk, DiskError};
use errno::EEXIST;
use paths::Path;
use payload::Kind;

/// Why the name is taken: one look tells what the disk shows from what is hidden, which makes the call fail.
fn why_taken<D: Disk>(
    disk: &D,
    cache: &OpenCache<D::Handle>,
    entry: &Entry<'_, D::Handle>,
) -> Trouble
    requires { IsEntry cache.now entry.now }
    ensures { IsTaken result }
{
    match look_only(disk, cache, entry) {
        Ok(_) => Trouble::Refused(Reason::Taken),
        Err(_) => Trouble::Failed(EEXIST),
    }
}

/// Why nothing was made at the name.
pub fn why_not_made<D: Disk>(
    disk: &D,
    cache: &OpenCache<D::Handle>,
    entry: &Entry<'_, D::Handle>,
    error: DiskError,
) -> Trouble
    requires { IsEntry cache.now entry.now }
    ensures { IsWhyNotMade error result }
{
    match error {
        DiskError::Exists => why_taken(disk, cache, entry),
        error => failure(error),
    }
}

/// Keeps the file that was made, unless the system itself does, behind a look at it. Where it cannot be kept it is closed.
fn keep_made<D: Disk>(
    disk: &D,
    cache: &mut OpenCache<D::Handle>,
    entry: &Entry<'_, D::Handle>,
    handle: D::Handle,
) -> Option<Seen>
    ensures seen { (q : Names) → D.stands disk.now handle q → IfSome result (IsSeen (D.tree disk.now) q) }
    ensures stand { (up : Names) → IsHeldAt cache.old entry.now.folder up → D.stands disk.now handle (up ++ entry.now.name.now ∷ []) → option_map kind_of (D.tree disk.now (up ++ entry.now.name.now ∷ [])) ≡ Some kinds.File → AllStand (D.tree disk.now) (D.stands disk.now) cache.old → AllStand (D.tree disk.now) (D.stands disk.now) cache.new }
{
    if disk.keeps_files() {
        return None;
    }
    match look_open(disk, &handle) {
        Ok(seen) => {
            let opened = Open {
                kind: Kind::File,
                id: Some(seen.id),
                access: Access::Write,
                handle,
            };
            let _ = cache.keep(entry, opened);
            Some(seen)
        }
        Err(_) => None,
    }
}

/// Makes an empty file in an open folder, and keeps it open: what a look has shown of it.
fn make_in<D: Disk>(
    disk: &mut D,
    cache: &mut OpenCache<D::Handle>,
    entry: &Entry<'_, D::Handle>,
    permissions: Option<u32>,
) -> Result<Option<Seen>, Trouble>
    requires { IsEntry cache.old entry.now }
    ensures seen { (up : Names) → IsFolderAt (D.tree disk.old) (D.stands disk.old) cache.old entry.now.folder up → IfOk result (λ made. IfSome made (IsSeen (D.tree disk.new) (up ++ entry.now.name.now ∷ []))) }
    ensures ends { (up : Names) → IsFolderAt (D.tree disk.old) (D.stands disk.old) cache.old entry.now.folder up → Ends (D.tree disk.old) (AskMake (up ++ entry.now.name.now ∷ []) permissions) (done result) (D.tree disk.new) }
    ensures stand { (up : Names) → IsFolderAt (D.tree disk.old) (D.stands disk.old) cache.old entry.now.folder up → AllStand (D.tree disk.new) (D.stands disk.new) cache.new }
{
    match disk.make_file(&cache.open(&entry.folder).handle, entry.name, permissions) {
        Ok(handle) => {
            let seen = keep_made(disk, cache, entry, handle);
            Ok(seen)
        }
        Err(error) => Err(why_not_made(disk, cache, entry, error)),
    }
}

/// Makes an empty file, and keeps it open. What a look has shown of it is remembered.
pub fn make<D: Disk>(
    disk: &mut D,
    cache: &mut OpenCache<D::Handle>,
    listed: &mut Option<Listed>,
    path: &Path,
    permissions: Option<u32>,
) -> Result<Answer, Trouble>
    ensures suits { IfOk result (Suits (AskMake path.now permissions)) }
    ensures ends { AllStand (D.tree disk.old) (D.stands disk.old) cache.old → Ends (D.tree disk.old) (AskMake path.now permissions) result (D.tree disk.new) }
    ensures stand { AllStand (D.tree disk.old) (D.stands disk.old) cache.old → AllStand (D.tree disk.new) (D.stands disk.new) cache.new }
    ensures listed { AllStand (D.tree disk.old) (D.stands disk.old) cache.old → IsListed (D.tree disk.new) listed.new }
{
    *listed = None;
    if path.len() == 0 {
        return Err(Trouble::Refused(Reason::Taken));
    }
    match go_above(disk, cache, path) {
        Ok(entry) => match make_in(disk, cache, &entry, permissions) {
            Ok(seen) => {
                let moment = Moment {
                    time: cache.time,
                    changes: disk.changes(),
                };
                *listed = remember_one(disk.alloc(), path, seen, moment);
                Ok(Answer::Done)
            }
            Err(trouble) => Err(trouble),
        },
        Err(trouble) => Err(trouble),
    }
}

/// Makes an empty folder in an open folder.
fn make_dir_in<D: Disk>(
    disk: &mut D,
    cache: &OpenCache<D::Handle>,
    entry: &Entry<'_, D::Handle>,
    permissions: Option<u32>,
) -> Result<Answer, Trouble>
    requires { IsEntry cache.now entry.now }
    ensures suits { IfOk result (λ answer. answer ≡ Done) }
    ensures ends { (up : Names) → IsFolderAt (D.tree disk.old) (D.stands disk.old) cache.now entry.now.folder up → Ends (D.tree disk.old) (AskMakeDir (up ++ entry.now.name.now ∷ []) permissions) result (D.tree disk.new) }
    ensures stand { (up : Names) → IsFolderAt (D.tree disk.old) (D.stands disk.old) cache.now entry.now.folder up → AllStand (D.tree disk.new) (D.stands disk.new) cache.now }
{
    match disk.make_dir(&cache.open(&entry.folder).handle, entry.name, permissions) {
        Ok(()) => Ok(Answer::Done),
        Err(error) => Err(why_not_made(disk, cache, entry, error)),
    }
}

/// Makes an empty folder.
pub fn make_dir<D: Disk>(
    disk: &mut D,
    cache: &mut OpenCache<D::Handle>,
    path: &Path,
    permissions: Option<u32>,
) -> Result<Answer, Trouble>
    ensures suits { IfOk result (Suits (AskMakeDir path.now permissions)) }
    ensures ends { AllStand (D.tree disk.old) (D.stands disk.old) cache.old → Ends (D.tree disk.old) (AskMakeDir path.now permissions) result (D.tree disk.new) }
    ensures stand { AllStand (D.tree disk.old) (D.stands disk.old) cache.old → AllStand (D.tree disk.new) (D.stands disk.new) cache.new }
{
    if path.len() == 0 {
        return Err(Trouble::Refused(Reason::Taken));
    }
    match go_above(disk, cache, path) {
        Ok(entry) => make_dir_in(disk, cache, &entry, permissions),
        Err(trouble) => Err(trouble),
    }
}
