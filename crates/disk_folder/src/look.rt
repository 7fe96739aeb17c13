//! Looks at what stands at a name.

ghost use Rattle.std.specs.Prelude.{◌≡◌, ◌++◌, ◌∷◌, [], OnOk, IfOk, IfErr};
ghost use Rattle.paths.specs.Prefixes.{Names};
ghost use Rattle.backing.specs.Tree.{Tree};
ghost use Rattle.disk.specs.Answers.{IsStat};
ghost use Rattle.disk.specs.Names.{IsLawfulName};
ghost use Rattle.disk_folder.specs.Seen.{IsMissing, IsSeen};
ghost use Rattle.disk_folder.specs.Standing.{AllStand, IsEntry, IsFolderAt, IsHeldAt};
ghost use Rattle.disk_folder.specs.Troubles.{IsFailure};

use crate::open_cache::OpenCache;
use crate::opened::Entry;
use crate::trouble::{Reason, Trouble, failure};
use disk::{Disk, DiskError, FileId, Stat, is_lawful};
use errno::EINVAL;
use paths::Name;
use payload::{Details, Kind};

/// What stands there, as one look has shown it.
#[derive(Clone, Copy)]
pub struct Seen {
    pub kind: Kind,
    pub id: FileId,
    /// In bytes. What a system says of a folder is not told.
    pub size: u64,
    pub details: Details,
}

/// A folder can hold that name: else the call fails.
pub fn expect_lawful(name: &Name) -> Result<(), Trouble>
    ensures ok { OnOk result (IsLawfulName name.now) }
    ensures err { IfErr result IsFailure }
{
    if is_lawful(name.as_bytes()) {
        Ok(())
    } else {
        Err(Trouble::Failed(EINVAL))
    }
}

/// What the disk shows. That of which it shows no kind is absent to the folder.
fn expect_shown(stat: Stat) -> Result<Seen, Trouble>
    ensures ok { (at : Tree) (q : Names) → IsStat at q stat → IfOk result (IsSeen at q) }
    ensures err { (at : Tree) (q : Names) → IsStat at q stat → IfErr result (IsMissing at q) }
{
    match stat.kind {
        Some(kind) => Ok(Seen {
            kind,
            id: stat.id,
            size: stat.size,
            details: stat.details,
        }),
        None => Err(Trouble::Refused(Reason::Nothing)),
    }
}

/// One look at the name in the open folder.
pub fn look_in<D: Disk>(disk: &D, folder: &D::Handle, name: &Name) -> Result<Seen, Trouble>
    requires { IsLawfulName name.now }
    ensures ok { (up : Names) → D.stands disk.now folder.now up → IfOk result (IsSeen (D.tree disk.now) (up ++ name.now ∷ [])) }
    ensures err { (up : Names) → D.stands disk.now folder.now up → IfErr result (IsMissing (D.tree disk.now) (up ++ name.now ∷ [])) }
{
    match disk.look(folder, name) {
        Ok(stat) => expect_shown(stat),
        Err(DiskError::Absent) => Err(Trouble::Refused(Reason::Nothing)),
        Err(error) => Err(failure(error)),
    }
}

/// One look at what is open.
pub fn look_open<D: Disk>(disk: &D, handle: &D::Handle) -> Result<Seen, Trouble>
    ensures ok { (p : Names) → D.stands disk.now handle.now p → IfOk result (IsSeen (D.tree disk.now) p) }
    ensures err { (p : Names) → D.stands disk.now handle.now p → IfErr result (IsMissing (D.tree disk.now) p) }
{
    match disk.inspect(handle) {
        Ok(stat) => expect_shown(stat),
        Err(error) => Err(failure(error)),
    }
}

/// One look at the name.
pub fn look_only<D: Disk>(
    disk: &D,
    cache: &OpenCache<D::Handle>,
    entry: &Entry<'_, D::Handle>,
) -> Result<Seen, Trouble>
    requires { IsEntry cache.now entry.now }
    ensures ok { (up : Names) → IsFolderAt (D.tree disk.now) (D.stands disk.now) cache.now entry.now.folder up → IfOk result (IsSeen (D.tree disk.now) (up ++ entry.now.name.now ∷ [])) }
    ensures err { (up : Names) → IsFolderAt (D.tree disk.now) (D.stands disk.now) cache.now entry.now.folder up → IfErr result (IsMissing (D.tree disk.now) (up ++ entry.now.name.now ∷ [])) }
{
    look_in(disk, &cache.open(&entry.folder).handle, entry.name)
}

/// One look at the name. What is kept there stays if the look has shown that very one.
pub fn look_at<D: Disk>(
    disk: &D,
    cache: &mut OpenCache<D::Handle>,
    entry: &Entry<'_, D::Handle>,
) -> Result<Seen, Trouble>
    requires { IsEntry cache.old entry.now }
    ensures ok { (up : Names) → IsFolderAt (D.tree disk.now) (D.stands disk.now) cache.old entry.now.folder up → IfOk result (IsSeen (D.tree disk.now) (up ++ entry.now.name.now ∷ [])) }
    ensures err { (up : Names) → IsFolderAt (D.tree disk.now) (D.stands disk.now) cache.old entry.now.folder up → IfErr result (IsMissing (D.tree disk.now) (up ++ entry.now.name.now ∷ [])) }
    ensures stand { AllStand (D.tree disk.now) (D.stands disk.now) cache.old → AllStand (D.tree disk.now) (D.stands disk.now) cache.new }
    ensures held { (up : Names) → IsHeldAt cache.old entry.now.folder up → IsHeldAt cache.new entry.now.folder up }
{
    let looked = look_only(disk, cache, entry);
    let id = match &looked {
        Ok(seen) => Some(seen.id),
        Err(_) => None,
    };
    cache.settle(entry, id);
    looked
}
