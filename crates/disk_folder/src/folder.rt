//! A folder of a disk.

ghost use Rattle.std.specs.Prelude.{ℕ, ◌≡◌, ◌⊎◌, false, None, IfOk};
ghost use Rattle.backing.specs.Calls.{asked};
ghost use Rattle.disk_folder.specs.Attributes.{Lasts};
ghost use Rattle.disk_folder.specs.Ends.{Ends};
ghost use Rattle.disk_folder.specs.Remembered.{IsListed};
ghost use Rattle.disk_folder.specs.Standing.{AllStand};
ghost use Rattle.disk_folder.specs.Suits.{Suits};

use crate::calling::{begin, conclude, is_granted, note_own, perform};
use crate::listed::Listed;
use crate::open_cache::OpenCache;
use crate::opened::Open;
use backing::{Answer, Call, Calls};
use disk::{Access, Disk, DiskError};
use errno::ENOMEM;
use path_cache::PathCache;
use payload::Kind;
use std::hash::RandomState;
use std::marker::Model;
use std::mem::replace;

/// A shorter buffer is made anew in less time than it takes to keep it.
const WORTH_KEEPING: usize = 1024;

/// A folder of a disk, and all that is below it.
///
/// It shows what the disk shows: that of which the disk shows no kind is absent to it, wherever it stands in a path. A symbolic link
/// is read as its text, and never followed; a pipe, a socket or a device is never opened. Each call goes down from open folder to open
/// folder, each by one name. Folders and files that were come to stay open in a cache, the least recently used of which are closed for
/// room: a folder counts as used when it is looked at, which is once a second. A folder there is used as it is for a second after a look has shown it under its name, and then after one more look, unless
/// others who serve the same folder have moved or removed a folder since. A file there is used without a look.
///
/// What a list has looked at is told again to the calls that follow it, for a tenth of a second and as long as nothing is changed.
///
/// Two paths are not exchanged: that fails with EINVAL, whatever stands there. A move that is to replace nothing looks at its target
/// first: what somebody else makes there between that look and the move is replaced. A further name is given as the disk gives it, and
/// why it gives none is told as it says: a disk in memory, of which nothing has two names, fails with EPERM.
pub struct Folder<D: Disk + Drop> {
    disk: D,
    cache: OpenCache<D::Handle>,
    listed: Option<Listed>,
    /// A buffer for the next read of as many bytes. What stands in it is overwritten.
    spare: Vec<u8>,
    failures: u64,
    /// A LINK was granted: something has two names, so that no tree of paths says what stands in the folder.
    linked: bool,
}

impl<D: Disk + Drop> Drop for Folder<D> {
    // This is a call so that code that drops a folder is not checked for each of its parts.
    fn drop(self) {
        let Folder {
            disk: _,
            cache: _,
            listed: _,
            spare: _,
            failures: _,
            linked: _,
        } = self;
    }
}

impl<D: Disk + Drop> Model for Folder<D> {
    ghost use Rattle.std.specs.Prelude.{ℕ, ◌≡◌, Bool, false};
    ghost use Rattle.disk_folder.specs.Remembered.{IsListed};
    ghost use Rattle.disk_folder.specs.Standing.{AllStand};

    ghost Value = { D × ℕ × Bool };

    ghost view = { λ f. (f.disk, f.failures, f.linked) };

    ghost invariant = { λ f. D.honest → f.linked ≡ false → AllStand (D.tree f.disk) (D.stands f.disk) f.cache × IsListed (D.tree f.disk) f.listed };
}

/// What is kept open of the disk at first: its folder.
fn root_cache<D: Disk>(
    disk: &D,
    capacity: usize,
    seed: RandomState,
) -> Result<OpenCache<D::Handle>, DiskError>
    ensures { D.honest → IfOk result (AllStand (D.tree disk.now) (D.stands disk.now)) }
{
    let handle = disk.open_root()?;
    let id = disk.inspect(&handle)?.id;
    let root = Open {
        kind: Kind::Folder,
        id: Some(id),
        access: Access::Read,
        handle,
    };
    let Ok(cache) = PathCache::new(disk.alloc(), capacity, seed, root) else {
        return Err(DiskError::Failed(ENOMEM));
    };
    Ok(OpenCache {
        cache,
        capacity,
        time: disk.now(),
        moves: disk.moves(),
        epoch: 0,
    })
}

impl<D: Disk + Drop> Folder<D> {
    /// The folder of the disk. It keeps so many files and folders open at most, besides that one, and hashes by that seed.
    pub fn new(disk: D, capacity: usize, seed: RandomState) -> Result<Folder<D>, DiskError>
        ensures { IfOk result (λ folder. folder ≡ (disk, 0, false)) }
    {
        let cache = root_cache(&disk, capacity, seed)?;
        let spare = Vec::new(disk.alloc());
        Ok(Folder {
            disk,
            cache,
            listed: None,
            spare,
            failures: 0,
            linked: false,
        })
    }

    /// How many of its calls have failed.
    pub fn failures(&self) -> u64
        ensures { result ≡ self.now.1 }
    {
        self.failures
    }
}

impl<D: Disk + Drop> Calls for Folder<D> {
    ghost use Rattle.disk_folder.specs.Gives.{Gives, claims};
    ghost use Rattle.disk_folder.specs.CallLemmas.{gives_counts};

    ghost gives = { Gives (claims D.honest D.tree D.has_set D.has_synced) };

    ghost faults = { λ folder. folder.1 };

    ghost counts = { λ old new call answer given. gives_counts old.1 new.1 call answer given.tells };

    fn call(&mut self, call: Call<'_>) -> Answer {
        begin(&self.disk, &mut self.cache, call);
        let ended = perform(
            &mut self.disk,
            &mut self.cache,
            &mut self.listed,
            &mut self.spare,
            call,
        );
        note_own(&self.disk, &mut self.cache, call, &ended);
        let answer = conclude(call, ended).into_answer(&mut self.failures);
        let granted = is_granted(call, &answer);
        self.linked = self.linked | granted;
        answer
    }

    /// A long one is kept, in the place of the one before it. An empty one is left, since to clear a long one would take a while: the
    /// library does so byte by byte.
    fn offer_room(&mut self, buffer: &mut Vec<u8>) {
        if buffer.len() >= WORTH_KEEPING {
            self.spare = replace(buffer, Vec::new(self.disk.alloc()));
        }
    }
}
