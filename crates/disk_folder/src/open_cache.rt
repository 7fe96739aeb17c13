//! Files and folders that stay open from call to call, by their paths.

ghost use Rattle.std.specs.Prelude.{◌≡◌, ◌⊎◌, ◌++◌, ◌∷◌, [], Some, None, IfNone, IfSome, IfOk, IfErr};
ghost use Rattle.paths.specs.Prefixes.{Name, Names};
ghost use Rattle.backing.specs.Tree.{Tree};
ghost use Rattle.payload.specs.declared.attributes.Kind.TheVariants as kinds;
ghost use Rattle.disk_folder.specs.declared.opened.Held.{Held as HeldOf};
ghost use Rattle.disk_folder.specs.Troubles.{IsFailure};

use crate::opened::{Entry, Held, Open};
use crate::trouble::Trouble;
use disk::FileId;
use errno::ENOMEM;
use path_cache::{PathCache, Place};
use paths::Name;
use payload::Kind;

/// How long a folder is used without a look at it, in milliseconds: as long as a client trusts a name.
const TRUSTED: u64 = 1_000;

/// Of a time, so many bits are kept beside the epoch.
const TIME_BITS: u32 = 48;

const TIMES: u64 = (1 << TIME_BITS) - 1;

/// Whether both are known, and the same file or folder.
fn is_same(one: Option<FileId>, other: Option<FileId>) -> bool {
    match (one, other) {
        (Some(one), Some(other)) => one.is(&other),
        _ => false,
    }
}

/// What is kept open, and what is known of the time.
#[derive(Drop)]
pub struct OpenCache<H: Drop> {
    pub cache: PathCache<Open<H>>,
    /// How many are kept at most.
    pub capacity: usize,
    /// When the call was made, in milliseconds by the disk's clock.
    pub time: u64,
    /// How often folders had been removed or moved, as far as that was heard of.
    pub moves: u64,
    /// How often it was heard that others had done so. What was looked at in an earlier epoch may have been moved or removed since.
    pub epoch: u64,
}

impl<H: Drop> OpenCache<H> {
    ghost use Rattle.path_cache.specs.Cache.{kept_at, root_alone, IsAt, IsRelocated};
    ghost use Rattle.disk.specs.Answers.{AreApart};
    ghost use Rattle.disk_folder.specs.Standing.{open_of, kind_at, Forgets, NoneKept, IsHeld, IsHeldAt, IsOwn, Keeps, KeepsAll, Settles};

    /// What is open.
    pub fn open<'b>(&'b self, held: &'b Held<'_, H>) -> &'b Open<H>
        requires { IsHeld self.now held.now }
        ensures { open_of self.now held.now ≡ Some result.now }
    {
        match held {
            Held::Kept(place) => self.cache.value(*place),
            Held::Own(opened) => opened,
        }
    }

    /// Where the name is kept below the folder.
    pub fn child<'a>(&mut self, folder: &Held<'_, H>, name: &'a Name) -> Option<Place<'a>>
        ensures keeps { KeepsAll self.old self.new }
        ensures found { (up : Names) → IsHeldAt self.old folder.now up → IfSome result (λ place. IsAt self.new.cache place (up ++ name.now ∷ [])) }
        ensures none { (up : Names) → IsHeldAt self.old folder.now up → IfNone result (NoneKept self.new (up ++ name.now ∷ [])) }
    {
        match folder {
            Held::Kept(place) => self.cache.child(*place, name),
            Held::Own(_) => None,
        }
    }

    /// The epoch and the time of the call, in one number.
    fn stamp(&self) -> u64 {
        (self.epoch << TIME_BITS) | (self.time & TIMES)
    }

    /// What was looked at when that was the stamp was looked at a short time ago, and nobody else has moved or removed a folder since.
    fn is_trusted(&self, looked: u64) -> bool {
        let same_epoch = looked >> TIME_BITS == self.stamp() >> TIME_BITS;
        same_epoch && (looked & TIMES).saturating_add(TRUSTED) >= self.time & TIMES
    }

    /// Room for so many more, where the least recently used are closed.
    pub fn make_room(&mut self, n: usize)
        ensures { (p : Names) → (kept_at self.new.cache p ≡ kept_at self.old.cache p) ⊎ (kept_at self.new.cache p ≡ None) }
    {
        self.cache.make_room(n);
    }

    /// Where the name is kept in the folder there, as a folder that is used without a look at it.
    fn trusted_child<'a>(&self, folder: Place<'_>, name: &'a Name) -> Option<Place<'a>>
        ensures found { (up : Names) → IsAt self.now.cache folder.entry up → IfSome result (λ place. IsAt self.now.cache place (up ++ name.now ∷ [])) }
        ensures kind { IfSome result (λ place. kind_at self.now place ≡ Some kinds.Folder) }
    {
        let Some(found) = self.cache.peek(folder, name) else {
            return None;
        };
        match found.value.kind {
            Kind::File | Kind::Link | Kind::Special(_) => None,
            Kind::Folder => {
                if self.is_trusted(found.looked) {
                    Some(found.place)
                } else {
                    None
                }
            }
        }
    }

    /// Where the name is kept below the folder, as a folder that is used without a look at it. It counts as used since that look.
    pub fn trusted_folder<'a>(&self, folder: &Held<'_, H>, name: &'a Name) -> Option<Place<'a>>
        requires { IsHeld self.now folder.now }
        ensures found { (up : Names) → IsHeldAt self.now folder.now up → IfSome result (λ place. IsAt self.now.cache place (up ++ name.now ∷ [])) }
        ensures kind { IfSome result (λ place. kind_at self.now place ≡ Some kinds.Folder) }
    {
        match folder {
            Held::Kept(place) => self.trusted_child(*place, name),
            Held::Own(_) => None,
        }
    }

    /// Where the folder at the path is kept, if it and each one above it are used without a look.
    pub fn trusted_way<'a>(&self, names: &'a [Name]) -> Option<Place<'a>>
        ensures found { IfSome result (λ place. IsAt self.now.cache place names.now) }
        ensures kind { IfSome result (λ place. (names.now ≡ []) ⊎ (kind_at self.now place ≡ Some kinds.Folder)) }
    {
        let mut place = Place::Root;
        for name in names {
            match self.trusted_child(place, name) {
                Some(next) => place = next,
                None => return None,
            }
        }
        Some(place)
    }

    /// A look at the name has shown which file or folder stands there, or none: what is kept there stays if it is that one.
    pub fn settle(&mut self, entry: &Entry<'_, H>, id: Option<FileId>)
        requires { IsHeld self.old entry.now.folder }
        ensures { (up : Names) → IsHeldAt self.old entry.now.folder up → Settles self.old (up ++ entry.now.name.now ∷ []) self.new }
    {
        let Held::Kept(folder) = entry.folder else {
            return;
        };
        let Some(found) = self.cache.peek(folder, entry.name) else {
            return;
        };
        if is_same(found.value.id, id) {
            let (place, stamp) = (found.place, self.stamp());
            self.cache.touch(place, stamp);
        } else {
            self.cache.forget(folder, entry.name);
        }
    }

    /// What is kept at the name or below it is closed.
    pub fn forget(&mut self, entry: &Entry<'_, H>)
        ensures { (up : Names) → IsHeldAt self.old entry.now.folder up → Forgets self.old (up ++ entry.now.name.now ∷ []) self.new }
    {
        match entry.folder {
            Held::Kept(folder) => self.cache.forget(folder, entry.name),
            Held::Own(_) => {}
        }
    }

    /// What was opened at the name is held for the call alone, and nothing is kept there.
    pub fn hold<'a>(&mut self, entry: &Entry<'a, H>, opened: Open<H>) -> Held<'a, H>
        ensures held { (up : Names) → IsHeldAt self.old entry.now.folder up → IsHeldAt self.new result (up ++ entry.now.name.now ∷ []) }
        ensures keeps { (up : Names) → IsHeldAt self.old entry.now.folder up → Keeps self.old (up ++ entry.now.name.now ∷ []) opened self.new }
        ensures own { IsOwn opened result }
    {
        self.forget(entry);
        Held::Own(opened)
    }

    /// Keeps what was opened at the name, where there is room and its folder is kept. Want of memory is the only error.
    pub fn keep<'a>(
        &mut self,
        entry: &Entry<'a, H>,
        opened: Open<H>,
    ) -> Result<Held<'a, H>, Trouble>
        ensures held { (up : Names) → IsHeldAt self.old entry.now.folder up → IfOk result (λ held. IsHeldAt self.new held (up ++ entry.now.name.now ∷ [])) }
        ensures keeps { (up : Names) → IsHeldAt self.old entry.now.folder up → Keeps self.old (up ++ entry.now.name.now ∷ []) opened self.new }
        ensures own { IfOk result (IsOwn opened) }
        ensures err { IfErr result IsFailure }
    {
        match entry.folder {
            Held::Own(_) => Ok(self.hold(entry, opened)),
            Held::Kept(folder) => {
                if self.cache.len() >= self.capacity {
                    return Ok(self.hold(entry, opened));
                }
                let stamp = self.stamp();
                match self.cache.keep(folder, entry.name, opened, stamp) {
                    Some(place) => Ok(Held::Kept(place)),
                    None => Err(Trouble::Failed(ENOMEM)),
                }
            }
        }
    }

    /// Where the path is kept: no call of the system.
    pub fn recall<'a>(&mut self, names: &'a [Name]) -> Option<Place<'a>>
        ensures keeps { KeepsAll self.old self.new }
        ensures found { IfSome result (λ place. IsAt self.new.cache place names.now) }
        ensures none { IfNone result (NoneKept self.new names.now) }
    {
        let mut place = Place::Root;
        for name in names {
            match self.cache.child(place, name) {
                Some(next) => place = next,
                None => return None,
            }
        }
        Some(place)
    }

    /// What is kept under the one name is kept under the other one, with all below it, in the place of what is kept there.
    pub fn relocate(&mut self, source: &Entry<'_, H>, target: &Entry<'_, H>)
        ensures { (up above : Names) → IsHeldAt self.old source.now.folder up → IsHeldAt self.old target.now.folder above → AreApart (up ++ source.now.name.now ∷ []) (above ++ target.now.name.now ∷ []) → IsRelocated (kept_at self.old.cache) (up ++ source.now.name.now ∷ []) (above ++ target.now.name.now ∷ []) (kept_at self.new.cache) }
    {
        match source.folder {
            Held::Own(_) => self.forget(target),
            Held::Kept(from) => match target.folder {
                Held::Own(_) => self.forget(source),
                Held::Kept(to) => self.cache.relocate(from, source.name, to, target.name),
            },
        }
    }

    /// A move of our own, if that is all that was counted since the call began, is no reason to look once more at what is kept.
    pub fn hear_own(&mut self, moves: u64)
        ensures { self.new.cache ≡ self.old.cache }
    {
        if moves == self.moves.wrapping_add(1) {
            self.moves = moves;
        }
    }

    /// All but the root is closed.
    pub fn clear(&mut self)
        ensures { (p : Names) → kept_at self.new.cache p ≡ root_alone (kept_at self.old.cache) p }
    {
        self.cache.clear();
    }
}
