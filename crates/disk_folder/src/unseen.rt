//! Moves of what no look has shown. Where a look would show all that a call meets, the call that succeeds says as much; where it says why
//! nothing was moved, nothing is answered here, and the move is asked for again behind looks.

ghost use Rattle.std.specs.Prelude.{◌≡◌, ◌++◌, ◌∷◌, [], IsTrue, IfOk, IfSome};
ghost use Rattle.paths.specs.Prefixes.{Names};
ghost use Rattle.backing.specs.declared.call.Answer.TheVariants.{Done};
ghost use Rattle.backing.specs.Calls.{AskRename, AskRenameNew};
ghost use Rattle.backing.specs.Tree.{Resolves};
ghost use Rattle.disk.specs.Answers.{AreApart};
ghost use Rattle.disk_folder.specs.Ends.{EndsOrStays};
ghost use Rattle.disk_folder.specs.Moving.{IsLost, MovesOrStays};
ghost use Rattle.disk_folder.specs.Standing.{AllStand, IsEntry, IsFolderAt, IsKeptEntry};

use crate::beside::kept_both;
use crate::following::{follow, note_told};
use crate::look::look_only;
use crate::open_cache::OpenCache;
use crate::opened::{Entry, Held, KeptEntry};
use crate::renaming::{expect_target, go_both, see_target};
use crate::trouble::Trouble;
use backing::Answer;
use disk::{Disk, DiskError};
use paths::Path;

/// Whether neither path leads to the other. Where both are as long that one comparison tells.
fn are_apart(from: &Path, to: &Path) -> bool
    ensures { IsTrue result → AreApart from.now to.now }
{
    if from.is_prefix_of(to) {
        return false;
    }
    if from.len() == to.len() {
        return true;
    }
    !to.is_prefix_of(from)
}

/// Whether a call that succeeds says all that looks would show: nothing is hidden from it, and both paths may be.
fn needs_no_look<D: Disk>(disk: &D, from: &Path, to: &Path) -> bool
    ensures { IsTrue result → AreApart from.now to.now }
{
    disk.shows_all() && are_apart(from, to)
}

/// The failure of a call that may have been done. Any other error says why nothing was changed.
fn lost(error: DiskError) -> Option<Trouble>
    ensures { IsLost error result }
{
    match error {
        DiskError::Failed(errno) => Some(Trouble::Failed(errno)),
        DiskError::Absent
        | DiskError::Exists
        | DiskError::NotFolder
        | DiskError::IsFolder
        | DiskError::NotEmpty => None,
    }
}

/// Renames from an open folder to an open folder. Where the system failed, all is closed.
fn move_unheard<D: Disk>(
    disk: &mut D,
    cache: &mut OpenCache<D::Handle>,
    source: &Entry<'_, D::Handle>,
    target: &Entry<'_, D::Handle>,
) -> Option<Result<Answer, Trouble>>
    requires source { IsEntry cache.old source.now }
    requires target { IsEntry cache.old target.now }
    ensures suits { IfSome result (λ ended. IfOk ended (λ answer. answer ≡ Done)) }
    ensures moves { (up up' : Names) → IsFolderAt (D.tree disk.old) (D.stands disk.old) cache.old source.now.folder up → IsFolderAt (D.tree disk.old) (D.stands disk.old) cache.old target.now.folder up' → AreApart (up ++ source.now.name.now ∷ []) (up' ++ target.now.name.now ∷ []) → MovesOrStays (D.tree disk.old) (D.stands disk.old) (up ++ source.now.name.now ∷ []) (up' ++ target.now.name.now ∷ []) result (D.tree disk.new) (D.stands disk.new) }
    ensures stand { (up up' : Names) → IsFolderAt (D.tree disk.old) (D.stands disk.old) cache.old source.now.folder up → IsFolderAt (D.tree disk.old) (D.stands disk.old) cache.old target.now.folder up' → AreApart (up ++ source.now.name.now ∷ []) (up' ++ target.now.name.now ∷ []) → AllStand (D.tree disk.new) (D.stands disk.new) cache.new }
{
    match disk.rename(
        &cache.open(&source.folder).handle,
        source.name,
        &cache.open(&target.folder).handle,
        target.name,
    ) {
        Ok(()) => {
            follow(disk, cache, source, target);
            Some(Ok(Answer::Done))
        }
        Err(error) => match lost(error) {
            Some(trouble) => {
                cache.clear();
                Some(Err(trouble))
            }
            None => None,
        },
    }
}

/// The same, and others who serve the folder hear where a folder is moved: where there are any, one look at the source tells.
fn move_in<D: Disk>(
    disk: &mut D,
    cache: &mut OpenCache<D::Handle>,
    source: &Entry<'_, D::Handle>,
    target: &Entry<'_, D::Handle>,
) -> Option<Result<Answer, Trouble>>
    requires source { IsEntry cache.old source.now }
    requires target { IsEntry cache.old target.now }
    ensures suits { IfSome result (λ ended. IfOk ended (λ answer. answer ≡ Done)) }
    ensures moves { (up up' : Names) → IsFolderAt (D.tree disk.old) (D.stands disk.old) cache.old source.now.folder up → IsFolderAt (D.tree disk.old) (D.stands disk.old) cache.old target.now.folder up' → AreApart (up ++ source.now.name.now ∷ []) (up' ++ target.now.name.now ∷ []) → MovesOrStays (D.tree disk.old) (D.stands disk.old) (up ++ source.now.name.now ∷ []) (up' ++ target.now.name.now ∷ []) result (D.tree disk.new) (D.stands disk.new) }
    ensures stand { (up up' : Names) → IsFolderAt (D.tree disk.old) (D.stands disk.old) cache.old source.now.folder up → IsFolderAt (D.tree disk.old) (D.stands disk.old) cache.old target.now.folder up' → AreApart (up ++ source.now.name.now ∷ []) (up' ++ target.now.name.now ∷ []) → AllStand (D.tree disk.new) (D.stands disk.new) cache.new }
{
    if !disk.is_shared() {
        return move_unheard(disk, cache, source, target);
    }
    match look_only(disk, cache, source) {
        Ok(seen) => {
            let moved = move_unheard(disk, cache, source, target);
            note_told(disk, cache, seen.kind, &moved);
            moved
        }
        Err(_) => None,
    }
}

/// Renames, to a path to which folders lead.
fn move_both<D: Disk>(
    disk: &mut D,
    cache: &mut OpenCache<D::Handle>,
    from: &Path,
    to: &Path,
) -> Option<Result<Answer, Trouble>>
    requires { AreApart from.now to.now }
    ensures suits { IfSome result (λ ended. IfOk ended (λ answer. answer ≡ Done)) }
    ensures moves { AllStand (D.tree disk.old) (D.stands disk.old) cache.old → Resolves (D.tree disk.old) to.now → MovesOrStays (D.tree disk.old) (D.stands disk.old) from.now to.now result (D.tree disk.new) (D.stands disk.new) }
    ensures stand { AllStand (D.tree disk.old) (D.stands disk.old) cache.old → Resolves (D.tree disk.old) to.now → AllStand (D.tree disk.new) (D.stands disk.new) cache.new }
{
    match go_both(disk, cache, from, to) {
        Ok((source, target)) => move_in(disk, cache, &source, &target),
        Err(_) => None,
    }
}

/// Renames, to a path to which folders lead where the way to it shows that.
fn move_behind<D: Disk>(
    disk: &mut D,
    cache: &mut OpenCache<D::Handle>,
    from: &Path,
    to: &Path,
) -> Option<Result<Answer, Trouble>>
    requires { AreApart from.now to.now }
    ensures suits { IfSome result (λ ended. IfOk ended (λ answer. answer ≡ Done)) }
    ensures ends { AllStand (D.tree disk.old) (D.stands disk.old) cache.old → EndsOrStays (D.tree disk.old) (AskRename from.now to.now) result (D.tree disk.new) }
    ensures stand { AllStand (D.tree disk.old) (D.stands disk.old) cache.old → AllStand (D.tree disk.new) (D.stands disk.new) cache.new }
{
    match expect_target(disk, cache, to) {
        Ok(()) => move_both(disk, cache, from, to),
        Err(_) => None,
    }
}

/// Renames from a kept folder to a kept folder.
fn move_kept<D: Disk>(
    disk: &mut D,
    cache: &mut OpenCache<D::Handle>,
    source: KeptEntry<'_>,
    target: KeptEntry<'_>,
) -> Option<Result<Answer, Trouble>>
    requires source { (p : Names) × IsKeptEntry cache.old source p }
    requires target { (p : Names) × IsKeptEntry cache.old target p }
    ensures suits { IfSome result (λ ended. IfOk ended (λ answer. answer ≡ Done)) }
    ensures ends { (from to : Names) → IsKeptEntry cache.old source.entry from → IsKeptEntry cache.old target.entry to → AreApart from to → AllStand (D.tree disk.old) (D.stands disk.old) cache.old → EndsOrStays (D.tree disk.old) (AskRename from to) result (D.tree disk.new) }
    ensures stand { (from to : Names) → IsKeptEntry cache.old source.entry from → IsKeptEntry cache.old target.entry to → AreApart from to → AllStand (D.tree disk.old) (D.stands disk.old) cache.old → AllStand (D.tree disk.new) (D.stands disk.new) cache.new }
{
    let source = Entry {
        folder: Held::Kept(source.folder),
        name: source.name,
    };
    let target = Entry {
        folder: Held::Kept(target.folder),
        name: target.name,
    };
    move_in(disk, cache, &source, &target)
}

/// Gives what stands at the one path the other one, where no look has to say what hinders it: one call.
pub fn rename_unseen<D: Disk>(
    disk: &mut D,
    cache: &mut OpenCache<D::Handle>,
    from: &Path,
    to: &Path,
) -> Option<Result<Answer, Trouble>>
    ensures suits { IfSome result (λ ended. IfOk ended (λ answer. answer ≡ Done)) }
    ensures ends { AllStand (D.tree disk.old) (D.stands disk.old) cache.old → EndsOrStays (D.tree disk.old) (AskRename from.now to.now) result (D.tree disk.new) }
    ensures stand { AllStand (D.tree disk.old) (D.stands disk.old) cache.old → AllStand (D.tree disk.new) (D.stands disk.new) cache.new }
{
    if !needs_no_look(disk, from, to) {
        return None;
    }
    match kept_both(cache, from, to) {
        None => move_behind(disk, cache, from, to),
        Some((source, target)) => move_kept(disk, cache, source, target),
    }
}

/// Gives what stands at the one path the other one, where no look at it is needed: a look at the other one, at which nothing is to stand, and one call.
pub fn rename_new_unseen<D: Disk>(
    disk: &mut D,
    cache: &mut OpenCache<D::Handle>,
    from: &Path,
    to: &Path,
) -> Option<Result<Answer, Trouble>>
    ensures suits { IfSome result (λ ended. IfOk ended (λ answer. answer ≡ Done)) }
    ensures ends { AllStand (D.tree disk.old) (D.stands disk.old) cache.old → EndsOrStays (D.tree disk.old) (AskRenameNew from.now to.now) result (D.tree disk.new) }
    ensures stand { AllStand (D.tree disk.old) (D.stands disk.old) cache.old → AllStand (D.tree disk.new) (D.stands disk.new) cache.new }
{
    if !needs_no_look(disk, from, to) {
        return None;
    }
    match see_target(disk, cache, to) {
        Ok(taken) => {
            if taken {
                return None;
            }
            move_both(disk, cache, from, to)
        }
        Err(_) => None,
    }
}
