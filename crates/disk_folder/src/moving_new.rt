//! Calls that move a name and replace nothing.

ghost use Rattle.std.specs.Prelude.{◌≡◌, ◌++◌, ◌∷◌, [], None, IsSome, IfOk};
ghost use Rattle.paths.specs.Prefixes.{Names};
ghost use Rattle.backing.specs.declared.call.Answer.TheVariants.{Done};
ghost use Rattle.backing.specs.Calls.{AskRenameNew};
ghost use Rattle.backing.specs.Tree.{Resolves};
ghost use Rattle.disk.specs.Answers.{AreApart};
ghost use Rattle.disk_folder.specs.Ends.{Ends};
ghost use Rattle.disk_folder.specs.Standing.{AllStand, IsEntry, IsFolderAt};
ghost use Rattle.disk_folder.specs.Suits.{Suits};

use crate::following::{follow, note_move};
use crate::open_cache::OpenCache;
use crate::opened::Entry;
use crate::renaming::{go_both, see_target};
use crate::stat::see;
use crate::trouble::{Reason, Trouble, failure};
use crate::unseen::rename_new_unseen;
use backing::Answer;
use disk::Disk;
use paths::Path;

/// Renames from an open folder to an open folder, in which nothing stands at the name. Where the system failed, all is closed.
fn rename_new_in<D: Disk>(
    disk: &mut D,
    cache: &mut OpenCache<D::Handle>,
    source: &Entry<'_, D::Handle>,
    target: &Entry<'_, D::Handle>,
) -> Result<Answer, Trouble>
    requires source { IsEntry cache.old source.now }
    requires target { IsEntry cache.old target.now }
    ensures suits { IfOk result (λ answer. answer ≡ Done) }
    ensures ends { (up up' : Names) → IsFolderAt (D.tree disk.old) (D.stands disk.old) cache.old source.now.folder up → IsFolderAt (D.tree disk.old) (D.stands disk.old) cache.old target.now.folder up' → AreApart (up ++ source.now.name.now ∷ []) (up' ++ target.now.name.now ∷ []) → D.tree disk.old (up' ++ target.now.name.now ∷ []) ≡ None → Ends (D.tree disk.old) (AskRenameNew (up ++ source.now.name.now ∷ []) (up' ++ target.now.name.now ∷ [])) result (D.tree disk.new) }
    ensures stand { (up up' : Names) → IsFolderAt (D.tree disk.old) (D.stands disk.old) cache.old source.now.folder up → IsFolderAt (D.tree disk.old) (D.stands disk.old) cache.old target.now.folder up' → AreApart (up ++ source.now.name.now ∷ []) (up' ++ target.now.name.now ∷ []) → AllStand (D.tree disk.new) (D.stands disk.new) cache.new }
{
    match disk.rename(
        &cache.open(&source.folder).handle,
        source.name,
        &cache.open(&target.folder).handle,
        target.name,
    ) {
        Ok(()) => {
            follow(disk, cache, source, target);
            Ok(Answer::Done)
        }
        Err(error) => {
            cache.clear();
            Err(failure(error))
        }
    }
}

/// Renames, where both paths may be, to a path to which folders lead and at which nothing stands.
fn rename_new_both<D: Disk>(
    disk: &mut D,
    cache: &mut OpenCache<D::Handle>,
    from: &Path,
    to: &Path,
) -> Result<Answer, Trouble>
    requires { AreApart from.now to.now }
    ensures suits { IfOk result (λ answer. answer ≡ Done) }
    ensures ends { AllStand (D.tree disk.old) (D.stands disk.old) cache.old → Resolves (D.tree disk.old) to.now → D.tree disk.old to.now ≡ None → Ends (D.tree disk.old) (AskRenameNew from.now to.now) result (D.tree disk.new) }
    ensures stand { AllStand (D.tree disk.old) (D.stands disk.old) cache.old → Resolves (D.tree disk.old) to.now → AllStand (D.tree disk.new) (D.stands disk.new) cache.new }
{
    match go_both(disk, cache, from, to) {
        Ok((source, target)) => rename_new_in(disk, cache, &source, &target),
        Err(trouble) => Err(trouble),
    }
}

/// Renames, where both paths may be, to a path at which nothing stands.
fn rename_new_apart<D: Disk>(
    disk: &mut D,
    cache: &mut OpenCache<D::Handle>,
    from: &Path,
    to: &Path,
) -> Result<Answer, Trouble>
    requires { AreApart from.now to.now }
    ensures suits { IfOk result (λ answer. answer ≡ Done) }
    ensures ends { AllStand (D.tree disk.old) (D.stands disk.old) cache.old → IsSome (D.tree disk.old from.now) → Ends (D.tree disk.old) (AskRenameNew from.now to.now) result (D.tree disk.new) }
    ensures stand { AllStand (D.tree disk.old) (D.stands disk.old) cache.old → AllStand (D.tree disk.new) (D.stands disk.new) cache.new }
{
    match see_target(disk, cache, to) {
        Ok(taken) => {
            if taken {
                return Err(Trouble::Refused(Reason::Taken));
            }
            rename_new_both(disk, cache, from, to)
        }
        Err(trouble) => Err(trouble),
    }
}

/// Gives what was seen at the one path the other one, at which nothing stands.
fn rename_new_seen<D: Disk>(
    disk: &mut D,
    cache: &mut OpenCache<D::Handle>,
    from: &Path,
    to: &Path,
) -> Result<Answer, Trouble>
    requires below { from.now ≡ [] → ⊥ }
    requires below_too { to.now ≡ [] → ⊥ }
    ensures suits { IfOk result (λ answer. answer ≡ Done) }
    ensures ends { AllStand (D.tree disk.old) (D.stands disk.old) cache.old → IsSome (D.tree disk.old from.now) → Ends (D.tree disk.old) (AskRenameNew from.now to.now) result (D.tree disk.new) }
    ensures stand { AllStand (D.tree disk.old) (D.stands disk.old) cache.old → AllStand (D.tree disk.new) (D.stands disk.new) cache.new }
{
    if from.is(to) {
        return Err(Trouble::Refused(Reason::Taken));
    }
    if from.is_prefix_of(to) {
        return Err(Trouble::Refused(Reason::Below));
    }
    if to.is_prefix_of(from) {
        return Err(Trouble::Refused(Reason::Names));
    }
    rename_new_apart(disk, cache, from, to)
}

/// Gives what stands at the one path the other one, at which nothing stands, behind a look.
fn rename_new_looking<D: Disk>(
    disk: &mut D,
    cache: &mut OpenCache<D::Handle>,
    from: &Path,
    to: &Path,
) -> Result<Answer, Trouble>
    requires below { from.now ≡ [] → ⊥ }
    requires below_too { to.now ≡ [] → ⊥ }
    ensures suits { IfOk result (λ answer. answer ≡ Done) }
    ensures ends { AllStand (D.tree disk.old) (D.stands disk.old) cache.old → Ends (D.tree disk.old) (AskRenameNew from.now to.now) result (D.tree disk.new) }
    ensures stand { AllStand (D.tree disk.old) (D.stands disk.old) cache.old → AllStand (D.tree disk.new) (D.stands disk.new) cache.new }
{
    match see(disk, cache, from) {
        Ok(seen) => {
            let moved = rename_new_seen(disk, cache, from, to);
            note_move(disk, cache, seen.kind, &moved);
            moved
        }
        Err(trouble) => Err(trouble),
    }
}

/// Gives what stands at the one path the other one, at which nothing stands: a look there and one call where both folders are open,
/// behind a look at the source where others serve the folder too, or not all kinds are shown.
pub fn rename_new<D: Disk>(
    disk: &mut D,
    cache: &mut OpenCache<D::Handle>,
    from: &Path,
    to: &Path,
) -> Result<Answer, Trouble>
    ensures suits { IfOk result (Suits (AskRenameNew from.now to.now)) }
    ensures ends { AllStand (D.tree disk.old) (D.stands disk.old) cache.old → Ends (D.tree disk.old) (AskRenameNew from.now to.now) result (D.tree disk.new) }
    ensures stand { AllStand (D.tree disk.old) (D.stands disk.old) cache.old → AllStand (D.tree disk.new) (D.stands disk.new) cache.new }
{
    if from.len() == 0 {
        return Err(Trouble::Refused(Reason::Root));
    }
    if to.len() == 0 {
        return Err(Trouble::Refused(Reason::Root));
    }
    match rename_new_unseen(disk, cache, from, to) {
        Some(ended) => ended,
        None => rename_new_looking(disk, cache, from, to),
    }
}
