//! Calls that move names.

ghost use Rattle.std.specs.Prelude.{◌≡◌, ◌++◌, ◌∷◌, [], IsSome, IfOk};
ghost use Rattle.paths.specs.Prefixes.{Names};
ghost use Rattle.backing.specs.declared.call.Answer.TheVariants.{Done};
ghost use Rattle.backing.specs.Calls.{AskRename};
ghost use Rattle.backing.specs.Tree.{Resolves};
ghost use Rattle.disk.specs.Answers.{AreApart};
ghost use Rattle.disk_folder.specs.Ends.{Ends};
ghost use Rattle.disk_folder.specs.Standing.{AllStand, IsEntry, IsFolderAt};
ghost use Rattle.disk_folder.specs.Suits.{Suits};

use crate::following::{follow, note_move};
use crate::open_cache::OpenCache;
use crate::opened::Entry;
use crate::renaming::{expect_target, go_both, why_not_moved};
use crate::stat::see;
use crate::trouble::{Reason, Trouble};
use crate::unseen::rename_unseen;
use backing::Answer;
use disk::Disk;
use paths::Path;

/// Renames from an open folder to an open folder. Where the system failed, all is closed.
fn rename_in<D: Disk>(
    disk: &mut D,
    cache: &mut OpenCache<D::Handle>,
    source: &Entry<'_, D::Handle>,
    target: &Entry<'_, D::Handle>,
) -> Result<Answer, Trouble>
    requires source { IsEntry cache.old source.now }
    requires target { IsEntry cache.old target.now }
    ensures suits { IfOk result (λ answer. answer ≡ Done) }
    ensures ends { (up up' : Names) → IsFolderAt (D.tree disk.old) (D.stands disk.old) cache.old source.now.folder up → IsFolderAt (D.tree disk.old) (D.stands disk.old) cache.old target.now.folder up' → AreApart (up ++ source.now.name.now ∷ []) (up' ++ target.now.name.now ∷ []) → IsSome (D.tree disk.old (up ++ source.now.name.now ∷ [])) → Ends (D.tree disk.old) (AskRename (up ++ source.now.name.now ∷ []) (up' ++ target.now.name.now ∷ [])) result (D.tree disk.new) }
    ensures stand { (up up' : Names) → IsFolderAt (D.tree disk.old) (D.stands disk.old) cache.old source.now.folder up → IsFolderAt (D.tree disk.old) (D.stands disk.old) cache.old target.now.folder up' → AreApart (up ++ source.now.name.now ∷ []) (up' ++ target.now.name.now ∷ []) → AllStand (D.tree disk.new) (D.stands disk.new) cache.new }
{
    match disk.rename(
        &cache.open(&source.folder).handle,
        source.name,
        &cache.open(&target.folder).handle,
        target.name,
    ) {
        Ok(()) => {
            follow(disk, cache, source, target);
            Ok(Answer::Done)
        }
        Err(error) => {
            let why = why_not_moved(disk, cache, target, error);
            cache.clear();
            Err(why)
        }
    }
}

/// Renames, where both paths may be, to a path to which folders lead.
fn rename_both<D: Disk>(
    disk: &mut D,
    cache: &mut OpenCache<D::Handle>,
    from: &Path,
    to: &Path,
) -> Result<Answer, Trouble>
    requires { AreApart from.now to.now }
    ensures suits { IfOk result (λ answer. answer ≡ Done) }
    ensures ends { AllStand (D.tree disk.old) (D.stands disk.old) cache.old → Resolves (D.tree disk.old) to.now → IsSome (D.tree disk.old from.now) → Ends (D.tree disk.old) (AskRename from.now to.now) result (D.tree disk.new) }
    ensures stand { AllStand (D.tree disk.old) (D.stands disk.old) cache.old → Resolves (D.tree disk.old) to.now → AllStand (D.tree disk.new) (D.stands disk.new) cache.new }
{
    match go_both(disk, cache, from, to) {
        Ok((source, target)) => rename_in(disk, cache, &source, &target),
        Err(trouble) => Err(trouble),
    }
}

/// Renames, where both paths may be.
fn rename_apart<D: Disk>(
    disk: &mut D,
    cache: &mut OpenCache<D::Handle>,
    from: &Path,
    to: &Path,
) -> Result<Answer, Trouble>
    requires { AreApart from.now to.now }
    ensures suits { IfOk result (λ answer. answer ≡ Done) }
    ensures ends { AllStand (D.tree disk.old) (D.stands disk.old) cache.old → IsSome (D.tree disk.old from.now) → Ends (D.tree disk.old) (AskRename from.now to.now) result (D.tree disk.new) }
    ensures stand { AllStand (D.tree disk.old) (D.stands disk.old) cache.old → AllStand (D.tree disk.new) (D.stands disk.new) cache.new }
{
    match expect_target(disk, cache, to) {
        Ok(()) => rename_both(disk, cache, from, to),
        Err(trouble) => Err(trouble),
    }
}

/// Gives what was seen at the one path the other one.
fn rename_seen<D: Disk>(
    disk: &mut D,
    cache: &mut OpenCache<D::Handle>,
    from: &Path,
    to: &Path,
) -> Result<Answer, Trouble>
    requires below { from.now ≡ [] → ⊥ }
    requires below_too { to.now ≡ [] → ⊥ }
    ensures suits { IfOk result (λ answer. answer ≡ Done) }
    ensures ends { AllStand (D.tree disk.old) (D.stands disk.old) cache.old → IsSome (D.tree disk.old from.now) → Ends (D.tree disk.old) (AskRename from.now to.now) result (D.tree disk.new) }
    ensures stand { AllStand (D.tree disk.old) (D.stands disk.old) cache.old → AllStand (D.tree disk.new) (D.stands disk.new) cache.new }
{
    if from.is(to) {
        return Ok(Answer::Done);
    }
    if from.is_prefix_of(to) {
        return Err(Trouble::Refused(Reason::Below));
    }
    if to.is_prefix_of(from) {
        return Err(Trouble::Refused(Reason::Names));
    }
    rename_apart(disk, cache, from, to)
}

/// Gives what stands at the one path the other one, behind a look.
fn rename_looking<D: Disk>(
    disk: &mut D,
    cache: &mut OpenCache<D::Handle>,
    from: &Path,
    to: &Path,
) -> Result<Answer, Trouble>
    requires below { from.now ≡ [] → ⊥ }
    requires below_too { to.now ≡ [] → ⊥ }
    ensures suits { IfOk result (λ answer. answer ≡ Done) }
    ensures ends { AllStand (D.tree disk.old) (D.stands disk.old) cache.old → Ends (D.tree disk.old) (AskRename from.now to.now) result (D.tree disk.new) }
    ensures stand { AllStand (D.tree disk.old) (D.stands disk.old) cache.old → AllStand (D.tree disk.new) (D.stands disk.new) cache.new }
{
    match see(disk, cache, from) {
        Ok(seen) => {
            let moved = rename_seen(disk, cache, from, to);
            note_move(disk, cache, seen.kind, &moved);
            moved
        }
        Err(trouble) => Err(trouble),
    }
}

/// Gives what stands at the one path the other one: one call where both folders are open, behind a look at the source where others
/// serve the folder too, and behind one at each where not all kinds are shown.
pub fn rename<D: Disk>(
    disk: &mut D,
    cache: &mut OpenCache<D::Handle>,
    from: &Path,
    to: &Path,
) -> Result<Answer, Trouble>
    ensures suits { IfOk result (Suits (AskRename from.now to.now)) }
    ensures ends { AllStand (D.tree disk.old) (D.stands disk.old) cache.old → Ends (D.tree disk.old) (AskRename from.now to.now) result (D.tree disk.new) }
    ensures stand { AllStand (D.tree disk.old) (D.stands disk.old) cache.old → AllStand (D.tree disk.new) (D.stands disk.new) cache.new }
{
    if from.len() == 0 {
        return Err(Trouble::Refused(Reason::Root));
    }
    if to.len() == 0 {
        return Err(Trouble::Refused(Reason::Root));
    }
    match rename_unseen(disk, cache, from, to) {
        Some(ended) => ended,
        None => rename_looking(disk, cache, from, to),
    }
}
