//! The call that gives what stands at a path a further name. Nothing is followed, and nothing replaced.

ghost use Rattle.std.specs.Prelude.{◌≡◌, ◌++◌, ◌∷◌, [], Err, IfOk, IfErr};
ghost use Rattle.paths.specs.Prefixes.{Names};
ghost use Rattle.backing.specs.declared.call.Answer.TheVariants.{Done};
ghost use Rattle.backing.specs.Calls.{AskLink};
ghost use Rattle.backing.specs.Checks.{present_tests};
ghost use Rattle.backing.specs.Tree.{Resolves};
ghost use Rattle.disk_folder.specs.Changes.{IsWhyNotLinked};
ghost use Rattle.disk_folder.specs.Ends.{Ends, IsRefused};
ghost use Rattle.disk_folder.specs.Gives.{IsUnlinked};
ghost use Rattle.disk.specs.Answers.{AddsName};
ghost use Rattle.disk_folder.specs.Standing.{AllStand, IsEntry, IsFolderAt};
ghost use Rattle.disk_folder.specs.Suits.{Suits};
ghost use Rattle.disk_folder.specs.Troubles.{IsStopped};

use crate::making::why_not_made;
use crate::open_cache::OpenCache;
use crate::opened::Entry;
use crate::renaming::{expect_target, go_both};
use crate::stat::see;
use crate::trouble::{Reason, Trouble};
use crate::walk::go_above;
use backing::Answer;
use disk::{Disk, DiskError};
use paths::Path;

/// Why what stands at the source got no further name.
fn why_not_linked<D: Disk>(
    disk: &D,
    cache: &OpenCache<D::Handle>,
    target: &Entry<'_, D::Handle>,
    error: DiskError,
) -> Trouble
    requires { IsEntry cache.now target.now }
    ensures { IsWhyNotLinked error result }
{
    match error {
        DiskError::Absent => Trouble::Refused(Reason::Nothing),
        error => why_not_made(disk, cache, target, error),
    }
}

/// Links from an open folder to an open folder. What was kept under the new name is closed: something else stands there now.
fn link_in<D: Disk>(
    disk: &mut D,
    cache: &mut OpenCache<D::Handle>,
    source: &Entry<'_, D::Handle>,
    target: &Entry<'_, D::Handle>,
) -> Result<Answer, Trouble>
    requires source { IsEntry cache.old source.now }
    requires target { IsEntry cache.old target.now }
    ensures suits { IfOk result (λ answer. answer ≡ Done) }
    ensures ends { (up up' : Names) → IsFolderAt (D.tree disk.old) (D.stands disk.old) cache.old source.now.folder up → IsFolderAt (D.tree disk.old) (D.stands disk.old) cache.old target.now.folder up' → IsUnlinked (AskLink (up ++ source.now.name.now ∷ []) (up' ++ target.now.name.now ∷ [])) result → Ends (D.tree disk.old) (AskLink (up ++ source.now.name.now ∷ []) (up' ++ target.now.name.now ∷ [])) result (D.tree disk.new) }
    ensures stand { (up up' : Names) → IsFolderAt (D.tree disk.old) (D.stands disk.old) cache.old source.now.folder up → IsFolderAt (D.tree disk.old) (D.stands disk.old) cache.old target.now.folder up' → IsUnlinked (AskLink (up ++ source.now.name.now ∷ []) (up' ++ target.now.name.now ∷ [])) result → AllStand (D.tree disk.new) (D.stands disk.new) cache.new }
    ensures granted { (up up' : Names) → IsFolderAt (D.tree disk.old) (D.stands disk.old) cache.old source.now.folder up → IsFolderAt (D.tree disk.old) (D.stands disk.old) cache.old target.now.folder up' → IfOk result (λ _. AddsName (D.tree disk.old) (up ++ source.now.name.now ∷ []) (up' ++ target.now.name.now ∷ []) (D.tree disk.new)) }
{
    match disk.link(
        &cache.open(&source.folder).handle,
        source.name,
        &cache.open(&target.folder).handle,
        target.name,
    ) {
        Ok(()) => {
            cache.forget(target);
            Ok(Answer::Done)
        }
        Err(error) => Err(why_not_linked(disk, cache, target, error)),
    }
}

/// Links, where folders lead to both paths.
fn link_both<D: Disk>(
    disk: &mut D,
    cache: &mut OpenCache<D::Handle>,
    from: &Path,
    to: &Path,
) -> Result<Answer, Trouble>
    ensures suits { IfOk result (λ answer. answer ≡ Done) }
    ensures ends { AllStand (D.tree disk.old) (D.stands disk.old) cache.old → Resolves (D.tree disk.old) to.now → IsUnlinked (AskLink from.now to.now) result → Ends (D.tree disk.old) (AskLink from.now to.now) result (D.tree disk.new) }
    ensures stand { AllStand (D.tree disk.old) (D.stands disk.old) cache.old → Resolves (D.tree disk.old) to.now → IsUnlinked (AskLink from.now to.now) result → AllStand (D.tree disk.new) (D.stands disk.new) cache.new }
    ensures granted { AllStand (D.tree disk.old) (D.stands disk.old) cache.old → Resolves (D.tree disk.old) to.now → IfOk result (λ _. AddsName (D.tree disk.old) from.now to.now (D.tree disk.new)) }
{
    match go_both(disk, cache, from, to) {
        Ok((source, target)) => link_in(disk, cache, &source, &target),
        Err(trouble) => Err(trouble),
    }
}

/// Folders lead to the path that gets a further name, and nothing is hidden there: one look, where not all kinds are shown.
fn expect_source<D: Disk>(
    disk: &D,
    cache: &mut OpenCache<D::Handle>,
    from: &Path,
) -> Result<(), Trouble>
    ensures err { AllStand (D.tree disk.now) (D.stands disk.now) cache.old → IfErr result (IsRefused (D.tree disk.now) (present_tests from.now)) }
    ensures stand { AllStand (D.tree disk.now) (D.stands disk.now) cache.old → AllStand (D.tree disk.now) (D.stands disk.now) cache.new }
{
    if !disk.shows_all() {
        return match see(disk, cache, from) {
            Ok(_) => Ok(()),
            Err(trouble) => Err(trouble),
        };
    }
    match go_above(disk, cache, from) {
        Ok(_) => Ok(()),
        Err(trouble) => Err(trouble),
    }
}

/// Links to a path to which folders lead.
fn link_led<D: Disk>(
    disk: &mut D,
    cache: &mut OpenCache<D::Handle>,
    from: &Path,
    to: &Path,
) -> Result<Answer, Trouble>
    requires below { from.now ≡ [] → ⊥ }
    requires below_too { to.now ≡ [] → ⊥ }
    ensures suits { IfOk result (λ answer. answer ≡ Done) }
    ensures ends { AllStand (D.tree disk.old) (D.stands disk.old) cache.old → Resolves (D.tree disk.old) to.now → IsUnlinked (AskLink from.now to.now) result → Ends (D.tree disk.old) (AskLink from.now to.now) result (D.tree disk.new) }
    ensures stand { AllStand (D.tree disk.old) (D.stands disk.old) cache.old → Resolves (D.tree disk.old) to.now → IsUnlinked (AskLink from.now to.now) result → AllStand (D.tree disk.new) (D.stands disk.new) cache.new }
    ensures granted { AllStand (D.tree disk.old) (D.stands disk.old) cache.old → Resolves (D.tree disk.old) to.now → IfOk result (λ _. AddsName (D.tree disk.old) from.now to.now (D.tree disk.new)) }
{
    match expect_source(disk, cache, from) {
        Ok(()) => link_both(disk, cache, from, to),
        Err(trouble) => Err(trouble),
    }
}

/// Why nothing is linked to a path to which no folders lead: what is wrong with the source comes first.
fn why_unled<D: Disk>(
    disk: &D,
    cache: &mut OpenCache<D::Handle>,
    from: &Path,
    to: &Path,
    trouble: Trouble,
) -> Trouble
    requires below { from.now ≡ [] → ⊥ }
    requires below_too { to.now ≡ [] → ⊥ }
    ensures ends { AllStand (D.tree disk.now) (D.stands disk.now) cache.old → IsStopped (D.tree disk.now) to.now trouble → Ends (D.tree disk.now) (AskLink from.now to.now) (Err result) (D.tree disk.now) }
    ensures stand { AllStand (D.tree disk.now) (D.stands disk.now) cache.old → AllStand (D.tree disk.now) (D.stands disk.now) cache.new }
{
    match see(disk, cache, from) {
        Ok(_) => trouble,
        Err(first) => first,
    }
}

/// Gives what stands at the one path the other one as well, at which nothing stands: one call where both folders are open, behind a look
/// at each path where not all kinds are shown. Why a folder gets no further name the system says (EPERM of Linux).
pub fn link<D: Disk>(
    disk: &mut D,
    cache: &mut OpenCache<D::Handle>,
    from: &Path,
    to: &Path,
) -> Result<Answer, Trouble>
    ensures suits { IfOk result (Suits (AskLink from.now to.now)) }
    ensures ends { AllStand (D.tree disk.old) (D.stands disk.old) cache.old → IsUnlinked (AskLink from.now to.now) result → Ends (D.tree disk.old) (AskLink from.now to.now) result (D.tree disk.new) }
    ensures stand { AllStand (D.tree disk.old) (D.stands disk.old) cache.old → IsUnlinked (AskLink from.now to.now) result → AllStand (D.tree disk.new) (D.stands disk.new) cache.new }
    ensures granted { AllStand (D.tree disk.old) (D.stands disk.old) cache.old → IfOk result (λ _. AddsName (D.tree disk.old) from.now to.now (D.tree disk.new)) }
{
    if from.len() == 0 {
        return Err(Trouble::Refused(Reason::Root));
    }
    if to.len() == 0 {
        return Err(Trouble::Refused(Reason::Root));
    }
    match expect_target(disk, cache, to) {
        Ok(()) => link_led(disk, cache, from, to),
        Err(trouble) => Err(why_unled(disk, cache, from, to, trouble)),
    }
}
