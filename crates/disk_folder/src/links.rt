//! Calls that read and make links. None is ever followed.

ghost use Rattle.std.specs.Prelude.{ℕ, List, ◌≡◌, ◌<◌, ◌↔◌, ◌++◌, ◌∷◌, [], IfOk, IfErr, IsTrue, OnOk, length};
ghost use Rattle.paths.specs.Prefixes.{Names};
ghost use Rattle.backing.specs.declared.call.Answer.TheVariants.{Bytes, Done};
ghost use Rattle.backing.specs.declared.entries.Item.TheVariants.{Link};
ghost use Rattle.backing.specs.Calls.{AskMakeLink, AskReadLink};
ghost use Rattle.disk.specs.Answers.{ReadsLink};
ghost use Rattle.disk.specs.Names.{IsLinkText};
ghost use Rattle.disk_folder.specs.Ends.{Ends};
ghost use Rattle.disk_folder.specs.Seen.{IsUnread};
ghost use Rattle.disk_folder.specs.Standing.{AllStand, IsEntry, IsFolderAt};
ghost use Rattle.disk_folder.specs.Suits.{Suits};
ghost use Rattle.disk_folder.specs.Troubles.{IsFailure};

use crate::look::look_only;
use crate::making::why_not_made;
use crate::open_cache::OpenCache;
use crate::opened::Entry;
use crate::trouble::{Reason, Trouble, failure};
use crate::walk::go_above;
use backing::Answer;
use disk::{Disk, DiskError};
use errno::{EINVAL, EIO};
use paths::Path;
use payload::{Kind, Payload};

/// A link's text is shorter, in bytes (`PATH_MAX` of Linux).
const TOO_LONG: usize = 4096;

/// Whether a link can have that text: 1 to 4,095 bytes, and no NUL.
fn is_link_text(text: &[u8]) -> bool
    ensures { IsTrue result ↔ IsLinkText text.now }
{
    if text.is_empty() || text.len() >= TOO_LONG {
        return false;
    }
    text.iter().all(|byte| *byte != 0)
}

/// A link can have that text: else the call fails.
fn expect_text(text: &[u8]) -> Result<(), Trouble>
    ensures ok { OnOk result (IsLinkText text.now) }
    ensures err { IfErr result IsFailure }
{
    if is_link_text(text) {
        Ok(())
    } else {
        Err(Trouble::Failed(EINVAL))
    }
}

/// Why the link's text was not read: one look tells what is no link, or is absent, from a link that the system does not read.
fn why_unread<D: Disk>(
    disk: &D,
    cache: &OpenCache<D::Handle>,
    entry: &Entry<'_, D::Handle>,
    error: DiskError,
) -> Trouble
    requires { IsEntry cache.now entry.now }
    ensures { (up : Names) → IsFolderAt (D.tree disk.now) (D.stands disk.now) cache.now entry.now.folder up → IsUnread (D.tree disk.now) (up ++ entry.now.name.now ∷ []) result }
{
    match look_only(disk, cache, entry) {
        Ok(seen) => match seen.kind {
            Kind::Link => failure(error),
            Kind::Folder | Kind::File | Kind::Special(_) => Trouble::Refused(Reason::NoLink),
        },
        Err(trouble) => trouble,
    }
}

/// A link's text, as an answer. No link of the system has one that is longer than it takes.
fn answer_of(text: Vec<u8>) -> Result<Answer, Trouble>
    ensures ok { IfOk result (λ answer. (answer ≡ Bytes text.items) × (length text.items < 4096)) }
    ensures err { IfErr result IsFailure }
{
    if text.len() < TOO_LONG {
        Ok(Answer::Bytes(Payload::new(text)))
    } else {
        Err(Trouble::Failed(EIO))
    }
}

/// Reads the link in an open folder.
fn read_link_in<D: Disk>(
    disk: &D,
    cache: &OpenCache<D::Handle>,
    entry: &Entry<'_, D::Handle>,
) -> Result<Answer, Trouble>
    requires { IsEntry cache.now entry.now }
    ensures short { IfOk result (λ answer. (text : List ℕ) × (answer ≡ Bytes text) × (length text < 4096)) }
    ensures ok { (up : Names) → IsFolderAt (D.tree disk.now) (D.stands disk.now) cache.now entry.now.folder up → IfOk result (λ answer. (text : List ℕ) × (D.tree disk.now (up ++ entry.now.name.now ∷ []) ≡ Some (Link text)) × (answer ≡ Bytes text)) }
    ensures err { (up : Names) → IsFolderAt (D.tree disk.now) (D.stands disk.now) cache.now entry.now.folder up → IfErr result (IsUnread (D.tree disk.now) (up ++ entry.now.name.now ∷ [])) }
{
    match disk.read_link(&cache.open(&entry.folder).handle, entry.name) {
        Ok(text) => answer_of(text),
        Err(DiskError::Absent) => Err(Trouble::Refused(Reason::Nothing)),
        Err(error) => Err(why_unread(disk, cache, entry, error)),
    }
}

/// The text of the link: one call of the system where its folder is open.
pub fn read_link<D: Disk>(
    disk: &D,
    cache: &mut OpenCache<D::Handle>,
    path: &Path,
) -> Result<Answer, Trouble>
    ensures suits { IfOk result (Suits (AskReadLink path.now)) }
    ensures ends { AllStand (D.tree disk.now) (D.stands disk.now) cache.old → Ends (D.tree disk.now) (AskReadLink path.now) result (D.tree disk.now) }
    ensures stand { AllStand (D.tree disk.now) (D.stands disk.now) cache.old → AllStand (D.tree disk.now) (D.stands disk.now) cache.new }
{
    if path.len() == 0 {
        return Err(Trouble::Refused(Reason::NoLink));
    }
    match go_above(disk, cache, path) {
        Ok(entry) => read_link_in(disk, cache, &entry),
        Err(trouble) => Err(trouble),
    }
}

/// Makes a link with a text that it can have in an open folder.
fn make_text<D: Disk>(
    disk: &mut D,
    cache: &OpenCache<D::Handle>,
    entry: &Entry<'_, D::Handle>,
    text: &[u8],
) -> Result<Answer, Trouble>
    requires entry { IsEntry cache.now entry.now }
    requires text { IsLinkText text.now }
    ensures suits { IfOk result (λ answer. answer ≡ Done) }
    ensures ends { (up : Names) → IsFolderAt (D.tree disk.old) (D.stands disk.old) cache.now entry.now.folder up → Ends (D.tree disk.old) (AskMakeLink (up ++ entry.now.name.now ∷ []) text.now) result (D.tree disk.new) }
    ensures stand { (up : Names) → IsFolderAt (D.tree disk.old) (D.stands disk.old) cache.now entry.now.folder up → AllStand (D.tree disk.new) (D.stands disk.new) cache.now }
{
    match disk.make_link(&cache.open(&entry.folder).handle, entry.name, text) {
        Ok(()) => Ok(Answer::Done),
        Err(error) => Err(why_not_made(disk, cache, entry, error)),
    }
}

/// Makes a link in an open folder.
fn make_link_in<D: Disk>(
    disk: &mut D,
    cache: &OpenCache<D::Handle>,
    entry: &Entry<'_, D::Handle>,
    text: &[u8],
) -> Result<Answer, Trouble>
    requires { IsEntry cache.now entry.now }
    ensures suits { IfOk result (λ answer. answer ≡ Done) }
    ensures ends { (up : Names) → IsFolderAt (D.tree disk.old) (D.stands disk.old) cache.now entry.now.folder up → Ends (D.tree disk.old) (AskMakeLink (up ++ entry.now.name.now ∷ []) text.now) result (D.tree disk.new) }
    ensures stand { (up : Names) → IsFolderAt (D.tree disk.old) (D.stands disk.old) cache.now entry.now.folder up → AllStand (D.tree disk.new) (D.stands disk.new) cache.now }
{
    match expect_text(text) {
        Ok(()) => make_text(disk, cache, entry, text),
        Err(trouble) => Err(trouble),
    }
}

/// Makes a link with that text, whatever the text leads to.
pub fn make_link<D: Disk>(
    disk: &mut D,
    cache: &mut OpenCache<D::Handle>,
    path: &Path,
    text: &[u8],
) -> Result<Answer, Trouble>
    ensures suits { IfOk result (Suits (AskMakeLink path.now text.now)) }
    ensures ends { AllStand (D.tree disk.old) (D.stands disk.old) cache.old → Ends (D.tree disk.old) (AskMakeLink path.now text.now) result (D.tree disk.new) }
    ensures stand { AllStand (D.tree disk.old) (D.stands disk.old) cache.old → AllStand (D.tree disk.new) (D.stands disk.new) cache.new }
{
    if path.len() == 0 {
        return Err(Trouble::Refused(Reason::Taken));
    }
    match go_above(disk, cache, path) {
        Ok(entry) => make_link_in(disk, cache, &entry, text),
        Err(trouble) => Err(trouble),
    }
}
