//! Which refusals some tree explains.

ghost use Rattle.std.specs.Prelude.{true, false, ◌≡◌, ◌≢◌, List, ◌∷◌, ◌++◌, []};
ghost use Rattle.paths.specs.Prefixes.{is_prefix};
ghost use Rattle.backing.specs.Calls.{Test, asked, Reached, Present, Free, FileAt, LinkAt, FolderAt, NoFolder, AskRename, AskRenameNew, AskLink, AskRemoveDir};
ghost use Rattle.backing.specs.Checks.{source_tests};
ghost use Rattle.disk_folder.specs.Explained.{Explained, Explains};
ghost use Rattle.disk_folder.specs.Troubles.{reason_errno};

use crate::trouble::Reason;
use backing::Call;
use paths::Path;

/// Whether some tree refuses the call for that reason.
pub fn is_explained(call: Call<'_>, reason: Reason) -> bool
    ensures { result ≡ true → Explains (asked call.entry) (reason_errno reason) }
{
    match call {
        Call::Stat(path) => is_lost(path, reason),
        Call::List(path) => is_no_folder(path, reason),
        Call::Make { path, .. } => is_not_free(path, reason),
        Call::MakeDir { path, .. } => is_not_free(path, reason),
        Call::MakeLink { path, .. } => is_not_free(path, reason),
        Call::Remove(path) => is_folder(path, reason),
        Call::RemoveDir(path) => is_no_bare_folder(path, reason),
        Call::Rename { from, to } => is_no_move(from, to, reason),
        Call::RenameNew { from, to } => is_no_new_move(from, to, reason),
        Call::Exchange { .. } => false,
        Call::Link { from, to } => is_no_free_target(from, to, reason),
        Call::Read { path, .. } => is_no_file(path, reason),
        Call::ReadLink(path) => is_no_link(path, reason),
        Call::Write { path, .. } => is_no_file(path, reason),
        Call::SetLen { path, .. } => is_no_file(path, reason),
        Call::Sync(path) => is_lost(path, reason),
        Call::SetPermissions { path, .. } => is_lost(path, reason),
        Call::SetOwner { path, .. } => is_lost(path, reason),
        Call::SetTimes { path, .. } => is_lost(path, reason),
    }
}

/// Nothing stands there, or no folder above it.
fn is_lost(path: &Path, reason: Reason) -> bool
    ensures { result ≡ true → (more : List Test) → Explained (Reached path.now ∷ Present path.now ∷ more) (reason_errno reason) }
{
    match reason {
        Reason::Nothing => path.len() > 0,
        Reason::NoFolder => path.len() > 1,
        _ => false,
    }
}

/// It is lost, or is a folder.
fn is_folder(path: &Path, reason: Reason) -> bool
    ensures { result ≡ true → (more : List Test) → Explained (Reached path.now ∷ Present path.now ∷ NoFolder path.now ∷ more) (reason_errno reason) }
{
    match reason {
        Reason::Folder => true,
        _ => is_lost(path, reason),
    }
}

/// It is lost, or is a folder, or neither that nor a file, which the root is not.
fn is_no_file(path: &Path, reason: Reason) -> bool
    ensures { result ≡ true → (more : List Test) → Explained (Reached path.now ∷ Present path.now ∷ FileAt path.now ∷ more) (reason_errno reason) }
{
    match reason {
        Reason::Folder => true,
        Reason::NoFile => path.len() > 0,
        _ => is_lost(path, reason),
    }
}

/// It is lost, or is no link.
fn is_no_link(path: &Path, reason: Reason) -> bool
    ensures { result ≡ true → (more : List Test) → Explained (Reached path.now ∷ Present path.now ∷ LinkAt path.now ∷ more) (reason_errno reason) }
{
    match reason {
        Reason::NoLink => true,
        _ => is_lost(path, reason),
    }
}

/// It is lost, or is no folder.
fn is_no_folder(path: &Path, reason: Reason) -> bool
    ensures { result ≡ true → (more : List Test) → Explained (Reached path.now ∷ Present path.now ∷ FolderAt path.now ∷ more) (reason_errno reason) }
{
    match reason {
        Reason::NoFolder => path.len() > 0,
        _ => is_lost(path, reason),
    }
}

/// Something stands there, or no folder above it.
fn is_not_free(path: &Path, reason: Reason) -> bool
    ensures { result ≡ true → (more : List Test) → Explained (Reached path.now ∷ Free path.now ∷ more) (reason_errno reason) }
{
    match reason {
        Reason::Taken => true,
        Reason::Nothing => path.len() > 1,
        Reason::NoFolder => path.len() > 1,
        _ => false,
    }
}

/// It is the root, or no folder, or has names.
fn is_no_bare_folder(path: &Path, reason: Reason) -> bool
    ensures { result ≡ true → Explains (AskRemoveDir path.now) (reason_errno reason) }
{
    match reason {
        Reason::Root => path.len() == 0,
        Reason::Names => path.len() > 0,
        Reason::Nothing => path.len() > 0,
        Reason::NoFolder => path.len() > 0,
        _ => false,
    }
}

/// One of both paths is the root, or nothing is there to be renamed.
fn is_no_source(from: &Path, to: &Path, reason: Reason) -> bool
    ensures { result ≡ true → (more : List Test) → Explained (source_tests from.now to.now ++ more) (reason_errno reason) }
{
    match reason {
        Reason::Root => {
            if from.len() == 0 {
                return true;
            }
            to.len() == 0
        }
        Reason::Nothing => {
            if from.len() == 0 {
                return false;
            }
            to.len() > 0
        }
        Reason::NoFolder => {
            if from.len() > 1 {
                return to.len() > 0;
            }
            false
        }
        _ => false,
    }
}

/// It cannot be renamed so.
fn is_no_move(from: &Path, to: &Path, reason: Reason) -> bool
    ensures { result ≡ true → Explains (AskRename from.now to.now) (reason_errno reason) }
{
    if is_no_source(from, to, reason) {
        return true;
    }
    match reason {
        Reason::Below => leads_through(from, to),
        Reason::Names => {
            if leads_through(to, from) {
                return true;
            }
            are_apart(from, to)
        }
        Reason::NoFolder => are_apart(from, to),
        Reason::Folder => are_apart(from, to),
        _ => false,
    }
}

/// It cannot be renamed so to a path at which nothing stands.
fn is_no_new_move(from: &Path, to: &Path, reason: Reason) -> bool
    ensures { result ≡ true → Explains (AskRenameNew from.now to.now) (reason_errno reason) }
{
    if is_no_source(from, to, reason) {
        return true;
    }
    match reason {
        Reason::Taken => {
            if from.is(to) {
                return from.len() > 0;
            }
            are_apart(from, to)
        }
        Reason::Below => leads_through(from, to),
        Reason::Names => leads_through(to, from),
        Reason::NoFolder => {
            if from.len() == 1 && to.len() > 1 {
                return are_apart(from, to);
            }
            false
        }
        _ => false,
    }
}

/// Nothing at it gets a further name there: it is no source, or something stands there, or no folder above it.
fn is_no_free_target(from: &Path, to: &Path, reason: Reason) -> bool
    ensures { result ≡ true → Explains (AskLink from.now to.now) (reason_errno reason) }
{
    if is_no_source(from, to, reason) {
        return true;
    }
    match reason {
        Reason::Taken => {
            if from.len() == 0 {
                return false;
            }
            to.len() > 0
        }
        Reason::NoFolder => {
            if from.len() == 0 {
                return false;
            }
            to.len() > 1
        }
        _ => false,
    }
}

/// The longer path leads through the prefix, which is not the root.
fn leads_through(prefix: &Path, longer: &Path) -> bool
    ensures { result ≡ true → (prefix.now ≢ []) × (prefix.now ≢ longer.now) × (is_prefix prefix.now longer.now ≡ true) }
{
    if prefix.len() == 0 {
        return false;
    }
    if prefix.is(longer) {
        return false;
    }
    prefix.is_prefix_of(longer)
}

/// Neither is the root nor leads through the other.
fn are_apart(from: &Path, to: &Path) -> bool
    ensures { result ≡ true → (from.now ≢ []) × (to.now ≢ []) × (is_prefix from.now to.now ≡ false) × (is_prefix to.now from.now ≡ false) }
{
    if from.len() == 0 {
        return false;
    }
    if to.len() == 0 {
        return false;
    }
    if from.is_prefix_of(to) {
        return false;
    }
    !to.is_prefix_of(from)
}
