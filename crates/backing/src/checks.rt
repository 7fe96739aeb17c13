//! The tests of a call, each with its error.

ghost use Rattle.std.specs.Prelude.{◌≡◌, ◌≢◌, ◌≤◌, ◌<◌, [], ◌∷◌, None, Some, IfOk, IfErr, OnOk};
ghost use Rattle.std.specs.Option.{option_map};
ghost use Rattle.backing.specs.Tree.{kind_of, Resolves, Stops};
ghost use Rattle.backing.specs.Calls.{PassesAll, Refuses, Bare, Fits, memory_limit};
ghost use Rattle.backing.specs.Checks.{present_tests, free_tests, file_tests, link_tests, other_tests, folder_tests};
ghost use Rattle.backing.specs.Entries.{tree_of, IsFoundAt, IsEntryTree};

use crate::call::MAX_FILE_LEN;
use crate::entries::TreeEntry;
use crate::lookups::{has_names, index_of, kind_at};
use errno::{EBUSY, EEXIST, EFBIG, EINVAL, EISDIR, ENOENT, ENOTDIR, ENOTEMPTY};
use paths::Path;
use payload::Kind;

/// The path is not the root's.
pub fn expect_below_root(path: &Path) -> Result<(), i32>
    ensures ok { OnOk result (path.now ≢ []) }
    ensures err { IfErr result (λ errno. (path.now ≡ []) × (errno ≡ EBUSY)) }
{
    if path.len() == 0 { Err(EBUSY) } else { Ok(()) }
}

/// All names above the last one of the path are folders.
pub fn expect_reached(entries: &[TreeEntry], path: &Path) -> Result<(), i32>
    ensures ok { OnOk result (Resolves (tree_of entries.now) path.now) }
    ensures err { IfErr result (Stops (tree_of entries.now) path.now) }
{
    let names = path.names();
    for depth in 0..names.len() {
        match kind_at(entries, &names[..depth]) {
            None => return Err(ENOENT),
            Some(Kind::File | Kind::Link | Kind::Special(_)) => return Err(ENOTDIR),
            Some(Kind::Folder) => {}
        }
    }
    Ok(())
}

/// Something is at the path; returns its kind.
pub fn expect_present(entries: &[TreeEntry], path: &Path) -> Result<Kind, i32>
    ensures ok { OnOk result (PassesAll (tree_of entries.now) (present_tests path.now)) }
    ensures kind { IfOk result (λ kind. option_map kind_of (tree_of entries.now path.now) ≡ Some kind) }
    ensures err { IfErr result (Refuses (tree_of entries.now) (present_tests path.now)) }
{
    expect_reached(entries, path)?;
    match kind_at(entries, path.names()) {
        Some(kind) => Ok(kind),
        None => Err(ENOENT),
    }
}

/// Nothing is at the path.
pub fn expect_free(entries: &[TreeEntry], path: &Path) -> Result<(), i32>
    ensures ok { OnOk result (PassesAll (tree_of entries.now) (free_tests path.now)) }
    ensures err { IfErr result (Refuses (tree_of entries.now) (free_tests path.now)) }
{
    expect_reached(entries, path)?;
    match kind_at(entries, path.names()) {
        Some(_) => Err(EEXIST),
        None => Ok(()),
    }
}

/// A file is at the path; returns the index of its entry.
pub fn expect_file(entries: &[TreeEntry], path: &Path) -> Result<usize, i32>
    ensures ok { OnOk result (PassesAll (tree_of entries.now) (file_tests path.now)) }
    ensures found { IfOk result (IsFoundAt entries.now path.now) }
    ensures err { IfErr result (Refuses (tree_of entries.now) (file_tests path.now)) }
{
    match expect_present(entries, path)? {
        Kind::Folder => Err(EISDIR),
        Kind::File => match index_of(entries, path.names()) {
            Some(i) => Ok(i),
            None => unreachable!(),
        },
        Kind::Link | Kind::Special(_) => Err(EINVAL),
    }
}

/// A link is at the path; returns the index of its entry.
pub fn expect_link(entries: &[TreeEntry], path: &Path) -> Result<usize, i32>
    ensures ok { OnOk result (PassesAll (tree_of entries.now) (link_tests path.now)) }
    ensures found { IfOk result (IsFoundAt entries.now path.now) }
    ensures err { IfErr result (Refuses (tree_of entries.now) (link_tests path.now)) }
{
    match expect_present(entries, path)? {
        Kind::Folder | Kind::File | Kind::Special(_) => Err(EINVAL),
        Kind::Link => match index_of(entries, path.names()) {
            Some(i) => Ok(i),
            None => unreachable!(),
        },
    }
}

/// Something that is no folder is at the path.
pub fn expect_other(entries: &[TreeEntry], path: &Path) -> Result<(), i32>
    ensures ok { OnOk result (PassesAll (tree_of entries.now) (other_tests path.now)) }
    ensures err { IfErr result (Refuses (tree_of entries.now) (other_tests path.now)) }
{
    match expect_present(entries, path)? {
        Kind::Folder => Err(EISDIR),
        Kind::File | Kind::Link | Kind::Special(_) => Ok(()),
    }
}

/// A folder is at the path.
pub fn expect_folder(entries: &[TreeEntry], path: &Path) -> Result<(), i32>
    ensures ok { OnOk result (PassesAll (tree_of entries.now) (folder_tests path.now)) }
    ensures err { IfErr result (Refuses (tree_of entries.now) (folder_tests path.now)) }
{
    match expect_present(entries, path)? {
        Kind::Folder => Ok(()),
        Kind::File | Kind::Link | Kind::Special(_) => Err(ENOTDIR),
    }
}

/// The folder is empty.
pub fn expect_bare(entries: &[TreeEntry], path: &Path) -> Result<(), i32>
    requires { IsEntryTree entries.now }
    ensures ok { OnOk result (PassesAll (tree_of entries.now) (Bare path.now ∷ [])) }
    ensures err { IfErr result (Refuses (tree_of entries.now) (Bare path.now ∷ [])) }
{
    if has_names(entries, path.names()) {
        Err(ENOTEMPTY)
    } else {
        Ok(())
    }
}

/// A file may have that length.
pub fn expect_fits(entries: &[TreeEntry], end: u64) -> Result<(), i32>
    ensures ok { OnOk result (end ≤ MAX_FILE_LEN) }
    ensures err { IfErr result (Refuses (tree_of entries.now) (Fits memory_limit end ∷ [])) }
{
    if end > MAX_FILE_LEN {
        Err(EFBIG)
    } else {
        Ok(())
    }
}
