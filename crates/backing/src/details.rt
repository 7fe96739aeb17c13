//! Details of what is at a path. A memory tree reports fixed ones and stores none.

ghost use Rattle.std.specs.Prelude.{ℕ, Option};
ghost use Rattle.backing.specs.declared.call.NewTime.{NewTime};
ghost use Rattle.backing.specs.Calls.{AskSetPermissions, AskSetOwner, AskSetTimes};
ghost use Rattle.backing.specs.Entries.{tree_of};
ghost use Rattle.backing.specs.Refusals.{Ends};

use crate::call::Answer;
use crate::checks::expect_present;
use crate::entries::TreeEntry;
use crate::refusal::Refusal;
use paths::Path;
use payload::{Details, Kind, Time};

/// The beginning of 1970.
const BEGINNING: Time = Time {
    seconds: 0,
    nanos: 0,
};

/// The details of all that is of one kind: the owner may write it, everyone may read it and enter a folder, a link has all
/// permission bits, and all other numbers are 0. Setting details does not change them.
pub fn details_of(kind: Kind) -> Details {
    let (permissions, links) = match kind {
        Kind::Folder => (0o755, 2),
        Kind::File | Kind::Special(_) => (0o644, 1),
        Kind::Link => (0o777, 1),
    };
    Details {
        ino: 0,
        permissions,
        links,
        uid: 0,
        gid: 0,
        accessed: BEGINNING,
        modified: BEGINNING,
        changed: BEGINNING,
    }
}

/// Sets nothing: if something is at the path, there is nothing more to do.
pub fn set_details(entries: &[TreeEntry], path: &Path) -> Result<Answer, Refusal>
    ensures permissions { (permissions : ℕ) → Ends (tree_of entries.now) (AskSetPermissions path.now permissions) result (tree_of entries.now) }
    ensures owner { (uid gid : Option ℕ) → Ends (tree_of entries.now) (AskSetOwner path.now uid gid) result (tree_of entries.now) }
    ensures times { (accessed modified : Option NewTime) → Ends (tree_of entries.now) (AskSetTimes path.now accessed modified) result (tree_of entries.now) }
{
    expect_present(entries, path)?;
    Ok(Answer::Done)
}
