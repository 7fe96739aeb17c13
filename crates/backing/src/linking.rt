//! The call that gives what is at a path a further name.

ghost use Rattle.backing.specs.Calls.{AskLink};
ghost use Rattle.backing.specs.Entries.{tree_of};
ghost use Rattle.backing.specs.Refusals.{Ends};

use crate::call::Answer;
use crate::checks::expect_free;
use crate::entries::TreeEntry;
use crate::moving::expect_source;
use crate::refusal::Refusal;
use errno::EPERM;
use paths::Path;

/// Refuses each: what stands in a tree of paths has one name.
pub fn link(entries: &[TreeEntry], from: &Path, to: &Path) -> Result<Answer, Refusal>
    ensures { Ends (tree_of entries.now) (AskLink from.now to.now) result (tree_of entries.now) }
{
    expect_source(entries, from, to)?;
    expect_free(entries, to)?;
    Err(Refusal::Errno(EPERM))
}
