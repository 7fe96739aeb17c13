//! Finding a path in a list.

ghost use Rattle.std.specs.Prelude.{◌≡◌, ◌↔◌, ◌++◌, ◌∷◌, [], IsTrue, Contains};
ghost use Rattle.holds.specs.Conflicts.{is_among};

use crate::names_under::is_under;
use paths::{Name, Path};

/// Whether the path is in the list.
pub(crate) fn contains(paths: &[Path], path: &Path) -> bool
    ensures among { result ≡ is_among paths.now path.now }
    ensures found { IsTrue result ↔ Contains paths.now path.now }
{
    for other in paths {
        if other.is(path) {
            return true;
        }
    }
    false
}

/// Whether the list has the path of the name under the parent. That path is not built.
pub(crate) fn contains_name(paths: &[Path], parent: &Path, name: &Name) -> bool
    ensures { IsTrue result ↔ Contains paths.now (parent.now ++ name.now ∷ []) }
{
    for path in paths {
        if is_under(path, parent, name) {
            return true;
        }
    }
    false
}
