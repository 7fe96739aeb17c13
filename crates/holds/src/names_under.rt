//! Looking up the path of a name under a parent without building that path.

ghost use Rattle.std.specs.Prelude.{◌≡◌, ◌↔◌, ◌++◌, ◌∷◌, [], IsTrue, nat_eq};
ghost use Rattle.std.specs.Cmp.Lexicographic.{bytes_decides, lists_equiv, nat_list_eq_equiv, pointwise, pointwise_decides};
ghost use Rattle.holds.specs.Numbers.{is_same_path};
ghost use Rattle.holds.specs.Under.{fed_alike};

use indexmap::Equivalent;
use paths::{Name, Path};

/// A name under a path.
#[derive(Clone, Copy, PartialEq, Eq, Hash)]
pub(crate) struct NameUnder<'a> {
    pub(crate) parent: &'a Path,
    pub(crate) name: &'a Name,
}

impl<'a> Equivalent<Path> for NameUnder<'a> {
    ghost equivalent = { λ q. is_same_path (q.parent.now ++ q.name.now ∷ []) };

    ghost respects_hash = { λ q. fed_alike q.parent.now q.name.now };

    ghost respects_eq = { λ q. (lists_equiv nat_list_eq_equiv).congr (q.parent.now ++ q.name.now ∷ []) };

    fn equivalent(&self, path: &Path) -> bool {
        is_under(path, self.parent, self.name)
    }
}

/// Whether `path` is the path of the name under the parent.
pub(crate) fn is_under(path: &Path, parent: &Path, name: &Name) -> bool
    ensures { IsTrue result ↔ (path.now ≡ parent.now ++ name.now ∷ []) }
{
    let names = path.names();
    let above = parent.len();
    if names.len() <= above {
        return false;
    }
    if names.len() - 1 != above {
        return false;
    }
    if !parent.is_prefix_of(path) {
        return false;
    }
    names[above].is(name)
}
