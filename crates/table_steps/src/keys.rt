//! The keys under which a node is put into the tree.

ghost use Rattle.std.specs.Prelude.{◌≡◌, Some};

use paths::Name;
use table_requests::Names;
use tree::Key;

/// The key of a name, twice: the tree needs one for the node and one for the index.
#[derive(Drop)]
pub(crate) struct Keys {
    pub(crate) key: Key,
    pub(crate) copy: Key,
    ghost same: { copy ≡ key },
}

impl Keys {
    pub(crate) fn new(parent: u64, name: Name, copy: Option<Name>) -> Keys
        requires { copy ≡ Some name }
        ensures { result.key ≡ record { parent = parent; name = name } }
    {
        let Some(copy) = copy else {
            unreachable!();
        };
        Keys {
            key: Key { parent, name },
            copy: Key { parent, name: copy },
        }
    }
}

/// Names in one folder, each twice.
#[derive(Drop)]
pub(crate) struct FolderKeys {
    pub(crate) folder: u64,
    pub(crate) names: Names,
    pub(crate) copies: Names,
    ghost same: { copies ≡ names },
}
