//! The key of an entry, and a query for it that copies no name.

ghost use Rattle.std.specs.Prelude.{◌≡◌};
ghost use Rattle.std.specs.List.{fold};
ghost use Rattle.std.specs.Cmp.Rules.{comparing};
ghost use Rattle.std.proofs.Common.{rules};
ghost use Rattle.std.proofs.Common.{ap};
ghost use Rattle.path_cache.specs.declared.keys.Key.{Key};
ghost use Rattle.path_cache.specs.Keys.{same_key, is_key, key_is, is_key-congr, fed_key, same_fed};

use paths::Name;
use std::collections::hash_map::Equivalent;
use std::hash::{Hash, Hasher};

/// A name in the folder whose entry has that number.
#[derive(Eq, Drop)]
pub struct Key {
    pub(crate) parent: u64,
    pub(crate) name: Name,
}

impl PartialEq for Key {
    ghost eq = { same_key };

    ghost laws = { Prim.search (comparing, rules) };

    fn eq(&self, other: &Key) -> bool {
        self.parent == other.parent && self.name == other.name
    }
}

impl Hash for Key {
    // The number comes first and has eight bytes, so nothing needs to end the name: no two keys give a hasher the same bytes.
    ghost hash_input = { λ k. fed_key k.parent k.name };

    ghost respects_eq = { λ x y same. ap (λ (k : Key). fed_key k.parent k.name) (key_is x.parent x.name y same) };

    fn hash<H: Hasher>(&self, state: &mut H) {
        feed(self.parent, &self.name, state);
    }
}

/// Feeds the key of that name in that folder.
fn feed<H: Hasher>(parent: u64, name: &Name, state: &mut H)
    ensures { state.new ≡ fold H.write state.old (fed_key parent name.now) }
{
    state.write_u64(parent);
    state.write(name.as_bytes());
}

/// What stands for the key of that name in that folder.
#[derive(Clone, Copy, PartialEq, Eq)]
pub(crate) struct Query<'a> {
    pub(crate) parent: u64,
    pub(crate) name: &'a Name,
}

impl<'a> Hash for Query<'a> {
    ghost hash_input = { λ q. fed_key q.parent q.name.now };

    ghost respects_eq = { λ x y same. same_fed x.parent y.parent x.name.now y.name.now same };

    fn hash<H: Hasher>(&self, state: &mut H) {
        feed(self.parent, self.name, state);
    }
}

impl<'a> Equivalent<Key> for Query<'a> {
    ghost equivalent = { λ q. is_key q.parent q.name.now };

    ghost respects_hash = { λ q k h. ap (λ (x : Key). ⟦<Key as Hash>⟧.hash_input x) (key_is q.parent q.name.now k h) };

    ghost respects_eq = { λ q. is_key-congr q.parent q.name.now };

    fn equivalent(&self, key: &Key) -> bool {
        self.parent == key.parent && *self.name == key.name
    }
}
