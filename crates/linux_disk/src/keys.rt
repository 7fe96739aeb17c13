//! The key of an open file, and a query for it that copies no name.

ghost use Rattle.std.specs.Prelude.{◌≡◌, IfOk};
ghost use Rattle.std.specs.List.{fold};
ghost use Rattle.std.specs.Cmp.Rules.{comparing};
ghost use Rattle.std.proofs.Common.{rules};
ghost use Rattle.std.proofs.Common.{ap};
ghost use Rattle.linux_disk.specs.declared.keys.FileKey.{FileKey};
ghost use Rattle.linux_disk.specs.Keys.{same_key, is_key, key_is, key_of, is_key-congr, fed_key, same_fed};

use disk::FileId;
use paths::Name;
use std::alloc::AllocError;
use std::collections::hash_map::Equivalent;
use std::hash::{Hash, Hasher};

/// A name in the folder of these numbers.
#[derive(Eq, Drop)]
pub struct FileKey {
    pub(crate) device: u64,
    pub(crate) inode: u64,
    pub(crate) name: Name,
}

impl PartialEq for FileKey {
    ghost eq = { same_key };

    ghost laws = { Prim.search (comparing, rules) };

    fn eq(&self, other: &FileKey) -> bool {
        self.device == other.device && (self.inode == other.inode && self.name == other.name)
    }
}

impl Hash for FileKey {
    // The numbers come first and have eight bytes each, so nothing needs to end the name: no two keys give a hasher the same bytes.
    ghost hash_input = { λ k. fed_key k.device k.inode k.name };

    ghost respects_eq = { λ x y same. ap (λ (k : FileKey). fed_key k.device k.inode k.name) (key_is x.device x.inode x.name y same) };

    fn hash<H: Hasher>(&self, state: &mut H) {
        feed(self.device, self.inode, &self.name, state);
    }
}

/// Feeds the key of that name in the folder of these numbers.
fn feed<H: Hasher>(device: u64, inode: u64, name: &Name, state: &mut H)
    ensures { state.new ≡ fold H.write state.old (fed_key device inode name.now) }
{
    state.write_u64(device);
    state.write_u64(inode);
    state.write(name.as_bytes());
}

/// What stands for the key of that name in that folder.
#[derive(Clone, Copy, PartialEq, Eq)]
pub struct Query<'a> {
    pub(crate) device: u64,
    pub(crate) inode: u64,
    pub(crate) name: &'a Name,
}

impl<'a> Hash for Query<'a> {
    ghost hash_input = { λ q. fed_key q.device q.inode q.name.now };

    ghost respects_eq = { λ x y same. same_fed x.device y.device x.inode y.inode x.name.now y.name.now same };

    fn hash<H: Hasher>(&self, state: &mut H) {
        feed(self.device, self.inode, self.name, state);
    }
}

impl<'a> Equivalent<FileKey> for Query<'a> {
    ghost equivalent = { λ q. is_key q.device q.inode q.name.now };

    ghost respects_hash = { λ q k h. ap (λ (x : FileKey). ⟦<FileKey as Hash>⟧.hash_input x) (key_is q.device q.inode q.name.now k h) };

    ghost respects_eq = { λ q. is_key-congr q.device q.inode q.name.now };

    fn equivalent(&self, key: &FileKey) -> bool {
        self.device == key.device && (self.inode == key.inode && *self.name == key.name)
    }
}

impl<'a> Query<'a> {
    /// The name in that folder.
    pub(crate) fn new(folder: FileId, name: &'a Name) -> Query<'a>
        ensures { (result.device ≡ folder.device) × (result.inode ≡ folder.inode) × (result.name.now ≡ name.entry.now) }
    {
        Query {
            device: folder.device,
            inode: folder.inode,
            name,
        }
    }

    /// Its key, which copies the name: the error is that no further copy can be counted.
    pub(crate) fn key(&self) -> Result<FileKey, AllocError>
        ensures { IfOk result (λ key. key ≡ key_of self.now.device self.now.inode self.now.name.now) }
    {
        Ok(FileKey {
            device: self.device,
            inode: self.inode,
            name: self.name.copy()?,
        })
    }
}
