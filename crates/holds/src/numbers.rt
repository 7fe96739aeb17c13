//! How many requests hold each path.
//!
//! A path counts once per request, even if it is in the request's list several times. A query about a path is one
//! look-up, however many requests are in flight. Room is made when a request is added, so that its end does not
//! allocate.

ghost use Rattle.std.specs.Prelude.{◌≡◌, ◌<◌, ◌≤◌, ◌+◌, ◌*◌, ◌^◌, ◌↔◌, ◌++◌, ◌∷◌, [], true, false, if◌then◌else◌, Any, IfOk, IsTrue, OnErr, OnOk, length};
ghost use Rattle.paths.specs.Prefixes.{Names};
ghost use Rattle.collections.specs.Living.{live, places};
ghost use Rattle.holds.specs.Conflicts.{is_among};
ghost use Rattle.holds.specs.Numbers.{Adds, AreNumbers, HasPlaces, IsHeldUp, Raises, counted_in, holders_on, is_same_path, no_holders};

use crate::finding::contains;
use crate::held::Held;
use crate::names_under::NameUnder;
use collections::steady_map::{make_places, put_back, replace, set, take, value_by, value_of};
use indexmap::IndexMap;
use paths::{Name, Path};
use std::alloc::{AllocError, Global};
use std::hash::RandomState;

/// How many requests hold a path.
#[derive(Clone, Copy)]
pub struct Holders {
    pub shared: u64,
    pub exclusive: u64,
}

/// No holders.
const NOBODY: Holders = Holders {
    shared: 0,
    exclusive: 0,
};

/// One request that shares the path.
const SHARER: Holders = Holders {
    shared: 1,
    exclusive: 0,
};

/// One request that holds the path exclusively.
const OWNER: Holders = Holders {
    shared: 0,
    exclusive: 1,
};

/// The two numbers of each path that is held.
#[derive(Drop)]
pub struct HoldNumbers {
    pub by_path: IndexMap<Path, Option<Holders>, RandomState>,
    /// How many paths are held.
    pub paths: usize,
}

impl HoldNumbers {
    /// No path is held. The map hashes with that seed.
    pub fn new(alloc: Global, seed: RandomState) -> HoldNumbers
        ensures none { (path : Names) → holders_on result path ≡ no_holders }
        ensures law { AreNumbers result }
    {
        HoldNumbers {
            by_path: IndexMap::with_hasher(alloc, seed),
            paths: 0,
        }
    }

    /// How many requests share the path, and how many hold it exclusively.
    pub fn holders_on(&self, path: &Path) -> Holders
        ensures { result ≡ holders_on self.now path.now }
    {
        match value_of(&self.by_path, path) {
            Some(holders) => holders,
            None => NOBODY,
        }
    }

    /// Whether some request holds the name under the parent exclusively. It does not allocate.
    pub fn is_held_exclusively(&self, parent: &Path, name: &Name) -> bool
        ensures { IsTrue result ↔ (0 < (holders_on self.now (parent.now ++ name.now ∷ [])).exclusive) }
    {
        match value_by(&self.by_path, NameUnder { parent, name }) {
            Some(holders) => holders.exclusive > 0,
            None => false,
        }
    }

    /// Whether a request that wants to hold this must wait for others.
    pub fn holds_up(&self, wanted: &Held) -> bool
        requires { AreNumbers self.now }
        ensures { IsTrue result ↔ IsHeldUp self.now wanted.now }
    {
        if self.paths == 0 {
            return false;
        }
        self.is_any_held(wanted.exclusive.as_slice())
            || self.is_any_exclusive(wanted.shared.as_slice())
    }

    /// Whether some request holds one of the paths.
    fn is_any_held(&self, paths: &[Path]) -> bool
        ensures { IsTrue result ↔ Any (λ path. 0 < (holders_on self.now path).shared + (holders_on self.now path).exclusive) paths.now }
    {
        for path in paths {
            let holders = self.holders_on(path);
            if holders.shared > 0 || holders.exclusive > 0 {
                return true;
            }
        }
        false
    }

    /// Whether some request holds one of the paths exclusively.
    fn is_any_exclusive(&self, paths: &[Path]) -> bool
        ensures { IsTrue result ↔ Any (λ path. 0 < (holders_on self.now path).exclusive) paths.now }
    {
        for path in paths {
            if self.holders_on(path).exclusive > 0 {
                return true;
            }
        }
        false
    }

    /// Adds a request that holds this. Out of memory is the only error; then no number changes.
    pub fn add(&mut self, held: &Held) -> Result<(), AllocError>
        requires law { AreNumbers self.old }
        requires few { (path : Names) → ((holders_on self.old path).shared + 1 < 2 ^ 64) × ((holders_on self.old path).exclusive + 1 < 2 ^ 64) }
        ensures adds { OnOk result (Adds self.old held.now self.new) }
        ensures same { OnErr result ((path : Names) → holders_on self.new path ≡ holders_on self.old path) }
        ensures law { AreNumbers self.new }
    {
        let (shared, exclusive) = (held.shared.as_slice(), held.exclusive.as_slice());
        self.reserve(shared.len() + exclusive.len())?;
        raise_all(self, shared, SHARER)?;
        match raise_all(self, exclusive, OWNER) {
            Ok(()) => Ok(()),
            Err(error) => {
                lower_all(self, shared, SHARER);
                Err(error)
            }
        }
    }

    /// Makes room for `more` further paths.
    fn reserve(&mut self, more: usize) -> Result<(), AllocError>
        requires law { AreNumbers self.old }
        ensures ok { OnOk result (HasPlaces self.new more) }
        ensures same { (path : Names) → holders_on self.new path ≡ holders_on self.old path }
        ensures law { AreNumbers self.new }
    {
        make_places(&mut self.by_path, self.paths, more)?;
        let _places = self.by_path.capacity(); // proof: a `usize` counts them
        Ok(())
    }

    /// Removes a request that held this. It does not allocate.
    pub fn drop_holds(&mut self, held: &Held)
        requires law { AreNumbers self.old }
        requires shared { (path : Names) → counted_in held.now.shared path 1 ≤ (holders_on self.old path).shared }
        requires exclusive { (path : Names) → counted_in held.now.exclusive path 1 ≤ (holders_on self.old path).exclusive }
        ensures drops { Adds self.new held.now self.old }
        ensures law { AreNumbers self.new }
    {
        lower_all(self, held.shared.as_slice(), SHARER);
        lower_all(self, held.exclusive.as_slice(), OWNER);
    }
}

/// Adds one holder of the path, for which there is room. The only error is that the path's reference count cannot grow
/// further; then nothing changes.
fn raise(numbers: &mut HoldNumbers, path: &Path, one: Holders) -> Result<(), AllocError>
    requires law { AreNumbers numbers.old }
    requires some { 0 < one.shared + one.exclusive }
    requires room { HasPlaces numbers.old 1 }
    requires shared { (holders_on numbers.old path.now).shared + one.shared < 2 ^ 64 }
    requires exclusive { (holders_on numbers.old path.now).exclusive + one.exclusive < 2 ^ 64 }
    ensures shared { OnOk result ((p : Names) → (holders_on numbers.new p).shared ≡ (holders_on numbers.old p).shared + (if is_same_path path.now p then one.shared else 0)) }
    ensures exclusive { OnOk result ((p : Names) → (holders_on numbers.new p).exclusive ≡ (holders_on numbers.old p).exclusive + (if is_same_path path.now p then one.exclusive else 0)) }
    ensures same { OnErr result (numbers.new ≡ numbers.old) }
    ensures live { live numbers.new.by_path ≤ live numbers.old.by_path + 1 }
    ensures places { places numbers.old.by_path ≤ places numbers.new.by_path }
    ensures law { AreNumbers numbers.new }
{
    let copy = path.copy()?;
    match replace(&mut numbers.by_path, copy, one) {
        Some(holders) => {
            let more = Holders {
                shared: holders.shared + one.shared,
                exclusive: holders.exclusive + one.exclusive,
            };
            set(&mut numbers.by_path, path, more);
        }
        None => numbers.paths += 1,
    }
    Ok(())
}

/// Removes one holder of the path. It does not allocate.
fn lower(numbers: &mut HoldNumbers, path: &Path, one: Holders)
    requires law { AreNumbers numbers.old }
    requires some { 0 < one.shared + one.exclusive }
    requires shared { one.shared ≤ (holders_on numbers.old path.now).shared }
    requires exclusive { one.exclusive ≤ (holders_on numbers.old path.now).exclusive }
    ensures shared { (p : Names) → (holders_on numbers.new p).shared + (if is_same_path path.now p then one.shared else 0) ≡ (holders_on numbers.old p).shared }
    ensures exclusive { (p : Names) → (holders_on numbers.new p).exclusive + (if is_same_path path.now p then one.exclusive else 0) ≡ (holders_on numbers.old p).exclusive }
    ensures law { AreNumbers numbers.new }
{
    let Some(holders) = take(&mut numbers.by_path, path) else {
        return;
    };
    let less = Holders {
        shared: holders.shared - one.shared,
        exclusive: holders.exclusive - one.exclusive,
    };
    if less.shared == 0 && less.exclusive == 0 {
        numbers.paths -= 1;
    } else {
        put_back(&mut numbers.by_path, path, less);
    }
}

/// Adds one holder of each of the paths, for which there is room. The only error is that the reference count of one
/// cannot grow further; then no number changes.
fn raise_all(numbers: &mut HoldNumbers, paths: &[Path], one: Holders) -> Result<(), AllocError>
    requires law { AreNumbers numbers.old }
    requires some { 0 < one.shared + one.exclusive }
    requires room { HasPlaces numbers.old (length paths.now) }
    requires few { (path : Names) → ((holders_on numbers.old path).shared + one.shared < 2 ^ 64) × ((holders_on numbers.old path).exclusive + one.exclusive < 2 ^ 64) }
    ensures raises { OnOk result (Raises numbers.old paths.now one numbers.new) }
    ensures same { OnErr result ((path : Names) → holders_on numbers.new path ≡ holders_on numbers.old path) }
    ensures live { OnOk result (live numbers.new.by_path ≤ live numbers.old.by_path + length paths.now) }
    ensures places { OnOk result (places numbers.old.by_path ≤ places numbers.new.by_path) }
    ensures law { AreNumbers numbers.new }
{
    for (i, path) in paths.iter().enumerate() {
        match raise_once(numbers, &paths[..i], path, one) {
            Ok(()) => {}
            Err(error) => {
                lower_all(numbers, &paths[..i], one);
                return Err(error);
            }
        }
    }
    Ok(())
}

/// Adds one holder of the path, for which there is room, unless `before` has the path too. The error is that of
/// `raise`.
fn raise_once(
    numbers: &mut HoldNumbers,
    before: &[Path],
    path: &Path,
    one: Holders,
) -> Result<(), AllocError>
    requires law { AreNumbers numbers.old }
    requires some { 0 < one.shared + one.exclusive }
    requires room { HasPlaces numbers.old 1 }
    requires shared { is_among before.now path.now ≡ false → (holders_on numbers.old path.now).shared + one.shared < 2 ^ 64 }
    requires exclusive { is_among before.now path.now ≡ false → (holders_on numbers.old path.now).exclusive + one.exclusive < 2 ^ 64 }
    ensures shared { OnOk result ((p : Names) → (holders_on numbers.new p).shared + counted_in before.now p one.shared ≡ (holders_on numbers.old p).shared + counted_in (before.now ++ path.now ∷ []) p one.shared) }
    ensures exclusive { OnOk result ((p : Names) → (holders_on numbers.new p).exclusive + counted_in before.now p one.exclusive ≡ (holders_on numbers.old p).exclusive + counted_in (before.now ++ path.now ∷ []) p one.exclusive) }
    ensures same { OnErr result (numbers.new ≡ numbers.old) }
    ensures live { live numbers.new.by_path ≤ live numbers.old.by_path + 1 }
    ensures places { places numbers.old.by_path ≤ places numbers.new.by_path }
    ensures law { AreNumbers numbers.new }
{
    if contains(before, path) {
        return Ok(());
    }
    raise(numbers, path, one)
}

/// Removes one holder of each of the paths. It does not allocate.
fn lower_all(numbers: &mut HoldNumbers, paths: &[Path], one: Holders)
    requires law { AreNumbers numbers.old }
    requires some { 0 < one.shared + one.exclusive }
    requires shared { (path : Names) → counted_in paths.now path one.shared ≤ (holders_on numbers.old path).shared }
    requires exclusive { (path : Names) → counted_in paths.now path one.exclusive ≤ (holders_on numbers.old path).exclusive }
    ensures lowers { Raises numbers.new paths.now one numbers.old }
    ensures law { AreNumbers numbers.new }
{
    for (i, path) in paths.iter().enumerate() {
        lower_once(numbers, &paths[..i], path, one);
    }
}

/// Removes one holder of the path, unless `before` has the path too. It does not allocate.
fn lower_once(numbers: &mut HoldNumbers, before: &[Path], path: &Path, one: Holders)
    requires law { AreNumbers numbers.old }
    requires some { 0 < one.shared + one.exclusive }
    requires shared { is_among before.now path.now ≡ false → one.shared ≤ (holders_on numbers.old path.now).shared }
    requires exclusive { is_among before.now path.now ≡ false → one.exclusive ≤ (holders_on numbers.old path.now).exclusive }
    ensures shared { (p : Names) → (holders_on numbers.new p).shared + counted_in (before.now ++ path.now ∷ []) p one.shared ≡ (holders_on numbers.old p).shared + counted_in before.now p one.shared }
    ensures exclusive { (p : Names) → (holders_on numbers.new p).exclusive + counted_in (before.now ++ path.now ∷ []) p one.exclusive ≡ (holders_on numbers.old p).exclusive + counted_in before.now p one.exclusive }
    ensures law { AreNumbers numbers.new }
{
    if contains(before, path) {
        return;
    }
    lower(numbers, path, one);
}
