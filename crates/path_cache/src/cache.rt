//! The cache, as its callers see it: what is kept at which path, and at which place.

ghost use Rattle.std.specs.Prelude.{◌≡◌, ◌≤◌, ◌-◌, ◌⊎◌, ◌++◌, ◌∷◌, [], false, min, None, Some, IsSome, IfNone, IfSome, IfOk, MatchOption};
ghost use Rattle.paths.specs.Prefixes.{Names, is_prefix};
ghost use Rattle.path_cache.specs.declared.places.Place.{Place};
ghost use Rattle.path_cache.specs.Cache.{kept_at, IsAt, value_at, looked_at, count_of, capacity_of, with_value, without_all, root_alone, AreApart, IsRelocated, at_root};

use crate::entries::{
    Entries, Entry, drop_least_used, entry_of, put_back, put_in, set_looked, take_out, use_entry,
};
use crate::places::{Peeked, Place};
use lru::LruCache;
use paths::Name;
use std::alloc::{AllocError, Global};
use std::hash::RandomState;
use std::marker::Model;

/// Values kept by their paths. An entry is found by the number of the folder's entry and its name, and a number never comes back:
/// a rename moves one entry, and all below it follows; a removal takes one out, and what was below it is not reached any more.
///
/// Only [`make_room`](PathCache::make_room) drops what is still reached, the least recently used first.
#[derive(Drop)]
pub struct PathCache<V> {
    entries: Entries<V>,
    /// So many entries there may be, besides the root.
    capacity: usize,
    /// The number of the next entry. The root's is 0.
    next: u64,
    root: V,
    /// When the root was last looked at, in milliseconds.
    root_looked: u64,
}

impl<V> Model for PathCache<V> {
    ghost use Rattle.std.specs.Prelude.{◌≡◌, ◌≤◌, ◌-◌, ◌^◌, length};
    ghost use Rattle.path_cache.specs.Walks.{IsNumbered};
    ghost use Rattle.path_cache.specs.Entries.{found};
    ghost use Rattle.path_cache.specs.Cache.{Cache};

    ghost Value = { Cache V };

    ghost view = { λ c. record { entries = c.entries.entries; capacity = c.capacity; next = c.next; root = c.root; root_looked = c.root_looked } };

    ghost invariant = { λ c. IsNumbered (found c.entries.entries) c.next × (c.entries.cap ≡ 2 ^ 64 - 1) × (length c.entries.entries ≤ c.capacity) };
}

impl<V: Drop> PathCache<V> {
    /// A cache of the root alone, which may come to have so many entries besides. It hashes by that seed.
    pub fn new(
        alloc: Global,
        capacity: usize,
        seed: RandomState,
        root: V,
    ) -> Result<PathCache<V>, AllocError>
        ensures kept { IfOk result (λ cache. (p : Names) → kept_at cache p ≡ at_root root p) }
        ensures capacity { IfOk result (λ cache. capacity_of cache ≡ capacity) }
    {
        let entries = LruCache::unbounded_with_hasher(alloc, seed)?;
        Ok(PathCache {
            entries,
            capacity,
            next: 1,
            root,
            root_looked: 0,
        })
    }

    /// Where the name is kept in the folder there. What is found is the most recently used from now on.
    pub fn child<'a>(&mut self, place: Place<'_>, name: &'a Name) -> Option<Place<'a>>
        ensures kept { (p : Names) → kept_at self.new p ≡ kept_at self.old p }
        ensures places { (other : Place) (q : Names) → IsAt self.old other q → IsAt self.new other q }
        ensures some { (up : Names) → IsAt self.old place.entry up → IfSome result (λ found. IsAt self.new found (up ++ name.now ∷ [])) }
        ensures none { (up : Names) → IsAt self.old place.entry up → IfNone result (kept_at self.old (up ++ name.now ∷ []) ≡ None) }
        ensures capacity { capacity_of self.new ≡ capacity_of self.old }
    {
        let parent = place.number();
        let Some(number) = use_entry(&mut self.entries, parent, name) else {
            return None;
        };
        Some(Place::Child {
            parent,
            name,
            number,
        })
    }

    /// What is kept under the name in the folder there, by one look-up. When it was last used stays as it was.
    pub fn peek<'a>(&self, place: Place<'_>, name: &'a Name) -> Option<Peeked<'a, '_, V>>
        ensures some { (up : Names) → IsAt self.now place.entry up → IfSome result (λ found. IsAt self.now found.place (up ++ name.now ∷ [])) }
        ensures none { (up : Names) → IsAt self.now place.entry up → IfNone result (kept_at self.now (up ++ name.now ∷ []) ≡ None) }
        ensures value { IfSome result (λ found. value_at self.now found.place ≡ Some found.value.now) }
        ensures looked { IfSome result (λ found. looked_at self.now found.place ≡ Some found.looked) }
    {
        let parent = place.number();
        let Some(entry) = entry_of(&self.entries, parent, name) else {
            return None;
        };
        let place = Place::Child {
            parent,
            name,
            number: entry.number,
        };
        Some(Peeked {
            place,
            value: &entry.value,
            looked: entry.looked,
        })
    }

    /// The value there.
    pub fn value(&self, place: Place<'_>) -> &V
        requires { IsSome (value_at self.now place) }
        ensures { value_at self.now place.entry ≡ Some result.now }
    {
        match place {
            Place::Root => &self.root,
            Place::Child { parent, name, .. } => match entry_of(&self.entries, parent, name) {
                Some(entry) => &entry.value,
                None => unreachable!(),
            },
        }
    }

    /// When it was last seen to stand there, in milliseconds as the caller gave it; 0 where nothing is kept.
    pub fn looked(&self, place: Place<'_>) -> u64
        ensures { MatchOption (looked_at self.now place.entry) (result ≡ 0) (λ at. result ≡ at) }
    {
        match place {
            Place::Root => self.root_looked,
            Place::Child { parent, name, .. } => match entry_of(&self.entries, parent, name) {
                Some(entry) => entry.looked,
                None => 0,
            },
        }
    }

    /// Notes that it was seen to stand there, at that time in milliseconds. It is the most recently used from now on.
    pub fn touch(&mut self, place: Place<'_>, at: u64)
        ensures kept { (p : Names) → kept_at self.new p ≡ kept_at self.old p }
        ensures places { (other : Place) (q : Names) → IsAt self.old other q → IsAt self.new other q }
        ensures looked { IsSome (looked_at self.old place.entry) → looked_at self.new place.entry ≡ Some at }
        ensures capacity { capacity_of self.new ≡ capacity_of self.old }
    {
        match place {
            Place::Root => self.root_looked = at,
            Place::Child { parent, name, .. } => set_looked(&mut self.entries, parent, name, at),
        }
    }

    /// Drops the least recently used until so many more fit, or the root alone is left.
    pub fn make_room(&mut self, n: usize)
        ensures kept { (p : Names) → (kept_at self.new p ≡ kept_at self.old p) ⊎ (kept_at self.new p ≡ None) }
        ensures count { count_of self.new ≡ min (count_of self.old) (capacity_of self.old - n) }
        ensures capacity { capacity_of self.new ≡ capacity_of self.old }
    {
        drop_least_used(&mut self.entries, self.capacity.saturating_sub(n));
    }

    /// Keeps the value under the name in the folder there, seen at that time in milliseconds, in the place of what is kept there; what
    /// was below that is not kept any more. Nothing changes where there is no room or no memory, and the value is dropped.
    pub fn keep<'a>(
        &mut self,
        place: Place<'_>,
        name: &'a Name,
        value: V,
        at: u64,
    ) -> Option<Place<'a>>
        ensures some { (up : Names) → IsAt self.old place.entry up → IfSome result (λ kept. IsAt self.new kept (up ++ name.now ∷ [])) }
        ensures kept { (up : Names) → IsAt self.old place.entry up → IfSome result (λ _. (p : Names) → kept_at self.new p ≡ with_value (kept_at self.old) (up ++ name.now ∷ []) value p) }
        ensures places { (up : Names) → IsAt self.old place.entry up → (other : Place) (q : Names) → is_prefix (up ++ name.now ∷ []) q ≡ false → IsAt self.old other q → IsAt self.new other q }
        ensures looked { IfSome result (λ kept. looked_at self.new kept ≡ Some at) }
        ensures none { IfNone result (self.new ≡ self.old) }
        ensures capacity { capacity_of self.new ≡ capacity_of self.old }
    {
        let parent = place.number();
        let number = self.next;
        if parent >= number || number == u64::MAX || self.entries.len() >= self.capacity {
            return None;
        }
        let entry = Entry {
            number,
            looked: at,
            value,
        };
        if !put_in(&mut self.entries, parent, name, entry) {
            return None;
        }
        self.next = number + 1;
        Some(Place::Child {
            parent,
            name,
            number,
        })
    }

    /// Keeps nothing under the name in the folder there any more, nor below it.
    pub fn forget(&mut self, place: Place<'_>, name: &Name)
        ensures kept { (up : Names) → IsAt self.old place.entry up → (p : Names) → kept_at self.new p ≡ without_all (kept_at self.old) (up ++ name.now ∷ []) p }
        ensures places { (up : Names) → IsAt self.old place.entry up → (other : Place) (q : Names) → is_prefix (up ++ name.now ∷ []) q ≡ false → IsAt self.old other q → IsAt self.new other q }
        ensures capacity { capacity_of self.new ≡ capacity_of self.old }
    {
        drop(take_out(&mut self.entries, place.number(), name));
    }

    /// Keeps what is kept under the one name under the other one, with all below it, in the place of what is kept there. Where memory
    /// is refused, nothing is kept under either.
    pub fn relocate(&mut self, from: Place<'_>, from_name: &Name, to: Place<'_>, to_name: &Name)
        ensures kept { (up above : Names) → IsAt self.old from.entry up → IsAt self.old to.entry above → AreApart (up ++ from_name.now ∷ []) (above ++ to_name.now ∷ []) → IsRelocated (kept_at self.old) (up ++ from_name.now ∷ []) (above ++ to_name.now ∷ []) (kept_at self.new) }
        ensures places { (up above : Names) → IsAt self.old from.entry up → IsAt self.old to.entry above → AreApart (up ++ from_name.now ∷ []) (above ++ to_name.now ∷ []) → (other : Place) (q : Names) → is_prefix (up ++ from_name.now ∷ []) q ≡ false → is_prefix (above ++ to_name.now ∷ []) q ≡ false → IsAt self.old other q → IsAt self.new other q }
        ensures capacity { capacity_of self.new ≡ capacity_of self.old }
    {
        let (parent, folder) = (from.number(), to.number());
        // No entry has that number: the place is of another cache.
        if folder >= self.next {
            return;
        }
        let moved = take_out(&mut self.entries, parent, from_name);
        drop(take_out(&mut self.entries, folder, to_name));
        put_back(&mut self.entries, folder, to_name, moved);
    }

    /// Keeps the root alone.
    pub fn clear(&mut self)
        ensures kept { (p : Names) → kept_at self.new p ≡ root_alone (kept_at self.old) p }
        ensures capacity { capacity_of self.new ≡ capacity_of self.old }
    {
        self.entries.clear();
    }

    /// How many entries there are besides the root, those that are not reached any more among them. They are never more than may be.
    pub fn len(&self) -> usize
        ensures len { result ≡ count_of self.now }
        ensures bounded { count_of self.now ≤ capacity_of self.now }
    {
        self.entries.len()
    }
}
