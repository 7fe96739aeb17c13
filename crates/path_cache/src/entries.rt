//! The entries, each under a name in the folder that another one is, or the root.

ghost use Rattle.std.specs.Prelude.{◌≡◌, ◌≤◌, ◌+◌, ◌-◌, ◌^◌, true, false, length, take, Some, IsSome, IfSome};
ghost use Rattle.std.specs.Option.{option_map, option_copied};
ghost use Rattle.path_cache.specs.Walks.{with_found, without_found};
ghost use Rattle.path_cache.specs.Entries.{kept_of, entry_in, found, weight, MayPut};

use crate::keys::{Key, Query};
use lru::LruCache;
use paths::Name;
use std::collections::hash_map::Equivalent;
use std::hash::RandomState;

/// What is kept under a name.
#[derive(Drop)]
pub struct Entry<V> {
    /// Its number, which no other entry ever had.
    pub(crate) number: u64,
    /// When it was last seen to stand there, in milliseconds.
    pub(crate) looked: u64,
    pub(crate) value: V,
}

/// The entries by their keys, of which the least recently used one is the last.
pub(crate) type Entries<V> = LruCache<Key, Entry<V>, RandomState>;

/// The entry under the name, if that was used last: it is often used again, and no name is hashed to find it.
fn last_used<'a, V>(entries: &'a Entries<V>, parent: u64, name: &Name) -> Option<&'a Entry<V>>
    ensures { IfSome result (λ entry. entry_in entries.now.entries parent name.now ≡ Some entry.now) }
{
    match entries.peek_mru() {
        Some((key, entry)) => {
            if (Query { parent, name }).equivalent(key) {
                Some(entry)
            } else {
                None
            }
        }
        None => None,
    }
}

/// The number of the entry under the name, which comes first of all from now on.
fn number_of_used<V>(entries: &mut Entries<V>, parent: u64, name: &Name) -> Option<u64>
    ensures number { result ≡ option_map (λ k. k.number) (found entries.old.entries parent name.now) }
    ensures same { found entries.new.entries ≡ found entries.old.entries }
    ensures cap { entries.new.cap ≡ entries.old.cap }
    ensures len { length entries.new.entries ≡ length entries.old.entries }
{
    match entries.get(Query { parent, name }) {
        Some(entry) => Some(entry.number),
        None => None,
    }
}

/// The entry under the name, which is used now: its number.
pub(crate) fn use_entry<V>(entries: &mut Entries<V>, parent: u64, name: &Name) -> Option<u64>
    ensures number { result ≡ option_map (λ k. k.number) (found entries.old.entries parent name.now) }
    ensures same { found entries.new.entries ≡ found entries.old.entries }
    ensures cap { entries.new.cap ≡ entries.old.cap }
    ensures len { length entries.new.entries ≡ length entries.old.entries }
{
    match last_used(entries, parent, name) {
        Some(entry) => Some(entry.number),
        None => number_of_used(entries, parent, name),
    }
}

/// The entry under the name.
pub(crate) fn entry_of<'a, V>(
    entries: &'a Entries<V>,
    parent: u64,
    name: &Name,
) -> Option<&'a Entry<V>>
    ensures { option_copied result ≡ entry_in entries.now.entries parent name.now }
{
    match last_used(entries, parent, name) {
        Some(entry) => Some(entry),
        None => entries.peek(Query { parent, name }),
    }
}

/// Notes that the entry under the name, if there is one, was seen then, in milliseconds.
pub(crate) fn set_looked<V>(entries: &mut Entries<V>, parent: u64, name: &Name, at: u64)
    ensures same { found entries.new.entries ≡ found entries.old.entries }
    ensures looked { IsSome (entry_in entries.old.entries parent name.now) → option_map (λ e. e.looked) (entry_in entries.new.entries parent name.now) ≡ Some at }
    ensures cap { entries.new.cap ≡ entries.old.cap }
    ensures len { length entries.new.entries ≡ length entries.old.entries }
{
    match entries.get_mut(Query { parent, name }) {
        Some(entry) => entry.looked = at,
        None => {}
    }
}

/// Takes the entry under the name out.
pub(crate) fn take_out<V>(entries: &mut Entries<V>, parent: u64, name: &Name) -> Option<Entry<V>>
    ensures entry { result ≡ entry_in entries.old.entries parent name.now }
    ensures found { found entries.new.entries ≡ without_found (found entries.old.entries) parent name.now }
    ensures cap { entries.new.cap ≡ entries.old.cap }
    ensures len { length entries.new.entries + weight result ≡ length entries.old.entries }
{
    // Its contract says that no key is there twice.
    let _count = entries.len();
    entries.pop(Query { parent, name })
}

/// Puts the entry under the name, in the place of what was there. Nothing changes where memory is refused.
pub(crate) fn put_in<V: Drop>(
    entries: &mut Entries<V>,
    parent: u64,
    name: &Name,
    entry: Entry<V>,
) -> bool
    requires wide { entries.old.cap ≡ 2 ^ 64 - 1 }
    ensures put { result ≡ true → found entries.new.entries ≡ with_found (found entries.old.entries) parent name.now (kept_of entry) }
    ensures there { result ≡ true → entry_in entries.new.entries parent name.now ≡ Some entry }
    ensures same { result ≡ false → entries.new ≡ entries.old }
    ensures cap { entries.new.cap ≡ entries.old.cap }
    ensures len { length entries.new.entries ≤ length entries.old.entries + 1 }
{
    // Its contract says that no key is there twice, and that one more entry fits.
    let _count = entries.len();
    let Ok(name) = name.copy() else {
        return false;
    };
    match entries.put(Key { parent, name }, entry) {
        Ok(_) => true,
        Err(_) => false,
    }
}

/// Puts what was taken out, if there was an entry, under the name, where none is. Nothing changes where memory is refused.
pub(crate) fn put_back<V: Drop>(
    entries: &mut Entries<V>,
    parent: u64,
    name: &Name,
    entry: Option<Entry<V>>,
)
    requires wide { entries.old.cap ≡ 2 ^ 64 - 1 }
    ensures put { MayPut (found entries.old.entries) parent name.now (option_map kept_of entry) (found entries.new.entries) }
    ensures cap { entries.new.cap ≡ entries.old.cap }
    ensures len { length entries.new.entries ≤ length entries.old.entries + weight entry }
{
    match entry {
        Some(entry) => {
            put_in(entries, parent, name, entry);
        }
        None => {}
    }
}

/// Drops the least recently used entries until no more than so many are left.
pub(crate) fn drop_least_used<V: Drop>(entries: &mut Entries<V>, most: usize)
    ensures left { entries.new.entries ≡ take most entries.old.entries }
    ensures cap { entries.new.cap ≡ entries.old.cap }
{
    while entries.len() > most {
        drop(entries.pop_lru());
    }
}
