//! A hash map that loses no room: a later insertion uses the room that a removal frees, without allocating, however
//! often.
//!
//! The kit's index map does not promise this. So a key that is removed keeps its entry, without a value, and once all
//! room is used up the map is compacted. As long as the keys with a value, and those that may still come, take at most
//! half of the room, this costs a constant per insertion.

ghost use Rattle.std.specs.Prelude.{true, false, ◌≡◌, ◌≢◌, ◌<◌, ◌≤◌, ◌+◌, ◌*◌, ℕ, None, Some, IsOk, IsSome, OnOk, is_some, if◌then◌else◌, slice_index_or, ◌^◌, IfNone, IfSome, Option};
ghost use Rattle.indexmap.specs.IndexMap.{get, get_by, index_map_len, spare, IsUnchanged};
ghost use Rattle.collections.specs.Living.{found, joined, live, living, places, weight};

use indexmap::{Equivalent, IndexMap};
use std::alloc::AllocError;
use std::hash::{BuildHasher, Hash};

/// The value of the key.
pub fn value_of<K: Eq + Hash, V: Copy, S: BuildHasher>(
    map: &IndexMap<K, Option<V>, S>,
    key: &K,
) -> Option<V>
    ensures { result ≡ found K.eq map.now key.now }
{
    match map.get(key) {
        Some(value) => *value,
        None => None,
    }
}

/// The value of the key that is equivalent to the query.
pub fn value_by<K: Eq + Hash, V: Copy, S: BuildHasher, Q: Equivalent<K>>(
    map: &IndexMap<K, Option<V>, S>,
    query: Q,
) -> Option<V>
    ensures { result ≡ joined (get_by (Q.equivalent query) map.now) }
{
    match map.get(query) {
        Some(value) => *value,
        None => None,
    }
}

/// Writes the value of a key that has an entry. The result says whether it has one.
fn overwrite<K: Eq + Hash, V: Copy, S: BuildHasher>(
    map: &mut IndexMap<K, Option<V>, S>,
    key: &K,
    value: Option<V>,
) -> bool
    ensures there { result ≡ is_some (get K.eq map.old key.now) }
    ensures same { result ≡ false → map.new ≡ map.old }
    ensures values { result ≡ true → (q : K) → get K.eq map.new q ≡ (if K.eq key.now q then Some value else get K.eq map.old q) }
    ensures live { result ≡ true → live map.new + weight (found K.eq map.old key.now) ≡ live map.old + weight value }
    ensures len { index_map_len map.new ≡ index_map_len map.old }
    ensures spare { spare map.new ≡ spare map.old }
{
    match map.get_mut(key) {
        Some(place) => {
            *place = value;
            true
        }
        None => false,
    }
}

/// Writes the value of a key that has one. It does not allocate.
pub fn set<K: Eq + Hash, V: Copy, S: BuildHasher>(
    map: &mut IndexMap<K, Option<V>, S>,
    key: &K,
    value: V,
)
    requires there { is_some (found K.eq map.old key.now) ≡ true }
    ensures set { (q : K) → found K.eq map.new q ≡ (if K.eq key.now q then Some value else found K.eq map.old q) }
    ensures live { live map.new ≡ live map.old }
    ensures places { places map.new ≡ places map.old }
{
    overwrite(map, key, Some(value));
}

/// Removes the key and returns its value. It neither allocates nor loses room: the key keeps its entry.
pub fn take<K: Eq + Hash, V: Copy, S: BuildHasher>(
    map: &mut IndexMap<K, Option<V>, S>,
    key: &K,
) -> Option<V>
    ensures before { result ≡ found K.eq map.old key.now }
    ensures taken { (q : K) → found K.eq map.new q ≡ (if K.eq key.now q then None else found K.eq map.old q) }
    ensures entry { IsSome result → get K.eq map.new key.now ≡ Some None }
    ensures live { live map.new + weight (found K.eq map.old key.now) ≡ live map.old }
    ensures places { places map.new ≡ places map.old }
{
    match map.get_mut(key) {
        Some(place) => {
            let before = *place;
            *place = None;
            before
        }
        None => None,
    }
}

/// Removes the key. It neither allocates nor loses room.
pub fn take_out<K: Eq + Hash, V: Copy, S: BuildHasher>(map: &mut IndexMap<K, Option<V>, S>, key: &K)
    ensures taken { (q : K) → found K.eq map.new q ≡ (if K.eq key.now q then None else found K.eq map.old q) }
    ensures live { live map.new + weight (found K.eq map.old key.now) ≡ live map.old }
    ensures places { places map.new ≡ places map.old }
{
    take(map, key);
}

/// Puts a value under a key that was removed and still has its entry. It does not allocate.
pub fn put_back<K: Eq + Hash, V: Copy, S: BuildHasher>(
    map: &mut IndexMap<K, Option<V>, S>,
    key: &K,
    value: V,
)
    requires kept { get K.eq map.old key.now ≡ Some None }
    ensures put { (q : K) → found K.eq map.new q ≡ (if K.eq key.now q then Some value else found K.eq map.old q) }
    ensures live { live map.new ≡ live map.old + 1 }
    ensures places { places map.new ≡ places map.old }
{
    overwrite(map, key, Some(value));
}

/// Whether the entry of that index has a value.
fn lives<K: Eq + Hash, V: Copy, S: BuildHasher>(
    map: &IndexMap<K, Option<V>, S>,
    index: usize,
) -> bool
    requires { index < index_map_len map.now }
    ensures { (d : K × Option V) → result ≡ is_some (slice_index_or map.now.entries index d).1 }
{
    map[index].is_some()
}

/// Drops the entries without a value, so that their room is free again. It does not allocate.
fn compact<K: Eq + Hash + Drop, V: Copy + Drop, S: BuildHasher>(map: &mut IndexMap<K, Option<V>, S>)
    requires sparse { 2 * live map.old ≤ index_map_len map.old }
    ensures same { (q : K) → found K.eq map.new q ≡ found K.eq map.old q }
    ensures none { (q : K) → get K.eq map.old q ≡ None → get K.eq map.new q ≡ None }
    ensures live { live map.new ≡ live map.old }
    ensures len { index_map_len map.new ≡ live map.old }
    ensures places { places map.old ≤ places map.new }
{
    let mut kept = 0;
    for i in 0..map.len() {
        if lives(map, i) {
            map.swap_indices(i, kept);
            kept += 1;
        }
    }
    map.truncate(kept);
}

/// Puts a value under the key and returns the value before it. It does not allocate, and looks the key up once.
pub fn replace<K: Eq + Hash + Drop, V: Copy + Drop, S: BuildHasher>(
    map: &mut IndexMap<K, Option<V>, S>,
    key: K,
    value: V,
) -> Option<V>
    requires room { 2 * (live map.old + 1) ≤ places map.old }
    ensures before { result ≡ found K.eq map.old key }
    ensures put { (q : K) → found K.eq map.new q ≡ (if K.eq key q then Some value else found K.eq map.old q) }
    ensures live { live map.new + weight (found K.eq map.old key) ≡ live map.old + 1 }
    ensures places { places map.old ≤ places map.new }
{
    if map.len() == map.capacity() {
        compact(map);
    }
    write(map, key, value)
}

/// Puts a value under a key that has none. It does not allocate.
pub fn put<K: Eq + Hash + Drop, V: Copy + Drop, S: BuildHasher>(
    map: &mut IndexMap<K, Option<V>, S>,
    key: K,
    value: V,
)
    requires free { found K.eq map.old key ≡ None }
    requires room { 2 * (live map.old + 1) ≤ places map.old }
    ensures put { (q : K) → found K.eq map.new q ≡ (if K.eq key q then Some value else found K.eq map.old q) }
    ensures live { live map.new ≡ live map.old + 1 }
    ensures places { places map.old ≤ places map.new }
{
    replace(map, key, value);
}

/// Puts a value under the key, if there is room for an entry, and returns the value before it.
fn write<K: Eq + Hash + Drop, V: Copy + Drop, S: BuildHasher>(
    map: &mut IndexMap<K, Option<V>, S>,
    key: K,
    value: V,
) -> Option<V>
    requires room { 0 < spare map.old }
    ensures before { result ≡ found K.eq map.old key }
    ensures put { (q : K) → found K.eq map.new q ≡ (if K.eq key q then Some value else found K.eq map.old q) }
    ensures live { live map.new + weight (found K.eq map.old key) ≡ live map.old + 1 }
    ensures places { places map.old ≤ places map.new }
{
    match map.entry(key) {
        Ok(entry) => {
            let place = entry.or_insert(None);
            let before = *place;
            *place = Some(value);
            before
        }
        Err(_) => unreachable!(),
    }
}

/// Makes room for `more` keys, where `count` keys have a value. If memory is refused, nothing changes.
pub fn make_places<K: Eq + Hash, V: Copy, S: BuildHasher>(
    map: &mut IndexMap<K, Option<V>, S>,
    count: usize,
    more: usize,
) -> Result<(), AllocError>
    requires counted { count ≡ live map.old }
    ensures ok { OnOk result (2 * (live map.new + more) ≤ places map.new) }
    ensures same { IsUnchanged map.old map.new }
    ensures places { places map.old ≤ places map.new }
    ensures succeeds { 2 * (live map.old + more) ≤ places map.old → IsOk result }
{
    let capacity = map.capacity();
    let Some(wanted) = double_sum(count, more) else {
        return Err(AllocError);
    };
    if wanted <= capacity {
        return Ok(());
    }
    map.reserve(wanted - map.len())
}

/// Twice the sum, if a `usize` can hold it.
fn double_sum(a: usize, b: usize) -> Option<usize>
    ensures none { IfNone result (2 ^ 64 ≤ 2 * (a + b)) }
    ensures some { IfSome result (λ n. n ≡ 2 * (a + b)) }
{
    a.checked_add(b)?.checked_mul(2)
}
