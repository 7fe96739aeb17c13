//! The children of each parent, as linked siblings: each child is linked to its siblings, and a parent to its newest
//! child. So each call is a fixed number of look-ups, and no list is walked over.
//!
//! The links are stored beside the values in a slab, so that a value and its links get memory together or not at all. A
//! value's number is its slab key plus one. The value itself says what its parent is.

ghost use Rattle.std.specs.Prelude.{true, false, ◌≡◌, ◌≢◌, ◌+◌, ℕ, Option, None, Some, if◌then◌else◌, ◌==◌, IfNone, IfSome};
ghost use Rattle.std.specs.Option.{option_copied};
ghost use Rattle.slab.specs.Slab.{Slab, slab_len};
ghost use Rattle.collections.specs.declared.children.Kin.{Kin};
ghost use Rattle.collections.specs.Links.{IsLawful, IsThere, no_kin, kin_at, value_at, with_parent};

use slab::Slab;

/// No number: numbers begin at 1.
const NONE: u64 = 0;

/// The numbers that a number is linked to.
#[derive(Clone, Copy)]
pub struct Kin {
    /// The sibling that was added next after it.
    pub newer: u64,
    /// The sibling that was added next before it.
    pub older: u64,
    /// Its newest child.
    pub newest: u64,
}

/// A value, and the links of its number.
#[derive(Drop)]
pub struct Linked<T> {
    pub value: T,
    pub kin: Kin,
}

/// A value without links.
pub fn unlinked<T>(value: T) -> Linked<T>
    ensures value { result.value ≡ value }
    ensures kin { result.kin ≡ no_kin }
{
    Linked {
        value,
        kin: alone(),
    }
}

/// No links.
fn alone() -> Kin
    ensures { result ≡ no_kin }
{
    Kin {
        newer: NONE,
        older: NONE,
        newest: NONE,
    }
}

/// The slab key of that number.
pub fn key_of(number: u64) -> Option<usize>
    ensures none { IfNone result (number ≡ 0) }
    ensures some { IfSome result (λ k. number ≡ k + 1) }
{
    let key = number.checked_sub(1)?;
    Some(key as usize)
}

/// The value of that number.
pub fn value_in<T>(nodes: &Slab<Linked<T>>, number: u64) -> Option<&T>
    ensures { option_copied result ≡ value_at nodes.now number }
{
    let key = key_of(number)?;
    let linked = nodes.get(key)?;
    Some(&linked.value)
}

/// The links of the number.
fn kin_in<T>(nodes: &Slab<Linked<T>>, number: u64) -> Kin
    ensures { result ≡ kin_at nodes.now number }
{
    let Some(key) = key_of(number) else {
        return alone();
    };
    match nodes.get(key) {
        Some(linked) => linked.kin,
        None => alone(),
    }
}

/// Writes the links of the number, if it has a value.
fn write_kin<T>(nodes: &mut Slab<Linked<T>>, number: u64, kin: Kin)
    ensures wrote { IsThere nodes.old number → (m : ℕ) → kin_at nodes.new m ≡ (if number == m then kin else kin_at nodes.old m) }
    ensures absent { (IsThere nodes.old number → ⊥) → nodes.new ≡ nodes.old }
    ensures values { value_at nodes.new ≡ value_at nodes.old }
    ensures len { slab_len nodes.new ≡ slab_len nodes.old }
    ensures capacity { nodes.new.capacity ≡ nodes.old.capacity }
{
    let Some(key) = key_of(number) else {
        return;
    };
    if nodes.contains(key) {
        let linked = &mut nodes[key];
        linked.kin = kin;
    }
}

/// Sets the next newer sibling of the number, if it has a value.
fn set_newer<T>(nodes: &mut Slab<Linked<T>>, number: u64, newer: u64)
    ensures newer { IsThere nodes.old number → (m : ℕ) → (kin_at nodes.new m).newer ≡ (if number == m then newer else (kin_at nodes.old m).newer) }
    ensures none { number ≡ 0 → (m : ℕ) → (kin_at nodes.new m).newer ≡ (kin_at nodes.old m).newer }
    ensures older { (m : ℕ) → (kin_at nodes.new m).older ≡ (kin_at nodes.old m).older }
    ensures newest { (m : ℕ) → (kin_at nodes.new m).newest ≡ (kin_at nodes.old m).newest }
    ensures values { value_at nodes.new ≡ value_at nodes.old }
    ensures len { slab_len nodes.new ≡ slab_len nodes.old }
    ensures capacity { nodes.new.capacity ≡ nodes.old.capacity }
{
    let kin = kin_in(nodes, number);
    let linked = Kin {
        newer,
        older: kin.older,
        newest: kin.newest,
    };
    write_kin(nodes, number, linked);
}

/// Sets the next older sibling of the number, if it has a value.
fn set_older<T>(nodes: &mut Slab<Linked<T>>, number: u64, older: u64)
    ensures older { IsThere nodes.old number → (m : ℕ) → (kin_at nodes.new m).older ≡ (if number == m then older else (kin_at nodes.old m).older) }
    ensures none { number ≡ 0 → (m : ℕ) → (kin_at nodes.new m).older ≡ (kin_at nodes.old m).older }
    ensures newer { (m : ℕ) → (kin_at nodes.new m).newer ≡ (kin_at nodes.old m).newer }
    ensures newest { (m : ℕ) → (kin_at nodes.new m).newest ≡ (kin_at nodes.old m).newest }
    ensures values { value_at nodes.new ≡ value_at nodes.old }
    ensures len { slab_len nodes.new ≡ slab_len nodes.old }
    ensures capacity { nodes.new.capacity ≡ nodes.old.capacity }
{
    let kin = kin_in(nodes, number);
    let linked = Kin {
        newer: kin.newer,
        older,
        newest: kin.newest,
    };
    write_kin(nodes, number, linked);
}

/// Sets the newest child of the number, if it has a value.
fn set_newest<T>(nodes: &mut Slab<Linked<T>>, number: u64, newest: u64)
    ensures newest { IsThere nodes.old number → (m : ℕ) → (kin_at nodes.new m).newest ≡ (if number == m then newest else (kin_at nodes.old m).newest) }
    ensures newer { (m : ℕ) → (kin_at nodes.new m).newer ≡ (kin_at nodes.old m).newer }
    ensures older { (m : ℕ) → (kin_at nodes.new m).older ≡ (kin_at nodes.old m).older }
    ensures values { value_at nodes.new ≡ value_at nodes.old }
    ensures len { slab_len nodes.new ≡ slab_len nodes.old }
    ensures capacity { nodes.new.capacity ≡ nodes.old.capacity }
{
    let kin = kin_in(nodes, number);
    let linked = Kin {
        newer: kin.newer,
        older: kin.older,
        newest,
    };
    write_kin(nodes, number, linked);
}

/// If the child with these links was the newest one, makes the next older one the newest.
fn hand_on<T>(nodes: &mut Slab<Linked<T>>, parent: u64, kin: Kin)
    ensures top { kin.newer ≡ 0 → IsThere nodes.old parent → (m : ℕ) → (kin_at nodes.new m).newest ≡ (if parent == m then kin.older else (kin_at nodes.old m).newest) }
    ensures newest { kin.newer ≢ 0 → (m : ℕ) → (kin_at nodes.new m).newest ≡ (kin_at nodes.old m).newest }
    ensures newer { (m : ℕ) → (kin_at nodes.new m).newer ≡ (kin_at nodes.old m).newer }
    ensures older { (m : ℕ) → (kin_at nodes.new m).older ≡ (kin_at nodes.old m).older }
    ensures values { value_at nodes.new ≡ value_at nodes.old }
    ensures len { slab_len nodes.new ≡ slab_len nodes.old }
    ensures capacity { nodes.new.capacity ≡ nodes.old.capacity }
{
    if kin.newer == NONE {
        set_newest(nodes, parent, kin.older);
    }
}

/// Whether the number has a child.
pub fn has_children<T>(nodes: &Slab<Linked<T>>, parent: u64) -> bool
    ensures yes { (parents : ℕ → Option ℕ) → IsLawful parents nodes.now → result ≡ true → (n : ℕ) × (parents n ≡ Some parent) }
    ensures no { (parents : ℕ → Option ℕ) → IsLawful parents nodes.now → result ≡ false → (n : ℕ) → parents n ≡ Some parent → ⊥ }
{
    kin_in(nodes, parent).newest != NONE
}

/// The newest child of the number.
pub fn newest_child<T>(nodes: &Slab<Linked<T>>, parent: u64) -> Option<u64>
    ensures none { (parents : ℕ → Option ℕ) → IsLawful parents nodes.now → IfNone result ((n : ℕ) → parents n ≡ Some parent → ⊥) }
    ensures some { (parents : ℕ → Option ℕ) → IsLawful parents nodes.now → IfSome result (λ n. parents n ≡ Some parent) }
{
    let newest = kin_in(nodes, parent).newest;
    if newest == NONE {
        return None;
    }
    Some(newest)
}

/// Adds a child to a parent, as its newest one. It does not allocate.
pub fn add_child<T>(nodes: &mut Slab<Linked<T>>, child: u64, parent: u64)
    requires there { IsThere nodes.old child }
    requires above { IsThere nodes.old parent }
    ensures lawful { (parents : ℕ → Option ℕ) → IsLawful parents nodes.old → parents child ≡ None → IsLawful (with_parent parents child (Some parent)) nodes.new }
    ensures values { value_at nodes.new ≡ value_at nodes.old }
    ensures len { slab_len nodes.new ≡ slab_len nodes.old }
    ensures capacity { nodes.new.capacity ≡ nodes.old.capacity }
{
    let first = kin_in(nodes, parent).newest;
    set_older(nodes, child, first);
    set_newer(nodes, first, child);
    set_newest(nodes, parent, child);
}

/// Removes a child from its parent. It does not allocate.
pub fn remove_child<T>(nodes: &mut Slab<Linked<T>>, child: u64, parent: u64)
    requires there { IsThere nodes.old child }
    ensures lawful { (parents : ℕ → Option ℕ) → IsLawful parents nodes.old → parents child ≡ Some parent → IsLawful (with_parent parents child None) nodes.new }
    ensures values { value_at nodes.new ≡ value_at nodes.old }
    ensures len { slab_len nodes.new ≡ slab_len nodes.old }
    ensures capacity { nodes.new.capacity ≡ nodes.old.capacity }
{
    let kin = kin_in(nodes, child);
    set_older(nodes, kin.newer, kin.older);
    set_newer(nodes, kin.older, kin.newer);
    hand_on(nodes, parent, kin);
    set_newer(nodes, child, NONE);
    set_older(nodes, child, NONE);
}
