//! Nodes, their names and their children as they are stored, and writes to one node. Only `make_room` allocates.

ghost use Rattle.std.specs.Prelude.{◌≡◌, ◌<◌, ◌≤◌, ◌+◌, ◌*◌, ℕ, Option, None, Some, if◌then◌else◌, OnOk};
ghost use Rattle.slab.specs.Slab.{Slab, get, slab_len, ContainsKey, Updates};
ghost use Rattle.collections.specs.Living.{found, live, places};
ghost use Rattle.tree.specs.declared.nodes.Key.{Key};
ghost use Rattle.tree.specs.declared.nodes.Node.{Node};
ghost use Rattle.tree.specs.declared.nodes.Place.TheVariants as Place;
ghost use Rattle.collections.specs.declared.children.Linked.{Linked};
ghost use Rattle.collections.specs.Links.{IsLawful, kin_at, with_parent};
ghost use Rattle.tree.specs.Children.{place_parent};
ghost use Rattle.tree.specs.Keys.{same_key};
ghost use Rattle.tree.specs.Places.{IsAlive, with_node};
ghost use Rattle.tree.specs.Listed.{counts_of};
ghost use Rattle.tree.specs.Stored.{slot_at, listed, IsStored};

use crate::nodes::{Key, Node, Place};
use collections::children::{Linked, key_of, remove_child};
use collections::steady_map::{make_places, put, take_out, value_of};
use indexmap::IndexMap;
use slab::Slab;
use std::alloc::AllocError;
use std::hash::RandomState;
use std::mem;

/// The nodes, and the index of their names.
#[derive(Drop)]
pub(crate) struct Store {
    /// The nodes, with the links among the children of each.
    pub(crate) nodes: Slab<Linked<Node>>,
    pub(crate) index: IndexMap<Key, Option<u64>, RandomState>,
    /// How many nodes are named.
    pub(crate) named: usize,
}

/// The number of the node with this name.
pub(crate) fn find_in(index: &IndexMap<Key, Option<u64>, RandomState>, key: &Key) -> Option<u64>
    ensures { result ≡ found same_key index.now key.now }
{
    value_of(index, key)
}

/// Writes the node's place, and returns the place before.
pub(crate) fn replace_place(nodes: &mut Slab<Linked<Node>>, number: u64, place: Place) -> Place
    requires { IsAlive (slot_at nodes.old) number }
    ensures was { (x : Node) → slot_at nodes.old number ≡ Some x → result ≡ x.place }
    ensures wrote { (x : Node) → slot_at nodes.old number ≡ Some x → slot_at nodes.new ≡ with_node (slot_at nodes.old) number (record x { place = place }) }
    ensures links { kin_at nodes.new ≡ kin_at nodes.old }
    ensures len { slab_len nodes.new ≡ slab_len nodes.old }
    ensures capacity { nodes.new.capacity ≡ nodes.old.capacity }
{
    let Some(key) = key_of(number) else {
        unreachable!();
    };
    let linked = &mut nodes[key];
    mem::replace(&mut linked.value.place, place)
}

/// Writes the node's hidden mark.
pub(crate) fn mark(nodes: &mut Slab<Linked<Node>>, number: u64, hidden: bool)
    requires { IsAlive (slot_at nodes.old) number }
    ensures wrote { (x : Node) → slot_at nodes.old number ≡ Some x → slot_at nodes.new ≡ with_node (slot_at nodes.old) number (record x { hidden = hidden }) }
    ensures links { kin_at nodes.new ≡ kin_at nodes.old }
    ensures len { slab_len nodes.new ≡ slab_len nodes.old }
    ensures capacity { nodes.new.capacity ≡ nodes.old.capacity }
{
    let Some(key) = key_of(number) else {
        unreachable!();
    };
    let linked = &mut nodes[key];
    linked.value.hidden = hidden;
}

/// Writes the node's lookup count.
fn count_as(nodes: &mut Slab<Linked<Node>>, number: u64, count: u64)
    requires { IsAlive (slot_at nodes.old) number }
    ensures wrote { (x : Node) → slot_at nodes.old number ≡ Some x → slot_at nodes.new ≡ with_node (slot_at nodes.old) number (record x { count = count }) }
    ensures links { kin_at nodes.new ≡ kin_at nodes.old }
    ensures len { slab_len nodes.new ≡ slab_len nodes.old }
    ensures capacity { nodes.new.capacity ≡ nodes.old.capacity }
{
    let Some(key) = key_of(number) else {
        unreachable!();
    };
    let linked = &mut nodes[key];
    linked.value.count = count;
}

/// Sets or removes the node's hidden mark.
pub(crate) fn write_hidden(store: &mut Store, number: u64, hidden: bool)
    requires alive { IsAlive (slot_at store.old.nodes) number }
    requires stored { IsStored store.old.nodes store.old.index store.old.named }
    ensures written { (x : Node) → slot_at store.old.nodes number ≡ Some x → slot_at store.new.nodes ≡ with_node (slot_at store.old.nodes) number (record x { hidden = hidden }) }
    ensures counts { counts_of (listed store.new.nodes.slots) ≡ counts_of (listed store.old.nodes.slots) }
    ensures stored { IsStored store.new.nodes store.new.index store.new.named }
    ensures len { slab_len store.new.nodes ≡ slab_len store.old.nodes }
    ensures capacity { store.new.nodes.capacity ≡ store.old.nodes.capacity }
    ensures index { store.new.index ≡ store.old.index }
    ensures named { store.new.named ≡ store.old.named }
{
    mark(&mut store.nodes, number, hidden);
}

/// Sets the node's lookup count.
pub(crate) fn write_count(store: &mut Store, number: u64, count: u64)
    requires alive { IsAlive (slot_at store.old.nodes) number }
    requires stored { IsStored store.old.nodes store.old.index store.old.named }
    ensures written { (x : Node) → slot_at store.old.nodes number ≡ Some x → slot_at store.new.nodes ≡ with_node (slot_at store.old.nodes) number (record x { count = count }) }
    ensures counts { (x : Node) → slot_at store.old.nodes number ≡ Some x → counts_of (listed store.new.nodes.slots) + x.count ≡ counts_of (listed store.old.nodes.slots) + count }
    ensures stored { IsStored store.new.nodes store.new.index store.new.named }
    ensures len { slab_len store.new.nodes ≡ slab_len store.old.nodes }
    ensures capacity { store.new.nodes.capacity ≡ store.old.nodes.capacity }
    ensures index { store.new.index ≡ store.old.index }
    ensures named { store.new.named ≡ store.old.named }
{
    count_as(&mut store.nodes, number, count);
}

/// If the node's old place had a name, removes the name from the index and the node from its parent.
pub(crate) fn forget_place(store: &mut Store, number: u64, place: &Place)
    requires counted { store.old.named ≡ live store.old.index }
    requires there { (key : Key) → place.now ≡ Place.Named key → (n : ℕ) × (found same_key store.old.index key ≡ Some n) }
    requires alive { IsAlive (slot_at store.old.nodes) number }
    ensures taken { (key : Key) → place.now ≡ Place.Named key → (q : Key) → found same_key store.new.index q ≡ (if same_key key q then None else found same_key store.old.index q) }
    ensures same { ((key : Key) → place.now ≡ Place.Named key → ⊥) → store.new.index ≡ store.old.index }
    ensures counted { store.new.named ≡ live store.new.index }
    ensures fewer { store.new.named ≤ store.old.named }
    ensures less { (key : Key) → place.now ≡ Place.Named key → store.new.named + 1 ≡ store.old.named }
    ensures places { places store.new.index ≡ places store.old.index }
    ensures lawful { (parents : ℕ → Option ℕ) → IsLawful parents store.old.nodes → parents number ≡ place_parent place.now → IsLawful (with_parent parents number None) store.new.nodes }
    ensures nodes { slot_at store.new.nodes ≡ slot_at store.old.nodes }
    ensures len { slab_len store.new.nodes ≡ slab_len store.old.nodes }
    ensures capacity { store.new.nodes.capacity ≡ store.old.nodes.capacity }
{
    match place {
        Place::Named(key) => {
            take_out(&mut store.index, key);
            remove_child(&mut store.nodes, number, key.parent);
            store.named -= 1;
        }
        _ => {}
    }
}

/// Writes the node's number, which is its key plus one, and returns it.
pub(crate) fn write_number(nodes: &mut Slab<Linked<Node>>, key: usize) -> u64
    requires there { ContainsKey nodes.old key }
    requires within { key < nodes.old.capacity }
    ensures number { result ≡ key + 1 }
    ensures wrote { (l : Linked Node) → get nodes.old key ≡ Some l → Updates nodes.old nodes.new key (Some (record l { value = record l.value { number = key + 1 } })) }
    ensures len { slab_len nodes.new ≡ slab_len nodes.old }
    ensures capacity { nodes.new.capacity ≡ nodes.old.capacity }
{
    let _capacity = nodes.capacity();
    let number = key as u64 + 1;
    let linked = &mut nodes[key];
    linked.value.number = number;
    number
}

/// Makes room for `n` births. If memory is refused, no visible change is made.
pub(crate) fn make_room(store: &mut Store, n: usize) -> Result<(), AllocError>
    requires stored { IsStored store.old.nodes store.old.index store.old.named }
    ensures ok { OnOk result ((slab_len store.new.nodes + n ≤ store.new.nodes.capacity) × (2 * (store.new.named + n) ≤ places store.new.index)) }
    ensures nodes { store.new.nodes.slots ≡ store.old.nodes.slots }
    ensures next { store.new.nodes.vacant_key ≡ store.old.nodes.vacant_key }
    ensures stored { IsStored store.new.nodes store.new.index store.new.named }
    ensures named { store.new.named ≡ store.old.named }
    ensures capacity { store.old.nodes.capacity ≤ store.new.nodes.capacity }
    ensures places { places store.old.index ≤ places store.new.index }
{
    store.nodes.reserve(n)?;
    make_places(&mut store.index, store.named, n)
}
