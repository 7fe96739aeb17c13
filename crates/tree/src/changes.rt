//! How a tree of stored nodes changes. No step allocates.

ghost use Rattle.std.specs.Prelude.{true, false, ◌≡◌, ◌≢◌, ◌≤◌, ◌+◌, ◌*◌, ◌^◌, ℕ, List, None, Some, vec_len, vec_capacity};
ghost use Rattle.slab.specs.Slab.{slab_len, HasRoomFor};
ghost use Rattle.collections.specs.Living.{live, places};
ghost use Rattle.tree.specs.declared.nodes.Key.{Key};
ghost use Rattle.tree.specs.declared.nodes.Node.{Node};
ghost use Rattle.tree.specs.declared.nodes.Place.TheVariants as Place;
ghost use Rattle.collections.specs.Links.{IsLawful};
ghost use Rattle.tree.specs.Children.{parents_in};
ghost use Rattle.tree.specs.Places.{IsAlive, IsNamed, HasChild, IsFree, Leads, with_node, without, born_node};
ghost use Rattle.tree.specs.Listed.{counts_of};
ghost use Rattle.tree.specs.Moves.{CanRelink, IsFreed, ListsCuts, Moves, moved_node, cut_node};
ghost use Rattle.tree.specs.Stored.{slot_at, listed, IsIndexed, IsStored};

use crate::leaves::cut_leaves;
use crate::nodes::{Key, Node, Place};
use crate::writes::{Store, find_in, forget_place, mark, replace_place, write_number};
use collections::children::{add_child, key_of, unlinked};
use collections::steady_map::put;

/// Cuts a node without children.
pub(crate) fn cut_leaf(store: &mut Store, number: u64)
    requires named { (p : ℕ) × (name : List ℕ) × IsNamed (slot_at store.old.nodes) number p name }
    requires not_root { number ≢ 1 }
    requires childless { HasChild (slot_at store.old.nodes) number → ⊥ }
    requires stored { IsStored store.old.nodes store.old.index store.old.named }
    ensures cut { (x : Node) → slot_at store.old.nodes number ≡ Some x → slot_at store.new.nodes ≡ with_node (slot_at store.old.nodes) number (cut_node x) }
    ensures stored { IsStored store.new.nodes store.new.index store.new.named }
    ensures less { store.new.named + 1 ≡ store.old.named }
    ensures len { slab_len store.new.nodes ≡ slab_len store.old.nodes }
    ensures capacity { store.new.nodes.capacity ≡ store.old.nodes.capacity }
    ensures places { places store.new.index ≡ places store.old.index }
{
    let was = replace_place(&mut store.nodes, number, Place::Cut);
    mark(&mut store.nodes, number, false);
    forget_place(store, number, &was);
}

/// Moves the node to another name, which is free.
pub(crate) fn place_number(store: &mut Store, number: u64, key: Key, copy: Key)
    requires copy { copy ≡ key }
    requires not_root { number ≢ 1 }
    requires named { (p : ℕ) × (name : List ℕ) × IsNamed (slot_at store.old.nodes) number p name }
    requires free { IsFree (slot_at store.old.nodes) key.parent key.name }
    requires above { IsAlive (slot_at store.old.nodes) key.parent }
    requires stored { IsStored store.old.nodes store.old.index store.old.named }
    requires room { 2 * store.old.named ≤ places store.old.index }
    ensures moved { (x : Node) → slot_at store.old.nodes number ≡ Some x → slot_at store.new.nodes ≡ with_node (slot_at store.old.nodes) number (moved_node x key.parent key.name) }
    ensures indexed { IsIndexed (slot_at store.new.nodes) store.new.index }
    ensures related { IsLawful (parents_in (slot_at store.new.nodes)) store.new.nodes }
    ensures counted { store.new.named ≡ live store.new.index }
    ensures same { store.new.named ≡ store.old.named }
    ensures len { slab_len store.new.nodes ≡ slab_len store.old.nodes }
    ensures capacity { store.new.nodes.capacity ≡ store.old.nodes.capacity }
    ensures places { places store.old.index ≤ places store.new.index }
{
    let _places = store.index.capacity();
    let parent = key.parent;
    let was = replace_place(&mut store.nodes, number, Place::Named(key));
    forget_place(store, number, &was);
    put(&mut store.index, copy, number);
    add_child(&mut store.nodes, number, parent);
    store.named += 1;
}

/// Frees the name, unless the node of that number already has it, which the result says.
fn make_free(store: &mut Store, newly_cut: &mut Vec<u64>, number: u64, key: &Key) -> bool
    requires can { CanRelink (slot_at store.old.nodes) number key.now.parent key.now.name }
    requires few { slab_len store.old.nodes ≤ 2 ^ 62 }
    requires stored { IsStored store.old.nodes store.old.index store.old.named }
    requires list_room { vec_len newly_cut.old + store.old.named ≤ vec_capacity newly_cut.old }
    ensures there { result ≡ true → IsNamed (slot_at store.old.nodes) number key.now.parent key.now.name }
    ensures same { result ≡ true → slot_at store.new.nodes ≡ slot_at store.old.nodes }
    ensures free { result ≡ false → IsFreed (slot_at store.old.nodes) (slot_at store.new.nodes) number key.now.parent key.now.name }
    ensures stored { IsStored store.new.nodes store.new.index store.new.named }
    ensures counts { counts_of (listed store.new.nodes.slots) ≡ counts_of (listed store.old.nodes.slots) }
    ensures fewer { store.new.named ≤ store.old.named }
    ensures len { slab_len store.new.nodes ≡ slab_len store.old.nodes }
    ensures capacity { store.new.nodes.capacity ≡ store.old.nodes.capacity }
    ensures places { places store.new.index ≡ places store.old.index }
    ensures lists { ListsCuts (slot_at store.old.nodes) (slot_at store.new.nodes) newly_cut.old.items newly_cut.new.items }
    ensures list_room { vec_len newly_cut.new + store.new.named ≡ vec_len newly_cut.old + store.old.named }
    ensures list_capacity { vec_capacity newly_cut.new ≡ vec_capacity newly_cut.old }
{
    match find_in(&store.index, key) {
        Some(other) => {
            if other == number {
                return true;
            }
            cut_leaves(store, newly_cut, other);
            false
        }
        None => false,
    }
}

/// Moves the node to the name, with everything below it.
pub(crate) fn move_number(
    store: &mut Store,
    newly_cut: &mut Vec<u64>,
    number: u64,
    key: Key,
    copy: Key,
)
    requires copy { copy ≡ key }
    requires can { CanRelink (slot_at store.old.nodes) number key.parent key.name }
    requires stored { IsStored store.old.nodes store.old.index store.old.named }
    requires list_room { vec_len newly_cut.old + store.old.named ≤ vec_capacity newly_cut.old }
    requires few { slab_len store.old.nodes ≤ 2 ^ 62 }
    requires room { 2 * store.old.named ≤ places store.old.index }
    ensures moved { Moves (slot_at store.old.nodes) (slot_at store.new.nodes) number key.parent key.name }
    ensures stored { IsStored store.new.nodes store.new.index store.new.named }
    ensures counts { counts_of (listed store.new.nodes.slots) ≡ counts_of (listed store.old.nodes.slots) }
    ensures fewer { store.new.named ≤ store.old.named }
    ensures len { slab_len store.new.nodes ≡ slab_len store.old.nodes }
    ensures capacity { store.new.nodes.capacity ≡ store.old.nodes.capacity }
    ensures places { places store.old.index ≤ places store.new.index }
    ensures lists { ListsCuts (slot_at store.old.nodes) (slot_at store.new.nodes) newly_cut.old.items newly_cut.new.items }
    ensures list_room { vec_len newly_cut.new + store.new.named ≡ vec_len newly_cut.old + store.old.named }
    ensures list_capacity { vec_capacity newly_cut.new ≡ vec_capacity newly_cut.old }
{
    if make_free(store, newly_cut, number, &key) {
        return;
    }
    place_number(store, number, key, copy);
}

/// Removes the node, if it exists.
pub(crate) fn drop_number(store: &mut Store, number: u64)
    requires stored { IsStored store.old.nodes store.old.index store.old.named }
    requires not_root { number ≢ 1 }
    requires childless { HasChild (slot_at store.old.nodes) number → ⊥ }
    ensures gone { slot_at store.new.nodes ≡ without (slot_at store.old.nodes) number }
    ensures stored { IsStored store.new.nodes store.new.index store.new.named }
    ensures none { slot_at store.old.nodes number ≡ None → (slab_len store.new.nodes ≡ slab_len store.old.nodes) × (counts_of (listed store.new.nodes.slots) ≡ counts_of (listed store.old.nodes.slots)) }
    ensures some { (x : Node) → slot_at store.old.nodes number ≡ Some x → (slab_len store.new.nodes + 1 ≡ slab_len store.old.nodes) × (counts_of (listed store.new.nodes.slots) + x.count ≡ counts_of (listed store.old.nodes.slots)) }
    ensures shrinks { slab_len store.new.nodes ≤ slab_len store.old.nodes }
    ensures fewer { store.new.named ≤ store.old.named }
    ensures capacity { store.new.nodes.capacity ≡ store.old.nodes.capacity }
    ensures places { places store.new.index ≡ places store.old.index }
{
    let Some(key) = key_of(number) else {
        return;
    };
    if store.nodes.contains(key) {
        let was = replace_place(&mut store.nodes, number, Place::Cut);
        forget_place(store, number, &was);
        store.nodes.remove(key);
    }
}

/// Creates a node at the name. Its number is the slab's next key plus one, and is returned.
pub(crate) fn create(store: &mut Store, generation: u64, key: Key, copy: Key) -> u64
    requires copy { copy ≡ key }
    requires stored { IsStored store.old.nodes store.old.index store.old.named }
    requires free { IsFree (slot_at store.old.nodes) key.parent key.name }
    requires above { Leads (slot_at store.old.nodes) key.parent }
    requires slots { HasRoomFor store.old.nodes 1 }
    requires keys { 2 * (store.old.named + 1) ≤ places store.old.index }
    ensures number { result ≡ store.old.nodes.vacant_key + 1 }
    ensures fresh { slot_at store.old.nodes result ≡ None }
    ensures nodes { slot_at store.new.nodes ≡ with_node (slot_at store.old.nodes) result (born_node result generation key.parent key.name) }
    ensures stored { IsStored store.new.nodes store.new.index store.new.named }
    ensures counts { counts_of (listed store.new.nodes.slots) ≡ counts_of (listed store.old.nodes.slots) }
    ensures named { store.new.named ≡ store.old.named + 1 }
    ensures len { slab_len store.new.nodes ≡ slab_len store.old.nodes + 1 }
    ensures capacity { store.new.nodes.capacity ≡ store.old.nodes.capacity }
    ensures places { places store.old.index ≤ places store.new.index }
{
    let _places = store.index.capacity();
    let parent = key.parent;
    let node = Node {
        number: 0,
        generation,
        place: Place::Named(key),
        count: 0,
        hidden: false,
    };
    let at = store.nodes.insert_reserved(unlinked(node));
    let number = write_number(&mut store.nodes, at);
    put(&mut store.index, copy, number);
    add_child(&mut store.nodes, number, parent);
    store.named += 1;
    number
}
