//! Exchanges two names, with a fixed number of look-ups and writes. It does not allocate.

ghost use Rattle.std.specs.Prelude.{ℕ, ◌≡◌, ◌≢◌, ◌≤◌, ◌*◌, Option, Some};
ghost use Rattle.slab.specs.Slab.{Slab, slab_len};
ghost use Rattle.collections.specs.Living.{live, places};
ghost use Rattle.tree.specs.declared.nodes.Node.{Node};
ghost use Rattle.collections.specs.Links.{IsLawful, kin_at, with_parent};
ghost use Rattle.tree.specs.Children.{parents_in};
ghost use Rattle.tree.specs.Places.{IsAlive, IsNamed, with_node};
ghost use Rattle.tree.specs.Listed.{counts_of};
ghost use Rattle.tree.specs.Moves.{CanExchange, Exchanges, moved_node};
ghost use Rattle.tree.specs.Stored.{slot_at, listed, IsIndexed, IsStored};

use crate::changes::place_number;
use crate::nodes::{Key, Node, Place};
use crate::writes::{Store, find_in, replace_place};
use collections::children::{Linked, add_child, remove_child};
use collections::steady_map::set;
use slab::Slab;

/// Gives each of the two nodes the place of the other.
fn swap_places(nodes: &mut Slab<Linked<Node>>, one: u64, two: u64)
    requires first { IsAlive (slot_at nodes.old) one }
    requires second { IsAlive (slot_at nodes.old) two }
    requires differ { one ≢ two }
    ensures swapped { (x y : Node) → slot_at nodes.old one ≡ Some x → slot_at nodes.old two ≡ Some y → slot_at nodes.new ≡ with_node (with_node (slot_at nodes.old) one (record x { place = y.place })) two (record y { place = x.place }) }
    ensures links { kin_at nodes.new ≡ kin_at nodes.old }
    ensures len { slab_len nodes.new ≡ slab_len nodes.old }
    ensures capacity { nodes.new.capacity ≡ nodes.old.capacity }
{
    let first = replace_place(nodes, one, Place::Cut);
    let second = replace_place(nodes, two, first);
    let _cut = replace_place(nodes, one, second);
}

/// Moves the child from one parent to the other in the links.
fn move_child(nodes: &mut Slab<Linked<Node>>, child: u64, from: u64, to: u64)
    requires there { IsAlive (slot_at nodes.old) child }
    requires above { IsAlive (slot_at nodes.old) to }
    ensures lawful { (parents : ℕ → Option ℕ) → IsLawful parents nodes.old → parents child ≡ Some from → IsLawful (with_parent parents child (Some to)) nodes.new }
    ensures nodes { slot_at nodes.new ≡ slot_at nodes.old }
    ensures len { slab_len nodes.new ≡ slab_len nodes.old }
    ensures capacity { nodes.new.capacity ≡ nodes.old.capacity }
{
    remove_child(nodes, child, from);
    add_child(nodes, child, to);
}

/// Gives each of the two nodes the other's name.
fn swap_numbers(store: &mut Store, one: u64, at_one: &Key, two: u64, at_two: &Key)
    requires first { IsNamed (slot_at store.old.nodes) one at_one.now.parent at_one.now.name }
    requires second { IsNamed (slot_at store.old.nodes) two at_two.now.parent at_two.now.name }
    requires differ { one ≢ two }
    requires above { IsAlive (slot_at store.old.nodes) at_one.now.parent }
    requires new_above { IsAlive (slot_at store.old.nodes) at_two.now.parent }
    requires stored { IsStored store.old.nodes store.old.index store.old.named }
    ensures swapped { (x y : Node) → slot_at store.old.nodes one ≡ Some x → slot_at store.old.nodes two ≡ Some y → slot_at store.new.nodes ≡ with_node (with_node (slot_at store.old.nodes) one (moved_node x at_two.now.parent at_two.now.name)) two (moved_node y at_one.now.parent at_one.now.name) }
    ensures indexed { IsIndexed (slot_at store.new.nodes) store.new.index }
    ensures related { IsLawful (parents_in (slot_at store.new.nodes)) store.new.nodes }
    ensures counted { store.new.named ≡ live store.new.index }
    ensures same { store.new.named ≡ store.old.named }
    ensures len { slab_len store.new.nodes ≡ slab_len store.old.nodes }
    ensures capacity { store.new.nodes.capacity ≡ store.old.nodes.capacity }
    ensures places { places store.new.index ≡ places store.old.index }
{
    swap_places(&mut store.nodes, one, two);
    set(&mut store.index, at_one, two);
    set(&mut store.index, at_two, one);
    move_child(&mut store.nodes, one, at_one.parent, at_two.parent);
    move_child(&mut store.nodes, two, at_two.parent, at_one.parent);
}

/// Exchanges what is at the two names, with everything below. Each name is passed twice, since a node may be at only
/// one of them and then moves to the other.
pub(crate) fn exchange_names(
    store: &mut Store,
    source: Key,
    source_copy: Key,
    target: Key,
    target_copy: Key,
)
    requires source_copy { source_copy ≡ source }
    requires target_copy { target_copy ≡ target }
    requires can { CanExchange (slot_at store.old.nodes) source.parent source.name target.parent target.name }
    requires stored { IsStored store.old.nodes store.old.index store.old.named }
    requires room { 2 * store.old.named ≤ places store.old.index }
    ensures exchanged { Exchanges (slot_at store.old.nodes) (slot_at store.new.nodes) source.parent source.name target.parent target.name }
    ensures stored { IsStored store.new.nodes store.new.index store.new.named }
    ensures counts { counts_of (listed store.new.nodes.slots) ≡ counts_of (listed store.old.nodes.slots) }
    ensures same { store.new.named ≡ store.old.named }
    ensures len { slab_len store.new.nodes ≡ slab_len store.old.nodes }
    ensures capacity { store.new.nodes.capacity ≡ store.old.nodes.capacity }
    ensures places { places store.old.index ≤ places store.new.index }
{
    let at_source = find_in(&store.index, &source);
    let at_target = find_in(&store.index, &target);
    match (at_source, at_target) {
        (Some(one), Some(two)) => {
            if one != two {
                swap_numbers(store, one, &source, two, &target);
            }
        }
        (Some(one), None) => place_number(store, one, target, target_copy),
        (None, Some(two)) => place_number(store, two, source, source_copy),
        (None, None) => {}
    }
}
