//! Cutting a node and everything below it, leaf by leaf, without looking at any other node.

ghost use Rattle.std.specs.Prelude.{true, false, ◌≡◌, ◌≢◌, ◌<◌, ◌≤◌, ◌+◌, ◌*◌, ◌^◌, ℕ, List, None, Some, vec_len, vec_capacity};
ghost use Rattle.slab.specs.Slab.{slab_len};
ghost use Rattle.collections.specs.Living.{live, places};
ghost use Rattle.tree.specs.declared.nodes.Node.{Node};
ghost use Rattle.tree.specs.Places.{IsNamed, IsTree, HasChild, with_node};
ghost use Rattle.tree.specs.Listed.{counts_of};
ghost use Rattle.tree.specs.Moves.{CutsBelow, ListsCuts, cut_node};
ghost use Rattle.tree.specs.Stored.{slot_at, listed, IsIndexed, IsStored};

use crate::changes::cut_leaf;
use crate::lookups::parent_of;
use crate::writes::Store;
use collections::children::newest_child;

/// Cuts the node and everything below it: goes down to a child without children, cuts that one, and goes up again. The
/// numbers of the nodes that are cut are appended to the list.
pub(crate) fn cut_leaves(store: &mut Store, newly_cut: &mut Vec<u64>, number: u64)
    requires named { (p : ℕ) × (name : List ℕ) × IsNamed (slot_at store.old.nodes) number p name }
    requires few { slab_len store.old.nodes ≤ 2 ^ 62 }
    requires stored { IsStored store.old.nodes store.old.index store.old.named }
    requires room { vec_len newly_cut.old + store.old.named ≤ vec_capacity newly_cut.old }
    ensures cuts { CutsBelow (slot_at store.old.nodes) (slot_at store.new.nodes) number }
    ensures stored { IsStored store.new.nodes store.new.index store.new.named }
    ensures counts { counts_of (listed store.new.nodes.slots) ≡ counts_of (listed store.old.nodes.slots) }
    ensures fewer { store.new.named ≤ store.old.named }
    ensures len { slab_len store.new.nodes ≡ slab_len store.old.nodes }
    ensures capacity { store.new.nodes.capacity ≡ store.old.nodes.capacity }
    ensures places { places store.new.index ≡ places store.old.index }
    ensures lists { ListsCuts (slot_at store.old.nodes) (slot_at store.new.nodes) newly_cut.old.items newly_cut.new.items }
    ensures list_room { vec_len newly_cut.new + store.new.named ≡ vec_len newly_cut.old + store.old.named }
    ensures list_capacity { vec_capacity newly_cut.new ≡ vec_capacity newly_cut.old }
{
    let mut current = number;
    let mut depth = 0usize;
    loop {
        match newest_child(&store.nodes, current) {
            Some(child) => {
                current = child;
                depth += 1;
            }
            None => {
                let Some(parent) = parent_of(&store.nodes, current) else {
                    unreachable!();
                };
                cut_leaf(store, current);
                // There is room for the number of each named node, so the end of a request does not allocate.
                newly_cut.push_reserved(current);
                if current == number {
                    return;
                }
                current = parent;
                depth -= 1;
            }
        }
    }
}
