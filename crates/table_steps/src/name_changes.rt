//! Cutting and moving names in the tree.

ghost use Rattle.std.specs.Prelude.{◌≡◌, ◌≢◌, ◌⊎◌, ℤ};
ghost use Rattle.table_steps.specs.Ending.{AreUnder, IsOver, IsUnder, KeepsChildren, change_in, loses, name_at};
ghost use Rattle.table_steps.specs.Steps.{Alters, Cuts, Exchanges, Hides, Moves, Replaces};
ghost use Rattle.table_steps.specs.Sweeping.{AreListed};
ghost use Rattle.tree.specs.Places.{at_in, IsTree, Leads};
ghost use Rattle.table_footprints.specs.Asked.{IsMisplaced, IsRefusedAt, IsRefusedBetween};
ghost use Rattle.table_footprints.specs.Footprints.{AtNode, cuts};

use crate::acts::NameChange;
use crate::keys::Keys;
use crate::sweep::parent_of_node;
use tree::{Key, Tree};

/// Cuts what is at the name, with everything below it. It is probably the guessed node.
fn cut_at(tree: &mut Tree, key: &Key, guess: Option<u64>)
    requires { Leads (at_in tree.old) key.now.parent }
    ensures cuts { Cuts (at_in tree.old) (name_at key.now) (at_in tree.new) }
    ensures children { KeepsChildren (at_in tree.old) (λ n. n ≡ key.now.parent) (at_in tree.new) }
    ensures listed { AreListed tree.old tree.new }
    ensures rest { tree.new ≡ record tree.old { nodes = tree.new.nodes; next = tree.new.next; newly_cut = tree.new.newly_cut } }
    ensures tree { IsTree (at_in tree.new) }
{
    let Some(number) = tree.find_guessed(key, guess) else {
        return;
    };
    let Ok(()) = tree.cut(number) else {
        unreachable!();
    };
}

/// Cuts the node, with everything below it.
fn cut_node(tree: &mut Tree, number: u64)
    requires leads { Leads (at_in tree.old) number }
    requires not_root { number ≢ 1 }
    ensures cuts { Cuts (at_in tree.old) (AtNode number) (at_in tree.new) }
    ensures children { KeepsChildren (at_in tree.old) (IsOver (at_in tree.old) (AtNode number)) (at_in tree.new) }
    ensures listed { AreListed tree.old tree.new }
    ensures rest { tree.new ≡ record tree.old { nodes = tree.new.nodes; next = tree.new.next; newly_cut = tree.new.newly_cut } }
    ensures tree { IsTree (at_in tree.new) }
{
    let _nodes = tree.len(); // proof: its law
    let Ok(()) = tree.cut(number) else {
        unreachable!();
    };
}

/// Moves what is at the name to the other, with everything below it, and cuts what was there. If nothing is at the
/// name, for instance since its parent is cut, then only what is at the other name is cut. At the name is probably the
/// guessed node.
fn move_at(tree: &mut Tree, key: &Key, target: Keys, guess: Option<u64>)
    requires target_leads { Leads (at_in tree.old) target.key.parent }
    requires may { (e : ℤ) → IsRefusedAt (at_in tree.old) (name_at key.now) (name_at target.key) e → ⊥ }
    ensures moves { Leads (at_in tree.old) key.now.parent → Moves (at_in tree.old) (name_at key.now) (name_at target.key) (at_in tree.new) }
    ensures exclusive { (Leads (at_in tree.old) key.now.parent → ⊥) → Cuts (at_in tree.old) (name_at target.key) (at_in tree.new) }
    ensures children { KeepsChildren (at_in tree.old) (λ n. (n ≡ key.now.parent) ⊎ (n ≡ target.key.parent)) (at_in tree.new) }
    ensures listed { AreListed tree.old tree.new }
    ensures rest { tree.new ≡ record tree.old { nodes = tree.new.nodes; next = tree.new.next; newly_cut = tree.new.newly_cut } }
    ensures tree { IsTree (at_in tree.new) }
{
    match tree.find_guessed(key, guess) {
        Some(number) => tree.relink(number, target.key, target.copy),
        // The directory said that the rename was done, so the node at the target is gone.
        None => cut_at(tree, &target.key, None),
    }
}

/// Moves what is at the name to the candidate, with everything below it, and marks it; what was at the candidate is
/// cut. If nothing is at the name, then only what is at the candidate is cut. At the name is probably the guessed node.
fn hide_at(tree: &mut Tree, key: &Key, candidate: Keys, guess: Option<u64>)
    requires leads { Leads (at_in tree.old) key.now.parent }
    requires candidate_leads { Leads (at_in tree.old) candidate.key.parent }
    requires may { (e : ℤ) → IsRefusedAt (at_in tree.old) (name_at key.now) (name_at candidate.key) e → ⊥ }
    ensures hides { Hides (at_in tree.old) (name_at key.now) (name_at candidate.key) (at_in tree.new) }
    ensures children { KeepsChildren (at_in tree.old) (λ n. (n ≡ key.now.parent) ⊎ (n ≡ candidate.key.parent)) (at_in tree.new) }
    ensures listed { AreListed tree.old tree.new }
    ensures rest { tree.new ≡ record tree.old { nodes = tree.new.nodes; next = tree.new.next; newly_cut = tree.new.newly_cut } }
    ensures tree { IsTree (at_in tree.new) }
{
    let found = tree.find_guessed(key, guess);
    // The move then compares the name of that node, and hashes none.
    move_at(tree, key, candidate, found);
    match found {
        Some(number) => tree.set_hidden(number, true),
        None => {}
    }
}

/// Hides what is at the target under the candidate, and then, if `moved`, moves what was at the name, which is probably
/// the guessed node, to the target.
fn replace_at(
    tree: &mut Tree,
    key: &Key,
    target: Keys,
    candidate: Keys,
    moved: bool,
    guess: Option<u64>,
)
    requires leads { Leads (at_in tree.old) key.now.parent }
    requires target_leads { Leads (at_in tree.old) target.key.parent }
    requires candidate_leads { Leads (at_in tree.old) candidate.key.parent }
    requires may { (e : ℤ) → IsRefusedAt (at_in tree.old) (name_at key.now) (name_at target.key) e → ⊥ }
    requires may_hide { (e : ℤ) → IsRefusedAt (at_in tree.old) (name_at target.key) (name_at candidate.key) e → ⊥ }
    ensures replaces { Replaces (at_in tree.old) (name_at key.now) (name_at target.key) (name_at candidate.key) moved (at_in tree.new) }
    ensures children { KeepsChildren (at_in tree.old) (λ n. (n ≡ key.now.parent) ⊎ ((n ≡ target.key.parent) ⊎ (n ≡ candidate.key.parent))) (at_in tree.new) }
    ensures listed { AreListed tree.old tree.new }
    ensures rest { tree.new ≡ record tree.old { nodes = tree.new.nodes; next = tree.new.next; newly_cut = tree.new.newly_cut } }
    ensures tree { IsTree (at_in tree.new) }
{
    hide_at(tree, &target.key, candidate, None);
    if moved {
        move_at(tree, key, target, guess);
    }
}

/// Exchanges what is at the two names, with everything below.
fn exchange_at(tree: &mut Tree, source: Keys, target: Keys)
    requires tree { IsTree (at_in tree.old) }
    requires leads { Leads (at_in tree.old) source.key.parent }
    requires target_leads { Leads (at_in tree.old) target.key.parent }
    requires may { (e : ℤ) → IsRefusedBetween (at_in tree.old) (name_at source.key) (name_at target.key) e → ⊥ }
    ensures exchanges { Exchanges (at_in tree.old) (name_at source.key) (name_at target.key) (at_in tree.new) }
    ensures children { KeepsChildren (at_in tree.old) (λ n. (n ≡ source.key.parent) ⊎ (n ≡ target.key.parent)) (at_in tree.new) }
    ensures listed { AreListed tree.old tree.new }
    ensures rest { tree.new ≡ record tree.old { nodes = tree.new.nodes; next = tree.new.next; newly_cut = tree.new.newly_cut } }
    ensures tree { IsTree (at_in tree.new) }
{
    tree.exchange(source.key, source.copy, target.key, target.copy);
}

/// The node that may lose its last child by the change and need not be pinned: the parent of a node that is cut by its
/// number.
pub(crate) fn losing(tree: &Tree, change: &NameChange) -> Option<u64>
    ensures { result ≡ loses (at_in tree.now) (change_in change.now) }
{
    match change {
        NameChange::CutsNode(number) => parent_of_node(tree, *number),
        NameChange::Stays
        | NameChange::Cuts(_)
        | NameChange::Moves(_, _)
        | NameChange::Hides(_, _)
        | NameChange::Replaces(_, _, _, _)
        | NameChange::Exchanges(_, _) => None,
    }
}

/// Cuts, moves, hides, replaces or exchanges names, with everything below them. At the first of the names is probably
/// the guessed node.
pub(crate) fn alter(tree: &mut Tree, change: NameChange, guess: Option<u64>)
    requires tree { IsTree (at_in tree.old) }
    requires leads { AreUnder (Leads (at_in tree.old)) (change_in change) }
    requires below { change_in change ≡ cuts (AtNode 1) → ⊥ }
    requires may { (e : ℤ) → IsMisplaced (at_in tree.old) (change_in change) e → ⊥ }
    ensures alters { Alters (at_in tree.old) (change_in change) (at_in tree.new) }
    ensures children { KeepsChildren (at_in tree.old) (IsUnder (at_in tree.old) (change_in change)) (at_in tree.new) }
    ensures listed { AreListed tree.old tree.new }
    ensures rest { tree.new ≡ record tree.old { nodes = tree.new.nodes; next = tree.new.next; newly_cut = tree.new.newly_cut } }
    ensures tree { IsTree (at_in tree.new) }
{
    match change {
        NameChange::Stays => {}
        NameChange::Cuts(key) => cut_at(tree, &key, guess),
        NameChange::CutsNode(number) => cut_node(tree, number),
        NameChange::Moves(key, target) => move_at(tree, &key, target, guess),
        NameChange::Hides(key, candidate) => hide_at(tree, &key, candidate, guess),
        NameChange::Replaces(key, target, candidate, moved) => {
            replace_at(tree, &key, target, candidate, moved, guess);
        }
        NameChange::Exchanges(source, target) => exchange_at(tree, source, target),
    }
}
