//! Dropping nodes that nothing keeps alive.

ghost use Rattle.std.specs.Prelude.{true, false, ◌≡◌, ◌≤◌, ◌<◌, ◌+◌, ◌⊎◌, ℕ, Some, None, IfNone, IfSome, MatchOption, [], ◌∷◌, ◌++◌};
ghost use Rattle.table_law.specs.Law.{HasReason, HaveReasons};
ghost use Rattle.table_steps.specs.Keeping.{kept_by};
ghost use Rattle.table_steps.specs.Swept.{IsNeedless, IsSwept};
ghost use Rattle.table_steps.specs.Sweeping.{HaveReasonsAside, HaveReasonsBut, IsPruned, IsSameRest, listed, parent_at, parent_in};
ghost use Rattle.tree.specs.Places.{at_in, IsTree};

use table_files::Files;
use table_requests::RequestsInFlight;
use tree::{Node, Place, Tree};

#[tactic(auto, unfolding(crate::specs::Keeping::kept_by))]
/// Whether a request pins the number, or a file of its node is open.
fn is_kept(flights: &RequestsInFlight, files: &Files, number: u64) -> bool
    ensures { result ≡ kept_by flights.now files.now number }
{
    flights.pins(number) || files.is_open(number)
}

/// Whether something keeps the node alive.
fn is_needed(
    tree: &Tree,
    flights: &RequestsInFlight,
    files: &Files,
    number: u64,
    node: &Node,
) -> bool
    ensures yes { result ≡ true → HasReason (at_in tree.now) (kept_by flights.now files.now) number node.now ⊎ (number ≡ 1) }
    ensures no { result ≡ false → IsNeedless (at_in tree.now) (kept_by flights.now files.now) number node.now }
{
    if number == 1 {
        return true;
    }
    if node.count != 0 {
        return true;
    }
    if node.hidden {
        return true;
    }
    if is_kept(flights, files, number) {
        return true;
    }
    tree.has_child(number)
}

/// The number of the node's parent.
fn parent_of(place: &Place) -> Option<u64>
    ensures { result ≡ parent_in place.now }
{
    match place {
        Place::Named(key) => Some(key.parent),
        _ => None,
    }
}

/// The number of the parent of the node with that number, if it is alive.
pub(crate) fn parent_of_node(tree: &Tree, number: u64) -> Option<u64>
    ensures { result ≡ parent_at (at_in tree.now number) }
{
    match tree.at(number) {
        Some(node) => parent_of(&node.place),
        None => None,
    }
}

/// Drops the node if nothing keeps it alive, and returns the number of its parent.
fn drop_needless(
    tree: &mut Tree,
    flights: &RequestsInFlight,
    files: &Files,
    number: u64,
    _pins: &[u64],
) -> Option<u64>
    requires { IsPruned (at_in tree.old) (kept_by flights.now files.now) (number ∷ _pins.now) }
    ensures pruned { MatchOption result (IsPruned (at_in tree.new) (kept_by flights.now files.now) _pins.now) (λ p. IsPruned (at_in tree.new) (kept_by flights.now files.now) (p ∷ _pins.now)) }
    ensures swept { IsSwept (kept_by flights.now files.now) (at_in tree.old) (at_in tree.new) }
    ensures fewer { IfSome result (λ p. tree.new.living < tree.old.living) }
    ensures rest { IsSameRest tree.old tree.new }
{
    let Some(node) = tree.at(number) else {
        return None;
    };
    if is_needed(tree, flights, files, number, node) {
        return None;
    }
    let parent = parent_of(&node.place);
    tree.drop_node(number);
    parent
}

/// Drops the node if nothing keeps it alive, then its parent, and so on. The nodes in `pins` may lack a reason.
pub fn sweep(tree: &mut Tree, flights: &RequestsInFlight, files: &Files, number: u64, pins: &[u64])
    requires { IsPruned (at_in tree.old) (kept_by flights.now files.now) (number ∷ pins.now) }
    ensures pruned { IsPruned (at_in tree.new) (kept_by flights.now files.now) pins.now }
    ensures swept { IsSwept (kept_by flights.now files.now) (at_in tree.old) (at_in tree.new) }
    ensures rest { IsSameRest tree.old tree.new }
{
    let mut number = number;
    while let Some(parent) = drop_needless(tree, flights, files, number, pins) {
        number = parent;
    }
}

/// Drops those of the pinned nodes that nothing keeps alive any more, and then those of their parents.
pub fn sweep_pins(tree: &mut Tree, flights: &RequestsInFlight, files: &Files, pins: &[u64])
    requires { IsPruned (at_in tree.old) (kept_by flights.now files.now) pins.now }
    ensures pruned { IsPruned (at_in tree.new) (kept_by flights.now files.now) [] }
    ensures swept { IsSwept (kept_by flights.now files.now) (at_in tree.old) (at_in tree.new) }
    ensures rest { IsSameRest tree.old tree.new }
{
    let mut left = pins;
    while let Some((number, rest)) = left.split_first() {
        sweep(tree, flights, files, *number, rest);
        left = rest;
    }
}

/// Drops the node if it is cut and nothing keeps it alive.
fn drop_cut(
    tree: &mut Tree,
    flights: &RequestsInFlight,
    files: &Files,
    number: u64,
    _but: Option<u64>,
)
    requires tree { IsTree (at_in tree.old) }
    requires aside { HaveReasonsAside (at_in tree.old) (kept_by flights.now files.now) _but (tree.old.newly_cut ++ number ∷ []) }
    ensures tree { IsTree (at_in tree.new) }
    ensures aside { HaveReasonsAside (at_in tree.new) (kept_by flights.now files.now) _but tree.new.newly_cut }
    ensures cuts { tree.new.newly_cut ≡ tree.old.newly_cut }
    ensures swept { IsSwept (kept_by flights.now files.now) (at_in tree.old) (at_in tree.new) }
    ensures rest { IsSameRest tree.old tree.new }
{
    let Some(node) = tree.at(number) else {
        return;
    };
    match node.place {
        Place::Cut => {}
        Place::Root | Place::Named(_) => return,
    }
    if is_needed(tree, flights, files, number, node) {
        return;
    }
    tree.drop_node(number);
}

/// Drops each newly cut node that nothing keeps alive. No node loses a child by this. One node may lack a reason.
fn sweep_cut(tree: &mut Tree, flights: &RequestsInFlight, files: &Files, but: Option<u64>)
    requires tree { IsTree (at_in tree.old) }
    requires aside { HaveReasonsAside (at_in tree.old) (kept_by flights.now files.now) but tree.old.newly_cut }
    ensures tree { IsTree (at_in tree.new) }
    ensures reasons { HaveReasonsBut (at_in tree.new) (kept_by flights.now files.now) (listed but) }
    ensures swept { IsSwept (kept_by flights.now files.now) (at_in tree.old) (at_in tree.new) }
    ensures rest { IsSameRest tree.old tree.new }
{
    while let Some(number) = tree.take_newly_cut() {
        drop_cut(tree, flights, files, number, but);
    }
}

/// Drops each newly cut node that nothing keeps alive. Then does so for the node that may have lost its last child, if
/// there is one, its parent, and so on.
pub fn sweep_change(tree: &mut Tree, flights: &RequestsInFlight, files: &Files, losing: Option<u64>)
    requires tree { IsTree (at_in tree.old) }
    requires aside { HaveReasonsAside (at_in tree.old) (kept_by flights.now files.now) losing tree.old.newly_cut }
    ensures tree { IsTree (at_in tree.new) }
    ensures reasons { HaveReasons (at_in tree.new) (kept_by flights.now files.now) }
    ensures swept { IsSwept (kept_by flights.now files.now) (at_in tree.old) (at_in tree.new) }
    ensures rest { IsSameRest tree.old tree.new }
{
    sweep_cut(tree, flights, files, losing);
    match losing {
        Some(number) => sweep(tree, flights, files, number, &[]),
        None => {}
    }
}
