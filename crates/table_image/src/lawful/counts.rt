//! The law of the nodes and the ledger together.

ghost use Rattle.std.specs.Prelude.{◌≡◌, ◌≢◌, ◌↔◌, ◌+◌, ◌<◌, ◌^◌, IsTrue, All};
ghost use Rattle.ledger.specs.Periods.{unclosed};
ghost use Rattle.ledger.specs.Sums.{number_of, entries_of, given_back_of, IsNeverNegative};
ghost use Rattle.tree.specs.Listed.{node_at, IsDistinct};
ghost use Rattle.table_law.specs.Law.{HasPlainRoot, IsBornInOrder, IsCounted, IsOrdered, IsUnborne};
ghost use Rattle.table_image.specs.Parts.{after_closed, births_summed, BearLastBirths, BearsLastBirth, AreCountsExact, IsCountExact, AreOthersSettled, counts_in_all, IsRootPlain};

use crate::lawful::births::last_generation;
use crate::lawful::nodes::find;
use crate::lawful::postings::{are_never_negative, are_ordered, count, count_in_all};
use ledger::{KeptBirths, Posting};
use tree::Node;

/// Whether the root, if there is one, has generation 0, count 0 and no mark.
fn is_root_plain(nodes: &[Node]) -> bool
    ensures { IsTrue result ↔ IsRootPlain (node_at nodes.now) }
{
    match find(nodes, 1) {
        Some(node) => node.generation == 0 && node.count == 0 && !node.hidden,
        None => true,
    }
}

/// Whether no posting is about the root.
fn is_root_unposted(postings: &[Posting]) -> bool
    ensures { IsTrue result ↔ All (λ p. number_of p ≢ 1) postings.now }
{
    postings.iter().all(|posting| posting.number() != 1)
}

/// Whether the root is never born, counted or marked.
pub fn has_plain_root(nodes: &[Node], postings: &[Posting]) -> bool
    ensures { IsTrue result ↔ HasPlainRoot (node_at nodes.now) (unclosed postings.now) }
{
    is_root_plain(nodes) && is_root_unposted(postings)
}

/// Whether the node is the root, or has the generation of the last birth of its number.
fn bears_last_birth(node: &Node, kept: &[KeptBirths], postings: &[Posting]) -> bool
    requires ordered { IsOrdered (after_closed kept.now postings.now) }
    requires small { births_summed kept.now < 2 ^ 64 }
    ensures { IsTrue result ↔ BearsLastBirth (after_closed kept.now postings.now) node.now }
{
    if node.number == 1 {
        return true;
    }
    last_generation(kept, postings, node.number) == Some(node.generation)
}

/// Whether each node except the root has the generation of the last birth of its number.
fn bear_last_births(nodes: &[Node], kept: &[KeptBirths], postings: &[Posting]) -> bool
    requires distinct { IsDistinct nodes.now }
    requires ordered { IsOrdered (after_closed kept.now postings.now) }
    requires small { births_summed kept.now < 2 ^ 64 }
    ensures { IsTrue result ↔ BearLastBirths (node_at nodes.now) (after_closed kept.now postings.now) }
{
    nodes
        .iter()
        .all(|node| bears_last_birth(node, kept, postings))
}

/// Whether no number was born twice with the same generation, and each living node has the last one.
pub fn are_born_in_order(nodes: &[Node], kept: &[KeptBirths], postings: &[Posting]) -> bool
    requires distinct { IsDistinct nodes.now }
    requires small { births_summed kept.now < 2 ^ 64 }
    ensures { IsTrue result ↔ IsBornInOrder (node_at nodes.now) (after_closed kept.now postings.now) }
{
    are_ordered(kept, postings) && bear_last_births(nodes, kept, postings)
}

#[tactic(auto, unfolding(crate::specs::Parts::IsCountExact))]
/// Whether the node's lookup count is that of the ledger.
fn is_count_exact(node: &Node, kept: &[KeptBirths], postings: &[Posting]) -> bool
    requires ordered { IsOrdered (after_closed kept.now postings.now) }
    requires never_negative { IsNeverNegative (after_closed kept.now postings.now) }
    ensures { IsTrue result ↔ IsCountExact (after_closed kept.now postings.now) node.now }
{
    u128::from(node.count) == count(kept, postings, node.number, node.generation)
}

/// Whether each node's lookup count is that of the ledger.
fn are_counts_exact(nodes: &[Node], kept: &[KeptBirths], postings: &[Posting]) -> bool
    requires distinct { IsDistinct nodes.now }
    requires ordered { IsOrdered (after_closed kept.now postings.now) }
    requires never_negative { IsNeverNegative (after_closed kept.now postings.now) }
    ensures { IsTrue result ↔ AreCountsExact (node_at nodes.now) (after_closed kept.now postings.now) }
{
    nodes
        .iter()
        .all(|node| is_count_exact(node, kept, postings))
}

/// Whether the lookup counts of all nodes add up to `total`.
fn add_up_to(nodes: &[Node], total: u128) -> bool
    ensures { IsTrue result ↔ (counts_in_all nodes.now ≡ total) }
{
    let mut left = total;
    for node in nodes {
        let count = u128::from(node.count);
        if count > left {
            return false;
        }
        left -= count;
    }
    left == 0
}

/// Whether nothing is left of any number and generation that no node has.
///
/// If each node's count is that of the ledger, this is the case exactly if the counts add up to everything that is
/// left.
fn are_others_settled(nodes: &[Node], kept: &[KeptBirths], postings: &[Posting]) -> bool
    requires distinct { IsDistinct nodes.now }
    requires never_negative { IsNeverNegative (after_closed kept.now postings.now) }
    requires exact { AreCountsExact (node_at nodes.now) (after_closed kept.now postings.now) }
    ensures { IsTrue result ↔ AreOthersSettled (node_at nodes.now) (after_closed kept.now postings.now) }
{
    add_up_to(nodes, count_in_all(kept, postings))
}

/// Whether each lookup count is that of the ledger, nothing is left of dead nodes, and no count was ever negative.
pub fn are_counted(nodes: &[Node], kept: &[KeptBirths], postings: &[Posting]) -> bool
    requires distinct { IsDistinct nodes.now }
    requires ordered { IsOrdered (after_closed kept.now postings.now) }
    ensures { IsTrue result ↔ IsCounted (node_at nodes.now) (after_closed kept.now postings.now) }
{
    are_never_negative(kept, postings)
        && are_counts_exact(nodes, kept, postings)
        && are_others_settled(nodes, kept, postings)
}
