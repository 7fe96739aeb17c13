//! Whether an image is lawful.

ghost use Rattle.std.specs.Prelude.{◌↔◌, IsTrue};
ghost use Rattle.tree.specs.Listed.{node_at, IsDistinct};
ghost use Rattle.table_law.specs.Law.{IsLawful};
ghost use Rattle.table_image.specs.ImageLaw.{is_kept};
ghost use Rattle.table_image.specs.Parts.{AreBooked, AreNodesKept};

mod births;
mod counts;
mod held;
mod leads;
mod nodes;
mod opened;
mod postings;
mod records;

use crate::data::{Image, Record};
use births::are_carried_over;
use counts::{are_born_in_order, are_counted, has_plain_root};
use held::{are_apart, are_holds_counted};
use leads::are_known;
use ledger::{KeptBirths, Posting, Totals};
use nodes::{are_distinct, are_marks_named, is_tree};
use opened::{are_files_known, are_handles_distinct};
use records::{are_all_alive, are_ids_distinct, have_reasons};
use table_files::OpenEntry;
use tree::Node;

/// Whether nodes with distinct numbers and the ledger satisfy the law together.
fn keep_books(nodes: &[Node], kept: &[KeptBirths], closed: Totals, postings: &[Posting]) -> bool
    requires { IsDistinct nodes.now }
    ensures { IsTrue result ↔ AreBooked (node_at nodes.now) (record { births = kept.now; totals = closed; last = postings.now }) }
{
    are_carried_over(kept, closed, postings)
        && has_plain_root(nodes, postings)
        && are_born_in_order(nodes, kept, postings)
        && are_counted(nodes, kept, postings)
}

/// Whether nodes with distinct numbers, the requests and the open files satisfy the law together.
fn keep_nodes(nodes: &[Node], records: &[Record], files: &[OpenEntry]) -> bool
    requires { IsDistinct nodes.now }
    ensures { IsTrue result ↔ AreNodesKept (node_at nodes.now) (is_kept records.now files.now) }
{
    is_tree(nodes)
        && are_marks_named(nodes)
        && are_all_alive(nodes, records, files)
        && have_reasons(nodes, records, files)
}

/// Whether nodes with distinct numbers, the ledger, the requests and the open files satisfy the law together.
fn keep_law(
    nodes: &[Node],
    kept: &[KeptBirths],
    closed: Totals,
    postings: &[Posting],
    records: &[Record],
    files: &[OpenEntry],
) -> bool
    requires { IsDistinct nodes.now }
    ensures { IsTrue result ↔ IsLawful (node_at nodes.now) (record { births = kept.now; totals = closed; last = postings.now }) (is_kept records.now files.now) }
{
    keep_books(nodes, kept, closed, postings) && keep_nodes(nodes, records, files)
}

impl Image {
    ghost use Rattle.table_image.specs.ImageLaw.{IsLawfulImage};

    /// Whether the image satisfies the law of a table. It may have any data.
    pub fn lawful(&self) -> bool
        ensures { IsTrue result ↔ IsLawfulImage self.now }
    {
        let nodes = self.nodes.as_slice();
        let records = self.records.as_slice();
        let files = self.files.as_slice();
        are_distinct(nodes)
            && are_ids_distinct(records)
            && are_handles_distinct(files)
            && keep_law(
                nodes,
                self.births.as_slice(),
                self.closed,
                self.postings.as_slice(),
                records,
                files,
            )
            && are_files_known(nodes, files, self.last_handle)
            && are_holds_counted(self.holds.as_slice(), records)
            && are_apart(records)
            && are_known(nodes, records)
    }
}
