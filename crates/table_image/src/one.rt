//! Taking over images of an earlier version. No program calls it, since none keeps a table beyond its end.

ghost use Rattle.std.specs.Prelude.{◌≡◌, ◌↔◌, []};
ghost use Rattle.ledger.specs.Shares.{nothing};

use crate::data::{Image, ImageOne};
use ledger::Totals;

impl Image {
    ghost use Rattle.table_image.specs.ImageLaw.{IsLawfulImage};
    ghost use Rattle.table_image.specs.LawOne.{IsLawfulImageOne};

    /// The same data, with no period closed. It does not allocate, and the result is lawful if the image was.
    pub fn take_over(one: ImageOne) -> Image
        ensures data { result ≡ record { nodes = one.nodes; births = []; closed = nothing; postings = one.postings; records = one.records; holds = one.holds; files = one.files; counter = one.counter; last_handle = one.last_handle } }
        ensures lawful { IsLawfulImage result ↔ IsLawfulImageOne one }
    {
        let births = one.postings.none_of();
        Image {
            nodes: one.nodes,
            births,
            closed: Totals::nothing(),
            postings: one.postings,
            records: one.records,
            holds: one.holds,
            files: one.files,
            counter: one.counter,
            last_handle: one.last_handle,
        }
    }
}
