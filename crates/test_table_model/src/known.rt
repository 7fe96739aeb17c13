//! What is known without the table under test: the list table, and the pairs of both.

use crate::list_table::ListTable;
use crate::pairs::Pairs;
use paths::Path;
use std::alloc::{AllocError, Global};
use table::{Given, Limits};
use table_image::Image;

/// The list table and the pairs.
#[derive(Drop)]
pub struct Known {
    pub list: ListTable,
    pub pairs: Pairs,
    /// How many postings were compared.
    pub seen: usize,
}

impl Known {
    /// Of two new tables. The longest name has that many bytes.
    pub fn new(alloc: Global, limits: Limits, longest: usize) -> Result<Known, AllocError> {
        let pairs = Pairs::new(alloc, longest)?;
        let list = ListTable::open(alloc, limits)?;
        Ok(Known {
            list,
            pairs,
            seen: 0,
        })
    }

    /// Whether these are the paths of the request that began last in the list table.
    pub fn same_paths(&self, paths: &[Path]) -> Result<bool, AllocError> {
        match self.list.request(self.list.last_id) {
            Some(request) => self.pairs.are_paths(request.plan.ways.as_slice(), paths),
            None => Ok(false),
        }
    }

    /// Whether these are the nodes that the request with that id was given in the list table.
    pub fn same_given(&self, id: u64, given: &[Option<Given>]) -> bool {
        match self.list.request(id) {
            Some(request) => self.pairs.same_given(request.listed.as_slice(), given),
            None => false,
        }
    }

    /// What differs between the two tables, if anything: the postings since the last comparison first, since births make pairs.
    pub fn difference(&mut self, image: &Image) -> Result<Option<&'static str>, AllocError> {
        if !self.pairs.take_postings(&self.list, image, self.seen)? {
            return Ok(Some("postings"));
        }
        self.seen = self.list.postings.len();
        self.pairs.difference(&self.list, image)
    }
}
