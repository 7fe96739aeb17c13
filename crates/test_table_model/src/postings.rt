//! Comparing the postings of both tables.

use crate::list_table::{Bearer, ListTable, Posted};
use crate::pairs::Pairs;
use ledger::Posting;
use std::alloc::AllocError;
use table::Counts;
use table_image::Image;

/// The posting as the list table has it, for that number and generation. The list table has no periods.
fn posted(posting: Posting, bearer: Bearer) -> Option<Posted> {
    match posting {
        Posting::Born { .. } => Some(Posted::Born(bearer)),
        Posting::Entry { .. } => Some(Posted::Entry(bearer)),
        Posting::Back { .. } => Some(Posted::Back(bearer)),
        Posting::Forget { amount, .. } => Some(Posted::Forget(bearer, amount)),
        Posting::Opening { .. } => None,
    }
}

fn bearer_of(posting: Posting) -> Bearer {
    match posting {
        Posting::Born { number, generation }
        | Posting::Entry { number, generation }
        | Posting::Back { number, generation }
        | Posting::Forget {
            number,
            generation,
            amount: _,
        }
        | Posting::Opening {
            number,
            generation,
            count: _,
        } => (number, generation),
    }
}

impl Pairs {
    /// Whether the two postings are the same. If they are births, their numbers are a pair from now on.
    fn take_posting(&mut self, list: Posted, other: Posting) -> Result<bool, AllocError> {
        let bearer = bearer_of(other);
        if let Posted::Born(born) = list {
            self.add(born, bearer)?;
        }
        Ok(posted(other, list.bearer()) == Some(list) && self.are(list.bearer(), bearer))
    }

    /// Whether the postings after those compared before are the same: they are the last ones of the other table, which
    /// has periods. If its counts are bounded no period has ended; otherwise a period stays within its limit.
    pub fn take_postings(
        &mut self,
        list: &ListTable,
        image: &Image,
        seen: usize,
    ) -> Result<bool, AllocError> {
        let others = image.postings.as_slice();
        let more = list.postings.len().saturating_sub(seen);
        let Some(before) = others.len().checked_sub(more) else {
            return Ok(false);
        };
        let (new, news) = (list.postings.iter().skip(seen), others.iter().skip(before));
        for (posting, other) in new.zip(news) {
            if !self.take_posting(*posting, *other)? {
                return Ok(false);
            }
        }
        match list.limits.counts {
            Counts::Bounded => Ok(before == seen),
            Counts::Free => Ok(others.len() as u64 <= list.limits.postings),
        }
    }
}
