//! How many times a long run had each result.

use crate::event::Event;
use crate::least::LEAST;
use std::alloc::{AllocError, Global};

/// How many times a result came.
#[derive(Clone, Copy)]
struct Count {
    event: Event,
    least: u64,
    times: u64,
}

/// How many times each result came that must come.
#[derive(Drop)]
pub struct Tallies {
    counts: Vec<Count>,
}

impl Tallies {
    pub fn new(alloc: Global) -> Result<Tallies, AllocError> {
        let mut counts = Vec::new(alloc);
        for (event, least) in LEAST {
            counts.push(Count {
                event: *event,
                least: *least,
                times: 0,
            })?;
        }
        Ok(Tallies { counts })
    }

    /// Counts one more.
    pub fn note(&mut self, event: Event) {
        for count in self.counts.iter_mut() {
            if count.event == event {
                count.times = count.times.saturating_add(1);
            }
        }
    }

    /// The index of a result that came too seldom, with how many times it came, if there is one.
    pub fn too_few(&self) -> Option<(usize, u64)> {
        let place = self
            .counts
            .iter()
            .position(|count| count.times < count.least)?;
        let count = self.counts.get(place)?;
        Some((place, count.times))
    }
}
