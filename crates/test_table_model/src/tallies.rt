//! The results of a run, and how often each came.

use crate::asks::{Ask, Step, Told};
use std::alloc::{AllocError, Global};

/// The result of a call.
#[derive(Clone, Copy, PartialEq, Eq)]
pub enum Came {
    Begun,
    /// A request for a further name began.
    BegunLink,
    /// A move to the same path.
    Same,
    /// A file may be hidden.
    MayHide,
    /// The last handle of a hidden file was closed.
    Last,
    Busy,
    Refused(i32),
    Ended,
    Opened,
    Settled,
    /// A reply with entries was not taken.
    Untaken,
    Forgotten,
    Nothing,
}

/// The result of a call, from what it returned.
fn event_of(step: Step, told: Told) -> Came {
    match told {
        Told::Go { same: true, .. } => Came::Same,
        Told::Go { hide: true, .. } => Came::MayHide,
        Told::Go { last: true, .. } => Came::Last,
        Told::Go { .. } if matches!(step, Step::Begin(Ask::Link(..))) => Came::BegunLink,
        Told::Go { .. } => Came::Begun,
        Told::Busy => Came::Busy,
        Told::Refused(errno) => Came::Refused(errno),
        Told::Ended {
            opened: Some(_),
            ..
        } => Came::Opened,
        Told::Ended { .. } => Came::Ended,
        Told::Settled { entries: 1.., .. } if matches!(step, Step::Settle(_, false)) =>
            Came::Untaken,
        Told::Settled { .. } => Came::Settled,
        Told::Amount(1..) => Came::Forgotten,
        Told::Amount(_) | Told::Nothing => Came::Nothing,
    }
}

/// All results of a run, oldest first.
#[derive(Drop)]
pub struct Tallies {
    all: Vec<Came>,
}

impl Tallies {
    pub fn new(alloc: Global) -> Tallies {
        Tallies {
            all: Vec::new(alloc),
        }
    }

    pub fn note(&mut self, step: Step, told: Told) -> Result<(), AllocError> {
        self.all.push(event_of(step, told))?;
        Ok(())
    }

    fn times(&self, one: Came) -> usize {
        let mut times = 0usize;
        for came in &self.all {
            if *came == one {
                times = times.saturating_add(1);
            }
        }
        times
    }

    /// The index of the first of these that came fewer times, with how many times it came.
    pub fn too_few(&self, expected: &[Came], least: usize) -> Option<(usize, usize)> {
        for (place, one) in expected.iter().enumerate() {
            let times = self.times(*one);
            if times < least {
                return Some((place, times));
            }
        }
        None
    }
}
