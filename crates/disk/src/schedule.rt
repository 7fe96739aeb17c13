//! How a disk in memory behaves: which calls fail, how much one call reads or writes, and what its clock shows.

ghost use Rattle.std.specs.Prelude.{IfErr};
ghost use Rattle.disk.specs.Faults.{Ended};
ghost use Rattle.disk.specs.Spots.{IsFailure};

use crate::error::DiskError;
use backing::PlannedFault;
use std::alloc::{AllocError, Global};
use std::cell::{Cell, RefCell};

/// A failure of one call. Calls are counted from 1.
#[derive(Clone, Copy)]
struct Plan {
    call: u64,
    fault: PlannedFault,
}

/// What a test sets, also while the disk is in use. No clause speaks of it.
#[derive(Drop)]
pub struct Schedule {
    plans: RefCell<Vec<Plan>>,
    calls: Cell<u64>,
    most: Cell<usize>,
    now: Cell<u64>,
    changes: Cell<u64>,
    keeps_files: Cell<bool>,
    is_shared: Cell<bool>,
    shows_all: Cell<bool>,
}

impl Schedule {
    /// No call fails, each reads and writes all that it can, all numbers are 0, and all kinds are shown. It takes no memory.
    pub fn new(alloc: Global) -> Schedule {
        Schedule {
            plans: RefCell::new(Vec::new(alloc)),
            calls: Cell::new(0),
            most: Cell::new(usize::MAX),
            now: Cell::new(0),
            changes: Cell::new(0),
            keeps_files: Cell::new(false),
            is_shared: Cell::new(false),
            shows_all: Cell::new(true),
        }
    }

    /// Counts one more call, of which no work is to be done where it is planned to fail.
    pub fn pass(&self) -> Result<(), DiskError>
        ensures { IfErr result IsFailure }
    {
        match self.count() {
            Some(PlannedFault::Before(errno)) => Err(DiskError::Failed(errno)),
            Some(PlannedFault::After(errno)) => Err(DiskError::Failed(errno)),
            None => Ok(()),
        }
    }

    /// Counts one more call. It fails here where it is planned to fail before its work. Else this is the error number of the
    /// failure that is planned after it.
    pub fn begin(&self) -> Result<Option<i32>, DiskError>
        ensures { IfErr result IsFailure }
    {
        match self.count() {
            Some(PlannedFault::Before(errno)) => Err(DiskError::Failed(errno)),
            Some(PlannedFault::After(errno)) => Ok(Some(errno)),
            None => Ok(None),
        }
    }

    /// Counts one more call: how it is planned to fail.
    fn count(&self) -> Option<PlannedFault> {
        let call = self.calls.get().saturating_add(1);
        self.calls.set(call);
        match self.plans.try_borrow() {
            Ok(plans) => planned(plans.as_slice(), call),
            Err(_) => None,
        }
    }

    /// Has that call fail. It replaces what was planned for it.
    pub fn fail_at(&self, call: u64, fault: PlannedFault) -> Result<(), AllocError> {
        match self.plans.try_borrow_mut() {
            Ok(mut plans) => plans.insert(0, Plan { call, fault })?,
            Err(_) => {}
        }
        Ok(())
    }

    pub fn calls(&self) -> u64 {
        self.calls.get()
    }

    pub fn most(&self) -> usize {
        self.most.get()
    }

    pub fn set_most(&self, most: usize) {
        self.most.set(most);
    }

    pub fn now(&self) -> u64 {
        self.now.get()
    }

    pub fn set_now(&self, now: u64) {
        self.now.set(now);
    }

    pub fn changes(&self) -> u64 {
        self.changes.get()
    }

    pub fn set_changes(&self, changes: u64) {
        self.changes.set(changes);
    }

    pub fn keeps_files(&self) -> bool {
        self.keeps_files.get()
    }

    pub fn set_keeps_files(&self, keeps_files: bool) {
        self.keeps_files.set(keeps_files);
    }

    pub fn is_shared(&self) -> bool {
        self.is_shared.get()
    }

    pub fn set_is_shared(&self, is_shared: bool) {
        self.is_shared.set(is_shared);
    }

    pub fn shows_all(&self) -> bool {
        self.shows_all.get()
    }

    pub fn set_shows_all(&self, shows_all: bool) {
        self.shows_all.set(shows_all);
    }
}

/// What is planned for that call. Of two plans for it the last one made counts.
fn planned(plans: &[Plan], call: u64) -> Option<PlannedFault> {
    for plan in plans {
        if plan.call == call {
            return Some(plan.fault);
        }
    }
    None
}

/// What a call answers that did its work: that, or the failure that is planned after it.
pub fn ended<T: Drop>(later: Option<i32>, answer: Result<T, DiskError>) -> Result<T, DiskError>
    ensures { Ended answer result }
{
    match later {
        Some(errno) => Err(DiskError::Failed(errno)),
        None => answer,
    }
}
