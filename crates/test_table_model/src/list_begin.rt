//! The begin of a request in the list table.

use crate::asks::{Ask, Told};
use crate::list_plans::LONGEST;
use crate::list_table::{ListRequest, ListTable, Plan};
use crate::words::{Way, is_among};
use errno::{EAGAIN, EBADF, EINVAL, ENAMETOOLONG, ENFILE, ENOTEMPTY, ESTALE};
use std::alloc::AllocError;
use table::{Access, Counts, Need};

/// By how much the counter of hidden names rises if a file may be hidden.
const ADVANCE: u32 = 10;

fn allows(access: Access, need: Need) -> bool {
    match (access, need) {
        (Access::Both, _) | (_, Need::Any) => true,
        (Access::Reading, Need::Reading) | (Access::Writing, Need::Writing) => true,
        _ => false,
    }
}

/// Whether one of the first paths is one of the second.
fn meet(ways: &[Way], others: &[Way]) -> bool {
    for way in ways {
        if is_among(way, others) {
            return true;
        }
    }
    false
}

/// Whether what the first holds exclusively is held by the second.
fn is_in_the_way(one: &Plan, other: &Plan) -> bool {
    meet(one.exclusive.as_slice(), other.shared.as_slice())
        || meet(one.exclusive.as_slice(), other.exclusive.as_slice())
}

fn conflict(one: &Plan, other: &Plan) -> bool {
    is_in_the_way(one, other) || is_in_the_way(other, one)
}

/// Why a move or an exchange is refused, if it is: one of its paths is a proper prefix of the other.
fn astray(plan: &Plan) -> Option<i32> {
    let (Ask::Move(..) | Ask::Keep(..) | Ask::Exchange(..), [source, target, ..]) = (
        plan.ask,
        plan.ways.as_slice(),
    ) else {
        return None;
    };
    if source.is_proper_prefix_of(target) {
        Some(EINVAL)
    } else if target.is_proper_prefix_of(source) {
        Some(if matches!(plan.ask, Ask::Exchange(..)) {
            EINVAL
        } else {
            ENOTEMPTY
        })
    } else {
        None
    }
}

fn is_one_too_long(ways: &[Way]) -> bool {
    for way in ways {
        if way.bytes() > LONGEST {
            return true;
        }
    }
    false
}

/// What all requests were promised.
#[derive(Clone, Copy)]
struct Promised {
    births: u64,
    entries: u64,
    files: u64,
}

impl Promised {
    fn with(self, plan: &Plan) -> Promised {
        Promised {
            births: self.births.saturating_add(plan.births),
            entries: self.entries.saturating_add(plan.entries),
            files: self.files.saturating_add(plan.files),
        }
    }
}

impl ListTable {
    /// Whether the handle is that of an open file of the node, and may be used for this.
    fn may_use(&self, number: u64, handle: u64, need: Need) -> bool {
        match self.file(handle) {
            Some(file) => {
                let (filed, _) = file.bearer;
                filed == number && allows(file.access, need)
            }
            None => false,
        }
    }

    fn is_bad_handle(&self, ask: Ask) -> bool {
        match ask {
            Ask::Node(number, Some((handle, need))) => !self.may_use(number, handle, need),
            Ask::Release(number, handle) => !self.may_use(number, handle, Need::Any),
            _ => false,
        }
    }

    /// Whether another request in progress conflicts with it.
    fn is_busy(&self, plan: &Plan) -> bool {
        for request in &self.requests {
            if request.working && conflict(&request.plan, plan) {
                return true;
            }
        }
        false
    }

    /// What is promised to the requests in progress, and to one more.
    fn promised(&self, plan: &Plan) -> Promised {
        let mut promised = Promised {
            births: 0,
            entries: 0,
            files: 0,
        };
        for request in &self.requests {
            if request.working {
                promised = promised.with(&request.plan);
            }
        }
        promised.with(plan)
    }

    /// Whether nodes, postings, open files or handles would run out.
    fn is_full(&self, plan: &Plan) -> bool {
        let promised = self.promised(plan);
        let nodes = (self.nodes.len() as u64).saturating_add(promised.births);
        let files = (self.files.len() as u64).saturating_add(promised.files);
        let before = match self.limits.counts {
            Counts::Bounded => { (self.postings.len() as u64).saturating_add(self.counted()) }
            // A period that has just begun may have a posting for each node.
            Counts::Free => self.limits.nodes,
        };
        let postings = before.saturating_add(promised.entries.saturating_mul(3));
        nodes > self.limits.nodes
            || postings > self.limits.postings
            || files > self.limits.files
            || promised.files > u64::MAX.saturating_sub(self.last_handle)
    }

    /// Why a request with that plan is refused, if it is.
    fn refusal(&self, plan: &Plan) -> Option<Told> {
        if is_one_too_long(plan.ways.as_slice()) {
            return Some(Told::Refused(ENAMETOOLONG));
        }
        if let Some(errno) = astray(plan) {
            return Some(Told::Refused(errno));
        }
        if self.is_busy(plan) {
            return Some(Told::Busy);
        }
        if self.is_full(plan) {
            return Some(Told::Refused(ENFILE));
        }
        if self.requests.len() as u64 >= self.limits.flights {
            return Some(Told::Refused(EAGAIN));
        }
        None
    }

    /// The nodes that the request names, and those at paths of its ticket.
    fn pins_of(&self, plan: &Plan) -> Result<Vec<u64>, AllocError> {
        let mut pins = Vec::new(self.alloc);
        pins.extend_from_slice(plan.given.as_slice())?;
        for way in &plan.ways {
            if let Some(node) = self.at(way) {
                pins.push(node.number)?;
            }
        }
        Ok(pins)
    }

    /// Begins the request. What it closes is closed, and what nothing keeps alive any more is dropped.
    fn go(&mut self, unique: u64, plan: Plan) -> Result<Told, AllocError> {
        let pins = self.pins_of(&plan)?;
        let told = Told::Go {
            same: plan.same,
            hide: plan.hide,
            last: plan.last,
        };
        if plan.hide {
            self.counter = self.counter.wrapping_add(ADVANCE);
        }
        if let Ask::Release(_, handle) = plan.ask {
            self.close(handle);
        }
        self.last_id = self.last_id.saturating_add(1);
        self.requests.push(ListRequest {
            id: self.last_id,
            unique,
            working: true,
            plan,
            pins,
            listed: Vec::new(self.alloc),
            opened: None,
        })?;
        self.sweep();
        Ok(told)
    }

    /// Begins a request or refuses it. A request that begins gets the last id.
    pub fn begin(&mut self, unique: u64, ask: Ask) -> Result<Told, AllocError> {
        if self.is_bad_handle(ask) {
            return Ok(Told::Refused(EBADF));
        }
        let Some(plan) = self.plan(ask)? else {
            return Ok(Told::Refused(ESTALE));
        };
        match self.refusal(&plan) {
            Some(told) => Ok(told),
            None => self.go(unique, plan),
        }
    }
}
