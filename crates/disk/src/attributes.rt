//! What was set in a disk in memory beside bytes. No clause says what it tells.

use crate::stat::Change;
use backing::NewTime;
use payload::{Details, Kind, Time};
use std::alloc::{AllocError, Global};
use std::cell::RefCell;

/// The beginning of 1970.
const BEGINNING: Time = Time {
    seconds: 0,
    nanos: 0,
};

/// The lowest twelve bits.
const PERMISSIONS: u32 = 0o7777;

/// The details of what that number leads to.
#[derive(Clone, Copy)]
struct Attribute {
    number: u64,
    details: Details,
}

/// The details of what something was set of, or was made with permission bits.
#[derive(Drop)]
pub struct Attributes {
    kept: RefCell<Vec<Attribute>>,
}

impl Attributes {
    /// None. It takes no memory.
    pub fn new(alloc: Global) -> Attributes {
        Attributes {
            kept: RefCell::new(Vec::new(alloc)),
        }
    }

    /// The details of what that number leads to.
    pub fn of(&self, number: u64, kind: Kind) -> Details {
        match self.kept.try_borrow() {
            Ok(kept) => find(kept.as_slice(), number, kind),
            Err(_) => usual(number, kind),
        }
    }

    /// Sets them.
    pub fn set(&self, number: u64, kind: Kind, change: Change, now: u64) -> Result<(), AllocError> {
        let details = changed(self.of(number, kind), change, now);
        match self.kept.try_borrow_mut() {
            Ok(mut kept) => kept.insert(0, Attribute { number, details })?,
            Err(_) => {}
        }
        Ok(())
    }
}

/// What was set last.
fn find(kept: &[Attribute], number: u64, kind: Kind) -> Details {
    for attribute in kept {
        if attribute.number == number {
            return attribute.details;
        }
    }
    usual(number, kind)
}

/// The details of what nothing was set of.
fn usual(number: u64, kind: Kind) -> Details {
    let (permissions, links) = match kind {
        Kind::Folder => (0o755, 2),
        Kind::File | Kind::Special(_) => (0o644, 1),
        Kind::Link => (0o777, 1),
    };
    Details {
        ino: number,
        permissions,
        links,
        uid: 0,
        gid: 0,
        accessed: BEGINNING,
        modified: BEGINNING,
        changed: BEGINNING,
    }
}

/// The details then.
fn changed(details: Details, change: Change, now: u64) -> Details {
    match change {
        Change::Permissions(permissions) => Details {
            permissions: permissions & PERMISSIONS,
            ..details
        },
        Change::Owner { uid, gid } => Details {
            uid: uid.unwrap_or(details.uid),
            gid: gid.unwrap_or(details.gid),
            ..details
        },
        Change::Times { accessed, modified } => Details {
            accessed: time_of(accessed, details.accessed, now),
            modified: time_of(modified, details.modified, now),
            ..details
        },
    }
}

/// The time that is set, or the one that stays.
fn time_of(time: Option<NewTime>, stays: Time, now: u64) -> Time {
    match time {
        None => stays,
        Some(NewTime::At(time)) => time,
        Some(NewTime::Now) => Time {
            seconds: now / 1_000,
            nanos: 0,
        },
    }
}
