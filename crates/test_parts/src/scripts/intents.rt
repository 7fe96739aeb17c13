//! The wants of SETATTR, by its bits.

use crate::scripts::setting::{FIXED, HOST};
use errno::EPERM;
use ops::{Intent, Settings, Wanted, intent_of};
use payload::Time;
use std::test::Fail;
use table_files::Need;
use table_requests::Handle;
use wire::{Caller, NewAttributes, Operation, ReplyBody, Request};

/// What a SETATTR of node 5 with handle 7 begins with.
#[derive(Clone, Copy, PartialEq, Eq)]
enum Begins {
    /// It is refused with EPERM.
    Refused,
    /// With its node only.
    Freely,
    /// With its handle, which must be open with that access.
    By(Need),
}

use Begins::{By, Freely, Refused};

/// By settings and `valid`.
const ROWS: &[(Settings, u32, Begins)] = &[
    // Nothing, the size and the lock owner.
    (FIXED, 0, Freely),
    (FIXED, 8, Freely),
    (FIXED, 0x200, Freely),
    (FIXED, 0x208, Freely),
    // The handle, alone and with these.
    (FIXED, 0x40, By(Need::Writing)),
    (FIXED, 0x48, By(Need::Writing)),
    (FIXED, 0x240, By(Need::Writing)),
    (FIXED, 0x248, By(Need::Writing)),
    // Each other bit, alone and with these.
    (FIXED, 1, Refused),
    (FIXED, 2, Refused),
    (FIXED, 4, Refused),
    (FIXED, 0x10, Refused),
    (FIXED, 0x20, Refused),
    (FIXED, 0x80, Refused),
    (FIXED, 0x100, Refused),
    (FIXED, 0x400, Refused),
    (FIXED, 0x800, Refused),
    (FIXED, 0x1000, Refused),
    (FIXED, 0x2000, Refused),
    (FIXED, 0x4000, Refused),
    (FIXED, 0x8000, Refused),
    (FIXED, 0x10000, Refused),
    (FIXED, 0x20000, Refused),
    (FIXED, 0x40000, Refused),
    (FIXED, 0x80000, Refused),
    (FIXED, 0x100000, Refused),
    (FIXED, 0x200000, Refused),
    (FIXED, 0x400000, Refused),
    (FIXED, 0x800000, Refused),
    (FIXED, 0x1000000, Refused),
    (FIXED, 0x2000000, Refused),
    (FIXED, 0x4000000, Refused),
    (FIXED, 0x8000000, Refused),
    (FIXED, 0x10000000, Refused),
    (FIXED, 0x20000000, Refused),
    (FIXED, 0x40000000, Refused),
    (FIXED, 0x80000000, Refused),
    (FIXED, 9, Refused),
    (FIXED, 0x49, Refused),
    (FIXED, 0x24c, Refused),
    (FIXED, 0x448, Refused),
    (FIXED, 0x648, Refused),
    // Nothing, each known bit alone, and all except the handle.
    (HOST, 0, Freely),
    (HOST, 1, Freely),
    (HOST, 2, Freely),
    (HOST, 4, Freely),
    (HOST, 8, Freely),
    (HOST, 0x10, Freely),
    (HOST, 0x20, Freely),
    (HOST, 0x80, Freely),
    (HOST, 0x100, Freely),
    (HOST, 0x200, Freely),
    (HOST, 0x400, Freely),
    (HOST, 0x7bf, Freely),
    // The handle, without the size and with it.
    (HOST, 0x40, By(Need::Any)),
    (HOST, 0x41, By(Need::Any)),
    (HOST, 0x7f7, By(Need::Any)),
    (HOST, 0x48, By(Need::Writing)),
    (HOST, 0x49, By(Need::Writing)),
    (HOST, 0x7ff, By(Need::Writing)),
    // Each other bit, alone and with known ones.
    (HOST, 0x800, Refused),
    (HOST, 0x1000, Refused),
    (HOST, 0x2000, Refused),
    (HOST, 0x4000, Refused),
    (HOST, 0x8000, Refused),
    (HOST, 0x10000, Refused),
    (HOST, 0x20000, Refused),
    (HOST, 0x40000, Refused),
    (HOST, 0x80000, Refused),
    (HOST, 0x100000, Refused),
    (HOST, 0x200000, Refused),
    (HOST, 0x400000, Refused),
    (HOST, 0x800000, Refused),
    (HOST, 0x1000000, Refused),
    (HOST, 0x2000000, Refused),
    (HOST, 0x4000000, Refused),
    (HOST, 0x8000000, Refused),
    (HOST, 0x10000000, Refused),
    (HOST, 0x20000000, Refused),
    (HOST, 0x40000000, Refused),
    (HOST, 0x80000000, Refused),
    (HOST, 0x801, Refused),
    (HOST, 0x848, Refused),
    (HOST, 0xfff, Refused),
    (HOST, 0xffffffff, Refused),
];

/// Values that do not matter here.
const NOTHING_NEW: NewAttributes = NewAttributes {
    mode: 0,
    uid: 0,
    gid: 0,
    accessed: Time {
        seconds: 0,
        nanos: 0,
    },
    modified: Time {
        seconds: 0,
        nanos: 0,
    },
};

fn begins_with(settings: Settings, valid: u32) -> Option<Begins> {
    let request = Request {
        unique: 1,
        node: 5,
        caller: Caller { uid: 0, gid: 0 },
        operation: Operation::SetAttr {
            valid,
            fh: 7,
            size: 3,
            attributes: NOTHING_NEW,
        },
    };
    match intent_of(settings, &request) {
        Intent::Reply(ReplyBody::Failed { errno: EPERM }) => Some(Refused),
        Intent::Want(Wanted::Node { number: 5, handle }) => match handle {
            None => Some(Freely),
            Some(Handle { fh: 7, need }) => Some(By(need)),
            Some(_) => None,
        },
        _ => None,
    }
}

#[test]
fn what_may_be_set(rt: HostRuntime) -> Result<(), Fail> {
    for (settings, valid, begins) in ROWS {
        if begins_with(*settings, *valid) != Some(*begins) {
            return Err(Fail::from(("begins otherwise", *valid)));
        }
    }
    Ok(())
}
