//! Listings that are stored up to the limits of the open folders, and beyond them.

use crate::open_folders::making::{Given, some_listing};
use crate::open_folders::steps::{Step, expect_sum, take, take_all, tell};
use handles::{Dirs, FolderLimits, MAX_OPEN_FOLDERS};
use payload::Kind::File;
use std::alloc::Global;
use std::test::Fail;
use std::thread;

const NONE: Given = &[];

const ONE: Given = &[("a", File)];

const TWO: Given = &[("a", File), ("b", File)];

/// Room for two folders, one with one name and one with two.
const SMALL: FolderLimits = FolderLimits {
    folders: 2,
    names: 7,
};

// `.` and `..` count as names, too.
#[test]
fn listings_come_back_beyond_the_limits(rt: HostRuntime) -> Result<(), Fail> {
    const STEPS: &[Step] = &[
        Step::Put(ONE),
        Step::Put(TWO),
        Step::Back(NONE),
        Step::Retire(0),
        Step::Back(TWO),
        Step::Put(ONE),
        Step::Back(NONE),
        Step::Retire(1),
        Step::Retire(2),
        Step::Put(TWO),
        Step::Put(ONE),
    ];
    let dirs = Dirs::with_limits(rt.alloc(), SMALL)?;
    tell(rt.alloc(), &dirs, STEPS)
}

/// Stores as many as may be open, and beyond.
fn fill(alloc: Global, dirs: &Dirs, handles: &mut Vec<u64>) -> Result<(), Fail> {
    for _folder in 0..MAX_OPEN_FOLDERS {
        take(alloc, dirs, handles, Step::Put(NONE))?;
    }
    let steps = [Step::Back(NONE), Step::Retire(7), Step::Put(ONE)];
    take_all(alloc, dirs, handles, &steps)
}

#[test]
fn so_many_folders(rt: HostRuntime) -> Result<(), Fail> {
    let dirs = Dirs::new(rt.alloc())?;
    fill(rt.alloc(), &dirs, &mut Vec::new(rt.alloc()))
}

/// Stores 500 listings, and retires each that was not returned. Returns how many were stored.
fn put_and_retire(alloc: Global, dirs: &Dirs) -> u64 {
    let mut made = 0u64;
    for _round in 0..500 {
        let Some(own) = some_listing(alloc, ONE) else {
            return made;
        };
        made = made.saturating_add(1);
        if let Ok(fh) = dirs.put(own) {
            dirs.retire(fh);
        }
    }
    made
}

// Whatever was refused to threads that met at the limits, all room is there again after they have ended. None makes more than 500.
#[test]
fn no_place_is_lost(rt: HostRuntime) -> Result<(), Fail> {
    const STEPS: &[Step] = &[Step::Put(TWO), Step::Put(ONE), Step::Back(NONE)];
    let alloc = rt.alloc();
    let dirs = Dirs::with_limits(alloc, SMALL)?;
    let shared = &dirs;
    let made = thread::map_indices(&rt, alloc, 4, &|_thread| put_and_retire(alloc, shared))?;
    expect_sum(&made, 2_000)?;
    tell(alloc, &dirs, STEPS)
}
