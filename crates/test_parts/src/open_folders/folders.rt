//! Listings that are stored, lent and retired.

use crate::open_folders::making::{Given, listing, some_listing, told};
use crate::open_folders::steps::{Step, expect_sum, is_lent, take, tell};
use handles::{Dirs, FolderLimits, Listing};
use payload::Kind::{File, Folder};
use std::alloc::{AllocError, Global};
use std::test::Fail;
use std::thread;

const ONE: Given = &[("a", File)];

const TWO: Given = &[("c", File), ("b", Folder)];

/// How many folders may be open in the test in which four threads close each of them.
const MANY: u64 = 1_000;

#[test]
fn nothing_is_lent_at_first(rt: HostRuntime) -> Result<(), Fail> {
    const STEPS: &[Step] = &[Step::Never(0), Step::Never(u64::MAX)];
    let dirs = Dirs::new(rt.alloc())?;
    tell(rt.alloc(), &dirs, STEPS)
}

#[test]
fn put_lent_and_retired(rt: HostRuntime) -> Result<(), Fail> {
    const STEPS: &[Step] = &[
        Step::Put(ONE),
        Step::Put(TWO),
        Step::Fresh,
        Step::Lend(0, "./ ../ a"),
        Step::Lend(1, "./ ../ b/ c"),
        Step::Retire(0),
        Step::Gone(0),
        Step::Lend(1, "./ ../ b/ c"),
        Step::Put(ONE),
        Step::Fresh,
        Step::Retire(2),
        Step::Retire(1),
    ];
    let dirs = Dirs::new(rt.alloc())?;
    tell(rt.alloc(), &dirs, STEPS)
}

/// Whether this closes the handle and no later call does. What was closed is lent to nobody else, and has its handle.
fn is_closed_once(dirs: &Dirs, fh: u64) -> bool {
    let Some(last) = dirs.close(fh) else {
        return false;
    };
    !dirs.retire(fh) && dirs.lend(fh).is_none() && last.listing().fh() == fh
}

/// Whether it is closed once while it is lent.
fn is_closed_while_lent(dirs: &Dirs, fh: u64) -> bool {
    let Some(again) = dirs.lend(fh) else {
        return false;
    };
    is_closed_once(dirs, fh) && again.listing().fh() == fh
}

/// Whether it is the listing with the name `a`.
fn is_one(alloc: Global, listing: &Listing) -> Result<bool, AllocError> {
    let text = told(alloc, listing.entries())?;
    Ok(listing.number() == 1 && text.as_str() == "./ ../ a")
}

/// Whether it is closed once while it is lent twice, and stays as it is for who has it.
fn is_kept_while_lent(alloc: Global, dirs: &Dirs, fh: u64) -> Result<bool, AllocError> {
    let Some(lent) = dirs.lend(fh) else {
        return Ok(false);
    };
    let is_closed = is_closed_while_lent(dirs, fh);
    Ok(is_one(alloc, lent.listing())? && is_closed)
}

/// Stores a listing, and closes it while it is lent.
fn close_while_lent(alloc: Global, dirs: &Dirs) -> Result<(), Fail> {
    let Ok(fh) = dirs.put(listing(alloc, ONE)?) else {
        return Err(Fail::from("the listing came back"));
    };
    if is_kept_while_lent(alloc, dirs, fh)? {
        return Ok(());
    }
    Err(Fail::from(("it is closed otherwise", fh)))
}

// A handle is closed only once, even while its listing is lent.
#[test]
fn closed_while_it_is_lent(rt: HostRuntime) -> Result<(), Fail> {
    let dirs = Dirs::new(rt.alloc())?;
    close_while_lent(rt.alloc(), &dirs)
}

/// The results of a thread: how many of its listings were lent as they were stored and then retired, and under which
/// handles.
#[derive(Drop)]
struct Worked {
    right: u64,
    handles: Vec<u64>,
}

/// Stores a listing, lends it, and retires it.
fn use_folder(alloc: Global, dirs: &Dirs, worked: &mut Worked) -> Result<(), AllocError> {
    let Some(own) = some_listing(alloc, TWO) else {
        return Ok(());
    };
    let Ok(fh) = dirs.put(own) else {
        return Ok(());
    };
    worked.handles.push(fh)?;
    if is_lent(alloc, dirs, fh, "./ ../ b/ c")? && dirs.retire(fh) && dirs.lend(fh).is_none() {
        worked.right = worked.right.saturating_add(1);
    }
    Ok(())
}

/// Uses 1,000 folders.
fn use_folders(alloc: Global, dirs: &Dirs) -> Worked {
    let mut worked = Worked {
        right: 0,
        handles: Vec::new(alloc),
    };
    for _round in 0..1_000 {
        let _ = use_folder(alloc, dirs, &mut worked);
    }
    worked
}

/// How many of these handles this call closed.
fn retire_all(dirs: &Dirs, handles: &[u64]) -> u64 {
    let mut count = 0u64;
    for fh in handles {
        if dirs.retire(*fh) {
            count = count.saturating_add(1);
        }
    }
    count
}

/// Stores so many listings with one name each. There is room for no more.
fn fill(alloc: Global, dirs: &Dirs, handles: &mut Vec<u64>) -> Result<(), Fail> {
    for _folder in 0..MANY {
        take(alloc, dirs, handles, Step::Put(ONE))?;
    }
    take(alloc, dirs, handles, Step::Back(ONE))
}

// If several calls close the same handle, exactly one gets true, over 20,000 handles. Each time there is as much room as
// before: a count that was lowered twice for a folder would leave room for none, and one that was not for fewer.
#[test]
fn each_handle_is_closed_once(rt: HostRuntime) -> Result<(), Fail> {
    let alloc = rt.alloc();
    let limits = FolderLimits {
        folders: MANY,
        names: MANY * 3,
    };
    let dirs = Dirs::with_limits(alloc, limits)?;
    for _round in 0..20 {
        let mut handles = Vec::new(alloc);
        fill(alloc, &dirs, &mut handles)?;
        let (shared, all) = (&dirs, handles.as_slice());
        let counts = thread::map_indices(&rt, alloc, 4, &|_thread| retire_all(shared, all))?;
        expect_sum(&counts, MANY)?;
    }
    Ok(())
}

/// How many of these handles are lent no more.
fn count_gone(dirs: &Dirs, handles: &[u64]) -> u64 {
    let mut gone = 0u64;
    for fh in handles {
        if dirs.lend(*fh).is_none() {
            gone = gone.saturating_add(1);
        }
    }
    gone
}

/// Whether each thread found its folders right, and all are gone.
fn expect_worked(dirs: &Dirs, all: &[Worked]) -> Result<(), Fail> {
    let mut gone = 0u64;
    for worked in all {
        if worked.right != 1_000 {
            return Err(Fail::from(("not all were right", worked.right)));
        }
        gone = gone.saturating_add(count_gone(dirs, &worked.handles));
    }
    if gone == 4_000 {
        return Ok(());
    }
    Err(Fail::from(("not all are gone", gone)))
}

// What one thread stores is not affected by others, and nothing is left of it afterwards.
#[test]
fn four_threads(rt: HostRuntime) -> Result<(), Fail> {
    let alloc = rt.alloc();
    let dirs = Dirs::new(alloc)?;
    let shared = &dirs;
    let all = thread::map_indices(&rt, alloc, 4, &|_thread| use_folders(alloc, shared))?;
    expect_worked(&dirs, &all)
}
