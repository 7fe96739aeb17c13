//! Steps with the open folders, taken by one function: written out in the tests they are dear to check.

use crate::open_folders::making::{Given, listing, told};
use handles::Dirs;
use std::alloc::{AllocError, Global};
use std::test::Fail;

/// One step with the open folders. A handle goes by its position among those that were given, counted from 0.
#[derive(Clone, Copy)]
pub(crate) enum Step {
    /// A listing with these names is stored. Its handle is kept.
    Put(Given),
    /// A listing with these names is refused, and returned unchanged.
    Back(Given),
    /// The last handle is none of those before it.
    Fresh,
    /// The listing that is lent under this handle has it, and these names.
    Lend(usize, &'static str),
    /// The handle is closed.
    Retire(usize),
    /// Nothing is lent under it any more, and it cannot be closed again.
    Gone(usize),
    /// The same of a handle that was never given.
    Never(u64),
}

/// Whether a listing with these names is stored.
fn is_put(alloc: Global, dirs: &Dirs, handles: &mut Vec<u64>, names: Given) -> Result<bool, Fail> {
    match dirs.put(listing(alloc, names)?) {
        Ok(fh) => {
            handles.push(fh)?;
            Ok(true)
        }
        Err(_) => Ok(false),
    }
}

/// Whether a listing with these names is returned unchanged.
fn is_back(alloc: Global, dirs: &Dirs, names: Given) -> Result<bool, Fail> {
    match dirs.put(listing(alloc, names)?) {
        Ok(_) => Ok(false),
        Err(back) => Ok(back.fh() == 0 && back.entries().len() == names.len() + 2),
    }
}

/// Whether the last of the handles is none of those before it.
fn is_fresh(handles: &[u64]) -> bool {
    match handles.split_last() {
        Some((last, before)) => !before.contains(last),
        None => false,
    }
}

/// Whether the listing that is lent under the handle has that handle and these names.
pub(crate) fn is_lent(
    alloc: Global,
    dirs: &Dirs,
    fh: u64,
    names: &str,
) -> Result<bool, AllocError> {
    let Some(lent) = dirs.lend(fh) else {
        return Ok(false);
    };
    let text = told(alloc, lent.listing().entries())?;
    Ok(lent.listing().fh() == fh && text.as_str() == names)
}

/// Whether nothing is lent under the handle, and it cannot be closed.
fn is_gone(dirs: &Dirs, fh: u64) -> bool {
    dirs.lend(fh).is_none() && !dirs.retire(fh)
}

/// The same of the handle at that position, if there is one.
fn is_gone_at(dirs: &Dirs, handles: &[u64], place: usize) -> bool {
    match handles.get(place) {
        Some(fh) => is_gone(dirs, *fh),
        None => false,
    }
}

/// The handle at that position, or one under which nothing is stored.
fn handle_at(handles: &[u64], place: usize) -> u64 {
    match handles.get(place) {
        Some(fh) => *fh,
        None => u64::MAX,
    }
}

/// Whether it is as the step says.
fn is_so(alloc: Global, dirs: &Dirs, handles: &mut Vec<u64>, step: Step) -> Result<bool, Fail> {
    match step {
        Step::Put(names) => is_put(alloc, dirs, handles, names),
        Step::Back(names) => is_back(alloc, dirs, names),
        Step::Fresh => Ok(is_fresh(handles)),
        Step::Lend(place, names) => Ok(is_lent(alloc, dirs, handle_at(handles, place), names)?),
        Step::Retire(place) => Ok(dirs.retire(handle_at(handles, place))),
        Step::Gone(place) => Ok(is_gone_at(dirs, handles, place)),
        Step::Never(fh) => Ok(is_gone(dirs, fh)),
    }
}

pub(crate) fn take(
    alloc: Global,
    dirs: &Dirs,
    handles: &mut Vec<u64>,
    step: Step,
) -> Result<(), Fail> {
    if is_so(alloc, dirs, handles, step)? {
        return Ok(());
    }
    Err(Fail::from(("after so many handles", handles.len())))
}

/// Takes each step.
pub(crate) fn take_all(
    alloc: Global,
    dirs: &Dirs,
    handles: &mut Vec<u64>,
    steps: &[Step],
) -> Result<(), Fail> {
    for step in steps {
        take(alloc, dirs, handles, *step)?;
    }
    Ok(())
}

/// The same, of which no handle was given before.
pub(crate) fn tell(alloc: Global, dirs: &Dirs, steps: &[Step]) -> Result<(), Fail> {
    take_all(alloc, dirs, &mut Vec::new(alloc), steps)
}

/// Checks that these numbers are so many together.
pub(crate) fn expect_sum(numbers: &[u64], wanted: u64) -> Result<(), Fail> {
    let mut sum = 0u64;
    for number in numbers {
        sum = sum.saturating_add(*number);
    }
    if sum == wanted {
        return Ok(());
    }
    Err(Fail::from(("together", sum)))
}
