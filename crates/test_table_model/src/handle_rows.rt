//! Handles rise, and none is used twice.

use std::alloc::{AllocError, Global};
use std::test::Fail;
use table_files::{Access, Files, Need, OpenFile};

fn file_of(number: u64, access: Access) -> OpenFile {
    OpenFile {
        number,
        generation: 0,
        access,
    }
}

/// How many times the first file is open, whether it is open, how many files are open, and how many handles are left.
fn counts(files: &Files) -> (u64, bool, usize, u64) {
    (
        files.openings(2),
        files.is_open(2),
        files.len(),
        files.handles_left(),
    )
}

/// What came of opening a file twice, of closing the second handle twice, and of opening another file.
#[derive(Drop)]
struct Told {
    handles: [u64; 3],
    /// What each closing returned, and what stands under the last handle and the second.
    files: [Option<OpenFile>; 4],
    /// The counts after the first two openings, after the closing, and at the end.
    counts: [(u64, bool, usize, u64); 3],
}

/// The results outlive the files, since otherwise each assertion would have to drop the files.
fn tell(alloc: Global) -> Result<Told, AllocError> {
    let mut files = Files::new(alloc);
    files.reserve(2)?;
    let first = files.open(file_of(2, Access::Reading));
    let second = files.open(file_of(2, Access::Both));
    let opened = counts(&files);
    let closed = [files.close(second), files.close(second)];
    let left = counts(&files);
    files.reserve(1)?;
    let third = files.open(file_of(5, Access::Writing));
    Ok(Told {
        handles: [first, second, third],
        files: [closed[0], closed[1], files.get(third), files.get(second)],
        counts: [opened, left, counts(&files)],
    })
}

#[test]
fn a_closed_handle_is_not_given_again(rt: HostRuntime) -> Result<(), Fail> {
    let told = tell(rt.alloc())?;
    let (both, writing) = (file_of(2, Access::Both), file_of(5, Access::Writing));
    let files = [Some(both), None, Some(writing), None];
    let counts = [
        (2, true, 2, u64::MAX - 2),
        (1, true, 1, u64::MAX - 2),
        (1, true, 2, u64::MAX - 3),
    ];
    if told.handles != [1, 2, 3] || told.files != files || told.counts != counts {
        return Err(Fail::from(("told otherwise", told.handles, told.counts)));
    }
    Ok(())
}

/// What a handle was opened for, what it is needed for, and whether it may be used.
const ALLOWED: &[(Access, Need, bool)] = &[
    (Access::Reading, Need::Reading, true),
    (Access::Reading, Need::Writing, false),
    (Access::Writing, Need::Writing, true),
    (Access::Writing, Need::Reading, false),
    (Access::Both, Need::Writing, true),
    (Access::Writing, Need::Any, true),
];

#[test]
fn access_allows_what_is_needed(_rt: HostRuntime) -> Result<(), Fail> {
    for (place, (access, need, allowed)) in ALLOWED.iter().enumerate() {
        if access.allows(*need) != *allowed {
            return Err(Fail::from(("allowed otherwise", place)));
        }
    }
    Ok(())
}
