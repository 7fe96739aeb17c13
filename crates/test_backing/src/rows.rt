//! Rows for the definition of the calls.

use crate::asked::{Asked, expect_count, expect_rows, expect_told};
use crate::asking::path_of;
use crate::opening::open;
use crate::sample_trees::{sample_folder, sample_tree};
use backing::{MemTree, PlannedFault, Shared};
use std::alloc::{AllocError, Global};
use std::fs;
use std::sync::{Arc, Mutex, Wait};
use std::test::Fail;

/// Rows without planned failures and limits. Each group starts from the sample.
const GROUPS: [&[(&str, &str)]; 10] = [
    &[
        ("write a 5 xy", "wrote 2"),
        ("read a 0 100", "bytes 61626300007879"),
    ],
    &[("write e 2000000 ", "wrote 0"), ("stat e", "file 0")],
    &[
        ("rename d d/x", "fault 22"),
        ("rename a d", "fault 21"),
        ("rename d a", "fault 20"),
    ],
    &[
        ("rename zz zz", "fault 2"),
        ("stat a/x", "fault 20"),
        ("rmdir .", "fault 16"),
    ],
    &[
        ("list .", "names a d/ e"),
        ("list a", "fault 20"),
        ("list zz", "fault 2"),
        ("stat .", "folder 0"),
        ("make .", "fault 17"),
        ("mkdir d", "fault 17"),
        ("make zz/x", "fault 2"),
        ("mkdir d/x", "done"),
        ("mkdir d/x/y", "done"),
        ("make d/x/z", "done"),
        ("rmdir d", "fault 39"),
        ("rename d/x/z d/x", "fault 39"),
        ("rename d q", "done"),
        ("list q/x", "names y/ z"),
        ("stat d", "fault 2"),
        ("remove q/x/y", "fault 21"),
        ("rmdir q/x/z", "fault 20"),
        ("remove q/x/z", "done"),
        ("rename a q/x/y", "fault 21"),
        ("rename a q/x/z", "done"),
        ("read q/x/z 1 1", "bytes 62"),
        ("rename q/x/z e", "done"),
        ("read e 0 100", "bytes 616263"),
        ("rmdir q/x/y", "done"),
        ("rmdir q/x", "done"),
    ],
    &[
        ("setlen a 1", "done"),
        ("setlen a 4", "done"),
        ("read a 0 9", "bytes 61000000"),
        ("read a 4 9", "bytes "),
        ("read a 99 9", "bytes "),
        ("setlen d 1", "fault 21"),
        ("write d 0 x", "fault 21"),
        ("read d 0 1", "fault 21"),
        ("sync a", "done"),
        ("sync d", "done"),
        ("sync .", "done"),
        ("sync zz", "fault 2"),
        ("remove a", "done"),
        ("stat a", "fault 2"),
        ("rename d .", "fault 16"),
        ("rename . d", "fault 16"),
    ],
    // Names that begin with a dot are like any others.
    &[
        ("make .a", "done"),
        ("make ...", "done"),
        ("mkdir .d", "done"),
        ("make .d/.b", "done"),
        ("list .", "names ... .a .d/ a d/ e"),
        ("list .d", "names .b"),
        ("rmdir .d", "fault 39"),
        ("rename d .d", "fault 39"),
        ("remove .d/.b", "done"),
        ("list .d", "names"),
        ("rmdir .d", "done"),
        ("remove .a", "done"),
        ("rename ... .z", "done"),
        ("list .", "names .z a d/ e"),
    ],
    // What does not exist is not made, and what is below a folder remains.
    &[
        ("write zz 0 x", "fault 2"),
        ("setlen zz 3", "fault 2"),
        ("read zz 0 1", "fault 2"),
        ("write d/zz 0 x", "fault 2"),
        ("stat zz", "fault 2"),
        ("list .", "names a d/ e"),
        ("mkdir d/x", "done"),
        ("make d/x/y", "done"),
        ("rmdir d", "fault 39"),
        ("rmdir d/x", "fault 39"),
        ("stat d/x/y", "file 0"),
        ("list d", "names x/"),
    ],
    // 128 KiB in one call.
    &[
        ("fill e 0 131072", "wrote 131072"),
        ("stat e", "file 131072"),
        ("check e 0 131072", "131072 of 131072"),
        ("check e 0 200000", "131072 of 131072"),
        ("check e 4095 4098", "4098 of 4098"),
        ("check e 65535 65538", "65537 of 65537"),
        ("check e 131071 9", "1 of 1"),
        ("check e 131072 9", "0 of 0"),
    ],
    // From the middle of a page, with a gap before it.
    &[
        ("fill a 4094 4", "wrote 4"),
        ("read a 0 5", "bytes 6162630000"),
        ("read a 4091 8", "bytes 0000004e4f5051"),
        ("fill a 3000 70000", "wrote 70000"),
        ("stat a", "file 73000"),
        ("check a 3000 80000", "70000 of 70000"),
        ("setlen a 65537", "done"),
        ("check a 4000 70000", "61537 of 61537"),
        ("read a 0 5", "bytes 6162630000"),
    ],
];

/// The rows on a memory tree, starting from the sample. No call fails.
pub fn tell_tree(alloc: Global, rows: &[(&str, &str)]) -> Result<(), Fail> {
    let mut tree = sample_tree(alloc)?;
    expect_told(alloc, &mut tree, rows, 0)
}

/// They are handed out by one function, since each one that names the rows is checked for all of them.
fn groups() -> [&'static [(&'static str, &'static str)]; 10] {
    GROUPS
}

#[test]
fn rows_on_a_memory_tree(rt: HostRuntime) -> Result<(), Fail> {
    for rows in groups() {
        tell_tree(rt.alloc(), rows)?;
    }
    Ok(())
}

/// The rows on the real folder at that path, by which so many calls are counted as failures.
pub fn tell_folder(
    rt: &HostRuntime,
    root: &str,
    rows: &[(&str, &str)],
    failures: u64,
) -> Result<(), Fail> {
    let mut opened = open(rt, root)?;
    expect_told(rt.alloc(), &mut opened, rows, failures)
}

#[test]
fn rows_on_a_real_folder(rt: HostRuntime) -> Result<(), Fail> {
    for rows in groups() {
        let root = sample_folder(&rt, "rows")?;
        tell_folder(&rt, root.as_str(), rows, 0)?;
        fs::remove_dir_all(&rt, root.as_str())?;
    }
    Ok(())
}

/// A handle to the tree.
pub fn hold_of<H: Wait + Drop>(
    alloc: Global,
    rt: H,
    tree: MemTree,
) -> Result<Shared<H>, AllocError> {
    let tree = Arc::new(alloc, Mutex::new(tree))?;
    Ok(Shared::new(rt, tree))
}

/// The rows through a handle to a memory tree, starting from the sample. No call fails.
pub fn tell_hold<H: Wait + Drop>(alloc: Global, rt: H, rows: &[(&str, &str)]) -> Result<(), Fail> {
    let mut hold = hold_of(alloc, rt, sample_tree(alloc)?)?;
    expect_told(alloc, &mut hold, rows, 0)
}

#[test]
fn rows_through_a_hold(rt: HostRuntime) -> Result<(), Fail> {
    for rows in groups() {
        tell_hold(rt.alloc(), rt, rows)?;
    }
    Ok(())
}

/// Checks that adding a file there, or a folder if there are no bytes, is refused like this.
fn expect_refused(
    alloc: Global,
    tree: &mut MemTree,
    path: &str,
    bytes: Option<&[u8]>,
    errno: i32,
) -> Result<(), Fail> {
    let place = path_of(alloc, path)?;
    let put = match bytes {
        Some(bytes) => tree.put_file(&place, bytes),
        None => tree.put_dir(&place),
    };
    if put == Err(errno) {
        return Ok(());
    }
    Err(Fail::from((path, put)))
}

fn put_all(alloc: Global, tree: &mut MemTree, long: &[u8]) -> Result<(), Fail> {
    expect_refused(alloc, tree, "big", Some(long), 27)?;
    expect_refused(alloc, tree, "a", Some(b"x"), 17)?;
    expect_refused(alloc, tree, "a/b", Some(b"x"), 20)?;
    expect_refused(alloc, tree, "zz/b", None, 2)?;
    expect_refused(alloc, tree, ".", None, 17)
}

#[test]
fn a_file_is_put_as_calls_would(rt: HostRuntime) -> Result<(), Fail> {
    let alloc = rt.alloc();
    let mut tree = sample_tree(alloc)?;
    let long = vec![in alloc; 7u8; 1_048_577]?;
    put_all(alloc, &mut tree, long.as_slice())?;
    let rows: &[(&str, &str)] = &[("stat big", "file 0"), ("read a 0 9", "bytes 616263")];
    expect_rows(alloc, &mut tree, rows)
}

/// The third call of the tree fails, which the second handle makes.
fn see_both<A: Asked>(alloc: Global, one: &mut A, two: &mut A) -> Result<(), Fail> {
    expect_rows(alloc, one, &[("mkdir m", "done")])?;
    expect_told(
        alloc,
        two,
        &[("stat m", "folder 0"), ("stat m", "fault 5")],
        1,
    )?;
    expect_count(one.failed(), 0)
}

#[test]
fn two_holds_see_one_tree(rt: HostRuntime) -> Result<(), Fail> {
    let alloc = rt.alloc();
    let mut tree = sample_tree(alloc)?;
    tree.fail_at(3, PlannedFault::Before(5))?;
    let tree = Arc::new(alloc, Mutex::new(tree))?;
    let mut one = Shared::new(rt, Arc::try_clone(&tree)?);
    let mut two = Shared::new(rt, tree);
    see_both(alloc, &mut one, &mut two)
}
