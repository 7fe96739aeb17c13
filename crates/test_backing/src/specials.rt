//! What is neither a folder, a file nor a link. No call makes it, so it is put there.

use crate::asked::{expect_rows, expect_told};
use crate::asking::path_of;
use crate::memory::folder_of;
use crate::opening::CAPACITY;
use crate::rows::hold_of;
use crate::sample_trees::{sample_disk, sample_tree};
use backing::MemTree;
use disk::{Content, MemoryDisk};
use payload::Special;
use std::alloc::Global;
use std::test::Fail;

/// What is put beside the sample.
const PUT: [(&str, Special); 4] = [
    ("p", Special::Pipe),
    ("s", Special::Socket),
    ("c", Special::Character(259)),
    ("b", Special::Block(2049)),
];

/// What every directory answers then.
const ROWS: &[(&str, &str)] = &[
    ("list .", "names a b# c# d/ e p| s="),
    ("stat p", "pipe 0"),
    ("stat s", "socket 0"),
    ("stat c", "character 259 0"),
    ("stat b", "block 2049 0"),
    ("mode p", "644"),
    ("read p 0 9", "fault 22"),
    ("write p 0 x", "fault 22"),
    ("setlen p 0", "fault 22"),
    ("readlink p", "fault 22"),
    ("list p", "fault 20"),
    ("rmdir p", "fault 20"),
    ("stat p/x", "fault 20"),
    ("make p/x", "fault 20"),
    ("readlink p/x", "fault 20"),
    ("make p", "fault 17"),
    ("mkdir p", "fault 17"),
    ("link p x", "fault 17"),
    ("read s 0 9", "fault 22"),
    ("write c 0 x", "fault 22"),
    ("read b 0 9", "fault 22"),
    ("chown p - -", "done"),
    ("rename p d", "fault 21"),
    ("rename d p", "fault 20"),
    ("rename-new p s", "fault 17"),
    ("rename p d/q", "done"),
    ("stat p", "fault 2"),
    ("stat d/q", "pipe 0"),
    ("rmdir d", "fault 39"),
    ("rename d/q s", "done"),
    ("stat s", "pipe 0"),
    ("rename a c", "done"),
    ("read c 0 9", "bytes 616263"),
    ("link l b", "done"),
    ("rename l s", "done"),
    ("readlink s", "bytes 62"),
    ("rename b s", "done"),
    ("stat s", "block 2049 0"),
    ("remove s", "done"),
    ("remove s", "fault 2"),
    ("list .", "names c d/ e"),
];

/// The sample and the others in a memory tree.
fn tree_of_all(alloc: Global) -> Result<MemTree, Fail> {
    let mut tree = sample_tree(alloc)?;
    for (name, special) in PUT {
        match tree.put_special(&path_of(alloc, name)?, special) {
            Ok(()) => {}
            Err(errno) => return Err(Fail::from((name, errno))),
        }
    }
    Ok(tree)
}

/// The same on a disk in memory.
fn disk_of_all(alloc: Global) -> Result<MemoryDisk, Fail> {
    let mut disk = sample_disk(alloc)?;
    for (name, special) in PUT {
        disk.put(&path_of(alloc, name)?, Content::Special(special))?;
    }
    Ok(disk)
}

#[test]
fn specials_in_a_memory_tree(rt: HostRuntime) -> Result<(), Fail> {
    let alloc = rt.alloc();
    let mut tree = tree_of_all(alloc)?;
    expect_told(alloc, &mut tree, ROWS, 0)
}

#[test]
fn specials_through_a_hold(rt: HostRuntime) -> Result<(), Fail> {
    let mut hold = hold_of(rt.alloc(), rt, tree_of_all(rt.alloc())?)?;
    expect_told(rt.alloc(), &mut hold, ROWS, 0)
}

#[test]
fn specials_on_a_disk_in_memory(rt: HostRuntime) -> Result<(), Fail> {
    let mut folder = folder_of(&rt, disk_of_all(rt.alloc())?, CAPACITY)?;
    expect_told(rt.alloc(), &mut folder, ROWS, 0)
}

/// Where one cannot be put, and the error number.
const NOT_PUT: [(&str, i32); 5] = [(".", 17), ("a", 17), ("d", 17), ("a/x", 20), ("zz/x", 2)];

/// Checks that a pipe is refused there like this.
fn expect_refused(alloc: Global, tree: &mut MemTree, path: &str, errno: i32) -> Result<(), Fail> {
    let put = tree.put_special(&path_of(alloc, path)?, Special::Pipe);
    if put == Err(errno) {
        return Ok(());
    }
    Err(Fail::from((path, put)))
}

#[test]
fn a_special_file_is_put_as_a_folder_would_be_made(rt: HostRuntime) -> Result<(), Fail> {
    let alloc = rt.alloc();
    let mut tree = sample_tree(alloc)?;
    for (path, errno) in NOT_PUT {
        expect_refused(alloc, &mut tree, path, errno)?;
    }
    let rows: &[(&str, &str)] = &[("list .", "names a d/ e"), ("list d", "names")];
    expect_rows(alloc, &mut tree, rows)
}
