//! Rows for links, on directories that show all kinds. No call follows one.

use crate::asked::expect_told;
use crate::memory::folder_of;
use crate::opening::{CAPACITY, Opened, open_of};
use crate::rows::{tell_hold, tell_tree};
use crate::sample_trees::{sample_disk, sample_folder};
use std::alloc::Global;
use std::fs;
use std::test::Fail;
use terms::Kinds;

/// What every directory answers. Each group starts from the sample.
const GROUPS: [&[(&str, &str)]; 7] = [
    // What a link is, whatever it leads to, and its text.
    &[
        ("link l a", "done"),
        ("link w d", "done"),
        ("link n no/where", "done"),
        ("link d/l ../a", "done"),
        ("link self self", "done"),
        ("link root /", "done"),
        ("stat l", "link 1"),
        ("stat n", "link 8"),
        ("stat self", "link 4"),
        ("stat d/l", "link 4"),
        ("mode l", "777"),
        ("readlink l", "bytes 61"),
        ("readlink w", "bytes 64"),
        ("readlink n", "bytes 6e6f2f7768657265"),
        ("readlink d/l", "bytes 2e2e2f61"),
        ("readlink root", "bytes 2f"),
        ("list .", "names a d/ e l@ n@ root@ self@ w@"),
        ("list d", "names l@"),
        ("stat a", "file 3"),
    ],
    // Texts that are no UTF-8, and the longest one.
    &[
        ("link-hex h fffe80c32f0a", "done"),
        ("stat h", "link 6"),
        ("readlink h", "bytes fffe80c32f0a"),
        ("link-fill f 4095", "done"),
        ("stat f", "link 4095"),
        ("link-check f", "4095 of 4095"),
        ("link-fill d/f 1", "done"),
        ("link-check d/f", "1 of 1"),
        ("list .", "names a d/ e f@ h@"),
    ],
    // What is no link has no text.
    &[
        ("link l a", "done"),
        ("link w d", "done"),
        ("readlink a", "fault 22"),
        ("readlink d", "fault 22"),
        ("readlink .", "fault 22"),
        ("readlink zz", "fault 2"),
        ("readlink d/zz", "fault 2"),
        ("readlink zz/x", "fault 2"),
        ("readlink a/x", "fault 20"),
        ("readlink l/x", "fault 20"),
        ("readlink w/x", "fault 20"),
    ],
    // A link is made where nothing stands.
    &[
        ("link l a", "done"),
        ("link n zz", "done"),
        ("link a x", "fault 17"),
        ("link d x", "fault 17"),
        ("link l x", "fault 17"),
        ("link n x", "fault 17"),
        ("link . x", "fault 17"),
        ("link zz/l x", "fault 2"),
        ("link a/l x", "fault 20"),
        ("link l/l x", "fault 20"),
        ("make l", "fault 17"),
        ("make n", "fault 17"),
        ("mkdir n", "fault 17"),
        ("readlink l", "bytes 61"),
        ("readlink n", "bytes 7a7a"),
        ("stat zz", "fault 2"),
        ("read a 0 9", "bytes 616263"),
        ("list .", "names a d/ e l@ n@"),
    ],
    // It is neither a file nor a folder: one that leads to a file, to a folder, and to nothing.
    &[
        ("link l a", "done"),
        ("link w d", "done"),
        ("link n zz", "done"),
        ("make d/x", "done"),
        ("read l 0 9", "fault 22"),
        ("write l 0 x", "fault 22"),
        ("write l 0 ", "fault 22"),
        ("setlen l 0", "fault 22"),
        ("list l", "fault 20"),
        ("rmdir l", "fault 20"),
        ("read w 0 9", "fault 22"),
        ("write w 0 x", "fault 22"),
        ("setlen w 0", "fault 22"),
        ("list w", "fault 20"),
        ("rmdir w", "fault 20"),
        ("read n 0 9", "fault 22"),
        ("write n 0 x", "fault 22"),
        ("setlen n 0", "fault 22"),
        ("list n", "fault 20"),
        ("rmdir n", "fault 20"),
        ("stat w/x", "fault 20"),
        ("read w/x 0 9", "fault 20"),
        ("write w/x 0 x", "fault 20"),
        ("setlen w/x 9", "fault 20"),
        ("make w/y", "fault 20"),
        ("mkdir w/y", "fault 20"),
        ("remove w/x", "fault 20"),
        ("rmdir w/x", "fault 20"),
        ("sync w/x", "fault 20"),
        ("chmod w/x 600", "fault 20"),
        ("chown w/x - -", "fault 20"),
        ("utimes w/x 5.1 6.2", "fault 20"),
        ("rename w/x b", "fault 20"),
        ("rename a w/x", "fault 20"),
        ("rename-new a w/y", "fault 20"),
        ("stat n/x", "fault 20"),
        ("make n/x", "fault 20"),
        ("chown l - -", "done"),
        ("list d", "names x"),
        ("stat d/x", "file 0"),
        ("read a 0 9", "bytes 616263"),
        ("stat zz", "fault 2"),
    ],
    // What it leads to is not removed with it, and a folder that holds one is not empty.
    &[
        ("link l a", "done"),
        ("link w d", "done"),
        ("link d/l ../a", "done"),
        ("remove l", "done"),
        ("stat l", "fault 2"),
        ("read a 0 9", "bytes 616263"),
        ("remove w", "done"),
        ("list .", "names a d/ e"),
        ("rmdir d", "fault 39"),
        ("mkdir q", "done"),
        ("rename q d", "fault 39"),
        ("list d", "names l@"),
        ("remove d/l", "done"),
        ("remove d/l", "fault 2"),
        ("rmdir d", "done"),
        ("read a 0 9", "bytes 616263"),
    ],
    // It moves as a file does, with its text.
    &[
        ("link l a", "done"),
        ("rename l e", "done"),
        ("stat l", "fault 2"),
        ("readlink e", "bytes 61"),
        ("read a 0 9", "bytes 616263"),
        ("link l a", "done"),
        ("rename e d", "fault 21"),
        ("rename d e", "fault 20"),
        ("rename e e", "done"),
        ("rename e e/x", "fault 22"),
        ("rename-new e l", "fault 17"),
        ("rename-new e a", "fault 17"),
        ("rename e d/far", "done"),
        ("readlink d/far", "bytes 61"),
        ("list .", "names a d/ l@"),
        ("rename-new d/far d/near", "done"),
        ("link m other", "done"),
        ("rename m d/near", "done"),
        ("readlink d/near", "bytes 6f74686572"),
        ("rename a l", "done"),
        ("stat a", "fault 2"),
        ("read l 0 9", "bytes 616263"),
        ("readlink l", "fault 22"),
        ("rename d q", "done"),
        ("readlink q/near", "bytes 6f74686572"),
        ("list q", "names near@"),
    ],
];

/// They are handed out by one function, since each one that names the rows is checked for all of them.
fn groups() -> [&'static [(&'static str, &'static str)]; 7] {
    GROUPS
}

#[test]
fn links_on_a_memory_tree(rt: HostRuntime) -> Result<(), Fail> {
    for rows in groups() {
        tell_tree(rt.alloc(), rows)?;
    }
    Ok(())
}

#[test]
fn links_through_a_hold(rt: HostRuntime) -> Result<(), Fail> {
    for rows in groups() {
        tell_hold(rt.alloc(), rt, rows)?;
    }
    Ok(())
}

/// The rows on a folder of a disk in memory, starting from the sample.
fn tell_disk(rt: &HostRuntime, rows: &[(&str, &str)], failures: u64) -> Result<(), Fail> {
    let mut folder = folder_of(rt, sample_disk(rt.alloc())?, CAPACITY)?;
    expect_told(rt.alloc(), &mut folder, rows, failures)
}

#[test]
fn links_on_a_disk_in_memory(rt: HostRuntime) -> Result<(), Fail> {
    for rows in groups() {
        tell_disk(&rt, rows, 0)?;
    }
    Ok(())
}

fn tell_at(rt: &HostRuntime, root: &str, rows: &[(&str, &str)], failures: u64) -> Result<(), Fail> {
    let mut opened = open_of(rt, root, CAPACITY, Kinds::All)?;
    expect_told(rt.alloc(), &mut opened, rows, failures)
}

/// The rows on a real folder that shows all kinds, starting from the sample.
fn tell_real(rt: &HostRuntime, rows: &[(&str, &str)], failures: u64) -> Result<(), Fail> {
    let root = sample_folder(rt, "all-kinds")?;
    tell_at(rt, root.as_str(), rows, failures)?;
    fs::remove_dir_all(rt, root.as_str())?;
    Ok(())
}

#[test]
fn links_on_a_real_folder(rt: HostRuntime) -> Result<(), Fail> {
    for rows in groups() {
        tell_real(&rt, rows, 0)?;
    }
    Ok(())
}

/// A memory tree takes any text, and keeps no details.
const IN_A_TREE: &[(&str, &str)] = &[
    ("link l ", "done"),
    ("link-fill f 4096", "done"),
    ("link-hex h 610062", "done"),
    ("link-check f", "4096 of 4096"),
    ("readlink h", "bytes 610062"),
    ("chmod l 600", "done"),
    ("utimes l 5.1 6.2", "done"),
    ("sync l", "done"),
    ("mode l", "777"),
];

/// A folder makes no link that no system has, and brings none to the disk.
const IN_A_FOLDER: &[(&str, &str)] = &[
    ("link x ", "fault 22"),
    ("link-fill x 4096", "fault 22"),
    ("link-hex x 00", "fault 22"),
    ("link-hex x 610062", "fault 22"),
    ("stat x", "fault 2"),
    ("link l a", "done"),
    ("link n zz", "done"),
    ("sync l", "fault 22"),
    ("sync n", "fault 22"),
    ("list .", "names a d/ e l@ n@"),
];

#[test]
fn odd_texts_of_links(rt: HostRuntime) -> Result<(), Fail> {
    tell_tree(rt.alloc(), IN_A_TREE)?;
    tell_hold(rt.alloc(), rt, IN_A_TREE)?;
    tell_disk(&rt, IN_A_FOLDER, 6)?;
    tell_real(&rt, IN_A_FOLDER, 6)
}
