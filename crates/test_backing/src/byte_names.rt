//! Names that are no UTF-8, over a tree in memory and over folders that show them.

use crate::asked::expect_rows;
use crate::memory::folder_of;
use crate::rows::tell_tree;
use crate::sample_trees::sample_disk;
use crate::telling::{Step, tell_all};
use std::test::Fail;

/// Names that differ in one byte are two, and a listing is in the order of their bytes.
const ROWS: &[(&str, &str)] = &[
    ("make x:ff61", "done"),
    ("make x:ff61", "fault 17"),
    ("stat x:ff62", "fault 2"),
    ("mkdir x:c3", "done"),
    ("make x:c3/x:80", "done"),
    ("write x:c3/x:80 0 abc", "wrote 3"),
    ("rename x:c3/x:80 x:ffff", "done"),
    ("read x:ffff 0 9", "bytes 616263"),
    ("stat x:c3/x:80", "fault 2"),
    ("rename d x:fe", "done"),
    ("stat x:fe", "folder 0"),
    ("rename x:ffff d", "done"),
    ("read d 0 9", "bytes 616263"),
    ("rename x:c3 x:fe", "done"),
    ("list .", "names a d e x:fe/ x:ff61"),
    ("remove x:ff61", "done"),
    ("rmdir x:fe", "done"),
    ("list .", "names a d e"),
];

#[test]
fn memory_trees_have_names_of_any_bytes(rt: HostRuntime) -> Result<(), Fail> {
    tell_tree(rt.alloc(), ROWS)?;
    let mut folder = folder_of(&rt, sample_disk(rt.alloc())?, 64)?;
    expect_rows(rt.alloc(), &mut folder, ROWS)
}

/// A real folder, and one that was just opened.
#[test]
fn a_real_folder_has_names_of_any_bytes(rt: HostRuntime) -> Result<(), Fail> {
    const STEPS: &[Step] = &[
        Step::Both("stat x:ff61", "fault 2"),
        Step::Ask("make x:ff61", "done"),
        Step::Both("stat x:ff61", "file 0"),
        Step::Both("stat x:ff62", "fault 2"),
        Step::Ask("mkdir x:c3", "done"),
        Step::Ask("make x:c3/x:80", "done"),
        Step::Ask("write x:c3/x:80 0 abc", "wrote 3"),
        Step::Both("list x:c3", "names x:80"),
        Step::Ask("rename x:c3/x:80 x:ffff", "done"),
        Step::Both("read x:ffff 0 9", "bytes 616263"),
        Step::Ask("name x:ffff x:c3/x:fe", "done"),
        Step::Both("names x:c3/x:fe", "2"),
        Step::Ask("link-hex x:fd ff2f", "done"),
        Step::Both("readlink x:fd", "bytes ff2f"),
        Step::Both("list .", "names a d/ e x:c3/ x:fd@ x:ff61 x:ffff"),
        Step::Root("chown x:ff61 1000 100", "done"),
        Step::Root("owner x:ff61", "1000 100"),
        Step::Ask("remove x:c3/x:fe", "done"),
        Step::Ask("remove x:ffff", "done"),
        Step::Ask("rmdir x:c3", "done"),
        Step::Failed(0),
    ];
    tell_all(rt, "byte-names", STEPS)
}
