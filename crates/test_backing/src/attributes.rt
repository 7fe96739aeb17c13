//! The details of a file or a folder, and the calls that set them.

use crate::rows::{tell_folder, tell_hold, tell_tree};
use crate::sample_trees::sample_folder;
use crate::telling::{Item, Step, tell};
use std::fs;
use std::test::Fail;

/// What each directory answers. The calls that set details do not change names, kinds and bytes.
const ALIKE: &[(&str, &str)] = &[
    ("make f 600", "done"),
    ("make f 600", "fault 17"),
    ("mkdir p 700", "done"),
    ("mkdir p 700", "fault 17"),
    ("make p/g 640", "done"),
    ("make zz/g 640", "fault 2"),
    ("mkdir a/g 640", "fault 20"),
    ("chmod a 600", "done"),
    ("chmod p/g 0", "done"),
    ("chmod d 700", "done"),
    ("chmod . 755", "done"),
    ("chmod zz 600", "fault 2"),
    ("chmod zz/x 600", "fault 2"),
    ("chmod a/x 600", "fault 20"),
    ("chown a - -", "done"),
    ("chown d - -", "done"),
    ("chown zz - -", "fault 2"),
    ("chown a/x - -", "fault 20"),
    ("utimes a 5.1 6.2", "done"),
    ("utimes d now now", "done"),
    ("utimes . - now", "done"),
    ("utimes e - -", "done"),
    ("utimes zz 5.1 6.2", "fault 2"),
    ("utimes a/x - -", "fault 20"),
    ("list .", "names a d/ e f p/"),
    ("stat a", "file 3"),
    ("read a 0 9", "bytes 616263"),
];

#[test]
fn details_are_set_alike(rt: HostRuntime) -> Result<(), Fail> {
    tell_tree(rt.alloc(), ALIKE)?;
    tell_hold(rt.alloc(), rt, ALIKE)?;
    let root = sample_folder(&rt, "alike")?;
    tell_folder(&rt, root.as_str(), ALIKE, 0)?;
    fs::remove_dir_all(&rt, root.as_str())?;
    Ok(())
}

#[test]
fn a_memory_tree_keeps_no_details(rt: HostRuntime) -> Result<(), Fail> {
    const ROWS: &[(&str, &str)] = &[
        ("mode a", "644"),
        ("mode d", "755"),
        ("chmod a 0", "done"),
        ("mode a", "644"),
        ("utimes a 5.1 6.2", "done"),
        ("utimes a 5.1000000000 -", "done"),
        ("times a", "0.0 0.0"),
        ("times d", "0.0 0.0"),
        ("mode zz", "fault 2"),
    ];
    tell_tree(rt.alloc(), ROWS)
}

#[test]
fn permissions_are_given_and_set(rt: HostRuntime) -> Result<(), Fail> {
    const STEPS: &[Step] = &[
        Step::Same("a"),
        Step::Same("d"),
        Step::Ask("make f 600", "done"),
        Step::Ask("mode f", "600"),
        Step::Ask("make g 666", "done"),
        Step::Ask("mode g", "666"),
        Step::Ask("make h 4711", "done"),
        Step::Ask("mode h", "4711"),
        Step::Ask("make r 444", "done"),
        Step::Ask("write r 0 x", "wrote 1"),
        Step::Ask("mode r", "444"),
        Step::Ask("make n", "done"),
        Step::Same("n"),
        Step::Ask("mkdir p 700", "done"),
        Step::Ask("mode p", "700"),
        Step::Ask("mkdir q 1777", "done"),
        Step::Ask("mode q", "1777"),
        Step::Ask("mkdir q/x 7777", "done"),
        Step::Ask("mode q/x", "7777"),
        Step::Ask("make p/g 170640", "done"),
        Step::Ask("mode p/g", "640"),
        Step::Both("chmod a 0", "done"),
        Step::Both("mode a", "0"),
        Step::Both("chmod a 170755", "done"),
        Step::Both("mode a", "755"),
        Step::Both("chmod d 0", "done"),
        Step::Both("mode d", "0"),
        Step::Both("chmod d 750", "done"),
        Step::Both("mode d", "750"),
        Step::Ask("chmod . 711", "done"),
        Step::Ask("mode .", "711"),
        Step::Same("d"),
        Step::Failed(0),
    ];
    tell(rt, "permissions", STEPS)
}

#[test]
fn owners_and_times_are_set(rt: HostRuntime) -> Result<(), Fail> {
    const STEPS: &[Step] = &[
        Step::Own("a"),
        Step::Own("d"),
        Step::Both("utimes a 5.1 6.2", "done"),
        Step::Both("times a", "5.1 6.2"),
        Step::Ask("utimes a - 7.3", "done"),
        Step::Both("times a", "5.1 7.3"),
        Step::Ask("utimes a 8.999999999 -", "done"),
        Step::Both("times a", "8.999999999 7.3"),
        Step::Ask("utimes a - -", "done"),
        Step::Both("times a", "8.999999999 7.3"),
        Step::Ask("utimes d 1700000000.123456789 0.0", "done"),
        Step::Both("times d", "1700000000.123456789 0.0"),
        Step::Ask("utimes . 1.2 3.4", "done"),
        Step::Ask("times .", "1.2 3.4"),
        Step::Same("a"),
        Step::Failed(0),
        Step::Ask("utimes a 5.1000000000 -", "fault 22"),
        Step::Ask("chown a 4294967295 -", "fault 22"),
        Step::Ask("chown a - 4294967295", "fault 22"),
        Step::Ask("times a", "8.999999999 7.3"),
        Step::Failed(3),
        // Five seconds before 1970.
        Step::Ask("utimes a - 18446744073709551611.5", "done"),
        Step::Both("times a", "8.999999999 18446744073709551611.5"),
        Step::Same("a"),
        Step::Failed(3),
    ];
    tell(rt, "times", STEPS)
}

/// If a file stays open for the next call on it, that call changes it through the open file: after a look at its name, that of
/// what stands there.
#[test]
fn a_file_that_is_kept_open_is_changed(rt: HostRuntime) -> Result<(), Fail> {
    const STEPS: &[Step] = &[
        Step::Ask("write a 0 x", "wrote 1"),
        Step::Ask("chmod a 640", "done"),
        Step::Ask("utimes a 5.1 6.2", "done"),
        Step::Own("a"),
        Step::Both("mode a", "640"),
        Step::Both("times a", "5.1 6.2"),
        Step::Put("b", Item::Moved("a")),
        Step::Put("a", Item::File("new")),
        Step::Ask("chmod a 620", "done"),
        Step::Both("mode b", "620"),
        Step::Same("a"),
        Step::Ask("chmod a 600", "done"),
        Step::Both("mode a", "600"),
        Step::Both("mode b", "620"),
        Step::Failed(0),
    ];
    tell(rt, "kept", STEPS)
}

#[test]
fn no_link_leads_to_what_is_set(rt: HostRuntime) -> Result<(), Fail> {
    const STEPS: &[Step] = &[
        Step::Put("link", Item::Link("a")),
        Step::Put("way", Item::Link("d")),
        Step::Put("d/in", Item::File("in")),
        Step::Ask("chmod a 640", "done"),
        Step::Ask("chmod d/in 640", "done"),
        Step::Ask("utimes a 5.1 6.2", "done"),
        Step::Ask("utimes d/in 5.1 6.2", "done"),
        Step::Ask("chmod link 777", "fault 2"),
        Step::Ask("chown link 0 0", "fault 2"),
        Step::Ask("utimes link 1.0 1.0", "fault 2"),
        Step::Ask("chmod way/in 777", "fault 2"),
        Step::Ask("chown way/in 0 0", "fault 2"),
        Step::Ask("utimes way/in 1.0 1.0", "fault 2"),
        Step::Ask("chmod way 777", "fault 2"),
        Step::Both("mode a", "640"),
        Step::Both("times a", "5.1 6.2"),
        Step::Both("mode d/in", "640"),
        Step::Both("times d/in", "5.1 6.2"),
        Step::Failed(0),
    ];
    tell(rt, "set-links", STEPS)
}
