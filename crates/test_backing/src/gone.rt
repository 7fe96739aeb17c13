//! A root that others take away while it is served, and folders that may not be read.

use crate::asked::expect_told;
use crate::opening::{Opened, open};
use crate::sample_trees::{place_of, sample_folder};
use crate::telling::{Item, Step, TRUSTED, tell};
use std::fs;
use std::test::Fail;

/// What is answered where the root is gone, whatever stands at its path now.
const GONE: &[(&str, &str)] = &[
    ("stat .", "folder 0"),
    ("list .", "fault 2"),
    ("stat a", "fault 2"),
    ("stat d", "fault 2"),
    ("stat d/f", "fault 2"),
    ("make new", "fault 2"),
    ("mkdir new", "fault 2"),
    ("make d/new", "fault 2"),
    ("remove e", "fault 2"),
    ("rmdir d", "fault 2"),
    ("rename e b", "fault 2"),
    ("read e 0 9", "fault 2"),
    ("write e 0 x", "fault 2"),
    ("stat only", "fault 2"),
    ("read only 0 9", "fault 2"),
];

/// Takes the root away, and then puts another folder at its path.
fn take_root_away(rt: &HostRuntime, root: &str, opened: &mut Opened) -> Result<(), Fail> {
    let place = place_of(rt.alloc(), root, "only")?;
    let used = [("read a 0 9", "bytes 616263"), ("list d", "names")];
    expect_told(rt.alloc(), opened, used.as_slice(), 0)?;
    fs::remove_dir_all(rt, root)?;
    opened.watch.pass(TRUSTED + 1);
    expect_told(rt.alloc(), opened, GONE, 3)?;
    fs::create_dir(rt, root)?;
    fs::write(rt, place.as_str(), "of another folder")?;
    opened.watch.pass(TRUSTED + 1);
    expect_told(rt.alloc(), opened, GONE, 6)
}

fn take_away_at(rt: &HostRuntime, root: &str) -> Result<(), Fail> {
    let mut opened = open(rt, root)?;
    take_root_away(rt, root, &mut opened)
}

/// Nothing is served in its place.
#[test]
fn a_root_that_was_removed_is_empty(rt: HostRuntime) -> Result<(), Fail> {
    let root = sample_folder(&rt, "gone")?;
    take_away_at(&rt, root.as_str())?;
    fs::remove_dir_all(&rt, root.as_str())?;
    Ok(())
}

/// What is answered where the root was moved, whatever stands at its path now.
const MOVED: &[(&str, &str)] = &[
    ("read a 0 9", "bytes 616263"),
    ("make d/f", "done"),
    ("rename a d/a", "done"),
    ("read d/a 0 9", "bytes 616263"),
    ("list .", "names d/ e"),
    ("stat only", "fault 2"),
];

/// Moves the root there, and puts another folder at its path.
fn move_root(rt: &HostRuntime, root: &str, away: &str, opened: &mut Opened) -> Result<(), Fail> {
    let place = place_of(rt.alloc(), root, "only")?;
    fs::rename(rt, root, away)?;
    fs::create_dir(rt, root)?;
    fs::write(rt, place.as_str(), "of another folder")?;
    expect_told(rt.alloc(), opened, MOVED, 0)
}

fn move_root_at(rt: &HostRuntime, root: &str, away: &str) -> Result<(), Fail> {
    let mut opened = open(rt, root)?;
    move_root(rt, root, away, &mut opened)
}

/// It is served on.
#[test]
fn a_root_that_was_moved_is_served(rt: HostRuntime) -> Result<(), Fail> {
    let root = sample_folder(&rt, "away")?;
    let away = format!(in rt.alloc(); "{}-moved", root.as_str())?;
    let _ = fs::remove_dir_all(&rt, away.as_str());
    move_root_at(&rt, root.as_str(), away.as_str())?;
    fs::remove_dir_all(&rt, root.as_str())?;
    fs::remove_dir_all(&rt, away.as_str())?;
    Ok(())
}

/// A folder that may be searched and not read is served by its names, and not listed. Root may read all.
#[test]
fn a_folder_that_may_not_be_read_is_served_by_its_names(rt: HostRuntime) -> Result<(), Fail> {
    const STEPS: &[Step] = &[
        Step::Put("d/f", Item::File("one")),
        Step::Put("d/x", Item::Folder),
        Step::Put("d", Item::Bits(0o311)),
        Step::Ask("stat d", "folder 0"),
        Step::Ask("mode d", "311"),
        Step::Rights("list d", "names f x/", "fault 13"),
        Step::Ask("stat d/f", "file 3"),
        Step::Ask("read d/f 0 9", "bytes 6f6e65"),
        Step::Ask("make d/g", "done"),
        Step::Ask("rename a d/a", "done"),
        Step::Ask("stat a", "fault 2"),
        // It is moved, and another folder gets its name.
        Step::Ask("rename d m", "done"),
        Step::Ask("stat m/f", "file 3"),
        Step::Ask("mkdir d", "done"),
        Step::Ask("make m/h", "done"),
        Step::Both("list d", "names"),
        Step::Ask("remove m/h", "done"),
        Step::Ask("rmdir d", "done"),
        Step::Ask("rename m d", "done"),
        Step::Rights("utimes d 5.1 6.2", "done", "fault 13"),
        Step::Rights("sync d", "done", "fault 13"),
        Step::Ask("chmod d 755", "done"),
        Step::Ask("utimes d 5.1 6.2", "done"),
        Step::Ask("sync d", "done"),
        Step::Ask("stat d/f", "file 3"),
        Step::Ask("read d/f 0 9", "bytes 6f6e65"),
        Step::Ask("list d", "names a f g x/"),
    ];
    tell(rt, "unread", STEPS)
}

/// One that is open stays so, and the system asks for the right to search it at each call.
#[test]
fn a_folder_that_is_open_is_used_by_its_rights(rt: HostRuntime) -> Result<(), Fail> {
    const STEPS: &[Step] = &[
        Step::Put("d/f", Item::File("one")),
        Step::Ask("stat d/f", "file 3"),
        Step::Put("d", Item::Bits(0o311)),
        Step::Ask("stat d/f", "file 3"),
        Step::Later,
        Step::Ask("read d/f 0 9", "bytes 6f6e65"),
        Step::Ask("list d", "names f"),
        Step::Put("d", Item::Bits(0o600)),
        // What the list saw is told no longer.
        Step::Later,
        Step::Ask("read d/f 0 9", "bytes 6f6e65"),
        Step::Rights("stat d/f", "file 3", "fault 13"),
        // The look has not shown what is kept open.
        Step::Rights("read d/f 0 9", "bytes 6f6e65", "fault 13"),
        Step::Put("d", Item::Bits(0o700)),
        Step::Ask("read d/f 0 9", "bytes 6f6e65"),
        Step::Ask("stat d/f", "file 3"),
    ];
    tell(rt, "searched", STEPS)
}
