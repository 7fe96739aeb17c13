//! What a real folder tells by a STAT while others change it. Each path is asked for twice first: the second time its folder is open.

use crate::asked::{Asked, expect_count};
use crate::opening::{Opened, open};
use crate::sample_trees::sample_folder;
use crate::telling::{Item, Step, tell};
use std::alloc::Global;
use std::fs;
use std::test::Fail;

#[test]
fn a_file_that_was_seen_is_told_as_it_is_now(rt: HostRuntime) -> Result<(), Fail> {
    const STEPS: &[Step] = &[
        Step::Put("d/f", Item::File("one")),
        Step::Both("stat d/f", "file 3"),
        Step::Both("stat d/f", "file 3"),
        Step::Put("d/f", Item::File("longer")),
        Step::Both("stat d/f", "file 6"),
        Step::Ask("chmod d/f 640", "done"),
        Step::Same("d/f"),
        Step::Ask("write d/f 6 er", "wrote 2"),
        Step::Both("stat d/f", "file 8"),
        Step::Same("d/f"),
        Step::Failed(0),
    ];
    tell(rt, "seen-now", STEPS)
}

#[test]
fn what_stands_in_the_place_of_a_seen_file_is_told(rt: HostRuntime) -> Result<(), Fail> {
    const STEPS: &[Step] = &[
        Step::Put("d/f", Item::File("one")),
        Step::Both("stat d/f", "file 3"),
        Step::Both("stat d/f", "file 3"),
        Step::Put("old", Item::Moved("d/f")),
        Step::Put("d/f", Item::File("four")),
        Step::Both("stat d/f", "file 4"),
        Step::Same("d/f"),
        Step::Put("older", Item::Moved("d/f")),
        Step::Put("d/f", Item::Folder),
        Step::Both("stat d/f", "folder 0"),
        Step::Same("d/f"),
        Step::Put("f", Item::Moved("d/f")),
        Step::Put("d/f", Item::Link("../f")),
        Step::Both("stat d/f", "fault 2"),
        Step::Put("d/f", Item::Nothing),
        Step::Both("stat d/f", "fault 2"),
        Step::Put("d/f", Item::Moved("old")),
        Step::Both("stat d/f", "file 3"),
        Step::Same("d/f"),
        Step::Failed(0),
    ];
    tell(rt, "seen-replaced", STEPS)
}

#[test]
fn a_link_in_the_place_of_a_seen_file_is_not_followed(rt: HostRuntime) -> Result<(), Fail> {
    const STEPS: &[Step] = &[
        Step::Put("d/f", Item::File("one")),
        Step::Both("stat d/f", "file 3"),
        Step::Both("stat d/f", "file 3"),
        Step::Put("f", Item::Moved("d/f")),
        Step::Put("d/f", Item::Link("../f")),
        Step::Both("stat d/f", "fault 2"),
        Step::Both("stat f", "file 3"),
        Step::Failed(0),
    ];
    tell(rt, "seen-link", STEPS)
}

#[test]
fn what_stands_in_another_folder_s_place_is_told(rt: HostRuntime) -> Result<(), Fail> {
    const STEPS: &[Step] = &[
        Step::Put("d/x", Item::Folder),
        Step::Put("d/x/f", Item::File("one")),
        Step::Put("d/x/g", Item::File("g")),
        Step::Both("stat d/x", "folder 0"),
        Step::Both("stat d/x", "folder 0"),
        Step::Both("stat d/x/f", "file 3"),
        Step::Both("stat d/x/f", "file 3"),
        Step::Both("stat d/x/g", "file 1"),
        Step::Both("stat d/x/g", "file 1"),
        Step::Put("away", Item::Moved("d/x")),
        Step::Ask("stat d/x/f", "file 3"),
        Step::Later,
        Step::Both("stat d/x/f", "fault 2"),
        Step::Put("d/x", Item::Folder),
        Step::Put("d/x/f", Item::File("four")),
        Step::Both("stat d/x/f", "file 4"),
        Step::Same("d/x/f"),
        Step::Both("stat d/x/g", "fault 2"),
        Step::Both("stat d/x", "folder 0"),
        Step::Same("d/x"),
        Step::Both("stat away/f", "file 3"),
        Step::Failed(0),
    ];
    tell(rt, "seen-folder", STEPS)
}

#[test]
fn a_link_to_another_folder_is_not_followed_to_a_seen_name(rt: HostRuntime) -> Result<(), Fail> {
    const STEPS: &[Step] = &[
        Step::Put("d/x", Item::Folder),
        Step::Put("d/x/f", Item::File("one")),
        Step::Put("other", Item::Folder),
        Step::Put("other/f", Item::File("two")),
        Step::Put("other/x", Item::Folder),
        Step::Put("other/x/f", Item::File("two")),
        Step::Both("stat d/x/f", "file 3"),
        Step::Both("stat d/x/f", "file 3"),
        Step::Put("away", Item::Moved("d/x")),
        Step::Put("d/x", Item::Link("../other")),
        Step::Later,
        Step::Both("stat d/x/f", "fault 2"),
        Step::Both("stat d/x", "fault 2"),
        Step::Put("d/x", Item::Nothing),
        Step::Put("d/x", Item::Moved("away")),
        Step::Both("stat d/x/f", "file 3"),
        Step::Both("stat d/x/f", "file 3"),
        Step::Put("away", Item::Moved("d")),
        Step::Put("d", Item::Link("other")),
        Step::Later,
        Step::Both("stat d/x/f", "fault 2"),
        Step::Both("stat d/x", "fault 2"),
        Step::Failed(0),
    ];
    tell(rt, "seen-links", STEPS)
}

// Not even to the same file, once a second has passed.
#[test]
fn a_seen_file_is_not_told_through_a_link_to_its_folder(rt: HostRuntime) -> Result<(), Fail> {
    const STEPS: &[Step] = &[
        Step::Put("d/x", Item::Folder),
        Step::Put("d/x/f", Item::File("one")),
        Step::Put("d/x/g", Item::File("g")),
        Step::Both("stat d/x/f", "file 3"),
        Step::Put("away", Item::Moved("d/x")),
        Step::Put("d/x", Item::Link("../away")),
        Step::Ask("stat d/x/f", "file 3"),
        Step::Ask("stat d/x/g", "file 1"),
        Step::Later,
        Step::Ask("stat d/x/f", "fault 2"),
        Step::Ask("stat d/x/g", "fault 2"),
        Step::Ask("stat d/x", "fault 2"),
        Step::Ask("read d/x/f 0 9", "fault 2"),
        Step::Ask("write d/x/f 0 x", "fault 2"),
        Step::Ask("chmod d/x/f 600", "fault 2"),
        Step::Ask("rename d/x/f d/x/g", "fault 2"),
        Step::Ask("rename-new d/x/f d/x/h", "fault 2"),
        Step::Ask("remove d/x/f", "fault 2"),
        Step::Failed(0),
    ];
    tell(rt, "seen-through", STEPS)
}

#[test]
fn names_in_a_seen_folder_that_was_replaced_are_found_anew(rt: HostRuntime) -> Result<(), Fail> {
    const STEPS: &[Step] = &[
        Step::Put("d/x", Item::Folder),
        Step::Put("d/x/y", Item::Folder),
        Step::Both("stat d/x/y", "folder 0"),
        Step::Put("away", Item::Moved("d/x")),
        Step::Put("d/x", Item::Folder),
        Step::Put("d/x/y", Item::Folder),
        Step::Put("d/x/y/f", Item::File("two")),
        Step::Later,
        Step::Both("stat d/x/y/f", "file 3"),
        Step::Both("stat d/x/y", "folder 0"),
        Step::Put("gone", Item::Moved("d/x")),
        Step::Put("d/x", Item::Link("../away")),
        Step::Put("away/y/h", Item::File("h")),
        Step::Later,
        Step::Both("stat d/x/y/h", "fault 2"),
        Step::Both("list d/x/y", "fault 2"),
        Step::Failed(0),
    ];
    tell(rt, "seen-replaced-folder", STEPS)
}

#[test]
fn what_its_own_calls_change_is_told(rt: HostRuntime) -> Result<(), Fail> {
    const STEPS: &[Step] = &[
        Step::Ask("make d/f", "done"),
        Step::Ask("make d/g", "done"),
        Step::Ask("write d/g 0 two", "wrote 3"),
        Step::Both("stat d/f", "file 0"),
        Step::Both("stat d/f", "file 0"),
        Step::Both("stat d/g", "file 3"),
        Step::Both("stat d/g", "file 3"),
        Step::Ask("rename d/g d/f", "done"),
        Step::Both("stat d/f", "file 3"),
        Step::Both("stat d/g", "fault 2"),
        Step::Ask("remove d/f", "done"),
        Step::Both("stat d/f", "fault 2"),
        Step::Ask("make d/f", "done"),
        Step::Both("stat d/f", "file 0"),
        Step::Ask("remove d/f", "done"),
        Step::Ask("mkdir d/f", "done"),
        Step::Both("stat d/f", "folder 0"),
        Step::Same("d/f"),
        Step::Both("stat d/f", "folder 0"),
        Step::Ask("rename d e", "fault 20"),
        Step::Ask("rename d z", "done"),
        Step::Both("stat d/f", "fault 2"),
        Step::Both("stat z/f", "folder 0"),
        Step::Failed(0),
    ];
    tell(rt, "seen-own", STEPS)
}

/// Makes a file with that many bytes, whose name is that number.
fn make_one(alloc: Global, opened: &mut Opened, n: u64) -> Result<(), Fail> {
    let made = format!(in alloc; "make d/{n}")?;
    opened.expect(alloc, made.as_str(), "done")?;
    let cut = format!(in alloc; "setlen d/{n} {n}")?;
    opened.expect(alloc, cut.as_str(), "done")
}

/// Checks that the file with that name has that length.
fn check_one(alloc: Global, opened: &mut Opened, n: u64, length: u64) -> Result<(), Fail> {
    let words = format!(in alloc; "stat d/{n}")?;
    let wanted = format!(in alloc; "file {length}")?;
    opened.expect(alloc, words.as_str(), wanted.as_str())
}

/// Moves the file with the one name over the one with the other.
fn move_one(alloc: Global, opened: &mut Opened, from: u64, to: u64) -> Result<(), Fail> {
    let words = format!(in alloc; "rename d/{from} d/{to}")?;
    opened.expect(alloc, words.as_str(), "done")
}

// More paths than are remembered.
fn ask_many(alloc: Global, opened: &mut Opened) -> Result<(), Fail> {
    for n in 1000..1800 {
        make_one(alloc, opened, n)?;
    }
    for n in 1000..1800 {
        check_one(alloc, opened, n, n)?;
    }
    for n in 1000..1800 {
        check_one(alloc, opened, 2799 - n, 2799 - n)?;
    }
    for n in 1000..1799 {
        move_one(alloc, opened, 2798 - n, 2799 - n)?;
    }
    opened.expect(alloc, "stat d/1000", "fault 2")?;
    for n in 1001..1800 {
        check_one(alloc, opened, n, n - 1)?;
    }
    expect_count(opened.failed(), 0)
}

fn ask_many_at(rt: HostRuntime, root: &str) -> Result<(), Fail> {
    let mut opened = open(&rt, root)?;
    ask_many(rt.alloc(), &mut opened)
}

#[test]
fn more_than_is_seen_is_told(rt: HostRuntime) -> Result<(), Fail> {
    let root = sample_folder(&rt, "seen-many")?;
    ask_many_at(rt, root.as_str())?;
    fs::remove_dir_all(&rt, root.as_str())?;
    Ok(())
}
