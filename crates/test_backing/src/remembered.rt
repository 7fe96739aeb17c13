//! What a real folder keeps open while others change it. A folder that was just opened keeps nothing but its root.

use crate::asked::{Asked, expect_count};
use crate::opening::{CAPACITY, Opened, open_with};
use crate::sample_trees::sample_folder;
use crate::telling::{Item, Step, tell};
use std::alloc::Global;
use std::fs;
use std::test::Fail;

#[test]
fn a_replaced_folder_is_opened_anew(rt: HostRuntime) -> Result<(), Fail> {
    const STEPS: &[Step] = &[
        Step::Put("d/x", Item::Folder),
        Step::Put("d/x/f", Item::File("one")),
        Step::Both("read d/x/f 0 9", "bytes 6f6e65"),
        Step::Put("d/y", Item::Moved("d/x")),
        Step::Put("d/x", Item::Folder),
        Step::Put("d/x/f", Item::File("two")),
        Step::Later,
        // A file that is kept open is used until a look shows another one.
        Step::Ask("read d/x/f 0 9", "bytes 6f6e65"),
        Step::Both("stat d/x/f", "file 3"),
        Step::Both("read d/x/f 0 9", "bytes 74776f"),
        Step::Put("d/x/g", Item::File("g")),
        Step::Both("stat d/x/g", "file 1"),
        Step::Both("stat d/y/g", "fault 2"),
        Step::Failed(0),
    ];
    tell(rt, "replaced-folder", STEPS)
}

#[test]
fn a_moved_folder_is_absent_where_it_was(rt: HostRuntime) -> Result<(), Fail> {
    const STEPS: &[Step] = &[
        Step::Put("d/x", Item::Folder),
        Step::Put("d/x/f", Item::File("one")),
        Step::Both("stat d/x/f", "file 3"),
        Step::Put("y", Item::Moved("d/x")),
        Step::Ask("stat d/x/f", "file 3"),
        Step::Later,
        Step::Both("stat d/x/f", "fault 2"),
        Step::Both("make d/x/g", "fault 2"),
        Step::Both("stat y/f", "file 3"),
        Step::Put("d/x", Item::Moved("y")),
        Step::Both("stat d/x/f", "file 3"),
        Step::Put("z", Item::Moved("d")),
        Step::Later,
        Step::Both("stat d/x/f", "fault 2"),
        Step::Both("stat z/x/f", "file 3"),
        Step::Put("d", Item::File("d")),
        Step::Both("stat d/x/f", "fault 20"),
        Step::Failed(0),
    ];
    tell(rt, "moved-folder", STEPS)
}

#[test]
fn a_link_in_the_way_is_not_followed(rt: HostRuntime) -> Result<(), Fail> {
    const STEPS: &[Step] = &[
        Step::Put("d/x", Item::Folder),
        Step::Put("d/x/f", Item::File("one")),
        Step::Put("other", Item::Folder),
        Step::Put("other/x", Item::Folder),
        Step::Put("other/x/f", Item::File("two")),
        Step::Both("stat d/x/f", "file 3"),
        Step::Put("away", Item::Moved("d")),
        Step::Put("d", Item::Link("other")),
        Step::Later,
        Step::Both("read d/x/f 0 9", "fault 2"),
        Step::Both("write d/x/f 0 x", "fault 2"),
        Step::Both("make d/x/g", "fault 2"),
        Step::Both("remove d/x/f", "fault 2"),
        Step::Both("read other/x/f 0 9", "bytes 74776f"),
        Step::Failed(0),
    ];
    tell(rt, "link-above", STEPS)
}

#[test]
fn a_link_in_a_folder_s_place_is_not_followed(rt: HostRuntime) -> Result<(), Fail> {
    const STEPS: &[Step] = &[
        Step::Put("d/x", Item::Folder),
        Step::Put("d/x/f", Item::File("one")),
        Step::Put("d/x/g", Item::File("g")),
        Step::Both("stat d/x/f", "file 3"),
        Step::Put("away", Item::Moved("d/x")),
        Step::Put("d/x", Item::Link("../away")),
        Step::Later,
        Step::Both("read d/x/f 0 9", "fault 2"),
        Step::Both("list d/x", "fault 2"),
        Step::Both("stat d/x/g", "fault 2"),
        Step::Failed(0),
    ];
    tell(rt, "link-there", STEPS)
}

#[test]
fn a_link_that_leads_to_the_very_folder_is_not_followed(rt: HostRuntime) -> Result<(), Fail> {
    const STEPS: &[Step] = &[
        Step::Put("d/x", Item::Folder),
        Step::Put("d/x/f", Item::File("one")),
        Step::Both("stat d/x/f", "file 3"),
        Step::Put("away", Item::Moved("d")),
        Step::Put("d", Item::Link("away")),
        Step::Ask("list d", "names x/"),
        Step::Later,
        Step::Both("stat d/x/f", "fault 2"),
        Step::Both("read d/x/f 0 9", "fault 2"),
        Step::Both("list d", "fault 2"),
        Step::Failed(0),
    ];
    tell(rt, "same-folder", STEPS)
}

#[test]
fn folders_that_its_own_calls_change_are_found_there(rt: HostRuntime) -> Result<(), Fail> {
    const STEPS: &[Step] = &[
        Step::Ask("mkdir d/x", "done"),
        Step::Ask("make d/x/f", "done"),
        Step::Ask("write d/x/f 0 one", "wrote 3"),
        Step::Ask("rename d z", "done"),
        Step::Both("stat d/x/f", "fault 2"),
        Step::Both("read z/x/f 0 9", "bytes 6f6e65"),
        Step::Ask("mkdir d", "done"),
        Step::Ask("mkdir d/x", "done"),
        Step::Both("stat d/x/f", "fault 2"),
        Step::Ask("make d/x/f", "done"),
        Step::Both("stat d/x/f", "file 0"),
        Step::Ask("remove d/x/f", "done"),
        Step::Ask("rmdir d/x", "done"),
        Step::Both("stat d/x/f", "fault 2"),
        Step::Ask("mkdir d/x", "done"),
        Step::Ask("make d/x/f", "done"),
        Step::Both("stat d/x/f", "file 0"),
    ];
    tell(rt, "own-changes", STEPS)
}

#[test]
fn folders_that_a_move_to_a_free_path_changes_are_found_there(rt: HostRuntime) -> Result<(), Fail> {
    const STEPS: &[Step] = &[
        Step::Ask("mkdir d/x", "done"),
        Step::Ask("make d/x/f", "done"),
        Step::Ask("write d/x/f 0 one", "wrote 3"),
        Step::Ask("rename-new d z", "done"),
        Step::Both("stat d/x/f", "fault 2"),
        Step::Both("read z/x/f 0 9", "bytes 6f6e65"),
        Step::Ask("rename-new z/x/f d", "done"),
        Step::Both("read d 0 9", "bytes 6f6e65"),
        Step::Both("stat z/x/f", "fault 2"),
        Step::Ask("write d 0 O", "wrote 1"),
        Step::Both("read d 0 9", "bytes 4f6e65"),
        Step::Failed(0),
    ];
    tell(rt, "own-moves", STEPS)
}

#[test]
fn a_replaced_file_is_opened_anew_after_a_look(rt: HostRuntime) -> Result<(), Fail> {
    const STEPS: &[Step] = &[
        Step::Both("read a 0 9", "bytes 616263"),
        Step::Ask("write a 0 A", "wrote 1"),
        Step::Put("old", Item::Moved("a")),
        Step::Put("a", Item::File("new")),
        Step::Ask("read a 0 9", "bytes 416263"),
        Step::Ask("write a 3 D", "wrote 1"),
        Step::Both("stat a", "file 3"),
        Step::Both("read a 0 9", "bytes 6e6577"),
        Step::Ask("write a 0 N", "wrote 1"),
        Step::Both("read a 0 9", "bytes 4e6577"),
        Step::Both("read old 0 9", "bytes 41626344"),
        Step::Ask("setlen a 1", "done"),
        Step::Both("read a 0 9", "bytes 4e"),
        Step::Both("read old 0 9", "bytes 41626344"),
        Step::Failed(0),
    ];
    tell(rt, "replaced-file", STEPS)
}

#[test]
fn a_file_that_became_absent_is_not_read_after_a_look(rt: HostRuntime) -> Result<(), Fail> {
    const STEPS: &[Step] = &[
        Step::Both("read a 0 9", "bytes 616263"),
        Step::Ask("write a 0 A", "wrote 1"),
        Step::Put("a", Item::Nothing),
        Step::Ask("read a 0 9", "bytes 416263"),
        Step::Both("stat a", "fault 2"),
        Step::Both("read a 0 9", "fault 2"),
        Step::Both("write a 0 x", "fault 2"),
        Step::Put("a", Item::Folder),
        Step::Both("read a 0 9", "fault 21"),
        Step::Put("b", Item::Moved("a")),
        Step::Put("a", Item::Link("e")),
        Step::Both("read a 0 9", "fault 2"),
        Step::Both("write a 0 x", "fault 2"),
        Step::Both("read e 0 9", "bytes "),
        Step::Failed(0),
    ];
    tell(rt, "absent-file", STEPS)
}

#[test]
fn a_file_that_was_removed_and_made_is_opened_anew(rt: HostRuntime) -> Result<(), Fail> {
    const STEPS: &[Step] = &[
        Step::Both("read a 0 9", "bytes 616263"),
        Step::Ask("write a 0 A", "wrote 1"),
        Step::Ask("remove a", "done"),
        Step::Both("read a 0 9", "fault 2"),
        Step::Ask("make a", "done"),
        Step::Both("read a 0 9", "bytes "),
        Step::Ask("write a 0 xyz", "wrote 3"),
        Step::Both("read a 0 9", "bytes 78797a"),
        Step::Failed(0),
    ];
    tell(rt, "remade-file", STEPS)
}

#[test]
fn a_file_that_is_renamed_over_is_opened_anew(rt: HostRuntime) -> Result<(), Fail> {
    const STEPS: &[Step] = &[
        Step::Ask("write e 0 eee", "wrote 3"),
        Step::Both("read e 0 9", "bytes 656565"),
        Step::Both("read a 0 9", "bytes 616263"),
        Step::Ask("rename a e", "done"),
        Step::Both("read e 0 9", "bytes 616263"),
        Step::Both("read a 0 9", "fault 2"),
        Step::Ask("write e 0 A", "wrote 1"),
        Step::Both("read e 0 9", "bytes 416263"),
        Step::Ask("rename e d/f", "done"),
        Step::Both("read d/f 0 9", "bytes 416263"),
        Step::Ask("write d/f 1 B", "wrote 1"),
        Step::Both("read d/f 0 9", "bytes 414263"),
        Step::Failed(0),
    ];
    tell(rt, "renamed-file", STEPS)
}

/// Makes the folder with that number, and in it a file that contains the number.
fn make_one(alloc: Global, opened: &mut Opened, n: u64) -> Result<(), Fail> {
    let made = format!(in alloc; "mkdir d/{n}")?;
    opened.expect(alloc, made.as_str(), "done")?;
    let file = format!(in alloc; "make d/{n}/f")?;
    opened.expect(alloc, file.as_str(), "done")?;
    let written = format!(in alloc; "write d/{n}/f 0 {n}")?;
    opened.expect(alloc, written.as_str(), "wrote 3")
}

/// Checks that the last byte of that number's file is the last digit of the number.
fn check_one(alloc: Global, opened: &mut Opened, n: u64) -> Result<(), Fail> {
    let read = format!(in alloc; "read d/{n}/f 2 9")?;
    let last = format!(in alloc; "bytes 3{}", n % 10)?;
    opened.expect(alloc, read.as_str(), last.as_str())
}

// More folders and files than are kept open.
fn ask_many(alloc: Global, opened: &mut Opened) -> Result<(), Fail> {
    for n in 100..400 {
        make_one(alloc, opened, n)?;
    }
    for n in 100..400 {
        check_one(alloc, opened, n)?;
    }
    for n in 100..400 {
        check_one(alloc, opened, 499 - n)?;
    }
    expect_count(opened.failed(), 0)
}

fn ask_many_at(rt: &HostRuntime, root: &str, capacity: usize) -> Result<(), Fail> {
    let mut opened = open_with(rt, root, capacity)?;
    ask_many(rt.alloc(), &mut opened)
}

#[test]
fn more_than_is_kept_is_found(rt: HostRuntime) -> Result<(), Fail> {
    for capacity in [CAPACITY, 4, 1] {
        let root = sample_folder(&rt, "many")?;
        ask_many_at(&rt, root.as_str(), capacity)?;
        fs::remove_dir_all(&rt, root.as_str())?;
    }
    Ok(())
}
