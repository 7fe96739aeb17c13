//! A real folder whose system fails, or changes between two of its calls.

use crate::asked::expect_told;
use crate::opening::open;
use crate::rows::tell_folder;
use crate::sample_trees::sample_folder;
use crate::telling::{Item, Step, details_at, tell};
use crate::watch::Trick;
use disk::DiskError;
use payload::Time;
use std::fs;
use std::test::Fail;
use std::time::{SystemTime, UNIX_EPOCH};

/// In the folder at that path, in which that goes wrong, the calls have these answers, and so many are counted as failures.
fn tell_trick_at(
    rt: &HostRuntime,
    root: &str,
    trick: Trick,
    rows: &[(&str, &str)],
    count: u64,
) -> Result<(), Fail> {
    let mut opened = open(rt, root)?;
    opened.watch.play(trick);
    expect_told(rt.alloc(), &mut opened, rows, count)
}

/// The same in a new sample folder.
fn tell_trick(
    rt: &HostRuntime,
    name: &str,
    trick: Trick,
    rows: &[(&str, &str)],
    count: u64,
) -> Result<(), Fail> {
    let root = sample_folder(rt, name)?;
    tell_trick_at(rt, root.as_str(), trick, rows, count)?;
    fs::remove_dir_all(rt, root.as_str())?;
    Ok(())
}

#[test]
fn a_failure_has_its_number(rt: HostRuntime) -> Result<(), Fail> {
    let failures = [
        (DiskError::Absent, "fault 2", 0),
        (DiskError::Failed(13), "fault 13", 1),
        (DiskError::Exists, "fault 17", 1),
        (DiskError::NotFolder, "fault 20", 1),
        (DiskError::Failed(12), "fault 12", 1),
        (DiskError::Failed(40), "fault 40", 1),
    ];
    for (error, fault, count) in failures {
        let rows = [("stat a", fault)];
        tell_trick(&rt, "looks", Trick::Look(error), rows.as_slice(), count)?;
    }
    Ok(())
}

/// What is at `e` is unchanged.
#[test]
fn a_file_replaced_before_it_is_opened_is_not_touched(rt: HostRuntime) -> Result<(), Fail> {
    const WORDS: [&str; 7] = [
        "read a 0 9",
        "write a 0 xyz",
        "setlen a 7",
        "sync a",
        "chmod a 7777",
        "chown a 0 -",
        "utimes a 5.1 6.2",
    ];
    for words in WORDS {
        let rows = [
            ("chmod e 640", "done"),
            ("utimes e 1.2 3.4", "done"),
            (words, "fault 5"),
            ("stat e", "file 0"),
            ("mode e", "640"),
            ("times e", "1.2 3.4"),
        ];
        tell_trick(&rt, "replaced", Trick::Replace, rows.as_slice(), 1)?;
    }
    Ok(())
}

/// The same in a folder in which others may write: there no link is followed.
#[test]
fn no_link_is_followed_that_others_put_there(rt: HostRuntime) -> Result<(), Fail> {
    const WORDS: [(&str, &str); 7] = [
        ("read a 0 9", "fault 40"),
        ("write a 0 xyz", "fault 40"),
        ("setlen a 7", "fault 40"),
        ("sync a", "fault 40"),
        ("chmod a 7777", "fault 40"),
        ("chown a 0 -", "fault 40"),
        ("utimes a 5.1 6.2", "fault 40"),
    ];
    for (words, wanted) in WORDS {
        let rows = [
            ("chmod . 777", "done"),
            ("chmod e 640", "done"),
            ("utimes e 1.2 3.4", "done"),
            (words, wanted),
            ("stat e", "file 0"),
            ("mode e", "640"),
            ("times e", "1.2 3.4"),
        ];
        tell_trick(&rt, "others", Trick::Replace, rows.as_slice(), 1)?;
    }
    Ok(())
}

// The system tells that the folder has names, and a look at them shows it.
#[test]
fn a_folder_is_not_removed_with_what_came_into_it(rt: HostRuntime) -> Result<(), Fail> {
    let rows = [
        ("rmdir d", "fault 39"),
        ("list d", "names late"),
        ("read d/late 0 9", "bytes 6c617465"),
    ];
    tell_trick(&rt, "late", Trick::Enter, rows.as_slice(), 0)
}

// What another process creates between the look at a target and the rename is replaced without an error.
#[test]
fn a_move_replaces_what_came_after_its_look(rt: HostRuntime) -> Result<(), Fail> {
    let rows = [("rename-new a b", "done"), ("read b 0 9", "bytes 616263")];
    tell_trick(&rt, "arrived", Trick::Arrive, rows.as_slice(), 0)
}

/// All is closed then, and opened again.
#[test]
fn a_move_that_failed_has_its_number(rt: HostRuntime) -> Result<(), Fail> {
    const STEPS: &[Step] = &[
        Step::Put("d/f", Item::File("one")),
        Step::Ask("read d/f 0 9", "bytes 6f6e65"),
        Step::Ask("read a 0 9", "bytes 616263"),
        Step::Play(Trick::Rename(DiskError::Failed(18))),
        Step::Ask("rename a d/f", "fault 18"),
        Step::Failed(1),
        Step::Ask("rename-new a d/g", "fault 18"),
        Step::Failed(2),
        Step::Both("read d/f 0 9", "bytes 6f6e65"),
        Step::Both("read a 0 9", "bytes 616263"),
        Step::Play(Trick::Nothing),
        Step::Ask("rename a d/f", "done"),
        Step::Both("read d/f 0 9", "bytes 616263"),
        Step::Failed(2),
    ];
    tell(rt, "not-moved", STEPS)
}

// Then permission bits and owners are set by name, and times are not.
#[test]
fn what_cannot_be_opened_is_changed_by_its_name(rt: HostRuntime) -> Result<(), Fail> {
    let rows = [
        ("chmod a 0", "done"),
        ("mode a", "0"),
        ("chmod a 750", "done"),
        ("mode a", "750"),
        ("chmod d 700", "done"),
        ("mode d", "700"),
        ("mkdir m 7777", "done"),
        ("mode m", "7777"),
        ("chown a - -", "done"),
        ("utimes a - -", "done"),
        ("utimes a now -", "fault 13"),
        ("chmod e 600", "fault 1"),
    ];
    tell_trick(&rt, "shut", Trick::Shut, rows.as_slice(), 2)
}

/// Checks that it is no more than a minute ago.
fn expect_recent(rt: &HostRuntime, time: Time) -> Result<(), Fail> {
    let now = SystemTime::now(rt)?.duration_since(UNIX_EPOCH)?;
    if time.seconds.abs_diff(now.as_secs()) <= 60 {
        return Ok(());
    }
    Err(Fail::from(("that is not now", time.seconds)))
}

#[test]
fn now_is_what_the_clock_says(rt: HostRuntime) -> Result<(), Fail> {
    const ROWS: &[(&str, &str)] = &[
        ("utimes a 5.1 6.2", "done"),
        ("utimes d 5.1 6.2", "done"),
        ("utimes a now -", "done"),
        ("utimes d - now", "done"),
    ];
    let root = sample_folder(&rt, "now")?;
    tell_folder(&rt, root.as_str(), ROWS, 0)?;
    let a = details_at(&rt, root.as_str(), "a")?;
    let d = details_at(&rt, root.as_str(), "d")?;
    expect_recent(&rt, a.accessed)?;
    expect_recent(&rt, d.modified)?;
    assert_eq!(rt; (a.modified.seconds, a.modified.nanos), (6, 2));
    assert_eq!(rt; (d.accessed.seconds, d.accessed.nanos), (5, 1));
    fs::remove_dir_all(&rt, root.as_str())?;
    Ok(())
}

/// For a second after a look a folder is used without one, and what stands in it is looked at. Then it is looked at once more.
#[test]
fn a_folder_that_was_looked_at_is_used_without_a_look(rt: HostRuntime) -> Result<(), Fail> {
    const STEPS: &[Step] = &[
        Step::Ask("make d/f", "done"),
        Step::Ask("make d/g", "done"),
        Step::Ask("mkdir d/x", "done"),
        Step::Ask("mkdir d/y", "done"),
        Step::Ask("make d/i", "done"),
        Step::Ask("rename d/i d/h", "done"),
        Step::Ask("write d/f 0 abc", "wrote 3"),
        Step::Ask("stat d/x", "folder 0"),
        Step::Play(Trick::Blind),
        Step::Ask("stat d/f", "file 3"),
        Step::Ask("stat d/g", "file 0"),
        Step::Ask("stat d/h", "file 0"),
        Step::Ask("stat d/x", "folder 0"),
        Step::Ask("list d/x", "names"),
        Step::Ask("rename d/g d/x/g", "done"),
        Step::Ask("rename-new d/x/g d/g", "done"),
        Step::Ask("remove d/g", "done"),
        Step::Ask("make d/g", "done"),
        Step::Ask("rmdir d/y", "done"),
        Step::Later,
        Step::Ask("stat d/g", "fault 2"),
        Step::Ask("list d/x", "fault 2"),
        Step::Ask("rename d/h d/i", "fault 2"),
        Step::Ask("rename-new d/h d/i", "fault 2"),
        Step::Ask("remove d/g", "fault 2"),
        Step::Ask("rmdir d/x", "fault 2"),
        Step::Ask("stat d", "fault 2"),
        Step::Failed(0),
        Step::Play(Trick::Nothing),
        Step::Both("read d/f 0 9", "bytes 616263"),
        Step::Both("list d", "names f g h x/"),
        Step::Failed(0),
    ];
    tell(rt, "blind", STEPS)
}

/// No file has a byte there.
#[test]
fn what_no_file_is_as_long_as(rt: HostRuntime) -> Result<(), Fail> {
    const ROWS: &[(&str, &str)] = &[
        ("read a 3 9", "bytes "),
        ("read a 9223372036854775807 9", "bytes "),
        ("read a 9223372036854775808 9", "bytes "),
        ("read a 18446744073709551615 9", "bytes "),
        ("write a 9223372036854775808 x", "fault 27"),
        ("write a 18446744073709551615 x", "fault 5"),
        ("setlen a 9223372036854775808", "fault 27"),
        ("setlen a 18446744073709551615", "fault 27"),
        ("stat a", "file 3"),
        ("read a 0 9", "bytes 616263"),
    ];
    tell_trick(&rt, "longest", Trick::Nothing, ROWS, 4)
}
