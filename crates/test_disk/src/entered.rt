//! Folders that may be entered and not read. Whoever runs the tests, those whose names end in `.shut` are such, and those with
//! `.later` where they are opened first.

use crate::asking::Asked;
use crate::telling::{Item, Step, fail, new_top, showing, take_all};
use crate::watched::{Watch, Watched};
use linux_disk::{LibC, Linux, NoFiles};
use std::fs;
use std::sync::Arc;
use std::test::Fail;
use terms::{Kinds, Names};

/// Takes each step in a new folder, of which files and folders alone are shown.
fn tell_shut(rt: HostRuntime, name: &str, steps: &[Step]) -> Result<(), Fail> {
    tell_shut_of(rt, name, Kinds::Plain, steps)
}

/// The same, of which these kinds are shown.
fn tell_shut_of(rt: HostRuntime, name: &str, kinds: Kinds, steps: &[Step]) -> Result<(), Fail> {
    let alloc = rt.alloc();
    let top = new_top(&rt, name)?;
    let path = format!(in alloc; "{}/in", top.as_str())?;
    let watch = Arc::new(alloc, Watch::new())?;
    let calls = Watched::new(LibC::new(alloc, showing(kinds, Names::Text))?, watch);
    match Linux::open(calls, NoFiles::new(), alloc, path.as_str()) {
        Ok(linux) => take_all(&rt, top.as_str(), linux, steps)?,
        Err(error) => return Err(Fail::from(("it cannot be opened", error))),
    }
    fs::remove_dir_all(&rt, top.as_str())?;
    Ok(())
}

#[test]
fn what_is_in_a_folder_is_served_by_its_name(rt: HostRuntime) -> Result<(), Fail> {
    const STEPS: &[Step] = &[
        Step::Put("a.shut", Item::Folder(0o711)),
        Step::Put("a.shut/f", Item::File("text")),
        Step::Put("a.shut/d", Item::Folder(0o755)),
        Step::Put("a.shut/d/g", Item::File("more")),
        Step::Ask("dir 0 a.shut", "open 1"),
        Step::Ask("inspect 1", "folder 0 711"),
        Step::Ask("list 1", "failed 13"),
        Step::Ask("sync 1", "failed 13"),
        Step::Ask("look 1 f", "file 4 644"),
        Step::Ask("look 1 none", "Absent"),
        Step::Ask("open 1 f w", "open 2"),
        Step::Ask("write 2 0 TEXT", "wrote 4"),
        Step::Ask("read 2 0", "4 [84, 69, 88, 84]"),
        Step::Ask("make 1 new 600", "open 3"),
        Step::Ask("make 1 new 600", "Exists"),
        Step::Ask("look 1 new", "file 0 600"),
        Step::Ask("mkdir 1 sub 770", "done"),
        Step::Ask("look 1 sub", "folder 0 770"),
        Step::Ask("mode-at 1 f 604", "done"),
        Step::Ask("look 1 f", "file 4 604"),
        Step::Ask("mode 1 751", "done"),
        Step::Ask("look 0 a.shut", "folder 0 751"),
        Step::Ask("times 1 1.0 1.0", "failed 13"),
        Step::Ask("times 1 - -", "done"),
        Step::Ask("rename 1 new 0 out", "done"),
        Step::Ask("rename 0 out 1 back", "done"),
        Step::Ask("rename 1 back 1 again", "done"),
        Step::Ask("remove 1 again", "done"),
        Step::Ask("remove 1 again", "Absent"),
        Step::Ask("rmdir 1 sub", "done"),
        Step::Ask("rmdir 1 d", "NotEmpty"),
        Step::Ask("rmdir 1 f", "NotFolder"),
        Step::Ask("dir 1 f", "NotFolder"),
        Step::Ask("dir 1 none", "Absent"),
        Step::Ask("dir 1 d", "open 4"),
        Step::Ask("list 4", "names g"),
        Step::Ask("look 4 g", "file 4 644"),
    ];
    tell_shut(rt, "entered", STEPS)
}

#[test]
fn one_stands_in_another(rt: HostRuntime) -> Result<(), Fail> {
    const STEPS: &[Step] = &[
        Step::Put("a.shut", Item::Folder(0o711)),
        Step::Put("a.shut/b.shut", Item::Folder(0o711)),
        Step::Put("a.shut/b.shut/f", Item::File("text")),
        Step::Ask("dir 0 a.shut", "open 1"),
        Step::Ask("dir 1 b.shut", "open 2"),
        Step::Ask("inspect 2", "folder 0 711"),
        Step::Ask("list 2", "failed 13"),
        Step::Ask("look 2 f", "file 4 644"),
        Step::Ask("open 2 f r", "open 3"),
        Step::Ask("read 3 0", "4 [116, 101, 120, 116]"),
        Step::Ask("make 2 new 640", "open 4"),
        Step::Ask("rename 2 new 1 new", "done"),
        Step::Ask("look 1 new", "file 0 640"),
        Step::Put("a.shut/b.shut/f", Item::Nothing),
        Step::Ask("rmdir 1 b.shut", "done"),
        Step::Ask("look 2 f", "Absent"),
        Step::Ask("inspect 2", "Absent"),
    ];
    tell_shut(rt, "nested", STEPS)
}

/// One whose rights were set meanwhile is listed, brought to the disk and given times. A link in its place is not followed.
#[test]
fn one_that_may_be_read_by_now_is_read(rt: HostRuntime) -> Result<(), Fail> {
    const STEPS: &[Step] = &[
        Step::Put("a.later", Item::Folder(0o711)),
        Step::Put("a.later/f", Item::File("text")),
        Step::Ask("dir 0 a.later", "open 1"),
        Step::Ask("list 1", "names f"),
        Step::Ask("sync 1", "done"),
        Step::Ask("times 1 1.0 1.0", "done"),
        Step::Ask("rename 0 a.later 0 away", "done"),
        Step::Put("a.later", Item::Link("OUT")),
        Step::Ask("list 1", "failed 40"),
        Step::Ask("sync 1", "failed 40"),
        Step::Ask("times 1 1.0 1.0", "failed 40"),
    ];
    tell_shut(rt, "later", STEPS)
}

/// A link that is put in the place of the folder, or in it, is not followed: not even by the calls that follow none at the last name.
#[test]
fn no_link_is_followed_there(rt: HostRuntime) -> Result<(), Fail> {
    const STEPS: &[Step] = &[
        Step::Put("a.shut", Item::Folder(0o711)),
        Step::Put("a.shut/way", Item::Link("OUT/f")),
        Step::Put("a.shut/b.shut", Item::Link("OUT/d")),
        Step::Ask("dir 0 a.shut", "open 1"),
        Step::Ask("look 1 way", "other"),
        Step::Ask("open 1 way r", "failed 40"),
        Step::Ask("mode-at 1 way 777", "failed 40"),
        Step::Ask("dir 1 b.shut", "NotFolder"),
        Step::Ask("link 1 own f", "done"),
        Step::Ask("target 1 own", "to f"),
        Step::Ask("rename 0 a.shut 0 away", "done"),
        Step::Put("a.shut", Item::Link("OUT")),
        Step::Ask("target 1 f", "failed 40"),
        Step::Ask("link 1 own f", "failed 40"),
        Step::Ask("inspect 1", "failed 40"),
        Step::Ask("look 1 f", "failed 40"),
        Step::Ask("open 1 f r", "failed 40"),
        Step::Ask("make 1 new 600", "failed 40"),
        Step::Ask("mkdir 1 new 700", "failed 40"),
        Step::Ask("dir 1 d", "failed 40"),
        Step::Ask("mode 1 777", "failed 40"),
        Step::Ask("mode-at 1 f 777", "failed 40"),
        Step::Ask("remove 1 f", "failed 40"),
        Step::Ask("rmdir 1 d", "failed 40"),
        Step::Ask("rename 1 f 0 f", "failed 40"),
        Step::Ask("dir 0 a.shut", "NotFolder"),
    ];
    tell_shut(rt, "shut", STEPS)
}

/// A link there is shown, and nothing but its owner is set.
#[test]
fn links_are_shown_there(rt: HostRuntime) -> Result<(), Fail> {
    const STEPS: &[Step] = &[
        Step::Put("a.shut", Item::Folder(0o711)),
        Step::Put("a.shut/f", Item::File("text")),
        Step::Ask("dir 0 a.shut", "open 1"),
        Step::Ask("link 1 own f", "done"),
        Step::Ask("look 1 own", "link 1 777"),
        Step::Ask("target 1 own", "to f"),
        Step::Ask("target 1 f", "failed 22"),
        Step::Ask("open 1 own r", "failed 40"),
        Step::Ask("dir 1 own", "NotFolder"),
        Step::Ask("mode-at 1 own 600", "failed 95"),
        Step::Ask("times-at 1 own 1.0 1.0", "failed 38"),
        Step::Ask("times-at 1 f 1.0 1.0", "failed 13"),
        Step::Ask("rename 1 own 1 f", "done"),
        Step::Ask("look 1 f", "link 1 777"),
        Step::Ask("remove 1 f", "done"),
    ];
    tell_shut_of(rt, "links-there", Kinds::All, STEPS)
}
