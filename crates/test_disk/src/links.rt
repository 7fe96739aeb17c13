//! What is neither a file nor a folder, and above all links: no call follows one.

use crate::telling::{Item, Step, open_at, showing, take_all, tell, tell_of};
use std::test::Fail;
use terms::{Kinds, Names};

#[test]
fn no_call_follows_a_link(rt: HostRuntime) -> Result<(), Fail> {
    const STEPS: &[Step] = &[
        Step::Put("file", Item::Link("OUT/f")),
        Step::Put("way", Item::Link("OUT")),
        Step::Put("bare", Item::Link("OUT/d")),
        Step::Put("new", Item::Link("OUT/new")),
        Step::Put("self", Item::Link("self")),
        Step::Put("up", Item::Link("..")),
        Step::Put("d", Item::Folder(0o777)),
        Step::Put("d/file", Item::Link("OUT/f")),
        Step::Put("d/socket", Item::Socket),
        Step::Put("mine", Item::File("mine")),
        Step::Ask("dir 0 d", "open 1"),
        Step::Ask("look 0 file", "other"),
        Step::Ask("look 0 way", "other"),
        Step::Ask("look 1 socket", "other"),
        Step::Ask("dir 0 way", "NotFolder"),
        Step::Ask("dir 0 up", "NotFolder"),
        Step::Ask("dir 0 self", "NotFolder"),
        Step::Ask("open 1 file r", "failed 40"),
        Step::Ask("open 1 file w", "failed 40"),
        Step::Ask("open 1 socket r", "failed 6"),
        Step::Ask("make 0 file 600", "Exists"),
        Step::Ask("make 0 new 600", "Exists"),
        Step::Ask("make 1 file 600", "Exists"),
        Step::Ask("mkdir 0 new 700", "Exists"),
        Step::Ask("mkdir 0 bare 700", "Exists"),
        Step::Ask("rmdir 0 bare", "NotFolder"),
        Step::Ask("mode-at 1 file 777", "failed 40"),
        Step::Ask("times-at 1 file 1.0 1.0", "failed 13"),
        Step::Ask("rename 0 mine 0 file", "done"),
        Step::Ask("look 0 file", "file 4 644"),
        Step::Ask("rename 0 bare 0 bare2", "done"),
        Step::Ask("look 0 bare2", "other"),
        Step::Ask("remove 0 bare2", "done"),
        Step::Ask("remove 0 way", "done"),
        Step::Ask("remove 1 file", "done"),
        Step::Ask("remove 1 socket", "done"),
        Step::Ask("list 0", "names d file new self up"),
    ];
    tell(rt, "links", STEPS)
}

/// All kinds are shown. A link is read, made, moved and removed, and nothing but its owner is set.
#[test]
fn links_are_read_and_made(rt: HostRuntime) -> Result<(), Fail> {
    const STEPS: &[Step] = &[
        Step::Put("up", Item::Link("..")),
        Step::Put("out", Item::Link("OUT/f")),
        Step::Put("d", Item::Folder(0o777)),
        Step::Put("mine", Item::File("mine")),
        Step::Ask("dir 0 d", "open 1"),
        Step::Ask("look 0 up", "link 2 777"),
        Step::Ask("target 0 up", "to .."),
        Step::Ask("target 0 mine", "failed 22"),
        Step::Ask("target 0 d", "failed 22"),
        Step::Ask("target 0 none", "Absent"),
        Step::Ask("link 0 new no/where", "done"),
        Step::Ask("look 0 new", "link 8 777"),
        Step::Ask("target 0 new", "to no/where"),
        Step::Ask("link 0 new other", "Exists"),
        Step::Ask("link 0 out other", "Exists"),
        Step::Ask("link 0 mine other", "Exists"),
        Step::Ask("link 0 d other", "Exists"),
        Step::Ask("link 1 up ../up", "done"),
        Step::Ask("target 1 up", "to ../up"),
        Step::Ask("open 1 up r", "failed 40"),
        Step::Ask("dir 1 up", "NotFolder"),
        Step::Ask("changes", "6"),
        Step::Ask("mode-at 0 out 600", "failed 95"),
        Step::Ask("mode-at 0 new 600", "failed 95"),
        Step::Ask("mode-at 0 none 600", "Absent"),
        Step::Ask("times-at 0 new 1.0 1.0", "failed 38"),
        Step::Ask("times-at 0 mine 1.0 1.0", "failed 13"),
        Step::Ask("owner-at 0 new - -", "done"),
        Step::Ask("owner-at 0 new 4294967295 -", "failed 22"),
        Step::Ask("rename 0 new 1 new", "done"),
        Step::Ask("target 1 new", "to no/where"),
        Step::Ask("rename 1 new 0 mine", "done"),
        Step::Ask("look 0 mine", "link 8 777"),
        Step::Ask("rename 0 mine 0 d", "IsFolder"),
        Step::Ask("rename 0 d 0 mine", "NotFolder"),
        Step::Ask("rmdir 0 mine", "NotFolder"),
        Step::Ask("remove 0 mine", "done"),
        Step::Ask("target 0 mine", "Absent"),
    ];
    tell_of(rt, "made", Kinds::All, STEPS)
}

/// A socket is shown, and what is set of it goes by its name.
#[test]
fn special_files_are_shown(rt: HostRuntime) -> Result<(), Fail> {
    const STEPS: &[Step] = &[
        Step::Put("socket", Item::Socket),
        Step::Ask("mode-at 0 socket 640", "done"),
        Step::Ask("look 0 socket", "socket 0 640"),
        Step::Ask("times-at 0 socket 1.0 1.0", "failed 38"),
        Step::Ask("target 0 socket", "failed 22"),
        Step::Ask("link 0 socket other", "Exists"),
        Step::Ask("rename 0 socket 0 moved", "done"),
        Step::Ask("look 0 moved", "socket 0 640"),
        Step::Ask("remove 0 moved", "done"),
    ];
    tell_of(rt, "special", Kinds::All, STEPS)
}

/// Linux's own devices, by their numbers: 1 and 3, and 1 and 5.
#[test]
fn devices_have_their_numbers(rt: HostRuntime) -> Result<(), Fail> {
    const SHOWN: &[Step] = &[
        Step::Ask("look 0 null", "character 259 666"),
        Step::Ask("look 0 zero", "character 261 666"),
    ];
    const NOT_SHOWN: &[Step] = &[Step::Ask("look 0 null", "other")];
    let all = open_at(&rt, "/dev", showing(Kinds::All, Names::Text))?;
    take_all(&rt, "/dev", all, SHOWN)?;
    let plain = open_at(&rt, "/dev", showing(Kinds::Plain, Names::Text))?;
    take_all(&rt, "/dev", plain, NOT_SHOWN)
}

/// A text of a thousand bytes.
#[test]
fn long_texts(rt: HostRuntime) -> Result<(), Fail> {
    let alloc = rt.alloc();
    let mut long = String::new(alloc);
    for _ in 0..100u32 {
        long.push_str("/123456789")?;
    }
    let text = long.as_str();
    let make = format!(in alloc; "link 0 long {text}")?;
    let told = format!(in alloc; "to {text}")?;
    let steps = [
        Step::Ask(make.as_str(), "done"),
        Step::Ask("look 0 long", "link 1000 777"),
        Step::Ask("target 0 long", told.as_str()),
    ];
    tell_of(rt, "long-link", Kinds::All, &steps)
}

/// In a folder that nobody else may change a link is opened through, if the caller has not looked first; once its rights are set, it is not.
#[test]
fn guard_follows_the_rights(rt: HostRuntime) -> Result<(), Fail> {
    const STEPS: &[Step] = &[
        Step::Put("d", Item::Folder(0o755)),
        Step::Put("d/own", Item::Link("f")),
        Step::Put("d/f", Item::File("here")),
        Step::Ask("dir 0 d", "open 1"),
        Step::Ask("inspect 1", "folder 0 755"),
        Step::Ask("open 1 own r", "open 2"),
        Step::Ask("mode 1 775", "done"),
        Step::Ask("open 1 own r", "failed 40"),
        Step::Ask("open 1 f w", "open 3"),
        Step::Ask("mode 1 757", "done"),
        Step::Ask("open 1 own r", "failed 40"),
        Step::Ask("mode 1 755", "done"),
        Step::Ask("open 1 own r", "open 4"),
        Step::Ask("mode-at 0 d 777", "done"),
        Step::Ask("open 1 own r", "failed 40"),
        Step::Ask("mode-at 0 d 700", "done"),
        Step::Ask("open 1 own r", "open 5"),
    ];
    tell(rt, "guard", STEPS)
}
