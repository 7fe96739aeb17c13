//! Each call, and each way in which it is refused.

use crate::telling::{Item, Step, tell};
use std::test::Fail;

#[test]
fn files_are_made_written_read_and_cut(rt: HostRuntime) -> Result<(), Fail> {
    const STEPS: &[Step] = &[
        Step::Ask("make 0 a 640", "open 1"),
        Step::Ask("make 0 a 640", "Exists"),
        Step::Ask("inspect 1", "file 0 640"),
        Step::Ask("write 1 0 hello", "wrote 5"),
        Step::Ask("read 1 1", "4 [101, 108, 108, 111]"),
        Step::Ask("read 1 5", "0 []"),
        Step::Ask("read 1 9223372036854775808", "0 []"),
        Step::Ask("write 1 9223372036854775808 x", "failed 27"),
        Step::Ask("setlen 1 9223372036854775808", "failed 27"),
        Step::Ask("setlen 1 2", "done"),
        Step::Ask("look 0 a", "file 2 640"),
        Step::Ask("sync 1", "done"),
        Step::Ask("sync 0", "done"),
        Step::Ask("open 0 a r", "open 2"),
        Step::Ask("read 2 0", "2 [104, 101]"),
        Step::Ask("write 2 0 x", "failed 9"),
        Step::Ask("setlen 2 0", "failed 22"),
        Step::Ask("open 0 a w", "open 3"),
        Step::Ask("write 3 4 x", "wrote 1"),
        Step::Ask("read 3 0", "5 [104, 101, 0, 0]"),
        Step::Ask("make 0 b -", "open 4"),
        Step::Ask("make 0 c 0", "open 5"),
        Step::Ask("write 5 0 x", "wrote 1"),
        Step::Ask("look 0 c", "file 1 0"),
        Step::Ask("make 0 s 7777", "open 6"),
        Step::Ask("look 0 s", "file 0 7777"),
        Step::Ask("make 0 w 622", "open 7"),
        Step::Ask("look 0 w", "file 0 622"),
        Step::Ask("read 0 0", "IsFolder"),
        Step::Ask("open 0 none r", "Absent"),
        Step::Ask("list 1", "NotFolder"),
    ];
    tell(rt, "files", STEPS)
}

#[test]
fn folders_are_made_listed_and_removed(rt: HostRuntime) -> Result<(), Fail> {
    const STEPS: &[Step] = &[
        Step::Ask("list 0", "names"),
        Step::Ask("mkdir 0 d 755", "done"),
        Step::Ask("mkdir 0 d 755", "Exists"),
        Step::Ask("mkdir 0 all 1777", "done"),
        Step::Ask("look 0 d", "folder 0 755"),
        Step::Ask("look 0 all", "folder 0 1777"),
        Step::Ask("dir 0 d", "open 1"),
        Step::Ask("inspect 1", "folder 0 755"),
        Step::Ask("make 1 a 600", "open 2"),
        Step::Ask("mkdir 1 sub 700", "done"),
        Step::Ask("list 1", "names a sub"),
        Step::Ask("list 1", "names a sub"),
        Step::Ask("dir 1 a", "NotFolder"),
        Step::Ask("dir 1 none", "Absent"),
        Step::Ask("open 1 sub w", "IsFolder"),
        Step::Ask("make 1 sub 600", "Exists"),
        Step::Ask("remove 1 sub", "IsFolder"),
        Step::Ask("rmdir 1 a", "NotFolder"),
        Step::Ask("rmdir 0 d", "NotEmpty"),
        Step::Ask("rmdir 1 none", "Absent"),
        Step::Ask("remove 1 none", "Absent"),
        Step::Ask("changes", "11"),
        Step::Ask("remove 1 a", "done"),
        Step::Ask("rmdir 1 sub", "done"),
        Step::Ask("changes", "13"),
        Step::Ask("list 1", "names"),
        Step::Ask("rmdir 0 d", "done"),
        Step::Ask("list 1", "Absent"),
        Step::Ask("make 1 a 600", "Absent"),
        Step::Ask("look 1 a", "Absent"),
        Step::Ask("read 2 0", "0 []"),
    ];
    tell(rt, "folders", STEPS)
}

#[test]
fn names_are_moved(rt: HostRuntime) -> Result<(), Fail> {
    const STEPS: &[Step] = &[
        Step::Put("a", Item::File("abc")),
        Step::Put("b", Item::File("b")),
        Step::Put("d", Item::Folder(0o755)),
        Step::Put("d/x", Item::File("x")),
        Step::Put("e", Item::Folder(0o755)),
        Step::Ask("dir 0 d", "open 1"),
        Step::Ask("dir 0 e", "open 2"),
        Step::Ask("open 0 a r", "open 3"),
        Step::Ask("rename 0 a 1 a", "done"),
        Step::Ask("changes", "1"),
        Step::Ask("look 0 a", "Absent"),
        Step::Ask("look 1 a", "file 3 644"),
        Step::Ask("read 3 0", "3 [97, 98, 99]"),
        Step::Ask("rename 1 a 1 x", "done"),
        Step::Ask("look 1 x", "file 3 644"),
        Step::Ask("rename 0 none 0 b", "Absent"),
        Step::Ask("rename 0 b 0 d", "IsFolder"),
        Step::Ask("rename 0 d 0 b", "NotFolder"),
        Step::Ask("rename 0 e 0 d", "NotEmpty"),
        Step::Ask("rename 0 d 1 d", "failed 22"),
        Step::Ask("changes", "7"),
        Step::Ask("rename 0 d 2 d", "done"),
        Step::Ask("look 1 x", "file 3 644"),
        Step::Ask("list 2", "names d"),
        Step::Put("e/d/y", Item::File("y")),
        Step::Ask("list 1", "names x y"),
    ];
    tell(rt, "moved", STEPS)
}

/// The longest name that Linux's file systems take, and one more.
#[test]
fn long_names(rt: HostRuntime) -> Result<(), Fail> {
    let alloc = rt.alloc();
    let mut long = String::new(alloc);
    for _ in 0..255u32 {
        long.push_str("n")?;
    }
    let name = long.as_str();
    let texts = [
        format!(in alloc; "make 0 {name} 600")?,
        format!(in alloc; "look 0 {name}")?,
        format!(in alloc; "open 0 {name} w")?,
        format!(in alloc; "rename 0 {name} 0 short")?,
        format!(in alloc; "rename 0 short 0 {name}")?,
        format!(in alloc; "remove 0 {name}")?,
        format!(in alloc; "mkdir 0 {name} 700")?,
        format!(in alloc; "dir 0 {name}")?,
        format!(in alloc; "rmdir 0 {name}")?,
        format!(in alloc; "make 0 {name}n 600")?,
        format!(in alloc; "look 0 {name}n")?,
    ];
    let steps = [
        Step::Ask(texts[0].as_str(), "open 1"),
        Step::Ask(texts[1].as_str(), "file 0 600"),
        Step::Ask(texts[2].as_str(), "open 2"),
        Step::Ask(texts[3].as_str(), "done"),
        Step::Ask(texts[4].as_str(), "done"),
        Step::Ask(texts[5].as_str(), "done"),
        Step::Ask(texts[6].as_str(), "done"),
        Step::Ask(texts[7].as_str(), "open 3"),
        Step::Ask(texts[8].as_str(), "done"),
        Step::Ask(texts[9].as_str(), "failed 36"),
        Step::Ask(texts[10].as_str(), "failed 36"),
    ];
    tell(rt, "long", &steps)
}
