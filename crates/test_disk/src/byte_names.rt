//! Names that are no UTF-8: a listing has them where names are bytes, and leaves them out where they are texts.

use crate::telling::{Item, Step, new_top, open_at, showing, take_all};
use std::fs;
use std::test::Fail;
use terms::{Kinds, Names};

/// Each call takes such a name, in the folder itself and below it. Names that differ in one byte are two.
const BYTES: &[Step] = &[
    Step::Put("a", Item::File("text")),
    Step::Put("\u{e4}", Item::File("text")),
    Step::Ask("make 0 x:ff61 640", "open 1"),
    Step::Ask("write 1 0 hello", "wrote 5"),
    Step::Ask("look 0 x:ff61", "file 5 640"),
    Step::Ask("look 0 x:ff62", "Absent"),
    Step::Ask("look 0 x:fe61", "Absent"),
    Step::Ask("mkdir 0 x:c3 755", "done"),
    Step::Ask("dir 0 x:c3", "open 2"),
    Step::Ask("make 2 x:80 600", "open 3"),
    Step::Ask("make 2 x:80 600", "Exists"),
    Step::Ask("link 0 x:6cfe a", "done"),
    Step::Ask("target 0 x:6cfe", "to a"),
    Step::Ask("list 0", "names a x:6cfe x:c3 x:ff61 \u{e4}"),
    Step::Ask("list 2", "names x:80"),
    Step::Ask("rename 2 x:80 0 x:ffff", "done"),
    Step::Ask("name 0 x:ffff 2 x:01fe", "done"),
    Step::Ask("same 0 x:ffff 2 x:01fe", "one of 2"),
    Step::Ask("mode-at 0 x:ffff 604", "done"),
    Step::Ask("look 2 x:01fe", "file 0 604"),
    Step::Ask("remove 0 x:ffff", "done"),
    Step::Ask("open 0 x:ff61 r", "open 4"),
    Step::Ask("read 4 1", "4 [101, 108, 108, 111]"),
];

/// The same folder of which texts are shown. Text of more than one byte is text.
const TEXT: &[Step] = &[
    Step::Ask("list 0", "names a \u{e4}"),
    Step::Ask("dir 0 x:c3", "open 1"),
    Step::Ask("list 1", "names"),
    Step::Ask("look 1 x:01fe", "file 0 604"),
    Step::Ask("remove 1 x:01fe", "done"),
    Step::Ask("list 0", "names a \u{e4}"),
];

#[test]
fn names_of_any_bytes_are_shown_or_left_out(rt: HostRuntime) -> Result<(), Fail> {
    let top = new_top(&rt, "byte-names")?;
    let path = format!(in rt.alloc(); "{}/in", top.as_str())?;
    for (names, steps) in [(Names::Bytes, BYTES), (Names::Text, TEXT)] {
        let linux = open_at(&rt, path.as_str(), showing(Kinds::All, names))?;
        take_all(&rt, top.as_str(), linux, steps)?;
    }
    fs::remove_dir_all(&rt, top.as_str())?;
    Ok(())
}
