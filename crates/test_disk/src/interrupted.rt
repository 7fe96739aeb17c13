//! Calls that a signal ends.

use crate::asking::Asked;
use crate::telling::{expect, fail, new_top, showing};
use crate::watched::{Watch, Watched};
use linux_disk::{LibC, Linux, NoFiles};
use std::fs;
use std::sync::Arc;
use std::sync::atomic::Ordering;
use std::test::Fail;
use terms::{Kinds, Names};

/// How many calls a signal ends, what is asked then, and what it comes to.
const STEPS: &[(u64, &str, &str)] = &[
    (0, "make 0 a 600", "open 1"),
    (2, "write 1 0 hello", "wrote 5"),
    (2, "read 1 0", "5 [104, 101, 108, 108]"),
    (3, "setlen 1 2", "done"),
    (1, "sync 1", "done"),
    (1, "mode 1 640", "done"),
    (2, "mode-at 0 a 600", "done"),
    (2, "open 0 a w", "open 2"),
    (0, "mkdir 0 d 700", "done"),
    (2, "dir 0 d", "open 3"),
    (1, "make 0 b 600", "failed 4"),
    (0, "look 0 b", "Absent"),
];

#[test]
fn what_a_signal_ended_is_done_again(rt: HostRuntime) -> Result<(), Fail> {
    let alloc = rt.alloc();
    let top = new_top(&rt, "signal")?;
    let path = format!(in alloc; "{}/in", top.as_str())?;
    let watch = Arc::new(alloc, Watch::new())?;
    let calls = Watched::new(
        LibC::new(alloc, showing(Kinds::Plain, Names::Text))?,
        Arc::try_clone(&watch)?,
    );
    let linux = match Linux::open(calls, NoFiles::new(), alloc, path.as_str()) {
        Ok(linux) => linux,
        Err(error) => return Err(Fail::from(("it cannot be opened", error))),
    };
    let mut asked = match Asked::new(alloc, linux) {
        Ok(asked) => asked,
        Err(error) => return Err(fail(error)),
    };
    for (left, words, wanted) in STEPS {
        watch.left.store(*left, Ordering::SeqCst);
        expect(&mut asked, *words, *wanted)?;
    }
    fs::remove_dir_all(&rt, top.as_str())?;
    Ok(())
}
