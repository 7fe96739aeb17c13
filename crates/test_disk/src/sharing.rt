//! Files that several workers share.

use crate::asking::Asked;
use crate::telling::{expect, fail, new_top, showing};
use crate::watched::{Watch, Watched};
use linux_disk::{LibC, Linux, OpenFd, SharedFiles};
use std::alloc::{AllocError, Global};
use std::fs::File;
use std::hash::RandomState;
use std::num::NonZeroUsize;
use std::random::RandomSource;
use std::rt::Files;
use std::sync::atomic::Ordering;
use std::sync::{Arc, Wait};
use std::test::Fail;
use std::thread::Threads;
use std::time::{Clock, Duration};
use std::{fs, thread};
use terms::{Kinds, Names};

type Served<R> = Linux<Watched<LibC>, SharedFiles<OpenFd, R>>;

fn open_shared<R: Wait + RandomSource + Clone + Drop>(
    rt: &R,
    alloc: Global,
    path: &str,
    watch: Arc<Watch>,
) -> Result<Served<R>, Fail> {
    let Some(two) = NonZeroUsize::new(2) else {
        return Err(Fail::from("no number"));
    };
    let store = SharedFiles::new(rt.clone()?, alloc, two, RandomState::new(rt)?)?;
    let calls = Watched::new(LibC::new(alloc, showing(Kinds::Plain, Names::Text))?, watch);
    match Linux::open(calls, store, alloc, path) {
        Ok(linux) => Ok(linux),
        Err(error) => Err(Fail::from(("it cannot be opened", error))),
    }
}

fn asked<R: Wait + Clone + Drop>(
    alloc: Global,
    served: Served<R>,
) -> Result<Asked<Served<R>>, Fail> {
    match Asked::new(alloc, served) {
        Ok(asked) => Ok(asked),
        Err(error) => Err(fail(error)),
    }
}

fn share<R: Wait + Clone + Drop>(served: &Served<R>) -> Result<Served<R>, Fail> {
    match served.share() {
        Ok(served) => Ok(served),
        Err(error) => Err(fail(error)),
    }
}

/// Who asks.
#[derive(Clone, Copy)]
enum Who {
    First,
    Second,
    /// So many files were opened so far.
    Opened(u64),
    /// Time passes.
    Wait,
    /// Others put another file in the place of that one.
    Others,
    /// Others take it away.
    Gone,
}

use Who::{First, Gone, Opened, Others, Second, Wait as Later};

/// Two workers serve the folder `in` there, and keep two files open.
fn tell<R: Files<File = File> + Clock + Wait + RandomSource + Clone + Drop>(
    rt: &R,
    alloc: Global,
    top: &str,
    steps: &[(Who, &str, &str)],
) -> Result<(), Fail> {
    let path = format!(in alloc; "{top}/in")?;
    let watch = Arc::new(alloc, Watch::new())?;
    let served = open_shared(rt, alloc, path.as_str(), Arc::try_clone(&watch)?)?;
    let mut second = asked(alloc, share(&served)?)?;
    let mut first = asked(alloc, served)?;
    for (who, words, wanted) in steps {
        match *who {
            First => expect(&mut first, *words, *wanted)?,
            Second => expect(&mut second, *words, *wanted)?,
            Opened(count) => {
                let opened = watch.opened.load(Ordering::SeqCst);
                if opened != count {
                    return Err(Fail::from((*words, opened, count)));
                }
            }
            Later => thread::sleep(rt, Duration::from_millis(1_100)),
            Others => {
                let place = format!(in alloc; "{}/{}", path.as_str(), *words)?;
                let other = format!(in alloc; "{top}/out/other")?;
                fs::write(rt, other.as_str(), *wanted)?;
                fs::rename(rt, other.as_str(), place.as_str())?;
            }
            Gone => {
                let place = format!(in alloc; "{}/{}", path.as_str(), *words)?;
                fs::remove_file(rt, place.as_str())?;
            }
        }
    }
    Ok(())
}

#[test]
fn what_one_worker_opened_is_open_for_the_other(rt: HostRuntime) -> Result<(), Fail> {
    const STEPS: &[(Who, &str, &str)] = &[
        (First, "make 0 a 444", "open 1"),
        (Second, "open 0 a w", "open 1"),
        (Second, "write 1 0 abc", "wrote 3"),
        (First, "read 1 0", "3 [97, 98, 99]"),
        (First, "rename 0 a 0 b", "done"),
        (Second, "changes", "3"),
        (Second, "open 0 a r", "Absent"),
        (Opened(1), "one that was not there", ""),
        (Second, "open 0 b r", "open 2"),
        (Second, "read 2 0", "3 [97, 98, 99]"),
        (First, "make 0 c 600", "open 2"),
        (First, "rename 0 c 0 b", "done"),
        (Second, "open 0 b r", "open 3"),
        (Second, "read 3 0", "0 []"),
        (First, "remove 0 b", "done"),
        (Second, "open 0 b r", "Absent"),
        (Second, "read 3 0", "0 []"),
        (First, "make 0 b 600", "open 3"),
        (First, "write 3 0 x", "wrote 1"),
        (Second, "open 0 b r", "open 4"),
        (Second, "read 4 0", "1 [120]"),
        (Opened(2), "another that was not there", ""),
        (First, "mkdir 0 d 700", "done"),
        (First, "dir 0 d", "open 4"),
        (Second, "dir 0 d", "open 5"),
        (First, "rename 0 b 4 b", "done"),
        (Second, "open 5 b w", "open 6"),
        (Second, "read 6 0", "1 [120]"),
        (Opened(2), "still", ""),
    ];
    let top = new_top(&rt, "shared")?;
    tell(&rt, rt.alloc(), top.as_str(), STEPS)?;
    fs::remove_dir_all(&rt, top.as_str())?;
    Ok(())
}

#[test]
fn least_used_file_goes_first(rt: HostRuntime) -> Result<(), Fail> {
    const STEPS: &[(Who, &str, &str)] = &[
        (First, "make 0 a 600", "open 1"),
        (First, "make 0 b 600", "open 2"),
        (First, "open 0 a w", "open 3"),
        (First, "make 0 c 600", "open 4"),
        (Second, "open 0 a r", "open 1"),
        (Second, "open 0 c r", "open 2"),
        (Opened(0), "kept", ""),
        (Second, "open 0 b r", "open 3"),
        (Opened(1), "not kept", ""),
        (First, "write 2 0 x", "wrote 1"),
        (Second, "read 3 0", "1 [120]"),
        (Second, "open 0 b w", "open 4"),
        (Opened(2), "kept to be read alone", ""),
        (First, "open 0 b r", "open 5"),
        (Opened(2), "kept to be written", ""),
    ];
    let top = new_top(&rt, "least")?;
    tell(&rt, rt.alloc(), top.as_str(), STEPS)?;
    fs::remove_dir_all(&rt, top.as_str())?;
    Ok(())
}

/// Within a second a name is taken to be what it was.
#[test]
fn what_others_put_there_is_seen_after_a_second(rt: HostRuntime) -> Result<(), Fail> {
    const STEPS: &[(Who, &str, &str)] = &[
        (First, "make 0 a 600", "open 1"),
        (First, "write 1 0 mine", "wrote 4"),
        (Later, "", ""),
        (Second, "open 0 a r", "open 1"),
        (Opened(0), "it was looked at", ""),
        (Others, "a", "other"),
        (Later, "", ""),
        (Second, "open 0 a r", "open 2"),
        (Opened(1), "it was opened", ""),
        (Second, "read 2 0", "5 [111, 116, 104, 101]"),
        (Second, "read 1 0", "4 [109, 105, 110, 101]"),
    ];
    let top = new_top(&rt, "others")?;
    tell(&rt, rt.alloc(), top.as_str(), STEPS)?;
    fs::remove_dir_all(&rt, top.as_str())?;
    Ok(())
}

/// What was kept open under a name that others have made free is not what stands there then. No time passes between.
#[test]
fn a_further_name_is_that_of_its_file(rt: HostRuntime) -> Result<(), Fail> {
    const STEPS: &[(Who, &str, &str)] = &[
        (First, "make 0 a 600", "open 1"),
        (First, "write 1 0 one", "wrote 3"),
        (First, "make 0 b 600", "open 2"),
        (Gone, "b", ""),
        (First, "name 0 a 0 b", "done"),
        (Second, "changes", "4"),
        (Second, "open 0 b w", "open 1"),
        (Opened(1), "not as it was kept", ""),
        (Second, "read 1 0", "3 [111, 110, 101]"),
        (Second, "write 1 0 two", "wrote 3"),
        (First, "read 1 0", "3 [116, 119, 111]"),
        (Second, "same 0 a 0 b", "one of 2"),
        (First, "remove 0 a", "done"),
        (Second, "open 0 a r", "Absent"),
        (First, "open 0 b r", "open 3"),
        (First, "read 3 0", "3 [116, 119, 111]"),
    ];
    let top = new_top(&rt, "further")?;
    tell(&rt, rt.alloc(), top.as_str(), STEPS)?;
    fs::remove_dir_all(&rt, top.as_str())?;
    Ok(())
}

/// Makes, writes, moves and removes a file of its own, so often: how many calls came to what they should.
fn work<R: Wait + Clone + Drop>(
    alloc: Global,
    served: Served<R>,
    mine: &str,
) -> Result<u64, AllocError> {
    let Ok(mut asked) = Asked::new(alloc, served) else {
        return Ok(0);
    };
    let make = format!(in alloc; "make 0 {mine} 600")?;
    let rename = format!(in alloc; "rename 0 {mine} 0 {mine}2")?;
    let open = format!(in alloc; "open 0 {mine}2 w")?;
    let remove = format!(in alloc; "remove 0 {mine}2")?;
    let steps = [
        (make.as_str(), "open 1"),
        ("write 1 0 x", "wrote 1"),
        (rename.as_str(), "done"),
        (open.as_str(), "open 2"),
        ("read 2 0", "1 [120]"),
        ("close", "done"),
        ("close", "done"),
        (remove.as_str(), "done"),
    ];
    let mut right = 0u64;
    for _time in 0..100u32 {
        for (words, wanted) in &steps {
            if asked.ask(*words)?.as_str() == *wanted {
                right = right.saturating_add(1);
            }
        }
    }
    Ok(right)
}

/// Two threads serve it at once.
fn work_both<R: Wait + Threads + RandomSource + Clone + Drop + Send + 'static>(
    rt: &R,
    alloc: Global,
    path: &str,
) -> Result<(u64, u64), Fail> {
    let watch = Arc::new(alloc, Watch::new())?;
    let first = open_shared(rt, alloc, path, watch)?;
    let second = share(&first)?;
    let other = thread::spawn(rt, move || work(alloc, second, "b"))?;
    let right = work(alloc, first, "a")?;
    let theirs = other.join(rt)?;
    Ok((right, theirs))
}

#[test]
fn workers_on_threads(rt: HostRuntime) -> Result<(), Fail> {
    let alloc = rt.alloc();
    let top = new_top(&rt, "threads")?;
    let path = format!(in alloc; "{}/in", top.as_str())?;
    let right = work_both(&rt, alloc, path.as_str())?;
    assert_eq!(rt; right, (800, 800));
    fs::remove_dir_all(&rt, top.as_str())?;
    Ok(())
}
