//! Stories about a real folder: what others put into it, and what its calls answer. Each starts with a new sample
//! folder.

use crate::asked::{Asked, expect_count};
use crate::asking::path_of;
use crate::opening::{CAPACITY, Opened, open_of};
use crate::sample_trees::{place_of, sample_folder};
use crate::watch::Trick;
use backing::{Answer, Call};
use payload::{Details, Time};
use std::os::unix::fs::{MetadataExt, PermissionsExt, symlink};
use std::os::unix::net::UnixListener;
use std::test::Fail;
use std::{fs, io};
use terms::Kinds;

/// For so many milliseconds a look at a folder is trusted.
pub const TRUSTED: u64 = 1_000;

/// What others put at a place in the folder, without the folder's calls.
#[derive(Clone, Copy)]
pub enum Item<'a> {
    /// A link to that place.
    Link(&'a str),
    /// A file with that text.
    File(&'a str),
    Folder,
    Socket,
    /// What was there, a file, is removed.
    Nothing,
    /// What is at that other name of the folder is moved there.
    Moved(&'a str),
    /// What is there gets those permission bits.
    Bits(u32),
}

#[derive(Clone, Copy)]
pub enum Step<'a> {
    /// Others put that at the name.
    Put(&'a str, Item<'a>),
    /// So many milliseconds pass. Else no time does.
    Pass(u64),
    /// More time passes than a look is trusted.
    Later,
    /// From now on that goes wrong.
    Play(Trick),
    /// A call, and its answer.
    Ask(&'a str, &'a str),
    /// The same, where these calls of the system are made.
    Costs(&'a str, &'a str, &'a str),
    /// A call that is made only where root serves the folder, and its answer.
    Root(&'a str, &'a str),
    /// A call, its answer where root serves the folder, and else.
    Rights(&'a str, &'a str, &'a str),
    /// The same, and a folder that was just opened has the same answer.
    Both(&'a str, &'a str),
    /// A STAT reports what the system reports about what is at the name.
    Same(&'a str),
    /// The owner and group of what is there may be set to what they are.
    Own(&'a str),
    /// That many of the calls so far were counted as failures.
    Failed(u64),
}

/// Puts it at that place.
pub fn put(rt: &HostRuntime, root: &str, place: &str, item: Item) -> io::Result<()> {
    match item {
        Item::Link(to) => symlink(rt, to, place),
        Item::File(text) => fs::write(rt, place, text),
        Item::Folder => fs::create_dir(rt, place),
        Item::Socket => {
            let _listener = UnixListener::bind(rt, place)?;
            Ok(())
        }
        Item::Nothing => fs::remove_file(rt, place),
        Item::Moved(name) => fs::rename(rt, place_of(rt.alloc(), root, name)?.as_str(), place),
        Item::Bits(bits) => fs::set_permissions(rt, place, fs::Permissions::from_mode(bits)),
    }
}

/// What the system reports about what is there, as a directory would.
pub fn details_at(rt: &HostRuntime, root: &str, name: &str) -> io::Result<Details> {
    let place = place_of(rt.alloc(), root, name)?;
    let metadata = fs::symlink_metadata(rt, place.as_str())?;
    let time = |seconds: i64, nanos: i64| Time {
        seconds: seconds.cast_unsigned(),
        nanos: u32::try_from(nanos).unwrap_or(u32::MAX),
    };
    Ok(Details {
        ino: metadata.ino(),
        permissions: metadata.permissions().mode() % 0o10000,
        links: u32::try_from(metadata.nlink()).unwrap_or(u32::MAX),
        uid: metadata.uid(),
        gid: metadata.gid(),
        accessed: time(metadata.atime(), metadata.atime_nsec()),
        modified: time(metadata.mtime(), metadata.mtime_nsec()),
        changed: time(metadata.ctime(), metadata.ctime_nsec()),
    })
}

fn expect_same(rt: &HostRuntime, root: &str, opened: &mut Opened, name: &str) -> Result<(), Fail> {
    let path = path_of(rt.alloc(), name)?;
    match opened.answer(Call::Stat(&path)) {
        Answer::Stat { details, .. } => {
            let wanted = details_at(rt, root, name)?;
            if details == wanted {
                return Ok(());
            }
            Err(Fail::from((name, details, wanted)))
        }
        _ => Err(Fail::from((name, "no details"))),
    }
}

/// Sets owner and group to what they are, each alone and both together.
fn expect_own(rt: &HostRuntime, root: &str, opened: &mut Opened, name: &str) -> Result<(), Fail> {
    let Details { uid, gid, .. } = details_at(rt, root, name)?;
    let alloc = rt.alloc();
    for words in [
        format!(in alloc; "chown {name} {uid} {gid}")?,
        format!(in alloc; "chown {name} {uid} -")?,
        format!(in alloc; "chown {name} - {gid}")?,
        format!(in alloc; "chown {name} - -")?,
    ] {
        opened.expect(alloc, words.as_str(), "done")?;
    }
    expect_same(rt, root, opened, name)
}

/// Checks that a folder that was just opened and shows these kinds has that answer.
fn expect_anew(
    rt: &HostRuntime,
    root: &str,
    kinds: Kinds,
    words: &str,
    wanted: &str,
) -> Result<(), Fail> {
    let mut anew = open_of(rt, root, CAPACITY, kinds)?;
    anew.expect(rt.alloc(), words, wanted)
}

/// Checks the answer, and that it takes these calls of the system.
fn expect_calls(
    rt: &HostRuntime,
    opened: &mut Opened,
    words: &str,
    wanted: &str,
    calls: &str,
) -> Result<(), Fail> {
    opened.watch.take()?;
    opened.expect(rt.alloc(), words, wanted)?;
    let made = opened.watch.take()?;
    if made.as_str().trim_start() == calls {
        return Ok(());
    }
    Err(Fail::from((words, made, calls)))
}

fn take(rt: &HostRuntime, root: &str, opened: &mut Opened, step: Step) -> Result<(), Fail> {
    match step {
        Step::Put(name, item) => {
            let place = place_of(rt.alloc(), root, name)?;
            put(rt, root, place.as_str(), item)?;
        }
        Step::Pass(milliseconds) => opened.watch.pass(milliseconds),
        Step::Later => opened.watch.pass(TRUSTED + 1),
        Step::Play(trick) => opened.watch.play(trick),
        Step::Ask(words, wanted) => opened.expect(rt.alloc(), words, wanted)?,
        Step::Costs(words, wanted, calls) => expect_calls(rt, opened, words, wanted, calls)?,
        Step::Root(words, wanted) => {
            if opened.watch.user() == 0 {
                opened.expect(rt.alloc(), words, wanted)?;
            }
        }
        Step::Rights(words, wanted, refused) => {
            let wanted = if opened.watch.user() == 0 {
                wanted
            } else {
                refused
            };
            opened.expect(rt.alloc(), words, wanted)?;
        }
        Step::Both(words, wanted) => {
            opened.expect(rt.alloc(), words, wanted)?;
            expect_anew(rt, root, opened.kinds, words, wanted)?;
        }
        Step::Same(name) => expect_same(rt, root, opened, name)?,
        Step::Own(name) => expect_own(rt, root, opened, name)?,
        Step::Failed(count) => expect_count(opened.failed(), count)?,
    }
    Ok(())
}

fn take_all(rt: &HostRuntime, root: &str, opened: &mut Opened, steps: &[Step]) -> Result<(), Fail> {
    for step in steps {
        take(rt, root, opened, *step)?;
    }
    Ok(())
}

/// Takes each step in the folder at that path.
fn tell_at(
    rt: HostRuntime,
    root: &str,
    capacity: usize,
    kinds: Kinds,
    steps: &[Step],
) -> Result<(), Fail> {
    let mut opened = open_of(&rt, root, capacity, kinds)?;
    take_all(&rt, root, &mut opened, steps)
}

/// Takes each step in a new sample folder with that name, of which so many files and folders are kept open and these kinds are
/// shown.
fn tell_in(
    rt: HostRuntime,
    name: &str,
    capacity: usize,
    kinds: Kinds,
    steps: &[Step],
) -> Result<(), Fail> {
    let root = sample_folder(&rt, name)?;
    tell_at(rt, root.as_str(), capacity, kinds, steps)?;
    fs::remove_dir_all(&rt, root.as_str())?;
    Ok(())
}

/// Takes each step in a new sample folder with that name, of which so many files and folders are kept open. Files and folders alone
/// are shown.
pub fn tell_with(rt: HostRuntime, name: &str, capacity: usize, steps: &[Step]) -> Result<(), Fail> {
    tell_in(rt, name, capacity, Kinds::Plain, steps)
}

/// Takes each step in a new sample folder with that name, of which all kinds are shown.
pub fn tell_all(rt: HostRuntime, name: &str, steps: &[Step]) -> Result<(), Fail> {
    tell_in(rt, name, CAPACITY, Kinds::All, steps)
}

/// Takes each step in a new sample folder with that name, of which files and folders alone are shown.
pub fn tell(rt: HostRuntime, name: &str, steps: &[Step]) -> Result<(), Fail> {
    tell_with(rt, name, CAPACITY, steps)
}
