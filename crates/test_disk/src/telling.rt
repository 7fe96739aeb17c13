//! Stories of a real folder: what others put into it, and what its calls come to. Each is told in a new folder beside one that no call may reach.

use crate::asking::Asked;
use disk::{DiskError, System};
use linux_disk::{LibC, Linux, NoFiles, OpenFd};
use std::os::unix::fs::{MetadataExt, PermissionsExt, symlink};
use std::os::unix::net::UnixListener;
use std::test::Fail;
use std::{env, fs, io, process};
use terms::{AttributeSource, Kinds, Names, Settings};

/// What others put at a place.
#[derive(Clone, Copy)]
pub enum Item<'a> {
    /// A link with that text. `OUT` at its front is the folder outside.
    Link(&'a str),
    /// A file with that text.
    File(&'a str),
    /// A folder with those permission bits.
    Folder(u32),
    Socket,
    /// What stood there, a file or a link, is taken away.
    Nothing,
    /// What stands at that other name, moved.
    Moved(&'a str),
}

#[derive(Clone, Copy)]
pub enum Step<'a> {
    /// Others put that there.
    Put(&'a str, Item<'a>),
    /// A call, and what it comes to.
    Ask(&'a str, &'a str),
}

/// The text of the file outside.
const SECRET: &str = "what nobody may read";

fn put(rt: &HostRuntime, top: &str, place: &str, item: Item) -> io::Result<()> {
    match item {
        Item::Link(text) => match text.strip_prefix("OUT") {
            Some(rest) => symlink(
                rt,
                format!(in rt.alloc(); "{top}/out{rest}")?.as_str(),
                place,
            ),
            None => symlink(rt, text, place),
        },
        Item::File(text) => fs::write(rt, place, text),
        Item::Folder(bits) => {
            fs::create_dir(rt, place)?;
            fs::set_permissions(rt, place, fs::Permissions::from_mode(bits))
        }
        Item::Socket => {
            let _listener = UnixListener::bind(rt, place)?;
            Ok(())
        }
        Item::Nothing => fs::remove_file(rt, place),
        Item::Moved(name) => {
            fs::rename(
                rt,
                format!(in rt.alloc(); "{top}/in/{name}")?.as_str(),
                place,
            )
        }
    }
}

/// A new folder with one `in` and one `out`, in which a file and a folder stand.
pub fn new_top(rt: &HostRuntime, name: &str) -> io::Result<String> {
    let place = env::temp_dir(rt)?;
    let alloc = rt.alloc();
    let top = format!(in alloc;
        "{}/linux-disk-{name}-{}",
        place.as_str(),
        process::id(rt.process())
    )?;
    let _ = fs::remove_dir_all(rt, top.as_str());
    fs::create_dir(rt, top.as_str())?;
    fs::create_dir(rt, format!(in alloc; "{}/in", top.as_str())?.as_str())?;
    fs::create_dir(rt, format!(in alloc; "{}/out", top.as_str())?.as_str())?;
    fs::create_dir(rt, format!(in alloc; "{}/out/d", top.as_str())?.as_str())?;
    fs::write(
        rt,
        format!(in alloc; "{}/out/f", top.as_str())?.as_str(),
        SECRET,
    )?;
    Ok(top)
}

/// What stands there, but when it was last read.
fn state_of(rt: &HostRuntime, top: &str, name: &str) -> io::Result<String> {
    let place = format!(in rt.alloc(); "{top}/out{name}")?;
    let seen = fs::symlink_metadata(rt, place.as_str())?;
    let state = format!(in rt.alloc();
        "{:o} {} {} {} {} {} {}",
        seen.mode(),
        seen.uid(),
        seen.nlink(),
        seen.size(),
        seen.mtime(),
        seen.mtime_nsec(),
        seen.ctime_nsec()
    )?;
    Ok(state)
}

/// All that stands outside.
fn outside(rt: &HostRuntime, top: &str) -> io::Result<String> {
    let all = format!(in rt.alloc();
        "{}, {}, {}",
        state_of(rt, top, "")?,
        state_of(rt, top, "/d")?,
        state_of(rt, top, "/f")?
    )?;
    Ok(all)
}

/// The error as a story fails by it.
pub fn fail(error: DiskError) -> Fail {
    Fail::from(("a call failed", error.errno()))
}

fn take<S: System + Drop>(
    rt: &HostRuntime,
    top: &str,
    asked: &mut Asked<S>,
    step: Step,
) -> Result<(), Fail> {
    match step {
        Step::Put(name, item) => {
            let place = format!(in rt.alloc(); "{top}/in/{name}")?;
            put(rt, top, place.as_str(), item)?;
            Ok(())
        }
        Step::Ask(words, wanted) => expect(asked, words, wanted),
    }
}

/// The call comes to that.
pub fn expect<S: System + Drop>(
    asked: &mut Asked<S>,
    words: &str,
    wanted: &str,
) -> Result<(), Fail> {
    let told = asked.ask(words)?;
    if told.as_str() == wanted {
        return Ok(());
    }
    Err(Fail::from((words, told.as_str(), wanted)))
}

/// Takes each step.
pub fn take_all<S: System + Drop>(
    rt: &HostRuntime,
    top: &str,
    system: S,
    steps: &[Step],
) -> Result<(), Fail> {
    let mut asked = match Asked::new(rt.alloc(), system) {
        Ok(asked) => asked,
        Err(error) => return Err(fail(error)),
    };
    for step in steps {
        take(rt, top, &mut asked, *step)?;
    }
    Ok(())
}

/// These kinds are shown, and these names.
pub fn showing(kinds: Kinds, names: Names) -> Settings {
    Settings {
        attributes: AttributeSource::Host,
        kinds,
        names,
    }
}

/// The folder at that path, of which this is shown.
pub fn open_at(
    rt: &HostRuntime,
    path: &str,
    settings: Settings,
) -> Result<Linux<LibC, NoFiles<OpenFd>>, Fail> {
    let calls = LibC::new(rt.alloc(), settings)?;
    match Linux::open(calls, NoFiles::new(), rt.alloc(), path) {
        Ok(linux) => Ok(linux),
        Err(error) => Err(Fail::from(("it cannot be opened", error))),
    }
}

/// Takes each step in a new folder, of which files and folders alone are shown. What is outside stays as it is.
pub fn tell(rt: HostRuntime, name: &str, steps: &[Step]) -> Result<(), Fail> {
    tell_of(rt, name, Kinds::Plain, steps)
}

/// The same, of which these kinds are shown.
pub fn tell_of(rt: HostRuntime, name: &str, kinds: Kinds, steps: &[Step]) -> Result<(), Fail> {
    let top = new_top(&rt, name)?;
    let before = outside(&rt, top.as_str())?;
    let path = format!(in rt.alloc(); "{}/in", top.as_str())?;
    let linux = open_at(&rt, path.as_str(), showing(kinds, Names::Text))?;
    take_all(&rt, top.as_str(), linux, steps)?;
    let after = outside(&rt, top.as_str())?;
    if after.as_str() != before.as_str() {
        return Err(Fail::from((name, after, before)));
    }
    fs::remove_dir_all(&rt, top.as_str())?;
    Ok(())
}
